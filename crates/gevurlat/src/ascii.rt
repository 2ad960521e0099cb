// An answer and its results in ASCII, each piece as crate text appends.
ghost use Rattle.std.specs.Prelude.{◌+◌, ◌*◌, ◌/◌, ◌≤◌, ◌<◌, ◌≡◌, [], ◌∷◌, ◌++◌, length, take};
ghost use Rattle.io.specs.Counts.{IsPrefixLen};
ghost use Rattle.io.specs.Digits.{hex_digit_ascii};
ghost use Rattle.limits.specs.Limits.{slot};
ghost use Rattle.text.specs.Append.{Appends};
ghost use Rattle.text.specs.Decimal.{decimal};
ghost use Rattle.text.specs.Words.{newline};
ghost use Rattle.gevurlat.specs.Text.{hexadecimal, lines as Text·lines, Shown};

use card::Answer;
use text::push;

pub(crate) fn show(a: Answer, results: &[u8], out: &mut [u8]) -> usize
    requires { 63 + 3 * length results.now ≤ length out.old }
    ensures prefix_len { IsPrefixLen result out.new }
    ensures shown { Shown a results.now (take result out.new) }
{
    let after_code = number(a.code as u64, b' ', out, 0);
    let after_place = number(a.place as u64, b' ', out, after_code);
    let after_steps = number(a.steps as u64, b'\n', out, after_place);
    if a.code != card::DONE {
        return after_steps;
    }
    lines(results, out, after_steps)
}

// In decimal, and one byte after it.
fn number(n: u64, last: u8, out: &mut [u8], at: usize) -> usize
    requires { at + 21 ≤ length out.old }
    ensures { Appends (decimal n ++ last ∷ []) out.old at result out.new }
{
    let to = text::decimal(n, out, at);
    push(last, out, to)
}

// A line for each result.
fn lines(results: &[u8], out: &mut [u8], at: usize) -> usize
    requires { at + 3 * length results.now ≤ length out.old }
    ensures { Appends (Text·lines results.now (length results.now / slot)) out.old at result out.new }
{
    let mut to = at;
    for n in 0..results.len() / limits::SLOT {
        let start = limits::SLOT * n;
        to = line(&results[start..start + limits::SLOT], out, to);
    }
    to
}

// Two digits a byte, byte 0 first.
fn line(bytes: &[u8], out: &mut [u8], at: usize) -> usize
    requires { at + 2 * length bytes.now < length out.old }
    ensures { Appends (hexadecimal bytes.now ++ newline ∷ []) out.old at result out.new }
{
    let mut to = at;
    for b in bytes {
        to = push(digit(b / 16), out, to);
        to = push(digit(b % 16), out, to);
    }
    push(b'\n', out, to)
}

fn digit(d: u8) -> u8
    requires { d < 16 }
    ensures { result ≡ hex_digit_ascii d }
{
    if d < 10 { b'0' + d } else { b'a' - 10 + d }
}
