// A strip's answer as text.
ghost use Rattle.std.specs.Prelude.{◌+◌, ◌*◌, ◌≤◌, ◌≡◌, length, take};
ghost use Rattle.io.specs.Counts.{IsPrefixLen};
ghost use Rattle.gevurlat.specs.Program.{result_count, PrintsFrom, Prints};

use crate::ascii::show;

const BUDGET: u32 = 1000000;

// The memory's bytes: the program's own number, which does not move with the limit.
const MEMORY: usize = 65536;

// Room for three numbers of at most twenty digits and a byte after each, and for three bytes for each of the results' 64: a line of 33 for sixteen is
// less.
pub(crate) const LONGEST: usize = 255;

pub(crate) fn answer(strip: &[u8], out: &mut [u8]) -> usize
    requires { 255 ≤ length out.old }
    ensures prefix_len { IsPrefixLen result out.new }
    ensures prints { Prints strip.now (take result out.new) }
{
    let mut mem = [0u8; MEMORY];
    let mut results = [0u8; limits::SLOT * limits::RESULTS];
    let n = limits::SLOT * result_count(strip);
    answer_in(strip, &mut mem, &mut results[..n], out)
}

// What a strip that passes the check declares; of any other nothing is written.
fn result_count(strip: &[u8]) -> usize
    ensures { result ≡ result_count strip.now }
{
    if strip.len() < 8 {
        return 0;
    }
    let r = strip[7] as usize;
    if limits::RESULTS < r {
        limits::RESULTS
    } else {
        r
    }
}

fn answer_in(strip: &[u8], mem: &mut [u8], results: &mut [u8], out: &mut [u8]) -> usize
    requires { 63 + 3 * length results.old ≤ length out.old }
    ensures prefix_len { IsPrefixLen result out.new }
    ensures prints_from { PrintsFrom strip.now mem.old results.old (take result out.new) }
{
    let a = strip::run_once(strip, &[], mem, results, BUDGET);
    show(a, results, out)
}
