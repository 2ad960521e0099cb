// The rewriter: the same strip, every number in its shortest form.
#![tactic(auto)]

ghost use Rattle.std.specs.Prelude.{◌≡◌, length};
ghost use Rattle.rules.specs.Strip.{Valid};
ghost use Rattle.rewrite.specs.Rewrite.{answer, Rewrites};
ghost use Rattle.rewrite.specs.Inner.Pass.{AtPass, Passed};

#[derive(Clone, Copy)]
pub struct Rewritten {
    pub code: u8,
    pub place: usize,
    pub len: usize,
}

pub fn rewrite(strip: &[u8], out: &mut [u8]) -> Rewritten
    ensures { Rewrites strip.now out.old result out.new }
{
    let a = checker::check(strip);
    if a.code != card::DONE {
        return refused(a.code, a.place);
    }
    shorten(strip, out)
}

// A strip that keeps every rule: the room is asked about before the first byte is written.
fn shorten(strip: &[u8], out: &mut [u8]) -> Rewritten
    requires { Valid strip.now }
    ensures { Rewrites strip.now out.old result out.new }
{
    let version = strip[3] as u16;
    let start = checker::start(strip);
    let len = pass(version, strip, start, out, false);
    if out.len() < len {
        return refused(card::SMALL, 0);
    }
    buffer::copy(&strip[..start], out);
    pass(version, strip, start, out, true);
    Rewritten {
        code: card::DONE,
        place: 0,
        len,
    }
}

fn refused(code: u8, place: usize) -> Rewritten
    ensures { result ≡ answer code place 0 }
{
    Rewritten {
        code,
        place,
        len: 0,
    }
}

// A pass over the instructions of a strip of this version, from `start` to the end of the file. Their shortest forms are written, or only counted,
// from the same place of the output on; the answer is the place after them. One function for both passes: the decoder and the encoder have one caller
// here. The loop stays a `while`: `at` leaps by each instruction's length, and is no index over a collection.
fn pass(version: u16, strip: &[u8], start: usize, out: &mut [u8], writing: bool) -> usize
    requires { AtPass version strip.now start writing (length out.old) }
    ensures { Passed version strip.now start writing out.old result out.new }
{
    let mut at = start;
    let mut to = start;
    while at < strip.len() {
        let d = instr::decode(version, strip, at);
        let i = d.instr;
        at = at + d.len;
        if writing {
            let e = instr::encode(version, i, &mut out[to..]);
            to = to + e.len;
        } else {
            to = to + instr::encoded_len(i);
        }
    }
    to
}
