// The kinds on the stack in their brackets.
ghost use Rattle.std.specs.Prelude.{◌+◌, ◌*◌, ◌≤◌, List, ◌++◌, length};
ghost use Rattle.opcode.specs.Kind.{Kind};
ghost use Rattle.checker.specs.Walk.{KindBytes};
ghost use Rattle.listing.specs.Line.{bracketed};
ghost use Rattle.listing.specs.Inner.Parts.{kind_text, between, Adds};

use opcode::kind as kinds_of;

pub(crate) fn stack(kinds: &[u8], depth: usize, out: &mut [u8], at: usize) -> usize
    requires { (depth ≤ length kinds.now) × (at + 5 * depth + 2 ≤ length out.old) }
    ensures { (κs : List Kind) → KindBytes kinds.now depth κs → Adds (5 * depth + 2) (bracketed κs) out.old at result out.new }
{
    let mut to = text::push(b'[', out, at);
    for (k, b) in kinds[..depth].iter().enumerate() {
        to = next(k, *b, out, to);
    }
    text::push(b']', out, to)
}

// A kind, after a blank if it is not the first.
fn next(k: usize, b: u8, out: &mut [u8], at: usize) -> usize
    requires { at + 5 ≤ length out.old }
    ensures { Adds 5 (between k ++ kind_text b) out.old at result out.new }
{
    if k == 0 {
        return kind(b, out, at);
    }
    let to = text::push(b' ', out, at);
    kind(b, out, to)
}

fn kind(b: u8, out: &mut [u8], at: usize) -> usize
    requires { at + 4 ≤ length out.old }
    ensures { Adds 4 (kind_text b) out.old at result out.new }
{
    match b {
        kinds_of::I32 => text::put(b"i32", out, at),
        kinds_of::I64 => text::put(b"i64", out, at),
        _ => text::put(b"v128", out, at),
    }
}
