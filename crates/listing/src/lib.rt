// The listing of a strip as text (02, C-11, C-13): one line an instruction, with the kinds on the stack before it.
#![tactic(auto)]

mod immediates;
mod line;
mod stack;

ghost use Rattle.std.specs.Prelude.{◌≤◌, ◌≡◌, length};
ghost use Rattle.rules.specs.Strip.{Valid};
ghost use Rattle.checker.specs.Walk.{Walks};
ghost use Rattle.listing.specs.Listing.{answer, Lists};
ghost use Rattle.listing.specs.Walk.{longest, Walked};
ghost use Rattle.listing.specs.Inner.Pass.{Passed};

use checker::State;

#[derive(Clone, Copy)]
pub struct Listed {
    pub code: u8,
    pub place: usize,
    pub len: usize,
}

// After a line: the next instruction's place, what is known there, and the line's length.
#[derive(Clone, Copy)]
pub struct Next {
    pub at: usize,
    pub state: State,
    pub len: usize,
}

// Room for any line: 20 digits of the place, the kinds in their brackets, 32 bytes of name, sixteen numbers of 21 bytes with the blanks before
// them, two blanks more and the line's end.
pub const LONGEST: usize = 5 * limits::STACK + 393;

pub fn list(strip: &[u8], out: &mut [u8]) -> Listed
    ensures { Lists strip.now out.old result out.new }
{
    let a = checker::check(strip);
    if a.code != card::DONE {
        return refused(a.code, a.place);
    }
    whole(strip, out)
}

// A strip that keeps every rule: the room is asked about before the first byte is written.
fn whole(strip: &[u8], out: &mut [u8]) -> Listed
    requires { Valid strip.now }
    ensures { Lists strip.now out.old result out.new }
{
    let len = pass(strip, &mut []);
    if out.len() < len {
        return refused(card::SMALL, 0);
    }
    pass(strip, out);
    Listed {
        code: card::DONE,
        place: 0,
        len,
    }
}

fn refused(code: u8, place: usize) -> Listed
    ensures { result ≡ answer code place 0 }
{
    Listed {
        code,
        place,
        len: 0,
    }
}

// All lines, one after the other, and their length. They are written where there is room for all of them; lent no room, they are only counted.
// The loop stays a `while`: `at` leaps by each instruction's length, and is no index over a collection.
fn pass(strip: &[u8], out: &mut [u8]) -> usize
    requires { Valid strip.now }
    ensures { Passed strip.now out.old result out.new }
{
    let mut kinds = [0u8; limits::STACK];
    let mut blocks = [0u32; limits::NEST];
    let mut text = [0u8; LONGEST];
    let mut state = checker::outset();
    let mut at = checker::start(strip);
    let mut to = 0;
    while at < strip.len() {
        let n = next_line(strip, at, &mut kinds, &mut blocks, state, &mut text);
        let len = n.len;
        text::put(&text[..len], out, to);
        to += len;
        state = n.state;
        at = n.at;
    }
    to
}

// The line of the instruction at a place that the walk over a strip has reached; then the walk stands after it.
pub fn next_line(
    strip: &[u8],
    at: usize,
    kinds: &mut [u8],
    blocks: &mut [u32],
    state: State,
    text: &mut [u8],
) -> Next
    requires { Walks strip.now at kinds.old blocks.old state × (longest ≤ length text.old) }
    ensures { Walked strip.now at kinds.old blocks.old state text.old result kinds.new blocks.new text.new }
{
    let f = instr::fetch(strip[3] as u16, strip, at);
    let d = f.decoded;
    let i = d.instr;
    let len = line::line(at, kinds, state.depth, f.id, f.entry, i, text);
    let next = at + d.len;
    let state = checker::follow(strip, at, instr::summary(f), kinds, blocks, state);
    Next {
        at: next,
        state,
        len,
    }
}
