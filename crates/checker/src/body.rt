// The instructions, one after the other; the kinds of the locals stand in the strip's bytes from 8 on.
ghost use Rattle.std.specs.Prelude.{◌≡◌, ◌&&◌, cond, eqb, Some, IfOk, MatchResult};
ghost use Rattle.opcode.specs.Entry.{group_in};
ghost use Rattle.rules.specs.Strip.{Valid};
ghost use Rattle.rules.specs.Breach.{Breach};
ghost use Rattle.checker.specs.Inner.Parts.{AtEnd};
ghost use Rattle.checker.specs.Inner.Going.{Begins};
ghost use Rattle.checker.specs.Inner.Coming.{Stood};

use crate::turns::State;
use crate::{Refusal, refuse, stack, turns, walk};

// The walk: what is known at the place that is asked, if an instruction stands there. Lent are, of that place: the kinds held there, the words of
// the open blocks, and where their bodies begin. The loop stays a `loop`: `at` leaps by each instruction's length, and is no index over a collection.
pub(crate) fn body(
    strip: &[u8],
    version: u16,
    locals: usize,
    takes: u64,
    start: usize,
    place: usize,
    held: &mut [u8; limits::STACK],
    words: &mut [u32; limits::NEST],
    begun: &mut [usize; limits::NEST],
) -> Result<Option<State>, Refusal>
    requires { Begins strip.now version locals takes start }
    ensures says { MatchResult result (λ _. Valid strip.now) (λ e. Breach strip.now e.code e.place) }
    ensures stood { IfOk result (λ there. Stood strip.now version locals takes place held.new words.new begun.new there) }
{
    let mut kinds = [0u8; limits::STACK];
    let mut blocks = [0u32; limits::NEST];
    let mut bodies = [0usize; limits::NEST];
    let mut state = walk::outset();
    let mut there = None;
    let mut at = start;
    loop {
        there = note(
            at == place,
            &kinds,
            &blocks,
            &bodies,
            held,
            words,
            begun,
            state,
            there,
        );
        let d = instr::scan(version, strip, at);
        if d.code != card::DONE {
            return Err(refuse(d.code, d.place));
        }
        if turns::is_straight(d.entry) {
            match turns::straight(strip, locals, d.entry, d.immediate, &mut kinds, state) {
                Ok(next) => state = next,
                Err(code) => return Err(refuse(code, at)),
            }
            at += d.len;
            continue;
        }
        if is_last(d.entry, state.nest) {
            ending(strip, version, at, takes, &kinds, state.depth, state.dead)?;
            return Ok(there);
        }
        let nest = state.nest;
        match turns::turn(takes, d.entry, d.immediate, &mut kinds, &mut blocks, state) {
            Ok(next) => state = next,
            Err(code) => return Err(refuse(code, at)),
        }
        at += d.len;
        if nest < state.nest {
            bodies[nest] = at;
        }
    }
}

// If this is the place, what is known here is what was known there.
fn note(
    here: bool,
    kinds: &[u8; limits::STACK],
    blocks: &[u32; limits::NEST],
    bodies: &[usize; limits::NEST],
    held: &mut [u8; limits::STACK],
    words: &mut [u32; limits::NEST],
    begun: &mut [usize; limits::NEST],
    state: State,
    there: Option<State>,
) -> Option<State>
    ensures { (held.new ≡ cond here kinds.now held.old) × (words.new ≡ cond here blocks.now words.old) × (begun.new ≡ cond here bodies.now begun.old) × (result ≡ cond here (Some state) there) }
{
    if here {
        *held = *kinds;
        *words = *blocks;
        *begun = *bodies;
        return Some(state);
    }
    there
}

// Whether it is the `end` of the strip itself.
pub(crate) fn is_last(entry: u64, nest: usize) -> bool
    ensures { result ≡ (eqb nest 0 && eqb (group_in entry) 0) }
{
    nest == 0 && opcode::group(entry) == opcode::GROUP_END
}

// After this `end` was read: the stack is exactly the results, and nothing follows.
pub(crate) fn ending(
    strip: &[u8],
    version: u16,
    at: usize,
    takes: u64,
    kinds: &[u8],
    depth: usize,
    dead: bool,
) -> Result<(), Refusal>
    requires { AtEnd strip.now version takes at kinds.now depth dead }
    ensures { MatchResult result (λ _. Valid strip.now) (λ e. Breach strip.now e.code e.place) }
{
    if stack::under(takes, kinds, depth, 0, dead) != Some(0) {
        return Err(refuse(card::RESULT, at));
    }
    if at + 1 < strip.len() {
        return Err(refuse(card::TRAILING, at + 1));
    }
    Ok(())
}
