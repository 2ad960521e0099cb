// The check's walk over a strip that keeps every rule, for those who follow it: what it knows at a place, step by step.
ghost use Rattle.std.specs.Prelude.{◌≡◌};
ghost use Rattle.checker.specs.Walk.{outset as Walk·outset, read_at, Walks, Steps};

use crate::turns::State;
use crate::{body, numbers, turns};
use instr::Scanned;

// What is known at the first instruction: no value, no open block, no dead code.
pub fn outset() -> State
    ensures { result ≡ Walk·outset }
{
    State {
        depth: 0,
        nest: 0,
        floor: 0,
        dead: false,
    }
}

// From what is known at a place to what is known after the instruction there. The strip's own `end` leaves it as it is. What was read there is
// handed over, so that it is not read again.
pub fn follow(
    strip: &[u8],
    at: usize,
    d: Scanned,
    kinds: &mut [u8],
    blocks: &mut [u32],
    state: State,
) -> State
    requires { Walks strip.now at kinds.old blocks.old state × (d ≡ read_at strip.now at) }
    ensures { Steps strip.now at kinds.old blocks.old state kinds.new blocks.new result }
{
    let locals = strip[5] as usize + strip[6] as usize;
    let takes = numbers::top_first(strip, 8 + locals, strip[7] as usize);
    if body::is_last(d.entry, state.nest) {
        return state;
    }
    if turns::is_straight(d.entry) {
        let next = turns::straight(strip, locals, d.entry, d.immediate, kinds, state);
        return next.unwrap();
    }
    let next = turns::turn(takes, d.entry, d.immediate, kinds, blocks, state);
    next.unwrap()
}
