// The check, and what is known at one place of the strip, in one walk (document 02, C-14).
ghost use Rattle.std.specs.Prelude.{ℕ, ◌+◌, ◌*◌, ◌≤◌, ◌≡◌, Bool, List, length, take};
ghost use Rattle.limits.specs.Limits.{stack_limit, nest_limit};
ghost use Rattle.opcode.specs.Kind.{Kind};
ghost use Rattle.rules.specs.Typing.{Frame};
ghost use Rattle.checker.specs.Walk.{OpenBlocks};
ghost use Rattle.checker.specs.Survey.{fronted, marks_of, Surveys};
ghost use Rattle.checker.specs.Inner.Coming.{Noted, TellsDead};

use crate::{Refusal, blocks, body, header};

// Of each open block three numbers: how many values are under it, what a branch to it does, and where its body begins. The number
// after them is the caller's: how many are open.
pub const OPEN: usize = 3 * limits::NEST;

pub const MARKS: usize = OPEN + 1;

// How many values are on the stack, and how many blocks are open, at a place.
#[derive(Clone, Copy)]
pub struct Surveyed {
    pub depth: usize,
    pub nest: usize,
}

// The check; and, where an instruction stands at the place that is asked, in no dead code, what is known there.
pub fn survey(
    strip: &[u8],
    place: usize,
    kinds: &mut [u8; limits::STACK],
    marks: &mut [usize; MARKS],
) -> Result<Option<Surveyed>, Refusal>
    ensures { Surveys strip.now place kinds.old marks.old result kinds.new marks.new }
{
    let h = header::read(strip)?;
    let mut held = [0u8; limits::STACK];
    let mut words = [0u32; limits::NEST];
    let mut begun = [0usize; limits::NEST];
    let walked = body::body(
        strip, h.version, h.locals, h.takes, h.start, place, &mut held, &mut words, &mut begun,
    )?;
    let Some(there) = walked else {
        return Ok(None);
    };
    if is_dead(&words, there.nest, there.dead) {
        return Ok(None);
    }
    put_kinds(&held, there.depth, kinds);
    put_marks(&words, &begun, there.nest, there.floor, marks);
    Ok(Some(Surveyed {
        depth: there.depth,
        nest: there.nest,
    }))
}

// Whether code is dead: in the innermost block, or around an open one.
fn is_dead(words: &[u32; limits::NEST], nest: usize, dead: bool) -> bool
    requires { (nest ≤ nest_limit) × (length words.now ≡ nest_limit) }
    ensures { (rs : List Kind) (fs : List Frame) (floor : ℕ) → OpenBlocks rs words.now nest floor dead fs → TellsDead fs result }
{
    if dead {
        return true;
    }
    for k in (0..nest).rev() {
        if blocks::dead_in(words[k]) {
            return true;
        }
    }
    false
}

// The first n of some kinds.
fn put_kinds(from: &[u8; limits::STACK], n: usize, kinds: &mut [u8])
    requires { (n ≤ stack_limit) × (length from.now ≡ stack_limit) × (length kinds.old ≡ stack_limit) }
    ensures { kinds.new ≡ fronted (take n from.now) kinds.old }
{
    kinds[..n].copy_from_slice(&from[..n]);
}

// The marks of the open blocks, the innermost first; what is under a block is the floor in the word of the next.
fn put_marks(
    words: &[u32; limits::NEST],
    bodies: &[usize; limits::NEST],
    nest: usize,
    floor: usize,
    marks: &mut [usize],
)
    requires { (nest ≤ nest_limit) × (length words.now ≡ nest_limit) × (length bodies.now ≡ nest_limit) × (length marks.old ≡ 3 * nest_limit + 1) }
    ensures { (rs : List Kind) (fs : List Frame) (bs : List ℕ) (dead : Bool) → OpenBlocks rs words.now nest floor dead fs → length bs ≡ nest → Noted bodies.now bs → marks.new ≡ fronted (marks_of fs bs) marks.old }
{
    let mut height = floor;
    for k in (0..nest).rev() {
        let w = words[k];
        let first = 3 * k;
        marks[first + 2] = bodies[k];
        marks[first + 1] = blocks::way_in(w);
        marks[first] = height;
        height = blocks::floor_in(w);
    }
}
