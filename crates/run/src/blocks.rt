// `end`, blocks and branches. Of each block that is open, three numbers are kept: how many values are under it, what a branch to it does, and where
// its body begins.
ghost use Rattle.std.specs.Prelude.{◌≡◌, cond, true, not, List, ℕ, ◌+◌, ◌*◌, ◌≤◌, ◌<◌, eqb, length, set};
ghost use Rattle.limits.specs.Limits.{nest_limit};
ghost use Rattle.opcode.specs.BlockType.{block_results};
ghost use Rattle.machine.specs.Inner.Flat.{HasOperands, top_of, low32};
ghost use Rattle.rules.specs.Strip.{Valid};
ghost use Rattle.standard.specs.Standard.{Config, step};
ghost use Rattle.run.specs.Inner.Carried.{open_in, Carries, Stacked, Seen, Led, turns_at, Branching, Branched};
ghost use Rattle.run.specs.Inner.Ends.{Kept};

use crate::ends::end_of;
use checker::LOOP;

// Where the strip goes on, and the values there. Place 0: it is left, with its results from the slot `depth` on.
#[derive(Clone, Copy)]
pub(crate) struct Next {
    pub at: usize,
    pub depth: usize,
}

// The same of a branch, and the blocks that are open there.
#[derive(Clone, Copy)]
pub(crate) struct Target {
    pub at: usize,
    pub depth: usize,
    pub nest: usize,
}

// Whether an instruction of this group is one of these.
pub(crate) fn turns(group: u8) -> bool
    ensures { result ≡ turns_at group }
{
    group == opcode::GROUP_END || opcode::GROUP_I32_LT_U < group
}

pub(crate) fn turn(
    strip: &[u8],
    group: u8,
    index: u32,
    block: u8,
    at: usize,
    len: usize,
    stack: &mut [u8; limits::STACK_BYTES],
    depth: usize,
    marks: &mut [usize; crate::MARKS],
    ends: &mut [u32; crate::ENDS],
) -> Next
    requires { Stacked strip.now at depth (open_in marks.old) stack.old marks.old × Seen strip.now at group index block len × Kept strip.now ends.old }
    ensures { ((v : Valid strip.now) (c : Config) (locals mem : List ℕ) → Carries strip.now v.header c at depth (open_in marks.old) stack.old marks.old locals mem → Led strip.now v.header (step strip.now v.header c) result.at result.depth (open_in marks.new) stack.new marks.new locals mem) × Kept strip.now ends.new }
{
    let next = at + len;
    let nest = marks[crate::OPEN];
    if group == opcode::GROUP_END {
        if nest == 0 {
            return Next { at: 0, depth: 0 };
        }
        marks[crate::OPEN] = nest - 1;
        return Next { at: next, depth };
    }
    if group == opcode::GROUP_BLOCK {
        mark(marks, nest, depth, results_of(block), next);
        return Next { at: next, depth };
    }
    if group == opcode::GROUP_LOOP {
        mark(marks, nest, depth, LOOP, next);
        return Next { at: next, depth };
    }
    let top = depth - (group - opcode::GROUP_BR) as usize;
    if taken(group, stack, depth) {
        let t = branch(strip, index as usize, stack, top, marks, nest, ends);
        marks[crate::OPEN] = t.nest;
        return Next {
            at: t.at,
            depth: t.depth,
        };
    }
    Next {
        at: next,
        depth: top,
    }
}

// A block begins.
fn mark(marks: &mut [usize], nest: usize, height: usize, way: usize, body: usize)
    requires { (nest < nest_limit) × (length marks.old ≡ 3 * nest_limit + 1) }
    ensures { marks.new ≡ set (set (set (set marks.old (3 * nest) height) (3 * nest + 1) way) (3 * nest + 2) body) (3 * nest_limit) (nest + 1) }
{
    marks[3 * nest] = height;
    marks[3 * nest + 1] = way;
    marks[3 * nest + 2] = body;
    marks[crate::OPEN] = nest + 1;
}

// How many results a block of this type has.
fn results_of(block: u8) -> usize
    ensures { result ≡ length (block_results block) }
{
    match block {
        opcode::kind::I32 | opcode::kind::I64 | opcode::kind::V128 => 1,
        _ => 0,
    }
}

// br; or br_if, and the number on top is not 0.
fn taken(group: u8, stack: &[u8], depth: usize) -> bool
    requires { (((group ≡ 27 → ⊥) → 1 ≤ depth)) × HasOperands 0 stack.now depth }
    ensures { result ≡ cond (eqb group 27) true (not (eqb (low32 (top_of stack.now depth 1)) 0)) }
{
    group == opcode::GROUP_BR || machine::top_word(stack, depth) != 0
}

// To the block of this number, the nearest being 0; past the last, out of the strip.
fn branch(
    strip: &[u8],
    index: usize,
    stack: &mut [u8; limits::STACK_BYTES],
    depth: usize,
    marks: &[usize],
    nest: usize,
    ends: &mut [u32],
) -> Target
    requires { Branching strip.now index depth nest stack.old marks.now × Kept strip.now ends.old }
    ensures { Branched strip.now index depth nest stack.old marks.now result.at result.depth result.nest stack.new × Kept strip.now ends.new }
{
    if index == nest {
        return Target {
            at: 0,
            depth: depth - strip[7] as usize,
            nest,
        };
    }
    let k = nest - 1 - index;
    let height = marks[3 * k];
    let way = marks[3 * k + 1];
    let body = marks[3 * k + 2];
    if way == LOOP {
        return Target {
            at: body,
            depth: height,
            nest: k + 1,
        };
    }
    let next = end_of(strip, body, limits::NEST - 1 - k, ends);
    if way == 0 {
        return Target {
            at: next,
            depth: height,
            nest: k,
        };
    }
    machine::carry(stack, depth - 1, height);
    Target {
        at: next,
        depth: height + 1,
        nest: k,
    }
}
