// The open blocks: a word each, lent beside their count.
ghost use Rattle.std.specs.Prelude.{ℕ, ◌≤◌, ◌<◌, ◌*◌, ◌^◌, ◌≡◌, Bool, true, List, length};
ghost use Rattle.limits.specs.Limits.{stack_limit, result_limit};
ghost use Rattle.opcode.specs.Kind.{Kind};
ghost use Rattle.opcode.specs.BlockType.{is_block_type, block_results};
ghost use Rattle.rules.specs.Typing.{Frame};
ghost use Rattle.checker.specs.Walk.{word, OpenBlocks};
ghost use Rattle.checker.specs.Survey.{way};
ghost use Rattle.checker.specs.Inner.Blocks.{top_first, Labelled};

const EMPTY: u32 = opcode::kind::EMPTY as u32;

// What a branch to a loop does; a block's number is that of its results.
pub const LOOP: usize = 2;

// The parts of a word that stand above its type.
const LOOPED: u32 = 256;

const DEAD: u32 = 2 * LOOPED;

const FLOOR: u32 = 2 * DEAD;

// A block's word: its type, whether it is a loop, whether the code around it is dead, and the floor of what is around it.
pub(crate) fn word_of(floor: usize, block: u32, looped: bool, dead: bool) -> u32
    requires { (floor ≤ stack_limit) × (block < 256) }
    ensures { result ≡ word floor block looped dead }
{
    block + LOOPED * u32::from(looped) + DEAD * u32::from(dead) + FLOOR * (floor as u32)
}

pub(crate) fn floor_in(w: u32) -> usize
    ensures { (floor type : ℕ) (loop dead : Bool) → type < 256 → w ≡ word floor type loop dead → result ≡ floor }
{
    (w / FLOOR) as usize
}

fn loop_in(w: u32) -> bool
    ensures { (floor type : ℕ) (loop dead : Bool) → type < 256 → w ≡ word floor type loop dead → result ≡ loop }
{
    w / LOOPED % 2 == 1
}

pub(crate) fn dead_in(w: u32) -> bool
    ensures { (floor type : ℕ) (loop dead : Bool) → type < 256 → w ≡ word floor type loop dead → result ≡ dead }
{
    w / DEAD % 2 == 1
}

// The results of its type, as a number of one byte.
pub(crate) fn results_in(w: u32) -> u64
    ensures { (result < 256) × ((floor type : ℕ) (loop dead : Bool) → is_block_type type ≡ true → w ≡ word floor type loop dead → result ≡ top_first (block_results type)) }
{
    let t = w % LOOPED;
    if t == EMPTY {
        return 0;
    }
    t as u64
}

// What a branch to it does: a loop begins again, of a block it takes the results along.
pub(crate) fn way_in(w: u32) -> usize
    ensures { (floor type : ℕ) (loop dead : Bool) → is_block_type type ≡ true → w ≡ word floor type loop dead → result ≡ way loop (block_results type) }
{
    if loop_in(w) {
        return LOOP;
    }
    if results_in(w) == 0 {
        return 0;
    }
    1
}

// What a branch to the n-th block takes, the top one first in a number.
pub(crate) fn takes(results: u64, blocks: &[u32], nest: usize, n: usize) -> u64
    requires { (results < 2 ^ 32) × (n ≤ nest) × (nest ≤ length blocks.now) }
    ensures { (result < 2 ^ 32) × ((rs : List Kind) (fs : List Frame) (floor : ℕ) (dead : Bool) → top_first rs ≡ results → length rs ≤ result_limit → OpenBlocks rs blocks.now nest floor dead fs → Labelled fs n result) }
{
    if n == nest {
        return results;
    }
    let w = blocks[nest - n - 1];
    if loop_in(w) {
        return 0;
    }
    results_in(w)
}
