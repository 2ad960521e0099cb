// One instruction that was read: `end` of a block, those that go by blocks, and the others.
ghost use Rattle.std.specs.Prelude.{ℕ, ◌+◌, ◌≤◌, ◌<◌, ◌^◌, ◌≡◌, true, false, List, length, drop, IfOk};
ghost use Rattle.limits.specs.Limits.{stack_limit, nest_limit, result_limit};
ghost use Rattle.opcode.specs.Kind.{Kind};
ghost use Rattle.opcode.specs.BlockType.{is_block_type};
ghost use Rattle.opcode.specs.Table.{End, Br, BrIf, Code, plain, control, carried};
ghost use Rattle.opcode.specs.Entry.{entry_of};
ghost use Rattle.instr.specs.declared.Instr.{Instr};
ghost use Rattle.rules.specs.Typing.{Frame};
ghost use Rattle.checker.specs.Walk.{KindBytes, Framed};
ghost use Rattle.checker.specs.Inner.Stack.{Keeps};
ghost use Rattle.checker.specs.Inner.Blocks.{top_first, Labelled};
ghost use Rattle.checker.specs.Inner.Judging.{opener, brancher, Ordinary, Judges, Faces, TellsStraight, AtTurn};

use crate::{blocks, numbers, stack, typing};
use opcode::kind;

// What is known at a place: the values on the stack, the open blocks, how many values are under the innermost, and whether code is dead in it.
// `dead` stands first, where a refusal has its byte: so the compiler keeps both answers in registers.
#[derive(Clone, Copy)]
pub struct State {
    pub dead: bool,
    pub depth: usize,
    pub nest: usize,
    pub floor: usize,
}

// Each function below answers what is known after the instruction, or the line of the card that turns it away.

// `block` or `loop`, of a type.
fn begin(block: u32, looped: bool, blocks: &mut [u32], state: State) -> Result<State, u8>
    requires { (block < 256) × (state.floor ≤ stack_limit) × (state.nest ≤ nest_limit) × (length blocks.old ≡ nest_limit) }
    ensures judges { (i : Instr) (ls rs : List Kind) (fs : List Frame) (kinds : List ℕ) → block ≡ i.block → is_block_type i.block ≡ true → Framed rs kinds blocks.old state.depth state.nest state.floor state.dead fs → Judges ls rs i (control (opener looped)) fs kinds blocks.new result }
    ensures keeps { IfOk result (λ st. Keeps st.nest blocks.old blocks.new) }
{
    let n = state.nest;
    if n == limits::NEST {
        return Err(card::NEST);
    }
    blocks[n] = blocks::word_of(state.floor, block, looped, state.dead);
    Ok(State {
        depth: state.depth,
        nest: n + 1,
        floor: state.depth,
        dead: false,
    })
}

// `end` of a block.
fn close(kinds: &mut [u8], blocks: &[u32], state: State) -> Result<State, u8>
    requires { (0 < state.nest) × (state.nest ≤ length blocks.now) × (state.floor ≤ state.depth) × (state.depth ≤ stack_limit) × (length kinds.old ≡ stack_limit) }
    ensures judges { (i : Instr) (ls rs : List Kind) (fs : List Frame) → Framed rs kinds.old blocks.now state.depth state.nest state.floor state.dead fs → Judges ls rs i (plain End) fs kinds.new blocks.now result }
    ensures keeps { IfOk result (λ st. Keeps st.depth kinds.old kinds.new) }
{
    let n = state.nest - 1;
    let w = blocks[n];
    let results = blocks::results_in(w);
    let floor = state.floor;
    let base = stack::under(results, kinds, state.depth, floor, state.dead);
    if base != Some(floor) {
        return Err(card::RESULT);
    }
    let depth = stack::leave(results, kinds, floor)?;
    Ok(State {
        depth,
        nest: n,
        floor: blocks::floor_in(w),
        dead: blocks::dead_in(w),
    })
}

// `br` to a block that takes these kinds.
fn branch(takes: u64, kinds: &[u8], state: State) -> Result<State, u8>
    requires { (state.floor ≤ state.depth) × (state.depth ≤ stack_limit) × (length kinds.now ≡ stack_limit) }
    ensures { (i : Instr) (ls rs : List Kind) (fs : List Frame) (blocks : List ℕ) → Labelled fs i.index takes → Framed rs kinds.now blocks state.depth state.nest state.floor state.dead fs → Judges ls rs i (control Br) fs kinds.now blocks result }
{
    let base = stack::under(takes, kinds, state.depth, state.floor, state.dead);
    if base.is_none() {
        return Err(card::OPERAND);
    }
    Ok(State {
        depth: state.floor,
        dead: true,
        ..state
    })
}

// `br_if` to a block that takes these kinds.
fn may_branch(takes: u64, kinds: &mut [u8], state: State) -> Result<State, u8>
    requires { (takes < 2 ^ 32) × (state.floor ≤ state.depth) × (state.depth ≤ stack_limit) × (length kinds.old ≡ stack_limit) }
    ensures judges { (i : Instr) (ls rs : List Kind) (fs : List Frame) (blocks : List ℕ) → Labelled fs i.index takes → Framed rs kinds.old blocks state.depth state.nest state.floor state.dead fs → Judges ls rs i (control BrIf) fs kinds.new blocks result }
    ensures keeps { IfOk result (λ st. Keeps st.depth kinds.old kinds.new) }
{
    let operands = takes * 256 + kind::I32 as u64;
    let left = numbers::flipped(takes);
    let depth = stack::exchange(operands, left, kinds, state.depth, state.floor, state.dead)?;
    Ok(State { depth, ..state })
}

// `br` or `br_if` to the n-th block.
fn jump(
    n: usize,
    maybe: bool,
    results: u64,
    kinds: &mut [u8],
    blocks: &[u32],
    state: State,
) -> Result<State, u8>
    requires { (results < 2 ^ 32) × (state.nest ≤ length blocks.now) × (state.floor ≤ state.depth) × (state.depth ≤ stack_limit) × (length kinds.old ≡ stack_limit) }
    ensures judges { (i : Instr) (ls rs : List Kind) (fs : List Frame) → n ≡ i.index → top_first rs ≡ results → length rs ≤ result_limit → Framed rs kinds.old blocks.now state.depth state.nest state.floor state.dead fs → Judges ls rs i (control (brancher maybe)) fs kinds.new blocks.now result }
    ensures keeps { IfOk result (λ st. Keeps st.depth kinds.old kinds.new) }
{
    let nest = state.nest;
    if nest < n {
        return Err(card::LABEL);
    }
    let takes = blocks::takes(results, blocks, nest, n);
    if maybe {
        return may_branch(takes, kinds, state);
    }
    branch(takes, kinds, state)
}

// Whether it is neither `end` nor one that goes by blocks.
pub(crate) fn is_straight(entry: u64) -> bool
    ensures { TellsStraight entry result }
{
    let group = opcode::group(entry);
    if group == opcode::GROUP_END {
        return false;
    }
    group < opcode::GROUP_BLOCK
}

// One that is.
pub(crate) fn straight(
    strip: &[u8],
    locals: usize,
    entry: u64,
    index: u32,
    kinds: &mut [u8],
    state: State,
) -> Result<State, u8>
    requires { (8 + locals ≤ length strip.now) × (state.floor ≤ state.depth) × (state.depth ≤ stack_limit) × (length kinds.old ≡ stack_limit) }
    ensures judges { (c : Code) (i : Instr) (ls rs : List Kind) (fs : List Frame) (blocks : List ℕ) → entry ≡ entry_of (carried c) → Ordinary c → index ≡ i.index → KindBytes (drop 8 strip.now) locals ls → Framed rs kinds.old blocks state.depth state.nest state.floor state.dead fs → Judges ls rs i c fs kinds.new blocks result }
    ensures keeps { IfOk result (λ st. Keeps st.depth kinds.old kinds.new × (st.nest ≡ state.nest)) }
{
    let depth = typing::judge(
        strip,
        locals,
        entry,
        index,
        kinds,
        state.depth,
        state.floor,
        state.dead,
    )?;
    Ok(State { depth, ..state })
}

// Another, but not the strip's own `end`.
pub(crate) fn turn(
    results: u64,
    entry: u64,
    index: u32,
    kinds: &mut [u8],
    blocks: &mut [u32],
    state: State,
) -> Result<State, u8>
    requires { TellsStraight entry false × AtTurn results entry index kinds.old blocks.old state.depth state.nest state.floor }
    ensures by_index { (s : List ℕ) (n : ℕ) (c : Code) (i : Instr) (ls rs : List Kind) (fs : List Frame) → Faces s n results entry index kinds.old blocks.old state.depth state.nest state.floor state.dead c i ls rs fs → Judges ls rs i c fs kinds.new blocks.new result }
    ensures keeps { IfOk result (λ st. Keeps st.depth kinds.old kinds.new × Keeps st.nest blocks.old blocks.new) }
{
    let group = opcode::group(entry);
    if group == opcode::GROUP_END {
        return close(kinds, blocks, state);
    }
    if group < opcode::GROUP_BR {
        return begin(index, group == opcode::GROUP_LOOP, blocks, state);
    }
    jump(
        index as usize,
        group == opcode::GROUP_BR_IF,
        results,
        kinds,
        blocks,
        state,
    )
}
