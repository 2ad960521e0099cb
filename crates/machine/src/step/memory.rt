// Loads and stores, where the bounds were looked at before.
ghost use Rattle.std.specs.Prelude.{◌≡◌, ◌+◌, ◌-◌, ◌≤◌, ◌<◌, ◌^◌, length, take};
ghost use Rattle.std.specs.Int.{Width};
ghost use Rattle.limits.specs.Limits.{stack_limit, stack_bytes};
ghost use Rattle.operation.specs.Shape.{lanes};
ghost use Rattle.operation.specs.Op.{Loadop, Load, LoadLane, StoreLane, loaded, lane_in, lane_out};
ghost use Rattle.opcode.specs.Table.{does};
ghost use Rattle.opcode.specs.Number.{row_of};
ghost use Rattle.machine.specs.Memory.{part, padded, stored};
ghost use Rattle.machine.specs.Inner.Flat.{put_slot, top_of, low32};

use crate::{slot, span, vector};

// The address in a slot, and the offset.
pub(crate) fn address(offset: u32, stack: &[u8], depth: usize, j: usize) -> usize
    requires { (0 < j) × (j ≤ depth) × (depth ≤ stack_limit) × (length stack.now ≡ stack_bytes) }
    ensures { (result ≡ low32 (top_of stack.now depth j) + offset) × (result < 2 ^ 33) }
{
    (slot::word(slot::top(stack, depth, j)) as usize) + (offset as usize)
}

pub(crate) fn load(id: u32, offset: u32, n: usize, mem: &[u8], stack: &mut [u8], depth: usize)
    requires { (1 ≤ depth) × (depth ≤ stack_limit) × (length stack.old ≡ stack_bytes) × (n ≤ 16) × (low32 (top_of stack.old depth 1) + offset + n ≤ length mem.now) }
    ensures { (l : Loadop) → row_of id ≡ does (Load l) → stack.new ≡ put_slot stack.old (depth - 1) (loaded l (padded (part n (low32 (top_of stack.old depth 1) + offset) mem.now))) }
{
    let at = address(offset, stack, depth, 1);
    let m = span::read(mem, at, n);
    slot::put(stack, depth - 1, vector::memory::load(id, m));
}

pub(crate) fn load_lane(
    id: u32,
    offset: u32,
    n: usize,
    index: u8,
    mem: &[u8],
    stack: &mut [u8],
    depth: usize,
)
    requires { (2 ≤ depth) × (depth ≤ stack_limit) × (length stack.old ≡ stack_bytes) × (n ≤ 16) × (low32 (top_of stack.old depth 2) + offset + n ≤ length mem.now) }
    ensures { (w : Width) → row_of id ≡ does (LoadLane w) → index < lanes w → stack.new ≡ put_slot stack.old (depth - 2) (lane_in w (padded (part n (low32 (top_of stack.old depth 2) + offset) mem.now)) (top_of stack.old depth 1) index) }
{
    let at = address(offset, stack, depth, 2);
    let m = span::read(mem, at, n);
    let a = slot::top(stack, depth, 1);
    slot::put(stack, depth - 2, vector::memory::lane_in(id, m, a, index));
}

pub(crate) fn store(offset: u32, mem: &mut [u8], stack: &[u8], depth: usize)
    requires { (2 ≤ depth) × (depth ≤ stack_limit) × (length stack.now ≡ stack_bytes) × (low32 (top_of stack.now depth 2) + offset + 16 ≤ length mem.old) }
    ensures { mem.new ≡ stored mem.old (low32 (top_of stack.now depth 2) + offset) (top_of stack.now depth 1) }
{
    let at = address(offset, stack, depth, 2);
    let v = slot::top(stack, depth, 1);
    span::write(mem, at, v, 16);
}

pub(crate) fn store_lane(
    id: u32,
    offset: u32,
    n: usize,
    index: u8,
    mem: &mut [u8],
    stack: &[u8],
    depth: usize,
)
    requires { (2 ≤ depth) × (depth ≤ stack_limit) × (length stack.now ≡ stack_bytes) × (n ≤ 16) × (low32 (top_of stack.now depth 2) + offset + n ≤ length mem.old) }
    ensures { (w : Width) → row_of id ≡ does (StoreLane w) → index < lanes w → mem.new ≡ stored mem.old (low32 (top_of stack.now depth 2) + offset) (take n (lane_out w (top_of stack.now depth 1) index)) }
{
    let at = address(offset, stack, depth, 2);
    let a = slot::top(stack, depth, 1);
    span::write(mem, at, vector::memory::lane_out(id, a, index), n);
}
