// Slots of sixteen bytes: values of the operand stack and the locals, and the numbers in them.
ghost use Rattle.std.specs.Prelude.{◌≡◌, ◌+◌, ◌*◌, ◌≤◌, ◌<◌, length};
ghost use Rattle.limits.specs.Limits.{stack_limit, stack_bytes};
ghost use Rattle.operation.specs.Vector.{le};
ghost use Rattle.machine.specs.Inner.Flat.{HasOperands, slot_at, put_slot, top_of, low32, low64};

use crate::span;
use crate::vector::ZEROS;
use lane::{I32x4, I64x2, Integer, Unpacked, V128};

pub(crate) fn get(s: &[u8], n: usize) -> V128
    requires { (n < stack_limit) × (16 * n + 16 ≤ length s.now) }
    ensures { result.bytes ≡ slot_at s.now n }
{
    span::read(s, 16 * n, 16)
}

pub(crate) fn put(s: &mut [u8], n: usize, v: V128)
    requires { (n < stack_limit) × (16 * n + 16 ≤ length s.old) }
    ensures { s.new ≡ put_slot s.old n v.bytes }
{
    span::write(s, 16 * n, v, 16)
}

// Of the values on the stack, the j-th from the top.
pub(crate) fn top(stack: &[u8], depth: usize, j: usize) -> V128
    requires { (0 < j) × (j ≤ depth) × (depth ≤ stack_limit) × (length stack.now ≡ stack_bytes) }
    ensures { result.bytes ≡ top_of stack.now depth j }
{
    get(stack, depth - j)
}

pub(crate) fn word(v: V128) -> u32
    ensures { result ≡ low32 v.bytes }
{
    (I32x4::extract_lane(v, 0).unwrap_or(0) % 4294967296) as u32
}

pub(crate) fn long(v: V128) -> u64
    ensures { result ≡ low64 v.bytes }
{
    I64x2::extract_lane(v, 0).unwrap_or(0)
}

// A number's bytes, with zeros after them.
pub(crate) fn of_number(x: u64) -> V128
    ensures { result.bytes ≡ le 16 x }
{
    I64x2::replace_lane(ZEROS, 0, x).unwrap_or(ZEROS)
}

// The number on top: what a branch asks.
pub fn top_word(stack: &[u8], depth: usize) -> u32
    requires { HasOperands 1 stack.now depth }
    ensures { result ≡ low32 (top_of stack.now depth 1) }
{
    word(top(stack, depth, 1))
}

// A value to a lower slot: what a branch takes along.
pub fn carry(stack: &mut [u8], from: usize, to: usize)
    requires { (from < stack_limit) × (to < stack_limit) × (length stack.old ≡ stack_bytes) }
    ensures { stack.new ≡ put_slot stack.old to (slot_at stack.old from) }
{
    let v = get(stack, from);
    put(stack, to, v);
}
