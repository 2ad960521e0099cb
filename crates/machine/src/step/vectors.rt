// Vectors from the slots, and the answer in the lowest of these.
ghost use Rattle.std.specs.Prelude.{◌≡◌, ℕ, ◌-◌, ◌<◌};
ghost use Rattle.std.specs.Int.{Width};
ghost use Rattle.scalar.specs.Scalar.{Sign};
ghost use Rattle.operation.specs.Shape.{lanes, i8x16};
ghost use Rattle.operation.specs.Vector.{lane, le};
ghost use Rattle.operation.specs.Op.{Unop, Binop, Testop, Shiftop, Splat, ExtractLane, ReplaceLane, Unary, Binary, Test, Shift, unary, binary, bitselect, test, shift, splat, extracted, replaced, shuffled};
ghost use Rattle.opcode.specs.Table.{does};
ghost use Rattle.opcode.specs.Number.{row_of};
ghost use Rattle.machine.specs.Inner.Flat.{HasOperands, put_slot, top_of, low32, lowest};

use crate::vector::ZEROS;
use crate::{slot, vector};
use lane::V128;

pub(crate) fn unary(id: u32, stack: &mut [u8], depth: usize)
    requires { HasOperands 1 stack.old depth }
    ensures { (o : Unop) → row_of id ≡ does (Unary o) → stack.new ≡ put_slot stack.old (depth - 1) (unary o (top_of stack.old depth 1)) }
{
    slot::put(stack, depth - 1, vector::unary::unary(id, stack, depth));
}

pub(crate) fn binary(id: u32, stack: &mut [u8], depth: usize)
    requires { HasOperands 2 stack.old depth }
    ensures { (o : Binop) → row_of id ≡ does (Binary o) → stack.new ≡ put_slot stack.old (depth - 2) (binary o (top_of stack.old depth 2) (top_of stack.old depth 1)) }
{
    slot::put(stack, depth - 2, vector::binary::binary(id, stack, depth));
}

// The mask is on top.
pub(crate) fn bitselect(stack: &mut [u8], depth: usize)
    requires { HasOperands 3 stack.old depth }
    ensures { stack.new ≡ put_slot stack.old (depth - 3) (bitselect (top_of stack.old depth 3) (top_of stack.old depth 2) (top_of stack.old depth 1)) }
{
    let mask = slot::top(stack, depth, 1);
    let b = slot::top(stack, depth, 2);
    let a = slot::top(stack, depth, 3);
    slot::put(stack, depth - 3, V128::bitselect(a, b, mask));
}

pub(crate) fn shuffle(indices: V128, stack: &mut [u8], depth: usize)
    requires { HasOperands 2 stack.old depth × ((k : ℕ) → k < 16 → lane i8x16 indices.bytes k < 32) }
    ensures { stack.new ≡ put_slot stack.old (depth - 2) (shuffled (top_of stack.old depth 2) (top_of stack.old depth 1) indices.bytes) }
{
    let b = slot::top(stack, depth, 1);
    let a = slot::top(stack, depth, 2);
    slot::put(
        stack,
        depth - 2,
        lane::shuffle(a, b, indices).unwrap_or(ZEROS),
    );
}

pub(crate) fn test(id: u32, stack: &mut [u8], depth: usize)
    requires { HasOperands 1 stack.old depth }
    ensures { (o : Testop) → row_of id ≡ does (Test o) → stack.new ≡ put_slot stack.old (depth - 1) (le 16 (test o (top_of stack.old depth 1))) }
{
    slot::put(
        stack,
        depth - 1,
        slot::of_number(vector::unary::test(id, stack, depth) as u64),
    );
}

pub(crate) fn shift(id: u32, stack: &mut [u8], depth: usize)
    requires { HasOperands 2 stack.old depth }
    ensures { (o : Shiftop) → row_of id ≡ does (Shift o) → stack.new ≡ put_slot stack.old (depth - 2) (shift o (top_of stack.old depth 2) (low32 (top_of stack.old depth 1))) }
{
    slot::put(stack, depth - 2, vector::unary::shift(id, stack, depth));
}

pub(crate) fn splat(id: u32, stack: &mut [u8], depth: usize)
    requires { HasOperands 1 stack.old depth }
    ensures { (w : Width) → row_of id ≡ does (Splat w) → stack.new ≡ put_slot stack.old (depth - 1) (splat w (lowest w (top_of stack.old depth 1))) }
{
    let x = slot::long(slot::top(stack, depth, 1));
    slot::put(stack, depth - 1, vector::single::splat(id, x));
}

pub(crate) fn extract(id: u32, index: u8, stack: &mut [u8], depth: usize)
    requires { HasOperands 1 stack.old depth }
    ensures { (s : Sign) (w : Width) → row_of id ≡ does (ExtractLane s w) → index < lanes w → stack.new ≡ put_slot stack.old (depth - 1) (le 16 (extracted s w (top_of stack.old depth 1) index)) }
{
    let a = slot::top(stack, depth, 1);
    slot::put(
        stack,
        depth - 1,
        slot::of_number(vector::single::extract(id, a, index)),
    );
}

pub(crate) fn replace(id: u32, index: u8, stack: &mut [u8], depth: usize)
    requires { HasOperands 2 stack.old depth }
    ensures { (w : Width) → row_of id ≡ does (ReplaceLane w) → index < lanes w → stack.new ≡ put_slot stack.old (depth - 2) (replaced w (top_of stack.old depth 2) index (lowest w (top_of stack.old depth 1))) }
{
    let x = slot::long(slot::top(stack, depth, 1));
    let a = slot::top(stack, depth, 2);
    slot::put(stack, depth - 2, vector::single::replace(id, a, index, x));
}
