// Numbers and locals.
ghost use Rattle.std.specs.Prelude.{◌≡◌, ◌-◌, ◌≤◌, ◌<◌, cond, eqb, ltb, length};
ghost use Rattle.std.specs.Int.{w32};
ghost use Rattle.limits.specs.Limits.{stack_limit, stack_bytes, local_bytes, local_count};
ghost use Rattle.scalar.specs.Scalar.{iadd, isub};
ghost use Rattle.operation.specs.Vector.{le};
ghost use Rattle.machine.specs.Inner.Flat.{HasOperands, slot_at, put_slot, top_of, low32};

use crate::slot;

// A number as a new value.
pub(crate) fn push_number(x: u64, stack: &mut [u8], depth: usize)
    requires { (depth < stack_limit) × (length stack.old ≡ stack_bytes) }
    ensures { stack.new ≡ put_slot stack.old depth (le 16 x) }
{
    slot::put(stack, depth, slot::of_number(x));
}

pub(crate) fn add(stack: &mut [u8], depth: usize)
    requires { HasOperands 2 stack.old depth }
    ensures { stack.new ≡ put_slot stack.old (depth - 2) (le 16 (iadd w32 (low32 (top_of stack.old depth 2)) (low32 (top_of stack.old depth 1)))) }
{
    let b = slot::word(slot::top(stack, depth, 1));
    let a = slot::word(slot::top(stack, depth, 2));
    slot::put(stack, depth - 2, slot::of_number(a.wrapping_add(b) as u64));
}

pub(crate) fn sub(stack: &mut [u8], depth: usize)
    requires { HasOperands 2 stack.old depth }
    ensures { stack.new ≡ put_slot stack.old (depth - 2) (le 16 (isub w32 (low32 (top_of stack.old depth 2)) (low32 (top_of stack.old depth 1)))) }
{
    let b = slot::word(slot::top(stack, depth, 1));
    let a = slot::word(slot::top(stack, depth, 2));
    slot::put(stack, depth - 2, slot::of_number(a.wrapping_sub(b) as u64));
}

pub(crate) fn eqz(stack: &mut [u8], depth: usize)
    requires { HasOperands 1 stack.old depth }
    ensures { stack.new ≡ put_slot stack.old (depth - 1) (le 16 (cond (eqb (low32 (top_of stack.old depth 1)) 0) 1 0)) }
{
    let a = slot::word(slot::top(stack, depth, 1));
    slot::put(stack, depth - 1, slot::of_number(u64::from(a == 0)));
}

pub(crate) fn lt_u(stack: &mut [u8], depth: usize)
    requires { HasOperands 2 stack.old depth }
    ensures { stack.new ≡ put_slot stack.old (depth - 2) (le 16 (cond (ltb (low32 (top_of stack.old depth 2)) (low32 (top_of stack.old depth 1))) 1 0)) }
{
    let b = slot::word(slot::top(stack, depth, 1));
    let a = slot::word(slot::top(stack, depth, 2));
    slot::put(stack, depth - 2, slot::of_number(u64::from(a < b)));
}

pub(crate) fn get_local(index: u32, locals: &[u8], stack: &mut [u8], depth: usize)
    requires { (index < local_count) × (depth < stack_limit) × (length locals.now ≡ local_bytes) × (length stack.old ≡ stack_bytes) }
    ensures { stack.new ≡ put_slot stack.old depth (slot_at locals.now index) }
{
    let v = slot::get(locals, index as usize);
    slot::put(stack, depth, v);
}

pub(crate) fn set_local(index: u32, locals: &mut [u8], stack: &[u8], depth: usize)
    requires { (index < local_count) × (1 ≤ depth) × (depth ≤ stack_limit) × (length locals.old ≡ local_bytes) × (length stack.now ≡ stack_bytes) }
    ensures { locals.new ≡ put_slot locals.old index (top_of stack.now depth 1) }
{
    let v = slot::top(stack, depth, 1);
    slot::put(locals, index as usize, v);
}
