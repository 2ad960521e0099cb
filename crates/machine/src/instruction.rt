// One instruction, after the check: the bounds of its bytes in memory, then what it does.
ghost use Rattle.std.specs.Prelude.{◌≡◌};
ghost use Rattle.opcode.specs.Table.{Code, carried};
ghost use Rattle.opcode.specs.Number.{row_of};
ghost use Rattle.opcode.specs.Entry.{entry_of};
ghost use Rattle.machine.specs.Answer.{told_bounds};
ghost use Rattle.machine.specs.Inner.Fit.{Fits, Ready, DidBy, bounds_of};

use crate::access::PastEnd;
use crate::{access, slot, step};
use instr::Instr;
use lane::V128;

// The address is the value on top, or the one under it.
pub fn bounds(
    id: u32,
    entry: u64,
    i: Instr,
    stack: &[u8],
    depth: usize,
    len: usize,
) -> Result<(), PastEnd>
    requires { (entry ≡ entry_of (row_of id)) × Fits id stack.now depth }
    ensures { (c : Code) → row_of id ≡ carried c → told_bounds result ≡ bounds_of c i stack.now depth len }
{
    match opcode::group(entry) {
        opcode::GROUP_LOAD => access::bounds_at(
            step::memory::address(i.offset, stack, depth, 1),
            opcode::moved(entry) as usize,
            len,
        ),
        opcode::GROUP_LOAD_LANE => access::bounds_at(
            step::memory::address(i.offset, stack, depth, 2),
            opcode::moved(entry) as usize,
            len,
        ),
        opcode::GROUP_STORE => access::bounds_at(
            step::memory::address(i.offset, stack, depth, 2),
            opcode::moved(entry) as usize,
            len,
        ),
        opcode::GROUP_STORE_LANE => access::bounds_at(
            step::memory::address(i.offset, stack, depth, 2),
            opcode::moved(entry) as usize,
            len,
        ),
        _ => Ok(()),
    }
}

// Answers how many values the stack holds then. What was asked before is not asked again.
pub fn exec(
    id: u32,
    entry: u64,
    i: Instr,
    stack: &mut [u8],
    depth: usize,
    locals: &mut [u8],
    mem: &mut [u8],
) -> usize
    requires { (entry ≡ entry_of (row_of id)) × Ready id i stack.old depth locals.old mem.old }
    ensures { DidBy id i stack.old depth locals.old mem.old result stack.new locals.new mem.new }
{
    match opcode::group(entry) {
        opcode::GROUP_DROP => depth - 1,
        opcode::GROUP_LOCAL_GET => {
            step::numbers::get_local(i.index, locals, stack, depth);
            depth + 1
        }
        opcode::GROUP_LOCAL_SET => {
            step::numbers::set_local(i.index, locals, stack, depth);
            depth - 1
        }
        opcode::GROUP_LOCAL_TEE => {
            step::numbers::set_local(i.index, locals, stack, depth);
            depth
        }
        opcode::GROUP_I32_CONST => {
            step::numbers::push_number(i.word as u64, stack, depth);
            depth + 1
        }
        opcode::GROUP_I64_CONST => {
            step::numbers::push_number(i.long, stack, depth);
            depth + 1
        }
        opcode::GROUP_I32_ADD => {
            step::numbers::add(stack, depth);
            depth - 1
        }
        opcode::GROUP_I32_SUB => {
            step::numbers::sub(stack, depth);
            depth - 1
        }
        opcode::GROUP_LOAD => {
            step::memory::load(
                id,
                i.offset,
                opcode::moved(entry) as usize,
                mem,
                stack,
                depth,
            );
            depth
        }
        opcode::GROUP_LOAD_LANE => {
            step::memory::load_lane(
                id,
                i.offset,
                opcode::moved(entry) as usize,
                i.lane,
                mem,
                stack,
                depth,
            );
            depth - 1
        }
        opcode::GROUP_STORE => {
            step::memory::store(i.offset, mem, stack, depth);
            depth - 2
        }
        opcode::GROUP_STORE_LANE => {
            step::memory::store_lane(
                id,
                i.offset,
                opcode::moved(entry) as usize,
                i.lane,
                mem,
                stack,
                depth,
            );
            depth - 2
        }
        opcode::GROUP_CONST => {
            let bytes = i.bytes;
            slot::put(stack, depth, V128 { bytes: bytes });
            depth + 1
        }
        opcode::GROUP_SHUFFLE => {
            let bytes = i.bytes;
            step::vectors::shuffle(V128 { bytes: bytes }, stack, depth);
            depth - 1
        }
        opcode::GROUP_SPLAT => {
            step::vectors::splat(id, stack, depth);
            depth
        }
        opcode::GROUP_EXTRACT => {
            step::vectors::extract(id, i.lane, stack, depth);
            depth
        }
        opcode::GROUP_REPLACE => {
            step::vectors::replace(id, i.lane, stack, depth);
            depth - 1
        }
        opcode::GROUP_UNARY => {
            step::vectors::unary(id, stack, depth);
            depth
        }
        opcode::GROUP_BINARY => {
            step::vectors::binary(id, stack, depth);
            depth - 1
        }
        opcode::GROUP_BITSELECT => {
            step::vectors::bitselect(stack, depth);
            depth - 2
        }
        opcode::GROUP_TEST => {
            step::vectors::test(id, stack, depth);
            depth
        }
        opcode::GROUP_SHIFT => {
            step::vectors::shift(id, stack, depth);
            depth - 1
        }
        opcode::GROUP_I32_EQZ => {
            step::numbers::eqz(stack, depth);
            depth
        }
        opcode::GROUP_I32_LT_U => {
            step::numbers::lt_u(stack, depth);
            depth - 1
        }
        _ => depth,
    }
}
