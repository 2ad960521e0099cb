// Encoding: what is wrong, then the room, then the bytes.
ghost use Rattle.std.specs.Prelude.{◌≡◌, ◌≢◌, ◌+◌, ◌<◌, ◌≤◌, ◌↔◌, [], ◌∷◌, EachIndex, IfErr, IsTrue, length, slice_index};
ghost use Rattle.card.specs.Card.{DONE};
ghost use Rattle.leb128.specs.Shortest.{bytes_of};
ghost use Rattle.opcode.specs.Table.{latest};
ghost use Rattle.opcode.specs.Number.{class_of, row_of};
ghost use Rattle.instr.specs.Layout.{opcode_fields, fields_of, row_in};
ghost use Rattle.instr.specs.Encode.{written, encoding, all_below, exponent_fault, fault_of, encoded, encoded_in};
ghost use Rattle.instr.specs.Inner.Steps.{Put, encode_answer, fault_answer, lane_fault};

use crate::{Encoded, Instr};
use leb128::{Format, S32, S64, U32};

pub fn encode(version: u16, i: Instr, out: &mut [u8]) -> Encoded
    ensures answer { result ≡ encoded version i out.old }
    ensures bytes { out.new ≡ encoded_in version i out.old }
{
    match write(version, i, out) {
        Ok(len) => Encoded {
            code: card::DONE,
            place: 0,
            len,
        },
        Err(code) => Encoded {
            code,
            place: 0,
            len: 0,
        },
    }
}

// How many bytes were written; or why none, in the card's code.
fn write(version: u16, i: Instr, out: &mut [u8]) -> Result<usize, u8>
    ensures answer { encode_answer result ≡ encoded version i out.old }
    ensures bytes { out.new ≡ encoded_in version i out.old }
{
    if !opcode::is_known(version) {
        return Err(card::VERSION);
    }
    let id = crate::id_in(version, i.first, i.number);
    allowed(id, i)?;
    let class = opcode::immediates(opcode::entry(id));
    let n = opcode_len(i.first, i.number) + immediates_len(class, i);
    if out.len() < n {
        return Err(card::SMALL);
    }
    let at = put_opcode(out, i.first, i.number);
    Ok(put_immediates(out, at, class, i))
}

// How many bytes its shortest form takes.
pub fn encoded_len(i: Instr) -> usize
    ensures { result ≡ length (encoding i) }
{
    let first = i.first;
    let number = i.number;
    let entry = opcode::entry(opcode::id_of(first, number));
    opcode_len(first, number) + immediates_len(opcode::immediates(entry), i)
}

// A block type, a lane index, then the exponent.
fn allowed(id: u32, i: Instr) -> Result<(), u8>
    ensures is { fault_answer result ≡ fault_of (row_of id) i }
    ensures wrong { IfErr result (λ code. code ≢ DONE) }
{
    let entry = opcode::entry(id);
    match opcode::immediates(entry) {
        opcode::CLASS_MEMORY => exponent_allowed(i.align, opcode::moved(entry)),
        opcode::CLASS_MEMORY_LANE => {
            lane_allowed(i.lane, opcode::lanes(entry))?;
            exponent_allowed(i.align, opcode::moved(entry))
        }
        opcode::CLASS_LANE => lane_allowed(i.lane, opcode::lanes(entry)),
        opcode::CLASS_LANES => {
            if all_lanes(i.bytes) {
                Ok(())
            } else {
                Err(card::LANE)
            }
        }
        opcode::CLASS_BLOCK_TYPE => {
            if crate::is_block_type(i.block) {
                Ok(())
            } else {
                Err(card::KIND)
            }
        }
        opcode::CLASS_FLOAT => Err(card::FLOAT),
        opcode::CLASS_UNASSIGNED => Err(card::OPCODE),
        _ => Ok(()),
    }
}

fn exponent_allowed(align: u32, moved: u32) -> Result<(), u8>
    requires { moved ≤ 16 }
    ensures is { fault_answer result ≡ exponent_fault moved align }
    ensures wrong { IfErr result (λ code. code ≢ DONE) }
{
    if crate::exponent_fits(align, moved) {
        Ok(())
    } else {
        Err(card::ALIGN)
    }
}

fn lane_allowed(lane: u8, lanes: u32) -> Result<(), u8>
    ensures is { fault_answer result ≡ lane_fault lanes lane }
    ensures wrong { IfErr result (λ code. code ≢ DONE) }
{
    if u32::from(lane) < lanes {
        Ok(())
    } else {
        Err(card::LANE)
    }
}

// Whether sixteen indices are below 32.
fn all_lanes(a: [u8; 16]) -> bool
    ensures { IsTrue result ↔ EachIndex a (λ k. slice_index a k < 32) }
{
    a.iter().all(|lane| *lane < 32)
}

fn opcode_len(first: u8, number: u32) -> usize
    ensures { (result ≡ length (written (opcode_fields first number))) × (result ≤ 6) }
{
    if first == opcode::PREFIX {
        1 + leb128::len(U32(number))
    } else {
        1
    }
}

fn immediates_len(class: u8, i: Instr) -> usize
    requires { class ≡ class_of (row_in latest i) }
    ensures { (result ≡ length (written (fields_of (row_in latest i) i))) × (result ≤ 16) }
{
    match class {
        opcode::CLASS_INDEX => leb128::len(U32(i.index)),
        opcode::CLASS_WORD => leb128::len(S32(i.word)),
        opcode::CLASS_LONG => leb128::len(S64(i.long)),
        opcode::CLASS_MEMORY => leb128::len(U32(i.align)) + leb128::len(U32(i.offset)),
        opcode::CLASS_MEMORY_LANE => leb128::len(U32(i.align)) + leb128::len(U32(i.offset)) + 1,
        opcode::CLASS_LANE => 1,
        opcode::CLASS_BYTES => 16,
        opcode::CLASS_LANES => 16,
        opcode::CLASS_BLOCK_TYPE => 1,
        _ => 0,
    }
}

fn put_opcode(out: &mut [u8], first: u8, number: u32) -> usize
    requires { length (written (opcode_fields first number)) ≤ length out.old }
    ensures { Put out.old 0 (written (opcode_fields first number)) result out.new }
{
    out[0] = first;
    if first == opcode::PREFIX {
        put_number(out, 1, U32(number))
    } else {
        1
    }
}

fn put_immediates(out: &mut [u8], at: usize, class: u8, i: Instr) -> usize
    requires { (class ≡ class_of (row_in latest i)) × (at + length (written (fields_of (row_in latest i) i)) ≤ length out.old) }
    ensures { Put out.old at (written (fields_of (row_in latest i) i)) result out.new }
{
    match class {
        opcode::CLASS_INDEX => put_number(out, at, U32(i.index)),
        opcode::CLASS_WORD => put_number(out, at, S32(i.word)),
        opcode::CLASS_LONG => put_number(out, at, S64(i.long)),
        opcode::CLASS_MEMORY => {
            let p = put_number(out, at, U32(i.align));
            put_number(out, p, U32(i.offset))
        }
        opcode::CLASS_MEMORY_LANE => {
            let p = put_number(out, at, U32(i.align));
            let q = put_number(out, p, U32(i.offset));
            put_byte(out, q, i.lane)
        }
        opcode::CLASS_LANE => put_byte(out, at, i.lane),
        opcode::CLASS_BYTES => put_bytes(out, at, i.bytes),
        opcode::CLASS_LANES => put_bytes(out, at, i.bytes),
        opcode::CLASS_BLOCK_TYPE => put_byte(out, at, i.block),
        _ => at,
    }
}

// A number where there is room for it.
fn put_number<F: Format>(out: &mut [u8], at: usize, v: F) -> usize
    requires { at + length (bytes_of F.SIGNED F.width (F.value v)) ≤ length out.old }
    ensures { Put out.old at (bytes_of F.SIGNED F.width (F.value v)) result out.new }
{
    leb128::write(out, at, v).unwrap()
}

fn put_byte(out: &mut [u8], at: usize, b: u8) -> usize
    requires { at < length out.old }
    ensures { Put out.old at (b ∷ []) result out.new }
{
    out[at] = b;
    at + 1
}

fn put_bytes(out: &mut [u8], at: usize, a: [u8; 16]) -> usize
    requires { at + 16 ≤ length out.old }
    ensures { Put out.old at a result out.new }
{
    at + buffer::copy(&a, &mut out[at..])
}
