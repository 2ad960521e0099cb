// The operations on two vectors.
ghost use Rattle.std.specs.Prelude.{◌≡◌, ◌≤◌, ◌<◌};
ghost use Rattle.operation.specs.Op.{Binop, Binary, binary};
ghost use Rattle.opcode.specs.Table.{carried, vector};
ghost use Rattle.opcode.specs.Number.{row_of};
ghost use Rattle.machine.specs.Inner.Flat.{HasOperands, top_of};

use crate::vector::ZEROS;
use crate::vector::operands::{left, right};
use lane::{I8x16, I16x8, I32x4, I64x2, Integer, Ordered, Packed, Saturating, V128, Wide};

// The numbers go by shape, 32 to each from 0x160 on. A function a shape, since each has operations of its own.
pub(crate) fn binary(id: u32, s: &[u8], d: usize) -> V128
    requires { HasOperands 2 s.now d }
    ensures { (o : Binop) → row_of id ≡ carried (vector (Binary o)) → result.bytes ≡ binary o (top_of s.now d 2) (top_of s.now d 1) }
{
    if id < 0x141 {
        compare(id, s, d)
    } else if id < 0x160 {
        bits(id, s, d)
    } else if id < 0x180 {
        arith8(id, s, d)
    } else if id < 0x1A0 {
        arith16(id, s, d)
    } else if id < 0x1C0 {
        arith32(id, s, d)
    } else {
        arith64(id, s, d)
    }
}

// Swizzle and the comparisons of the first three shapes.
fn compare(id: u32, s: &[u8], d: usize) -> V128
    requires { HasOperands 2 s.now d }
    ensures { id < 0x141 → (o : Binop) → row_of id ≡ carried (vector (Binary o)) → result.bytes ≡ binary o (top_of s.now d 2) (top_of s.now d 1) }
{
    match id {
        0x10E => lane::swizzle(left(s, d), right(s, d)),
        0x123 => I8x16::eq(left(s, d), right(s, d)),
        0x124 => I8x16::ne(left(s, d), right(s, d)),
        0x125 => I8x16::lt_s(left(s, d), right(s, d)),
        0x126 => I8x16::lt_u(left(s, d), right(s, d)),
        0x127 => I8x16::gt_s(left(s, d), right(s, d)),
        0x128 => I8x16::gt_u(left(s, d), right(s, d)),
        0x129 => I8x16::le_s(left(s, d), right(s, d)),
        0x12A => I8x16::le_u(left(s, d), right(s, d)),
        0x12B => I8x16::ge_s(left(s, d), right(s, d)),
        0x12C => I8x16::ge_u(left(s, d), right(s, d)),
        0x12D => I16x8::eq(left(s, d), right(s, d)),
        0x12E => I16x8::ne(left(s, d), right(s, d)),
        0x12F => I16x8::lt_s(left(s, d), right(s, d)),
        0x130 => I16x8::lt_u(left(s, d), right(s, d)),
        0x131 => I16x8::gt_s(left(s, d), right(s, d)),
        0x132 => I16x8::gt_u(left(s, d), right(s, d)),
        0x133 => I16x8::le_s(left(s, d), right(s, d)),
        0x134 => I16x8::le_u(left(s, d), right(s, d)),
        0x135 => I16x8::ge_s(left(s, d), right(s, d)),
        0x136 => I16x8::ge_u(left(s, d), right(s, d)),
        0x137 => I32x4::eq(left(s, d), right(s, d)),
        0x138 => I32x4::ne(left(s, d), right(s, d)),
        0x139 => I32x4::lt_s(left(s, d), right(s, d)),
        0x13A => I32x4::lt_u(left(s, d), right(s, d)),
        0x13B => I32x4::gt_s(left(s, d), right(s, d)),
        0x13C => I32x4::gt_u(left(s, d), right(s, d)),
        0x13D => I32x4::le_s(left(s, d), right(s, d)),
        0x13E => I32x4::le_u(left(s, d), right(s, d)),
        0x13F => I32x4::ge_s(left(s, d), right(s, d)),
        0x140 => I32x4::ge_u(left(s, d), right(s, d)),
        _ => ZEROS,
    }
}

// Of all the bits at once.
fn bits(id: u32, s: &[u8], d: usize) -> V128
    requires { HasOperands 2 s.now d }
    ensures { 0x141 ≤ id → id < 0x160 → (o : Binop) → row_of id ≡ carried (vector (Binary o)) → result.bytes ≡ binary o (top_of s.now d 2) (top_of s.now d 1) }
{
    match id {
        0x14E => V128::and(left(s, d), right(s, d)),
        0x14F => V128::andnot(left(s, d), right(s, d)),
        0x150 => V128::or(left(s, d), right(s, d)),
        0x151 => V128::xor(left(s, d), right(s, d)),
        _ => ZEROS,
    }
}

// Of i8x16.
fn arith8(id: u32, s: &[u8], d: usize) -> V128
    requires { HasOperands 2 s.now d }
    ensures { 0x160 ≤ id → id < 0x180 → (o : Binop) → row_of id ≡ carried (vector (Binary o)) → result.bytes ≡ binary o (top_of s.now d 2) (top_of s.now d 1) }
{
    match id {
        0x165 => I8x16::narrow_s(left(s, d), right(s, d)),
        0x166 => I8x16::narrow_u(left(s, d), right(s, d)),
        0x16E => I8x16::add(left(s, d), right(s, d)),
        0x16F => I8x16::add_sat_s(left(s, d), right(s, d)),
        0x170 => I8x16::add_sat_u(left(s, d), right(s, d)),
        0x171 => I8x16::sub(left(s, d), right(s, d)),
        0x172 => I8x16::sub_sat_s(left(s, d), right(s, d)),
        0x173 => I8x16::sub_sat_u(left(s, d), right(s, d)),
        0x176 => I8x16::min_s(left(s, d), right(s, d)),
        0x177 => I8x16::min_u(left(s, d), right(s, d)),
        0x178 => I8x16::max_s(left(s, d), right(s, d)),
        0x179 => I8x16::max_u(left(s, d), right(s, d)),
        0x17B => I8x16::avgr_u(left(s, d), right(s, d)),
        _ => ZEROS,
    }
}

// Of i16x8.
fn arith16(id: u32, s: &[u8], d: usize) -> V128
    requires { HasOperands 2 s.now d }
    ensures { 0x180 ≤ id → id < 0x1A0 → (o : Binop) → row_of id ≡ carried (vector (Binary o)) → result.bytes ≡ binary o (top_of s.now d 2) (top_of s.now d 1) }
{
    match id {
        0x182 => lane::q15mulr_sat_s(left(s, d), right(s, d)),
        0x185 => I16x8::narrow_s(left(s, d), right(s, d)),
        0x186 => I16x8::narrow_u(left(s, d), right(s, d)),
        0x18E => I16x8::add(left(s, d), right(s, d)),
        0x18F => I16x8::add_sat_s(left(s, d), right(s, d)),
        0x190 => I16x8::add_sat_u(left(s, d), right(s, d)),
        0x191 => I16x8::sub(left(s, d), right(s, d)),
        0x192 => I16x8::sub_sat_s(left(s, d), right(s, d)),
        0x193 => I16x8::sub_sat_u(left(s, d), right(s, d)),
        0x195 => I16x8::mul(left(s, d), right(s, d)),
        0x196 => I16x8::min_s(left(s, d), right(s, d)),
        0x197 => I16x8::min_u(left(s, d), right(s, d)),
        0x198 => I16x8::max_s(left(s, d), right(s, d)),
        0x199 => I16x8::max_u(left(s, d), right(s, d)),
        0x19B => I16x8::avgr_u(left(s, d), right(s, d)),
        0x19C => I16x8::extmul_low_s(left(s, d), right(s, d)),
        0x19D => I16x8::extmul_high_s(left(s, d), right(s, d)),
        0x19E => I16x8::extmul_low_u(left(s, d), right(s, d)),
        0x19F => I16x8::extmul_high_u(left(s, d), right(s, d)),
        _ => ZEROS,
    }
}

// Of i32x4.
fn arith32(id: u32, s: &[u8], d: usize) -> V128
    requires { HasOperands 2 s.now d }
    ensures { 0x1A0 ≤ id → id < 0x1C0 → (o : Binop) → row_of id ≡ carried (vector (Binary o)) → result.bytes ≡ binary o (top_of s.now d 2) (top_of s.now d 1) }
{
    match id {
        0x1AE => I32x4::add(left(s, d), right(s, d)),
        0x1B1 => I32x4::sub(left(s, d), right(s, d)),
        0x1B5 => I32x4::mul(left(s, d), right(s, d)),
        0x1B6 => I32x4::min_s(left(s, d), right(s, d)),
        0x1B7 => I32x4::min_u(left(s, d), right(s, d)),
        0x1B8 => I32x4::max_s(left(s, d), right(s, d)),
        0x1B9 => I32x4::max_u(left(s, d), right(s, d)),
        0x1BA => lane::dot_i16x8_s(left(s, d), right(s, d)),
        0x1BC => I32x4::extmul_low_s(left(s, d), right(s, d)),
        0x1BD => I32x4::extmul_high_s(left(s, d), right(s, d)),
        0x1BE => I32x4::extmul_low_u(left(s, d), right(s, d)),
        0x1BF => I32x4::extmul_high_u(left(s, d), right(s, d)),
        _ => ZEROS,
    }
}

// Of i64x2, with its comparisons.
fn arith64(id: u32, s: &[u8], d: usize) -> V128
    requires { HasOperands 2 s.now d }
    ensures { 0x1C0 ≤ id → (o : Binop) → row_of id ≡ carried (vector (Binary o)) → result.bytes ≡ binary o (top_of s.now d 2) (top_of s.now d 1) }
{
    match id {
        0x1CE => I64x2::add(left(s, d), right(s, d)),
        0x1D1 => I64x2::sub(left(s, d), right(s, d)),
        0x1D5 => I64x2::mul(left(s, d), right(s, d)),
        0x1D6 => I64x2::eq(left(s, d), right(s, d)),
        0x1D7 => I64x2::ne(left(s, d), right(s, d)),
        0x1D8 => I64x2::lt_s(left(s, d), right(s, d)),
        0x1D9 => I64x2::gt_s(left(s, d), right(s, d)),
        0x1DA => I64x2::le_s(left(s, d), right(s, d)),
        0x1DB => I64x2::ge_s(left(s, d), right(s, d)),
        0x1DC => I64x2::extmul_low_s(left(s, d), right(s, d)),
        0x1DD => I64x2::extmul_high_s(left(s, d), right(s, d)),
        0x1DE => I64x2::extmul_low_u(left(s, d), right(s, d)),
        0x1DF => I64x2::extmul_high_u(left(s, d), right(s, d)),
        _ => ZEROS,
    }
}
