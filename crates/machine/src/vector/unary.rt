// The operations on one vector: lane by lane, to a number, and shifted.
ghost use Rattle.std.specs.Prelude.{◌≡◌};
ghost use Rattle.operation.specs.Op.{Unop, Testop, Shiftop, Unary, Test, Shift, unary, test, shift};
ghost use Rattle.opcode.specs.Table.{carried, vector};
ghost use Rattle.opcode.specs.Number.{row_of};
ghost use Rattle.machine.specs.Inner.Flat.{HasOperands, top_of, low32};

use crate::vector::ZEROS;
use crate::vector::operands::{count, left, only};
use lane::{I8x16, I16x8, I32x4, I64x2, Integer, Paired, V128, Wide};

pub(crate) fn unary(id: u32, s: &[u8], d: usize) -> V128
    requires { HasOperands 1 s.now d }
    ensures { (o : Unop) → row_of id ≡ carried (vector (Unary o)) → result.bytes ≡ unary o (top_of s.now d 1) }
{
    match id {
        0x14D => V128::not(only(s, d)),
        0x160 => I8x16::abs(only(s, d)),
        0x161 => I8x16::neg(only(s, d)),
        0x162 => lane::popcnt(only(s, d)),
        0x17C => I16x8::extadd_pairwise_s(only(s, d)),
        0x17D => I16x8::extadd_pairwise_u(only(s, d)),
        0x17E => I32x4::extadd_pairwise_s(only(s, d)),
        0x17F => I32x4::extadd_pairwise_u(only(s, d)),
        0x180 => I16x8::abs(only(s, d)),
        0x181 => I16x8::neg(only(s, d)),
        0x187 => I16x8::extend_low_s(only(s, d)),
        0x188 => I16x8::extend_high_s(only(s, d)),
        0x189 => I16x8::extend_low_u(only(s, d)),
        0x18A => I16x8::extend_high_u(only(s, d)),
        0x1A0 => I32x4::abs(only(s, d)),
        0x1A1 => I32x4::neg(only(s, d)),
        0x1A7 => I32x4::extend_low_s(only(s, d)),
        0x1A8 => I32x4::extend_high_s(only(s, d)),
        0x1A9 => I32x4::extend_low_u(only(s, d)),
        0x1AA => I32x4::extend_high_u(only(s, d)),
        0x1C0 => I64x2::abs(only(s, d)),
        0x1C1 => I64x2::neg(only(s, d)),
        0x1C7 => I64x2::extend_low_s(only(s, d)),
        0x1C8 => I64x2::extend_high_s(only(s, d)),
        0x1C9 => I64x2::extend_low_u(only(s, d)),
        0x1CA => I64x2::extend_high_u(only(s, d)),
        _ => ZEROS,
    }
}

pub(crate) fn test(id: u32, s: &[u8], d: usize) -> u32
    requires { HasOperands 1 s.now d }
    ensures { (o : Testop) → row_of id ≡ carried (vector (Test o)) → result ≡ test o (top_of s.now d 1) }
{
    match id {
        0x153 => V128::any_true(only(s, d)),
        0x163 => I8x16::all_true(only(s, d)),
        0x164 => I8x16::bitmask(only(s, d)),
        0x183 => I16x8::all_true(only(s, d)),
        0x184 => I16x8::bitmask(only(s, d)),
        0x1A3 => I32x4::all_true(only(s, d)),
        0x1A4 => I32x4::bitmask(only(s, d)),
        0x1C3 => I64x2::all_true(only(s, d)),
        0x1C4 => I64x2::bitmask(only(s, d)),
        _ => 0,
    }
}

pub(crate) fn shift(id: u32, s: &[u8], d: usize) -> V128
    requires { HasOperands 2 s.now d }
    ensures { (o : Shiftop) → row_of id ≡ carried (vector (Shift o)) → result.bytes ≡ shift o (top_of s.now d 2) (low32 (top_of s.now d 1)) }
{
    match id {
        0x16B => I8x16::shl(left(s, d), count(s, d)),
        0x16C => I8x16::shr_s(left(s, d), count(s, d)),
        0x16D => I8x16::shr_u(left(s, d), count(s, d)),
        0x18B => I16x8::shl(left(s, d), count(s, d)),
        0x18C => I16x8::shr_s(left(s, d), count(s, d)),
        0x18D => I16x8::shr_u(left(s, d), count(s, d)),
        0x1AB => I32x4::shl(left(s, d), count(s, d)),
        0x1AC => I32x4::shr_s(left(s, d), count(s, d)),
        0x1AD => I32x4::shr_u(left(s, d), count(s, d)),
        0x1CB => I64x2::shl(left(s, d), count(s, d)),
        0x1CC => I64x2::shr_s(left(s, d), count(s, d)),
        0x1CD => I64x2::shr_u(left(s, d), count(s, d)),
        _ => ZEROS,
    }
}
