// One lane: given to all, taken out, put in. Below 64 bits the scalar is an i32, the low half of x.
ghost use Rattle.std.specs.Prelude.{◌≡◌, ◌<◌};
ghost use Rattle.std.specs.Int.{Width};
ghost use Rattle.scalar.specs.Scalar.{Sign};
ghost use Rattle.operation.specs.Shape.{lanes};
ghost use Rattle.operation.specs.Op.{Splat, ExtractLane, ReplaceLane, splat, extracted, replaced};
ghost use Rattle.opcode.specs.Table.{carried, vector};
ghost use Rattle.opcode.specs.Number.{row_of};

use crate::vector::ZEROS;
use lane::{I8x16, I16x8, I32x4, I64x2, Integer, Packed, Unpacked, V128};

pub(crate) fn splat(id: u32, x: u64) -> V128
    ensures { (w : Width) → row_of id ≡ carried (vector (Splat w)) → result.bytes ≡ splat w x }
{
    match id {
        0x10F => I8x16::splat((x % 0x1_0000_0000) as u32),
        0x110 => I16x8::splat((x % 0x1_0000_0000) as u32),
        0x111 => I32x4::splat((x % 0x1_0000_0000) as u32),
        0x112 => I64x2::splat(x),
        _ => ZEROS,
    }
}

pub(crate) fn extract(id: u32, a: V128, lane: u8) -> u64
    ensures { (s : Sign) (w : Width) → row_of id ≡ carried (vector (ExtractLane s w)) → lane < lanes w → result ≡ extracted s w a.bytes lane }
{
    match id {
        0x115 => I8x16::extract_lane_s(a, lane).unwrap_or(0),
        0x116 => I8x16::extract_lane_u(a, lane).unwrap_or(0),
        0x118 => I16x8::extract_lane_s(a, lane).unwrap_or(0),
        0x119 => I16x8::extract_lane_u(a, lane).unwrap_or(0),
        0x11B => I32x4::extract_lane(a, lane).unwrap_or(0),
        0x11D => I64x2::extract_lane(a, lane).unwrap_or(0),
        _ => 0,
    }
}

pub(crate) fn replace(id: u32, a: V128, lane: u8, x: u64) -> V128
    ensures { (w : Width) → row_of id ≡ carried (vector (ReplaceLane w)) → lane < lanes w → result.bytes ≡ replaced w a.bytes lane x }
{
    match id {
        0x117 => I8x16::replace_lane(a, lane, (x % 0x1_0000_0000) as u32).unwrap_or(ZEROS),
        0x11A => I16x8::replace_lane(a, lane, (x % 0x1_0000_0000) as u32).unwrap_or(ZEROS),
        0x11C => I32x4::replace_lane(a, lane, (x % 0x1_0000_0000) as u32).unwrap_or(ZEROS),
        0x11E => I64x2::replace_lane(a, lane, x).unwrap_or(ZEROS),
        _ => ZEROS,
    }
}
