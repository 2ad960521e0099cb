// What loads make of the bytes that were read, and what a lane's store writes. m holds the bytes that were read, from byte 0 on.
ghost use Rattle.std.specs.Prelude.{◌≡◌, ◌<◌};
ghost use Rattle.std.specs.Int.{Width};
ghost use Rattle.operation.specs.Shape.{lanes};
ghost use Rattle.operation.specs.Op.{Loadop, Load, LoadLane, StoreLane, loaded, lane_in, lane_out};
ghost use Rattle.opcode.specs.Table.{carried, vector};
ghost use Rattle.opcode.specs.Number.{row_of};

use crate::vector::ZEROS;
use lane::{I8x16, I16x8, I32x4, I64x2, Integer, Unpacked, V128, Wide};

pub(crate) fn load(id: u32, m: V128) -> V128
    ensures { (l : Loadop) → row_of id ≡ carried (vector (Load l)) → result.bytes ≡ loaded l m.bytes }
{
    match id {
        0x100 => V128::load(m),
        0x101 => I16x8::load_extend_s(m),
        0x102 => I16x8::load_extend_u(m),
        0x103 => I32x4::load_extend_s(m),
        0x104 => I32x4::load_extend_u(m),
        0x105 => I64x2::load_extend_s(m),
        0x106 => I64x2::load_extend_u(m),
        0x107 => I8x16::load_splat(m),
        0x108 => I16x8::load_splat(m),
        0x109 => I32x4::load_splat(m),
        0x10A => I64x2::load_splat(m),
        0x15C => I32x4::load_zero(m),
        0x15D => I64x2::load_zero(m),
        _ => ZEROS,
    }
}

pub(crate) fn lane_in(id: u32, m: V128, a: V128, lane: u8) -> V128
    ensures { (w : Width) → row_of id ≡ carried (vector (LoadLane w)) → lane < lanes w → result.bytes ≡ lane_in w m.bytes a.bytes lane }
{
    match id {
        0x154 => I8x16::load_lane(m, a, lane).unwrap_or(ZEROS),
        0x155 => I16x8::load_lane(m, a, lane).unwrap_or(ZEROS),
        0x156 => I32x4::load_lane(m, a, lane).unwrap_or(ZEROS),
        0x157 => I64x2::load_lane(m, a, lane).unwrap_or(ZEROS),
        _ => ZEROS,
    }
}

pub(crate) fn lane_out(id: u32, a: V128, lane: u8) -> V128
    ensures { (w : Width) → row_of id ≡ carried (vector (StoreLane w)) → lane < lanes w → result.bytes ≡ lane_out w a.bytes lane }
{
    match id {
        0x158 => I8x16::store_lane(a, lane).unwrap_or(ZEROS),
        0x159 => I16x8::store_lane(a, lane).unwrap_or(ZEROS),
        0x15A => I32x4::store_lane(a, lane).unwrap_or(ZEROS),
        0x15B => I64x2::store_lane(a, lane).unwrap_or(ZEROS),
        _ => ZEROS,
    }
}
