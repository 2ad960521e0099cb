// One operation of lane by its number (document 002), on three values: a is the first argument, i the lane's index, and a
// scalar stands in the value in its place. Each shape hands on the numbers that are not its own: a function a shape, since each has operations
// of its own, and one match of all takes twice as long to prove.
use crate::value::{long, slot, word};
use lane::{
    I8x16, I16x8, I32x4, I64x2, Integer, NoSuchLane, Ordered, Packed, Paired, Saturating, Unpacked,
    V128, Wide,
};

// An answer as the card has it.
#[derive(Clone, Copy)]
pub(crate) struct Answer {
    pub(crate) code: u8,
    pub(crate) place: u32,
    pub(crate) value: V128,
}

#[derive(Clone, Copy)]
enum Refused {
    Lane,
    Opcode,
}

impl From<NoSuchLane> for Refused {
    fn from(_: NoSuchLane) -> Refused {
        Refused::Lane
    }
}

fn op_i64x2(op: u8, i: u8, a: V128, b: V128) -> Result<V128, Refused> {
    match op {
        0x12 => Ok(I64x2::splat(long(a))),
        0x1d => Ok(slot(I64x2::extract_lane(a, i)?)),
        0x1e => Ok(I64x2::replace_lane(a, i, long(b))?),
        0xc0 => Ok(I64x2::abs(a)),
        0xc1 => Ok(I64x2::neg(a)),
        0xc3 => Ok(slot(I64x2::all_true(a) as u64)),
        0xc4 => Ok(slot(I64x2::bitmask(a) as u64)),
        0xc7 => Ok(I64x2::extend_low_s(a)),
        0xc8 => Ok(I64x2::extend_high_s(a)),
        0xc9 => Ok(I64x2::extend_low_u(a)),
        0xca => Ok(I64x2::extend_high_u(a)),
        0xcb => Ok(I64x2::shl(a, word(b))),
        0xcc => Ok(I64x2::shr_s(a, word(b))),
        0xcd => Ok(I64x2::shr_u(a, word(b))),
        0xce => Ok(I64x2::add(a, b)),
        0xd1 => Ok(I64x2::sub(a, b)),
        0xd5 => Ok(I64x2::mul(a, b)),
        0xd6 => Ok(I64x2::eq(a, b)),
        0xd7 => Ok(I64x2::ne(a, b)),
        0xd8 => Ok(I64x2::lt_s(a, b)),
        0xd9 => Ok(I64x2::gt_s(a, b)),
        0xda => Ok(I64x2::le_s(a, b)),
        0xdb => Ok(I64x2::ge_s(a, b)),
        0xdc => Ok(I64x2::extmul_low_s(a, b)),
        0xdd => Ok(I64x2::extmul_high_s(a, b)),
        0xde => Ok(I64x2::extmul_low_u(a, b)),
        0xdf => Ok(I64x2::extmul_high_u(a, b)),
        _ => Err(Refused::Opcode),
    }
}

fn op_i32x4(op: u8, i: u8, a: V128, b: V128) -> Result<V128, Refused> {
    match op {
        0x11 => Ok(I32x4::splat(word(a))),
        0x1b => Ok(slot(I32x4::extract_lane(a, i)?)),
        0x1c => Ok(I32x4::replace_lane(a, i, word(b))?),
        0x37 => Ok(I32x4::eq(a, b)),
        0x38 => Ok(I32x4::ne(a, b)),
        0x39 => Ok(I32x4::lt_s(a, b)),
        0x3a => Ok(I32x4::lt_u(a, b)),
        0x3b => Ok(I32x4::gt_s(a, b)),
        0x3c => Ok(I32x4::gt_u(a, b)),
        0x3d => Ok(I32x4::le_s(a, b)),
        0x3e => Ok(I32x4::le_u(a, b)),
        0x3f => Ok(I32x4::ge_s(a, b)),
        0x40 => Ok(I32x4::ge_u(a, b)),
        0x7e => Ok(I32x4::extadd_pairwise_s(a)),
        0x7f => Ok(I32x4::extadd_pairwise_u(a)),
        0xa0 => Ok(I32x4::abs(a)),
        0xa1 => Ok(I32x4::neg(a)),
        0xa3 => Ok(slot(I32x4::all_true(a) as u64)),
        0xa4 => Ok(slot(I32x4::bitmask(a) as u64)),
        0xa7 => Ok(I32x4::extend_low_s(a)),
        0xa8 => Ok(I32x4::extend_high_s(a)),
        0xa9 => Ok(I32x4::extend_low_u(a)),
        0xaa => Ok(I32x4::extend_high_u(a)),
        0xab => Ok(I32x4::shl(a, word(b))),
        0xac => Ok(I32x4::shr_s(a, word(b))),
        0xad => Ok(I32x4::shr_u(a, word(b))),
        0xae => Ok(I32x4::add(a, b)),
        0xb1 => Ok(I32x4::sub(a, b)),
        0xb5 => Ok(I32x4::mul(a, b)),
        0xb6 => Ok(I32x4::min_s(a, b)),
        0xb7 => Ok(I32x4::min_u(a, b)),
        0xb8 => Ok(I32x4::max_s(a, b)),
        0xb9 => Ok(I32x4::max_u(a, b)),
        0xba => Ok(lane::dot_i16x8_s(a, b)),
        0xbc => Ok(I32x4::extmul_low_s(a, b)),
        0xbd => Ok(I32x4::extmul_high_s(a, b)),
        0xbe => Ok(I32x4::extmul_low_u(a, b)),
        0xbf => Ok(I32x4::extmul_high_u(a, b)),
        _ => op_i64x2(op, i, a, b),
    }
}

fn op_i16x8(op: u8, i: u8, a: V128, b: V128) -> Result<V128, Refused> {
    match op {
        0x10 => Ok(I16x8::splat(word(a))),
        0x18 => Ok(slot(I16x8::extract_lane_s(a, i)?)),
        0x19 => Ok(slot(I16x8::extract_lane_u(a, i)?)),
        0x1a => Ok(I16x8::replace_lane(a, i, word(b))?),
        0x2d => Ok(I16x8::eq(a, b)),
        0x2e => Ok(I16x8::ne(a, b)),
        0x2f => Ok(I16x8::lt_s(a, b)),
        0x30 => Ok(I16x8::lt_u(a, b)),
        0x31 => Ok(I16x8::gt_s(a, b)),
        0x32 => Ok(I16x8::gt_u(a, b)),
        0x33 => Ok(I16x8::le_s(a, b)),
        0x34 => Ok(I16x8::le_u(a, b)),
        0x35 => Ok(I16x8::ge_s(a, b)),
        0x36 => Ok(I16x8::ge_u(a, b)),
        0x7c => Ok(I16x8::extadd_pairwise_s(a)),
        0x7d => Ok(I16x8::extadd_pairwise_u(a)),
        0x80 => Ok(I16x8::abs(a)),
        0x81 => Ok(I16x8::neg(a)),
        0x82 => Ok(lane::q15mulr_sat_s(a, b)),
        0x83 => Ok(slot(I16x8::all_true(a) as u64)),
        0x84 => Ok(slot(I16x8::bitmask(a) as u64)),
        0x85 => Ok(I16x8::narrow_s(a, b)),
        0x86 => Ok(I16x8::narrow_u(a, b)),
        0x87 => Ok(I16x8::extend_low_s(a)),
        0x88 => Ok(I16x8::extend_high_s(a)),
        0x89 => Ok(I16x8::extend_low_u(a)),
        0x8a => Ok(I16x8::extend_high_u(a)),
        0x8b => Ok(I16x8::shl(a, word(b))),
        0x8c => Ok(I16x8::shr_s(a, word(b))),
        0x8d => Ok(I16x8::shr_u(a, word(b))),
        0x8e => Ok(I16x8::add(a, b)),
        0x8f => Ok(I16x8::add_sat_s(a, b)),
        0x90 => Ok(I16x8::add_sat_u(a, b)),
        0x91 => Ok(I16x8::sub(a, b)),
        0x92 => Ok(I16x8::sub_sat_s(a, b)),
        0x93 => Ok(I16x8::sub_sat_u(a, b)),
        0x95 => Ok(I16x8::mul(a, b)),
        0x96 => Ok(I16x8::min_s(a, b)),
        0x97 => Ok(I16x8::min_u(a, b)),
        0x98 => Ok(I16x8::max_s(a, b)),
        0x99 => Ok(I16x8::max_u(a, b)),
        0x9b => Ok(I16x8::avgr_u(a, b)),
        0x9c => Ok(I16x8::extmul_low_s(a, b)),
        0x9d => Ok(I16x8::extmul_high_s(a, b)),
        0x9e => Ok(I16x8::extmul_low_u(a, b)),
        0x9f => Ok(I16x8::extmul_high_u(a, b)),
        _ => op_i32x4(op, i, a, b),
    }
}

fn op_i8x16(op: u8, i: u8, a: V128, b: V128, c: V128) -> Result<V128, Refused> {
    match op {
        0x0d => Ok(lane::shuffle(a, b, c)?),
        0x0e => Ok(lane::swizzle(a, b)),
        0x0f => Ok(I8x16::splat(word(a))),
        0x15 => Ok(slot(I8x16::extract_lane_s(a, i)?)),
        0x16 => Ok(slot(I8x16::extract_lane_u(a, i)?)),
        0x17 => Ok(I8x16::replace_lane(a, i, word(b))?),
        0x23 => Ok(I8x16::eq(a, b)),
        0x24 => Ok(I8x16::ne(a, b)),
        0x25 => Ok(I8x16::lt_s(a, b)),
        0x26 => Ok(I8x16::lt_u(a, b)),
        0x27 => Ok(I8x16::gt_s(a, b)),
        0x28 => Ok(I8x16::gt_u(a, b)),
        0x29 => Ok(I8x16::le_s(a, b)),
        0x2a => Ok(I8x16::le_u(a, b)),
        0x2b => Ok(I8x16::ge_s(a, b)),
        0x2c => Ok(I8x16::ge_u(a, b)),
        0x60 => Ok(I8x16::abs(a)),
        0x61 => Ok(I8x16::neg(a)),
        0x62 => Ok(lane::popcnt(a)),
        0x63 => Ok(slot(I8x16::all_true(a) as u64)),
        0x64 => Ok(slot(I8x16::bitmask(a) as u64)),
        0x65 => Ok(I8x16::narrow_s(a, b)),
        0x66 => Ok(I8x16::narrow_u(a, b)),
        0x6b => Ok(I8x16::shl(a, word(b))),
        0x6c => Ok(I8x16::shr_s(a, word(b))),
        0x6d => Ok(I8x16::shr_u(a, word(b))),
        0x6e => Ok(I8x16::add(a, b)),
        0x6f => Ok(I8x16::add_sat_s(a, b)),
        0x70 => Ok(I8x16::add_sat_u(a, b)),
        0x71 => Ok(I8x16::sub(a, b)),
        0x72 => Ok(I8x16::sub_sat_s(a, b)),
        0x73 => Ok(I8x16::sub_sat_u(a, b)),
        0x76 => Ok(I8x16::min_s(a, b)),
        0x77 => Ok(I8x16::min_u(a, b)),
        0x78 => Ok(I8x16::max_s(a, b)),
        0x79 => Ok(I8x16::max_u(a, b)),
        0x7b => Ok(I8x16::avgr_u(a, b)),
        _ => op_i16x8(op, i, a, b),
    }
}

pub(crate) fn apply(op: u8, i: u8, a: V128, b: V128, c: V128) -> Answer {
    let (code, value) = match op_whole(op, i, a, b, c) {
        Ok(value) => (card::DONE, value),
        Err(Refused::Lane) => (card::LANE, slot(0)),
        Err(Refused::Opcode) => (card::OPCODE, slot(0)),
    };
    Answer {
        code,
        place: 0,
        value,
    }
}

fn op_whole(op: u8, i: u8, a: V128, b: V128, c: V128) -> Result<V128, Refused> {
    match op {
        0x00 => Ok(V128::load(a)),
        0x01 => Ok(I16x8::load_extend_s(a)),
        0x02 => Ok(I16x8::load_extend_u(a)),
        0x03 => Ok(I32x4::load_extend_s(a)),
        0x04 => Ok(I32x4::load_extend_u(a)),
        0x05 => Ok(I64x2::load_extend_s(a)),
        0x06 => Ok(I64x2::load_extend_u(a)),
        0x07 => Ok(I8x16::load_splat(a)),
        0x08 => Ok(I16x8::load_splat(a)),
        0x09 => Ok(I32x4::load_splat(a)),
        0x0a => Ok(I64x2::load_splat(a)),
        0x0b => Ok(V128::store(a)),
        0x0c => Ok(V128::constant(a.bytes)),
        0x4d => Ok(V128::not(a)),
        0x4e => Ok(V128::and(a, b)),
        0x4f => Ok(V128::andnot(a, b)),
        0x50 => Ok(V128::or(a, b)),
        0x51 => Ok(V128::xor(a, b)),
        0x52 => Ok(V128::bitselect(a, b, c)),
        0x53 => Ok(slot(V128::any_true(a) as u64)),
        0x54 => Ok(I8x16::load_lane(a, b, i)?),
        0x55 => Ok(I16x8::load_lane(a, b, i)?),
        0x56 => Ok(I32x4::load_lane(a, b, i)?),
        0x57 => Ok(I64x2::load_lane(a, b, i)?),
        0x58 => Ok(I8x16::store_lane(a, i)?),
        0x59 => Ok(I16x8::store_lane(a, i)?),
        0x5a => Ok(I32x4::store_lane(a, i)?),
        0x5b => Ok(I64x2::store_lane(a, i)?),
        0x5c => Ok(I32x4::load_zero(a)),
        0x5d => Ok(I64x2::load_zero(a)),
        _ => op_i8x16(op, i, a, b, c),
    }
}
