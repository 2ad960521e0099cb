// The operations on v128 values, by themselves. An operation of a shape is a function of its type, by traits, under Core's name: `I8x16::add`.
// What is done to one lane is `scalar`.
#![tactic(auto)]

mod answer;
mod integer;
mod laid;
mod lanes;
mod memory;
mod one_shape;
mod ordered;
mod packed;
mod paired;
mod saturating;
mod unpacked;
mod whole;
mod wide;

pub use answer::NoSuchLane;
pub use integer::Integer;
pub use one_shape::{dot_i16x8_s, popcnt, q15mulr_sat_s, shuffle, swizzle};
pub use ordered::Ordered;
pub use packed::Packed;
pub use paired::Paired;
pub use saturating::Saturating;
pub use scalar::{I8x16, I16x8, I32x4, I64x2};
pub use unpacked::Unpacked;
pub use wide::Wide;

// A value of kind v128: its sixteen bytes, byte 0 first.
#[derive(Clone, Copy, Debug, PartialEq, Eq)]
pub struct V128 {
    pub bytes: [u8; 16],
}
