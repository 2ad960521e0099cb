// The four integer shapes of a v128: a type each, with its lane's type and constants. The operations are functions of the type; a value of it
// is one lane by itself.
ghost use Rattle.std.specs.Prelude.{◌≡◌, refl, ℕ, ℤ, pos, negsuc, ◌*◌};
ghost use mir.Val.{bits as width_bits};
ghost use Rattle.scalar.specs.Bounds.{least, largest, all_ones};

use crate::lane::Lane;

// A v128 as lanes of one width. The laws fix each constant.
pub trait Shape {
    // A lane's bits, u8 to u64.
    type Lane: Lane;

    // A lane read by its sign, i8 to i64.
    type Signed: Copy;

    const LANES: usize;

    const WIDTH: u32;

    const LEAST: Self::Signed;

    const LARGEST: Self::Signed;

    // The largest unsigned value, all bits one.
    const ALL: Self::Lane;

    ghost LANES: { ℕ };

    ghost WIDTH: { ℕ };

    ghost LEAST: { Self.Signed };

    ghost LARGEST: { Self.Signed };

    ghost ALL: { Self.Lane };

    ghost number: { Self.Signed → ℤ };

    ghost lanes_fill: { LANES * width_bits Self.Lane.width ≡ 128 };

    ghost width_is: { WIDTH ≡ width_bits Self.Lane.width };

    ghost least_is: { number LEAST ≡ least Self.Lane.width };

    ghost largest_is: { number LARGEST ≡ largest Self.Lane.width };

    ghost all_is: { Self.Lane.bits ALL ≡ all_ones Self.Lane.width };
}

// A value of it is one lane of 8 bits.
#[derive(Clone, Copy)]
pub struct I8x16 {
    // The lane's bits.
    pub bits: u8,
}

impl Shape for I8x16 {
    type Lane = u8;

    type Signed = i8;

    const LANES: usize = 16;

    const WIDTH: u32 = 8;

    const LEAST: i8 = -128;

    const LARGEST: i8 = 127;

    const ALL: u8 = 255;

    ghost LANES = { 16 };

    ghost WIDTH = { 8 };

    ghost LEAST = { negsuc 127 };

    ghost LARGEST = { pos 127 };

    ghost ALL = { 255 };

    ghost number = { λ z. z };

    ghost lanes_fill = { refl };

    ghost width_is = { refl };

    ghost least_is = { refl };

    ghost largest_is = { refl };

    ghost all_is = { refl };
}

// A value of it is one lane of 16 bits.
#[derive(Clone, Copy)]
pub struct I16x8 {
    // The lane's bits.
    pub bits: u16,
}

impl Shape for I16x8 {
    type Lane = u16;

    type Signed = i16;

    const LANES: usize = 8;

    const WIDTH: u32 = 16;

    const LEAST: i16 = -32768;

    const LARGEST: i16 = 32767;

    const ALL: u16 = 65535;

    ghost LANES = { 8 };

    ghost WIDTH = { 16 };

    ghost LEAST = { negsuc 32767 };

    ghost LARGEST = { pos 32767 };

    ghost ALL = { 65535 };

    ghost number = { λ z. z };

    ghost lanes_fill = { refl };

    ghost width_is = { refl };

    ghost least_is = { refl };

    ghost largest_is = { refl };

    ghost all_is = { refl };
}

// A value of it is one lane of 32 bits.
#[derive(Clone, Copy)]
pub struct I32x4 {
    // The lane's bits.
    pub bits: u32,
}

impl Shape for I32x4 {
    type Lane = u32;

    type Signed = i32;

    const LANES: usize = 4;

    const WIDTH: u32 = 32;

    const LEAST: i32 = -2147483648;

    const LARGEST: i32 = 2147483647;

    const ALL: u32 = 4294967295;

    ghost LANES = { 4 };

    ghost WIDTH = { 32 };

    ghost LEAST = { negsuc 2147483647 };

    ghost LARGEST = { pos 2147483647 };

    ghost ALL = { 4294967295 };

    ghost number = { λ z. z };

    ghost lanes_fill = { refl };

    ghost width_is = { refl };

    ghost least_is = { refl };

    ghost largest_is = { refl };

    ghost all_is = { refl };
}

// A value of it is one lane of 64 bits.
#[derive(Clone, Copy)]
pub struct I64x2 {
    // The lane's bits.
    pub bits: u64,
}

impl Shape for I64x2 {
    type Lane = u64;

    type Signed = i64;

    const LANES: usize = 2;

    const WIDTH: u32 = 64;

    const LEAST: i64 = -9223372036854775808;

    const LARGEST: i64 = 9223372036854775807;

    const ALL: u64 = 18446744073709551615;

    ghost LANES = { 2 };

    ghost WIDTH = { 64 };

    ghost LEAST = { negsuc 9223372036854775807 };

    ghost LARGEST = { pos 9223372036854775807 };

    ghost ALL = { 18446744073709551615 };

    ghost number = { λ z. z };

    ghost lanes_fill = { refl };

    ghost width_is = { refl };

    ghost least_is = { refl };

    ghost largest_is = { refl };

    ghost all_is = { refl };
}
