// What the shapes of 16, 32 and 64 bits have: a lane is as wide as two of another shape, its half.
ghost use Rattle.std.specs.Prelude.{◌≡◌, refl};
ghost use Rattle.scalar.specs.Scalar.{S, U};
ghost use Rattle.operation.specs.Shape.{half};
ghost use Rattle.operation.specs.Op.{Extend, Extmul, High, Low, Mul, Widen, unary, binary, loaded};

use crate::V128;
use crate::integer::Integer;
use crate::laid::Laid;
use crate::lanes::lanewise::lanewise2;
use crate::lanes::widening::{widen1, widen2};
use scalar::{I8x16, I16x8, I32x4, I64x2, Lane, Narrow, Shape};

// Core's names have the half in them: `I16x8::extend_low_s` is i16x8.extend_low_i8x16_s.
pub trait Wide: Integer {
    type Half: Laid + Shape<Lane: Narrow<Wide = Self::Lane>>;

    fn mul(a: V128, b: V128) -> V128
        ensures { result.bytes ≡ binary (Mul Self.Lane.width) a.bytes b.bytes }
    {
        lanewise2::<Self, _>(a, b, |x, y| x.mul(y))
    }

    fn extend_low_s(a: V128) -> V128
        ensures { result.bytes ≡ unary (Extend Low S Self.Lane.width) a.bytes }
    {
        widen1::<Self, Self::Half, _>(0, a, |x| x.extend_s())
    }

    fn extend_low_u(a: V128) -> V128
        ensures { result.bytes ≡ unary (Extend Low U Self.Lane.width) a.bytes }
    {
        widen1::<Self, Self::Half, _>(0, a, |x| x.extend_u())
    }

    fn extend_high_s(a: V128) -> V128
        ensures { result.bytes ≡ unary (Extend High S Self.Lane.width) a.bytes }
    {
        widen1::<Self, Self::Half, _>(Self::LANES, a, |x| x.extend_s())
    }

    fn extend_high_u(a: V128) -> V128
        ensures { result.bytes ≡ unary (Extend High U Self.Lane.width) a.bytes }
    {
        widen1::<Self, Self::Half, _>(Self::LANES, a, |x| x.extend_u())
    }

    fn extmul_low_s(a: V128, b: V128) -> V128
        ensures { result.bytes ≡ binary (Extmul Low S Self.Lane.width) a.bytes b.bytes }
    {
        widen2::<Self, Self::Half, _>(0, a, b, |x, y| x.extmul_s(y))
    }

    fn extmul_low_u(a: V128, b: V128) -> V128
        ensures { result.bytes ≡ binary (Extmul Low U Self.Lane.width) a.bytes b.bytes }
    {
        widen2::<Self, Self::Half, _>(0, a, b, |x, y| x.extmul_u(y))
    }

    fn extmul_high_s(a: V128, b: V128) -> V128
        ensures { result.bytes ≡ binary (Extmul High S Self.Lane.width) a.bytes b.bytes }
    {
        widen2::<Self, Self::Half, _>(Self::LANES, a, b, |x, y| x.extmul_s(y))
    }

    fn extmul_high_u(a: V128, b: V128) -> V128
        ensures { result.bytes ≡ binary (Extmul High U Self.Lane.width) a.bytes b.bytes }
    {
        widen2::<Self, Self::Half, _>(Self::LANES, a, b, |x, y| x.extmul_u(y))
    }

    // v128.load8x8_s, v128.load16x4_s and v128.load32x2_s
    fn load_extend_s(m: V128) -> V128
        ensures { result.bytes ≡ loaded (Widen S Self.Lane.width) m.bytes }
    {
        widen1::<Self, Self::Half, _>(0, m, |x| x.extend_s())
    }

    // v128.load8x8_u, v128.load16x4_u and v128.load32x2_u
    fn load_extend_u(m: V128) -> V128
        ensures { result.bytes ≡ loaded (Widen U Self.Lane.width) m.bytes }
    {
        widen1::<Self, Self::Half, _>(0, m, |x| x.extend_u())
    }

    ghost half_is: { half Self.Lane.width ≡ Self.Half.Lane.width };
}

impl Wide for I16x8 {
    type Half = I8x16;

    ghost half_is = { refl };
}

impl Wide for I32x4 {
    type Half = I16x8;

    ghost half_is = { refl };
}

impl Wide for I64x2 {
    type Half = I32x4;

    ghost half_is = { refl };
}
