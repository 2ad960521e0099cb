// What all four integer shapes have.
ghost use Rattle.std.specs.Prelude.{◌≡◌, ℕ, pos, ◌<◌};
ghost use Rattle.scalar.specs.Scalar.{S, U, wrap};
ghost use Rattle.operation.specs.Op.{Abs, Add, AllTrue, Bitmask, Eq, Ge, Gt, Le, Lt, Ne, Neg, Repeat, Shl, Shr, Sub, unary, binary, test, shift, splat, loaded};
ghost use Rattle.lane.specs.Answer.{vector_answer, replace_lane, load_lane, store_lane};

use crate::lanes::lanewise::{lanewise1, lanewise2};
use crate::lanes::signs::Signs;
use crate::lanes::single::{alone, everywhere, with};
use crate::lanes::testing::{all_true, bitmask};
use crate::{NoSuchLane, V128};
use scalar::{I8x16, I16x8, I32x4, I64x2, Lane};

pub trait Integer: Signs {
    // The scalar that a lane is made of: an i32, or an i64 for i64x2.
    type Scalar: Copy;

    ghost scalar: { Self.Scalar → ℕ };

    // The bits above the lane are dropped.
    fn lane_of(x: Self::Scalar) -> Self::Lane
        ensures { Self.Lane.bits result ≡ wrap Self.Lane.width (pos (scalar x)) };

    fn splat(x: Self::Scalar) -> V128
        ensures { result.bytes ≡ splat Self.Lane.width (scalar x) }
    {
        everywhere::<Self>(Self::lane_of(x))
    }

    fn replace_lane(a: V128, i: u8, x: Self::Scalar) -> Result<V128, NoSuchLane>
        ensures { vector_answer result ≡ replace_lane Self.Lane.width a.bytes i (scalar x) }
    {
        let k = i as usize;
        if k < Self::LANES {
            Ok(with::<Self>(a, k, Self::lane_of(x)))
        } else {
            Err(NoSuchLane)
        }
    }

    fn eq(a: V128, b: V128) -> V128
        ensures { result.bytes ≡ binary (Eq Self.Lane.width) a.bytes b.bytes }
    {
        lanewise2::<Self, _>(a, b, |x, y| Self::Lane::mask(x.equal(y)))
    }

    fn ne(a: V128, b: V128) -> V128
        ensures { result.bytes ≡ binary (Ne Self.Lane.width) a.bytes b.bytes }
    {
        lanewise2::<Self, _>(a, b, |x, y| Self::Lane::mask(!x.equal(y)))
    }

    fn lt_s(a: V128, b: V128) -> V128
        ensures { result.bytes ≡ binary (Lt S Self.Lane.width) a.bytes b.bytes }
    {
        lanewise2::<Self, _>(a, b, |x, y| Self::Lane::mask(x.less_s(y)))
    }

    fn gt_s(a: V128, b: V128) -> V128
        ensures { result.bytes ≡ binary (Gt S Self.Lane.width) a.bytes b.bytes }
    {
        lanewise2::<Self, _>(a, b, |x, y| Self::Lane::mask(y.less_s(x)))
    }

    fn le_s(a: V128, b: V128) -> V128
        ensures { result.bytes ≡ binary (Le S Self.Lane.width) a.bytes b.bytes }
    {
        lanewise2::<Self, _>(a, b, |x, y| Self::Lane::mask(!y.less_s(x)))
    }

    fn ge_s(a: V128, b: V128) -> V128
        ensures { result.bytes ≡ binary (Ge S Self.Lane.width) a.bytes b.bytes }
    {
        lanewise2::<Self, _>(a, b, |x, y| Self::Lane::mask(!x.less_s(y)))
    }

    fn abs(a: V128) -> V128
        ensures { result.bytes ≡ unary (Abs Self.Lane.width) a.bytes }
    {
        lanewise1::<Self, _>(a, |x| x.abs())
    }

    fn neg(a: V128) -> V128
        ensures { result.bytes ≡ unary (Neg Self.Lane.width) a.bytes }
    {
        lanewise1::<Self, _>(a, |x| x.neg())
    }

    fn all_true(a: V128) -> u32
        ensures { result ≡ test (AllTrue Self.Lane.width) a.bytes }
    {
        all_true::<Self>(a)
    }

    fn bitmask(a: V128) -> u32
        ensures { result ≡ test (Bitmask Self.Lane.width) a.bytes }
    {
        bitmask::<Self>(a)
    }

    fn shl(a: V128, n: u32) -> V128
        ensures { result.bytes ≡ shift (Shl Self.Lane.width) a.bytes n }
    {
        lanewise1::<Self, _>(a, |x| x.shl(n))
    }

    fn shr_s(a: V128, n: u32) -> V128
        ensures { result.bytes ≡ shift (Shr S Self.Lane.width) a.bytes n }
    {
        lanewise1::<Self, _>(a, |x| x.shr_s(n))
    }

    fn shr_u(a: V128, n: u32) -> V128
        ensures { result.bytes ≡ shift (Shr U Self.Lane.width) a.bytes n }
    {
        lanewise1::<Self, _>(a, |x| x.shr_u(n))
    }

    fn add(a: V128, b: V128) -> V128
        ensures { result.bytes ≡ binary (Add Self.Lane.width) a.bytes b.bytes }
    {
        lanewise2::<Self, _>(a, b, |x, y| x.add(y))
    }

    fn sub(a: V128, b: V128) -> V128
        ensures { result.bytes ≡ binary (Sub Self.Lane.width) a.bytes b.bytes }
    {
        lanewise2::<Self, _>(a, b, |x, y| x.sub(y))
    }

    // v128.load8_splat to v128.load64_splat: m holds the bytes that were read, from byte 0 on; what stands behind them is not looked at.
    fn load_splat(m: V128) -> V128
        ensures { result.bytes ≡ loaded (Repeat Self.Lane.width) m.bytes }
    {
        everywhere::<Self>(Self::get(&m.bytes, 0))
    }

    // v128.load8_lane to v128.load64_lane, m as above.
    fn load_lane(m: V128, a: V128, i: u8) -> Result<V128, NoSuchLane>
        ensures { vector_answer result ≡ load_lane Self.Lane.width m.bytes a.bytes i }
    {
        let k = i as usize;
        if k < Self::LANES {
            Ok(with::<Self>(a, k, Self::get(&m.bytes, 0)))
        } else {
            Err(NoSuchLane)
        }
    }

    // v128.store8_lane to v128.store64_lane: the lane's bytes come first.
    fn store_lane(a: V128, i: u8) -> Result<V128, NoSuchLane>
        ensures { vector_answer result ≡ store_lane Self.Lane.width a.bytes i }
    {
        let k = i as usize;
        if k < Self::LANES {
            Ok(alone::<Self>(Self::get(&a.bytes, k)))
        } else {
            Err(NoSuchLane)
        }
    }
}

impl Integer for I8x16 {
    type Scalar = u32;

    ghost scalar = { λ x. x };

    fn lane_of(x: u32) -> u8 {
        (x % 256) as u8
    }
}

impl Integer for I16x8 {
    type Scalar = u32;

    ghost scalar = { λ x. x };

    fn lane_of(x: u32) -> u16 {
        (x % 65536) as u16
    }
}

impl Integer for I32x4 {
    type Scalar = u32;

    ghost scalar = { λ x. x };

    fn lane_of(x: u32) -> u32 {
        x
    }
}

impl Integer for I64x2 {
    type Scalar = u64;

    ghost scalar = { λ x. x };

    fn lane_of(x: u64) -> u64 {
        x
    }
}
