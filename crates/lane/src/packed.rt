// What the shapes of 8 and 16 bits have, whose lanes are narrower than a scalar: narrowing, and two ways to take a lane out.
ghost use Rattle.std.specs.Prelude.{◌≡◌, refl};
ghost use Rattle.scalar.specs.Scalar.{S, U};
ghost use Rattle.operation.specs.Shape.{twice};
ghost use Rattle.std.specs.Int.{w32};
ghost use Rattle.operation.specs.Op.{Narrow, binary, unpack};
ghost use Rattle.lane.specs.Answer.{lane_answer, extract_lane};

use crate::integer::Integer;
use crate::laid::Laid;
use crate::lanes::narrowing::narrow;
use crate::{NoSuchLane, V128};
use scalar::{I8x16, I16x8, I32x4, Narrow, Shape, Small};

// Core's names have the wider shape in them: `I8x16::narrow_s` is i8x16.narrow_i16x8_s.
pub trait Packed: Integer + Shape<Lane: Small> {
    type Double: Laid + Shape<Lane = <Self::Lane as Narrow>::Wide>;

    fn narrow_s(a: V128, b: V128) -> V128
        ensures { result.bytes ≡ binary (Narrow S Self.Lane.width) a.bytes b.bytes }
    {
        narrow::<Self, Self::Double, _>(a, b, |x| Self::Lane::narrow_s(x))
    }

    fn narrow_u(a: V128, b: V128) -> V128
        ensures { result.bytes ≡ binary (Narrow U Self.Lane.width) a.bytes b.bytes }
    {
        narrow::<Self, Self::Double, _>(a, b, |x| Self::Lane::narrow_u(x))
    }

    fn extract_lane_s(a: V128, i: u8) -> Result<u64, NoSuchLane>
        ensures { lane_answer result ≡ extract_lane S Self.Lane.width a.bytes i }
    {
        let k = i as usize;
        if k < Self::LANES {
            Ok(Self::get(&a.bytes, k).word_s() as u64)
        } else {
            Err(NoSuchLane)
        }
    }

    fn extract_lane_u(a: V128, i: u8) -> Result<u64, NoSuchLane>
        ensures { lane_answer result ≡ extract_lane U Self.Lane.width a.bytes i }
    {
        let k = i as usize;
        if k < Self::LANES {
            Ok(Self::get(&a.bytes, k).word_u() as u64)
        } else {
            Err(NoSuchLane)
        }
    }

    ghost twice_is: { twice Self.Lane.width ≡ Self.Lane.Wide.width };

    ghost unpack_is: { unpack Self.Lane.width ≡ w32 };
}

impl Packed for I8x16 {
    type Double = I16x8;

    ghost twice_is = { refl };

    ghost unpack_is = { refl };
}

impl Packed for I16x8 {
    type Double = I32x4;

    ghost twice_is = { refl };

    ghost unpack_is = { refl };
}
