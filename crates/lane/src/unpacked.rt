// What the shapes of 32 and 64 bits have, whose lanes are scalars.
ghost use Rattle.std.specs.Prelude.{◌≡◌, refl};
ghost use Rattle.scalar.specs.Scalar.{S};
ghost use Rattle.operation.specs.Op.{ZeroPad, loaded, unpack};
ghost use Rattle.lane.specs.Answer.{lane_answer, extract_lane};

use crate::integer::Integer;
use crate::lanes::single::alone;
use crate::{NoSuchLane, V128};
use scalar::{I32x4, I64x2};

pub trait Unpacked: Integer {
    fn scalar_of(x: Self::Lane) -> u64
        ensures { result ≡ Self.Lane.bits x };

    fn extract_lane(a: V128, i: u8) -> Result<u64, NoSuchLane>
        ensures { lane_answer result ≡ extract_lane S Self.Lane.width a.bytes i }
    {
        let k = i as usize;
        if k < Self::LANES {
            Ok(Self::scalar_of(Self::get(&a.bytes, k)))
        } else {
            Err(NoSuchLane)
        }
    }

    // v128.load32_zero and v128.load64_zero: m holds the bytes that were read, from byte 0 on; what stands behind them is not looked at.
    fn load_zero(m: V128) -> V128
        ensures { result.bytes ≡ loaded (ZeroPad Self.Lane.width) m.bytes }
    {
        alone::<Self>(Self::get(&m.bytes, 0))
    }

    ghost unpack_is: { unpack Self.Lane.width ≡ Self.Lane.width };
}

impl Unpacked for I32x4 {
    fn scalar_of(x: u32) -> u64 {
        x as u64
    }

    ghost unpack_is = { refl };
}

impl Unpacked for I64x2 {
    fn scalar_of(x: u64) -> u64 {
        x
    }

    ghost unpack_is = { refl };
}
