// Tests over all lanes: any bit, every lane, the sign of each lane.
ghost use Rattle.std.specs.Prelude.{◌≡◌};
ghost use Rattle.operation.specs.Op.{AnyTrue, AllTrue, Bitmask, test};

use crate::V128;
use crate::laid::Laid;
use crate::lanes::signs::Signs;
use scalar::{I64x2, Lane};

pub(crate) fn any_true(a: V128) -> u32
    ensures { result ≡ test AnyTrue a.bytes }
{
    if I64x2::get(&a.bytes, 0) != 0 {
        return 1;
    }
    if I64x2::get(&a.bytes, 1) != 0 {
        return 1;
    }
    0
}

pub(crate) fn all_true<S: Laid>(a: V128) -> u32
    ensures { result ≡ test (AllTrue S.Lane.width) a.bytes }
{
    let zero = <S::Lane as Lane>::mask(false);
    for i in 0..S::LANES {
        if S::get(&a.bytes, i).equal(zero) {
            return 0;
        }
    }
    1
}

// The signs of the low word's lanes, and above them those of the high word's.
pub(crate) fn bitmask<S: Signs>(a: V128) -> u32
    ensures { result ≡ test (Bitmask S.Lane.width) a.bytes }
{
    let low = S::signs(I64x2::get(&a.bytes, 0));
    let high = S::signs(I64x2::get(&a.bytes, 1));
    low + (high << (S::LANES / 2))
}
