// Bytes chosen by index: by a vector of indices, where one past the end chooses 0, or by sixteen that are below 32.
ghost use Rattle.std.specs.Prelude.{◌≡◌, true, ◌++◌, ◌<◌, ltb};
ghost use Rattle.operation.specs.Shape.{i8x16, lanes};
ghost use Rattle.operation.specs.Vector.{lane, Sixteen};
ghost use Rattle.operation.specs.Op.{all, lane_or0, shuffled};

use crate::V128;
use crate::laid::Laid;
use crate::lanes::each::each_lane;
use crate::lanes::narrowing::either;
use scalar::{I8x16, Shape};

pub(crate) fn byte_or_0(v: &[u8; 16], i: u8) -> u8
    requires { Sixteen v.now }
    ensures { result ≡ lane_or0 v.now i }
{
    let k = i as usize;
    if k < I8x16::LANES {
        I8x16::get(v, k)
    } else {
        0
    }
}

// The scan leaves at the first index that is too large. It stays a loop with `break`: that this scan leaves so is laid down for this project.
pub(crate) fn indices_fit(s: V128) -> bool
    ensures { result ≡ all (lanes i8x16) (λ n. ltb (lane i8x16 s.bytes n) 32) }
{
    let mut i = 0;
    loop {
        if I8x16::LANES <= i {
            break true;
        }
        if 32 <= I8x16::get(&s.bytes, i) {
            break false;
        }
        i += 1;
    }
}

pub(crate) fn gather(a: V128, b: V128, s: V128) -> V128
    requires { all (lanes i8x16) (λ n. ltb (lane i8x16 s.bytes n) 32) ≡ true }
    ensures { result.bytes ≡ shuffled a.bytes b.bytes s.bytes }
{
    each_lane::<I8x16, _>(
        |i|
            requires { (i < 16) × (lane i8x16 s.bytes i < 32) × Sixteen a.bytes × Sixteen b.bytes × Sixteen s.bytes }
        { either::<I8x16>(&a.bytes, &b.bytes, I8x16::get(&s.bytes, i) as usize) },
    )
}
