// One value in every lane; one lane put into a vector, or by itself in a vector of zeros.
ghost use Rattle.std.specs.Prelude.{◌≡◌, cond, ◌<◌, eqb};
ghost use Rattle.operation.specs.Vector.{lane, vec};

use crate::V128;
use crate::laid::Laid;
use crate::lanes::each::each_lane;

pub(crate) fn everywhere<S: Laid>(x: S::Lane) -> V128
    ensures { result.bytes ≡ vec S.Lane.width (λ n. S.Lane.bits x) }
{
    each_lane::<S, _>(|_| x)
}

pub(crate) fn with<S: Laid>(a: V128, i: usize, x: S::Lane) -> V128
    requires { i < S.LANES }
    ensures { result.bytes ≡ vec S.Lane.width (λ n. cond (eqb n i) (S.Lane.bits x) (lane S.Lane.width a.bytes n)) }
{
    let mut r = a;
    S::put(&mut r.bytes, i, x);
    r
}

pub(crate) fn alone<S: Laid>(x: S::Lane) -> V128
    ensures { result.bytes ≡ vec S.Lane.width (λ n. cond (eqb n 0) (S.Lane.bits x) 0) }
{
    with::<S>(V128 { bytes: [0u8; 16] }, 0, x)
}
