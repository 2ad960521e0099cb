// The lanes of two vectors, one after the other; and to half the width.
ghost use Rattle.std.specs.Prelude.{◌≡◌, ℕ, ◌+◌, ◌++◌, ◌<◌, ◌≤◌};
ghost use Rattle.operation.specs.Vector.{lane, vec, Sixteen};
ghost use Rattle.lane.specs.Inner.Does.{Does1};

use crate::V128;
use crate::laid::Laid;
use crate::lanes::each::each_lane;

// Lane i of the lanes of a, then those of b.
pub(crate) fn either<S: Laid>(a: &[u8; 16], b: &[u8; 16], i: usize) -> S::Lane
    requires { (i < S.LANES + S.LANES) × Sixteen a.now × Sixteen b.now }
    ensures { S.Lane.bits result ≡ lane S.Lane.width (a.now ++ b.now) i }
{
    if i < S::LANES {
        S::get(a, i)
    } else {
        S::get(b, i - S::LANES)
    }
}

pub(crate) fn narrow<S: Laid, W: Laid, F: Fn(W::Lane) -> S::Lane>(a: V128, b: V128, f: F) -> V128
    requires { (S.LANES ≤ W.LANES + W.LANES) × F.IsAlwaysCallable f }
    ensures { (op : ℕ → ℕ) → Does1 (F.post f) W.Lane.bits S.Lane.bits op → result.bytes ≡ vec S.Lane.width (λ n. op (lane W.Lane.width (a.bytes ++ b.bytes) n)) }
{
    each_lane::<S, _>(
        |i|
            requires { (i < W.LANES + W.LANES) × Sixteen a.bytes × Sixteen b.bytes × F.IsAlwaysCallable f }
        { f(either::<W>(&a.bytes, &b.bytes, i)) },
    )
}
