// Lane by lane, over one vector or two: what is done to a lane is passed as a closure.
ghost use Rattle.std.specs.Prelude.{◌≡◌, ℕ, ◌<◌};
ghost use Rattle.operation.specs.Vector.{lanewise1, lanewise2, Sixteen};
ghost use Rattle.lane.specs.Inner.Does.{Does1, Does2};

use crate::V128;
use crate::laid::Laid;
use crate::lanes::each::each_lane;

pub(crate) fn lanewise1<S: Laid, F: Fn(S::Lane) -> S::Lane>(a: V128, f: F) -> V128
    requires { F.IsAlwaysCallable f }
    ensures { (op : ℕ → ℕ) → Does1 (F.post f) S.Lane.bits S.Lane.bits op → result.bytes ≡ lanewise1 S.Lane.width op a.bytes }
{
    each_lane::<S, _>(
        |i|
            requires { (i < S.LANES) × Sixteen a.bytes × F.IsAlwaysCallable f }
        { f(S::get(&a.bytes, i)) },
    )
}

pub(crate) fn lanewise2<S: Laid, F: Fn(S::Lane, S::Lane) -> S::Lane>(a: V128, b: V128, f: F) -> V128
    requires { F.IsAlwaysCallable f }
    ensures { (op : ℕ → ℕ → ℕ) → Does2 (F.post f) S.Lane.bits S.Lane.bits op → result.bytes ≡ lanewise2 S.Lane.width op a.bytes b.bytes }
{
    each_lane::<S, _>(
        |i|
            requires { (i < S.LANES) × Sixteen a.bytes × Sixteen b.bytes × F.IsAlwaysCallable f }
        { f(S::get(&a.bytes, i), S::get(&b.bytes, i)) },
    )
}
