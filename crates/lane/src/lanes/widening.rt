// To twice the width: the lanes of half a vector, or of the halves of two, from lane `from` on.
ghost use Rattle.std.specs.Prelude.{◌≡◌, ℕ, ◌<◌, ◌+◌, ◌≤◌, ◌^◌};
ghost use Rattle.operation.specs.Vector.{lane, vec, Sixteen};
ghost use Rattle.lane.specs.Inner.Does.{Does1, Does2};

use crate::V128;
use crate::laid::Laid;
use crate::lanes::each::each_lane;

pub(crate) fn widen1<S: Laid, H: Laid, F: Fn(H::Lane) -> S::Lane>(
    from: usize,
    a: V128,
    f: F,
) -> V128
    requires { (from + S.LANES ≤ H.LANES) × F.IsAlwaysCallable f }
    ensures { (op : ℕ → ℕ) → Does1 (F.post f) H.Lane.bits S.Lane.bits op → result.bytes ≡ vec S.Lane.width (λ n. op (lane H.Lane.width a.bytes (from + n))) }
{
    each_lane::<S, _>(
        |i|
            requires { (from + i < H.LANES) × (H.LANES < 2 ^ 64) × Sixteen a.bytes × F.IsAlwaysCallable f }
        { f(H::get(&a.bytes, from + i)) },
    )
}

pub(crate) fn widen2<S: Laid, H: Laid, F: Fn(H::Lane, H::Lane) -> S::Lane>(
    from: usize,
    a: V128,
    b: V128,
    f: F,
) -> V128
    requires { (from + S.LANES ≤ H.LANES) × F.IsAlwaysCallable f }
    ensures { (op : ℕ → ℕ → ℕ) → Does2 (F.post f) H.Lane.bits S.Lane.bits op → result.bytes ≡ vec S.Lane.width (λ n. op (lane H.Lane.width a.bytes (from + n)) (lane H.Lane.width b.bytes (from + n))) }
{
    each_lane::<S, _>(
        |i|
            requires { (from + i < H.LANES) × (H.LANES < 2 ^ 64) × Sixteen a.bytes × Sixteen b.bytes × F.IsAlwaysCallable f }
        { f(H::get(&a.bytes, from + i), H::get(&b.bytes, from + i)) },
    )
}
