// Pairs of neighbouring lanes.
ghost use Rattle.std.specs.Prelude.{◌≡◌, ℕ, ◌+◌, ◌*◌, ◌<◌, ◌≤◌, ◌^◌};
ghost use Rattle.operation.specs.Vector.{lane, vec, Sixteen};
ghost use Rattle.lane.specs.Inner.Does.{Does2};

use crate::V128;
use crate::laid::Laid;
use crate::lanes::each::each_lane;

pub(crate) fn pairs<S: Laid, H: Laid, F: Fn(H::Lane, H::Lane) -> S::Lane>(a: V128, f: F) -> V128
    requires { (2 * S.LANES ≤ H.LANES) × F.IsAlwaysCallable f }
    ensures { (op : ℕ → ℕ → ℕ) → Does2 (F.post f) H.Lane.bits S.Lane.bits op → result.bytes ≡ vec S.Lane.width (λ n. op (lane H.Lane.width a.bytes (2 * n)) (lane H.Lane.width a.bytes (2 * n + 1))) }
{
    each_lane::<S, _>(
        |i|
            requires { (2 * i + 1 < H.LANES) × (H.LANES < 2 ^ 64) × Sixteen a.bytes × F.IsAlwaysCallable f }
        { f(H::get(&a.bytes, 2 * i), H::get(&a.bytes, 2 * i + 1)) },
    )
}
