// One loop for all that is written lane by lane.
ghost use Rattle.std.specs.Prelude.{◌≡◌, ℕ, ◌<◌};
ghost use Rattle.operation.specs.Vector.{vec};

use crate::V128;
use crate::laid::Laid;

// The vector whose lane i is f(i).
pub(crate) fn each_lane<S: Laid, F: Fn(usize) -> S::Lane>(f: F) -> V128
    requires { (i : ℕ) → i < S.LANES → F.pre f i }
    ensures { (g : ℕ → ℕ) → ((i : ℕ) (x : _) → i < S.LANES → F.post f i x → S.Lane.bits x ≡ g i) → result.bytes ≡ vec S.Lane.width g }
{
    let mut r = V128 { bytes: [0u8; 16] };
    for i in 0..S::LANES {
        S::put(&mut r.bytes, i, f(i));
    }
    r
}
