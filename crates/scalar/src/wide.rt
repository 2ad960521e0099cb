// Between two widths: a lane read in twice its width, exact sums and products there, and a lane of twice the width kept within this one.
#![tactic(auto, using(crate::proofs::Laws::Wide::wide))]

ghost use Rattle.std.specs.Prelude.{◌≡◌, ℕ, ◌*◌};
ghost use Rattle.std.specs.Int.{w16, w32};
ghost use mir.Val.{bits as width_bits};
ghost use Rattle.scalar.specs.Scalar.{S, U, iextend, iextmul, iextadd, inarrow, iaddsat, isubsat, iavgr};

use crate::lane::Lane;

// A lane of 8, 16 or 32 bits: there is one of twice its width.
pub trait Narrow: Lane {
    type Wide: Lane;

    fn extend_s(self) -> Self::Wide
        ensures { Self.Wide.bits result ≡ iextend S Self.width Self.Wide.width (Self.bits self) };

    fn extend_u(self) -> Self::Wide
        ensures { Self.Wide.bits result ≡ iextend U Self.width Self.Wide.width (Self.bits self) };

    fn extmul_s(self, y: Self) -> Self::Wide
        ensures { Self.Wide.bits result ≡ iextmul S Self.width Self.Wide.width (Self.bits self) (Self.bits y) };

    final fn extmul_u(self, y: Self) -> Self::Wide
        ensures { Self.Wide.bits result ≡ iextmul U Self.width Self.Wide.width (Self.bits self) (Self.bits y) }
    {
        self.extend_u().mul(y.extend_u())
    }

    ghost twice: { width_bits Self.Wide.width ≡ 2 * width_bits Self.width };
}

// A lane of 8 or 16 bits: saturating arithmetic, pairs, and narrowing to it.
pub trait Small: Narrow {
    fn add_sat_u(self, y: Self) -> Self
        ensures { Self.bits result ≡ iaddsat U Self.width (Self.bits self) (Self.bits y) };

    fn sub_sat_u(self, y: Self) -> Self
        ensures { Self.bits result ≡ isubsat U Self.width (Self.bits self) (Self.bits y) };

    fn avgr_u(self, y: Self) -> Self
        ensures { Self.bits result ≡ iavgr (Self.bits self) (Self.bits y) };

    fn narrow_s(x: Self::Wide) -> Self
        ensures { Self.bits result ≡ inarrow S Self.Wide.width Self.width (Self.Wide.bits x) };

    fn narrow_u(x: Self::Wide) -> Self
        ensures { Self.bits result ≡ inarrow U Self.Wide.width Self.width (Self.Wide.bits x) };

    // As an i32, of which these are the bits: what extract_lane_s gives.
    fn word_s(self) -> u32
        ensures { result ≡ iextend S Self.width w32 (Self.bits self) };

    fn word_u(self) -> u32
        ensures { result ≡ Self.bits self };

    final fn extadd_s(self, y: Self) -> Self::Wide
        ensures { Self.Wide.bits result ≡ iextadd S Self.width Self.Wide.width (Self.bits self) (Self.bits y) }
    {
        self.extend_s().add(y.extend_s())
    }

    final fn extadd_u(self, y: Self) -> Self::Wide
        ensures { Self.Wide.bits result ≡ iextadd U Self.width Self.Wide.width (Self.bits self) (Self.bits y) }
    {
        self.extend_u().add(y.extend_u())
    }

    final fn add_sat_s(self, y: Self) -> Self
        ensures { Self.bits result ≡ iaddsat S Self.width (Self.bits self) (Self.bits y) }
    {
        Self::narrow_s(self.extadd_s(y))
    }

    final fn sub_sat_s(self, y: Self) -> Self
        ensures { Self.bits result ≡ isubsat S Self.width (Self.bits self) (Self.bits y) }
    {
        Self::narrow_s(self.extend_s().sub(y.extend_s()))
    }
}
