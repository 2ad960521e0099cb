// A lane is its bits, an unsigned integer of 8, 16, 32 or 64: what Core does to one (4.3.2), once over the width.
ghost use Rattle.std.specs.Prelude.{◌≡◌, if◌then◌else◌, ℕ, ◌==◌, int_le, int_lt};
ghost use Rattle.std.specs.Int.{Width};
ghost use Rattle.scalar.specs.Scalar.{S, U, value, mask, iadd, isub, imul, ineg, iabs, ishl, ishr};

pub trait Lane: Copy {
    ghost width: { Width };

    // A lane's bits as a number.
    ghost bits: { Self → ℕ };

    fn add(self, y: Self) -> Self
        ensures { bits result ≡ iadd width (bits self) (bits y) };

    fn sub(self, y: Self) -> Self
        ensures { bits result ≡ isub width (bits self) (bits y) };

    fn mul(self, y: Self) -> Self
        ensures { bits result ≡ imul width (bits self) (bits y) };

    fn neg(self) -> Self
        ensures { bits result ≡ ineg width (bits self) };

    fn abs(self) -> Self
        ensures { bits result ≡ iabs width (bits self) };

    fn shl(self, n: u32) -> Self
        ensures { bits result ≡ ishl width n (bits self) };

    fn shr_s(self, n: u32) -> Self
        ensures { bits result ≡ ishr S width n (bits self) };

    fn shr_u(self, n: u32) -> Self
        ensures { bits result ≡ ishr U width n (bits self) };

    fn equal(self, y: Self) -> bool
        ensures { result ≡ (bits self == bits y) };

    fn less_s(self, y: Self) -> bool
        ensures { result ≡ int_lt (value S width (bits self)) (value S width (bits y)) };

    fn less_u(self, y: Self) -> bool
        ensures { result ≡ int_lt (value U width (bits self)) (value U width (bits y)) };

    // A lane of one's own need not write it.
    fn at_most_s(self, y: Self) -> bool
        ensures { result ≡ int_le (value S width (bits self)) (value S width (bits y)) }
    {
        !y.less_s(self)
    }

    // All ones where it holds, else 0.
    fn mask(holds: bool) -> Self
        ensures { bits result ≡ mask width holds };

    // x where it holds, else y.
    final fn pick(holds: bool, x: Self, y: Self) -> Self
        ensures { result ≡ (if holds then x else y) }
    {
        if holds { x } else { y }
    }
}
