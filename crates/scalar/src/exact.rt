// Integers in twice the width: a product or a sum of two signed lanes as it is, and such an integer kept within the lane. These are traits of
// their own: lane passes closures over lanes of `Narrow` and `Small`, which the check does not cover yet where these have one more type.
ghost use Rattle.std.specs.Prelude.{◌≡◌, ℤ, ◌+ℤ◌, ◌*ℤ◌};
ghost use Rattle.scalar.specs.Scalar.{S, U, value, sat};

use crate::lane::Lane;

// A lane of 8, 16 or 32 bits.
pub trait Exact: Lane {
    // i16, i32 or i64: it holds each product and each sum of two signed lanes.
    type Number: Copy;

    ghost number: { Self.Number → ℤ };

    fn product_s(self, y: Self) -> Self::Number
        ensures { number result ≡ value S Self.width (Self.bits self) *ℤ value S Self.width (Self.bits y) };
}

// A lane of 8 or 16 bits.
pub trait Saturated: Exact {
    fn sum_s(self, y: Self) -> Self::Number
        ensures { Self.number result ≡ value S Self.width (Self.bits self) +ℤ value S Self.width (Self.bits y) };

    // The integer itself, where a lane read by the ending holds it, else the least or the largest that one holds.
    fn sat_s(z: Self::Number) -> Self
        ensures { Self.bits result ≡ sat S Self.width (Self.number z) };

    fn sat_u(z: Self::Number) -> Self
        ensures { Self.bits result ≡ sat U Self.width (Self.number z) };
}
