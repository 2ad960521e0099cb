// A lane of 64 bits.
#![tactic(auto, using(crate::proofs::Laws::Lanes::lanes))]

ghost use Rattle.std.specs.Int.{w64};

use crate::lane::Lane;
use crate::shape::{I64x2, Shape};

impl Lane for u64 {
    ghost width = { w64 };

    ghost bits = { λ x. x };

    fn add(self, y: u64) -> u64 {
        self.wrapping_add(y)
    }

    fn sub(self, y: u64) -> u64 {
        self.wrapping_sub(y)
    }

    fn mul(self, y: u64) -> u64 {
        self.wrapping_mul(y)
    }

    fn neg(self) -> u64 {
        self.cast_signed().wrapping_neg().cast_unsigned()
    }

    fn abs(self) -> u64 {
        self.cast_signed().unsigned_abs()
    }

    fn shl(self, n: u32) -> u64 {
        self << (n % I64x2::WIDTH)
    }

    fn shr_s(self, n: u32) -> u64 {
        (self.cast_signed() >> (n % I64x2::WIDTH)).cast_unsigned()
    }

    fn shr_u(self, n: u32) -> u64 {
        self >> (n % I64x2::WIDTH)
    }

    fn equal(self, y: u64) -> bool {
        self == y
    }

    fn less_s(self, y: u64) -> bool {
        self.cast_signed() < y.cast_signed()
    }

    fn less_u(self, y: u64) -> bool {
        self < y
    }

    fn at_most_s(self, y: u64) -> bool {
        self.cast_signed() <= y.cast_signed()
    }

    fn mask(holds: bool) -> u64 {
        if holds { I64x2::ALL } else { 0 }
    }
}
