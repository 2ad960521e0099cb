// A lane of 32 bits.
#![tactic(auto, using(crate::proofs::Laws::Lanes::lanes))]

ghost use Rattle.std.specs.Prelude.{refl};
ghost use Rattle.std.specs.Int.{w32};

use crate::exact::Exact;
use crate::lane::Lane;
use crate::shape::{I32x4, Shape};
use crate::wide::Narrow;

impl Lane for u32 {
    ghost width = { w32 };

    ghost bits = { λ x. x };

    fn add(self, y: u32) -> u32 {
        self.wrapping_add(y)
    }

    fn sub(self, y: u32) -> u32 {
        self.wrapping_sub(y)
    }

    fn mul(self, y: u32) -> u32 {
        self.wrapping_mul(y)
    }

    fn neg(self) -> u32 {
        self.cast_signed().wrapping_neg().cast_unsigned()
    }

    fn abs(self) -> u32 {
        self.cast_signed().unsigned_abs()
    }

    fn shl(self, n: u32) -> u32 {
        self << (n % I32x4::WIDTH)
    }

    fn shr_s(self, n: u32) -> u32 {
        (self.cast_signed() >> (n % I32x4::WIDTH)).cast_unsigned()
    }

    fn shr_u(self, n: u32) -> u32 {
        self >> (n % I32x4::WIDTH)
    }

    fn equal(self, y: u32) -> bool {
        self == y
    }

    fn less_s(self, y: u32) -> bool {
        self.cast_signed() < y.cast_signed()
    }

    fn less_u(self, y: u32) -> bool {
        self < y
    }

    fn at_most_s(self, y: u32) -> bool {
        self.cast_signed() <= y.cast_signed()
    }

    fn mask(holds: bool) -> u32 {
        if holds { I32x4::ALL } else { 0 }
    }
}

impl Exact for u32 {
    type Number = i64;

    ghost number = { λ z. z };

    fn product_s(self, y: u32) -> i64 {
        i64::from(self.cast_signed()) * i64::from(y.cast_signed())
    }
}

impl Narrow for u32 {
    type Wide = u64;

    fn extend_s(self) -> u64 {
        i64::from(self.cast_signed()).cast_unsigned()
    }

    fn extend_u(self) -> u64 {
        u64::from(self)
    }

    fn extmul_s(self, y: u32) -> u64 {
        self.product_s(y).cast_unsigned()
    }

    ghost twice = { refl };
}
