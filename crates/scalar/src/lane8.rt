// A lane of 8 bits.
#![tactic(auto, using(crate::proofs::Laws::Lanes::lanes))]

ghost use Rattle.std.specs.Prelude.{refl};
ghost use Rattle.std.specs.Int.{w8};

use crate::exact::{Exact, Saturated};
use crate::lane::Lane;
use crate::shape::{I8x16, Shape};
use crate::wide::{Narrow, Small};

impl Lane for u8 {
    ghost width = { w8 };

    ghost bits = { λ x. x };

    fn add(self, y: u8) -> u8 {
        self.wrapping_add(y)
    }

    fn sub(self, y: u8) -> u8 {
        self.wrapping_sub(y)
    }

    fn mul(self, y: u8) -> u8 {
        self.wrapping_mul(y)
    }

    fn neg(self) -> u8 {
        self.cast_signed().wrapping_neg().cast_unsigned()
    }

    fn abs(self) -> u8 {
        self.cast_signed().unsigned_abs()
    }

    fn shl(self, n: u32) -> u8 {
        self << (n % I8x16::WIDTH)
    }

    fn shr_s(self, n: u32) -> u8 {
        (self.cast_signed() >> (n % I8x16::WIDTH)).cast_unsigned()
    }

    fn shr_u(self, n: u32) -> u8 {
        self >> (n % I8x16::WIDTH)
    }

    fn equal(self, y: u8) -> bool {
        self == y
    }

    fn less_s(self, y: u8) -> bool {
        self.cast_signed() < y.cast_signed()
    }

    fn less_u(self, y: u8) -> bool {
        self < y
    }

    fn at_most_s(self, y: u8) -> bool {
        self.cast_signed() <= y.cast_signed()
    }

    fn mask(holds: bool) -> u8 {
        if holds { I8x16::ALL } else { 0 }
    }
}

impl Exact for u8 {
    type Number = i16;

    ghost number = { λ z. z };

    fn product_s(self, y: u8) -> i16 {
        i16::from(self.cast_signed()) * i16::from(y.cast_signed())
    }
}

impl Saturated for u8 {
    fn sum_s(self, y: u8) -> i16 {
        i16::from(self.cast_signed()) + i16::from(y.cast_signed())
    }

    fn sat_s(z: i16) -> u8 {
        let kept = z.clamp(i16::from(I8x16::LEAST), i16::from(I8x16::LARGEST));
        (kept as i8).cast_unsigned()
    }

    fn sat_u(z: i16) -> u8 {
        z.clamp(0, i16::from(I8x16::ALL)) as u8
    }
}

impl Narrow for u8 {
    type Wide = u16;

    fn extend_s(self) -> u16 {
        i16::from(self.cast_signed()).cast_unsigned()
    }

    fn extend_u(self) -> u16 {
        u16::from(self)
    }

    fn extmul_s(self, y: u8) -> u16 {
        self.product_s(y).cast_unsigned()
    }

    ghost twice = { refl };
}

impl Small for u8 {
    fn add_sat_u(self, y: u8) -> u8 {
        self.saturating_add(y)
    }

    fn sub_sat_u(self, y: u8) -> u8 {
        self.saturating_sub(y)
    }

    fn avgr_u(self, y: u8) -> u8 {
        ((u16::from(self) + u16::from(y) + 1) / 2) as u8
    }

    fn narrow_s(x: u16) -> u8 {
        Self::sat_s(x.cast_signed())
    }

    fn narrow_u(x: u16) -> u8 {
        Self::sat_u(x.cast_signed())
    }

    fn word_s(self) -> u32 {
        i32::from(self.cast_signed()).cast_unsigned()
    }

    fn word_u(self) -> u32 {
        u32::from(self)
    }
}
