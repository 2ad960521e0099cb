// A lane of 16 bits.
#![tactic(auto, using(crate::proofs::Laws::Lanes::lanes))]

ghost use Rattle.std.specs.Prelude.{◌≡◌, refl};
ghost use Rattle.std.specs.Int.{w16, w32};
ghost use Rattle.scalar.specs.Scalar.{iq15mulrsat, idot};

use crate::exact::{Exact, Saturated};
use crate::lane::Lane;
use crate::shape::{I16x8, Shape};
use crate::wide::{Narrow, Small};

impl Lane for u16 {
    ghost width = { w16 };

    ghost bits = { λ x. x };

    fn add(self, y: u16) -> u16 {
        self.wrapping_add(y)
    }

    fn sub(self, y: u16) -> u16 {
        self.wrapping_sub(y)
    }

    fn mul(self, y: u16) -> u16 {
        self.wrapping_mul(y)
    }

    fn neg(self) -> u16 {
        self.cast_signed().wrapping_neg().cast_unsigned()
    }

    fn abs(self) -> u16 {
        self.cast_signed().unsigned_abs()
    }

    fn shl(self, n: u32) -> u16 {
        self << (n % I16x8::WIDTH)
    }

    fn shr_s(self, n: u32) -> u16 {
        (self.cast_signed() >> (n % I16x8::WIDTH)).cast_unsigned()
    }

    fn shr_u(self, n: u32) -> u16 {
        self >> (n % I16x8::WIDTH)
    }

    fn equal(self, y: u16) -> bool {
        self == y
    }

    fn less_s(self, y: u16) -> bool {
        self.cast_signed() < y.cast_signed()
    }

    fn less_u(self, y: u16) -> bool {
        self < y
    }

    fn at_most_s(self, y: u16) -> bool {
        self.cast_signed() <= y.cast_signed()
    }

    fn mask(holds: bool) -> u16 {
        if holds { I16x8::ALL } else { 0 }
    }
}

impl Exact for u16 {
    type Number = i32;

    ghost number = { λ z. z };

    fn product_s(self, y: u16) -> i32 {
        i32::from(self.cast_signed()) * i32::from(y.cast_signed())
    }
}

impl Saturated for u16 {
    fn sum_s(self, y: u16) -> i32 {
        i32::from(self.cast_signed()) + i32::from(y.cast_signed())
    }

    fn sat_s(z: i32) -> u16 {
        let kept = z.clamp(i32::from(I16x8::LEAST), i32::from(I16x8::LARGEST));
        (kept as i16).cast_unsigned()
    }

    fn sat_u(z: i32) -> u16 {
        z.clamp(0, i32::from(I16x8::ALL)) as u16
    }
}

impl Narrow for u16 {
    type Wide = u32;

    fn extend_s(self) -> u32 {
        i32::from(self.cast_signed()).cast_unsigned()
    }

    fn extend_u(self) -> u32 {
        u32::from(self)
    }

    fn extmul_s(self, y: u16) -> u32 {
        self.product_s(y).cast_unsigned()
    }

    ghost twice = { refl };
}

impl Small for u16 {
    fn add_sat_u(self, y: u16) -> u16 {
        self.saturating_add(y)
    }

    fn sub_sat_u(self, y: u16) -> u16 {
        self.saturating_sub(y)
    }

    fn avgr_u(self, y: u16) -> u16 {
        ((u32::from(self) + u32::from(y) + 1) / 2) as u16
    }

    fn narrow_s(x: u32) -> u16 {
        Self::sat_s(x.cast_signed())
    }

    fn narrow_u(x: u32) -> u16 {
        Self::sat_u(x.cast_signed())
    }

    fn word_s(self) -> u32 {
        i32::from(self.cast_signed()).cast_unsigned()
    }

    fn word_u(self) -> u32 {
        u32::from(self)
    }
}

// The product of two numbers of 15 bits after the point: exact, rounded, shifted with its sign, and saturated.
pub fn q15mulr_sat_s16(x: u16, y: u16) -> u16
    ensures { result ≡ iq15mulrsat w16 x y }
{
    u16::sat_s((x.product_s(y) + 16384) >> 15)
}

// Two exact products, added modulo 2^32.
pub fn dot_s16(x: u16, y: u16, x2: u16, y2: u16) -> u32
    ensures { result ≡ idot w16 w32 x y x2 y2 }
{
    x.extmul_s(y).wrapping_add(x2.extmul_s(y2))
}
