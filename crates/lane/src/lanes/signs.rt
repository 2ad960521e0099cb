// The signs of one word's lanes, lane 0's lowest. Of eight lanes or four, one product gathers them: it adds up as many copies of the lanes' top
// bits as there are lanes, each a bit less than a lane further up than the one before. No two bits meet in one place, and the highest places of the
// word get one bit of each lane, side by side. Of two lanes, two shifts are quicker.
ghost use Rattle.std.specs.Prelude.{◌≡◌, ◌+◌, ◌/◌, refl};
ghost use mir.Val.{bits as width_bits};
ghost use Rattle.operation.specs.Shape.{lanes};
ghost use Rattle.lane.specs.Inner.Words.{signs};

use crate::laid::Laid;
use scalar::{I8x16, I16x8, I32x4, I64x2, Lane};

pub trait Signs: Laid {
    fn signs(word: u64) -> u32
        ensures { result ≡ signs Self.Lane.width word };

    ghost two_words: { 64 / width_bits Self.Lane.width + 64 / width_bits Self.Lane.width ≡ lanes Self.Lane.width };
}

impl Signs for I8x16 {
    ghost two_words = { refl };

    fn signs(word: u64) -> u32 {
        ((word & 0x8080_8080_8080_8080).mul(0x0002_0408_1020_4081) >> 56) as u32
    }
}

impl Signs for I16x8 {
    ghost two_words = { refl };

    fn signs(word: u64) -> u32 {
        ((word & 0x8000_8000_8000_8000).mul(0x0000_2000_4000_8001) >> 60) as u32
    }
}

impl Signs for I32x4 {
    ghost two_words = { refl };

    fn signs(word: u64) -> u32 {
        (((word >> 31) & 1) + 2 * (word >> 63)) as u32
    }
}

impl Signs for I64x2 {
    ghost two_words = { refl };

    fn signs(word: u64) -> u32 {
        (word >> 63) as u32
    }
}
