// The formats of a number: signed or not, and how wide.
ghost use Rattle.std.specs.Prelude.{◌≡◌, ◌+◌, ◌^◌, ◌<◌, ◌≤◌, ℕ, Bool, false, true, refl};
ghost use Rattle.std.proofs.Common.{rules};

// A value of a format is its bits; those of a signed number are its two's complement.
pub trait Format: Copy {
    const SIGNED: bool;

    ghost SIGNED: { Bool };

    // The largest number that the bits hold: a constant of each format, so that it folds into the code made for it.
    const TOP: u64;

    ghost TOP: { ℕ };

    // How many bits.
    ghost width: { ℕ };

    ghost value: { Self → ℕ };

    fn value(self) -> u64
        ensures is { result ≡ value self }
        ensures fits { value self < 2 ^ width };

    ghost some: { 0 < width };

    ghost whole: { TOP + 1 ≡ 2 ^ width };
}

#[derive(Clone, Copy, Debug, PartialEq, Eq)]
pub struct U32(pub u32);

#[derive(Clone, Copy, Debug, PartialEq, Eq)]
pub struct S32(pub u32);

#[derive(Clone, Copy, Debug, PartialEq, Eq)]
pub struct S64(pub u64);

impl Format for U32 {
    const SIGNED: bool = false;

    ghost SIGNED = { false };

    const TOP: u64 = 4294967295;

    ghost TOP = { 4294967295 };

    ghost width = { 32 };

    ghost value = { λ v. v.0 };

    fn value(self) -> u64 {
        u64::from(self.0)
    }

    ghost some = { Prim.search rules };

    ghost whole = { refl };
}

impl Format for S32 {
    const SIGNED: bool = true;

    ghost SIGNED = { true };

    const TOP: u64 = 4294967295;

    ghost TOP = { 4294967295 };

    ghost width = { 32 };

    ghost value = { λ v. v.0 };

    fn value(self) -> u64 {
        u64::from(self.0)
    }

    ghost some = { Prim.search rules };

    ghost whole = { refl };
}

impl Format for S64 {
    const SIGNED: bool = true;

    ghost SIGNED = { true };

    const TOP: u64 = 18446744073709551615;

    ghost TOP = { 18446744073709551615 };

    ghost width = { 64 };

    ghost value = { λ v. v.0 };

    fn value(self) -> u64 {
        self.0
    }

    ghost some = { Prim.search rules };

    ghost whole = { refl };
}
