// The kinds' bytes, as in the file.
pub const I32: u8 = 0x7F;

pub const I64: u8 = 0x7E;

pub const V128: u8 = 0x7B;

// The type of a block without a result.
pub const EMPTY: u8 = 0x40;
