// The arithmetic of one lane (Core 4.3.2). A lane is its bits, a u8, u16, u32 or u64: each operation of the standard is a method, whose
// clause is said once over the width. The four shapes are types that carry their constants.
#![tactic(auto)]

pub mod exact;
pub mod lane;
pub mod lane16;
pub mod lane32;
pub mod lane64;
pub mod lane8;
pub mod shape;
#[cfg(test)]
mod tests;
pub mod wide;

pub use exact::{Exact, Saturated};
pub use lane::Lane;
pub use lane16::{dot_s16, q15mulr_sat_s16};
pub use shape::{I8x16, I16x8, I32x4, I64x2, Shape};
pub use wide::{Narrow, Small};
