// LEB128 as Core 2.0 has it (5.2.2): u32, s32 and s64 read from any place of any bytes, and written in their shortest form.
#![tactic(auto)]

mod format;
mod reading;
mod writing;

pub use format::{Format, S32, S64, U32};
pub use reading::{NoNumber, Number, read};
pub use writing::{len, write};
