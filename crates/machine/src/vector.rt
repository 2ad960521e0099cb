// From an instruction's number to lane's function. Each answers zeros where the instruction is not of its class.
pub(crate) mod binary;
pub(crate) mod memory;
mod operands;
pub(crate) mod single;
pub(crate) mod unary;

use lane::V128;

pub(crate) const ZEROS: V128 = V128 { bytes: [0u8; 16] };
