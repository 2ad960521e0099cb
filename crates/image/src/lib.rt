// Values in slots of sixteen bytes, and the image of a run that has spent its budget (document 02, C-14, C-15).
#![tactic(auto)]

mod picture;
mod slots;

pub use picture::{place_in, shows, write};
pub use slots::formed;

// Mark, version, place and depth.
pub const FRONT: usize = 3 + 2 + 4 + 2;

// Where the stack begins.
pub(crate) const STACK_AT: usize = FRONT + limits::LOCAL_BYTES;

// An image's bytes.
pub const BYTES: usize = STACK_AT + limits::STACK_BYTES;

// Version 1 had room for 64 values on the stack.
pub const VERSION: usize = 2;
