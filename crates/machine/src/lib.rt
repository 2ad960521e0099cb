// One instruction: what the standard's machine does, over flat bytes.
#![tactic(auto)]

mod access;
mod instruction;
mod slot;
mod span;
mod step;
mod vector;

pub use access::PastEnd;
pub use instruction::{bounds, exec};
pub use slot::{carry, top_word};
