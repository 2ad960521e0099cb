// Strips: decode and encode of one instruction, the check, the run and its resume, the rewriter, the listing, and what they take and answer.
#![tactic(auto)]

pub use card::Answer;
pub use checker::check;
pub use instr::{Decoded, Encoded, Instr, decode, encode};
pub use listing::{Listed, list};
pub use rewrite::{Rewritten, rewrite};
pub use run::{resume, run, run_once};
