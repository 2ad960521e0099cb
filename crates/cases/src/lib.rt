// The lines of a file of cases, what they lend, and what the test programs print of each.
#![tactic(auto)]

mod reading;
mod rooms;
mod showing;
mod values;

pub use reading::{Case, Fields, bytes_in, field, find, length_in, number_in};
pub use rooms::{fill, memory, memory_room, strip_room};
pub use showing::{Left, UNTOUCHED};
