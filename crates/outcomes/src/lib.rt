// What a read or a write came to and what follows, how the reading of an input ended, and how far it is; without a call of the system.
#![tactic(auto)]

mod ends;
mod outcomes;
mod progress;

pub use ends::{End, end_of, is_short};
pub use outcomes::{Moved, State, is_again, is_ended, is_failed, is_over, read_of, write_of};
pub use progress::Progress;
