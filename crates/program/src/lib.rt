// What a program is asked and what it says of itself, without a call of the system: which option an argument is, what the arguments ask for
// together, the help, the version, and what it was doing when a call failed.
#![tactic(auto)]

mod answers;
mod arguments;
mod failures;
mod help;
mod names;

pub use answers::{is_complaint, put_answer, put_awaiting};
pub use arguments::{Argument, Asked, Task, argument_of, is_work};
pub use failures::{Doing, put_doing};
pub use names::Program;
