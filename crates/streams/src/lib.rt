// The calls of the system that all programs share: arguments, the input, reads and writes, and the line on a call that failed. What is read,
// and whether a call fails, no contract can say; what follows from it is decided by `outcomes`, and what is said by `program`.
// `System` holds the runtime itself and no bound on it: under a bound the check counts what every function of that trait assumes of the
// system.
#![tactic(auto)]

mod arguments;
mod input;
mod output;
mod progress;
mod system;
mod telling;
mod work;

pub use input::{Opened, Source};
pub use output::{Output, Stopped};
pub use system::System;
