// The smallest things that go over the wire: bytes, the words of two and the numbers of four (bytes), what a word means as a
// distance (distances), step numbers and their gap (steps), and why a call is refused (refusals).
#![tactic(auto)]

mod bytes;
mod distances;
mod refusals;
mod steps;

pub use bytes::{byte_at, long_at, word, word_at};
pub use distances::{Distance, NO_VALUE, distance_of};
pub use refusals::Refusal;
pub use steps::{STEPS, gap};
