// What a condition is: the slot that holds it, and the number, type and words that code it.
#![tactic(auto)]

mod slots;

pub use slots::{Body, Coded, SLOTS, Slot, body_of, coded_of, refusal_of};
