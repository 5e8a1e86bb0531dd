//! The timers of an office, in the order of due and by owner and id.
#![tactic(auto)]

mod keys;
mod timers;

pub use timers::{Due, Timers};
