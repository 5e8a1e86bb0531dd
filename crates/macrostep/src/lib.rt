//! Run to completion: the outcome of one event.
#![tactic(auto)]

mod completion;
pub mod laws;
mod limits;
mod outcomes;
mod runs;
mod trail;

pub use completion::{begin, macrostep};
pub use limits::MAX_ACTIONS;
