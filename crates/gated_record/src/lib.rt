//! A record of two writes on a disk that may crash at any moment: the payload behind a closed gate,
//! and then the gate. It is a small example of how a caller of `xs_outside` speaks of crashes.
#![tactic(auto)]

mod record;
#[cfg(test)]
mod tests;

pub use record::{CLOSED, OPEN, put_record};
