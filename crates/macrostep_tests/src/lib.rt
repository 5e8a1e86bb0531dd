//! Machines as texts, and what their macrosteps give.
#![tactic(auto)]

#[cfg(test)]
mod tests;
