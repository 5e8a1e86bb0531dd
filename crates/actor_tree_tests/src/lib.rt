//! A forest of actors: each call once.
#![tactic(auto)]

#[cfg(test)]
mod tests;
