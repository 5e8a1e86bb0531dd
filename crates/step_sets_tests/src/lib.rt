//! The tree of nodes and the sets of a step beside tables and plain computations.
#![tactic(auto)]

#[cfg(test)]
mod tests;
#[cfg(test)]
mod trees;
