//! Lines, entries and values beside the examples of the grammar.
#![tactic(auto)]

#[cfg(test)]
mod tests;
