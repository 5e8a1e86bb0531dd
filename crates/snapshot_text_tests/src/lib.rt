//! Base texts beside given bytes.
#![tactic(auto)]

#[cfg(test)]
mod tests;
