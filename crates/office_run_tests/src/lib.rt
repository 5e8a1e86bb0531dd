//! Whole scripts with what they print.
#![tactic(auto)]

#[cfg(test)]
mod tests;
