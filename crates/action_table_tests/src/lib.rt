//! The reader of definitions beside tables of texts.
#![tactic(auto)]

#[cfg(test)]
mod defs_tests;
#[cfg(test)]
mod read_tests;
#[cfg(test)]
mod tests;
#[cfg(test)]
mod whole_tests;
