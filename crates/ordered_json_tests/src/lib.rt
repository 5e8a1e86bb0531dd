//! The reader of JSON beside texts from outside.
#![tactic(auto)]

#[cfg(test)]
mod tests;
