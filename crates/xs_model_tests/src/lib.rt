//! Values and expressions beside tables of cases.
#![tactic(auto)]

#[cfg(test)]
mod tests;
