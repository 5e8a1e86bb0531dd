//! Guards on plain data, and the calls of the lists.
#![tactic(auto)]

#[cfg(test)]
mod tests;
