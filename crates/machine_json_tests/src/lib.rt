//! The reader of machine texts beside tables of texts.
#![tactic(auto)]

#[cfg(test)]
mod expression_tests;
#[cfg(test)]
mod link_fault_tests;
#[cfg(test)]
mod marked;
#[cfg(test)]
mod reading_tests;
#[cfg(test)]
mod refused_tests;
