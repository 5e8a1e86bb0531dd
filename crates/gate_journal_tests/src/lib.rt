//! The journal and the disk in memory: given bytes, damage, and scripts over crashes.
#![tactic(auto)]

#[cfg(test)]
mod memory_objects;
#[cfg(test)]
mod tests;
