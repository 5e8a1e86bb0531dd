//! Names, items and timers: each call once, and long scripts beside plain lists.
#![tactic(auto)]

#[cfg(test)]
mod books;
#[cfg(test)]
mod numbers;
#[cfg(test)]
mod timers;
