//! Lists and texts that contracts see by value: a list as its items, a text as its bytes, with no
//! pointer and no capacity. Two of them that hold the same are equal in every clause.
#![tactic(auto)]

mod items;
#[cfg(test)]
mod tests;
mod text;

pub use items::Items;
pub use text::Text;
