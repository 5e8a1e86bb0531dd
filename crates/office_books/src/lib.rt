//! The books of an office: which actor holds which system name, and which work items are open.
#![tactic(auto)]

mod items;
mod registry;
mod slots;

pub use items::Items;
pub use registry::Registry;
pub use slots::{SlotItems, Slots};
