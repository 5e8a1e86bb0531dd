//! Texts of what an office holds: the nested snapshot of an actor, and the base text of a whole office; and
//! whether an office is valid. `specs/` defines the texts, a line a member.
#![tactic(auto)]

mod base_text;
pub mod laws;
mod members;
mod records;
mod snapshot;
mod validity;
mod values;

pub use base_text::write_office;
pub use snapshot::deep;
pub use validity::is_valid_office;
