//! Reads a JSON text (RFC 8259) into a value that keeps the order of members and the place of each
//! part, or says which fault comes first and where it stands.
#![tactic(auto)]

mod byte;
mod fault;
mod json;
pub mod laws;
mod level;
mod lookup;
mod members;
mod mode;
mod reader;
mod spell;
mod whole;

pub use fault::JsonFault;
pub use json::{Member, OrderedJson};
pub use lookup::{get, get_list, get_object, get_text};
pub use whole::read;

/// How many bytes a text may have.
pub const MAX_TEXT: usize = 1_048_576;

/// How deep arrays and objects may nest.
pub const MAX_LEVELS: usize = 64;
