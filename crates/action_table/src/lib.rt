//! Definitions texts: their machines, the table of implementations, and linking, which replaces each
//! name that machines use by what the table has under it.
#![tactic(auto)]

mod actions;
mod copies;
mod def_list;
mod definitions;
mod defs_fault;
mod fault;
mod first;
mod forms;
pub mod laws;
mod linked_actors;
mod linked_forms;
mod linked_guards;
mod linked_nodes;
mod linked_uses;
mod linking;
mod machine_ids;
mod outer_shape;
mod parts;
mod read;
mod reading;
mod role;
mod rows;
mod table;
mod unnamed;
mod unnamed_forms;

pub use def_list::DefList;
pub use definitions::{Actor, ActorList, Defs};
pub use defs_fault::DefsFault;
pub use fault::TableFault;
pub use first::first_fault;
pub use linking::link;
pub use read::read_table;
pub use reading::read_defs;
pub use role::TableRole;
pub use table::{Table, TableActor, UnlinkedForm, UnlinkedForms, UnlinkedItem, UnlinkedItems};
