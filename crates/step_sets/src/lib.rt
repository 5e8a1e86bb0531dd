//! The sets of one step of a statechart: which nodes a transition leaves and enters, where its targets
//! lead, what history nodes remember, and which of the enabled transitions stay. Each call answers
//! exactly the set of a definition in `specs/`, and `laws` says what follows from the definitions.
#![tactic(auto)]

mod children;
mod entries;
mod exits;
mod history;
pub mod laws;
mod nodes;
mod preemption;
mod runs;
mod targets;
mod transition_domain;
mod types;

pub use entries::entry_set;
pub use exits::exit_set;
pub use history::record_history;
pub use node_tree::NodeSet;
pub use preemption::stays;
pub use targets::goals;
pub use transition_domain::domain;
pub use types::{Domain, Flags};
