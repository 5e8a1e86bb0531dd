//! The linked definitions of machines, and the evaluation of guards.
#![tactic(auto)]

mod def;
mod guard;
mod guard_value;
pub mod laws;
mod transition;

pub use def::{Def, Delays, Invocation, Invocations, NodeDef, NodeDefs, Texts};
pub use guard::{GuardUse, Guards};
pub use guard_value::holds;
pub use node_tree::Targets;
pub use transition::{ActionUse, ActionUses, Transition, Transitions};
