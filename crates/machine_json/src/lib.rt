//! Machine texts: reads JSON as the definition of a machine, and the expressions in it.
#![tactic(auto)]

mod actions;
mod clash;
mod defaults;
mod delays;
mod expressions;
mod fault;
mod field;
mod fields_check;
mod first;
mod first_pass;
mod guards;
mod invocations;
mod key;
mod kind_word;
pub mod laws;
mod links;
mod machine;
mod node_meaning;
mod nodes;
mod reading;
mod role;
mod role_value;
mod rows;
mod second_pass;
mod transitions;
mod values;

pub use expressions::{FormFault, FormPlace, Operator, read_expr, read_form};
pub use fault::MachineFault;
pub use fields_check::check_fields;
pub use key::MAX_DELAY;
pub use kind_word::NodeKind;
pub use machine::{
    Machine, Named, Texts, UnlinkedAction, UnlinkedActions, UnlinkedDelay, UnlinkedDelays,
    UnlinkedGuard, UnlinkedGuards, UnlinkedInvocation, UnlinkedInvocations, UnlinkedNode,
    UnlinkedNodes, UnlinkedTransition, UnlinkedTransitions,
};
pub use nodes::MAX_NODES;
pub use reading::read_machine;
pub use values::json_value;
