//! Guards: the conditions of transitions.

use sqlite_items::Boxed;
use xs_data::Items;
use xs_model::{Expr, Value};

/// A condition that lets a transition be taken, one variant for each form.
#[derive(Debug, Drop)]
pub enum GuardUse {
    /// A guard of the table, with the params that it is used with.
    Test { expr: Expr, params: Value },
    /// `and`: true if each part is.
    And(Guards),
    /// `or`: true if some part is.
    Or(Guards),
    /// `not`: true if its part is not.
    Not(Boxed<GuardUse>),
    /// `stateIn`: true if the node is active.
    In(u32),
}

/// The parts of a guard, in the order of the text.
pub type Guards = Items<GuardUse>;
