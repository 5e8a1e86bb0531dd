//! What a selection reads.

use crate::patterns::Pattern;
use guard_eval::Def;
use office_types::Own;
use xs_model::Value;

/// What a selection reads, lent.
#[derive(Clone, Copy)]
pub(crate) struct Reading<'a> {
    pub def: &'a Def,
    pub own: &'a Own,
    pub event: &'a Value,
    /// Whether a transition without an event is looked for.
    pub eventless: bool,
    /// The event's type.
    pub kind: &'a [u8],
    /// The descriptors that match the type, in the order of looking. Without an event there are
    /// none.
    pub patterns: &'a [Pattern],
}
