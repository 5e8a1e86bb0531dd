//! What an action reads.

use xs_model::Value;

/// What an action reads beside the context of its own time.
#[derive(Clone, Copy)]
pub(crate) struct Lent<'a> {
    /// The event that was taken last.
    pub event: &'a Value,
    /// What the action is used with.
    pub params: &'a Value,
}
