//! The bounds of a macrostep; that of its microsteps is a limit of outcomes.

/// How many actions run in a macrostep.
pub const MAX_ACTIONS: u64 = 4_096;
