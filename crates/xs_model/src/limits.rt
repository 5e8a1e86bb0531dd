//! The limits of values and names, each where a value is made or enters the office.

/// The most bytes of compact text that a value has which an operator, a list or a map gives.
pub const MAX_VALUE_TEXT: u64 = 65_536;

/// The most lists and maps that lie round one part of a value.
pub const MAX_NESTING: u32 = 32;

/// The most bytes of compact text that an actor's context has.
pub const MAX_CONTEXT_TEXT: u64 = 65_536;

/// The most bytes of compact text that an event, an input, an output or an error has.
pub const MAX_EVENT_TEXT: u64 = 4_096;

/// The most bytes that an id or a name has.
pub const MAX_NAME: usize = 256;
