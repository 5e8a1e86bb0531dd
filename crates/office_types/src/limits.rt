//! What an office may hold, and how long its lines and callers' names may be; the limits of values, ids and
//! names are those of `xs_model`. Each limit stands once: contracts and definitions cite it by its name.

/// A line of a script, and the body of an HTTP request: bytes, with no line feed.
pub const MAX_LINE: usize = 65_536;

/// The name of a caller: bytes.
pub const MAX_CALLER: usize = 64;

/// A moment and a delay, in milliseconds: 2^53 - 1.
pub const MAX_MOMENT: u64 = 9_007_199_254_740_991;

/// Callers with a kept reply.
pub const MAX_CALLERS: u64 = 1_024;

/// Kept replies of all callers.
pub const MAX_REPLIES: u64 = 1_048_576;

/// Entries that an office has had: 2^40.
pub const MAX_ENTRIES: u64 = 1_099_511_627_776;

/// The next number of an actor, a letter or a timer, and the next one of an unnamed child: 2^62. That
/// number itself is never given.
pub const MAX_NEXT_NUMBER: u64 = 4_611_686_018_427_387_904;

/// Microsteps of one step.
pub const MAX_MICROSTEPS: usize = 1_000;

/// Active actors, work items among them.
pub const MAX_ACTIVE_ACTORS: u64 = 4_096;

/// Levels of a tree of actors: one without a parent is on level 1.
pub const MAX_TREE_LEVELS: u64 = 16;

/// Letters that wait, in all mailboxes.
pub const MAX_LETTERS: u64 = 16_384;

/// Timers that stand, of all actors.
pub const MAX_TIMERS: u64 = 16_384;
