//! The moment of an office, the next numbers, and how much there is.

ghost use Rattle.std.specs.Prelude.{◌≡◌, ◌+◌, ◌&&◌, nat_le};

use office_types::{MAX_LETTERS, MAX_NEXT_NUMBER};

/// The moment of an office, the numbers that come next, and what is counted.
#[derive(Clone, Copy, Debug)]
pub(crate) struct Counts {
    /// In milliseconds.
    pub moment: u64,
    pub next_actor: u64,
    pub next_letter: u64,
    pub next_timer: u64,
    /// How many actors are active.
    pub active: u64,
    /// How many letters wait, in all mailboxes.
    pub waiting: u64,
}

impl Counts {
    /// Whether so many letters more find room, and numbers.
    pub(crate) fn has_letter_room(&self, more: u64) -> bool
        ensures { result ≡ (nat_le (self.now.waiting + more) MAX_LETTERS
            && nat_le (self.now.next_letter + more) MAX_NEXT_NUMBER) }
    {
        let waiting = self.waiting;
        let next = self.next_letter;
        waiting <= MAX_LETTERS
            && more <= MAX_LETTERS - waiting
            && next <= MAX_NEXT_NUMBER
            && more <= MAX_NEXT_NUMBER - next
    }
}
