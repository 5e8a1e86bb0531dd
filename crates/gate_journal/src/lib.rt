//! The file form of an office: a base and the records since, on one of two sides of a disk.
//!
//! # The bytes of a side
//!
//! | place | bytes |
//! |---|---|
//! | 0 | the gate of the side |
//! | 1 | generation, 8 bytes, big end first |
//! | 9 | length B of the base, 4 bytes, big end first |
//! | 13 | the base |
//! | 13 + B | the gate of the first record |
//!
//! A record at place g is a gate (1 byte), a length L (4 bytes, big end first) and a payload of L
//! bytes. The next gate stands at g + 5 + L.
//!
//! A side is open if it has two bytes or more and its first byte is 1, and else closed. **A record
//! counts if its gate is 1.** The first gate that isn't 1 ends the records, and nothing behind it
//! is looked at. Of two open sides the one with the greater generation is held, so opening needs no
//! recovery: it reads both and writes nothing.
//!
//! The first fault is the answer, and these are looked for in order: an open side shorter than 13
//! bytes (place 1, side a first); two open sides of one generation (side b, place 1); and then on
//! the held side a base that is longer than 2^30 bytes or runs past the end (place 9), the end of
//! the side where a gate should stand (its length), and a record of no bytes, of more than 131,072,
//! or past the end (the place of its gate).
//!
//! # How it is written
//!
//! A gate is written last. An append at the gate g that ends the records writes length, payload and
//! a closed gate behind g, syncs, writes 1 at g, and syncs. A side is made in the same way:
//! everything behind its first byte and a closed gate last, a sync, 1 at place 0, a sync. A side
//! that is open, or shorter than two bytes, is closed first, by a 0 at place 0 and a sync. On a
//! closed side of two bytes or more these two calls are left out: a stop in them could leave a 1 in
//! front of bytes that were never synced.
//!
//! After a call of the disk that failed nobody knows what stands there, and no later sync may be
//! trusted: the journal is shut until it is opened anew.
//!
//! # Invariants of a journal that isn't shut, on an honest disk
//!
//! Two words: a side *holds* what its bytes begin with the print of (`Layout.HoldsContent`), and the
//! disk is *settled* if a crash now leaves what it reads (`Disk.IsSettled`). The record
//! `Journal.Stands` has all of these; the clauses named here keep them.
//!
//! 1. The disk is settled: `opened` of `open`, `added`, `dropped`, `switched`.
//! 2. The held side holds a base and records, and the other side is closed or has a smaller
//!    generation: the same.
//! 3. The journal knows the held side, its generation and the place of the gate that ends the
//!    records: the same.
//! 4. Where it says where the last record begins, it begins there: the same, and `leaves`.
//! 5. It says of a side that it is closed and has two bytes or more exactly where that is so: the
//!    same.
//!
//! And over crashes, at each moment of a call:
//!
//! 6. An append leaves the records of before, or these and the new one: `images` of `append`.
//! 7. A drop leaves the records of before, or these without the last one: `images` of `drop_last`.
//! 8. A move leaves what was held, or the new side with its base and no records: `images` of
//!    `switch`.
//! 9. In 6 to 8 the side that isn't written stays as it was, byte by byte: the same.
//! 10. Opening leaves only what a crash at its start might have left: `sides` of `open`.
#![tactic(auto)]

mod gate;
mod held;
mod journal;
pub mod laws;
mod opening;
mod parts;
mod reading;
mod records;
mod scan;
mod window;

pub use held::{Held, Layout, Places};
pub use journal::{AppendRefused, Journal, JournalRefused, SwitchRefused};
pub use opening::{SidesRefused, layout};
pub use parts::{MAX_BASE, MAX_RECORD};
pub use records::Records;
