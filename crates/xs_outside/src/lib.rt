//! The outside of an office, as its code sees it: a source of input, a sink for output and a disk of
//! two sides that may crash at any moment, each with a count of its faults, and the same in memory
//! with lists of calls that fail.
#![tactic(auto)]

mod disk;
mod memory;
mod station;
mod streams;

pub use disk::Disk;
pub use memory::crash::{Image, Images};
pub use memory::disk::MemoryDisk;
pub use memory::station::MemoryStation;
pub use memory::streams::{MemoryLink, MemorySink, MemorySource};
pub use station::Station;
pub use streams::{Both, Failed, Got, Sink, Source};
use xs_data::Items;

/// A list of bytes.
pub type Bytes = Items<u8>;

/// Where a run of the program ended: its exit status, and the station that it was given.
#[derive(Drop)]
pub struct Ended<W> {
    pub status: u8,
    pub station: W,
}

/// One of the two sides of a disk.
#[derive(Clone, Copy, Debug, PartialEq, Eq)]
pub enum Side {
    A,
    B,
}
