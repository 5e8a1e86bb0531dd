//! What a side holds, as it is handed to whoever opens it.

use crate::Records;
use xs_data::Items;
use xs_outside::{Bytes, Side};

/// Places in a side, in bytes from its start.
pub type Places = Items<u64>;

/// What an open side holds: its base, and the records since, each with the place of its gate.
#[derive(Debug, Drop)]
pub struct Held {
    pub side: Side,
    pub generation: u64,
    pub base: Bytes,
    pub records: Records,
    pub places: Places,
}

/// What one side holds by itself.
#[derive(Debug, Drop)]
pub enum Layout {
    Closed,
    Open(Held),
    /// The place of the first byte that breaks the layout.
    Bad(u64),
    Fault,
    Memory,
}
