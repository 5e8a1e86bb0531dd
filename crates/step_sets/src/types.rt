//! The types of the answers.

use xs_data::Items;

/// Where a transition works: below one node, or in the whole tree with its root.
#[derive(Clone, Copy, Debug, PartialEq, Eq)]
pub enum Domain {
    Node(u32),
    Whole,
}

/// One truth value for each transition, in order.
pub type Flags = Items<bool>;
