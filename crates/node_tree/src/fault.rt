//! Why rows are no outline or no tree.

use std::alloc::AllocError;
use thiserror::Error;

/// Why rows are no outline.
#[derive(Clone, Copy, Debug, PartialEq, Eq, Error)]
pub enum OutlineFault {
    /// A row that isn't in its place in document order, or that names an initial child that is no child
    /// of it or a history default that is no row: the first such row.
    #[error("row {0} is out of place or names a node that is not there")]
    NoNode(u32),
    /// Memory ran out.
    #[error("out of memory")]
    Memory,
}

impl From<AllocError> for OutlineFault {
    ghost use Rattle.std.specs.Prelude.{◌≡◌};
    ghost use Rattle.node_tree.specs.declared.fault.OutlineFault.TheVariants.{Memory};

    ghost from_gives = { λ _ fault. fault ≡ Memory };

    fn from(_error: AllocError) -> OutlineFault {
        OutlineFault::Memory
    }
}

/// Why rows are no tree.
#[derive(Clone, Copy, Debug, PartialEq, Eq, Error)]
pub enum TreeFault {
    /// The rows are no outline: the first row that is at fault, as [`OutlineFault::NoNode`] names it.
    #[error("row {0} is out of place or names a node that is not there")]
    NoNode(u32),
    /// A row whose id an earlier row has: the first such row.
    #[error("row {0} has the id of an earlier row")]
    DoubleId(u32),
    /// Memory ran out.
    #[error("out of memory")]
    Memory,
}

impl From<OutlineFault> for TreeFault {
    ghost use Rattle.std.specs.Prelude.{◌≡◌};
    ghost use Rattle.node_tree.specs.Faults.{tree_fault};

    ghost from_gives = { λ fault result. result ≡ tree_fault fault };

    fn from(fault: OutlineFault) -> TreeFault {
        match fault {
            OutlineFault::NoNode(n) => TreeFault::NoNode(n),
            OutlineFault::Memory => TreeFault::Memory,
        }
    }
}
