//! Why a definitions text is refused.

use crate::fault::TableFault;
use machine_json::MachineFault;
use ordered_json::JsonFault;
use thiserror::Error;

/// Why a definitions text is refused, in the order in which faults are looked for: the JSON, the outer
/// shape, each machine in order, the table, and names that nothing stands for.
#[derive(Clone, Copy, Debug, PartialEq, Eq, Error)]
pub enum DefsFault {
    #[error("the definitions are no JSON: {0}")]
    Json(#[from] JsonFault),
    #[error("a machine is refused: {0}")]
    Machine(#[from] MachineFault),
    /// The outer shape, the table, or linking.
    #[error("the implementations are refused: {0}")]
    Table(#[from] TableFault),
}
