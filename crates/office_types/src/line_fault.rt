//! Why bytes are no line.

use ordered_json::JsonFault;
use std::alloc::AllocError;
use thiserror::Error;

/// Why a line isn't read as a request, or a payload as an entry.
#[derive(Clone, Copy, Debug, PartialEq, Eq, Error)]
pub enum LineFault {
    /// It is the text of none.
    #[error("the line is no request")]
    NotALine,
    #[error("out of memory")]
    Memory,
}

impl From<AllocError> for LineFault {
    ghost use Rattle.office_types.specs.declared.line_fault.LineFault.TheVariants.{Memory};
    ghost use Rattle.std.specs.Prelude.{◌≡◌};

    ghost from_gives = { λ _ fault. fault ≡ Memory };

    fn from(_error: AllocError) -> LineFault {
        LineFault::Memory
    }
}

impl From<JsonFault> for LineFault {
    ghost use Rattle.office_types.specs.LineParts.{line_fault};
    ghost use Rattle.std.specs.Prelude.{◌≡◌};

    ghost from_gives = { λ fault line. line ≡ line_fault fault };

    fn from(fault: JsonFault) -> LineFault {
        match fault {
            JsonFault::Memory => LineFault::Memory,
            _ => LineFault::NotALine,
        }
    }
}
