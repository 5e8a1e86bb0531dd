//! The definitions: their bytes are taken from a source, and flat machines are read from them.

ghost use Rattle.std.specs.Prelude.{◌≡◌, ◌+◌, ◌≤◌, ◌↔◌, IfOk, IsTrue};
ghost use Rattle.office_run.specs.Definitions.{CountsSource, ReadsFlat, TakesText};

use crate::input::{new_piece, read_piece};
use flat_core::{FlatFault, FlatMachines, read_flat};
use ordered_json::laws::meaning_is_unique;
use ordered_json::{JsonFault, MAX_TEXT, read};
use std::alloc::{AllocError, Global};
use thiserror::Error;
use xs_outside::{Got, Source};

/// The most bytes that are taken of definitions: one more than a text may have shows that it is too long.
pub const MAX_DEFINITIONS_TAKEN: usize = MAX_TEXT + 1;

/// Why there is no text of definitions.
#[derive(Clone, Copy, Debug, PartialEq, Eq, Error)]
pub enum DefinitionsFault {
    /// The source failed.
    #[error("the definitions can't be read")]
    Failed,
    #[error("out of memory")]
    Memory,
}

impl From<AllocError> for DefinitionsFault {
    ghost use Rattle.office_run.specs.declared.definitions.DefinitionsFault.TheVariants.{Memory};

    ghost from_gives = { λ _ fault. fault ≡ Memory };

    fn from(_error: AllocError) -> DefinitionsFault {
        DefinitionsFault::Memory
    }
}

/// Takes the bytes of a source, to its end or the limit.
pub fn take_text<S: Source>(alloc: Global, source: &mut S) -> Result<Vec<u8>, DefinitionsFault>
    ensures text { IfOk result (λ text.
        TakesText text.items (S.left source.old) (S.left source.new)) }
    ensures taken { S.taken source.new ≤ S.taken source.old + MAX_DEFINITIONS_TAKEN }
    ensures faults { CountsSource result (S.read_faults source.old) (S.read_faults source.new) }
{
    let mut text = Vec::new(alloc);
    let mut piece = new_piece(alloc)?;
    'pieces: while text.len() < MAX_DEFINITIONS_TAKEN {
        let room = (MAX_DEFINITIONS_TAKEN - text.len()).min(piece.len());
        match read_piece(source, &mut piece, room) {
            Got::Bytes(count) => text.extend_from_slice(&piece[..count])?,
            Got::End => return Ok(text),
            Got::Failed => return Err(DefinitionsFault::Failed),
        }
    }
    Ok(text)
}

/// The machines of a text, where it is an office of flat machines.
pub fn flat_machines(alloc: Global, text: &[u8]) -> Result<FlatMachines, FlatFault>
    ensures { ReadsFlat result text.now }
{
    meaning_is_unique();
    let json = match read(alloc, text) {
        Ok(json) => json,
        Err(fault) if is_memory(&fault) => return Err(FlatFault::Memory),
        Err(_) => return Err(FlatFault::NotFlat),
    };
    read_flat(alloc, &json)
}

/// Whether a fault is want of memory, and none of the text's own.
fn is_memory(fault: &JsonFault) -> bool
    ensures { IsTrue result ↔ (fault.now ≡ JsonFault.Memory) }
{
    matches!(fault, JsonFault::Memory)
}
