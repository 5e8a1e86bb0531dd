//! Reading a whole text.
ghost use Rattle.std.specs.Prelude.{◌≡◌, ◌≢◌, IfErr, IfOk, Ok};
ghost use Rattle.ordered_json.specs.Faults.{HasFault};
ghost use Rattle.ordered_json.specs.Meaning.{Means, IsMeaningless};
ghost use Rattle.ordered_json.specs.OwnKeys.{HasOwnKeys};
ghost use Rattle.ordered_json.specs.Steps as steps;

use crate::reader::Reader;
use crate::{JsonFault, MAX_TEXT, OrderedJson};
use std::alloc::Global;

/// Reads a JSON text: RFC 8259 in UTF-8 whose escapes give Unicode text, with no byte order mark, of
/// at most `MAX_TEXT` bytes and `MAX_LEVELS` levels, its numbers whole and of 64 bits with a sign.
/// `-0` is 0. Of several faults the first from left to right is answered. The cost is linear in the
/// text, but for the look-up of each key among those of its object.
pub fn read(alloc: Global, text: &[u8]) -> Result<OrderedJson, JsonFault>
    ensures ok { IfOk result (λ json. Means text.now json) }
    ensures own_keys { IfOk result HasOwnKeys }
    ensures fault { IfErr result (λ fault. HasFault text.now fault) }
    ensures refused { IfErr result (λ fault. fault ≢ JsonFault.Memory → IsMeaningless text.now) }
{
    if text.len() > MAX_TEXT {
        return Err(JsonFault::TooLong);
    }
    read_whole(alloc, text)
}

/// Reads a whole text, of any length.
fn read_whole(alloc: Global, text: &[u8]) -> Result<OrderedJson, JsonFault>
    ensures ok { IfOk result (λ json. steps.reader_answer text.now ≡ Ok json) }
    ensures err { IfErr result (steps.IsFaultOf (steps.reader_answer text.now)) }
{
    let mut reader = Reader::new(alloc);
    for (place, byte) in text.iter().enumerate() {
        reader.take_byte(alloc, place, *byte)?;
    }
    reader.finish(alloc, text.len())
}
