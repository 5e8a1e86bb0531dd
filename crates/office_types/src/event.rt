//! What an event is, and the limits of values.

ghost use Rattle.std.specs.Prelude.{◌≡◌};
ghost use Rattle.std.specs.Option.{option_copied};
ghost use Rattle.office_types.specs.Events.{event_type, is_reserved};
ghost use Rattle.office_types.specs.Limits.{is_short};

use xs_data::Text;
use xs_model::{MAX_EVENT_TEXT, MAX_NESTING, Value, depth, text_len};

/// The type of an event: the text under `type`, found by halves.
pub fn event_type(event: &Value) -> Option<&Text>
    ensures { option_copied result ≡ event_type event.now }
{
    let Value::Map(members) = event else {
        return None;
    };
    let Value::Text(text) = members.get(b"type".as_slice())? else {
        return None;
    };
    Some(text)
}

/// Whether the type is one of those that the office makes itself.
pub fn is_reserved(kind: &[u8]) -> bool
    ensures { result ≡ is_reserved kind.now }
{
    kind.starts_with(b"xstate.".as_slice())
}

/// Whether the value is within the limits of an event, an input, an output and an error. It looks at
/// each byte of the value once or twice.
pub fn is_short(value: &Value) -> bool
    ensures { result ≡ is_short value.now }
{
    text_len(value) <= MAX_EVENT_TEXT && depth(value) <= MAX_NESTING
}
