//! The limits of events, names and contexts.

ghost use Rattle.std.specs.Prelude.{◌≡◌, ◌↔◌, IsTrue, Some, option_copied};
ghost use Rattle.office_types.specs.Events.{event_type, init_type, under};
ghost use Rattle.office_types.specs.Limits.{has_limits, is_event, is_name, is_short_under};
ghost use Rattle.office_types.specs.OwnParts.{IsContext};

use office_types::{event_type, is_reserved, is_short};
use xs_model::{MAX_CONTEXT_TEXT, MAX_NAME, MAX_NESTING, Value, depth, text_len};

/// Whether the event is one that begins an actor.
pub(crate) fn begins_actor(event: &Value) -> bool
    ensures { IsTrue result ↔ (event_type event.now ≡ Some init_type) }
{
    match event_type(event) {
        Some(kind) => kind.same(b"xstate.init".as_slice()),
        None => false,
    }
}

/// Whether the value is an event within its limits. It looks at each byte of the value once or twice.
pub(crate) fn is_event(event: &Value) -> bool
    ensures { result ≡ is_event event.now }
{
    match event_type(event) {
        Some(kind) => has_limits(event, kind.as_bytes()),
        None => false,
    }
}

/// Whether an event of this type is within the limits: where the office made it, its parts are.
fn has_limits(event: &Value, kind: &[u8]) -> bool
    ensures { result ≡ has_limits event.now kind.now }
{
    if is_reserved(kind) {
        is_short_under(b"input".as_slice(), event)
            && is_short_under(b"output".as_slice(), event)
            && is_short_under(b"error".as_slice(), event)
    } else {
        is_short(event)
    }
}

fn is_short_under(key: &[u8], value: &Value) -> bool
    ensures { result ≡ is_short_under key.now value.now }
{
    match under(key, value) {
        Some(part) => is_short(part),
        None => true,
    }
}

fn under<'a>(key: &[u8], value: &'a Value) -> Option<&'a Value>
    ensures { option_copied result ≡ under key.now value.now }
{
    match value {
        Value::Map(members) => members.get(key),
        _ => None,
    }
}

/// Whether a text is as long as an id or a system name may be.
pub(crate) fn is_name(text: &[u8]) -> bool
    ensures { result ≡ is_name text.now }
{
    !text.is_empty() && text.len() <= MAX_NAME
}

/// Whether a value may be the context of an actor. It looks at each byte of the value once or twice.
pub(crate) fn is_context(value: &Value) -> bool
    ensures { IsTrue result ↔ IsContext value.now }
{
    matches!(value, Value::Map(_))
        && text_len(value) <= MAX_CONTEXT_TEXT
        && depth(value) <= MAX_NESTING
}
