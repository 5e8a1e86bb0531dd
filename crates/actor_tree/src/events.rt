//! The events that an office makes itself.

ghost use Rattle.std.specs.Prelude.{◌≡◌, ◌++◌, ◌∷◌, [], codes, IfOk, OnOk};
ghost use Rattle.xs_model.specs.Rising.{put};
ghost use Rattle.office_types.specs.Events.{done_event, error_event, fault_error, fault_text, init_event, snapshot_event};

use office_types::FaultName;
use std::alloc::{AllocError, Global};
use xs_data::Text;
use xs_model::{Fields, Value};

/// The first letter's event of an actor with this input.
pub(crate) fn init_event(alloc: Global, input: Value) -> Result<Value, AllocError>
    ensures { IfOk result (λ event. event ≡ init_event input) }
{
    let mut fields = Fields::new(alloc);
    put(alloc, &mut fields, "input", input)?;
    let kind = Text::from_str(alloc, "xstate.init")?;
    put(alloc, &mut fields, "type", Value::Text(kind))?;
    Ok(Value::Map(fields))
}

/// The event that the child with this id is done.
pub(crate) fn done_event(alloc: Global, output: Value, id: &str) -> Result<Value, AllocError>
    ensures { IfOk result (λ event. event ≡ done_event output id.now) }
{
    let mut fields = Fields::new(alloc);
    let actor = Text::from_str(alloc, id)?;
    put(alloc, &mut fields, "actorId", Value::Text(actor))?;
    put(alloc, &mut fields, "output", output)?;
    let kind = joined(alloc, "xstate.done.actor.", id)?;
    put(alloc, &mut fields, "type", Value::Text(kind))?;
    Ok(Value::Map(fields))
}

/// The event that the child with this id ended in error.
pub(crate) fn error_event(alloc: Global, error: Value, id: &str) -> Result<Value, AllocError>
    ensures { IfOk result (λ event. event ≡ error_event error id.now) }
{
    let mut fields = Fields::new(alloc);
    let actor = Text::from_str(alloc, id)?;
    put(alloc, &mut fields, "actorId", Value::Text(actor))?;
    put(alloc, &mut fields, "error", error)?;
    let kind = joined(alloc, "xstate.error.actor.", id)?;
    put(alloc, &mut fields, "type", Value::Text(kind))?;
    Ok(Value::Map(fields))
}

/// The event that tells a parent what the child with this id is now.
pub(crate) fn snapshot_event(alloc: Global, snapshot: Value, id: &str) -> Result<Value, AllocError>
    ensures { IfOk result (λ event. event ≡ snapshot_event snapshot id.now) }
{
    let mut fields = Fields::new(alloc);
    let actor = Text::from_str(alloc, id)?;
    put(alloc, &mut fields, "actorId", Value::Text(actor))?;
    put(alloc, &mut fields, "snapshot", snapshot)?;
    let kind = joined(alloc, "xstate.snapshot.", id)?;
    put(alloc, &mut fields, "type", Value::Text(kind))?;
    Ok(Value::Map(fields))
}

/// The snapshot with a context and a state value.
pub(crate) fn snapshot(alloc: Global, context: Value, value: Value) -> Result<Value, AllocError>
    ensures { IfOk result
        (λ made. made ≡ Value.Map ((codes "context", context) ∷ (codes "value", value) ∷ [])) }
{
    let mut fields = Fields::new(alloc);
    put(alloc, &mut fields, "context", context)?;
    put(alloc, &mut fields, "value", value)?;
    Ok(Value::Map(fields))
}

/// The error of an actor that a fault ended.
pub(crate) fn fault_error(alloc: Global, name: FaultName) -> Result<Value, AllocError>
    ensures { IfOk result (λ error. error ≡ fault_error name) }
{
    let mut fields = Fields::new(alloc);
    let text = Text::from_str(alloc, fault_text(name))?;
    put(alloc, &mut fields, "fault", Value::Text(text))?;
    Ok(Value::Map(fields))
}

/// A fault as a text.
fn fault_text(name: FaultName) -> &'static str
    ensures { result.now ≡ fault_text name }
{
    match name {
        FaultName::Missing => "Missing",
        FaultName::Kind => "Kind",
        FaultName::Range => "Range",
        FaultName::TooLarge => "TooLarge",
        FaultName::Steps => "Steps",
        FaultName::Actions => "Actions",
        FaultName::Reserved => "Reserved",
        FaultName::NoChild => "NoChild",
        FaultName::NameHeld => "NameHeld",
        FaultName::ActorsFull => "ActorsFull",
        FaultName::LettersFull => "LettersFull",
        FaultName::TimersFull => "TimersFull",
        FaultName::TooDeep => "TooDeep",
    }
}

/// Puts a value under a key.
fn put(alloc: Global, fields: &mut Fields, key: &str, value: Value) -> Result<(), AllocError>
    ensures { OnOk result (fields.new ≡ put fields.old key.now value) }
{
    let key = Text::from_str(alloc, key)?;
    match fields.put(key, value) {
        Ok(()) => Ok(()),
        Err(_) => Err(AllocError),
    }
}

/// Two texts, one behind the other.
fn joined(alloc: Global, front: &str, back: &str) -> Result<Text, AllocError>
    ensures { IfOk result (λ text. text ≡ front.now ++ back.now) }
{
    let mut text = String::from_str(alloc, front)?;
    text.push_str(back)?;
    Ok(Text::from_string(text))
}
