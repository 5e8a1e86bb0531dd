//! Outcomes that end in error, and the events that a macrostep makes and knows.

ghost use Rattle.std.specs.Prelude.{◌≡◌, IfOk};
ghost use Rattle.office_types.specs.Effects.{fresh_own};
ghost use Rattle.office_types.specs.Events.{fault_error, fault_text, init_event};
ghost use Rattle.macrostep.specs.Macro.{child_error, error_outcome, is_child_error};

use node_tree::{Recorded, Targets};
use office_types::{Effects, End, FaultName, Outcome, Own, Texts, event_type};
use std::alloc::{AllocError, Global};
use xs_data::Text;
use xs_model::{Fields, Value, copy};

/// The outcome of an actor that a fault ends.
pub(crate) fn fault_outcome(alloc: Global, own: Own, name: FaultName) -> Result<Outcome, AllocError>
    ensures { IfOk result (λ outcome. outcome ≡ error_outcome own (fault_error name)) }
{
    let error = fault_error(alloc, name)?;
    Ok(error_outcome(alloc, own, error))
}

/// The outcome of an actor that ends in error.
pub(crate) fn error_outcome(alloc: Global, own: Own, error: Value) -> Outcome
    ensures { result ≡ error_outcome own error }
{
    Outcome {
        own,
        end: End::Error(error),
        effects: Effects::new(alloc),
        micros: Texts::new(alloc),
    }
}

/// Whether the event tells that a child ended in error.
pub(crate) fn is_child_error(event: &Value) -> bool
    ensures { result ≡ is_child_error event.now }
{
    match event_type(event) {
        Some(kind) => kind
            .as_bytes()
            .starts_with(b"xstate.error.actor.".as_slice()),
        None => false,
    }
}

/// A copy of the error of a child that ended in error.
pub(crate) fn child_error(alloc: Global, event: &Value) -> Result<Value, AllocError>
    ensures { IfOk result (λ error. error ≡ child_error event.now) }
{
    let Value::Map(members) = event else {
        return Ok(Value::Null);
    };
    match members.get(b"error".as_slice()) {
        Some(error) => copy(alloc, error),
        None => Ok(Value::Null),
    }
}

/// The event that begins an actor.
pub(crate) fn init_event(alloc: Global, input: &Value) -> Result<Value, AllocError>
    ensures { IfOk result (λ event. event ≡ init_event input.now) }
{
    let mut members = Fields::new(alloc);
    let Ok(()) = members.put(Text::from_str(alloc, "input")?, copy(alloc, input)?) else {
        return Err(AllocError);
    };
    let kind = Value::Text(Text::from_str(alloc, "xstate.init")?);
    let Ok(()) = members.put(Text::from_str(alloc, "type")?, kind) else {
        return Err(AllocError);
    };
    Ok(Value::Map(members))
}

/// The own part of an actor of this machine before its first step.
pub(crate) fn fresh_own(alloc: Global, number: u32) -> Own
    ensures { result ≡ fresh_own number }
{
    Own {
        def: number,
        begun: false,
        nodes: Targets::new(alloc),
        history: Recorded::new(alloc),
        context: Value::Null,
        children: Texts::new(alloc),
        unnamed: 0,
    }
}

/// The error of an actor that a fault ended.
fn fault_error(alloc: Global, name: FaultName) -> Result<Value, AllocError>
    ensures { IfOk result (λ error. error ≡ fault_error name) }
{
    let text = Value::Text(Text::from_str(alloc, fault_text(name))?);
    let mut members = Fields::new(alloc);
    let Ok(()) = members.put(Text::from_str(alloc, "fault")?, text) else {
        return Err(AllocError);
    };
    Ok(Value::Map(members))
}

/// A fault as a text.
fn fault_text(name: FaultName) -> &'static str
    ensures { result.now ≡ fault_text name }
{
    match name {
        FaultName::Missing => "Missing",
        FaultName::Kind => "Kind",
        FaultName::Range => "Range",
        FaultName::TooLarge => "TooLarge",
        FaultName::Steps => "Steps",
        FaultName::Actions => "Actions",
        FaultName::Reserved => "Reserved",
        FaultName::NoChild => "NoChild",
        FaultName::NameHeld => "NameHeld",
        FaultName::ActorsFull => "ActorsFull",
        FaultName::LettersFull => "LettersFull",
        FaultName::TimersFull => "TimersFull",
        FaultName::TooDeep => "TooDeep",
    }
}
