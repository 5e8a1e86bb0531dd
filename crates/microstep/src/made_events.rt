//! The events that a machine makes of itself.

ghost use Rattle.std.specs.Prelude.{◌≡◌, ◌++◌, IfOk, MatchResult, Ok};
ghost use Rattle.xs_model.specs.Rising.{put};
ghost use Rattle.microstep.specs.Acts.{after_event, done_state_event};
ghost use Rattle.microstep.specs.Progressing.{Gives};
ghost use Rattle.microstep.specs.declared.micro.StepFault.TheVariants.{Memory};

use crate::micro::StepFault;
use std::alloc::{AllocError, Global};
use xs_data::Text;
use xs_model::{Fields, Value};

/// The event of an `after` with this type.
pub(crate) fn after_event(alloc: Global, kind: &Text) -> Result<Value, StepFault>
    ensures { Gives result (Ok (after_event kind.now)) }
{
    let mut fields = Fields::new(alloc);
    let kind = kind.copy(alloc)?;
    put(alloc, &mut fields, "type", Value::Text(kind))?;
    Ok(Value::Map(fields))
}

/// The event that the node with this id is done.
pub(crate) fn done_state_event(alloc: Global, id: &Text, output: Value) -> Result<Value, StepFault>
    ensures { Gives result (Ok (done_state_event id.now output)) }
{
    let mut fields = Fields::new(alloc);
    put(alloc, &mut fields, "output", output)?;
    let kind = joined(alloc, "xstate.done.state.", id.as_str())?;
    put(alloc, &mut fields, "type", Value::Text(kind))?;
    Ok(Value::Map(fields))
}

/// Puts a value under a key.
fn put(alloc: Global, fields: &mut Fields, key: &str, value: Value) -> Result<(), StepFault>
    ensures { MatchResult result
        (λ done. fields.new ≡ put fields.old key.now value) (λ fault. fault ≡ Memory) }
{
    let key = Text::from_str(alloc, key)?;
    fields.put(key, value).map_err(|_| StepFault::Memory)
}

/// Two texts, one behind the other.
fn joined(alloc: Global, front: &str, back: &str) -> Result<Text, AllocError>
    ensures { IfOk result (λ text. text ≡ front.now ++ back.now) }
{
    let mut text = String::from_str(alloc, front)?;
    text.push_str(back)?;
    Ok(Text::from_string(text))
}
