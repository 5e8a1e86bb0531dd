//! The candidates of a node, of which the first that is enabled is its own transition.

ghost use Rattle.std.specs.Prelude.{map};
ghost use Rattle.std.specs.List.{enumerate_from, flat_map};
ghost use Rattle.std.specs.List.Sorted.{IsStrictlyIncreasing};
ghost use Rattle.xs_model.specs.Eval.{Evaluates};
ghost use Rattle.microstep.specs.Candidates.{candidates_under};
ghost use Rattle.microstep.specs.Patterns.{pattern_text};
ghost use Rattle.microstep.specs.Readings.{IsSelectable, looking_of};
ghost use Rattle.microstep.specs.Selection.{first_enabled, is_enabled, own_transition};

use crate::patterns::{Pattern, is_pattern};
use crate::reading::Reading;
use guard_eval::{Transition, holds};
use std::alloc::Global;
use xs_model::{Env, EvalFault, Value};

/// The place of a node's own transition: the first of its candidates that is enabled.
pub(crate) fn own_transition(
    alloc: Global,
    reading: &Reading<'_>,
    node: u32,
) -> Result<Option<usize>, EvalFault>
    requires { IsSelectable reading.now }
    ensures { Evaluates result (own_transition (looking_of reading.now) node) }
{
    let Some(said) = reading.def.nodes.get(node as usize) else {
        return Ok(None);
    };
    if reading.eventless {
        first_of(alloc, reading, said.always.as_slice())
    } else {
        first_for(alloc, reading, said.transitions.as_slice())
    }
}

/// The place of the first transition that is enabled.
fn first_of(
    alloc: Global,
    reading: &Reading<'_>,
    transitions: &[Transition],
) -> Result<Option<usize>, EvalFault>
    requires { IsStrictlyIncreasing reading.now.own.now.nodes }
    ensures { Evaluates result
        (first_enabled (looking_of reading.now) (enumerate_from 0 transitions.now)) }
{
    for (place, transition) in transitions.iter().enumerate() {
        if is_enabled(alloc, reading, transition)? {
            return Ok(Some(place));
        }
    }
    Ok(None)
}

/// The place of the first candidate for the event that is enabled: the descriptors are looked at
/// one after another, and under each the transitions in their order.
fn first_for(
    alloc: Global,
    reading: &Reading<'_>,
    transitions: &[Transition],
) -> Result<Option<usize>, EvalFault>
    requires { IsStrictlyIncreasing reading.now.own.now.nodes }
    ensures { Evaluates result
        (first_enabled (looking_of reading.now)
        (flat_map (candidates_under transitions.now)
        (map (pattern_text reading.now.kind.now) reading.now.patterns.now))) }
{
    for pattern in reading.patterns {
        if let Some(place) = first_under(alloc, reading, transitions, *pattern)? {
            return Ok(Some(place));
        }
    }
    Ok(None)
}

/// The place of the first transition under a descriptor that is enabled.
fn first_under(
    alloc: Global,
    reading: &Reading<'_>,
    transitions: &[Transition],
    pattern: Pattern,
) -> Result<Option<usize>, EvalFault>
    requires { IsStrictlyIncreasing reading.now.own.now.nodes }
    ensures { Evaluates result
        (first_enabled (looking_of reading.now)
        (candidates_under transitions.now (pattern_text reading.now.kind.now pattern))) }
{
    for (place, transition) in transitions.iter().enumerate() {
        if is_pattern(reading.kind, transition.descriptor.as_bytes(), pattern)
            && is_enabled(alloc, reading, transition)?
        {
            return Ok(Some(place));
        }
    }
    Ok(None)
}

/// Whether a transition is enabled.
fn is_enabled(
    alloc: Global,
    reading: &Reading<'_>,
    transition: &Transition,
) -> Result<bool, EvalFault>
    requires { IsStrictlyIncreasing reading.now.own.now.nodes }
    ensures { Evaluates result (is_enabled (looking_of reading.now) transition.now) }
{
    let Some(guard) = &transition.guard else {
        return Ok(true);
    };
    let env = Env {
        context: &reading.own.context,
        event: reading.event,
        params: &Value::Null,
        input: &Value::Null,
    };
    holds(alloc, guard, reading.own.nodes.as_slice(), &env)
}
