//! Transitions by the places where they stand.

ghost use Rattle.std.specs.Prelude.{◌≡◌};
ghost use Rattle.std.specs.Option.{option_copied};
ghost use Rattle.microstep.specs.Selection.{transition_at};

use guard_eval::{Def, Transition};

/// The transition at a place: in its node's `always` for a step without an event, else in the
/// node's `transitions`.
pub(crate) fn transition_at(def: &Def, eventless: bool, place: (u32, usize)) -> Option<&Transition>
    ensures { option_copied result ≡ transition_at def.now eventless place }
{
    let said = def.nodes.get(place.0 as usize)?;
    if eventless {
        said.always.get(place.1)
    } else {
        said.transitions.get(place.1)
    }
}
