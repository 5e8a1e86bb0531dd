//! The actors of the table with their machines linked.

ghost use Rattle.std.specs.Prelude.{◌≡◌, ◌∷◌, ◌++◌, [], IfOk, OnOk, Some, map};
ghost use Rattle.action_table.specs.Linking.{all_there, linked_actor, linked_logic};

use crate::definitions::{Actor, ActorList};
use crate::machine_ids::MachineIds;
use crate::rows::row_at;
use crate::table::TableActor;
use std::alloc::{AllocError, Global};
use xs_data::Text;
use xs_model::Names;

/// The actors of the table with their machines linked, each at its own place.
pub(crate) fn linked_actors(
    alloc: Global,
    ids: &MachineIds,
    actors: &Names<TableActor>,
) -> Result<ActorList, AllocError>
    ensures { IfOk result
        (λ linked. all_there (map (linked_actor ids.now) actors.now) ≡ Some linked) }
{
    let mut linked = Names::new(alloc);
    for place in 0..actors.len() {
        let (name, actor) = row_at(actors, place);
        let logic = linked_logic(ids, actor)?;
        put_actor(alloc, &mut linked, name, logic)?;
    }
    Ok(linked)
}

/// What starts where an actor is named. Each id was looked up before, and there are no more machines
/// than numbers, so that there is a number.
fn linked_logic(ids: &MachineIds, actor: &TableActor) -> Result<Actor, AllocError>
    ensures { IfOk result (λ linked. linked_logic ids.now actor.now ≡ Some linked) }
{
    let TableActor::Machine(named) = actor else {
        return Ok(Actor::Promise);
    };
    let Some(place) = ids.place_of(named.name.as_bytes()) else {
        return Err(AllocError);
    };
    let Ok(number) = u32::try_from(place) else {
        return Err(AllocError);
    };
    Ok(Actor::Machine(number))
}

/// Puts an actor last. Names are distinct, so that this one isn't held.
fn put_actor(
    alloc: Global,
    actors: &mut ActorList,
    name: &str,
    actor: Actor,
) -> Result<(), AllocError>
    ensures { OnOk result (actors.new ≡ actors.old ++ (name.now, actor) ∷ []) }
{
    if actors.get(name.as_bytes()).is_some() {
        return Err(AllocError);
    }
    let name = Text::from_str(alloc, name)?;
    match actors.put_last(name, actor) {
        Ok(()) => Ok(()),
        Err(_) => Err(AllocError),
    }
}
