//! The two kinds of actors: machine actors and work items.

ghost use Rattle.std.specs.Prelude.{◌≡◌, ◌↔◌, ℕ, List, IfOk, IsTrue, map, true};
ghost use Rattle.office_types.specs.Records.{is_active};
ghost use Rattle.office_types.specs.ValidOffice.{HasItsInit, IsItemActor, IsMachineActor, IsOfOneKind};
ghost use Rattle.action_table.specs.Definitions.{office_definitions};
ghost use Rattle.snapshot_text.specs.Validity.{AreStatecharts};

use crate::validity::letters::has_its_init;
use crate::validity::limits::is_active;
use crate::validity::own_parts::is_own_part;
use action_table::Defs;
use office_types::{ActorRecord, Item, Own, is_short};
use std::alloc::{AllocError, Global};
use xs_data::Text;

/// Whether an actor has an own part or an item, not both, and it is one that it may have.
pub(crate) fn is_of_one_kind(
    alloc: Global,
    defs: &Defs,
    actor: &ActorRecord,
) -> Result<bool, AllocError>
    requires { AreStatecharts defs.now }
    ensures { IfOk result (λ valid. IsTrue valid
        ↔ IsOfOneKind (office_definitions defs.now) actor.now actor.now.own actor.now.item) }
{
    match (&actor.own, &actor.item) {
        (Some(own), None) => is_machine_actor(alloc, defs, actor, own),
        (None, Some(item)) => Ok(is_item_actor(actor, item)),
        (Some(_), Some(_)) | (None, None) => Ok(false),
    }
}

fn is_machine_actor(
    alloc: Global,
    defs: &Defs,
    actor: &ActorRecord,
    own: &Own,
) -> Result<bool, AllocError>
    requires { AreStatecharts defs.now }
    ensures { IfOk result (λ valid. IsTrue valid
        ↔ IsMachineActor (office_definitions defs.now) actor.now own.now) }
{
    let Some(def) = defs.defs.get(own.def) else {
        return Ok(false);
    };
    let kids = actor.kids.as_slice();
    let ids = own.children.as_slice();
    if !have_ids(kids, ids) {
        return Ok(false);
    }
    if !begins_as_it_may(actor, own) {
        return Ok(false);
    }
    is_own_part(alloc, &def.tree, own)
}

/// Whether the actor isn't active, or has the letter that begins it where it may.
fn begins_as_it_may(actor: &ActorRecord, own: &Own) -> bool
    ensures { IsTrue result
        ↔ (is_active actor.now ≡ true → HasItsInit own.now actor.now.mailbox) }
{
    if !is_active(actor) {
        return true;
    }
    has_its_init(own, actor.mailbox.as_slice())
}

/// Whether children have these ids, in that order.
fn have_ids(kids: &[(Text, u64)], ids: &[Text]) -> bool
    ensures { IsTrue result ↔ (map (λ (kid : List ℕ × ℕ). kid.0) kids.now ≡ ids.now) }
{
    let mut rest = ids;
    for (id, _) in kids {
        let Some((first, others)) = rest.split_first() else {
            return false;
        };
        if !id.same(first.as_bytes()) {
            return false;
        }
        rest = others;
    }
    rest.is_empty()
}

fn is_item_actor(actor: &ActorRecord, item: &Item) -> bool
    ensures { IsTrue result ↔ IsItemActor actor.now item.now }
{
    item.actor == actor.number
        && is_short(&item.input)
        && actor.kids.is_empty()
        && actor.mailbox.is_empty()
}
