//! Parents and their children: each names the other, once.

ghost use Rattle.std.specs.Prelude.{◌≡◌, ◌↔◌, ◌++◌, All, Contains, IfOk, IsTrue, OnOk, Some, true};
ghost use Rattle.std.specs.List.Sorted.{IsNonDecreasing, IsPermutation, IsStrictlyIncreasing};
ghost use Rattle.office_types.specs.Records.{actor_record, is_active};
ghost use Rattle.office_types.specs.ValidOffice.{HasParent, IsChildOf};
ghost use Rattle.snapshot_text.specs.Validity.{AreListedOnce, HaveParents, RecordsRise, child_numbers, kid_numbers};

use crate::records::find_record;
use crate::validity::limits::is_active;
use crate::validity::lookups::parent_of;
use office_types::{ActorRecord, OfficeState};
use std::alloc::{AllocError, Global};
use xs_data::Text;

/// Whether each child that an actor lists has a record with that actor as parent. It costs a look-up by
/// halves for each.
pub(crate) fn do_kids_have_parents(state: &OfficeState) -> bool
    requires { RecordsRise state.now.actors }
    ensures { IsTrue result ↔ HaveParents state.now }
{
    for actor in state.actors.as_slice() {
        if !have_parent(state, actor.number, actor.kids.as_slice()) {
            return false;
        }
    }
    true
}

fn have_parent(state: &OfficeState, parent: u64, kids: &[(Text, u64)]) -> bool
    requires { RecordsRise state.now.actors }
    ensures { IsTrue result ↔ All (λ kid. HasParent state.now parent kid.1) kids.now }
{
    kids.iter()
        .all(|kid| parent_of(state, kid.1) == Some(parent))
}

/// The numbers of all children that actors list, sorted.
pub(crate) fn listed_kids(alloc: Global, actors: &[ActorRecord]) -> Result<Vec<u64>, AllocError>
    ensures permutation { IfOk result (λ listed.
        IsPermutation (child_numbers actors.now) listed.items) }
    ensures sorted { IfOk result (λ listed. IsNonDecreasing listed.items) }
{
    let mut listed = Vec::new(alloc);
    for actor in actors {
        push_kids(&mut listed, actor.kids.as_slice())?;
    }
    listed.sort_unstable();
    Ok(listed)
}

fn push_kids(listed: &mut Vec<u64>, kids: &[(Text, u64)]) -> Result<(), AllocError>
    ensures { OnOk result (listed.new.items ≡ listed.old.items ++ kid_numbers kids.now) }
{
    for (_, number) in kids {
        listed.push(*number)?;
    }
    Ok(())
}

/// Whether each number is above the one before it.
pub(crate) fn do_numbers_rise(numbers: &[u64]) -> bool
    ensures { IsTrue result ↔ IsStrictlyIncreasing numbers.now }
{
    for place in 1..numbers.len() {
        if numbers[place - 1] >= numbers[place] {
            return false;
        }
    }
    true
}

/// Whether an actor is a child of another one, where each child that is listed has its parent, and is
/// listed once. It costs two searches by halves.
pub(crate) fn is_child_of(
    state: &OfficeState,
    listed: &[u64],
    actor: &ActorRecord,
    parent: u64,
) -> bool
    requires rise { RecordsRise state.now.actors }
    requires parents { HaveParents state.now }
    requires listed { AreListedOnce state.now listed.now }
    requires actor { actor_record state.now actor.now.number ≡ Some actor.now }
    requires parent { actor.now.parent ≡ Some parent }
    ensures { IsTrue result ↔ IsChildOf state.now actor.now parent }
{
    let Some(above) = find_record(state, parent) else {
        return false;
    };
    if parent >= actor.number {
        return false;
    }
    if !may_be_under(actor, above) {
        return false;
    }
    is_listed(listed, actor.number)
}

fn may_be_under(actor: &ActorRecord, above: &ActorRecord) -> bool
    ensures { IsTrue result ↔ (is_active actor.now ≡ true → is_active above.now ≡ true) }
{
    if is_active(actor) {
        is_active(above)
    } else {
        true
    }
}

fn is_listed(listed: &[u64], number: u64) -> bool
    requires { IsStrictlyIncreasing listed.now }
    ensures { IsTrue result ↔ Contains listed.now number }
{
    listed.binary_search(&number).is_ok()
}
