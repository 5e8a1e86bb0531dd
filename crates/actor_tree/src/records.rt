//! Copies between records and what a forest has of actors. Each costs as much as what it copies is large.

ghost use Rattle.std.specs.Prelude.{◌≡◌, ℕ, List, IfOk};
ghost use Rattle.actor_tree.specs.Actors.{record_of, records_of};

use crate::actor::Actor;
use crate::newcomers::copy_name;
use office_books::Slots;
use office_types::{
    ActorRecord, ActorRecords, Kids, Letter, Letters, NameList, copy_item, copy_letter, copy_own,
    copy_record,
};
use std::alloc::{AllocError, Global};
use std::collections::VecDeque;
use xs_data::Text;
use xs_model::copy;

/// The records of all actors, by their numbers.
pub(crate) fn read_records(alloc: Global, actors: &Slots<Actor>) -> Result<ActorRecords, AllocError>
    ensures { IfOk result (λ made. made ≡ records_of actors.now.items) }
{
    let mut records = Vec::with_capacity(alloc, actors.len())?;
    for (number, actor) in actors.iter() {
        records.push(read_record(alloc, number, actor)?)?;
    }
    Ok(ActorRecords::from_vec(records))
}

/// The record of an actor of this number.
fn read_record(alloc: Global, number: u64, actor: &Actor) -> Result<ActorRecord, AllocError>
    ensures { IfOk result (λ made. made ≡ record_of number actor.now) }
{
    let own = match &actor.own {
        Some(own) => Some(copy_own(alloc, own)?),
        None => None,
    };
    let item = match &actor.item {
        Some(item) => Some(copy_item(alloc, item)?),
        None => None,
    };
    Ok(ActorRecord {
        number,
        parent: actor.parent,
        own,
        item,
        system: copy_name(alloc, &actor.system)?,
        status: actor.status,
        output: copy(alloc, &actor.output)?,
        error: copy(alloc, &actor.error)?,
        kids: Kids::from_vec(copy_pairs(alloc, actor.kids.as_slice())?),
        mailbox: copy_mailbox(alloc, &actor.mailbox)?,
    })
}

/// What a forest has of the actor of a record.
pub(crate) fn actor_of(alloc: Global, actor: &ActorRecord) -> Result<Actor, AllocError>
    ensures { IfOk result (λ made. record_of actor.now.number made ≡ actor.now) }
{
    let ActorRecord {
        number: _,
        parent,
        own,
        item,
        system,
        status,
        output,
        error,
        kids,
        mailbox,
    } = copy_record(alloc, actor)?;
    Ok(Actor {
        parent,
        own,
        item,
        system,
        status,
        output,
        error,
        kids: kids.into_vec(),
        mailbox: VecDeque::from_vec(mailbox.into_vec()),
    })
}

/// Equal names with the numbers that they stand for.
pub(crate) fn copy_names(alloc: Global, names: &[(Text, u64)]) -> Result<NameList, AllocError>
    ensures { IfOk result (λ made. made ≡ names.now) }
{
    Ok(NameList::from_vec(copy_pairs(alloc, names)?))
}

fn copy_pairs(alloc: Global, pairs: &[(Text, u64)]) -> Result<Vec<(Text, u64)>, AllocError>
    ensures { IfOk result (λ made. made.items ≡ pairs.now) }
{
    let mut copies = Vec::with_capacity(alloc, pairs.len())?;
    for (text, number) in pairs {
        copies.push((text.copy(alloc)?, *number))?;
    }
    Ok(copies)
}

fn copy_mailbox(alloc: Global, mailbox: &VecDeque<Letter>) -> Result<Letters, AllocError>
    ensures { IfOk result (λ made. made ≡ mailbox.now.items) }
{
    let mut copies = Vec::with_capacity(alloc, mailbox.len())?;
    for letter in mailbox {
        copies.push(copy_letter(alloc, letter)?)?;
    }
    Ok(Letters::from_vec(copies))
}
