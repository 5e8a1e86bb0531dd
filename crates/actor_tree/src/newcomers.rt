//! Actors that are made.

ghost use Rattle.std.specs.Prelude.{◌≡◌, ℕ, IfOk, None, Some};
ghost use Rattle.office_types.specs.Effects.{fresh_own, fresh_record};
ghost use Rattle.office_types.specs.Mailboxes.{with_mail};
ghost use Rattle.actor_tree.specs.Actors.{record_of};
ghost use Rattle.actor_tree.specs.Parts.{IsComplete};

use crate::actor::Actor;
use crate::part::Newcomer;
use node_tree::{Recorded, Targets};
use office_types::{Item, Letter, Own, Status, Texts, copy_item};
use std::alloc::{AllocError, Global};
use std::collections::VecDeque;
use xs_data::Text;
use xs_model::Value;

/// A machine actor that begins with this letter.
pub(crate) fn new_machine(
    alloc: Global,
    machine: u32,
    parent: Option<u64>,
    system: Option<Text>,
    first: Letter,
) -> Result<Newcomer, AllocError>
    ensures made { IfOk result (λ made. (number : ℕ) → record_of number made.actor
        ≡ with_mail first (fresh_record number parent system (Some (fresh_own machine)) None)) }
    ensures complete { IfOk result IsComplete }
    ensures item { IfOk result (λ made. made.item ≡ None) }
{
    let mut mailbox = VecDeque::with_capacity(alloc, 1)?;
    mailbox.push_back(first)?;
    let name = copy_name(alloc, &system)?;
    let actor = Actor {
        parent,
        own: Some(unbegun(alloc, machine)),
        item: None,
        system,
        status: Status::Active,
        output: Value::Null,
        error: Value::Null,
        kids: Vec::new(alloc),
        mailbox,
    };
    Ok(Newcomer {
        actor,
        name,
        item: None,
    })
}

/// A work item.
pub(crate) fn new_item(
    alloc: Global,
    parent: Option<u64>,
    system: Option<Text>,
    item: Item,
) -> Result<Newcomer, AllocError>
    ensures made { IfOk result (λ made. (number : ℕ) → record_of number made.actor
        ≡ fresh_record number parent system None (Some item)) }
    ensures complete { IfOk result IsComplete }
    ensures item { IfOk result (λ made. made.item ≡ Some item) }
{
    let name = copy_name(alloc, &system)?;
    let open = copy_item(alloc, &item)?;
    let actor = Actor {
        parent,
        own: None,
        item: Some(item),
        system,
        status: Status::Active,
        output: Value::Null,
        error: Value::Null,
        kids: Vec::new(alloc),
        mailbox: VecDeque::new(alloc),
    };
    Ok(Newcomer {
        actor,
        name,
        item: Some(open),
    })
}

/// The own part of a machine actor before its first step. It takes no memory.
fn unbegun(alloc: Global, machine: u32) -> Own
    ensures { result ≡ fresh_own machine }
{
    Own {
        def: machine,
        begun: false,
        nodes: Targets::new(alloc),
        history: Recorded::new(alloc),
        context: Value::Null,
        children: Texts::new(alloc),
        unnamed: 0,
    }
}

/// An equal name.
pub(crate) fn copy_name(alloc: Global, name: &Option<Text>) -> Result<Option<Text>, AllocError>
    ensures { IfOk result (λ made. made ≡ name.now) }
{
    match name {
        Some(name) => Ok(Some(name.copy(alloc)?)),
        None => Ok(None),
    }
}
