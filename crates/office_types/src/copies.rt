//! Copies of records. Each costs as much as what it copies is large.

ghost use Rattle.std.specs.Prelude.{◌≡◌, IfOk};

use crate::office::{ActorRecord, Item, Kids, Letter, Letters, Origin, Timer};
use crate::outcome::{Effect, Own, Texts, To};
use node_tree::{Recorded, Targets};
use std::alloc::{AllocError, Global};
use xs_data::Text;
use xs_model::copy;

/// An equal record, with its own part or work item, its children and its mailbox.
pub fn copy_record(alloc: Global, actor: &ActorRecord) -> Result<ActorRecord, AllocError>
    ensures { IfOk result (λ made. made ≡ actor.now) }
{
    let own = match &actor.own {
        Some(own) => Some(copy_own(alloc, own)?),
        None => None,
    };
    let item = match &actor.item {
        Some(item) => Some(copy_item(alloc, item)?),
        None => None,
    };
    Ok(ActorRecord {
        number: actor.number,
        parent: actor.parent,
        own,
        item,
        system: copy_name(alloc, &actor.system)?,
        status: actor.status,
        output: copy(alloc, &actor.output)?,
        error: copy(alloc, &actor.error)?,
        kids: copy_kids(alloc, &actor.kids)?,
        mailbox: copy_letters(alloc, &actor.mailbox)?,
    })
}

/// An equal own part.
pub fn copy_own(alloc: Global, own: &Own) -> Result<Own, AllocError>
    ensures { IfOk result (λ made. made ≡ own.now) }
{
    Ok(Own {
        def: own.def,
        begun: own.begun,
        nodes: copy_nodes(alloc, &own.nodes)?,
        history: copy_history(alloc, &own.history)?,
        context: copy(alloc, &own.context)?,
        children: copy_texts(alloc, &own.children)?,
        unnamed: own.unnamed,
    })
}

/// An equal work item.
pub fn copy_item(alloc: Global, item: &Item) -> Result<Item, AllocError>
    ensures { IfOk result (λ made. made ≡ item.now) }
{
    Ok(Item {
        actor: item.actor,
        src: item.src.copy(alloc)?,
        input: copy(alloc, &item.input)?,
    })
}

/// An equal letter, of the same number.
pub fn copy_letter(alloc: Global, letter: &Letter) -> Result<Letter, AllocError>
    ensures { IfOk result (λ made. made ≡ letter.now) }
{
    Ok(Letter {
        number: letter.number,
        origin: copy_origin(alloc, &letter.origin)?,
        event: copy(alloc, &letter.event)?,
    })
}

/// An equal timer, of the same number.
pub fn copy_timer(alloc: Global, timer: &Timer) -> Result<Timer, AllocError>
    ensures { IfOk result (λ made. made ≡ timer.now) }
{
    Ok(Timer {
        order: timer.order,
        owner: timer.owner,
        target: timer.target,
        due: timer.due,
        id: copy_name(alloc, &timer.id)?,
        event: copy(alloc, &timer.event)?,
    })
}

/// An equal effect.
pub fn copy_effect(alloc: Global, effect: &Effect) -> Result<Effect, AllocError>
    ensures { IfOk result (λ made. made ≡ effect.now) }
{
    match effect {
        Effect::Send { to, event } => Ok(Effect::Send {
            to: copy_to(alloc, to)?,
            event: copy(alloc, event)?,
        }),
        Effect::Schedule {
            id,
            delay,
            to,
            event,
        } => Ok(Effect::Schedule {
            id: copy_name(alloc, id)?,
            delay: *delay,
            to: copy_to(alloc, to)?,
            event: copy(alloc, event)?,
        }),
        Effect::Cancel { id } => Ok(Effect::Cancel {
            id: id.copy(alloc)?,
        }),
        Effect::Spawn {
            id,
            src,
            input,
            system,
        } => Ok(Effect::Spawn {
            id: id.copy(alloc)?,
            src: *src,
            input: copy(alloc, input)?,
            system: copy_name(alloc, system)?,
        }),
        Effect::Stop { id } => Ok(Effect::Stop {
            id: id.copy(alloc)?,
        }),
    }
}

fn copy_to(alloc: Global, to: &To) -> Result<To, AllocError>
    ensures { IfOk result (λ made. made ≡ to.now) }
{
    match to {
        To::Own => Ok(To::Own),
        To::Parent => Ok(To::Parent),
        To::Child(id) => Ok(To::Child(id.copy(alloc)?)),
        To::System(name) => Ok(To::System(name.copy(alloc)?)),
    }
}

fn copy_origin(alloc: Global, origin: &Origin) -> Result<Origin, AllocError>
    ensures { IfOk result (λ made. made ≡ origin.now) }
{
    match origin {
        Origin::Caller(name) => Ok(Origin::Caller(name.copy(alloc)?)),
        Origin::Actor(number) => Ok(Origin::Actor(*number)),
    }
}

fn copy_name(alloc: Global, name: &Option<Text>) -> Result<Option<Text>, AllocError>
    ensures { IfOk result (λ made. made ≡ name.now) }
{
    match name {
        Some(name) => Ok(Some(name.copy(alloc)?)),
        None => Ok(None),
    }
}

fn copy_nodes(alloc: Global, nodes: &Targets) -> Result<Targets, AllocError>
    ensures { IfOk result (λ made. made ≡ nodes.now) }
{
    let mut copies = Vec::with_capacity(alloc, nodes.len())?;
    for node in nodes.as_slice() {
        copies.push(*node)?;
    }
    Ok(Targets::from_vec(copies))
}

fn copy_history(alloc: Global, history: &Recorded) -> Result<Recorded, AllocError>
    ensures { IfOk result (λ made. made ≡ history.now) }
{
    let mut copies = Vec::with_capacity(alloc, history.len())?;
    for (node, recorded) in history.as_slice() {
        copies.push((*node, copy_nodes(alloc, recorded)?))?;
    }
    Ok(Recorded::from_vec(copies))
}

fn copy_texts(alloc: Global, texts: &Texts) -> Result<Texts, AllocError>
    ensures { IfOk result (λ made. made ≡ texts.now) }
{
    let mut copies = Vec::with_capacity(alloc, texts.len())?;
    for text in texts.as_slice() {
        copies.push(text.copy(alloc)?)?;
    }
    Ok(Texts::from_vec(copies))
}

fn copy_kids(alloc: Global, kids: &Kids) -> Result<Kids, AllocError>
    ensures { IfOk result (λ made. made ≡ kids.now) }
{
    let mut copies = Vec::with_capacity(alloc, kids.len())?;
    for (id, number) in kids.as_slice() {
        copies.push((id.copy(alloc)?, *number))?;
    }
    Ok(Kids::from_vec(copies))
}

fn copy_letters(alloc: Global, letters: &Letters) -> Result<Letters, AllocError>
    ensures { IfOk result (λ made. made ≡ letters.now) }
{
    let mut copies = Vec::with_capacity(alloc, letters.len())?;
    for letter in letters.as_slice() {
        copies.push(copy_letter(alloc, letter)?)?;
    }
    Ok(Letters::from_vec(copies))
}
