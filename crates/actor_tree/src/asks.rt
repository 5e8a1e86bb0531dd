//! What a request makes of an office: the reply that refuses it, or the parts of its change.

ghost use Rattle.std.specs.Prelude.{◌≡◌, ◌∷◌, ◌++◌, [], false, IfOk, MatchOption, OnOk, filter, length, option_to_list};
ghost use Rattle.std.specs.List.{filter_map};
ghost use Rattle.std.specs.Option.{option_map, option_map_or, option_and_then};
ghost use Rattle.office_types.specs.declared.office.Timer.{Timer as timer};
ghost use Rattle.office_types.specs.Decisions.{actor_row, actors_row, closed_row, first_row, item_row, letters_row, machine_row, name_row, reply_with, reserved_row, stopped_row};
ghost use Rattle.office_types.specs.Ends.{child_id, letters_to_parent};
ghost use Rattle.office_types.specs.Events.{done_event, error_event, event_type, is_reserved};
ghost use Rattle.office_types.specs.Records.{is_active_machine, parent_actor};
ghost use Rattle.office_types.specs.SystemNames.{holder_of};
ghost use Rattle.office_types.specs.ValidOffice.{IsValidOffice};
ghost use Rattle.action_table.specs.Definitions.{office_definitions};
ghost use Rattle.actor_tree.specs.Asks.{IsAskAnswer, delivery};

use crate::events::{done_event, error_event, init_event};
use crate::held::Held;
use crate::newcomers::{copy_name, new_machine};
use crate::part::{Part, Parts};
use action_table::Defs;
use delay_queue::Due;
use office_types::{
    Ask, Letter, MAX_ACTIVE_ACTORS, MAX_LETTERS, Origin, Reply, Timer, Word, event_type,
    is_reserved,
};
use std::alloc::{AllocError, Global};
use xs_data::Text;
use xs_model::{Value, copy};

/// Why a request isn't granted.
#[derive(Debug, Drop)]
pub enum AskRefused {
    /// A row of the table of answers refuses it, with this reply.
    Row(Reply),
    /// Memory ran out, and nothing has changed.
    Memory,
}

impl From<AllocError> for AskRefused {
    ghost use Rattle.std.specs.Prelude.{◌≡◌};
    ghost use Rattle.actor_tree.specs.declared.asks.AskRefused.TheVariants.{Memory};

    ghost from_gives = { λ _ refused. refused ≡ Memory };

    fn from(_error: AllocError) -> AskRefused {
        AskRefused::Memory
    }
}

/// The reply that grants a request, and the parts of its change.
pub(crate) type Granted = Result<(Reply, Parts), AskRefused>;

/// Looks at what stands against a caller's request, row by row, and prepares its change if nothing
/// does. It costs what the request and its letters are large; `At` looks at the timers that are due.
pub(crate) fn ask_parts(
    alloc: Global,
    defs: &Defs,
    held: &Held,
    caller: &Text,
    ask: &Ask,
) -> Granted
    requires valid { IsValidOffice (office_definitions defs.now) held.now.office }
    ensures answer { IsAskAnswer (record {
      definitions = office_definitions defs.now;
      office = held.now.office;
      caller = caller.now;
      ask = ask.now;
    }) result }
{
    match ask {
        Ask::Start {
            machine,
            system,
            input,
        } => start(alloc, defs, held, caller, machine, system, input),
        Ask::Send { actor, event } => send(alloc, defs, held, caller, *actor, event),
        Ask::Resolve { item, output } => resolve(alloc, defs, held, caller, *item, output),
        Ask::Reject { item, error } => reject(alloc, defs, held, caller, *item, error),
        Ask::At { moment } => advance(alloc, defs, held, caller, *moment),
    }
}

/// An actor of a machine is made.
fn start(
    alloc: Global,
    defs: &Defs,
    held: &Held,
    caller: &Text,
    machine: &Text,
    system: &Option<Text>,
    input: &Value,
) -> Granted
    requires valid { IsValidOffice (office_definitions defs.now) held.now.office }
    ensures answer { IsAskAnswer (record {
      definitions = office_definitions defs.now;
      office = held.now.office;
      caller = caller.now;
      ask = Ask.Start machine.now system.now input.now;
    }) result }
{
    let Some(number) = defs.machine_named(machine.as_bytes()) else {
        return Err(AskRefused::Row(reply(404, Word::Machine, 0)));
    };
    granted_unless(start_refusal(held, system))?;
    let first = Letter {
        number: held.next_letter(),
        origin: Origin::Caller(caller.copy(alloc)?),
        event: init_event(alloc, copy(alloc, input)?)?,
    };
    let made = new_machine(alloc, number, None, copy_name(alloc, system)?, first)?;
    let granted = reply(201, Word::Actor, held.next_actor());
    Ok((granted, one_part(alloc, Part::Make(made))?))
}

/// A letter enters a mailbox.
fn send(
    alloc: Global,
    defs: &Defs,
    held: &Held,
    caller: &Text,
    actor: u64,
    event: &Value,
) -> Granted
    ensures answer { IsAskAnswer (record {
      definitions = office_definitions defs.now;
      office = held.now.office;
      caller = caller.now;
      ask = Ask.Send actor event.now;
    }) result }
{
    granted_unless(send_refusal(held, actor, event))?;
    let mail = Part::Mail {
        origin: Origin::Caller(caller.copy(alloc)?),
        receiver: actor,
        event: copy(alloc, event)?,
    };
    let granted = reply(202, Word::Letter, held.next_letter());
    Ok((granted, one_part(alloc, mail)?))
}

/// A work item is done.
fn resolve(
    alloc: Global,
    defs: &Defs,
    held: &Held,
    caller: &Text,
    item: u64,
    output: &Value,
) -> Granted
    requires valid { IsValidOffice (office_definitions defs.now) held.now.office }
    ensures answer { IsAskAnswer (record {
      definitions = office_definitions defs.now;
      office = held.now.office;
      caller = caller.now;
      ask = Ask.Resolve item output.now;
    }) result }
{
    granted_unless(end_refusal(held, item))?;
    let mail = done_mail(alloc, held, item, output)?;
    let done = Part::Done {
        actor: item,
        output: copy(alloc, output)?,
        subtree: held.subtree(alloc, item)?,
    };
    Ok((reply(200, Word::Item, item), and_mail(alloc, done, mail)?))
}

/// A work item ends in error.
fn reject(
    alloc: Global,
    defs: &Defs,
    held: &Held,
    caller: &Text,
    item: u64,
    error: &Value,
) -> Granted
    requires valid { IsValidOffice (office_definitions defs.now) held.now.office }
    ensures answer { IsAskAnswer (record {
      definitions = office_definitions defs.now;
      office = held.now.office;
      caller = caller.now;
      ask = Ask.Reject item error.now;
    }) result }
{
    granted_unless(end_refusal(held, item))?;
    let mail = error_mail(alloc, held, item, error)?;
    let failed = Part::Fail {
        actor: item,
        error: copy(alloc, error)?,
        subtree: held.subtree(alloc, item)?,
    };
    Ok((reply(200, Word::Item, item), and_mail(alloc, failed, mail)?))
}

/// The moment is set, and the timers that are due by then become letters.
fn advance(alloc: Global, defs: &Defs, held: &Held, caller: &Text, moment: u64) -> Granted
    requires valid { IsValidOffice (office_definitions defs.now) held.now.office }
    ensures answer { IsAskAnswer (record {
      definitions = office_definitions defs.now;
      office = held.now.office;
      caller = caller.now;
      ask = Ask.At moment;
    }) result }
{
    let last = held.moment();
    if moment < last {
        return Err(AskRefused::Row(reply(409, Word::Moment, last)));
    }
    let due = held.due(alloc, moment)?;
    granted_unless(letters_refusal(held, letters_among(held, &due)))?;
    let granted = reply(200, Word::Due, due.len() as u64);
    Ok((granted, deliveries(alloc, held, moment, due)?))
}

/// A reply.
fn reply(status: u16, word: Word, value: u64) -> Reply
    ensures { result ≡ reply_with status word value }
{
    Reply {
        status,
        word,
        value,
    }
}

/// Refuses where a row applies.
fn granted_unless(row: Option<Reply>) -> Result<(), AskRefused>
    ensures { MatchOption row (result ≡ Ok record {}) (λ reply. result ≡ Err (AskRefused.Row reply)) }
{
    match row {
        Some(reply) => Err(AskRefused::Row(reply)),
        None => Ok(()),
    }
}

/// What stands against a start of a machine that there is.
fn start_refusal(held: &Held, system: &Option<Text>) -> Option<Reply>
    ensures { result ≡ first_row (name_row held.now.office system.now
        ∷ actors_row held.now.office ∷ letters_row held.now.office 1 ∷ []) }
{
    if let Some(holder) = name_holder(held, system) {
        return Some(reply(409, Word::Name, holder));
    }
    if !held.has_actor_room() {
        return Some(reply(429, Word::Actors, MAX_ACTIVE_ACTORS));
    }
    letters_refusal(held, 1)
}

/// The actor that holds a name that is given.
fn name_holder(held: &Held, system: &Option<Text>) -> Option<u64>
    ensures { result
        ≡ option_and_then (λ name. holder_of name held.now.office.names) system.now }
{
    match system {
        Some(name) => held.holder_of(name.as_bytes()),
        None => None,
    }
}

/// What stands against a letter to an actor.
fn send_refusal(held: &Held, actor: u64, event: &Value) -> Option<Reply>
    ensures { result ≡ first_row (actor_row held.now.office actor
        ∷ stopped_row held.now.office actor ∷ reserved_row actor event.now
        ∷ letters_row held.now.office 1 ∷ []) }
{
    if !held.is_given(actor) {
        return Some(reply(404, Word::Actor, actor));
    }
    if !held.is_active_machine(actor) {
        return Some(reply(410, Word::Stopped, actor));
    }
    if is_made_by_office(event) {
        return Some(reply(422, Word::Reserved, actor));
    }
    letters_refusal(held, 1)
}

/// Whether an event's type is one of those that the office makes itself.
fn is_made_by_office(event: &Value) -> bool
    ensures { result ≡ option_map_or is_reserved (event_type event.now) false }
{
    match event_type(event) {
        Some(kind) => is_reserved(kind.as_bytes()),
        None => false,
    }
}

/// What stands against the end of a work item.
fn end_refusal(held: &Held, item: u64) -> Option<Reply>
    ensures { result ≡ first_row (item_row held.now.office item
        ∷ closed_row held.now.office item
        ∷ letters_row held.now.office (letters_to_parent held.now.office item) ∷ []) }
{
    if !held.is_given(item) {
        return Some(reply(404, Word::Item, item));
    }
    if !held.is_open_item(item) {
        return Some(reply(410, Word::Closed, item));
    }
    letters_refusal(held, held.letters_to_parent(item))
}

/// What stands against so many letters.
fn letters_refusal(held: &Held, letters: u64) -> Option<Reply>
    ensures { result ≡ letters_row held.now.office letters }
{
    if held.has_letter_room(letters) {
        None
    } else {
        Some(reply(429, Word::Letters, MAX_LETTERS))
    }
}

/// The letter that tells a work item's parent that it is done.
fn done_mail(
    alloc: Global,
    held: &Held,
    item: u64,
    output: &Value,
) -> Result<Option<Part>, AllocError>
    ensures { IfOk result (λ mail. mail ≡ option_map (λ parent. Part.Mail (Origin.Actor item) parent
        (done_event output.now (child_id held.now.office parent item)))
        (parent_actor held.now.office item)) }
{
    let Some(parent) = held.parent(item) else {
        return Ok(None);
    };
    let event = done_event(alloc, copy(alloc, output)?, held.child_id(parent, item))?;
    Ok(Some(Part::Mail {
        origin: Origin::Actor(item),
        receiver: parent,
        event,
    }))
}

/// The letter that tells a work item's parent that it ended in error.
fn error_mail(
    alloc: Global,
    held: &Held,
    item: u64,
    error: &Value,
) -> Result<Option<Part>, AllocError>
    ensures { IfOk result (λ mail. mail ≡ option_map (λ parent. Part.Mail (Origin.Actor item) parent
        (error_event error.now (child_id held.now.office parent item)))
        (parent_actor held.now.office item)) }
{
    let Some(parent) = held.parent(item) else {
        return Ok(None);
    };
    let event = error_event(alloc, copy(alloc, error)?, held.child_id(parent, item))?;
    Ok(Some(Part::Mail {
        origin: Origin::Actor(item),
        receiver: parent,
        event,
    }))
}

/// One part alone.
fn one_part(alloc: Global, part: Part) -> Result<Parts, AllocError>
    ensures { IfOk result (λ parts. parts ≡ part ∷ []) }
{
    and_mail(alloc, part, None)
}

/// A part, and a letter behind it if there is one.
fn and_mail(alloc: Global, part: Part, mail: Option<Part>) -> Result<Parts, AllocError>
    ensures { IfOk result (λ parts. parts ≡ part ∷ option_to_list mail) }
{
    let mut parts = Vec::with_capacity(alloc, 2)?;
    parts.push(part)?;
    if let Some(mail) = mail {
        parts.push(mail)?;
    }
    Ok(Parts::from_vec(parts))
}

/// How many of these timers become letters.
fn letters_among(held: &Held, due: &Due) -> u64
    ensures { result ≡ length (filter
        (λ (one : timer). is_active_machine held.now.office one.target) due.now) }
{
    due.as_slice()
        .iter()
        .filter(|timer| held.is_active_machine(timer.target))
        .count() as u64
}

/// The advance to a moment, and the letters that these timers become.
fn deliveries(alloc: Global, held: &Held, moment: u64, due: Due) -> Result<Parts, AllocError>
    ensures { IfOk result (λ parts. parts
        ≡ Part.Advance moment ∷ filter_map (delivery held.now.office) due) }
{
    let mut parts = Vec::with_capacity(alloc, due.len() + 1)?;
    parts.push(Part::Advance { moment })?;
    for timer in due.into_vec() {
        push_delivery(held, timer, &mut parts)?;
    }
    Ok(Parts::from_vec(parts))
}

/// Adds the letter that a timer becomes, if it becomes one.
fn push_delivery(held: &Held, timer: Timer, parts: &mut Vec<Part>) -> Result<(), AllocError>
    ensures { OnOk result (parts.new.items
        ≡ parts.old.items ++ option_to_list (delivery held.now.office timer)) }
{
    if held.is_active_machine(timer.target) {
        parts.push(Part::Mail {
            origin: Origin::Actor(timer.owner),
            receiver: timer.target,
            event: timer.event,
        })?;
    }
    Ok(())
}
