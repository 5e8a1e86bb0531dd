//! What a forest holds: the records of its actors, and what is found in them.

ghost use Rattle.std.specs.Prelude.{◌≡◌, ◌+◌, ◌<◌, ◌^◌, ℕ, List, [], ◌∷◌, true, false, IfOk, OnOk, length};
ghost use Rattle.std.specs.List.{All, list_any};
ghost use Rattle.std.specs.Option.{option_and_then, option_copied, option_map, option_map_or};
ghost use Rattle.office_types.specs.declared.office.ActorRecord.{ActorRecord as record_type};
ghost use Rattle.office_types.specs.Definitions.{OfficeDefinitions};
ghost use Rattle.office_types.specs.Effects.{after_cancel, after_stop, child_named, has_actor_room, is_within_levels, with_kid, with_timer, without_kid};
ghost use Rattle.office_types.specs.Ends.{after_end, child_id, letters_to_parent, subtree_of};
ghost use Rattle.office_types.specs.Entries.{head_of};
ghost use Rattle.office_types.specs.Mailboxes.{has_letter_room, waiting_letters, with_letter, without_head};
ghost use Rattle.office_types.specs.Observation.{own_of};
ghost use Rattle.office_types.specs.Records.{actor_record, active_actors, empty_office, is_active, is_active_machine, is_given, is_open_item, is_ready, parent_actor, with_actor};
ghost use Rattle.office_types.specs.Step.{with_own};
ghost use Rattle.office_types.specs.SystemNames.{holder_of};
ghost use Rattle.office_types.specs.Timers.{due_by, has_id};
ghost use Rattle.office_types.specs.ValidOffice.{IsValidOffice};
ghost use Rattle.office_types.specs.WorkItems.{open_items};
ghost use Rattle.actor_tree.specs.declared.part.Part.{Part};
ghost use Rattle.actor_tree.specs.Following.{head_number};
ghost use Rattle.actor_tree.specs.HeldOffice.{HasRoomAt, HasRoomOf, IsRoomBeside, letters_waiting_for, no_needs, times_among, timers_owned_by};
ghost use Rattle.actor_tree.specs.Kids.{and_numbers, kids_of};
ghost use Rattle.actor_tree.specs.Making.{HasRoomToMake, HasRoomToMakeAll, IsRoomAfterMaking};
ghost use Rattle.actor_tree.specs.Parts.{after_moment, CanBeMade, CanBeScheduled, CanPut, put_part, with_newcomer};
ghost use Rattle.actor_tree.specs.Removal.{ended_by, with_end, with_stopped, without_actor, without_actors};
ghost use Rattle.actor_tree.specs.Rooms.{HasRoomForAll, needs_of};
ghost use Rattle.actor_tree.specs.Tally.{tallied};

use crate::actor::Actor;
use crate::actors::{
    add_kid, add_letter, drop_head, end_actor, remove_kid, reserve_kids, reserve_letters, set_own,
    take_actor,
};
use crate::books::{add_timer, hold_name, open_new_item};
use crate::counts::Counts;
use crate::ending::Ending;
use crate::kids::{add_numbers, child_among, id_among};
use crate::part::{Newcomer, Numbers, Part};
use crate::records::{copy_names, read_records};
use crate::restore::{count_all, restore_actors, restore_items, restore_names, restore_timers};
use crate::tally::add_one;
use delay_queue::{Due, Timers};
use office_books::{Items, Registry, Slots};
use office_types::{
    Callers, Item, Letter, MAX_ACTIVE_ACTORS, MAX_LETTERS, MAX_NEXT_NUMBER, OfficeState, Origin,
    Own, Status, Timer,
};
use std::alloc::{AllocError, Global};
use std::collections::{BTreeMap, BTreeSet};
use std::marker::Model;
use xs_data::Text;
use xs_model::Value;

/// The actors of an office, with its names, open items and timers, and what they come to.
#[derive(Debug, Drop)]
pub(crate) struct Held {
    /// By their numbers.
    actors: Slots<Actor>,
    /// The names that are held.
    names: Registry,
    /// The items of the active actors.
    items: Items,
    timers: Timers,
    counts: Counts,
}

impl Model for Held {
    ghost use Rattle.actor_tree.specs.HeldOffice.{HeldOffice, IsHeld, office_with, room_with};
    ghost use Rattle.std.specs.Coded.{codes};
    ghost use Rattle.xs_model.specs.contracts.value.Value as value;

    ghost Value = { HeldOffice };

    ghost coded = { Prim.hlevel (codes, value.the_row.coded) };

    ghost view = { λ h. record {
      office = office_with h.actors.items h.names.names h.timers.timers h.counts;
      room = room_with h.actors h.names h.items h.timers;
    } };

    ghost invariant = { λ h.
        IsHeld h.actors.items
        (office_with h.actors.items h.names.names h.timers.timers h.counts) h.items.items h.counts };
}

impl Held {
    /// An office in which nothing has happened. It takes no memory.
    pub(crate) fn new(alloc: Global) -> Held
        ensures { result.office ≡ empty_office }
    {
        Held {
            actors: Slots::new(alloc),
            names: Registry::new(alloc),
            items: Items::new(alloc),
            timers: Timers::new(alloc),
            counts: Counts {
                moment: 0,
                next_actor: 1,
                next_letter: 1,
                next_timer: 1,
                active: 0,
                waiting: 0,
            },
        }
    }

    /// What a forest holds of an office: all but its callers and the count of its entries. It costs as
    /// much as the office is large.
    pub(crate) fn of(alloc: Global, state: &OfficeState) -> Result<Held, AllocError>
        requires valid { (definitions : OfficeDefinitions) × IsValidOffice definitions state.now }
        ensures { IfOk result
            (λ held. held.office ≡ record state.now { callers = []; entries = 0 }) }
    {
        let counted = count_all(state.actors.as_slice());
        Ok(Held {
            actors: restore_actors(alloc, state.actors.as_slice())?,
            names: restore_names(alloc, state.names.as_slice())?,
            items: restore_items(alloc, state.actors.as_slice())?,
            timers: restore_timers(alloc, state.timers.as_slice())?,
            counts: Counts {
                moment: state.moment,
                next_actor: state.next_actor,
                next_letter: state.next_letter,
                next_timer: state.next_timer,
                active: counted.active,
                waiting: counted.letters,
            },
        })
    }

    /// The office as plain records, with no callers and no entries. It costs as much as it is large.
    pub(crate) fn to_state(&self, alloc: Global) -> Result<OfficeState, AllocError>
        ensures { IfOk result (λ state. state ≡ self.now.office) }
    {
        Ok(OfficeState {
            actors: read_records(alloc, &self.actors)?,
            timers: self.timers.copies(alloc)?,
            names: copy_names(alloc, self.names.list())?,
            callers: Callers::new(alloc),
            moment: self.counts.moment,
            entries: 0,
            next_actor: self.counts.next_actor,
            next_letter: self.counts.next_letter,
            next_timer: self.counts.next_timer,
        })
    }

    /// The office's moment, in milliseconds.
    pub(crate) fn moment(&self) -> u64
        ensures { result ≡ self.now.office.moment }
    {
        self.counts.moment
    }

    /// The number that the next actor gets.
    pub(crate) fn next_actor(&self) -> u64
        ensures { result ≡ self.now.office.next_actor }
    {
        self.counts.next_actor
    }

    /// The number that the next letter gets.
    pub(crate) fn next_letter(&self) -> u64
        ensures { result ≡ self.now.office.next_letter }
    {
        self.counts.next_letter
    }

    /// The number that the next timer gets.
    pub(crate) fn next_timer(&self) -> u64
        ensures { result ≡ self.now.office.next_timer }
    {
        self.counts.next_timer
    }

    /// How many letters wait, in all mailboxes.
    pub(crate) fn waiting(&self) -> u64
        ensures { result ≡ waiting_letters self.now.office }
    {
        self.counts.waiting
    }

    /// How many actors are active.
    pub(crate) fn active(&self) -> u64
        ensures { result ≡ active_actors self.now.office }
    {
        self.counts.active
    }

    /// How many timers stand.
    pub(crate) fn timer_count(&self) -> u64
        ensures { result ≡ length self.now.office.timers }
    {
        self.timers.len()
    }

    /// Whether the number was given to an actor.
    pub(crate) fn is_given(&self, number: u64) -> bool
        ensures { result ≡ is_given self.now.office number }
    {
        0 < number && number < self.next_actor()
    }

    /// Whether so many letters more find room, and numbers.
    pub(crate) fn has_letter_room(&self, more: u64) -> bool
        ensures { result ≡ has_letter_room self.now.office more }
    {
        let waiting = self.waiting();
        let next = self.next_letter();
        waiting <= MAX_LETTERS
            && more <= MAX_LETTERS - waiting
            && next <= MAX_NEXT_NUMBER
            && more <= MAX_NEXT_NUMBER - next
    }

    /// Whether one active actor more finds room, and a number.
    pub(crate) fn has_actor_room(&self) -> bool
        ensures { result ≡ has_actor_room self.now.office }
    {
        self.active() < MAX_ACTIVE_ACTORS && self.next_actor() < MAX_NEXT_NUMBER
    }

    /// Whether the number is that of a machine actor that is active.
    pub(crate) fn is_active_machine(&self, number: u64) -> bool
        ensures { result ≡ is_active_machine self.now.office number }
    {
        match self.actors.find(number) {
            Some(actor) => actor.is_active() && actor.own.is_some(),
            None => false,
        }
    }

    /// Whether the number is that of a work item that is open.
    pub(crate) fn is_open_item(&self, number: u64) -> bool
        ensures { result ≡ is_open_item self.now.office number }
    {
        match self.actors.find(number) {
            Some(actor) => actor.is_active() && actor.item.is_some(),
            None => false,
        }
    }

    /// Whether an actor is active. One without a record isn't.
    pub(crate) fn is_active(&self, number: u64) -> bool
        ensures { result ≡ option_map_or is_active (actor_record self.now.office number) false }
    {
        match self.actors.find(number) {
            Some(actor) => actor.is_active(),
            None => false,
        }
    }

    /// The actor that holds a name.
    pub(crate) fn holder_of(&self, name: &[u8]) -> Option<u64>
        ensures { result ≡ holder_of name.now self.now.office.names }
    {
        self.names.held(name)
    }

    /// The parent of an actor.
    pub(crate) fn parent(&self, number: u64) -> Option<u64>
        ensures { result ≡ parent_actor self.now.office number }
    {
        self.actors.find(number)?.parent
    }

    /// How many letters tell an actor's parent something: one, if it has a parent.
    pub(crate) fn letters_to_parent(&self, number: u64) -> u64
        ensures { result ≡ letters_to_parent self.now.office number }
    {
        match self.parent(number) {
            Some(_) => 1,
            None => 0,
        }
    }

    /// The child of an actor with this id. It looks through the actor's children.
    pub(crate) fn child_named(&self, number: u64, id: &[u8]) -> Option<u64>
        ensures { result ≡ child_named self.now.office number id.now }
    {
        child_among(self.actors.find(number)?.kids.as_slice(), id)
    }

    /// The id under which an actor has a child; the empty one where it has no such child. It looks
    /// through the actor's children.
    pub(crate) fn child_id(&self, parent: u64, number: u64) -> &str
        ensures { result.now ≡ child_id self.now.office parent number }
    {
        match self.actors.find(parent) {
            Some(actor) => id_among(actor.kids.as_slice(), number),
            None => "",
        }
    }

    /// The own part of a machine actor.
    pub(crate) fn own(&self, number: u64) -> Option<&Own>
        ensures { option_copied result ≡ own_of self.now.office number }
    {
        self.actors.find(number)?.own.as_ref()
    }

    /// Whether an actor stands on one of the first levels of its tree.
    pub(crate) fn is_within_levels(&self, levels: u64, number: u64) -> bool
        ensures { result ≡ is_within_levels self.now.office levels number }
    {
        let mut left = levels;
        let mut actor = number;
        while left > 0 {
            let Some(parent) = self.parent(actor) else {
                return true;
            };
            left -= 1;
            actor = parent;
        }
        false
    }

    /// Whether an actor is ready.
    pub(crate) fn is_ready(&self, number: u64) -> bool
        ensures { result ≡ is_ready self.now.office number }
    {
        match self.actors.find(number) {
            Some(actor) => actor.is_ready(),
            None => false,
        }
    }

    /// The letter that an actor takes next.
    pub(crate) fn head(&self, number: u64) -> Option<&Letter>
        ensures { option_copied result ≡ head_of self.now.office number }
    {
        self.actors.find(number)?.head()
    }

    /// The number of the letter that an actor takes next, if it is ready.
    pub(crate) fn head_number(&self, number: u64) -> Option<u64>
        ensures { result ≡ option_and_then head_number (actor_record self.now.office number) }
    {
        self.actors.find(number)?.head_number()
    }

    /// What became of an actor; none without a record.
    pub(crate) fn status(&self, number: u64) -> Option<Status>
        ensures { result ≡ option_map (λ (actor : record_type). actor.status)
            (actor_record self.now.office number) }
    {
        match self.actors.find(number) {
            Some(actor) => Some(actor.status),
            None => None,
        }
    }

    /// The open work items, by their numbers.
    pub(crate) fn items(&self) -> &[Item]
        ensures { result.now ≡ open_items self.now.office }
    {
        self.items.list()
    }

    /// The number that the next actor gets, which is above all others.
    pub(crate) fn new_number(&self) -> u64
        ensures next { result ≡ self.now.office.next_actor }
        ensures newer { All (λ (actor : record_type). actor.number < result)
            self.now.office.actors }
    {
        self.counts.next_actor
    }

    /// How many letters wait for an actor.
    pub(crate) fn letters_of(&self, number: u64) -> u64
        ensures { result ≡ letters_waiting_for self.now.office number }
    {
        match self.actors.find(number) {
            Some(actor) => actor.mailbox.len() as u64,
            None => 0,
        }
    }

    /// Whether an actor has a timer of this id.
    pub(crate) fn has_timer(&self, owner: u64, id: &[u8]) -> bool
        ensures { result ≡ list_any (has_id owner id.now) self.now.office.timers }
    {
        self.timers.has_id(owner, id)
    }

    /// Copies of the timers that are due at a moment, in the order of due, and then of number.
    pub(crate) fn due(&self, alloc: Global, moment: u64) -> Result<Due, AllocError>
        ensures { IfOk result (λ due. due ≡ due_by moment self.now.office.timers) }
    {
        self.timers.due(alloc, moment)
    }

    /// How many timers an actor has. It is found by halves.
    pub(crate) fn timers_of(&self, owner: u64) -> u64
        ensures { result ≡ timers_owned_by owner self.now.office.timers }
    {
        self.timers.count_of(owner)
    }

    /// The numbers of an actor and of all below it, in their order. It costs what it finds: each number
    /// is found by halves, and put in its place among those that wait to be looked at.
    pub(crate) fn subtree(&self, alloc: Global, number: u64) -> Result<Numbers, AllocError>
        requires valid { (definitions : OfficeDefinitions)
            × IsValidOffice definitions self.now.office }
        ensures { IfOk result (λ found. found ≡ subtree_of self.now.office number) }
    {
        let mut found = Vec::new(alloc);
        let mut pending = BTreeSet::new(alloc);
        pending.insert(number)?;
        while let Some(actor) = pending.pop_first() {
            found.push(actor)?;
            self.add_children(actor, &mut pending)?;
        }
        Ok(Numbers::from_vec(found))
    }

    /// Puts the numbers of an actor's children among others.
    fn add_children(&self, number: u64, numbers: &mut BTreeSet<u64>) -> Result<(), AllocError>
        ensures { OnOk result
            (numbers.new.keys ≡ and_numbers numbers.old.keys (kids_of self.now.office number)) }
    {
        match self.actors.find(number) {
            Some(actor) => add_numbers(actor.kids.as_slice(), numbers),
            None => Ok(()),
        }
    }

    /// Schedules a timer that has the next number, where there is room. Its places are found by halves,
    /// and the numbers (8 bytes each) after them move.
    pub(crate) fn schedule(&mut self, timer: Timer)
        requires fits { CanBeScheduled self.old.office timer }
        requires room { 0 < self.old.room.timers }
        ensures office { self.new.office ≡ with_timer self.old.office timer }
        ensures room { IsRoomBeside (record no_needs { timers = 1 }) self.old.room self.new.room }
    {
        add_timer(&mut self.timers, timer);
        self.counts.next_timer += 1;
    }

    /// Drops an owner's timer of an id, if there is one.
    pub(crate) fn cancel(&mut self, owner: u64, id: &[u8])
        ensures office { self.new.office ≡ after_cancel owner id.now self.old.office }
        ensures room { IsRoomBeside no_needs self.old.room self.new.room }
    {
        self.timers.cancel(owner, id);
    }

    /// Sets the moment, and takes out the timers that are due by then.
    pub(crate) fn advance(&mut self, moment: u64)
        ensures office { self.new.office ≡ after_moment moment self.old.office }
        ensures room { IsRoomBeside no_needs self.old.room self.new.room }
    {
        self.counts.moment = moment;
        self.timers.take_due(moment);
    }

    /// Puts an own part in the place of an actor's.
    pub(crate) fn set_own(&mut self, actor: u64, own: Own)
        ensures office { self.new.office ≡ with_own actor own self.old.office }
        ensures room { IsRoomBeside no_needs self.old.room self.new.room }
    {
        set_own(&mut self.actors, actor, own);
    }

    /// Takes the head letter out of an actor's mailbox, if a letter waits there.
    pub(crate) fn take_head(&mut self, actor: u64)
        ensures office { self.new.office ≡ without_head self.old.office actor }
        ensures room { IsRoomBeside no_needs self.old.room self.new.room }
    {
        let taken = drop_head(&mut self.actors, actor);
        self.counts.waiting -= taken;
    }

    /// Puts a letter of the next number at the end of an actor's mailbox, where there is room. Where
    /// there is no such actor the number alone is used up.
    pub(crate) fn mail(&mut self, origin: Origin, receiver: u64, event: Value)
        requires fits { has_letter_room self.old.office 1 ≡ true }
        requires room { HasRoomAt receiver self.old.room.letters }
        ensures office { self.new.office ≡ with_letter self.old.office origin receiver event }
        ensures room { IsRoomBeside (record no_needs { receivers = receiver ∷ [] })
            self.old.room self.new.room }
    {
        let letter = Letter {
            number: self.counts.next_letter,
            origin,
            event,
        };
        let entered = add_letter(&mut self.actors, receiver, letter);
        self.counts.waiting += entered;
        self.counts.next_letter += 1;
    }

    /// Makes an actor with the next number, where there is room.
    pub(crate) fn make(&mut self, newcomer: Newcomer)
        requires fits { CanBeMade self.old.office newcomer }
        requires room { HasRoomToMake self.old.room }
        ensures office { self.new.office ≡ with_newcomer self.old.office newcomer }
        ensures room { IsRoomAfterMaking self.old.office.next_actor newcomer.actor
            self.old.room self.new.room }
    {
        let Newcomer { actor, name, item } = newcomer;
        let number = self.counts.next_actor;
        let letters = actor.mailbox.len() as u64;
        hold_name(&mut self.names, name, number);
        open_new_item(&mut self.items, item);
        self.actors.push(number, actor);
        self.counts.next_actor += 1;
        self.counts.next_letter += letters;
        self.counts.waiting += letters;
        self.counts.active += 1;
    }

    /// Puts a child last among its parent's, where there is room, if the parent is there.
    pub(crate) fn join(&mut self, parent: u64, id: Text, child: u64)
        requires room { HasRoomAt parent self.old.room.kids }
        ensures office { self.new.office ≡ with_actor self.old.office parent (with_kid id child) }
        ensures room { IsRoomBeside (record no_needs { parents = parent ∷ [] })
            self.old.room self.new.room }
    {
        add_kid(&mut self.actors, parent, id, child);
    }

    /// Removes the child of this id with all below it, by their numbers. It costs what `remove` costs
    /// for each of them.
    pub(crate) fn stop(&mut self, parent: u64, id: &[u8], subtree: &[u64])
        requires { subtree.now
            ≡ option_map_or (subtree_of self.old.office) (child_named self.old.office parent id.now) [] }
        ensures office { self.new.office ≡ after_stop parent id.now self.old.office }
        ensures room { IsRoomBeside no_needs self.old.room self.new.room }
    {
        if self.child_named(parent, id).is_none() {
            return;
        }
        self.remove_all(subtree);
        self.forget_child(parent, id);
    }

    /// Takes the child of an id out of its parent's. It looks through the parent's children.
    fn forget_child(&mut self, parent: u64, id: &[u8])
        ensures office { self.new.office ≡ with_actor self.old.office parent (without_kid id.now) }
        ensures room { IsRoomBeside no_needs self.old.room self.new.room }
    {
        remove_kid(&mut self.actors, parent, id);
    }

    /// An actor ends, and all below it stop, by their numbers. It costs what `end_one` costs for each
    /// of them.
    pub(crate) fn end(&mut self, actor: u64, ending: Ending, subtree: &[u64])
        requires { subtree.now ≡ subtree_of self.old.office actor }
        ensures office { self.new.office ≡ after_end (ended_by ending) actor self.old.office }
        ensures room { IsRoomBeside no_needs self.old.room self.new.room }
    {
        self.end_one(actor, ending);
        self.stop_all(subtree);
    }

    /// Makes room for so many actors more, each with a name and an item, and for so many timers.
    pub(crate) fn reserve(&mut self, actors: u64, timers: u64) -> Result<(), AllocError>
        ensures office { self.new.office ≡ self.old.office }
        ensures keeps_room { IsRoomBeside no_needs self.old.room self.new.room }
        ensures room { OnOk result (HasRoomToMakeAll actors timers self.new.room) }
    {
        self.names.reserve(actors)?;
        self.items.reserve(actors)?;
        self.timers.reserve(timers)?;
        self.actors.reserve(actors as usize)
    }

    /// Makes room for so many letters more of an actor, if it is there.
    pub(crate) fn reserve_letters(&mut self, receiver: u64, more: u64) -> Result<(), AllocError>
        ensures office { self.new.office ≡ self.old.office }
        ensures keeps_room { IsRoomBeside no_needs self.old.room self.new.room }
        ensures room { OnOk result (HasRoomOf more receiver self.new.room.letters) }
    {
        reserve_letters(&mut self.actors, receiver, more as usize)
    }

    /// Makes room for so many children more of an actor, if it is there.
    pub(crate) fn reserve_kids(&mut self, parent: u64, more: u64) -> Result<(), AllocError>
        ensures office { self.new.office ≡ self.old.office }
        ensures keeps_room { IsRoomBeside no_needs self.old.room self.new.room }
        ensures room { OnOk result (HasRoomOf more parent self.new.room.kids) }
    {
        reserve_kids(&mut self.actors, parent, more as usize)
    }

    /// Makes room for the letter that a part brings, if it brings one, besides those that were counted before.
    pub(crate) fn make_letter_room(
        &mut self,
        part: &Part,
        letters: &mut BTreeMap<u64, u64>,
    ) -> Result<(), AllocError>
        requires few { (number : ℕ) → tallied letters.old number < 2 ^ 63 }
        ensures office { self.new.office ≡ self.old.office }
        ensures keeps_room { IsRoomBeside no_needs self.old.room self.new.room }
        ensures tally { OnOk result ((number : ℕ) → tallied letters.new number
            ≡ tallied letters.old number + times_among number (needs_of part.now).receivers) }
        ensures room { OnOk result ((number : ℕ)
            → HasRoomOf (tallied letters.old number) number self.old.room.letters
            → HasRoomOf (tallied letters.new number) number self.new.room.letters) }
    {
        let Part::Mail { receiver, .. } = part else {
            return Ok(());
        };
        let count = add_one(letters, *receiver)?;
        self.reserve_letters(*receiver, count)
    }

    /// Makes room for the child that a part brings, if it brings one, besides those that were counted before.
    pub(crate) fn make_kid_room(
        &mut self,
        part: &Part,
        kids: &mut BTreeMap<u64, u64>,
    ) -> Result<(), AllocError>
        requires few { (number : ℕ) → tallied kids.old number < 2 ^ 63 }
        ensures office { self.new.office ≡ self.old.office }
        ensures keeps_room { IsRoomBeside no_needs self.old.room self.new.room }
        ensures tally { OnOk result ((number : ℕ) → tallied kids.new number
            ≡ tallied kids.old number + times_among number (needs_of part.now).parents) }
        ensures room { OnOk result ((number : ℕ)
            → HasRoomOf (tallied kids.old number) number self.old.room.kids
            → HasRoomOf (tallied kids.new number) number self.new.room.kids) }
    {
        let Part::Join { parent, .. } = part else {
            return Ok(());
        };
        let count = add_one(kids, *parent)?;
        self.reserve_kids(*parent, count)
    }

    /// Makes one part of a change happen, where there is room. It takes no memory.
    pub(crate) fn put(&mut self, part: Part)
        requires fits { CanPut self.old.office part }
        requires room { (later : List Part) × HasRoomForAll self.old (part ∷ later) }
        ensures office { self.new.office ≡ put_part self.old.office part }
        ensures room { (later : List Part) → HasRoomForAll self.old (part ∷ later)
            → HasRoomForAll self.new later }
    {
        match part {
            Part::TakeHead { actor } => self.take_head(actor),
            Part::Own { actor, own } => self.set_own(actor, own),
            Part::Mail {
                origin,
                receiver,
                event,
            } => self.mail(origin, receiver, event),
            Part::Schedule(timer) => self.schedule(timer),
            Part::Cancel { owner, id } => self.cancel(owner, id.as_bytes()),
            Part::Make(newcomer) => self.make(newcomer),
            Part::Join { parent, id, child } => self.join(parent, id, child),
            Part::Stop {
                parent,
                id,
                subtree,
            } => self.stop(parent, id.as_bytes(), subtree.as_slice()),
            Part::Done {
                actor,
                output,
                subtree,
            } => self.end(actor, Ending::Done(output), subtree.as_slice()),
            Part::Fail {
                actor,
                error,
                subtree,
            } => self.end(actor, Ending::Error(error), subtree.as_slice()),
            Part::Advance { moment } => self.advance(moment),
        }
    }

    /// Removes actors, one after the other.
    fn remove_all(&mut self, numbers: &[u64])
        ensures office { self.new.office ≡ without_actors self.old.office numbers.now }
        ensures room { IsRoomBeside no_needs self.old.room self.new.room }
    {
        for number in numbers {
            self.remove(*number);
        }
    }

    /// Stops actors that are active, one after the other.
    fn stop_all(&mut self, numbers: &[u64])
        ensures office { self.new.office ≡ with_stopped self.old.office numbers.now }
        ensures room { IsRoomBeside no_needs self.old.room self.new.room }
    {
        for number in numbers {
            self.end_one(*number, Ending::Stopped);
        }
    }

    /// Removes an actor with its letters, its item, its name and its timers. Each is found by halves;
    /// names, items and numbers of timers that stand after them move.
    fn remove(&mut self, number: u64)
        ensures office { self.new.office ≡ without_actor self.old.office number }
        ensures room { IsRoomBeside no_needs self.old.room self.new.room }
    {
        let gone = take_actor(&mut self.actors, number);
        self.counts.active -= gone.active;
        self.counts.waiting -= gone.letters;
        let _ = self.items.close(number);
        self.names.free(number);
        self.timers.drop_of(number);
    }

    /// Ends an actor, and takes its letters, its item, its name and its timers, at the same cost.
    fn end_one(&mut self, number: u64, ending: Ending)
        ensures office { self.new.office ≡ with_end ending self.old.office number }
        ensures room { IsRoomBeside no_needs self.old.room self.new.room }
    {
        let gone = end_actor(&mut self.actors, number, ending);
        self.counts.active -= gone.active;
        self.counts.waiting -= gone.letters;
        let _ = self.items.close(number);
        self.names.free(number);
        self.timers.drop_of(number);
    }
}
