//! What an office will be after the parts of a step so far.

ghost use Rattle.std.specs.Prelude.{◌≡◌, ◌≤◌, ◌<◌, ℕ, List, Option, [], true, false, IfOk, IfSome, IsTrue, None, Some, filter, length, if◌then◌else◌};
ghost use Rattle.std.specs.Option.{option_copied, option_map_or};
ghost use Rattle.office_types.specs.Definitions.{OfficeDefinitions};
ghost use Rattle.office_types.specs.declared.office.ActorRecord.{ActorRecord};
ghost use Rattle.office_types.specs.declared.office.Timer.{Timer};
ghost use Rattle.office_types.specs.Timers.{beside, has_id, without_id};
ghost use Rattle.office_types.specs.Effects.{after_stop, child_named, has_actor_room, has_level_below, has_timer_room, is_name_held};
ghost use Rattle.office_types.specs.Ends.{after_end, child_id, done_record, error_record, subtree_of};
ghost use Rattle.office_types.specs.Mailboxes.{has_letter_room, without_head};
ghost use Rattle.office_types.specs.Observation.{own_of};
ghost use Rattle.office_types.specs.Receivers.{named_by, receiver_of};
ghost use Rattle.office_types.specs.Records.{actor_record, is_active, is_active_machine, is_ready, parent_actor};
ghost use Rattle.office_types.specs.SystemNames.{holder_of};
ghost use Rattle.office_types.specs.ValidOffice.{IsValidOffice};
ghost use Rattle.actor_tree.specs.Changes.{at_office, HasChildRoom, with_part};
ghost use Rattle.actor_tree.specs.Parts.{CanPutAll, IsBorn, put};

use crate::ended::Ended;
use crate::held::Held;
use crate::notes::Notes;
use crate::part::{Newcomer, Numbers, Part, Parts};
use office_types::{
    MAX_ACTIVE_ACTORS, MAX_MOMENT, MAX_NEXT_NUMBER, MAX_TIMERS, MAX_TREE_LEVELS, Origin, Own,
    Timer, To,
};
use std::alloc::{AllocError, Global};
use std::marker::Model;
use xs_data::Text;
use xs_model::Value;

/// An office after the parts of an actor's step so far. The office itself stays as it is: what the
/// parts change of it is noted beside them. No call copies a mailbox or a list of children. A call
/// that adds a part takes the steps so far and hands them back with it; for want of memory they are
/// lost.
#[derive(Drop)]
pub(crate) struct Ahead<'a> {
    held: &'a Held,
    actor: u64,
    parts: Vec<Part>,
    notes: Notes,
}

impl<'a> Model for Ahead<'a> {
    ghost use Rattle.actor_tree.specs.Changes.{AheadOffice};
    ghost use Rattle.actor_tree.specs.Notes.{IsAhead};
    ghost use Rattle.actor_tree.specs.Parts.{put};
    ghost use Rattle.std.specs.Coded.{codes};
    ghost use Rattle.xs_model.specs.contracts.value.Value as value;

    ghost Value = { AheadOffice };

    ghost coded = { Prim.hlevel (codes, value.the_row.coded) };

    ghost view = { λ a. record {
      before = a.held.now.office;
      actor = a.actor;
      office = put a.held.now.office a.parts.items;
    } };

    ghost invariant = { λ a. IsAhead a.held.now.office a.actor a.parts.items a.notes };
}

impl<'a> Ahead<'a> {
    /// The office after a ready actor took its head letter.
    pub(crate) fn begin(alloc: Global, held: &'a Held, actor: u64) -> Result<Ahead<'a>, AllocError>
        requires valid { (definitions : OfficeDefinitions)
            × IsValidOffice definitions held.now.office }
        requires ready { IsTrue (is_ready held.now.office actor) }
        ensures { IfOk result (λ ahead. ahead ≡ record {
          before = held.now.office;
          actor = actor;
          office = without_head held.now.office actor;
        }) }
    {
        let mut parts = Vec::new(alloc);
        parts.push(Part::TakeHead { actor })?;
        let notes = Notes::begin(alloc, held, actor);
        Ok(Ahead {
            held,
            actor,
            parts,
            notes,
        })
    }

    /// Whose step it is.
    pub(crate) fn actor(&self) -> u64
        ensures { result ≡ self.now.actor }
    {
        self.actor
    }

    /// No record has the number that the next actor gets.
    pub(crate) fn next_is_free(&self)
        ensures { actor_record self.now.office self.now.office.next_actor ≡ None }
    {
        let _next = self.notes.counts.next_actor;
    }

    /// The parts so far.
    pub(crate) fn into_parts(self) -> Parts
        ensures office { put self.entry.before result ≡ self.entry.office }
        ensures fits { CanPutAll self.entry.before result }
    {
        let Ahead { parts, .. } = self;
        Parts::from_vec(parts)
    }

    /// The office's moment, in milliseconds.
    pub(crate) fn moment(&self) -> u64
        ensures moment { result ≡ self.now.office.moment }
        ensures limit { result ≤ MAX_MOMENT }
    {
        self.notes.counts.moment
    }

    /// The number that the next actor gets.
    pub(crate) fn next_actor(&self) -> u64
        ensures { result ≡ self.now.office.next_actor }
    {
        self.notes.counts.next_actor
    }

    /// The number that the next letter gets.
    pub(crate) fn next_letter(&self) -> u64
        ensures { result ≡ self.now.office.next_letter }
    {
        self.notes.counts.next_letter
    }

    /// The number that the next timer gets.
    pub(crate) fn next_timer(&self) -> u64
        ensures { result ≡ self.now.office.next_timer }
    {
        self.notes.counts.next_timer
    }

    /// Where a send of the actor goes. It is found by halves; a child of before the step is looked for
    /// among all of them.
    pub(crate) fn receiver_of(&self, to: &To) -> Option<u64>
        ensures receiver { result ≡ receiver_of self.now.office self.now.actor to.now }
        ensures there { IfSome result (λ number. option_map_or is_active
            (actor_record self.now.office number) false ≡ true) }
    {
        let number = self.named(to)?;
        if self.notes.is_active_machine(self.held, number) {
            Some(number)
        } else {
            None
        }
    }

    /// Whom a target names.
    fn named(&self, to: &To) -> Option<u64>
        ensures { (found : ActorRecord)
            → actor_record self.now.office self.now.actor ≡ Some found
            → result ≡ named_by self.now.office found to.now }
    {
        match to {
            To::Own => Some(self.actor),
            To::Parent => self.parent(),
            To::Child(id) => self.child_named(id),
            To::System(name) => self.holder_of(name),
        }
    }

    /// The child of the actor with this id.
    fn child_named(&self, id: &Text) -> Option<u64>
        ensures child { result ≡ child_named self.now.office self.now.actor id.now }
        ensures later { IfSome result (λ child. self.now.actor < child) }
    {
        match self.notes.kids.get(id.as_str()) {
            Some(child) => *child,
            None => self.held.child_named(self.actor, id.as_bytes()),
        }
    }

    /// Who holds a name.
    fn holder_of(&self, name: &Text) -> Option<u64>
        ensures { result ≡ holder_of name.now self.now.office.names }
    {
        let before = self.notes.if_left(self.held.holder_of(name.as_bytes()));
        before.or(self.notes.names.held(name.as_bytes()))
    }

    /// The actor's parent.
    pub(crate) fn parent(&self) -> Option<u64>
        ensures parent { result ≡ parent_actor self.now.office self.now.actor }
        ensures there { IfSome result (λ number. option_map_or is_active
            (actor_record self.now.office number) false ≡ true) }
    {
        self.held.parent(self.actor)
    }

    /// The own part of the actor's parent, if it has this one.
    pub(crate) fn own_of_parent(&self, parent: u64) -> Option<&Own>
        requires { parent_actor self.now.office self.now.actor ≡ Some parent }
        ensures { option_copied result ≡ own_of self.now.office parent }
    {
        self.held.own(parent)
    }

    /// The id under which a parent has the actor.
    pub(crate) fn child_id(&self, parent: u64) -> &str
        requires { parent_actor self.now.office self.now.actor ≡ Some parent }
        ensures { result.now ≡ child_id self.now.office parent self.now.actor }
    {
        self.held.child_id(parent, self.actor)
    }

    /// Whether so many letters more find room, and numbers.
    pub(crate) fn has_letter_room(&self, more: u64) -> bool
        ensures { result ≡ has_letter_room self.now.office more }
    {
        self.notes.counts.has_letter_room(more)
    }

    /// Whether a timer of the actor with this id finds room, and a number.
    pub(crate) fn has_timer_room(&self, id: &Option<Text>) -> bool
        ensures { (timer : Timer) → timer.owner ≡ self.now.actor → timer.id ≡ id.now
            → result ≡ has_timer_room self.now.office timer }
    {
        self.timers_beside(id) < MAX_TIMERS && self.notes.counts.next_timer < MAX_NEXT_NUMBER
    }

    /// How many timers stay beside one of the actor with this id.
    fn timers_beside(&self, id: &Option<Text>) -> u64
        ensures { (timer : Timer) → timer.owner ≡ self.now.actor → timer.id ≡ id.now
            → result ≡ length (beside timer self.now.office.timers) }
    {
        match id {
            Some(id) => self.timers_but(id),
            None => self.notes.timers,
        }
    }

    /// How many timers stand but for the actor's one of this id.
    fn timers_but(&self, id: &Text) -> u64
        ensures { result ≡ length (without_id self.now.actor id.now self.now.office.timers) }
    {
        if self.has_timer(id) {
            self.notes.timers - 1
        } else {
            self.notes.timers
        }
    }

    /// Whether the actor has a timer of this id.
    fn has_timer(&self, id: &Text) -> bool
        ensures { (if result then 1 else 0)
            ≡ length (filter (has_id self.now.actor id.now) self.now.office.timers) }
    {
        match self.notes.timer_ids.get(id.as_str()) {
            Some(stands) => *stands,
            None => self.held.has_timer(self.actor, id.as_bytes()),
        }
    }

    /// Whether one active actor more finds room, and a number.
    pub(crate) fn has_actor_room(&self) -> bool
        ensures { result ≡ has_actor_room self.now.office }
    {
        self.notes.counts.active < MAX_ACTIVE_ACTORS
            && self.notes.counts.next_actor < MAX_NEXT_NUMBER
    }

    /// Whether one level more may stand below the actor.
    pub(crate) fn has_level_below(&self) -> bool
        ensures { result ≡ has_level_below self.now.office self.now.actor }
    {
        self.held.is_within_levels(MAX_TREE_LEVELS - 1, self.actor)
    }

    /// Whether somebody holds the name, if there is one.
    pub(crate) fn is_name_held(&self, system: &Option<Text>) -> bool
        ensures { result ≡ is_name_held self.now.office system.now }
    {
        match system {
            Some(name) => self.holder_of(name).is_some(),
            None => false,
        }
    }

    /// The actor gets another own part.
    pub(crate) fn own(self, own: Own) -> Result<Ahead<'a>, AllocError>
        ensures { IfOk result (λ ahead. ahead ≡ with_part self.entry (Part.Own self.entry.actor own)) }
    {
        let Ahead {
            held,
            actor,
            mut parts,
            notes,
        } = self;
        parts.push(Part::Own { actor, own })?;
        Ok(Ahead {
            held,
            actor,
            parts,
            notes,
        })
    }

    /// The actor writes a letter.
    pub(crate) fn mail(self, receiver: u64, event: Value) -> Result<Ahead<'a>, AllocError>
        requires receiver { option_map_or is_active (actor_record self.office receiver) false ≡ true }
        requires room { has_letter_room self.office 1 ≡ true }
        ensures { IfOk result (λ ahead. ahead ≡ with_part self.entry
            (Part.Mail (Origin.Actor self.entry.actor) receiver event)) }
    {
        let Ahead {
            held,
            actor,
            mut parts,
            mut notes,
        } = self;
        notes.add_letter(receiver)?;
        parts.push(Part::Mail {
            origin: Origin::Actor(actor),
            receiver,
            event,
        })?;
        Ok(Ahead {
            held,
            actor,
            parts,
            notes,
        })
    }

    /// The actor schedules a timer, which has the next number.
    pub(crate) fn schedule(self, alloc: Global, timer: Timer) -> Result<Ahead<'a>, AllocError>
        requires owner { timer.owner ≡ self.actor }
        requires number { timer.order ≡ self.office.next_timer }
        requires room { has_timer_room self.office timer ≡ true }
        ensures { IfOk result (λ ahead. ahead ≡ with_part self.entry (Part.Schedule timer)) }
    {
        let beside = self.timers_beside(&timer.id);
        let Ahead {
            held,
            actor,
            mut parts,
            mut notes,
        } = self;
        notes.add_timer(alloc, &timer.id, beside)?;
        parts.push(Part::Schedule(timer))?;
        Ok(Ahead {
            held,
            actor,
            parts,
            notes,
        })
    }

    /// The actor drops its timer of this id.
    pub(crate) fn cancel(self, alloc: Global, id: Text) -> Result<Ahead<'a>, AllocError>
        ensures { IfOk result (λ ahead. ahead ≡ with_part self.entry (Part.Cancel self.entry.actor id)) }
    {
        let stands = self.has_timer(&id);
        let Ahead {
            held,
            actor,
            mut parts,
            mut notes,
        } = self;
        notes.drop_timer(alloc, &id, stands)?;
        parts.push(Part::Cancel { owner: actor, id })?;
        Ok(Ahead {
            held,
            actor,
            parts,
            notes,
        })
    }

    /// The actor makes a child, which stands last among its children.
    pub(crate) fn spawn(
        self,
        alloc: Global,
        id: Text,
        child: Newcomer,
    ) -> Result<Ahead<'a>, AllocError>
        requires child { (letters : ℕ) × (system : Option (List ℕ))
            × IsBorn self.actor system letters child × HasChildRoom self letters system }
        requires item { IfSome child.item (λ item. item.actor ≡ self.office.next_actor) }
        ensures { IfOk result (λ ahead. ahead ≡ with_part
            (with_part self.entry (Part.Make child))
            (Part.Join self.entry.actor id self.entry.office.next_actor)) }
    {
        let number = self.notes.counts.next_actor;
        let first = self.child_named(&id).unwrap_or(number);
        let Ahead {
            held,
            actor,
            mut parts,
            mut notes,
        } = self;
        notes.make(alloc, &child)?;
        notes.set_kid(alloc, &id, Some(first))?;
        parts.push(Part::Make(child))?;
        parts.push(Part::Join {
            parent: actor,
            id,
            child: number,
        })?;
        Ok(Ahead {
            held,
            actor,
            parts,
            notes,
        })
    }

    /// The child of this id is removed with all below it. It costs what is removed.
    pub(crate) fn stop(self, alloc: Global, id: Text) -> Result<Ahead<'a>, AllocError>
        ensures { IfOk result (λ ahead. ahead
            ≡ at_office self.entry (after_stop self.entry.actor id self.entry.office)) }
    {
        let subtree = self.doomed(alloc, &id)?;
        let Ahead {
            held,
            actor,
            mut parts,
            mut notes,
        } = self;
        notes.drop_actors(held, actor, subtree.as_slice())?;
        notes.set_kid(alloc, &id, None)?;
        parts.push(Part::Stop {
            parent: actor,
            id,
            subtree,
        })?;
        Ok(Ahead {
            held,
            actor,
            parts,
            notes,
        })
    }

    /// The numbers of the child of this id and of all below it; none if there is no such child.
    fn doomed(&self, alloc: Global, id: &Text) -> Result<Numbers, AllocError>
        ensures { IfOk result (λ found. found ≡ option_map_or (subtree_of self.now.office)
            (child_named self.now.office self.now.actor id.now) []) }
    {
        match self.child_named(id) {
            Some(child) => self.subtree(alloc, child),
            None => Ok(Numbers::new(alloc)),
        }
    }

    /// The numbers of an actor, which is that of the step or newer, and of all below it. It costs what
    /// is found.
    fn subtree(&self, alloc: Global, number: u64) -> Result<Numbers, AllocError>
        requires { self.now.actor ≤ number }
        ensures { IfOk result (λ found. found ≡ subtree_of self.now.office number) }
    {
        let before = self.held.subtree(alloc, number)?;
        let mut found = Vec::new(alloc);
        self.notes
            .add_staying(number, before.as_slice(), &mut found)?;
        if number != self.actor {
            return Ok(Numbers::from_vec(found));
        }
        self.notes.add_made(self.held, number, &mut found)?;
        Ok(Numbers::from_vec(found))
    }

    /// The actor is done. It costs what ends with it.
    pub(crate) fn done(self, alloc: Global, output: Value) -> Result<Ended<'a>, AllocError>
        ensures { IfOk result (λ ended. ended
            ≡ at_office self.entry (after_end (done_record output) self.entry.actor self.entry.office)) }
    {
        let subtree = self.subtree(alloc, self.actor)?;
        let Ahead {
            held,
            actor,
            mut parts,
            mut notes,
        } = self;
        notes.drop_mailboxes(held, actor, subtree.as_slice())?;
        parts.push(Part::Done {
            actor,
            output,
            subtree,
        })?;
        Ok(Ended::new(held, actor, parts, notes.counts))
    }

    /// The actor ends in error. It costs what ends with it.
    pub(crate) fn fail(self, alloc: Global, error: Value) -> Result<Ended<'a>, AllocError>
        ensures { IfOk result (λ ended. ended
            ≡ at_office self.entry (after_end (error_record error) self.entry.actor self.entry.office)) }
    {
        let subtree = self.subtree(alloc, self.actor)?;
        let Ahead {
            held,
            actor,
            mut parts,
            mut notes,
        } = self;
        notes.drop_mailboxes(held, actor, subtree.as_slice())?;
        parts.push(Part::Fail {
            actor,
            error,
            subtree,
        })?;
        Ok(Ended::new(held, actor, parts, notes.counts))
    }
}
