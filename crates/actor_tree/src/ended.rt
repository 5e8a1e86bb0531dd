//! What an office will be after an actor's end, while its parent isn't told yet.

ghost use Rattle.std.specs.Prelude.{◌≡◌, true, IfOk, IfSome, IsSome, Some};
ghost use Rattle.office_types.specs.Ends.{child_id};
ghost use Rattle.office_types.specs.Mailboxes.{has_letter_room, with_letter};
ghost use Rattle.office_types.specs.Records.{actor_record, parent_actor};
ghost use Rattle.actor_tree.specs.Notes.{IsEnded};
ghost use Rattle.actor_tree.specs.Parts.{CanPutAll, put};

use crate::counts::Counts;
use crate::held::Held;
use crate::part::{Part, Parts};
use office_types::Origin;
use std::alloc::AllocError;
use std::marker::Model;
use xs_model::Value;

/// An office after the parts of an actor's step, the last of which ends the actor. What is left to do
/// is to tell its parent.
#[derive(Drop)]
pub(crate) struct Ended<'a> {
    held: &'a Held,
    actor: u64,
    parts: Vec<Part>,
    counts: Counts,
}

impl<'a> Model for Ended<'a> {
    ghost use Rattle.actor_tree.specs.Changes.{AheadOffice};
    ghost use Rattle.actor_tree.specs.Notes.{IsEnded};
    ghost use Rattle.actor_tree.specs.Parts.{put};
    ghost use Rattle.std.specs.Coded.{codes};
    ghost use Rattle.xs_model.specs.contracts.value.Value as value;

    ghost Value = { AheadOffice };

    ghost coded = { Prim.hlevel (codes, value.the_row.coded) };

    ghost view = { λ e. record {
      before = e.held.now.office;
      actor = e.actor;
      office = put e.held.now.office e.parts.items;
    } };

    ghost invariant = { λ e. IsEnded e.held.now.office e.actor e.parts.items e.counts };
}

impl<'a> Ended<'a> {
    /// The office after these parts.
    pub(crate) fn new(held: &'a Held, actor: u64, parts: Vec<Part>, counts: Counts) -> Ended<'a>
        requires { IsEnded held.now.office actor parts.items counts }
        ensures { result ≡ record {
          before = held.now.office;
          actor = actor;
          office = put held.now.office parts.items;
        } }
    {
        Ended {
            held,
            actor,
            parts,
            counts,
        }
    }

    /// The parts.
    pub(crate) fn into_parts(self) -> Parts
        ensures office { put self.entry.before result ≡ self.entry.office }
        ensures fits { CanPutAll self.entry.before result }
    {
        let Ended { parts, .. } = self;
        Parts::from_vec(parts)
    }

    /// The actor's parent.
    pub(crate) fn parent(&self) -> Option<u64>
        ensures { result ≡ parent_actor self.now.office self.now.actor }
    {
        self.held.parent(self.actor)
    }

    /// The id under which a parent has the actor.
    pub(crate) fn child_id(&self, parent: u64) -> &str
        requires { parent_actor self.now.office self.now.actor ≡ Some parent }
        ensures { result.now ≡ child_id self.now.office parent self.now.actor }
    {
        self.held.child_id(parent, self.actor)
    }

    /// Whether so many letters more find room, and numbers.
    pub(crate) fn has_letter_room(&self, more: u64) -> bool
        ensures { result ≡ has_letter_room self.now.office more }
    {
        self.counts.has_letter_room(more)
    }

    /// The parts, and behind them a letter that the actor writes.
    pub(crate) fn mail(self, receiver: u64, event: Value) -> Result<Parts, AllocError>
        requires room { has_letter_room self.office 1 ≡ true }
        ensures office { IfOk result (λ parts. put self.entry.before parts
            ≡ with_letter self.entry.office (Origin.Actor self.entry.actor) receiver event) }
        ensures fits { IfOk result (CanPutAll self.entry.before) }
    {
        let Ended {
            actor,
            mut parts,
            ..
        } = self;
        parts.push(Part::Mail {
            origin: Origin::Actor(actor),
            receiver,
            event,
        })?;
        Ok(Parts::from_vec(parts))
    }
}
