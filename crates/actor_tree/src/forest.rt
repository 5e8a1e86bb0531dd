//! The actors of an office, with their mailboxes and lifetimes, and who of them is ready.

ghost use Rattle.std.specs.Prelude.{◌≡◌, ◌+◌, ◌≤◌, ℕ, [], IfOk, IsTrue, Some, sum_by};
ghost use Rattle.std.specs.Option.{option_copied, option_map};
ghost use Rattle.office_types.specs.declared.office.ActorRecord.{ActorRecord as record_type};
ghost use Rattle.office_types.specs.declared.outcome.Own.{Own as own_part};
ghost use Rattle.office_types.specs.Definitions.{AreLinked};
ghost use Rattle.office_types.specs.Entries.{head_of};
ghost use Rattle.office_types.specs.Observation.{own_of};
ghost use Rattle.office_types.specs.Outcomes.{IsAllowedOutcome};
ghost use Rattle.office_types.specs.Ready.{first_ready, next_ready};
ghost use Rattle.office_types.specs.Records.{actor_record, is_ready};
ghost use Rattle.office_types.specs.RequestLines.{IsRequest};
ghost use Rattle.office_types.specs.ValidOffice.{IsValidOffice};
ghost use Rattle.office_types.specs.WorkItems.{open_items};
ghost use Rattle.action_table.specs.Definitions.{office_definitions};
ghost use Rattle.actor_tree.specs.Forests.{FitsForest, IsPreparedAsk, IsStepChange, KeepsForest, put_change};
ghost use Rattle.actor_tree.specs.Parts.{CanPutAll, put};

use crate::asks::{AskRefused, ask_parts};
use crate::following::{heads_of, put_all, room_for};
use crate::heads::Heads;
use crate::held::Held;
use crate::laws::steps_are_entries;
use crate::making_room::make_room;
use crate::part::Parts;
use crate::step_parts::step_parts;
use action_table::Defs;
use office_types::laws::{decisions_keep_validity, steps_keep_validity};
use office_types::{Ask, Item, Letter, OfficeState, Outcome, Own, Reply, Status};
use std::alloc::{AllocError, Global};
use std::marker::Model;
use std::sync::Arc;
use xs_data::Text;

/// What a step or a request changes in a forest, with all memory for it.
#[derive(Debug, Drop)]
pub struct Change {
    parts: Parts,
}

/// The actors of an office.
#[derive(Drop)]
pub struct Forest {
    alloc: Global,
    defs: Arc<Defs>,
    held: Held,
    heads: Heads,
}

impl Model for Forest {
    ghost use Rattle.std.specs.Coded.{codes};
    ghost use Rattle.xs_model.specs.contracts.value.Value as value;
    ghost use Rattle.action_table.specs.contracts.definitions.Defs as defs_type;
    ghost use Rattle.action_table.specs.Definitions.{office_definitions};
    ghost use Rattle.actor_tree.specs.ForestOffice.{ForestOffice};

    ghost Value = { ForestOffice };

    ghost coded = { Prim.hlevel (codes, value.the_row.coded, defs_type.the_row.coded) };

    ghost use Rattle.actor_tree.specs.ForestInside.{IsForest};

    ghost view = { λ f. record {
      defs = f.defs.value;
      office = f.held.office;
      room = f.held.room;
      heads = f.heads.spare;
    } };

    ghost invariant = { λ f. IsForest (office_definitions f.defs.value) f.held.office f.heads.items };
}

impl Forest {
    /// The actors of an office; its callers and its count of entries aren't kept. It costs a copy of the
    /// office.
    pub fn new(alloc: Global, defs: Arc<Defs>, state: &OfficeState) -> Result<Forest, AllocError>
        requires linked { AreLinked (office_definitions defs.value) }
        requires valid { IsValidOffice (office_definitions defs.value) state.now }
        ensures defs { IfOk result (λ forest. forest.defs ≡ defs.value) }
        ensures office { IfOk result (λ forest. forest.office
            ≡ record state.now { callers = []; entries = 0 }) }
    {
        let held = Held::of(alloc, state)?;
        let heads = heads_of(alloc, state.actors.as_slice())?;
        Ok(Forest {
            alloc,
            defs,
            held,
            heads,
        })
    }

    /// A copy of the office, with no callers and no entries.
    pub fn state(&self) -> Result<OfficeState, AllocError>
        ensures { IfOk result (λ state. state ≡ self.now.office) }
    {
        self.held.to_state(self.alloc)
    }

    /// The definitions that it was made with.
    pub fn defs(&self) -> &Defs
        ensures { result.now ≡ self.now.defs }
    {
        &self.defs
    }

    /// Whether an actor is ready. It is found by halves.
    pub fn ready(&self, actor: u64) -> bool
        ensures { result ≡ is_ready self.now.office actor }
    {
        self.held.is_ready(actor)
    }

    /// The ready actor with the least head letter. One look.
    pub fn first_ready(&self) -> Option<u64>
        ensures { result ≡ first_ready self.now.office }
    {
        self.heads.first()
    }

    /// The ready actor with the least head letter of those that aren't busy, or else of all. It looks
    /// by halves for each that is busy.
    pub fn next(&self, busy: &[u64]) -> Option<u64>
        ensures { result ≡ next_ready self.now.office busy.now }
    {
        self.heads.first_but(busy)
    }

    /// The own part of a machine actor, found by halves.
    pub fn own(&self, actor: u64) -> Option<&Own>
        ensures { option_copied result ≡ own_of self.now.office actor }
    {
        self.held.own(actor)
    }

    /// The letter that an actor takes next, found by halves.
    pub fn head(&self, actor: u64) -> Option<&Letter>
        ensures { option_copied result ≡ head_of self.now.office actor }
    {
        self.held.head(actor)
    }

    /// What became of an actor; none without a record. It is found by halves.
    pub fn status(&self, actor: u64) -> Option<Status>
        ensures { result ≡ option_map (λ (actor : record_type). actor.status)
            (actor_record self.now.office actor) }
    {
        self.held.status(actor)
    }

    /// The open work items, by their numbers.
    pub fn items(&self) -> &[Item]
        ensures { result.now ≡ open_items self.now.office }
    {
        self.held.items()
    }

    /// Prepares the step of a ready actor with an outcome that the rules allow, and makes all room that
    /// it needs. It costs what the outcome is large, and what the step removes.
    pub fn prepare(&mut self, actor: u64, outcome: &Outcome) -> Result<Change, AllocError>
        requires ready { IsTrue (is_ready self.old.office actor) }
        requires allowed { (own : own_part) × (own_of self.old.office actor ≡ Some own)
            × IsAllowedOutcome (office_definitions self.old.defs) own outcome.now }
        ensures stays { KeepsForest self.old self.new }
        ensures ok { IfOk result (IsStepChange self.new actor outcome.now) }
    {
        steps_keep_validity();
        steps_are_entries();
        let parts = step_parts(self.alloc, &self.defs, &self.held, actor, outcome)?;
        self.make_room(parts)
    }

    /// Looks at what stands against a caller's request; if nothing does, prepares its change and makes all
    /// room that it needs. It costs what the request and its letters are large.
    pub fn prepare_ask(&mut self, caller: &Text, ask: &Ask) -> Result<(Reply, Change), AskRefused>
        requires asked { (number : ℕ) × IsRequest (record {
          caller = caller.now;
          number = number;
          ask = ask.now;
        }) }
        ensures stays { KeepsForest self.old self.new }
        ensures answer { IsPreparedAsk self.new caller.now ask.now result }
    {
        decisions_keep_validity();
        let (reply, parts) = ask_parts(self.alloc, &self.defs, &self.held, caller, ask)?;
        let change = self.make_room(parts)?;
        Ok((reply, change))
    }

    /// Makes the room that parts need.
    fn make_room(&mut self, parts: Parts) -> Result<Change, AllocError>
        requires fits { CanPutAll self.old.office parts }
        requires valid { IsValidOffice (office_definitions self.old.defs)
            (put self.old.office parts) }
        ensures stays { KeepsForest self.old self.new }
        ensures fits { IfOk result (FitsForest self.new) }
        ensures change { IfOk result
            (λ change. put_change self.new.office change ≡ put self.old.office parts) }
    {
        let parts = make_room(&mut self.held, self.alloc, parts)?;
        self.heads.reserve(self.alloc, room_for(parts.as_slice()))?;
        Ok(Change { parts })
    }

    /// Makes a change that fits. It takes no memory. Each part costs looks by halves, and what it removes.
    pub fn apply(&mut self, change: Change)
        requires { FitsForest self.old change }
        ensures defs { self.new.defs ≡ self.old.defs }
        ensures office { self.new.office ≡ put_change self.old.office change }
    {
        put_all(&mut self.held, &mut self.heads, change.parts);
    }
}
