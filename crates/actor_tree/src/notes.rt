//! What a step notes of the office as it goes on, beside the office as it is.

ghost use Rattle.std.specs.Prelude.{◌≡◌, ◌≢◌, ◌+◌, ◌-◌, ◌<◌, ◌≤◌, ◌^◌, ◌||◌, ◌++◌, ◌∷◌, [], ℕ, List, None, Some, false, true, not, All, IfSome, IsTrue, OnOk, fold, length, if◌then◌else◌};
ghost use Rattle.std.specs.BTreeMap.{get_by_text};
ghost use Rattle.std.specs.List.{AllByRecursion};
ghost use Rattle.std.specs.Str.{bytes_eq};
ghost use Rattle.std.specs.Option.{option_and_then, option_map_or};
ghost use Rattle.office_types.specs.declared.office.ActorRecord.{ActorRecord};
ghost use Rattle.office_types.specs.declared.office.OfficeState.{OfficeState};
ghost use Rattle.office_types.specs.Definitions.{OfficeDefinitions};
ghost use Rattle.office_types.specs.Mailboxes.{without_head};
ghost use Rattle.office_types.specs.SystemNames.{holder_of};
ghost use Rattle.office_types.specs.ValidOffice.{IsValidOffice};
ghost use Rattle.office_types.specs.Ends.{is_among};
ghost use Rattle.office_types.specs.Records.{actor_record, is_active, is_active_machine, is_ready};
ghost use Rattle.actor_tree.specs.Books.{and_holder};
ghost use Rattle.actor_tree.specs.HeldOffice.{timers_owned_by};
ghost use Rattle.actor_tree.specs.Noted.{AreGone, is_gone_too, letters_at, numbers_from, staying, without_actor, without_record};
ghost use Rattle.actor_tree.specs.Notes.{AreLettersNoted, AreNoted, HasRoomToNote, IsCancelNoted, IsKidNoted, IsMailNoted, IsMakeNoted, IsTimerNoted, noted};

use crate::counts::Counts;
use crate::held::Held;
use crate::part::Newcomer;
use office_books::Registry;
use office_types::{MAX_NEXT_NUMBER, MAX_TIMERS};
use std::alloc::{AllocError, Global};
use std::collections::{BTreeMap, BTreeSet};
use xs_data::{Items, Text};

/// What a step notes of the office as it goes on. No mailbox and no list of children is copied.
#[derive(Drop)]
pub(crate) struct Notes {
    /// The numbers of those that were removed.
    pub gone: BTreeSet<u64>,
    /// Of each actor that was made, whether it is a machine actor. They have the next numbers.
    pub machines: Items<bool>,
    /// The children of the step's actor whose ids were given or dropped, by these ids.
    pub kids: BTreeMap<String, Option<u64>>,
    /// Whether a timer of the step's actor stands, where one of the id was scheduled or dropped.
    pub timer_ids: BTreeMap<String, bool>,
    /// The names of those that were made.
    pub names: Registry,
    /// How many letters were sent to whom.
    pub sent: BTreeMap<u64, u64>,
    pub counts: Counts,
    /// How many timers stand.
    pub timers: u64,
}

impl Notes {
    /// The notes of a step whose actor has taken its head letter, and done nothing else yet.
    pub(crate) fn begin(alloc: Global, held: &Held, actor: u64) -> Notes
        requires valid { (definitions : OfficeDefinitions)
            × IsValidOffice definitions held.now.office }
        requires ready { IsTrue (is_ready held.now.office actor) }
        ensures noted { AreNoted held.now.office actor result
            (without_head held.now.office actor) }
        ensures gone { AreGone held.now.office actor (noted result) }
    {
        Notes {
            gone: BTreeSet::new(alloc),
            machines: Items::new(alloc),
            kids: BTreeMap::new(alloc),
            timer_ids: BTreeMap::new(alloc),
            names: Registry::new(alloc),
            sent: BTreeMap::new(alloc),
            counts: Counts {
                moment: held.moment(),
                next_actor: held.next_actor(),
                next_letter: held.next_letter(),
                next_timer: held.next_timer(),
                active: held.active(),
                waiting: held.waiting() - 1,
            },
            timers: held.timer_count(),
        }
    }

    /// Whether an actor is active. It is found by halves.
    pub(crate) fn is_active(&self, held: &Held, number: u64) -> bool
        ensures { (actor : ℕ) (office : OfficeState)
            → AreNoted held.now.office actor self.now office
            → result ≡ option_map_or is_active (actor_record office number) false }
    {
        if self.gone.contains(&number) {
            return false;
        }
        if number < held.next_actor() {
            return held.is_active(number);
        }
        number < self.counts.next_actor
    }

    /// Whether the number is that of a machine actor that is active. It is found by halves.
    pub(crate) fn is_active_machine(&self, held: &Held, number: u64) -> bool
        ensures { (actor : ℕ) (office : OfficeState)
            → AreNoted held.now.office actor self.now office
            → result ≡ is_active_machine office number }
    {
        if self.gone.contains(&number) {
            return false;
        }
        let first = held.next_actor();
        if number < first {
            return held.is_active_machine(number);
        }
        match self.machines.get((number - first) as usize) {
            Some(machine) => *machine,
            None => false,
        }
    }

    /// The number, unless it is that of one who was removed.
    pub(crate) fn if_left(&self, number: Option<u64>) -> Option<u64>
        ensures { result ≡ option_and_then
            (λ one. if not ((noted self.now).gone one) then Some one else None) number }
    {
        let number = number?;
        if self.gone.contains(&number) {
            None
        } else {
            Some(number)
        }
    }

    /// How many letters wait for an actor. It is found by halves.
    fn letters_of(&self, held: &Held, actor: u64, number: u64) -> u64
        requires { (actors : List ActorRecord)
            × AreLettersNoted held.now.office actor self.now actors }
        ensures { (actors : List ActorRecord) → AreLettersNoted held.now.office actor self.now actors
            → result ≡ letters_at actors number }
    {
        if self.gone.contains(&number) {
            return 0;
        }
        let before = held.letters_of(number);
        let left = if number == actor { before - 1 } else { before };
        left + self.letters_sent(number)
    }

    /// How many letters were sent to an actor.
    fn letters_sent(&self, number: u64) -> u64
        ensures { result ≡ (noted self.now).sent number }
    {
        match self.sent.get(&number) {
            Some(sent) => *sent,
            None => 0,
        }
    }

    /// Notes a letter to an active actor.
    pub(crate) fn add_letter(&mut self, receiver: u64) -> Result<(), AllocError>
        requires few { (noted self.old).sent receiver ≤ self.old.counts.next_letter }
        requires room { self.old.counts.next_letter + 1 < 2 ^ 64 }
        requires waiting { self.old.counts.waiting + 1 < 2 ^ 64 }
        ensures { OnOk result (IsMailNoted receiver self.old self.new) }
    {
        let sent = self.letters_sent(receiver);
        self.sent.insert(receiver, sent + 1)?;
        self.counts.waiting += 1;
        self.counts.next_letter += 1;
        Ok(())
    }

    /// Notes that an actor's mailbox is no more.
    fn drop_mailbox(&mut self, held: &Held, actor: u64, number: u64) -> Result<(), AllocError>
        requires { (actors : List ActorRecord)
            × AreLettersNoted held.now.office actor self.old actors }
        ensures noted { OnOk result ((actors : List ActorRecord)
            → AreLettersNoted held.now.office actor self.old actors
            → AreLettersNoted held.now.office actor self.new (without_record number actors)) }
        ensures gone { OnOk result ((other : ℕ) → (noted self.new).gone other
            ≡ is_gone_too (noted self.old).gone number other) }
        ensures rest { OnOk result (self.new ≡ record self.old {
          gone = self.new.gone;
          counts = record self.old.counts { waiting = self.new.counts.waiting };
        }) }
    {
        let letters = self.letters_of(held, actor, number);
        self.gone.insert(number)?;
        self.counts.waiting -= letters;
        Ok(())
    }

    /// Notes that the mailboxes of these are no more.
    pub(crate) fn drop_mailboxes(
        &mut self,
        held: &Held,
        actor: u64,
        numbers: &[u64],
    ) -> Result<(), AllocError>
        requires { (actors : List ActorRecord)
            × AreLettersNoted held.now.office actor self.old actors }
        ensures noted { OnOk result ((actors : List ActorRecord)
            → AreLettersNoted held.now.office actor self.old actors
            → AreLettersNoted held.now.office actor self.new
            (fold (λ others number. without_record number others) actors numbers.now)) }
        ensures next { OnOk result (self.new.counts
            ≡ record self.old.counts { waiting = self.new.counts.waiting }) }
    {
        for number in numbers {
            self.drop_mailbox(held, actor, *number)?;
        }
        Ok(())
    }

    /// Notes that an actor is removed, with its letters, timers and name. To remove those below it is
    /// left to the caller.
    fn drop_actor(&mut self, held: &Held, actor: u64, number: u64) -> Result<(), AllocError>
        requires after { actor < number }
        requires noted { (office : OfficeState) × AreNoted held.now.office actor self.old office }
        ensures noted { OnOk result ((office : OfficeState)
            → AreNoted held.now.office actor self.old office
            → AreNoted held.now.office actor self.new (without_actor office number)) }
        ensures gone { OnOk result ((other : ℕ) → (noted self.new).gone other
            ≡ is_gone_too (noted self.old).gone number other) }
        ensures machines { OnOk result (self.new.machines ≡ self.old.machines) }
    {
        let letters = self.letters_of(held, actor, number);
        let active = self.count_active(held, number);
        let timers = self.timers_of(held, number);
        self.gone.insert(number)?;
        self.names.free(number);
        self.counts.waiting -= letters;
        self.counts.active -= active;
        self.timers -= timers;
        Ok(())
    }

    /// One for an active actor, and none for another one.
    fn count_active(&self, held: &Held, number: u64) -> u64
        ensures { (actor : ℕ) (office : OfficeState)
            → AreNoted held.now.office actor self.now office → result
            ≡ (if option_map_or is_active (actor_record office number) false then 1 else 0) }
    {
        if self.is_active(held, number) { 1 } else { 0 }
    }

    /// How many timers another actor than that of the step has.
    fn timers_of(&self, held: &Held, number: u64) -> u64
        ensures { (actor : ℕ) (office : OfficeState) → number ≢ actor
            → AreNoted held.now.office actor self.now office
            → result ≡ timers_owned_by number office.timers }
    {
        if self.gone.contains(&number) {
            0
        } else {
            held.timers_of(number)
        }
    }

    /// Notes that these are removed.
    pub(crate) fn drop_actors(
        &mut self,
        held: &Held,
        actor: u64,
        numbers: &[u64],
    ) -> Result<(), AllocError>
        requires after { AllByRecursion (λ (number : ℕ). actor < number) numbers.now }
        requires noted { (office : OfficeState) × AreNoted held.now.office actor self.old office }
        ensures noted { OnOk result ((office : OfficeState)
            → AreNoted held.now.office actor self.old office
            → AreNoted held.now.office actor self.new (fold without_actor office numbers.now)) }
        ensures gone { OnOk result ((other : ℕ) → (noted self.new).gone other
            ≡ (is_among numbers.now other || (noted self.old).gone other)) }
        ensures machines { OnOk result (self.new.machines ≡ self.old.machines) }
    {
        for number in numbers {
            self.drop_actor(held, actor, *number)?;
        }
        Ok(())
    }

    /// Adds the number if it isn't that of one who was removed, or is this one.
    fn push_staying(&self, root: u64, number: u64, found: &mut Vec<u64>) -> Result<(), AllocError>
        ensures { OnOk result (found.new.items
            ≡ found.old.items ++ staying (noted self.now).gone root (number ∷ [])) }
    {
        if number != root && self.gone.contains(&number) {
            return Ok(());
        }
        found.push(number)?;
        Ok(())
    }

    /// Adds these numbers but for those of removed actors; one of them in any case.
    pub(crate) fn add_staying(
        &self,
        root: u64,
        numbers: &[u64],
        found: &mut Vec<u64>,
    ) -> Result<(), AllocError>
        ensures { OnOk result (found.new.items
            ≡ found.old.items ++ staying (noted self.now).gone root numbers.now) }
    {
        for number in numbers {
            self.push_staying(root, *number, found)?;
        }
        Ok(())
    }

    /// Adds the numbers of the actors that were made, in the same way.
    pub(crate) fn add_made(
        &self,
        held: &Held,
        root: u64,
        found: &mut Vec<u64>,
    ) -> Result<(), AllocError>
        requires { held.now.office.next_actor ≤ self.now.counts.next_actor }
        ensures { OnOk result (found.new.items
            ≡ found.old.items ++ staying (noted self.now).gone root
            (numbers_from held.now.office.next_actor
            (self.now.counts.next_actor - held.now.office.next_actor))) }
    {
        for number in held.next_actor()..self.counts.next_actor {
            self.push_staying(root, number, found)?;
        }
        Ok(())
    }

    /// Notes a timer of the step's actor, beside which so many stay.
    pub(crate) fn add_timer(
        &mut self,
        alloc: Global,
        id: &Option<Text>,
        beside: u64,
    ) -> Result<(), AllocError>
        requires few { beside < MAX_TIMERS }
        requires number { self.old.counts.next_timer < MAX_NEXT_NUMBER }
        ensures { OnOk result (IsTimerNoted id.now beside self.old self.new) }
    {
        add_timer_id(alloc, &mut self.timer_ids, id)?;
        self.timers = beside + 1;
        self.counts.next_timer += 1;
        Ok(())
    }

    /// Notes that the timer of an id doesn't stand any more, if it stood.
    pub(crate) fn drop_timer(
        &mut self,
        alloc: Global,
        id: &Text,
        stands: bool,
    ) -> Result<(), AllocError>
        requires { (if stands then 1 else 0) ≤ self.old.timers }
        ensures { OnOk result (IsCancelNoted id.now stands self.old self.new) }
    {
        self.timer_ids
            .insert(String::from_str(alloc, id.as_str())?, false)?;
        if stands {
            self.timers -= 1;
        }
        Ok(())
    }

    /// Notes an actor that is made.
    pub(crate) fn make(&mut self, alloc: Global, newcomer: &Newcomer) -> Result<(), AllocError>
        requires free { IfSome newcomer.now.name
            (λ name. holder_of name self.old.names.names ≡ None) }
        requires newer { All (λ (holder : List ℕ × ℕ). holder.1 < self.old.counts.next_actor)
            self.old.names.names }
        requires room { HasRoomToNote (length newcomer.now.actor.mailbox.items) self.old.counts }
        ensures { OnOk result (IsMakeNoted newcomer.now self.old self.new) }
    {
        let number = self.counts.next_actor;
        let letters = newcomer.actor.mailbox.len() as u64;
        if self.machines.push(newcomer.actor.own.is_some()).is_err() {
            return Err(AllocError);
        }
        self.sent.insert(number, letters)?;
        hold_copy(alloc, &mut self.names, &newcomer.name, number)?;
        self.counts.next_actor += 1;
        self.counts.next_letter += letters;
        self.counts.active += 1;
        self.counts.waiting += letters;
        Ok(())
    }

    /// Notes the child of an id, or that there is none any more.
    pub(crate) fn set_kid(
        &mut self,
        alloc: Global,
        id: &Text,
        kid: Option<u64>,
    ) -> Result<(), AllocError>
        ensures { OnOk result (IsKidNoted id.now kid self.old self.new) }
    {
        self.kids
            .insert(String::from_str(alloc, id.as_str())?, kid)?;
        Ok(())
    }
}

/// Takes down that a timer of this id stands, if it has one.
fn add_timer_id(
    alloc: Global,
    ids: &mut BTreeMap<String, bool>,
    id: &Option<Text>,
) -> Result<(), AllocError>
    ensures { OnOk result ((other : List ℕ) → get_by_text ids.new other ≡ option_map_or
        (λ (one : List ℕ). if bytes_eq one other then Some true else get_by_text ids.old other)
        id.now (get_by_text ids.old other)) }
{
    let Some(id) = id else {
        return Ok(());
    };
    ids.insert(String::from_str(alloc, id.as_str())?, true)?;
    Ok(())
}

/// Gives a copy of a new actor's name to it, if it has one.
fn hold_copy(
    alloc: Global,
    names: &mut Registry,
    name: &Option<Text>,
    actor: u64,
) -> Result<(), AllocError>
    requires free { IfSome name.now (λ name. holder_of name names.old.names ≡ None) }
    requires newer { All (λ (holder : List ℕ × ℕ). holder.1 < actor) names.old.names }
    ensures { OnOk result (names.new.names ≡ and_holder names.old.names name.now actor) }
{
    let Some(name) = name else {
        return Ok(());
    };
    match names.hold(name.copy(alloc)?, actor) {
        Ok(()) => Ok(()),
        Err(_) => Err(AllocError),
    }
}
