//! The timers of an office.

ghost use Rattle.std.specs.Prelude.{◌≡◌, ◌+◌, ◌<◌, ◌≤◌, [], ◌∷◌, ◌++◌, None, length, filter, option_copied, IfNone, IfSome, IfOk, IfErr, OnOk, OnErr, IsOk};
ghost use Rattle.std.specs.List.{All, list_any};
ghost use Rattle.office_types.specs.declared.office.Timer.{Timer};
ghost use Rattle.office_types.specs.SystemNames.{holder_of};
ghost use Rattle.office_types.specs.Timers.{beside, due_by, has_id, not_due, with_scheduled, without_id, without_owner};
ghost use Rattle.delay_queue.specs.Queue.{due_of, falls_due, is_owned, IsOneOf, timer_of, without_number};
ghost use Rattle.delay_queue.specs.TimerKeys.{keyed, owner_key_of};

use crate::keys::{any_of, count_owned, find_timer, id_of, search_due, search_owner};
use office_books::Slots;
use office_types::{Timer, TimerList, copy_timer};
use std::alloc::{AllocError, Global};
use std::marker::Model;

/// Copies of the timers that are due at a moment, in the order of due, and then of number.
pub type Due = TimerList;

/// The timers of an office, with room for more.
#[derive(Debug, Drop)]
pub struct Timers {
    /// By their numbers.
    store: Slots<Timer>,
    /// Their numbers, in the order of due.
    by_due: Vec<u64>,
    /// Their numbers, by owner and id.
    by_owner: Vec<u64>,
}

impl Model for Timers {
    ghost use Rattle.office_books.specs.Books.{vec_room};
    ghost use Rattle.std.specs.Coded.{codes};
    ghost use Rattle.delay_queue.specs.Queue.{AreTimers, TimerQueue, queue_with_room, timers_in};
    ghost use Rattle.xs_model.specs.contracts.value.Value as value;

    ghost Value = { TimerQueue };

    ghost coded = { Prim.hlevel (codes, value.the_row.coded) };

    ghost view = { λ q.
        queue_with_room (timers_in q.store.items) q.store.spare (vec_room q.by_due)
        (vec_room q.by_owner) };

    ghost invariant = { λ q. AreTimers q.store.items q.by_due.items q.by_owner.items };
}

impl Timers {
    /// A queue without timers. It takes no memory.
    pub fn new(alloc: Global) -> Timers
        ensures { result.timers ≡ [] }
    {
        Timers {
            store: Slots::new(alloc),
            by_due: Vec::new(alloc),
            by_owner: Vec::new(alloc),
        }
    }

    /// How many timers there are.
    pub fn len(&self) -> u64
        ensures { result ≡ length self.now.timers }
    {
        self.store.len() as u64
    }

    /// Makes room, so that the next `more` calls of `schedule` succeed.
    pub fn reserve(&mut self, more: u64) -> Result<(), AllocError>
        ensures timers { self.new.timers ≡ self.old.timers }
        ensures room { OnOk result (more ≤ self.new.spare) }
        ensures keeps_room { self.old.spare ≤ self.new.spare }
        ensures succeeds { more ≤ self.old.spare → IsOk result }
    {
        self.store.reserve(more as usize)?;
        self.by_due.reserve(more as usize)?;
        self.by_owner.reserve(more as usize)
    }

    /// Schedules a timer that is newer than all others, in place of its owner's one of the same id. For
    /// want of memory it hands the timer back. Its places are found by halves, and the numbers (8 bytes
    /// each) after them move.
    pub fn schedule(&mut self, timer: Timer) -> Result<(), Timer>
        requires { All (λ (other : Timer). other.order < timer.order) self.old.timers }
        ensures ok { OnOk result (self.new.timers ≡ with_scheduled self.old.timers timer) }
        ensures err { OnErr result (self.new.timers ≡ self.old.timers) }
        ensures handed_back { IfErr result (λ back. back ≡ timer) }
        ensures succeeds { 0 < self.old.spare → IsOk result }
        ensures takes_one { self.old.spare ≤ self.new.spare + 1 }
    {
        if self.reserve(1).is_err() {
            return Err(timer);
        }
        self.make_way(&timer);
        self.add(timer);
        Ok(())
    }

    /// Takes out an owner's timer of an id, if there is one. It is found by halves.
    pub fn cancel(&mut self, owner: u64, id: &[u8])
        ensures timers { self.new.timers ≡ without_id owner id.now self.old.timers }
        ensures keeps_room { self.old.spare ≤ self.new.spare }
    {
        if let Ok(rank) = search_owner(&self.store, self.by_owner.as_slice(), owner, Some(id), 0) {
            let order = self.by_owner[rank];
            self.remove(order);
        }
    }

    /// Whether an owner has a timer of an id. It is found by halves.
    pub fn has_id(&self, owner: u64, id: &[u8]) -> bool
        ensures { result ≡ list_any (has_id owner id.now) self.now.timers }
    {
        let numbers = self.by_owner.as_slice();
        search_owner(&self.store, numbers, owner, Some(id), 0).is_ok()
    }

    /// Copies of all timers, by their numbers. It costs as much as they are large.
    pub fn copies(&self, alloc: Global) -> Result<TimerList, AllocError>
        ensures { IfOk result (λ made. made ≡ self.now.timers) }
    {
        let mut copies = Vec::with_capacity(alloc, self.store.len())?;
        for (_, timer) in self.store.iter() {
            copies.push(copy_timer(alloc, timer)?)?;
        }
        Ok(TimerList::from_vec(copies))
    }

    /// How many timers an owner has. They are found by halves.
    pub fn count_of(&self, owner: u64) -> u64
        ensures { result ≡ length (filter (is_owned owner) self.now.timers) }
    {
        count_owned(&self.store, self.by_owner.as_slice(), owner) as u64
    }

    /// Takes out all timers of an actor, each found by halves.
    pub fn drop_of(&mut self, actor: u64)
        ensures timers { self.new.timers ≡ without_owner actor self.old.timers }
        ensures keeps_room { self.old.spare ≤ self.new.spare }
    {
        while let Some(order) = self.one_of(actor) {
            self.remove(order);
        }
    }

    /// The timers that are due at a moment. It costs what it gives, each timer found by halves; where
    /// none is due it takes no memory.
    pub fn due(&self, alloc: Global, moment: u64) -> Result<Due, AllocError>
        ensures due { IfOk result (λ due. due ≡ due_by moment self.now.timers) }
        ensures none_due { due_by moment self.now.timers ≡ [] → IsOk result }
    {
        let mut due = Vec::new(alloc);
        for order in &self.by_due {
            let Some(timer) = self.find_due(*order, moment) else {
                break;
            };
            due.push(copy_timer(alloc, timer)?)?;
        }
        Ok(Due::from_vec(due))
    }

    /// Takes out all timers that are due at a moment, each found by halves.
    pub fn take_due(&mut self, moment: u64)
        ensures timers { self.new.timers ≡ not_due moment self.old.timers }
        ensures keeps_room { self.old.spare ≤ self.new.spare }
    {
        while let Some(order) = self.first_due(moment) {
            self.remove(order);
        }
    }

    /// The number of a timer of an actor.
    fn one_of(&self, actor: u64) -> Option<u64>
        ensures some { IfSome result (λ order. IsOneOf (is_owned actor) order self.now.timers) }
        ensures none { IfNone result (self.now.timers ≡ without_owner actor self.now.timers) }
    {
        any_of(&self.store, self.by_owner.as_slice(), actor)
    }

    /// The number of the timer that is due first, if it is due at a moment.
    fn first_due(&self, moment: u64) -> Option<u64>
        ensures some { IfSome result (λ order. IsOneOf (falls_due moment) order self.now.timers) }
        ensures none { IfNone result (self.now.timers ≡ not_due moment self.now.timers) }
    {
        let order = *self.by_due.first()?;
        match self.find_due(order, moment) {
            Some(_) => Some(order),
            None => None,
        }
    }

    /// The timer of a number, if it is due at a moment.
    fn find_due(&self, order: u64, moment: u64) -> Option<&Timer>
        ensures { option_copied result ≡ due_of moment (timer_of order self.now.timers) }
    {
        match find_timer(&self.store, order) {
            Some(timer) if timer.due <= moment => Some(timer),
            _ => None,
        }
    }

    /// Takes out what a new timer replaces.
    fn make_way(&mut self, timer: &Timer)
        ensures timers { self.new.timers ≡ beside timer.now self.old.timers }
        ensures keeps_room { self.old.spare ≤ self.new.spare }
    {
        if let Some(id) = &timer.id {
            self.cancel(timer.owner, id.as_bytes());
        }
    }

    /// Takes out the timer of a number, if there is one.
    fn remove(&mut self, order: u64)
        ensures timers { self.new.timers ≡ without_number order self.old.timers }
        ensures keeps_room { self.old.spare ≤ self.new.spare }
    {
        let Some(timer) = find_timer(&self.store, order) else {
            return;
        };
        let Ok(rank) = search_due(&self.store, self.by_due.as_slice(), timer.due, order) else {
            unreachable!()
        };
        let id = id_of(timer);
        let Ok(place) = search_owner(
            &self.store,
            self.by_owner.as_slice(),
            timer.owner,
            id,
            order,
        ) else {
            unreachable!()
        };
        let _ = self.by_due.remove(rank);
        let _ = self.by_owner.remove(place);
        let _ = self.store.take(order);
    }

    /// Adds a timer that is newer than all others, where there is room and none of its owner and id.
    fn add(&mut self, timer: Timer)
        requires room { 0 < self.old.spare }
        requires newer { All (λ (other : Timer). other.order < timer.order) self.old.timers }
        requires new_id { holder_of (owner_key_of timer) (keyed owner_key_of self.old.timers)
            ≡ None }
        ensures timers { self.new.timers ≡ self.old.timers ++ timer ∷ [] }
        ensures takes_one { self.old.spare ≤ self.new.spare + 1 }
    {
        let order = timer.order;
        let Err(rank) = search_due(&self.store, self.by_due.as_slice(), timer.due, order) else {
            unreachable!()
        };
        let id = id_of(&timer);
        let Err(place) = search_owner(
            &self.store,
            self.by_owner.as_slice(),
            timer.owner,
            id,
            order,
        ) else {
            unreachable!()
        };
        self.store.push(order, timer);
        let _ = self.by_due.insert(rank, order);
        let _ = self.by_owner.insert(place, order);
    }
}
