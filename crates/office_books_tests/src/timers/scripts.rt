//! Random scripts, beside a plain list of what they leave.

use super::Numbered;
use crate::numbers::Numbers;
use office_types::Timer;
use std::alloc::{AllocError, Global};
use std::process::Abort;
use std::test::Fail;

const IDS: [&str; 4] = ["", "a", "aa", "ab"];

const STEPS: u64 = 600;

/// A moment, now and then the last one.
fn moment(numbers: &mut Numbers) -> u64 {
    match numbers.below(8) {
        0 => u64::MAX,
        _ => numbers.below(12),
    }
}

/// An id by its place in `IDS`, or none.
fn id(numbers: &mut Numbers) -> Option<usize> {
    match numbers.below(3) {
        0 => None,
        _ => Some(numbers.below(4) as usize),
    }
}

#[derive(Drop)]
struct Plain {
    order: u64,
    owner: u64,
    due: u64,
    id: Option<usize>,
}

impl Plain {
    fn has_id(&self, owner: u64, id: usize) -> bool {
        self.owner == owner && self.id == Some(id)
    }
}

/// Timers, and a plain list of them.
#[derive(Drop)]
struct Beside {
    queue: Numbered,
    plain: Vec<Plain>,
}

impl Beside {
    fn schedule(
        &mut self,
        rt: &impl Abort,
        alloc: Global,
        owner: u64,
        due: u64,
        id: Option<usize>,
    ) -> Result<(), Fail> {
        let name = match id {
            Some(id) => IDS.get(id).copied(),
            None => None,
        };
        let order = self.queue.next;
        self.queue.schedule(rt, alloc, owner, due, name)?;
        if let Some(id) = id {
            self.plain.retain(|timer| !timer.has_id(owner, id));
        }
        self.plain.push(Plain {
            order,
            owner,
            due,
            id,
        })?;
        Ok(())
    }

    fn cancel(&mut self, owner: u64, id: usize) {
        if let Some(name) = IDS.get(id) {
            self.queue.cancel(owner, name);
            self.plain.retain(|timer| !timer.has_id(owner, id));
        }
    }

    fn drop_of(&mut self, owner: u64) {
        self.queue.drop_of(owner);
        self.plain.retain(|timer| timer.owner != owner);
    }

    fn take_due(&mut self, moment: u64) {
        self.queue.take_due(moment);
        self.plain.retain(|timer| timer.due > moment);
    }

    /// Makes a random call.
    fn step(&mut self, rt: &impl Abort, alloc: Global, numbers: &mut Numbers) -> Result<(), Fail> {
        let owner = numbers.below(4);
        let moment = moment(numbers);
        match (numbers.below(60), id(numbers)) {
            (0, _) => self.drop_of(owner),
            (1..6, _) => self.take_due(moment),
            (6..20, Some(id)) => self.cancel(owner, id),
            (_, id) => self.schedule(rt, alloc, owner, moment, id)?,
        }
        Ok(())
    }

    /// Whether what is due at a moment is what the plain list says, and there are as many timers.
    fn agrees(&self, alloc: Global, moment: u64) -> Result<bool, AllocError> {
        let due = self.queue.timers.due(alloc, moment)?;
        let plain = due_in(alloc, &self.plain, moment)?;
        Ok(are_timers(due.as_slice(), &plain) && self.queue.timers.len() == self.plain.len() as u64)
    }
}

/// What is due, by the moment and the number.
fn due_in(alloc: Global, timers: &[Plain], moment: u64) -> Result<Vec<(u64, u64)>, AllocError> {
    let mut due = Vec::new(alloc);
    for timer in timers {
        if timer.due <= moment {
            due.push((timer.due, timer.order))?;
        }
    }
    due.sort()?;
    Ok(due)
}

/// Whether timers are due at these moments and have these numbers.
fn are_timers(timers: &[Timer], plain: &[(u64, u64)]) -> bool {
    for (timer, place) in timers.iter().zip(plain) {
        if timer.due != place.0 || timer.order != place.1 {
            return false;
        }
    }
    timers.len() == plain.len()
}

#[test]
fn timers_are_those_of_the_plain_list(rt: HostRuntime) -> Result<(), Fail> {
    let mut numbers = Numbers(14);
    let mut beside = Beside {
        queue: Numbered::new(rt.alloc()),
        plain: Vec::new(rt.alloc()),
    };
    for _ in 0..STEPS {
        beside.step(&rt, rt.alloc(), &mut numbers)?;
        assert!(rt; beside.agrees(rt.alloc(), moment(&mut numbers))?);
    }
    Ok(())
}
