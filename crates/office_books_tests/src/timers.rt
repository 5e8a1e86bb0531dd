//! Each call with ample memory: a body that always gives up would be proved.

ghost use Rattle.std.specs.Prelude.{◌≡◌, ◌<◌, [], IfOk};
ghost use Rattle.std.specs.List.{All};
ghost use Rattle.office_types.specs.declared.office.Timer.{Timer};

mod scripts;

use delay_queue::{Due, Timers};
use office_types::Timer;
use std::alloc::{AllocError, Global};
use std::process::Abort;
use std::test::Fail;
use xs_data::Text;
use xs_model::Value;

/// No test schedules more timers.
const MOST: u64 = 1_000;

fn timer(
    alloc: Global,
    order: u64,
    owner: u64,
    due: u64,
    id: Option<&str>,
) -> Result<Timer, AllocError>
    ensures { IfOk result (λ made. made.order ≡ order) }
{
    let id = match id {
        Some(id) => Some(Text::from_str(alloc, id)?),
        None => None,
    };
    Ok(Timer {
        order,
        owner,
        target: 1,
        due,
        id,
        event: Value::Null,
    })
}

/// Timers that are numbered as they are scheduled.
#[derive(Drop)]
struct Numbered {
    timers: Timers,
    next: u64,
    ghost newer: { All (λ (timer : Timer). timer.order < next) timers.timers },
}

impl Numbered {
    fn new(alloc: Global) -> Numbered {
        Numbered {
            timers: Timers::new(alloc),
            next: 1,
        }
    }

    fn schedule(
        &mut self,
        rt: &impl Abort,
        alloc: Global,
        owner: u64,
        due: u64,
        id: Option<&str>,
    ) -> Result<(), Fail> {
        assert!(rt; self.next < MOST);
        let order = self.next;
        self.next += 1;
        assert!(rt;
            self.timers
                .schedule(timer(alloc, order, owner, due, id)?)
                .is_ok()
        );
        Ok(())
    }

    fn cancel(&mut self, owner: u64, id: &str) {
        self.timers.cancel(owner, id.as_bytes());
    }

    fn drop_of(&mut self, owner: u64) {
        self.timers.drop_of(owner);
    }

    fn take_due(&mut self, moment: u64) {
        self.timers.take_due(moment);
    }

    /// Whether what is due has these numbers.
    fn is_due(&self, alloc: Global, moment: u64, numbers: &[u64]) -> Result<bool, AllocError> {
        let due: Due = self.timers.due(alloc, moment)?;
        Ok(have_numbers(due.as_slice(), numbers))
    }

    /// Whether what is due at each moment has the numbers beside it.
    fn are_due(&self, alloc: Global, moments: &[(u64, &[u64])]) -> Result<bool, AllocError> {
        for (moment, numbers) in moments {
            if !self.is_due(alloc, *moment, numbers)? {
                return Ok(false);
            }
        }
        Ok(true)
    }
}

fn have_numbers(timers: &[Timer], numbers: &[u64]) -> bool {
    for (timer, number) in timers.iter().zip(numbers) {
        if timer.order != *number {
            return false;
        }
    }
    timers.len() == numbers.len()
}

/// The owner of a timer, when it is due, and its id.
type Row = (u64, u64, Option<&'static str>);

/// Timers that are scheduled in this order.
fn scheduled(rt: &impl Abort, alloc: Global, rows: &[Row]) -> Result<Numbered, Fail> {
    let mut queue = Numbered::new(alloc);
    for (owner, due, id) in rows {
        queue.schedule(rt, alloc, *owner, *due, *id)?;
    }
    Ok(queue)
}

const BY_DUE: [Row; 4] = [
    (7, u64::MAX, None),
    (7, 5, None),
    (8, 5, None),
    (8, 0, None),
];

const DUE: [(u64, &[u64]); 4] = [
    (0, &[4]),
    (4, &[4]),
    (5, &[4, 2, 3]),
    (u64::MAX, &[4, 2, 3, 1]),
];

#[test]
fn what_is_due_comes_by_due_and_then_by_number(rt: HostRuntime) -> Result<(), Fail> {
    let queue = scheduled(&rt, rt.alloc(), &BY_DUE)?;
    assert!(rt; queue.are_due(rt.alloc(), &DUE)?);
    Ok(())
}

/// What is due at each moment once what was due at moment 5 is taken.
const DUE_LATER: [(u64, &[u64]); 1] = [(u64::MAX, &[1])];

const NEVER_DUE: [(u64, &[u64]); 1] = [(u64::MAX, &[])];

#[test]
fn what_is_due_is_taken(rt: HostRuntime) -> Result<(), Fail> {
    let mut queue = scheduled(&rt, rt.alloc(), &BY_DUE)?;
    queue.take_due(5);
    assert!(rt; queue.are_due(rt.alloc(), &DUE_LATER)?);
    queue.take_due(u64::MAX);
    assert!(rt; queue.are_due(rt.alloc(), &NEVER_DUE)?);
    Ok(())
}

const OF_TWO_OWNERS: [Row; 5] = [
    (7, 9, Some("a")),
    (8, 9, Some("a")),
    (7, 9, Some("aa")),
    (7, 9, None),
    (7, 9, Some("a")),
];

#[test]
fn an_id_is_its_owners(rt: HostRuntime) -> Result<(), Fail> {
    let mut queue = scheduled(&rt, rt.alloc(), &OF_TWO_OWNERS)?;
    assert!(rt; queue.is_due(rt.alloc(), 9, &[2, 3, 4, 5])?);
    queue.cancel(8, "aa");
    queue.cancel(7, "a");
    assert!(rt; queue.is_due(rt.alloc(), 9, &[2, 3, 4])?);
    Ok(())
}

#[test]
fn the_timers_of_an_owner_are_dropped(rt: HostRuntime) -> Result<(), Fail> {
    let mut queue = scheduled(&rt, rt.alloc(), &OF_TWO_OWNERS)?;
    queue.cancel(7, "a");
    queue.drop_of(7);
    assert!(rt; queue.is_due(rt.alloc(), 9, &[2])?);
    Ok(())
}

/// Whether one timer is scheduled among none.
fn is_scheduled(timers: &mut Timers, timer: Timer) -> bool
    requires { timers.old.timers ≡ [] }
{
    let before = timers.len();
    let scheduled = timers.schedule(timer).is_ok();
    before == 0 && scheduled && timers.len() == 1
}

#[test]
fn room_is_made_before(rt: HostRuntime) -> Result<(), Fail> {
    let mut timers = Timers::new(rt.alloc());
    timers.reserve(1)?;
    let timer = timer(rt.alloc(), 1, 7, 5, None)?;
    assert!(rt; is_scheduled(&mut timers, timer));
    Ok(())
}
