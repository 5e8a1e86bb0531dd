//! Scripts of calls, and what a journal should hold after them, as plain numbers.

ghost use Rattle.std.specs.Prelude.{IsTrue, IfOk, OnOk};
ghost use Rattle.gate_journal.specs.InUse.{IsInUse};
ghost use Rattle.gate_journal.specs.Journal.{disk_of};

use super::kit::{append_to, drop_from, switch_to};
use gate_journal::{Held, Journal, Records};
use std::alloc::{AllocError, Global};
use std::test::Fail;
use xs_outside::Disk;

/// A call. The text of a record or a base is made from its number.
#[derive(Clone, Copy)]
pub enum Step {
    Append(u64),
    DropLast,
    Switch(u64),
}

/// What a journal should hold: numbers of texts.
#[derive(Drop)]
pub struct Plain {
    pub generation: u64,
    pub base: u64,
    pub records: Vec<u64>,
}

impl Plain {
    pub fn new(alloc: Global) -> Plain {
        Plain {
            generation: 0,
            base: 0,
            records: Vec::new(alloc),
        }
    }

    /// The same with these records.
    fn with(&self, records: Vec<u64>) -> Plain {
        Plain {
            generation: self.generation,
            base: self.base,
            records,
        }
    }

    pub fn copy(&self) -> Result<Plain, AllocError> {
        Ok(self.with(self.records.clone()?))
    }

    /// What it is after a call.
    pub fn after(&self, step: Step) -> Result<Plain, AllocError> {
        match step {
            Step::Append(number) => Ok(self.with(with_last(&self.records, number)?)),
            Step::DropLast => Ok(self.with(without_last(&self.records)?)),
            Step::Switch(number) => Ok(Plain {
                generation: self.generation.saturating_add(1),
                base: number,
                records: Vec::new(*self.records.allocator()),
            }),
        }
    }

    /// Whether this is held.
    pub fn is_held(&self, held: &Option<Held>) -> Result<bool, AllocError> {
        match held {
            None => Ok(self.generation == 0),
            Some(held) => self.is_on_side(held),
        }
    }

    fn is_on_side(&self, held: &Held) -> Result<bool, AllocError> {
        if held.generation != self.generation {
            return Ok(false);
        }
        if !is_text(*self.records.allocator(), self.base, held.base.as_slice())? {
            return Ok(false);
        }
        are_texts(&self.records, &held.records)
    }
}

fn with_last(numbers: &Vec<u64>, last: u64) -> Result<Vec<u64>, AllocError> {
    let mut with = numbers.clone()?;
    with.push(last)?;
    Ok(with)
}

fn without_last(numbers: &Vec<u64>) -> Result<Vec<u64>, AllocError> {
    let mut without = numbers.clone()?;
    let _ = without.pop();
    Ok(without)
}

/// Whether records are the texts of these numbers.
fn are_texts(numbers: &Vec<u64>, records: &Records) -> Result<bool, AllocError> {
    let alloc = *numbers.allocator();
    for (place, number) in numbers.iter().enumerate() {
        if !is_record(alloc, *number, records.get(place))? {
            return Ok(false);
        }
    }
    Ok(records.len() == numbers.len())
}

fn is_record(alloc: Global, number: u64, record: Option<&[u8]>) -> Result<bool, AllocError> {
    match record {
        Some(record) => is_text(alloc, number, record),
        None => Ok(false),
    }
}

/// Texts of 1 to 29 bytes, among which are 0, 1 and other gates.
pub fn text_of(alloc: Global, number: u64) -> Result<Vec<u8>, AllocError> {
    let mut text = Vec::new(alloc);
    for place in 0..1 + number % 29 {
        text.push((number.wrapping_mul(place | 1) % 7) as u8)?;
    }
    Ok(text)
}

fn is_text(alloc: Global, number: u64, bytes: &[u8]) -> Result<bool, AllocError> {
    Ok(text_of(alloc, number)?.as_slice() == bytes)
}

/// The call with this number, picked by a random one.
fn pick(number: u64, random: u64, knows_last: bool) -> Step {
    match random % 8 {
        _ if number == 0 => Step::Switch(number),
        0 => Step::Switch(number),
        1 | 2 | 3 if knows_last => Step::DropLast,
        _ => Step::Append(number),
    }
}

/// A random script of calls that may be made of an empty disk, each in its turn. It begins with a move.
pub fn script(alloc: Global, seed: u64, length: u64) -> Result<Vec<Step>, AllocError> {
    let mut steps = Vec::new(alloc);
    let mut random = seed;
    let mut knows_last = false;
    for number in 0..length {
        random = random
            .wrapping_mul(6_364_136_223_846_793_005)
            .wrapping_add(1_442_695_040_888_963_407);
        let step = pick(number, random >> 33, knows_last);
        knows_last = matches!(step, Step::Append(_));
        steps.push(step)?;
    }
    Ok(steps)
}

/// Makes a call, and tells whether it was done.
pub fn make<D: Disk>(
    alloc: Global,
    journal: &mut Journal<D>,
    step: Step,
) -> Result<bool, AllocError>
    requires { IsInUse (D.state (disk_of journal.old)) journal.old }
    ensures { IfOk result
        (λ done. IsTrue done → IsInUse (D.state (disk_of journal.new)) journal.new) }
{
    match step {
        Step::Append(number) => {
            let payload = text_of(alloc, number)?;
            Ok(append_to(journal, &payload))
        }
        Step::DropLast => Ok(drop_from(journal)),
        Step::Switch(number) => {
            let base = text_of(alloc, number)?;
            Ok(switch_to(journal, &base))
        }
    }
}

/// How far a script came: what should be held before the call that failed, and after it, and how
/// many calls were done. Where none failed, both are what should be held at the end.
#[derive(Drop)]
pub struct Stop {
    pub before: Plain,
    pub after: Plain,
    pub done: usize,
}

impl Stop {
    /// A stop before the first call, with nothing held.
    pub fn new(alloc: Global) -> Stop {
        Stop {
            before: Plain::new(alloc),
            after: Plain::new(alloc),
            done: 0,
        }
    }

    /// Whether what was held before the call that failed is held, or what is held after it.
    pub fn is_either(&self, held: &Option<Held>) -> Result<bool, AllocError> {
        if self.before.is_held(held)? {
            return Ok(true);
        }
        self.after.is_held(held)
    }

    /// Which of both is held, and how many calls were done, that one among them if it was.
    pub fn held_now(self, held: &Option<Held>) -> Result<(Plain, usize), Fail> {
        let Stop {
            before,
            after,
            done,
        } = self;
        if before.is_held(held)? {
            return Ok((before, done));
        }
        if after.is_held(held)? {
            return Ok((after, done.saturating_add(1)));
        }
        Err("neither is held")?
    }
}

/// Makes the calls of a script until one fails, where this is held.
pub fn run<D: Disk>(
    alloc: Global,
    journal: &mut Journal<D>,
    steps: &[Step],
    held: Plain,
) -> Result<Stop, AllocError>
    requires { IsInUse (D.state (disk_of journal.old)) journal.old }
{
    let mut before = held;
    let mut done: usize = 0;
    for step in steps {
        let after = before.after(*step)?;
        if !make(alloc, journal, *step)? {
            return Ok(Stop {
                before,
                after,
                done,
            });
        }
        before = after;
        done = done.saturating_add(1);
    }
    let after = before.copy()?;
    Ok(Stop {
        before,
        after,
        done,
    })
}
