//! The journal in use: records are appended, the last one is dropped, and the office moves to the
//! other side.

ghost use Rattle.std.specs.Prelude.{◌≡◌, ◌↔◌, ◌⊎◌, ◌+◌, ◌-◌, ◌++◌, [], ◌∷◌, ◌<◌, ◌≤◌, ◌^◌, length, slice_index, IsTrue, Some, Option, OnErr, OnOk, IfOk, IfSome, IsSome, is_err, is_some};
ghost use Rattle.gate_journal.specs.Opened.{PointsTo};
ghost use Rattle.gate_journal.specs.Journal.{flag_after};
ghost use Rattle.gate_journal.specs.Layout.{length_bytes, eight_bytes, IsRecordSize};
ghost use Rattle.gate_journal.specs.declared.parts.TheConstants.{CLOSED, MAX_BASE};

use crate::Held;
use crate::gate::{make_side, open_gate, write_through};
use crate::opening::{Found, SidesRefused, read_sides, sync_both};
use crate::parts::{CLOSED, HEAD, MAX_BASE, RECORD_HEAD};
use std::alloc::{AllocError, Global};
use xs_outside::{Disk, Failed, Got, Side, Sink, Source, Station};

/// Why a journal wasn't opened. Each hands the disk back.
#[derive(Debug, Drop)]
pub enum JournalRefused<D> {
    /// The side and the place of the first byte that breaks the layout.
    Bad(Side, u64, D),
    /// A call of the disk failed.
    Fault(D),
    /// Memory was wanted.
    Memory(D),
}

/// Why a record wasn't appended.
#[derive(Clone, Copy, Debug, PartialEq, Eq)]
pub enum AppendRefused {
    /// A call of the disk failed. The journal is shut.
    Fault,
    /// Memory was wanted, and nothing was done.
    Memory,
}

/// Why the office didn't move to the other side.
#[derive(Clone, Copy, Debug, PartialEq, Eq)]
pub enum SwitchRefused {
    /// A call of the disk failed. The journal is shut.
    Fault,
    /// The base is longer than a base may be, or no generation is left.
    TooLong,
    /// Memory was wanted, and nothing was done.
    Memory,
}

/// The open side of a journal in use.
#[derive(Clone, Copy, Debug)]
struct Current {
    side: Side,
    generation: u64,
    // the gate that ends the records
    end: u64,
    // the gate of the last record, where it is known
    last: Option<u64>,
}

/// The records of an office on a disk of two sides. It keeps no record itself.
#[derive(Debug, Drop)]
pub struct Journal<D: Disk> {
    disk: D,
    alloc: Global,
    // None where both sides are closed
    current: Option<Current>,
    // whether a side is closed and has two bytes or more
    a_is_ready: bool,
    b_is_ready: bool,
    // a call of the disk has failed
    shut: bool,
    // what is written next; it keeps its memory
    buffer: Vec<u8>,
}

impl<D: Disk> Journal<D> {
    ghost use Rattle.xs_outside.specs.Disk.{AllSince, other};
    ghost use Rattle.gate_journal.specs.Found.{IfSidesBad, both_lengths, sides_failed};
    ghost use Rattle.gate_journal.specs.Opened.{IfBadSides, IsIndexed, disk_after, open_failed};
    ghost use Rattle.gate_journal.specs.Runs.{IsJournalCall, KeepsSides};
    ghost use Rattle.gate_journal.specs.Sides.{AreBadAt};
    ghost use Rattle.gate_journal.specs.declared.held.Held.{Held};
    ghost use Rattle.gate_journal.specs.Journal.{disk_of, IsShut, CanAppend, CanDrop, CanSwitch, Stands, HoldsEither, added, without_last, switched, append_failed, switch_failed, end_of, last_of, generation_of, next_side, ready_on, AppendLeaves, DropLeaves, SwitchLeaves};

    /// Opens the journal that a disk holds: it syncs both sides, and reads what they hold, each
    /// byte at most once. What is held is handed out and not kept; it is None where both sides are
    /// closed.
    pub fn open(alloc: Global, mut disk: D) -> Result<(Journal<D>, Option<Held>), JournalRefused<D>>
        ensures opened { IfOk result (λ r. IsTrue (D.state disk).honest
            → Stands r.1 (D.state (disk_of r.0)) r.0) }
        ensures can { IfOk result (λ r. CanSwitch r.0) }
        ensures indexed { IfOk result (λ r. IfSome r.1 (λ held. IsIndexed held r.0)) }
        ensures bad { IfBadSides result (λ side place. IsTrue (D.state disk).honest
            → AreBadAt side place (D.state disk).content) }
        ensures sides { KeepsSides (D.state disk) (D.state (disk_after result)) }
        ensures call { IsJournalCall (open_failed result)
            (D.state disk) (D.state (disk_after result)) }
        ensures fetched { IsTrue (D.state disk).honest → (D.state (disk_after result)).fetched
            ≤ (D.state disk).fetched + both_lengths (D.state disk).content }
    {
        if sync_both(&mut disk).is_err() {
            return Err(JournalRefused::Fault(disk));
        }
        match read_sides(alloc, &mut disk) {
            Ok(found) => {
                let Found {
                    held,
                    end,
                    a_is_ready,
                    b_is_ready,
                } = found;
                let current = current_of(&held, end);
                let journal = Journal {
                    disk,
                    alloc,
                    current,
                    a_is_ready,
                    b_is_ready,
                    shut: false,
                    buffer: Vec::new(alloc),
                };
                Ok((journal, held))
            }
            Err(refused) => match refused {
                SidesRefused::Bad(side, place) => Err(JournalRefused::Bad(side, place, disk)),
                SidesRefused::Fault => Err(JournalRefused::Fault(disk)),
                SidesRefused::Memory => Err(JournalRefused::Memory(disk)),
            },
        }
    }

    /// Opens the journal anew over its own disk, as `open` does: it syncs both sides, and reads what
    /// they hold. So a journal that was shut can be used again. Where it is refused the journal is
    /// shut.
    pub fn reopen(&mut self) -> Result<Option<Held>, SidesRefused>
        ensures opened { IfOk result (λ held. IsTrue (D.state (disk_of self.old)).honest
            → Stands held (D.state (disk_of self.new)) self.new) }
        ensures can { OnOk result (CanSwitch self.new) }
        ensures indexed { IfOk result (λ held. IfSome held (λ held. IsIndexed held self.new)) }
        ensures shut { OnErr result (IsShut self.new) }
        ensures bad { IfSidesBad result (λ side place. IsTrue (D.state (disk_of self.old)).honest
            → AreBadAt side place (D.state (disk_of self.old)).content) }
        ensures sides { KeepsSides (D.state (disk_of self.old)) (D.state (disk_of self.new)) }
        ensures call { IsJournalCall (sides_failed result)
            (D.state (disk_of self.old)) (D.state (disk_of self.new)) }
        ensures fetched { IsTrue (D.state (disk_of self.old)).honest
            → (D.state (disk_of self.new)).fetched ≤ (D.state (disk_of self.old)).fetched
            + both_lengths (D.state (disk_of self.old)).content }
    {
        self.shut = true;
        if sync_both(&mut self.disk).is_err() {
            return Err(SidesRefused::Fault);
        }
        match read_sides(self.alloc, &mut self.disk) {
            Ok(found) => {
                let Found {
                    held,
                    end,
                    a_is_ready,
                    b_is_ready,
                } = found;
                self.current = current_of(&held, end);
                self.a_is_ready = a_is_ready;
                self.b_is_ready = b_is_ready;
                self.shut = false;
                Ok(held)
            }
            Err(refused) => Err(refused),
        }
    }

    /// Whether a call of the disk has failed. A journal that is shut stays so until it is opened anew.
    pub fn is_shut(&self) -> bool
        ensures { IsTrue result ↔ IsShut self.now }
    {
        self.shut
    }

    /// The place of the gate that ends the records, where a side is open.
    pub fn end(&self) -> Option<u64>
        ensures { result ≡ end_of self.now }
    {
        match self.current {
            None => None,
            Some(current) => Some(current.end),
        }
    }

    /// Whether the journal knows where its last record begins, so that `drop_last` may be called.
    pub fn knows_last(&self) -> bool
        ensures { result ≡ is_some (last_of self.now) }
    {
        match self.current {
            None => false,
            Some(current) => current.last.is_some(),
        }
    }

    /// The generation of the open side, or 0.
    pub fn generation(&self) -> u64
        ensures { result ≡ generation_of self.now }
    {
        match self.current {
            None => 0,
            Some(current) => current.generation,
        }
    }

    /// Adds a record behind the others. It makes four calls of the disk, which write each byte
    /// once, and copies the payload once; memory is taken only where the longest payload so far
    /// grows.
    pub fn append(&mut self, payload: &[u8]) -> Result<(), AppendRefused>
        requires size { IsRecordSize (length payload.now) }
        requires can { CanAppend self.old }
        requires stands { IsTrue (D.state (disk_of self.old)).honest
            → (held : Held) × Stands (Some held) (D.state (disk_of self.old)) self.old }
        ensures added { OnOk result ((held : Held) → IsTrue (D.state (disk_of self.old)).honest
            → Stands (Some held) (D.state (disk_of self.old)) self.old
            → Stands (Some (added held payload.now)) (D.state (disk_of self.new)) self.new) }
        ensures images { (held : Held) → IsTrue (D.state (disk_of self.old)).honest
            → Stands (Some held) (D.state (disk_of self.old)) self.old
            → AllSince (D.state (disk_of self.old)).clock (HoldsEither (other held.side)
            (D.state (disk_of self.old)).content (Some held) (Some (added held payload.now)))
            (D.state (disk_of self.new)) }
        ensures call { IsJournalCall (append_failed result)
            (D.state (disk_of self.old)) (D.state (disk_of self.new)) }
        ensures fetched { (D.state (disk_of self.new)).fetched
            ≡ (D.state (disk_of self.old)).fetched }
        ensures leaves { AppendLeaves result (length payload.now) self.old self.new }
    {
        let Some(current) = self.current else {
            unreachable!()
        };
        if fill_record(&mut self.buffer, payload).is_err() {
            return Err(AppendRefused::Memory);
        }
        if open_gate(&mut self.disk, current.side, current.end, &self.buffer).is_err() {
            self.shut = true;
            return Err(AppendRefused::Fault);
        }
        let size = (RECORD_HEAD + payload.len()) as u64;
        self.current = Some(Current {
            side: current.side,
            generation: current.generation,
            end: current.end + size,
            last: Some(current.end),
        });
        Ok(())
    }

    /// Takes the last record out: its gate is closed, so that the records end there. Two calls of
    /// the disk, and no memory.
    pub fn drop_last(&mut self) -> Result<(), Failed>
        requires can { CanDrop self.old }
        requires stands { IsTrue (D.state (disk_of self.old)).honest
            → (held : Held) × Stands (Some held) (D.state (disk_of self.old)) self.old }
        ensures dropped { OnOk result ((held : Held) → IsTrue (D.state (disk_of self.old)).honest
            → Stands (Some held) (D.state (disk_of self.old)) self.old
            → Stands (Some (without_last held)) (D.state (disk_of self.new)) self.new) }
        ensures images { (held : Held) → IsTrue (D.state (disk_of self.old)).honest
            → Stands (Some held) (D.state (disk_of self.old)) self.old
            → AllSince (D.state (disk_of self.old)).clock (HoldsEither (other held.side)
            (D.state (disk_of self.old)).content (Some held) (Some (without_last held)))
            (D.state (disk_of self.new)) }
        ensures call { IsJournalCall (is_err result)
            (D.state (disk_of self.old)) (D.state (disk_of self.new)) }
        ensures fetched { (D.state (disk_of self.new)).fetched
            ≡ (D.state (disk_of self.old)).fetched }
        ensures leaves { DropLeaves result self.old self.new }
    {
        let Some(current) = self.current else {
            unreachable!()
        };
        let Some(place) = current.last else {
            unreachable!()
        };
        if write_through(&mut self.disk, current.side, place, &[CLOSED]).is_err() {
            self.shut = true;
            return Err(Failed);
        }
        self.current = Some(Current {
            side: current.side,
            generation: current.generation,
            end: place,
            last: None,
        });
        Ok(())
    }

    /// Moves to the other side, or to side a where both are closed: it begins with this base, has
    /// the next generation and no records. Six calls of the disk, or four where that side is closed
    /// and has two bytes or more. The base is copied once, into memory that is given back.
    pub fn switch(&mut self, base: &[u8]) -> Result<u64, SwitchRefused>
        requires can { CanSwitch self.old }
        requires stands { IsTrue (D.state (disk_of self.old)).honest
            → (held : Option Held) × Stands held (D.state (disk_of self.old)) self.old }
        ensures switched { OnOk result ((held : Option Held)
            → IsTrue (D.state (disk_of self.old)).honest
            → Stands held (D.state (disk_of self.old)) self.old
            → Stands (Some (switched held base.now)) (D.state (disk_of self.new)) self.new) }
        ensures images { (held : Option Held) → IsTrue (D.state (disk_of self.old)).honest
            → Stands held (D.state (disk_of self.old)) self.old
            → AllSince (D.state (disk_of self.old)).clock
            (HoldsEither (other (switched held base.now).side)
            (D.state (disk_of self.old)).content held (Some (switched held base.now)))
            (D.state (disk_of self.new)) }
        ensures too_long { (result ≡ Err SwitchRefused.TooLong)
            ↔ ((MAX_BASE < length base.now) ⊎ (generation_of self.old ≡ 2 ^ 64 - 1)) }
        ensures call { IsJournalCall (switch_failed result)
            (D.state (disk_of self.old)) (D.state (disk_of self.new)) }
        ensures fetched { (D.state (disk_of self.new)).fetched
            ≡ (D.state (disk_of self.old)).fetched }
        ensures leaves { SwitchLeaves result (length base.now) self.old self.new }
    {
        let (side, last, ready) = self.next_side();
        if base.len() > MAX_BASE || last == u64::MAX {
            return Err(SwitchRefused::TooLong);
        }
        let generation = last + 1;
        let Ok(text) = side_behind_gate(self.alloc, generation, base) else {
            return Err(SwitchRefused::Memory);
        };
        if make_side(&mut self.disk, side, ready, &text).is_err() {
            self.shut = true;
            return Err(SwitchRefused::Fault);
        }
        self.a_is_ready = flag_after(Side::A, side, self.a_is_ready);
        self.b_is_ready = flag_after(Side::B, side, self.b_is_ready);
        self.current = Some(Current {
            side,
            generation,
            end: (HEAD + base.len()) as u64,
            last: None,
        });
        Ok(generation)
    }

    /// The side that is made next, the generation before its own, and whether it is ready.
    fn next_side(&self) -> (Side, u64, bool)
        ensures side { result.0 ≡ next_side self.now }
        ensures generation { result.1 ≡ generation_of self.now }
        ensures ready { result.2 ≡ ready_on result.0 self.now }
    {
        match self.current {
            None => (Side::A, 0, self.a_is_ready),
            Some(current) => match current.side {
                Side::A => (Side::B, current.generation, self.b_is_ready),
                Side::B => (Side::A, current.generation, self.a_is_ready),
            },
        }
    }

    /// Hands the disk back.
    pub fn disk(self) -> D
        ensures { result ≡ disk_of self }
    {
        let Journal {
            disk,
            alloc: _,
            current: _,
            a_is_ready: _,
            b_is_ready: _,
            shut: _,
            buffer: _,
        } = self;
        disk
    }
}

impl<D: Station> Journal<D> {
    ghost use Rattle.xs_outside.specs.Counts.{CountsFailure};
    ghost use Rattle.xs_outside.specs.Streams.{CountsReadFailure, ReadGives, WriteAdds, bytes_given};
    ghost use Rattle.gate_journal.specs.declared.held.Held.{Held};
    ghost use Rattle.gate_journal.specs.Journal.{disk_of, IsAsBefore, Stands};

    /// Reads the station's input, also where the journal is shut.
    pub fn read_in(&mut self, into: &mut [u8]) -> Got
        requires { 0 < length into.old }
        ensures gives { ReadGives result into.new
            (D.left (disk_of self.old)) (D.left (disk_of self.new)) }
        ensures taken { D.taken (disk_of self.new)
            ≡ D.taken (disk_of self.old) + bytes_given result }
        ensures faults { CountsReadFailure result
            (D.read_faults (disk_of self.old)) (D.read_faults (disk_of self.new)) }
        ensures relation { D.reads result (disk_of self.old) (disk_of self.new) }
        ensures journal { IsAsBefore self.old self.new }
        ensures stands { (held : Option Held) → Stands held (D.state (disk_of self.old)) self.old
            → Stands held (D.state (disk_of self.new)) self.new }
    {
        Source::read(&mut self.disk, into)
    }

    /// Writes to the station's output, also where the journal is shut.
    pub fn write_out(&mut self, bytes: &[u8]) -> Result<(), Failed>
        ensures adds { WriteAdds result bytes.now
            (D.written (disk_of self.old)) (D.written (disk_of self.new)) }
        ensures faults { CountsFailure result
            (D.write_faults (disk_of self.old)) (D.write_faults (disk_of self.new)) }
        ensures relation { D.writes result (disk_of self.old) (disk_of self.new) }
        ensures journal { IsAsBefore self.old self.new }
        ensures stands { (held : Option Held) → Stands held (D.state (disk_of self.old)) self.old
            → Stands held (D.state (disk_of self.new)) self.new }
    {
        Sink::write(&mut self.disk, bytes)
    }
}

/// What a journal in use knows of what its disk holds.
fn current_of(held: &Option<Held>, end: u64) -> Option<Current>
    ensures { PointsTo held.now end result }
{
    match held {
        None => None,
        Some(held) => Some(Current {
            side: held.side,
            generation: held.generation,
            end,
            last: last_of(held.places.as_slice()),
        }),
    }
}

/// The last of some places.
fn last_of(places: &[u64]) -> Option<u64>
    ensures known { 0 < length places.now → IsSome result }
    ensures place { IfSome result (λ place. (0 < length places.now)
        × (place ≡ slice_index places.now (length places.now - 1))) }
{
    if places.is_empty() {
        return None;
    }
    Some(places[places.len() - 1])
}

/// Whether a side that was ready still is, when one is made.
fn flag_after(side: Side, made: Side, flag: bool) -> bool
    ensures { result ≡ flag_after side made flag }
{
    match (side, made) {
        (Side::A, Side::A) | (Side::B, Side::B) => false,
        _ => flag,
    }
}

/// What is written behind the gate of a side: generation, length, base and a closed gate.
fn side_behind_gate(alloc: Global, generation: u64, base: &[u8]) -> Result<Vec<u8>, AllocError>
    requires { length base.now < 2 ^ 32 }
    ensures { IfOk result (λ text. text.items
        ≡ eight_bytes generation ++ length_bytes (length base.now) ++ base.now ++ CLOSED ∷ []) }
{
    let mut text = Vec::with_capacity(alloc, HEAD + base.len())?;
    text.extend_from_slice(&generation.to_be_bytes())?;
    text.extend_from_slice(&(base.len() as u32).to_be_bytes())?;
    text.extend_from_slice(base)?;
    text.push(CLOSED)?;
    Ok(text)
}

/// What is written behind the gate of a record.
fn fill_record(buffer: &mut Vec<u8>, payload: &[u8]) -> Result<(), AllocError>
    requires { length payload.now < 2 ^ 32 }
    ensures { OnOk result (buffer.new.items
        ≡ length_bytes (length payload.now) ++ payload.now ++ CLOSED ∷ []) }
{
    let size = payload.len() as u32;
    buffer.clear();
    buffer.extend_from_slice(&size.to_be_bytes())?;
    buffer.extend_from_slice(payload)?;
    buffer.push(CLOSED)?;
    Ok(())
}
