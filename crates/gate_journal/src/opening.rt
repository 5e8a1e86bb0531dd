//! Which side is held, and what it holds.

ghost use Rattle.std.specs.Prelude.{◌≡◌, ◌↔◌, ◌+◌, ◌≤◌, IsTrue, IfOk, IfSome, OnOk, MatchBool, is_err, length, drop};
ghost use Rattle.xs_outside.specs.Counts.{Rose};
ghost use Rattle.xs_outside.specs.Disk.{on, IsSettled};
ghost use Rattle.gate_journal.specs.declared.parts.TheConstants.{HEAD};
ghost use Rattle.gate_journal.specs.Found.{CountsSidesFault, IfSidesBad, IsFound, both_lengths, picked};
ghost use Rattle.gate_journal.specs.Layout.{HasHead, IsBadAt};
ghost use Rattle.gate_journal.specs.Opening.{ChoiceIs, IsHeldText, IsSideOf, LayoutIs, layout_failed};
ghost use Rattle.gate_journal.specs.Reading.{Shows, left_behind};
ghost use Rattle.gate_journal.specs.Reads.{OnlyReads};
ghost use Rattle.gate_journal.specs.Ready.{IsReady};
ghost use Rattle.gate_journal.specs.Refusals.{CountsFault, IfBad};
ghost use Rattle.gate_journal.specs.Runs.{IsJournalCall, KeepsSides};
ghost use Rattle.gate_journal.specs.Sides.{AreBadAt};

use crate::parts::{HEAD, Head, MAX_BASE, OPEN, head_of};
use crate::reading::{SideRefused, read_base, read_records};
use crate::window::{ReadRefused, Window};
use crate::{Held, Layout, Records};
use std::alloc::Global;
use xs_data::Items;
use xs_outside::{Disk, Failed, Side};

/// What the fronts of both sides say of which one is held.
#[derive(Clone, Copy, Debug)]
pub enum Choice {
    /// Both sides are closed.
    Neither,
    /// This side, which has this generation and says that its base has so many bytes.
    Held(Side, u64, u32),
    /// This side is bad at place 1.
    Bad(Side),
}

/// Looks at the fronts of both sides: all their bytes, or at least as many as a head has.
pub fn choose(a: &[u8], b: &[u8]) -> Choice
    ensures { ChoiceIs result (record { a = a.now; b = b.now }) }
{
    match head_of(a) {
        Head::Short => Choice::Bad(Side::A),
        Head::Closed => match head_of(b) {
            Head::Short => Choice::Bad(Side::B),
            Head::Closed => Choice::Neither,
            Head::Open { generation, size } => Choice::Held(Side::B, generation, size),
        },
        Head::Open { generation, size } => match head_of(b) {
            Head::Short => Choice::Bad(Side::B),
            Head::Closed => Choice::Held(Side::A, generation, size),
            Head::Open {
                generation: other,
                size: other_size,
            } => {
                if other < generation {
                    Choice::Held(Side::A, generation, size)
                } else if generation < other {
                    Choice::Held(Side::B, other, other_size)
                } else {
                    Choice::Bad(Side::B)
                }
            }
        },
    }
}

/// Whether a side that begins so is closed and has two bytes or more.
pub fn is_ready(front: &[u8]) -> bool
    ensures { IsTrue result ↔ IsReady front.now }
{
    front.len() >= 2 && front[0] != OPEN
}

/// What an open side holds, whose front the window shows, and the place of the gate that ends its
/// records.
pub fn read_held<D: Disk>(
    alloc: Global,
    disk: &mut D,
    mut window: Window,
    generation: u64,
    size: u32,
) -> Result<(Held, u64), SideRefused>
    requires front { (window.place ≡ 0) × (HEAD ≤ length window.bytes.items) }
    requires shows { IsTrue (D.state disk.old).honest
        → Shows (on window.side (D.state disk.old).content) window
        × HasHead generation size (drop HEAD (on window.side (D.state disk.old).content))
        (on window.side (D.state disk.old).content) }
    ensures held { IfOk result (λ r. IsTrue (D.state disk.old).honest
        → (r.0.generation ≡ generation)
        × IsHeldText r.0 window.side r.1 (on window.side (D.state disk.old).content)) }
    ensures indexed { IfOk result (λ r. length r.0.places ≡ length r.0.records) }
    ensures bad { IfBad result (λ place. IsTrue (D.state disk.old).honest
        → IsBadAt (on window.side (D.state disk.old).content) place) }
    ensures reads { OnlyReads (D.state disk.old) (D.state disk.new) }
    ensures fetched { (D.state disk.new).fetched ≤ (D.state disk.old).fetched + left_behind window }
    ensures faults { CountsFault result (D.state disk.old).faults (D.state disk.new).faults }
{
    let size = size as usize;
    if size > MAX_BASE || window.length - (HEAD as u64) < size as u64 {
        return Err(SideRefused::Bad(9));
    }
    window.skip(HEAD);
    let base = read_base(alloc, disk, &mut window, size)?;
    let mut records = Records::new(alloc);
    let mut places = Vec::new(alloc);
    read_records(disk, &mut window, &mut records, &mut places)?;
    let held = Held {
        side: window.side,
        generation,
        base: Items::from_vec(base),
        records,
        places: Items::from_vec(places),
    };
    Ok((held, window.place))
}

/// What one side holds by itself. It reads each byte of the side at most once, and neither writes
/// nor syncs.
pub fn layout<D: Disk>(alloc: Global, disk: &mut D, side: Side) -> Layout
    ensures layout { IsTrue (D.state disk.old).honest
        → LayoutIs result side (on side (D.state disk.old).content) }
    ensures reads { OnlyReads (D.state disk.old) (D.state disk.new) }
    ensures fetched { IsTrue (D.state disk.old).honest → (D.state disk.new).fetched
        ≤ (D.state disk.old).fetched + length (on side (D.state disk.old).content) }
    ensures faults { MatchBool (layout_failed result)
        (Rose (D.state disk.old).faults (D.state disk.new).faults)
        ((D.state disk.new).faults ≡ (D.state disk.old).faults) }
{
    match read_side(alloc, disk, side) {
        Ok(None) => Layout::Closed,
        Ok(Some(held)) => Layout::Open(held),
        Err(SideRefused::Bad(place)) => Layout::Bad(place),
        Err(SideRefused::Fault) => Layout::Fault,
        Err(SideRefused::Memory) => Layout::Memory,
    }
}

fn read_side<D: Disk>(alloc: Global, disk: &mut D, side: Side) -> Result<Option<Held>, SideRefused>
    ensures side { IfOk result (λ held. IsTrue (D.state disk.old).honest
        → IsSideOf held side (on side (D.state disk.old).content)) }
    ensures bad { IfBad result (λ place. IsTrue (D.state disk.old).honest
        → IsBadAt (on side (D.state disk.old).content) place) }
    ensures reads { OnlyReads (D.state disk.old) (D.state disk.new) }
    ensures fetched { IsTrue (D.state disk.old).honest → (D.state disk.new).fetched
        ≤ (D.state disk.old).fetched + length (on side (D.state disk.old).content) }
    ensures faults { CountsFault result (D.state disk.old).faults (D.state disk.new).faults }
{
    let window = Window::open(alloc, disk, side)?;
    match head_of(&window.bytes) {
        Head::Closed => Ok(None),
        Head::Short => Err(SideRefused::Bad(1)),
        Head::Open { generation, size } => {
            let (held, _) = read_held(alloc, disk, window, generation, size)?;
            Ok(Some(held))
        }
    }
}

/// Why the sides weren't read.
#[derive(Clone, Copy, Debug)]
pub enum SidesRefused {
    /// The side and the place of the first fault.
    Bad(Side, u64),
    /// A call of the disk failed.
    Fault,
    /// Memory was wanted.
    Memory,
}

impl From<ReadRefused> for SidesRefused {
    ghost use Rattle.std.specs.Prelude.{◌≡◌};
    ghost use Rattle.gate_journal.specs.Found.{refused_sides};

    ghost from_gives = { λ refused e. e ≡ refused_sides refused };

    fn from(refused: ReadRefused) -> SidesRefused {
        match refused {
            ReadRefused::Fault => SidesRefused::Fault,
            ReadRefused::Memory => SidesRefused::Memory,
        }
    }
}

/// What both sides hold, the place of the gate that ends the records, and which sides are closed
/// and have two bytes or more.
#[derive(Debug, Drop)]
pub struct Found {
    pub held: Option<Held>,
    pub end: u64,
    pub a_is_ready: bool,
    pub b_is_ready: bool,
}

/// Reads what both sides hold: the front of each, and the rest of the one that is held.
pub fn read_sides<D: Disk>(alloc: Global, disk: &mut D) -> Result<Found, SidesRefused>
    ensures found { IfOk result (λ found. IsTrue (D.state disk.old).honest
        → IsFound found (D.state disk.old).content) }
    ensures indexed { IfOk result (λ found. IfSome found.held (λ held.
        length held.places ≡ length held.records)) }
    ensures bad { IfSidesBad result (λ side place. IsTrue (D.state disk.old).honest
        → AreBadAt side place (D.state disk.old).content) }
    ensures reads { OnlyReads (D.state disk.old) (D.state disk.new) }
    ensures fetched { IsTrue (D.state disk.old).honest → (D.state disk.new).fetched
        ≤ (D.state disk.old).fetched + both_lengths (D.state disk.old).content }
    ensures faults { CountsSidesFault result (D.state disk.old).faults (D.state disk.new).faults }
{
    let a = Window::open(alloc, disk, Side::A)?;
    let b = Window::open(alloc, disk, Side::B)?;
    let a_is_ready = is_ready(&a.bytes);
    let b_is_ready = is_ready(&b.bytes);
    match choose(&a.bytes, &b.bytes) {
        Choice::Neither => Ok(Found {
            held: None,
            end: 0,
            a_is_ready,
            b_is_ready,
        }),
        Choice::Bad(side) => Err(SidesRefused::Bad(side, 1)),
        Choice::Held(side, generation, size) => {
            let window = picked(side, a, b);
            match read_held(alloc, disk, window, generation, size) {
                Ok((held, end)) => Ok(Found {
                    held: Some(held),
                    end,
                    a_is_ready,
                    b_is_ready,
                }),
                Err(SideRefused::Bad(place)) => Err(SidesRefused::Bad(side, place)),
                Err(SideRefused::Fault) => Err(SidesRefused::Fault),
                Err(SideRefused::Memory) => Err(SidesRefused::Memory),
            }
        }
    }
}

/// The window of one side.
fn picked(side: Side, a: Window, b: Window) -> Window
    ensures { result ≡ picked side a b }
{
    match side {
        Side::A => a,
        Side::B => b,
    }
}

/// Syncs both sides. After it, a crash leaves what a read gives.
pub fn sync_both<D: Disk>(disk: &mut D) -> Result<(), Failed>
    ensures settled { OnOk result (IsTrue (D.state disk.old).honest
        → IsSettled (D.state disk.new)) }
    ensures sides { KeepsSides (D.state disk.old) (D.state disk.new) }
    ensures call { IsJournalCall (is_err result) (D.state disk.old) (D.state disk.new) }
    ensures fetched { (D.state disk.new).fetched ≡ (D.state disk.old).fetched }
{
    disk.sync(Side::A)?;
    disk.sync(Side::B)
}
