//! What a crash leaves of a side in memory: some of the ways in which it may end.

ghost use Rattle.std.specs.Prelude.{◌≡◌, [], ◌∷◌, ◌++◌, map, replicate, reverse, OnOk, IfOk};
ghost use Rattle.xs_outside.specs.History.{content_of, side_after_write};
ghost use Rattle.xs_outside.specs.Crash.{side_after_fate, side_after_crash, fates_of, sides_after_crashes, images_of};

use super::history::{SideChange, overwrite};
use crate::Bytes;
use std::alloc::{AllocError, Global};
use xs_data::Items;

/// What a crash may leave: both sides of a disk, and the output that had been written.
#[derive(Debug, Drop)]
pub struct Image {
    pub a: Bytes,
    pub b: Bytes,
    pub output: Bytes,
}

/// A list of images.
pub type Images = Items<Image>;

/// What becomes of the writes of a side since its last sync.
#[derive(Clone, Copy, Debug)]
pub enum Fate {
    /// None is done.
    LeftOut,
    /// All are done.
    Done,
    /// Their ranges hold this byte, and the side doesn't grow.
    Filled(u8),
    /// Their ranges hold this byte, and the side grows.
    FilledAndGrown(u8),
}

const SETTLED: [Fate; 1] = [Fate::Done];

const PENDING: [Fate; 8] = [
    Fate::LeftOut,
    Fate::Done,
    Fate::Filled(0),
    Fate::FilledAndGrown(0),
    Fate::Filled(1),
    Fate::FilledAndGrown(1),
    Fate::Filled(255),
    Fate::FilledAndGrown(255),
];

/// The fates to try after these changes: there is but one where nothing is pending.
fn fates(changes: &[SideChange]) -> &'static [Fate]
    ensures { result.now ≡ fates_of (reverse changes.now) }
{
    match changes {
        [.., SideChange::Write { .. }] => &PENDING,
        _ => &SETTLED,
    }
}

/// What crashes of these fates leave of a side.
pub fn sides_after_crashes(
    alloc: Global,
    start: &[u8],
    changes: &[SideChange],
) -> Result<Vec<Bytes>, AllocError>
    ensures { IfOk result (λ sides. sides.items
        ≡ sides_after_crashes start.now (reverse changes.now)) }
{
    let mut sides = Vec::new(alloc);
    for fate in fates(changes) {
        sides.push(Bytes::from_vec(side_after_crash(alloc, start, changes, *fate)?))?;
    }
    Ok(sides)
}

/// Each way in which the one side may end with each of the other.
pub fn images(
    alloc: Global,
    sides: &[Bytes],
    others: &[Bytes],
    output: &[u8],
) -> Result<Images, AllocError>
    ensures { IfOk result (λ images. images ≡ images_of sides.now others.now output.now) }
{
    let mut images = Images::new(alloc);
    for side in sides {
        push_with_each(alloc, &mut images, side, others, output)?;
    }
    Ok(images)
}

/// Adds one way in which the one side may end with each of the other.
fn push_with_each(
    alloc: Global,
    images: &mut Images,
    side: &Bytes,
    others: &[Bytes],
    output: &[u8],
) -> Result<(), AllocError>
    ensures { OnOk result (images.new ≡ images.old
        ++ map (λ other. record { a = side.now; b = other; output = output.now }) others.now) }
{
    for other in others {
        push_image(alloc, images, side, other, output)?;
    }
    Ok(())
}

fn push_image(
    alloc: Global,
    images: &mut Images,
    a: &Bytes,
    b: &Bytes,
    output: &[u8],
) -> Result<(), AllocError>
    ensures { OnOk result (images.new ≡ images.old
        ++ record { a = a.now; b = b.now; output = output.now } ∷ []) }
{
    let image = Image {
        a: copy(alloc, a.as_slice())?,
        b: copy(alloc, b.as_slice())?,
        output: copy(alloc, output)?,
    };
    images.push(image).map_err(|_| AllocError)
}

fn copy(alloc: Global, bytes: &[u8]) -> Result<Bytes, AllocError>
    ensures { IfOk result (λ copy. copy ≡ bytes.now) }
{
    Ok(Bytes::from_vec(bytes.to_vec(alloc)?))
}

/// What a side reads after these changes.
fn content_after(alloc: Global, start: &[u8], changes: &[SideChange]) -> Result<Vec<u8>, AllocError>
    ensures { IfOk result (λ content. content.items
        ≡ content_of start.now (reverse changes.now)) }
{
    let mut content = start.to_vec(alloc)?;
    for change in changes {
        if let SideChange::Write { at, bytes, .. } = change {
            overwrite(&mut content, *at, bytes.as_slice())?;
        }
    }
    Ok(content)
}

/// What a crash leaves of a side after these changes. It calls itself once for each write since the
/// last sync.
pub fn side_after_crash(
    alloc: Global,
    start: &[u8],
    changes: &[SideChange],
    fate: Fate,
) -> Result<Vec<u8>, AllocError>
    ensures { IfOk result (λ side. side.items
        ≡ side_after_crash fate start.now (reverse changes.now)) }
{
    match changes {
        [] => start.to_vec(alloc),
        [earlier @ .., SideChange::Sync { .. }] => content_after(alloc, start, earlier),
        [earlier @ .., SideChange::Write { at, bytes, .. }] => {
            let mut side = side_after_crash(alloc, start, earlier, fate)?;
            apply_fate(fate, &mut side, *at, bytes.as_slice())?;
            Ok(side)
        }
    }
}

/// Does to a side what a crash does to one write.
fn apply_fate(fate: Fate, side: &mut Vec<u8>, at: usize, bytes: &[u8]) -> Result<(), AllocError>
    ensures { OnOk result (side.new.items ≡ side_after_fate fate at bytes.now side.old.items) }
{
    match fate {
        Fate::LeftOut => Ok(()),
        Fate::Done => overwrite(side, at, bytes),
        Fate::Filled(byte) => {
            let len = side.len();
            write_filled(side, at, bytes.len(), byte)?;
            side.truncate(len);
            Ok(())
        }
        Fate::FilledAndGrown(byte) => write_filled(side, at, bytes.len(), byte),
    }
}

/// Puts so many times this byte on a side from a place on.
fn write_filled(side: &mut Vec<u8>, at: usize, count: usize, byte: u8) -> Result<(), AllocError>
    ensures { OnOk result (side.new.items
        ≡ side_after_write at (replicate count byte) side.old.items) }
{
    let filled = vec![in *side.allocator(); byte; count]?;
    overwrite(side, at, &filled)
}
