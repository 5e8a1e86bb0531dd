//! The objects in memory through their traits, with ample memory: each call, and what a crash leaves.

ghost use Rattle.std.specs.Prelude.{◌<◌, length};

use std::alloc::{AllocError, Global};
use std::test::Fail;
use xs_outside::*;

fn take<S: Source>(source: &mut S, into: &mut [u8]) -> Got
    requires { 0 < length into.old }
{
    source.read(into)
}

fn put<K: Sink>(sink: &mut K, bytes: &[u8]) -> bool {
    sink.write(bytes).is_ok()
}

/// Whether a source of `abc` gives it in two reads, of which one between them fails.
fn fails_between(source: &mut MemorySource) -> bool {
    let mut into = [0; 2];
    let first = take(source, &mut into);
    let front = into;
    let second = take(source, &mut into);
    let third = take(source, &mut into);
    let fourth = take(source, &mut into);
    first == Got::Bytes(2)
        && front.as_slice() == b"ab".as_slice()
        && second == Got::Failed
        && third == Got::Bytes(1)
        && into.as_slice() == b"cb".as_slice()
        && fourth == Got::End
}

#[test]
fn a_source_fails_where_listed(rt: HostRuntime) -> Result<(), Fail> {
    let alloc = rt.alloc();
    let mut source = MemorySource::new(b"abc".to_vec(alloc)?, [2].to_vec(alloc)?)?;
    assert!(rt; fails_between(&mut source));
    Ok(())
}

/// Whether a sink takes the first and the third of three writes.
fn skips_one(sink: &mut MemorySink) -> bool {
    let first = put(sink, b"a");
    let second = put(sink, b"b");
    let third = put(sink, b"c");
    first && !second && third && sink.output() == b"ac".as_slice()
}

#[test]
fn a_sink_fails_where_listed(rt: HostRuntime) -> Result<(), Fail> {
    let mut sink = MemorySink::new([2].to_vec(rt.alloc())?)?;
    assert!(rt; skips_one(&mut sink));
    Ok(())
}

/// Whether the second write to a link fails, and the read after it, and no other call.
fn counts_together(link: &mut MemoryLink) -> bool {
    let mut into = [0; 2];
    let first = put(link, b"a");
    let second = put(link, b"b");
    let third = take(link, &mut into);
    let fourth = take(link, &mut into);
    first
        && !second
        && third == Got::Failed
        && fourth == Got::Bytes(1)
        && link.output() == b"a".as_slice()
}

#[test]
fn the_calls_of_a_link_are_counted_together(rt: HostRuntime) -> Result<(), Fail> {
    let alloc = rt.alloc();
    let mut link = MemoryLink::new(b"q".to_vec(alloc)?, [2, 3].to_vec(alloc)?)?;
    assert!(rt; counts_together(&mut link));
    Ok(())
}

/// A disk with `abc` on side a, whose fifth call fails.
fn new_disk(alloc: Global) -> Result<MemoryDisk, AllocError> {
    let fails = [5].to_vec(alloc)?;
    MemoryDisk::new(b"abc".to_vec(alloc)?, Vec::new(alloc), fails)
}

/// Writes over the last byte of a side of three, and one byte more.
fn write_over_last(disk: &mut MemoryDisk) -> bool {
    if disk.side(Side::A).len() != 3 {
        return false;
    }
    disk.write(Side::A, 2, b"xy").is_ok()
}

/// Whether a side of four bytes is read from its second one on.
fn is_read(disk: &mut MemoryDisk, wanted: &[u8]) -> bool {
    if disk.side(Side::A).len() != 4 {
        return false;
    }
    let mut into = [0; 3];
    disk.read(Side::A, 1, &mut into).is_ok() && into.as_slice() == wanted
}

/// Whether the five calls of a new disk do what they should.
fn is_written_and_read(disk: &mut MemoryDisk) -> bool {
    let written = write_over_last(disk);
    let synced = disk.sync(Side::A).is_ok();
    let length = disk.length(Side::A);
    let read = is_read(disk, b"bxy");
    let fifth = disk.sync(Side::B).is_ok();
    written
        && synced
        && length == Ok(4)
        && read
        && !fifth
        && disk.side(Side::A) == b"abxy".as_slice()
}

#[test]
fn a_disk_reads_what_was_written(rt: HostRuntime) -> Result<(), Fail> {
    let mut disk = new_disk(rt.alloc())?;
    assert!(rt; is_written_and_read(&mut disk));
    Ok(())
}

/// A station with `AB` on side a.
fn new_station(alloc: Global) -> Result<MemoryStation, AllocError> {
    let a = b"AB".to_vec(alloc)?;
    MemoryStation::new(Vec::new(alloc), a, Vec::new(alloc), Vec::new(alloc))
}

/// Writes over the last byte of a side of two, and two bytes more, and to the output.
fn write_both(station: &mut MemoryStation) -> bool {
    if station.side(Side::A).len() != 2 {
        return false;
    }
    Disk::write(station, Side::A, 1, b"xyz").is_ok() && put(station, b"out")
}

/// What a crash may leave of side a of a station that was written to.
const LEFT: [&[u8]; 8] = [
    b"AB",
    b"Axyz",
    b"A\0",
    b"A\0\0\0",
    b"A\x01",
    b"A\x01\x01\x01",
    b"A\xff",
    b"A\xff\xff\xff",
];

fn is_image(image: &Image, a: &[u8]) -> bool {
    image.a.as_slice() == a
        && image.b.as_slice().is_empty()
        && image.output.as_slice() == b"out".as_slice()
}

fn are_images(images: &[Image]) -> bool {
    for (image, a) in images.iter().zip(LEFT.iter()) {
        if !is_image(image, a) {
            return false;
        }
    }
    images.len() == LEFT.len()
}

/// Whether a station makes one more call of its disk, after which a crash leaves one image.
fn settles(station: &mut MemoryStation) -> Result<bool, AllocError> {
    station.stop_after(1);
    let synced = station.sync(Side::A).is_ok();
    let second = station.sync(Side::B).is_ok();
    let images = station.images()?;
    Ok(
        synced
            && !second
            && images.len() == 1
            && station.side(Side::A) == b"Axyz".as_slice()
            && station.output() == b"out".as_slice(),
    )
}

#[test]
fn a_crash_tears_what_is_not_synced(rt: HostRuntime) -> Result<(), Fail> {
    let mut station = new_station(rt.alloc())?;
    assert!(rt; write_both(&mut station));
    let images = station.images()?;
    assert!(rt; are_images(images.as_slice()));
    assert!(rt; settles(&mut station)?);
    Ok(())
}
