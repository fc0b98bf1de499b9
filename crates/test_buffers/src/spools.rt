//! A gathering spool takes and returns what a `FileSpool` does, and its file is the same after it is read or settled.

use crate::file_spool::FileSpool;
use crate::made::{Random, bytes, part};
use abt_io::{DeviceFault, Input, Output, Overwrite, Partition, Source, Spool, WINDOW};
use std::alloc::{Alloc, Global};
use std::fs;
use std::fs::{File, OpenOptions};
use std::process::Abort;
use std::rt::Files;
use sys_devices::{AheadSource, FilePartition, FileSource, GatheringSpool};
use sys_std::OsFile;

// Capacities on both sides of what is held at most, one that takes several windows, and small ones.
const CAPACITIES: [usize; 6] = [1, 100, 5000, 65_535, 65_537, 300_001];

// Why a file is not written that was opened to be read.
const NOT_OPEN: i32 = 9;

// How many bytes a call moves.
const COUNTS: [usize; 16] = [
    0, 1, 4, 12, 12, 12, 28, 100, 256, 257, 4084, 4096, 16_383, 16_384, 20_000, 65_536,
];

/// An empty file of this name, opened for reading and writing.
fn opened<R: Files + Abort>(rt: &R, name: &str) -> R::File {
    fs::write(rt, name, "").expect(rt, "is written");
    opened_as_it_is(rt, name)
}

/// A file of this name, opened for reading and writing.
fn opened_as_it_is<R: Files + Abort>(rt: &R, name: &str) -> R::File {
    let mut options = OpenOptions::new();
    options.read(true).write(true);
    options.open(rt, name).expect(rt, "opens")
}

/// Whether files of these names have the same bytes.
pub(crate) fn same<R: Files + Alloc>(rt: &R, one: &str, other: &str) -> bool {
    match (fs::read(rt, one), fs::read(rt, other)) {
        (Ok(one), Ok(other)) => one.as_slice() == other.as_slice(),
        _ => false,
    }
}

/// The result of one call of a spool: 0 to 5 write, 6 to 8 read, and 9 clears.
fn called<S: Spool>(
    spool: &mut S,
    call: u64,
    bytes: &[u8],
    out: &mut [u8],
) -> Result<usize, DeviceFault> {
    if bytes.len() > WINDOW || out.len() > WINDOW {
        return Err(DeviceFault::Full);
    }
    match call {
        0..=5 => spool.write(bytes),
        6..=8 => spool.read(out),
        _ => match spool.clear() {
            Ok(()) => Ok(0),
            Err(fault) => Err(fault),
        },
    }
}

/// The result of overwriting bytes of a spool, from this far before its end on.
fn laid_over<S: Spool + Overwrite>(
    spool: &mut S,
    back: u64,
    bytes: &[u8],
) -> Result<usize, DeviceFault> {
    let end = spool.position();
    if bytes.len() > WINDOW || back > end || bytes.len() as u64 > back {
        return Err(DeviceFault::Full);
    }
    spool.write_over(end - back, bytes)
}

/// A spool over a file that is empty, which may keep its pages.
fn gathering(
    alloc: Global,
    file: OsFile,
    capacity: usize,
    is_keeping: bool,
) -> GatheringSpool<OsFile> {
    if is_keeping {
        GatheringSpool::keeping(alloc, file, capacity as u64, None, 0)
    } else {
        GatheringSpool::new(alloc, file, capacity as u64, None, 0)
    }
}

#[test]
fn a_spool_that_gathers_does_what_a_file_does(rt: HostRuntime) {
    let text = bytes(rt.alloc(), 100_000);
    for (seed, capacity) in CAPACITIES.iter().chain(CAPACITIES.iter()).enumerate() {
        let mut one = FileSpool::new(OsFile::File(opened(&rt, "one.tmp")), *capacity as u64);
        let file = OsFile::File(opened(&rt, "other.tmp"));
        let is_keeping = seed >= CAPACITIES.len();
        let mut other = gathering(rt.alloc(), file, *capacity, is_keeping);
        let mut random = Random::new(seed as u64);
        let mut want = bytes(rt.alloc(), WINDOW);
        let mut have = bytes(rt.alloc(), WINDOW);
        for turn in 0..400u32 {
            let call = random.to(30).min(9);
            let call = if call == 9 && random.to(9) > 0 {
                random.to(8)
            } else {
                call
            };
            let count = random.of(&COUNTS);
            let some = part(text.as_slice(), random.to(30_000), count);
            let count = count.min(want.len()).min(have.len());
            let wanted = called(&mut one, call, some, &mut want.as_mut_slice()[..count]);
            let had = called(&mut other, call, some, &mut have.as_mut_slice()[..count]);
            assert!(rt; had == wanted, "capacity {capacity}, turn {turn}");
            let want = part(want.as_slice(), 0, count);
            assert!(rt;
                part(have.as_slice(), 0, count) == want,
                "capacity {capacity}, turn {turn}"
            );
            if random.to(3) == 0 {
                let most = random.of(&[100, 100_000]);
                let back = random.to(most as u64);
                let count = random.of(&COUNTS);
                let some = part(text.as_slice(), random.to(30_000), count);
                assert!(rt;
                    laid_over(&mut other, back, some) == laid_over(&mut one, back, some),
                    "capacity {capacity}, turn {turn}"
                );
            }
            if random.to(20) == 0 {
                assert!(rt; other.settle() == Ok(()));
                assert!(rt;
                    same(&rt, "one.tmp", "other.tmp"),
                    "capacity {capacity}, turn {turn}"
                );
            }
        }
    }
}

/// Bytes that a spool took are in its file once it is read or settled, and many of them at once.
#[test]
fn a_spool_that_gathers_is_written_late(rt: HostRuntime) {
    let mut out = [0u8; 3];
    let file = OsFile::File(opened(&rt, "late.tmp"));
    let mut spool = GatheringSpool::new(rt.alloc(), file, 65_536, None, 0);
    fs::write(&rt, "abc.tmp", "abc").expect(&rt, "is written");
    fs::write(&rt, "empty.tmp", "").expect(&rt, "is written");
    assert!(rt; called(&mut spool, 0, b"abc", &mut []) == Ok(3));
    assert!(rt; same(&rt, "late.tmp", "empty.tmp"));
    assert!(rt; called(&mut spool, 6, b"", &mut out) == Ok(3));
    assert!(rt; out == *b"abc");
    assert!(rt; same(&rt, "late.tmp", "abc.tmp"));
    let many = bytes(rt.alloc(), 16_384);
    fs::write(&rt, "many.tmp", many.as_slice()).expect(&rt, "is written");
    let file = OsFile::File(opened(&rt, "late.tmp"));
    let mut spool = GatheringSpool::new(rt.alloc(), file, 65_536, None, 0);
    assert!(rt; called(&mut spool, 0, many.as_slice(), &mut []) == Ok(16_384));
    assert!(rt; same(&rt, "late.tmp", "many.tmp"));
}

/// Bytes overwrite what is buffered. Those at the beginning are written to the file, after all others. Those before
/// the last clear are written nowhere.
#[test]
fn what_a_spool_holds_is_laid_over(rt: HostRuntime) {
    let file = OsFile::File(opened(&rt, "late.tmp"));
    let mut spool = GatheringSpool::new(rt.alloc(), file, 65_536, None, 0);
    fs::write(&rt, "empty.tmp", "").expect(&rt, "is written");
    fs::write(&rt, "laid.tmp", "ABCD..yz").expect(&rt, "is written");
    assert!(rt; called(&mut spool, 0, b"........", &mut []) == Ok(8));
    assert!(rt; laid_over(&mut spool, 2, b"yz") == Ok(2));
    assert!(rt; same(&rt, "late.tmp", "empty.tmp"));
    assert!(rt; laid_over(&mut spool, 8, b"ABCD") == Ok(4));
    assert!(rt; same(&rt, "late.tmp", "laid.tmp"));
    assert!(rt; called(&mut spool, 9, b"", &mut []) == Ok(0));
    assert!(rt; called(&mut spool, 0, b"..", &mut []) == Ok(2));
    assert!(rt; laid_over(&mut spool, 3, b"x") == Err(DeviceFault::Failed));
    assert!(rt; spool.position() == 10);
}

/// A spool that keeps the pages of its file has no magic number before all other bytes of a piece are stored, and
/// nothing after them.
#[test]
fn a_spool_keeps_its_pages_until_its_magic_is_laid(rt: HostRuntime) {
    let mut out = [0u8; 8];
    fs::write(&rt, "kept.tmp", "of before").expect(&rt, "is written");
    fs::write(&rt, "blank.tmp", "\0\0\0\0efore").expect(&rt, "is written");
    fs::write(&rt, "laid.tmp", "ABCD..yz").expect(&rt, "is written");
    fs::write(&rt, "cleared.tmp", "\0\0\0\0..yz").expect(&rt, "is written");
    fs::write(&rt, "few.tmp", "..").expect(&rt, "is written");
    let file = OsFile::File(opened_as_it_is(&rt, "kept.tmp"));
    let mut spool = GatheringSpool::keeping(rt.alloc(), file, 65_536, None, 9);
    assert!(rt; called(&mut spool, 9, b"", &mut []) == Ok(0));
    assert!(rt; called(&mut spool, 0, b"........", &mut []) == Ok(8));
    assert!(rt; same(&rt, "kept.tmp", "blank.tmp"));
    assert!(rt; laid_over(&mut spool, 2, b"yz") == Ok(2));
    assert!(rt; laid_over(&mut spool, 8, b"ABCD") == Ok(4));
    assert!(rt; same(&rt, "kept.tmp", "laid.tmp"));
    assert!(rt; called(&mut spool, 9, b"", &mut []) == Ok(0));
    assert!(rt; same(&rt, "kept.tmp", "cleared.tmp"));
    assert!(rt; called(&mut spool, 0, b"..", &mut []) == Ok(2));
    assert!(rt; called(&mut spool, 6, b"", &mut out) == Ok(2));
    assert!(rt; same(&rt, "kept.tmp", "few.tmp"));
}

/// What such a spool took is all of its file after it is settled, also where that is nothing.
#[test]
fn a_spool_that_is_settled_has_nothing_of_before(rt: HostRuntime) {
    fs::write(&rt, "kept.tmp", "of before").expect(&rt, "is written");
    fs::write(&rt, "empty.tmp", "").expect(&rt, "is written");
    let file = OsFile::File(opened_as_it_is(&rt, "kept.tmp"));
    let mut spool = GatheringSpool::keeping(rt.alloc(), file, 65_536, None, 9);
    assert!(rt; spool.settle() == Ok(()));
    assert!(rt; same(&rt, "kept.tmp", "empty.tmp"));
}

/// Where bytes can't be written, reading them fails. Every call then fails until the spool is cleared, and the first
/// attempt to clear it fails too.
#[test]
fn a_gathered_write_that_fails_is_told_later(rt: HostRuntime) {
    let mut out = [0u8; 2];
    fs::write(&rt, "unwritten.tmp", "....").expect(&rt, "is written");
    let file = OsFile::File(File::open(&rt, "unwritten.tmp").expect(&rt, "opens"));
    let mut spool = GatheringSpool::new(rt.alloc(), file, 65_536, None, 0);
    assert!(rt; called(&mut spool, 0, b"ab", &mut []) == Ok(2));
    assert!(rt; spool.why() == None);
    assert!(rt; called(&mut spool, 6, b"", &mut out) == Err(DeviceFault::Failed));
    assert!(rt; spool.why() == Some(NOT_OPEN));
    assert!(rt; spool.settle() == Err(DeviceFault::Failed));
    assert!(rt; called(&mut spool, 0, b"ab", &mut []) == Err(DeviceFault::Failed));
    assert!(rt; laid_over(&mut spool, 1, b"b") == Err(DeviceFault::Failed));
    assert!(rt; called(&mut spool, 9, b"", &mut []) == Err(DeviceFault::Failed));
    assert!(rt; spool.settle() == Err(DeviceFault::Failed));
    assert!(rt; !spool.is_from_short());
    assert!(rt; spool.capacity() == 65_536);
}

/// A partition that can't be written knows why.
#[test]
fn a_partition_knows_why_it_failed(rt: HostRuntime) {
    fs::write(&rt, "unwritten.tmp", "....").expect(&rt, "is written");
    let file = OsFile::File(File::open(&rt, "unwritten.tmp").expect(&rt, "opens"));
    let mut part = FilePartition::new(file).expect(&rt, "has a length");
    assert!(rt; part.length() == 4);
    assert!(rt; part.why() == None);
    assert!(rt; part.write_at(1, b"ab") == Err(DeviceFault::Failed));
    assert!(rt; part.why() == Some(NOT_OPEN));
}

/// A spool returns nothing where the file from which its bytes came is now shorter.
#[test]
fn a_spool_is_not_read_where_its_source_got_shorter(rt: HostRuntime) {
    let mut out = [0u8; 12];
    fs::write(&rt, "from.tmp", bytes(rt.alloc(), 9000).as_slice()).expect(&rt, "is written");
    let file = opened_as_it_is(&rt, "from.tmp");
    let read = OsFile::File(File::open(&rt, "from.tmp").expect(&rt, "opens"));
    let from = FileSource::new(read).expect(&rt, "has a length");
    let source = AheadSource::new(rt.alloc(), from);
    let mut source = source.ok().expect(&rt, "there is memory");
    let from = source.shared().ok();
    let through = OsFile::File(opened(&rt, "through.tmp"));
    let mut spool = GatheringSpool::new(rt.alloc(), through, 65_536, from, 0);
    assert!(rt; !spool.is_from_short());
    assert!(rt; called(&mut spool, 9, b"", &mut []) == Ok(0));
    assert!(rt; source.read_at(100, &mut out) == Ok(12));
    assert!(rt; called(&mut spool, 0, &out, &mut []) == Ok(12));
    assert!(rt; file.set_len(50).is_ok());
    assert!(rt; called(&mut spool, 6, b"", &mut out) == Err(DeviceFault::Failed));
    assert!(rt; spool.is_from_short());
    assert!(rt; called(&mut spool, 9, b"", &mut []) == Ok(0));
    assert!(rt; source.read_at(100, &mut out) == Ok(0));
}
