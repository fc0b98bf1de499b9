//! The file devices, on real files in the folder where the tests run.

use crate::calls::{filled_at, through_partition, through_spool};
use crate::overwriting::{LAID, laid_behind, written_over};
use abt_io::*;
use std::alloc::Alloc;
use std::fs;
use std::fs::{File, OpenOptions};
use std::process::Abort;
use std::rt::Files;
use sys_devices::{FilePartition, FileSource, GatheringSpool};
use sys_std::OsFile;

/// A file of this name with this text, opened for reading and writing.
fn opened<R: Files + Abort>(rt: &R, name: &str, text: &str) -> R::File {
    fs::write(rt, name, text).expect(rt, "is written");
    let mut options = OpenOptions::new();
    options.read(true).write(true);
    options.open(rt, name).expect(rt, "opens")
}

/// The file of this name has this text.
fn has<R: Files + Alloc>(rt: &R, name: &str, text: &str) -> bool {
    match fs::read_to_string(rt, name) {
        Ok(found) => found.as_str() == text,
        Err(_) => false,
    }
}

#[test]
fn a_file_is_read_at_any_place(rt: HostRuntime) {
    let mut out = [0u8; 4];
    let file = OsFile::File(opened(&rt, "source.tmp", "abcdef"));
    let mut source = FileSource::new(file).expect(&rt, "has a length");
    assert!(rt; source.length() == 6);
    assert!(rt; filled_at(&mut source, 2, &mut out).count == 4);
    assert!(rt; out == *b"cdef");
    let mut nothing: FileSource<OsFile> = FileSource::empty();
    assert!(rt; filled_at(&mut nothing, 0, &mut out).count == 0);
}

#[test]
fn a_file_is_written_at_a_place_and_read_back(rt: HostRuntime) {
    let mut out = [0u8; 2];
    let file = OsFile::File(opened(&rt, "partition.tmp", "......"));
    let mut partition = FilePartition::new(file).expect(&rt, "has a length");
    assert!(rt; through_partition(&mut partition, 3, b"ab", &mut out) == Ok(2));
    assert!(rt; out == *b"ab");
    assert!(rt; has(&rt, "partition.tmp", "...ab."));
}

#[test]
fn a_spool_file_holds_its_capacity_and_is_emptied(rt: HostRuntime) {
    let mut out = [0u8; 6];
    let file = OsFile::File(opened(&rt, "spool.tmp", ""));
    let mut spool = GatheringSpool::new(rt.alloc(), file, 4, None, 0);
    assert!(rt; spool.capacity() == 4);
    assert!(rt; through_spool(&mut spool, b"abcdef", &mut out) == Ok(4));
    assert!(rt; through_spool(&mut spool, b"xyz", &mut out) == Ok(3));
    assert!(rt; out == *b"xyzd\0\0");
    assert!(rt; has(&rt, "spool.tmp", "xyz"));
}

#[test]
fn a_spool_file_is_written_over_behind_its_clear(rt: HostRuntime) {
    for (at, want, left) in LAID {
        let mut out = *b"....";
        let file = OsFile::File(opened(&rt, "laid.tmp", ""));
        let mut spool = GatheringSpool::new(rt.alloc(), file, 6, None, 0);
        assert!(rt; laid_behind(&mut spool, at, &mut out) == want, "place {at}");
        assert!(rt; out == left, "place {at}");
        assert!(rt; spool.position() == 10, "place {at}");
    }
}

#[test]
fn a_spool_file_that_was_never_cleared_is_written_over(rt: HostRuntime) {
    let file = OsFile::File(opened(&rt, "uncleared.tmp", ""));
    let mut spool = GatheringSpool::new(rt.alloc(), file, 8, None, 0);
    assert!(rt; written_over(&mut spool, 1, b"XYZ") == Ok(()));
    assert!(rt; spool.settle() == Ok(()));
    assert!(rt; has(&rt, "uncleared.tmp", "aXYZefgh"));
}

/// The system fails to sync a device that keeps nothing, so a sync that returns Ok there made no such call.
#[test]
fn a_sync_that_the_system_refuses_fails(rt: HostRuntime) {
    let file = OsFile::File(opened(&rt, "/dev/null", ""));
    let mut partition = FilePartition::new(file).expect(&rt, "has a length");
    assert!(rt; partition.length() == 0);
    assert!(rt; partition.sync() == Err(DeviceFault::Failed));
}

#[test]
fn a_file_opened_for_reading_takes_nothing(rt: HostRuntime) {
    let mut out = [0u8; 2];
    fs::write(&rt, "refused.tmp", "....").expect(&rt, "is written");
    let file = OsFile::File(File::open(&rt, "refused.tmp").expect(&rt, "opens"));
    let mut spool = GatheringSpool::new(rt.alloc(), file, 4, None, 0);
    assert!(rt; through_spool(&mut spool, b"ab", &mut out) == Err(DeviceFault::Failed));
    let file = OsFile::File(File::open(&rt, "refused.tmp").expect(&rt, "opens"));
    let mut partition = FilePartition::new(file).expect(&rt, "has a length");
    assert!(rt; through_partition(&mut partition, 0, b"ab", &mut out) == Err(DeviceFault::Failed));
}
