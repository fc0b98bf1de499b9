//! A source that reads ahead returns what a `FileSource` returns.

use crate::made::{Random, bytes, part};
use abt_io::{DeviceFault, Source};
use std::alloc::Global;
use std::fs;
use std::fs::{File, OpenOptions};
use std::os::unix::fs::FileExt;
use std::time::{Duration, UNIX_EPOCH};
use sys_devices::{AheadSource, FileSource};
use sys_std::OsFile;

// Lengths on both sides of what is read at once, and one that is long.
const SIZES: [usize; 8] = [0, 1, 255, 257, 4095, 4097, 65_536, 200_001];

// Lengths on both sides of two limits: the most that goes through the buffer, and the most that is read at once.
const ASKS: [usize; 16] = [
    0, 1, 4, 12, 12, 12, 16, 28, 100, 255, 256, 257, 1000, 4095, 4096, 4097,
];

// How far a piece is from the next: less than is read of each, as much, and more.
const PIECES: [u64; 5] = [1, 512, 4096, 4097, 70_000];

// How many bytes an ask has at most.
const MOST: usize = 4097;

/// The result of a read. The bytes of its buffer are 0 before it.
fn answered<S: Source>(
    source: &mut S,
    at: u64,
    ask: usize,
    out: &mut [u8; MOST],
) -> Result<usize, DeviceFault> {
    let ask = ask.min(MOST);
    out[..ask].fill(0);
    source.read_at(at, &mut out[..ask])
}

/// The same file, read ahead.
fn ahead(alloc: Global, source: FileSource<OsFile>) -> Option<AheadSource<OsFile>> {
    AheadSource::new(alloc, source).ok()
}

/// Where the next read is: mostly after the last one, or a little before or after that, at a position that was read
/// before, or anywhere, also after the end.
fn place(random: &mut Random, behind: u64, before: u64, size: u64) -> u64 {
    match random.to(9) {
        0 => random.to(size.saturating_add(300)),
        1 => behind.saturating_sub(random.to(300)),
        2 => behind.saturating_add(random.to(5000)),
        3 => before,
        4 => size.saturating_sub(random.to(5000)),
        _ => behind,
    }
}

#[test]
fn a_source_that_is_read_ahead_gives_what_a_file_gives(rt: HostRuntime) {
    for (seed, size) in SIZES.iter().enumerate() {
        fs::write(&rt, "ahead.tmp", bytes(rt.alloc(), *size).as_slice()).expect(&rt, "is written");
        let one = OsFile::File(File::open(&rt, "ahead.tmp").expect(&rt, "opens"));
        let other = OsFile::File(File::open(&rt, "ahead.tmp").expect(&rt, "opens"));
        let mut one = FileSource::new(one).expect(&rt, "has a length");
        let other = FileSource::new(other).expect(&rt, "has a length");
        let mut other = ahead(rt.alloc(), other).expect(&rt, "there is memory");
        assert!(rt; one.length() == *size as u64);
        assert!(rt; other.length() == *size as u64);
        let mut random = Random::new(seed as u64);
        let mut behind = 0;
        let mut before = 0;
        let mut want = [0; MOST];
        let mut have = [0; MOST];
        for call in 0..800u32 {
            let at = place(&mut random, behind, before, *size as u64);
            let ask = random.of(&ASKS);
            let wanted = answered(&mut one, at, ask, &mut want);
            assert!(rt;
                answered(&mut other, at, ask, &mut have) == wanted,
                "size {size}, call {call}"
            );
            assert!(rt;
                part(&have, 0, ask) == part(&want, 0, ask),
                "size {size}, call {call}"
            );
            before = behind;
            behind = at.saturating_add(wanted.unwrap_or(0) as u64);
        }
    }
}

/// A raw image is read in pieces that end before the end of what was read for them. The rows are the positions where
/// each begins. In the file that is written meanwhile, what was read before stays as it was.
#[test]
fn what_was_read_of_a_raw_image_is_kept_for_the_next_piece(rt: HostRuntime) {
    for piece in PIECES.iter() {
        let image = bytes(rt.alloc(), 300_000);
        fs::write(&rt, "kept.tmp", image.as_slice()).expect(&rt, "is written");
        let read = OsFile::File(File::open(&rt, "kept.tmp").expect(&rt, "opens"));
        let source = FileSource::new(read).expect(&rt, "has a length");
        let mut source = ahead(rt.alloc(), source).expect(&rt, "there is memory");
        let mut have = [0; MOST];
        let mut at = 0;
        for _ in 0..40u32 {
            source.forget();
            let n = answered(&mut source, at, MOST, &mut have).unwrap_or(0);
            assert!(rt;
                part(&have, 0, n) == part(image.as_slice(), at, n),
                "piece {piece}"
            );
            let end = at.saturating_add(MOST as u64);
            assert!(rt; n == MOST || end > 300_000, "piece {piece}");
            at = at.saturating_add(*piece);
        }
    }
    let image = bytes(rt.alloc(), 300_000);
    fs::write(&rt, "kept.tmp", image.as_slice()).expect(&rt, "is written");
    let read = OsFile::File(File::open(&rt, "kept.tmp").expect(&rt, "opens"));
    let source = FileSource::new(read).expect(&rt, "has a length");
    let mut source = ahead(rt.alloc(), source).expect(&rt, "there is memory");
    let mut have = [0; MOST];
    assert!(rt; answered(&mut source, 0, MOST, &mut have) == Ok(MOST));
    fs::write(&rt, "kept.tmp", "").expect(&rt, "is written");
    source.forget();
    assert!(rt; answered(&mut source, 1000, MOST, &mut have) == Ok(MOST));
    assert!(rt; part(&have, 0, MOST) == part(image.as_slice(), 1000, MOST));
    assert!(rt; source.shorter() == Some(0));
    source.rest();
    assert!(rt; answered(&mut source, 1000, MOST, &mut have) == Ok(0));
}

#[test]
fn a_source_without_a_file_gives_nothing(rt: HostRuntime) {
    let mut out = [0; MOST];
    let source = ahead(rt.alloc(), FileSource::empty());
    let mut source = source.expect(&rt, "there is memory");
    assert!(rt; source.length() == 0);
    assert!(rt; answered(&mut source, 0, 12, &mut out) == Ok(0));
}

/// A folder opens, and can't be read.
#[test]
fn a_read_that_fails_is_told(rt: HostRuntime) {
    let mut out = [0; MOST];
    let folder = OsFile::File(File::open(&rt, ".").expect(&rt, "opens"));
    let mut source = FileSource::empty();
    source.file = Some(folder);
    source.size = 100_000;
    let source = ahead(rt.alloc(), source);
    let mut source = source.expect(&rt, "there is memory");
    assert!(rt; answered(&mut source, 0, 12, &mut out) == Err(DeviceFault::Failed));
    assert!(rt; answered(&mut source, 0, 12, &mut out) == Err(DeviceFault::Failed));
    assert!(rt; answered(&mut source, 0, 300, &mut out) == Err(DeviceFault::Failed));
}

/// A file that got shorter is reported only where missing bytes were returned from memory since the piece began. A
/// file whose length differs from when it was opened has changed.
#[test]
fn a_file_that_got_shorter_is_told(rt: HostRuntime) {
    let mut out = [0; MOST];
    fs::write(&rt, "short.tmp", bytes(rt.alloc(), 9000).as_slice()).expect(&rt, "is written");
    let mut options = OpenOptions::new();
    let file = options
        .write(true)
        .open(&rt, "short.tmp")
        .expect(&rt, "opens");
    let read = OsFile::File(File::open(&rt, "short.tmp").expect(&rt, "opens"));
    let source = ahead(
        rt.alloc(),
        FileSource::new(read).expect(&rt, "has a length"),
    );
    let mut source = source.expect(&rt, "there is memory");
    assert!(rt; source.shorter() == None);
    assert!(rt; answered(&mut source, 100, 12, &mut out) == Ok(12));
    assert!(rt; answered(&mut source, 112, 12, &mut out) == Ok(12));
    assert!(rt; !source.file().is_changed());
    assert!(rt; file.set_len(9001).is_ok());
    assert!(rt; source.shorter() == None);
    assert!(rt; source.file().is_changed());
    assert!(rt; file.set_len(124).is_ok());
    assert!(rt; source.shorter() == None);
    assert!(rt; file.set_len(123).is_ok());
    assert!(rt; source.shorter() == Some(123));
    assert!(rt; answered(&mut source, 112, 12, &mut out) == Ok(12));
    source.forget();
    assert!(rt; source.shorter() == None);
    assert!(rt; answered(&mut source, 112, 12, &mut out) == Ok(11));
    assert!(rt; source.shorter() == None);
    assert!(rt; source.file().is_changed());
}

/// A file of the same length is reported where it was written since.
#[test]
fn a_file_that_was_written_is_told(rt: HostRuntime) {
    fs::write(&rt, "written.tmp", "before").expect(&rt, "is written");
    let past = UNIX_EPOCH.checked_add(Duration::from_secs(1_000_000_000));
    let past = past.expect(&rt, "is a time");
    let mut options = OpenOptions::new();
    let file = options
        .write(true)
        .open(&rt, "written.tmp")
        .expect(&rt, "opens");
    assert!(rt; file.set_modified(past).is_ok());
    let read = OsFile::File(File::open(&rt, "written.tmp").expect(&rt, "opens"));
    let source = ahead(
        rt.alloc(),
        FileSource::new(read).expect(&rt, "has a length"),
    );
    let source = source.expect(&rt, "there is memory");
    assert!(rt; !source.file().is_changed());
    assert!(rt; file.write_at(b"behind", 0).is_ok());
    assert!(rt; source.file().is_changed());
    assert!(rt; file.set_modified(past).is_ok());
    assert!(rt; !source.file().is_changed());
}

/// A source that rests buffers nothing any more, and is shorter than nothing that it returned before.
#[test]
fn a_source_that_rests_is_as_it_began(rt: HostRuntime) {
    let mut out = [0; MOST];
    fs::write(&rt, "rest.tmp", "of before").expect(&rt, "is written");
    let read = OsFile::File(File::open(&rt, "rest.tmp").expect(&rt, "opens"));
    let source = ahead(
        rt.alloc(),
        FileSource::new(read).expect(&rt, "has a length"),
    );
    let mut source = source.expect(&rt, "there is memory");
    assert!(rt; answered(&mut source, 0, 2, &mut out) == Ok(2));
    fs::write(&rt, "rest.tmp", "after").expect(&rt, "is written");
    assert!(rt; answered(&mut source, 0, 2, &mut out) == Ok(2));
    assert!(rt; part(&out, 0, 2) == b"of".as_slice());
    fs::write(&rt, "rest.tmp", "").expect(&rt, "is written");
    assert!(rt; source.shorter() == Some(0));
    source.rest();
    assert!(rt; source.shorter() == None);
    fs::write(&rt, "rest.tmp", "after").expect(&rt, "is written");
    assert!(rt; answered(&mut source, 0, 2, &mut out) == Ok(2));
    assert!(rt; part(&out, 0, 2) == b"af".as_slice());
}
