//! A source that reads ahead returns the bytes of its file, whatever its reads return, and reports what fails.

use crate::short_file::ShortFile;
use abt_io::{DeviceFault, Source};
use mem_files::OpenMemoryFile;
use std::alloc::Global;
use sys_devices::{AheadSource, FileSource};
use sys_file::{Stamp, SystemFile};

// Lengths on both sides of what is read at once, and one that is long.
const SIZES: [usize; 6] = [0, 1, 257, 4097, 65_536, 200_001];

// The most bytes that a read of the file returns.
const FEW: [usize; 4] = [1, 100, 5000, 1_000_000];

// Lengths on both sides of two limits: the most that goes through the buffer, and the most that is read at once.
const ASKS: [usize; 8] = [0, 1, 12, 28, 256, 257, 1000, 4097];

// How many bytes an ask has at most.
const MOST: usize = 4097;

fn image(alloc: Global, count: usize) -> Vec<u8> {
    let mut made = Vec::new(alloc);
    for i in 0..count as u64 {
        let mixed = i.wrapping_mul(0x9e37_79b9_7f4a_7c15) >> 40;
        if made.push((mixed % 251) as u8).is_err() {
            return made;
        }
    }
    made
}

// This many bytes of these from a position on, as far as they go.
fn part(bytes: &[u8], from: u64, count: usize) -> &[u8] {
    let from = from.min(bytes.len() as u64) as usize;
    let count = count.min(bytes.len() - from);
    &bytes[from..from + count]
}

// The source over a file.
fn ahead<F: SystemFile + Drop>(alloc: Global, file: F) -> Option<AheadSource<F>> {
    match FileSource::new(file) {
        Ok(source) => AheadSource::new(alloc, source).ok(),
        Err(_) => None,
    }
}

// Where the next read is: mostly after the last one, or a little before or after that, at the beginning, or anywhere.
fn place(mixed: u64, behind: u64, size: u64) -> u64 {
    let some = mixed / 8;
    match mixed % 8 {
        0 => some % size.saturating_add(300),
        1 => behind.saturating_sub(some % 300),
        2 => behind.saturating_add(some % 5000),
        3 => 0,
        _ => behind,
    }
}

// One read. Returns `None` where it failed. Otherwise returns how many bytes it returned, if they are those of the
// image, and if it returned none only for an empty buffer, or at the end.
fn right<F: SystemFile + Drop>(
    source: &mut AheadSource<F>,
    image: &[u8],
    at: u64,
    ask: usize,
) -> Result<Option<usize>, DeviceFault> {
    let mut out = [0; MOST];
    let ask = ask.min(MOST);
    let n = source.read_at(at, &mut out[..ask])?;
    let wanted = part(image, at, n);
    let is_right = wanted.len() == n && part(&out, 0, n) == wanted;
    let is_whole = n > 0 || part(image, at, ask).is_empty();
    Ok(if is_right && is_whole { Some(n) } else { None })
}

// Many reads, and how many of them failed, if all others are right.
fn faults<F: SystemFile + Drop>(
    source: &mut AheadSource<F>,
    image: &[u8],
    turns: u64,
) -> Option<u64> {
    let mut behind = 0;
    let mut faults: u64 = 0;
    for turn in 0..turns {
        if turn % 60 == 59 {
            source.forget();
        }
        if turn % 300 == 299 {
            source.rest();
        }
        let mixed = turn.wrapping_mul(0x9e37_79b9_7f4a_7c15) >> 30;
        let at = place(mixed / 8, behind, image.len() as u64);
        let ask = ASKS[(mixed % 8) as usize];
        match right(source, image, at, ask) {
            Ok(Some(n)) => behind = at.saturating_add(n as u64),
            Ok(None) => return None,
            Err(_) => faults = faults.saturating_add(1),
        }
    }
    Some(faults)
}

#[test]
fn a_source_gives_what_stands(rt: HostRuntime) {
    for size in SIZES.iter() {
        let held = image(rt.alloc(), *size);
        let memory = OpenMemoryFile::new(image(rt.alloc(), *size), 0);
        let mut source = ahead(rt.alloc(), memory).expect(&rt, "there is memory");
        assert!(rt; source.length() == *size as u64);
        assert!(rt;
            faults(&mut source, held.as_slice(), 400) == Some(0),
            "size {size}"
        );
        for most in FEW.iter() {
            let file = ShortFile::new(image(rt.alloc(), *size), *most, 0);
            let mut source = ahead(rt.alloc(), file).expect(&rt, "there is memory");
            assert!(rt;
                faults(&mut source, held.as_slice(), 400) == Some(0),
                "size {size}, at most {most}"
            );
        }
    }
}

/// A read of the file that fails is reported, or those after it are right. Whichever fails, none returns wrong bytes.
#[test]
fn a_read_that_fails_leaves_nothing_wrong(rt: HostRuntime) {
    let held = image(rt.alloc(), 9000);
    for left in 1..50u64 {
        let file = ShortFile::new(image(rt.alloc(), 9000), 700, left);
        let mut source = ahead(rt.alloc(), file).expect(&rt, "there is memory");
        match faults(&mut source, held.as_slice(), 120) {
            Some(faults) => assert!(rt; faults <= 1, "read {left}"),
            None => assert!(rt; false, "read {left}"),
        }
    }
}

/// A failed read is reported where no bytes are buffered for it. Where there is no file, no read fails.
#[test]
fn what_fails_is_told(rt: HostRuntime) {
    let mut out = [0; 300];
    let file = ShortFile::new(image(rt.alloc(), 5000), 5000, 1);
    let mut source = ahead(rt.alloc(), file).expect(&rt, "there is memory");
    assert!(rt; source.read_at(100, &mut out) == Err(DeviceFault::Failed));
    assert!(rt; source.read_at(100, &mut out) == Ok(300));
    let none = AheadSource::new(rt.alloc(), FileSource::<OpenMemoryFile>::empty());
    let mut none = none.expect(&rt, "there is memory");
    assert!(rt; none.length() == 0);
    assert!(rt; none.read_at(0, &mut out) == Ok(0));
    assert!(rt; none.shorter() == None);
    assert!(rt; !none.file().is_changed());
}

/// However small the pieces of a raw image are, no more bytes of it are read than it has.
#[test]
fn a_raw_image_is_read_once(rt: HostRuntime) {
    let held = image(rt.alloc(), 200_000);
    let file = ShortFile::new(image(rt.alloc(), 200_000), 1_000_000, 0);
    let mut source = ahead(rt.alloc(), file).expect(&rt, "there is memory");
    for piece in 0..195u64 {
        source.forget();
        let at = piece.saturating_mul(1024);
        let wanted = part(held.as_slice(), at, MOST).len();
        let read = right(&mut source, held.as_slice(), at, MOST);
        assert!(rt; read == Ok(Some(wanted)), "at {at}");
    }
    if let Some(file) = &source.file().source.file {
        assert!(rt; file.given.get() <= 200_000);
    }
}

/// A file that got shorter is reported only where missing bytes were returned from memory since the piece began. A
/// file with another stamp has changed.
#[test]
fn a_file_that_changed_is_told(rt: HostRuntime) {
    let held = image(rt.alloc(), 9000);
    let file = ShortFile::new(image(rt.alloc(), 9000), 5000, 0);
    let mut source = ahead(rt.alloc(), file).expect(&rt, "there is memory");
    let opened = Stamp {
        length: 9000,
        second: 0,
        nanosecond: 0,
    };
    assert!(rt; source.shorter() == None);
    assert!(rt; right(&mut source, held.as_slice(), 100, 12) == Ok(Some(12)));
    assert!(rt; right(&mut source, held.as_slice(), 112, 12) == Ok(Some(12)));
    assert!(rt; !source.file().is_changed());
    let length = 124;
    for (stamp, shorter) in [
        (
            Stamp {
                second: 1,
                ..opened
            },
            None,
        ),
        (
            Stamp {
                nanosecond: 1,
                ..opened
            },
            None,
        ),
        (
            Stamp {
                length: 9001,
                ..opened
            },
            None,
        ),
        (Stamp { length, ..opened }, None),
        (
            Stamp {
                length: 123,
                ..opened
            },
            Some(123),
        ),
    ]
    .iter()
    {
        if let Some(file) = &source.file().source.file {
            file.stamp.set(*stamp);
        }
        assert!(rt; source.file().is_changed());
        assert!(rt; source.shorter() == *shorter);
    }
    source.forget();
    assert!(rt; source.shorter() == None);
    assert!(rt; right(&mut source, held.as_slice(), 112, 12) == Ok(Some(12)));
    assert!(rt; source.shorter() == Some(123));
    source.rest();
    assert!(rt; source.shorter() == None);
}
