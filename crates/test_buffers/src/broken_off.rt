//! A file that can't grow any more has the same bytes where the last writes are buffered and where each is written at
//! once.

ghost use Rattle.std.specs.Prelude.{[], false};
ghost use Rattle.std.specs.Io.{WritesAtMost};
ghost use Rattle.std.proofs.lemmas.Bool.{false≢true};
ghost use Rattle.abt_io.specs.Moment.{no_past};

use crate::made::{Random, bytes, part};
use abt_io::read_part;
use std::alloc::Global;
use std::io;
use sys_file::{Stamp, SystemFile};
use sys_outputs::{HeldFile, Room};

// The system's error for a write that exceeds the longest file.
const TOO_LONG: i32 = 27;

// How many bytes a call writes: of a fragmented image, of one with headers alone, and of one in long runs. What has 16 KiB
// or more is not held.
const MIXES: [[usize; 8]; 3] = [
    [12, 12, 12, 12, 100, 4096, 8192, 12_288],
    [1, 4, 4, 12, 12, 12, 16, 28],
    [12, 4096, 16_383, 16_384, 16_385, 32_768, 65_524, 65_536],
];

// How many calls are made at most.
const TURNS: u32 = 1500;

/// Bytes that have so much room, as a file has where it can be no longer.
#[derive(Drop)]
struct Broken {
    bytes: Vec<u8>,
    room: usize,
}

impl Broken {
    fn new(alloc: Global, room: usize) -> Broken {
        Broken {
            bytes: Vec::new(alloc),
            room,
        }
    }

    fn write(&mut self, at: u64, bytes: &[u8]) -> io::Result<usize>
        ensures { WritesAtMost result bytes.now }
    {
        let at = at.min(self.room as u64) as usize;
        let n = bytes.len().min(self.room - at);
        let there = self.bytes.len();
        if at > there || (n == 0 && !bytes.is_empty()) {
            return Err(io::Error::from_raw_os_error(TOO_LONG));
        }
        let over = n.min(there - at);
        self.bytes[at..at + over].copy_from_slice(&bytes[..over]);
        match self.bytes.extend_from_slice(&bytes[over..n]) {
            Ok(()) => Ok(n),
            Err(_) => Err(io::Error::from_raw_os_error(TOO_LONG)),
        }
    }
}

impl SystemFile for Broken {
    ghost models = { false };

    ghost stands = { λ _. [] };

    ghost past = { λ _. no_past };

    ghost place = { λ _. 0 };

    ghost are_bytes = { λ _ t. absurd (false≢true t) };

    fn length(&self) -> io::Result<u64> {
        Ok(self.bytes.len() as u64)
    }

    fn stamp(&self) -> Option<Stamp> {
        None
    }

    fn read_at(&self, at: u64, out: &mut [u8]) -> io::Result<usize> {
        Ok(read_part(self.bytes.as_slice(), at, out))
    }

    fn write_at(&mut self, at: u64, bytes: &[u8]) -> io::Result<usize> {
        self.write(at, bytes)
    }

    fn read(&mut self, _out: &mut [u8]) -> io::Result<usize> {
        Err(io::Error::from_raw_os_error(TOO_LONG))
    }

    fn write(&mut self, _bytes: &[u8]) -> io::Result<usize> {
        Err(io::Error::from_raw_os_error(TOO_LONG))
    }

    fn go_to(&mut self, _at: u64) -> io::Result<()> {
        Err(io::Error::from_raw_os_error(TOO_LONG))
    }

    fn set_len(&mut self, _n: u64) -> io::Result<()> {
        Err(io::Error::from_raw_os_error(TOO_LONG))
    }

    fn sync(&mut self) -> io::Result<()> {
        Ok(())
    }
}

/// The two calls of a file: they return how many bytes it took, and `None` where it failed.
trait Form {
    fn put(&mut self, bytes: &[u8]) -> Option<usize>;

    fn put_over(&mut self, at: u64, bytes: &[u8]) -> Option<usize>;
}

/// The form that writes all bytes at once.
#[derive(Drop)]
struct AtOnce {
    file: Broken,
    length: u64,
}

impl Form for AtOnce {
    fn put(&mut self, bytes: &[u8]) -> Option<usize> {
        let n = self.file.write(self.length, bytes).ok()?;
        self.length = self.length.saturating_add(n as u64);
        Some(n)
    }

    fn put_over(&mut self, at: u64, bytes: &[u8]) -> Option<usize> {
        self.file.write(at, bytes).ok()
    }
}

impl Form for HeldFile<Broken> {
    fn put(&mut self, bytes: &[u8]) -> Option<usize> {
        HeldFile::put(self, bytes).ok()
    }

    fn put_over(&mut self, at: u64, bytes: &[u8]) -> Option<usize> {
        HeldFile::put_over(self, at, bytes).ok()
    }
}

/// Where the next bytes go, if they go over others, and how many they are.
fn next(random: &mut Random, length: u64, image: u64) -> (Option<u64>, usize) {
    let at = match random.to(19) {
        0 if image % 2 == 1 => Some(random.to(40)),
        1 if image % 2 == 1 => Some(random.to(length)),
        2..=9 => Some(length.saturating_sub(random.to(5000))),
        _ => None,
    };
    match at {
        Some(at) if at.saturating_add(12) <= length => (Some(at), 12),
        _ => (
            None,
            random.of(MIXES.get(image as usize % 3).unwrap_or(&[1; 8])),
        ),
    }
}

/// Whether all of these bytes were taken, at the end or over others. A write that took some is repeated for the rest.
fn all<F: Form>(form: &mut F, at: Option<u64>, bytes: &[u8]) -> bool {
    let mut done = 0u64;
    for _ in 0..4u32 {
        let rest = part(bytes, done, bytes.len());
        if rest.is_empty() {
            return true;
        }
        let taken = match at {
            Some(at) => form.put_over(at.saturating_add(done), rest),
            None => form.put(rest),
        };
        match taken {
            Some(n) => done = done.saturating_add(n as u64),
            None => return false,
        }
    }
    false
}

/// The calls of an image, up to the first that fails: whether none did.
fn given<F: Form>(form: &mut F, text: &[u8], image: u64) -> bool {
    let mut random = Random::new(image);
    let mut length = 0u64;
    for _ in 0..TURNS {
        let (at, count) = next(&mut random, length, image);
        let some = part(text, random.to(30_000), count);
        if !all(form, at, some) {
            return false;
        }
        if at.is_none() {
            length = length.saturating_add(some.len() as u64);
        }
    }
    true
}

/// Most images exceed the longest file: then a write fails, or the buffered bytes can't be written.
#[test]
fn a_file_that_breaks_off_is_the_same_where_bytes_are_held(rt: HostRuntime) {
    let text = bytes(rt.alloc(), 100_000);
    for image in 0..90u64 {
        let most = if image % 3 == 1 { 8000 } else { 300_000 };
        let room = Random::new(image + 1000).to(most) as usize;
        let mut one = AtOnce {
            file: Broken::new(rt.alloc(), room),
            length: 0,
        };
        let held = Room::new(rt.alloc());
        let mut other = HeldFile::new(Broken::new(rt.alloc(), room), held);
        let one_took = given(&mut one, text.as_slice(), image);
        let took = given(&mut other, text.as_slice(), image);
        let settled = other.settle().is_ok();
        assert!(rt; one_took == (took && settled), "image {image}");
        let want = one.file.bytes.as_slice();
        assert!(rt; other.file().bytes.as_slice() == want, "image {image}");
    }
}

/// A file ends with all bytes that were written to it, or its end fails.
#[test]
fn a_file_ends_with_all_that_it_was_given(rt: HostRuntime) {
    let held = Room::new(rt.alloc());
    let mut file = HeldFile::new(Broken::new(rt.alloc(), 30), held);
    assert!(rt; Form::put(&mut file, b"abcdefghijklmnopqrstuvwxyz") == Some(26));
    let ended = file.end().ok().expect(&rt, "ends");
    assert!(rt; ended.bytes.as_slice() == b"abcdefghijklmnopqrstuvwxyz".as_slice());
    let held = Room::new(rt.alloc());
    let mut file = HeldFile::new(Broken::new(rt.alloc(), 20), held);
    assert!(rt; Form::put(&mut file, b"abcdefghijklmnopqrstuvwxyz") == Some(26));
    assert!(rt; file.end().is_err());
}

/// A header after the beginning overwrites buffered bytes. One at the beginning is written to the file, after all
/// others.
#[test]
fn the_front_is_laid_in_the_file(rt: HostRuntime) {
    let held = Room::new(rt.alloc());
    let mut file = HeldFile::new(Broken::new(rt.alloc(), 100), held);
    assert!(rt; Form::put(&mut file, b"abcdefghijklmnopqrstuvwxyz") == Some(26));
    assert!(rt; Form::put_over(&mut file, 8, b"............") == Some(12));
    assert!(rt; file.file().bytes.is_empty());
    assert!(rt; Form::put_over(&mut file, 0, b"ABCDEFGHIJKL") == Some(12));
    assert!(rt; file.file().bytes.as_slice() == b"ABCDEFGHIJKL........uvwxyz".as_slice());
}
