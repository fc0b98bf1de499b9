//! A spool over a file whose calls fail never returns a wrong Ok. It returns what it took. Its file has exactly that
//! after it is settled, and no magic number after it is cleared. What is lost is reported.

ghost use Rattle.std.specs.Prelude.{◌≤◌, IsTrue, length};

use crate::faulty_file::{FaultyFile, WHY};
use crate::taken::{Call, Taken, front};
use abt_io::{DeviceFault, Input, Output, Overwrite, Spool, WINDOW};
use mem_files::OpenMemoryFile;
use std::alloc::{Alloc, Global};
use std::fs;
use std::fs::OpenOptions;
use std::process::Abort;
use std::rt::Files;
use sys_devices::GatheringSpool;
use sys_file::SystemFile;
use sys_std::OsFile;

// Two pieces with late headers, which are read back in part.
const CALLS: [Call; 24] = [
    Call::Write(12),
    Call::Write(30),
    Call::Over(20, 8),
    Call::Write(16_384),
    Call::Write(5),
    Call::Over(3, 2),
    Call::Over(16_426, 12),
    Call::Over(16_431, 4),
    Call::Read(12),
    Call::Settle,
    Call::Over(16_300, 12),
    Call::Read(100),
    Call::Settle,
    Call::Clear,
    Call::Clear,
    Call::Write(20),
    Call::Write(16_400),
    Call::Settle,
    Call::Over(16_420, 4),
    Call::Read(300),
    Call::Settle,
    Call::Clear,
    Call::Write(7),
    Call::Settle,
];

// The name of the spool's file.
const NAME: &str = "spool.tmp";

// What the file held before.
const BEFORE: &[u8] = b"ABCD of before";

/// Bytes of which none is zero.
pub(crate) fn text(alloc: Global) -> Vec<u8> {
    let mut made = Vec::new(alloc);
    for i in 0..20_000u32 {
        if made.push((i.wrapping_mul(7) % 251) as u8 | 1).is_err() {
            return made;
        }
    }
    made
}

/// The spool's file, which holds these bytes.
pub(crate) fn opened<R: Files + Abort>(rt: &R, before: &[u8]) -> R::File {
    fs::write(rt, NAME, before).expect(rt, "is written");
    let mut options = OpenOptions::new();
    options.read(true).write(true);
    options.open(rt, NAME).expect(rt, "opens")
}

// A spool over a file of these bytes, which may keep its pages.
fn gathering<F: SystemFile + Drop>(
    alloc: Global,
    file: F,
    stands: usize,
    is_keeping: bool,
) -> GatheringSpool<F>
    requires { IsTrue F.models → length (F.stands file) ≤ stands }
{
    if is_keeping {
        GatheringSpool::keeping(alloc, file, 40_000, None, stands as u64)
    } else {
        GatheringSpool::new(alloc, file, 40_000, None, stands as u64)
    }
}

// Whether the file has what it should have: all that was taken, where it is settled, and no magic number, where it is
// cleared.
fn stands<R: Files + Alloc>(rt: &R, taken: &Taken) -> bool {
    if !taken.is_settled && !taken.is_cleared {
        return true;
    }
    let Ok(stands) = fs::read(rt, NAME) else {
        return false;
    };
    if taken.is_settled && stands.as_slice() != taken.bytes.as_slice() {
        return false;
    }
    !taken.is_cleared || stands.is_empty() || front(stands.as_slice(), 4) == [0; 4].as_slice()
}

// Whether a spool that is cleared takes and returns bytes.
fn takes_again<F: SystemFile + Drop>(spool: &mut GatheringSpool<F>) -> bool {
    let mut out = [0; 8];
    spool.clear().is_ok()
        && spool.write(b"ab") == Ok(2)
        && spool.read(&mut out) == Ok(2)
        && front(&out, 2) == b"ab".as_slice()
}

// Whether it does so after no more calls of its file fail. Each that fails is reported by two clears at most.
fn goes_on<F: SystemFile + Drop>(spool: &mut GatheringSpool<F>) -> bool {
    for _ in 0..6 {
        if takes_again(spool) {
            return true;
        }
    }
    false
}

// The spool returns the right result in all calls, and its file is right too.
fn is_right<R: Files + Alloc>(
    rt: &R,
    alloc: Global,
    spool: &mut GatheringSpool<FaultyFile>,
    text: &[u8],
) -> bool {
    let mut taken = Taken::new(alloc);
    for call in CALLS.iter() {
        if !taken.does(spool, call, text) || !stands(rt, &taken) {
            return false;
        }
    }
    goes_on(spool)
}

/// Any one call of the file fails, or two that follow one another.
#[test]
fn a_spool_is_right_where_calls_fail(rt: HostRuntime) {
    let text = text(rt.alloc());
    for k in 0..64u64 {
        let fails = (1 + k / 2 % 2 * 2) << (k / 4);
        let file = FaultyFile {
            file: OsFile::File(opened(&rt, BEFORE)),
            fails,
        };
        let mut spool = gathering(rt.alloc(), file, BEFORE.len(), k % 2 == 1);
        assert!(rt;
            is_right(&rt, rt.alloc(), &mut spool, text.as_slice()),
            "fails {fails}"
        );
    }
}

/// The same over a file in memory, of which any one call fails.
#[test]
fn a_spool_is_right_in_memory(rt: HostRuntime) {
    let text = text(rt.alloc());
    for k in 0..40u64 {
        let mut before = Vec::new(rt.alloc());
        assert!(rt; before.extend_from_slice(BEFORE).is_ok());
        let stands = before.len();
        let file = OpenMemoryFile::new(before, k / 2);
        let mut spool = gathering(rt.alloc(), file, stands, k % 2 == 1);
        let mut taken = Taken::new(rt.alloc());
        for call in CALLS.iter() {
            assert!(rt; taken.does(&mut spool, call, text.as_slice()), "fails {k}");
        }
        assert!(rt; goes_on(&mut spool), "fails {k}");
    }
}

// Whether every call fails, since something is lost.
fn is_lost<F: SystemFile + Drop>(spool: &mut GatheringSpool<F>) -> bool {
    let mut out = [0; 8];
    spool.write(b"ab") == Err(DeviceFault::Failed)
        && spool.read(&mut out) == Err(DeviceFault::Failed)
        && spool.settle() == Err(DeviceFault::Failed)
}

/// Whether the file has just these bytes.
pub(crate) fn has<R: Files + Alloc>(rt: &R, bytes: &[u8]) -> bool {
    match fs::read(rt, NAME) {
        Ok(stands) => stands.as_slice() == bytes,
        Err(_) => false,
    }
}

/// Where bytes in the file could not be overwritten, they may be any bytes: so all is lost, and that was reported.
#[test]
fn bytes_that_are_laid_in_part_are_lost(rt: HostRuntime) {
    let file = FaultyFile {
        file: OsFile::File(opened(&rt, b"")),
        fails: 0b10,
    };
    let mut spool = gathering(rt.alloc(), file, 0, false);
    assert!(rt; spool.write(b"........") == Ok(8));
    let end = spool.position();
    assert!(rt; end == 8);
    assert!(rt; spool.write_over(end - 8, b"ABCD") == Err(DeviceFault::Failed));
    assert!(rt; spool.why() == Some(WHY));
    assert!(rt; has(&rt, b"AB......"));
    assert!(rt; is_lost(&mut spool));
    assert!(rt; spool.clear().is_ok());
    assert!(rt; has(&rt, b""));
}

/// Where a file could not be emptied, its bytes may be gone: so all is lost, and that was reported.
#[test]
fn what_is_cleared_in_part_is_lost(rt: HostRuntime) {
    for is_keeping in [false, true] {
        let file = FaultyFile {
            file: OsFile::File(opened(&rt, b"")),
            fails: 0b110,
        };
        let mut spool = gathering(rt.alloc(), file, 0, is_keeping);
        assert!(rt; spool.write(b"ABCDEFGH") == Ok(8));
        assert!(rt; spool.settle().is_ok());
        assert!(rt; spool.clear().is_err());
        assert!(rt; spool.why() == Some(WHY));
        assert!(rt; is_lost(&mut spool));
        assert!(rt; goes_on(&mut spool));
    }
}

/// Where the beginning of a file could not be zeroed, it was emptied. The next clear reports it once more.
#[test]
fn a_file_without_zeros_is_emptied(rt: HostRuntime) {
    let file = FaultyFile {
        file: OsFile::File(opened(&rt, BEFORE)),
        fails: 1,
    };
    let mut spool = gathering(rt.alloc(), file, BEFORE.len(), true);
    assert!(rt; spool.clear().is_err());
    assert!(rt; has(&rt, b""));
    assert!(rt; is_lost(&mut spool));
    assert!(rt; spool.clear().is_err());
    assert!(rt; spool.clear().is_ok());
    assert!(rt; has(&rt, b""));
}

/// Where a file could not be cut off, it was emptied.
#[test]
fn a_file_that_is_not_cut_off_is_emptied(rt: HostRuntime) {
    let file = FaultyFile {
        file: OsFile::File(opened(&rt, BEFORE)),
        fails: 0b10,
    };
    let mut spool = gathering(rt.alloc(), file, BEFORE.len(), false);
    assert!(rt; spool.write(b"ab") == Ok(2));
    assert!(rt; spool.settle().is_err());
    assert!(rt; has(&rt, b""));
    assert!(rt; is_lost(&mut spool));
    assert!(rt; has(&rt, b""));
    assert!(rt; spool.clear().is_err());
    assert!(rt; goes_on(&mut spool));
}

/// What a failed write left is cut off. This holds for buffered bytes, which are lost, and for many bytes, whose
/// write failed.
#[test]
fn what_a_failed_write_left_is_cut_off(rt: HostRuntime) {
    let text = text(rt.alloc());
    let many = front(text.as_slice(), 16_384);
    let file = FaultyFile {
        file: OsFile::File(opened(&rt, b"")),
        fails: 1,
    };
    let mut spool = gathering(rt.alloc(), file, 0, false);
    assert!(rt; spool.write(b"abcdefgh") == Ok(8));
    assert!(rt; spool.settle().is_err());
    assert!(rt; has(&rt, b""));
    let file = FaultyFile {
        file: OsFile::File(opened(&rt, b"")),
        fails: 1,
    };
    let mut spool = gathering(rt.alloc(), file, 0, false);
    assert!(rt; many.len() <= WINDOW);
    assert!(rt; spool.write(many) == Err(DeviceFault::Failed));
    assert!(rt; spool.why() == Some(WHY));
    assert!(rt; spool.write(b"ab") == Ok(2));
    assert!(rt; spool.settle().is_ok());
    assert!(rt; has(&rt, b"ab"));
}

/// What the file held before is cut off, though it is not cleared.
#[test]
fn a_spool_begins_over_what_stands(rt: HostRuntime) {
    let file = OsFile::File(opened(&rt, BEFORE));
    let mut spool = gathering(rt.alloc(), file, BEFORE.len(), false);
    assert!(rt; spool.write(b"ab") == Ok(2));
    assert!(rt; spool.settle().is_ok());
    assert!(rt; has(&rt, b"ab"));
}
