//! An output that ends has its file hold exactly what was written to it, whichever of its calls failed.

ghost use Rattle.std.specs.Prelude.{◌≡◌, []};

use crate::faulty_file::FaultyFile;
use crate::given::{Call, Given};
use crate::spools::{has, opened, text};
use mem_files::OpenMemoryFile;
use std::alloc::Global;
use sys_file::SystemFile;
use sys_outputs::{HeldFile, HoleFile, Room};
use sys_std::OsFile;

// Pieces with late headers and zeros, short and long.
const CALLS: [Call; 20] = [
    Call::Put(12),
    Call::Put(30),
    Call::Over(20, 12),
    Call::Zeros(5_000),
    Call::Put(16_384),
    Call::Over(16_390, 12),
    Call::Zeros(16_384),
    Call::Hole(10_000),
    Call::Put(7),
    Call::Over(12, 12),
    Call::Over(3, 2),
    Call::Settle,
    Call::Put(40),
    Call::Over(30, 12),
    Call::Hole(70_000),
    Call::Hole(4_095),
    Call::Zeros(19_000),
    Call::Put(18_000),
    Call::Put(100),
    Call::Over(100, 12),
];

// A file whose headers are written late, after these calls. Whether each result was right.
fn held<F: SystemFile + Drop>(held: &mut HeldFile<F>, given: &mut Given) -> bool {
    for call in CALLS.iter() {
        if !given.held(held, call) {
            return false;
        }
    }
    true
}

// The same of a file that may have holes.
fn holes<F: SystemFile + Drop>(holes: &mut HoleFile<F>, given: &mut Given) -> bool {
    for call in CALLS.iter() {
        if !given.holes(holes, call) {
            return false;
        }
    }
    true
}

// A file in memory of which this call fails.
fn memory(alloc: Global, fails: u64) -> OpenMemoryFile
    ensures { result.bytes.items ≡ [] }
{
    OpenMemoryFile::new(Vec::new(alloc), fails)
}

/// Over a file in memory, of which any one call fails.
#[test]
fn late_headers_end_right_in_memory(rt: HostRuntime) {
    for k in 0..24u64 {
        let mut given = Given::new(rt.alloc(), text(rt.alloc()));
        let mut file = HeldFile::new(memory(rt.alloc(), k), Room::new(rt.alloc()));
        assert!(rt; held(&mut file, &mut given), "fails {k}");
        match file.end() {
            Ok(file) => {
                assert!(rt;
                    file.bytes.as_slice() == given.bytes.as_slice(),
                    "fails {k}"
                );
            }
            Err(_) => assert!(rt; k > 0),
        }
    }
}

/// The same of one in which zeros may be holes.
#[test]
fn holes_end_right_in_memory(rt: HostRuntime) {
    for k in 0..24u64 {
        let mut given = Given::new(rt.alloc(), text(rt.alloc()));
        let mut file = HoleFile::new(memory(rt.alloc(), k));
        assert!(rt; holes(&mut file, &mut given), "fails {k}");
        match file.end() {
            Ok(file) => {
                assert!(rt;
                    file.bytes.as_slice() == given.bytes.as_slice(),
                    "fails {k}"
                );
            }
            Err(_) => assert!(rt; k > 0),
        }
    }
}

/// Over a file of the system, of which any one call fails, or two that follow one another. A write that fails has
/// written half of its bytes.
#[test]
fn late_headers_end_right_in_a_file(rt: HostRuntime) {
    for k in 0..40u64 {
        let fails = (1 + k % 2 * 2) << (k / 2);
        let faulty = FaultyFile {
            file: OsFile::File(opened(&rt, b"")),
            fails,
        };
        let mut given = Given::new(rt.alloc(), text(rt.alloc()));
        let mut file = HeldFile::new(faulty, Room::new(rt.alloc()));
        assert!(rt; held(&mut file, &mut given), "fails {fails}");
        if file.end().is_ok() {
            assert!(rt; has(&rt, given.bytes.as_slice()), "fails {fails}");
        }
    }
}

/// The same of one in which zeros may be holes.
#[test]
fn holes_end_right_in_a_file(rt: HostRuntime) {
    for k in 0..40u64 {
        let fails = (1 + k % 2 * 2) << (k / 2);
        let faulty = FaultyFile {
            file: OsFile::File(opened(&rt, b"")),
            fails,
        };
        let mut given = Given::new(rt.alloc(), text(rt.alloc()));
        let mut file = HoleFile::new(faulty);
        assert!(rt; holes(&mut file, &mut given), "fails {fails}");
        if file.end().is_ok() {
            assert!(rt; has(&rt, given.bytes.as_slice()), "fails {fails}");
        }
    }
}
