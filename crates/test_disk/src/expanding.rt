//! The command `expand`.

use crate::made::{disk, holds};
use abt_io::{Meter, Window};
use abt_sparse::SparseFault;
use cmd_common_sparse::SparseCommandFault;
use cmd_expand::{expand_one, expand_several};
use mem_disk::{Countdown, Faults, MemoryDisk};
use mem_test_commands::Listed;
use mem_test_data::vectors::{FIRST_OF_THREE, SECOND_OF_THREE, THREE_KINDS};
use sys_refusals::{FileArg, HostFault};
use sys_report::Report;

const RAW: &[u8] = b"ABCD\x04\x03\x02\x01\0\0\0\0";

const PATHS: [Listed; 2] = [("in.simg", 0), ("other", 1)];

/// Expands `in.simg`, which holds this image, to a file of this name. None, where there is no memory for it.
fn expanded(
    rt: HostRuntime,
    paths: &[Listed],
    image: &[u8],
    output: &str,
    faults: Faults,
) -> Option<(Result<(), SparseCommandFault>, MemoryDisk)> {
    let mut disk = disk(rt.alloc(), paths, &[image, b"kept"], true, faults)?;
    let mut report = Report::new(rt);
    let input = FileArg::new("IN", "in.simg");
    let output = FileArg::new("OUT", output);
    let mut w = Window::new();
    let mut m = Meter::new();
    let answer = expand_one(&mut disk, &mut report, input, output, &mut w, &mut m);
    let answer = match answer {
        Ok(()) => Ok(()),
        Err(refusal) => Err(refusal.fault),
    };
    Some((answer, disk))
}

fn is_host(answer: Result<(), SparseCommandFault>, fault: HostFault) -> bool {
    match (answer, fault) {
        (Err(SparseCommandFault::Host(HostFault::CannotOpen)), HostFault::CannotOpen) => true,
        (Err(SparseCommandFault::Host(HostFault::SameFile)), HostFault::SameFile) => true,
        (Err(SparseCommandFault::Host(HostFault::Write)), HostFault::Write) => true,
        _ => false,
    }
}

#[test]
fn an_image_is_expanded_to_a_file_that_is_made(rt: HostRuntime) {
    let (answer, disk) = expanded(rt, &PATHS, &THREE_KINDS, "out.raw", Faults::none()).expect(
        &rt,
        "there is memory",
    );
    assert!(rt; answer.is_ok());
    assert!(rt; holds(&disk, "out.raw", RAW));
    assert!(rt; holds(&disk, "in.simg", &THREE_KINDS));
    assert!(rt; holds(&disk, "other", b"kept"));
}

#[test]
fn a_file_that_is_there_is_emptied(rt: HostRuntime) {
    let (answer, disk) = expanded(rt, &PATHS, &THREE_KINDS, "other", Faults::none()).expect(
        &rt,
        "there is memory",
    );
    assert!(rt; answer.is_ok());
    assert!(rt; holds(&disk, "other", RAW));
}

#[test]
fn two_paths_to_one_file_are_refused(rt: HostRuntime) {
    let paths: [Listed; 2] = [("in.simg", 0), ("same", 0)];
    let (answer, disk) = expanded(rt, &paths, &THREE_KINDS, "same", Faults::none()).expect(
        &rt,
        "there is memory",
    );
    assert!(rt; is_host(answer, HostFault::SameFile));
    assert!(rt; holds(&disk, "in.simg", &THREE_KINDS));
}

/// Expands an image to a device that is in use: whether that returns Ok, and the disk. None, where there is no memory
/// for it.
fn expanded_to_device(rt: HostRuntime, is_allowed: bool) -> Option<(bool, MemoryDisk)> {
    let paths: [Listed; 2] = [("in.simg", 0), ("/dev/in-use", 1)];
    let files: [&[u8]; 2] = [&THREE_KINDS, b"kept"];
    let mut disk = disk(rt.alloc(), &paths, &files, true, Faults::none())?;
    disk.allows_mounted = is_allowed;
    let mut report = Report::new(rt);
    let input = FileArg::new("IN", "in.simg");
    let output = FileArg::new("OUT", "/dev/in-use");
    let mut w = Window::new();
    let mut m = Meter::new();
    let answer = expand_one(&mut disk, &mut report, input, output, &mut w, &mut m);
    Some((answer.is_ok(), disk))
}

#[test]
fn a_device_in_use_is_written_where_that_is_allowed(rt: HostRuntime) {
    let (is_done, disk) = expanded_to_device(rt, false).expect(&rt, "there is memory");
    assert!(rt; !is_done);
    assert!(rt; disk.failed == 1);
    assert!(rt; holds(&disk, "/dev/in-use", b"kept"));
    let (is_done, disk) = expanded_to_device(rt, true).expect(&rt, "there is memory");
    assert!(rt; is_done);
    assert!(rt; holds(&disk, "/dev/in-use", RAW));
}

#[test]
fn an_image_that_ends_too_soon_is_refused(rt: HostRuntime) {
    let (answer, disk) = expanded(rt, &PATHS, &THREE_KINDS[..50], "other", Faults::none()).expect(
        &rt,
        "there is memory",
    );
    let is_told = match answer {
        Err(SparseCommandFault::Sparse(SparseFault::Truncated { .. })) => true,
        _ => false,
    };
    assert!(rt; is_told);
    assert!(rt; holds(&disk, "other", b"ABCD"));
}

// The calls are `input`, `raw` and `finish`; the fourth is never made.
#[test]
fn each_call_of_the_disk_fails_in_turn(rt: HostRuntime) {
    for n in 1..5u64 {
        let faults = Faults {
            calls: Countdown::at(n),
            ..Faults::none()
        };
        let (answer, disk) = expanded(rt, &PATHS, &THREE_KINDS, "other", faults).expect(
            &rt,
            "there is memory",
        );
        let is_told = match n {
            1 | 2 => is_host(answer, HostFault::CannotOpen),
            3 => is_host(answer, HostFault::Write),
            _ => answer.is_ok(),
        };
        assert!(rt; is_told, "call {n}");
        let is_kept = holds(&disk, "other", if n < 3 { b"kept" } else { RAW });
        assert!(rt; is_kept, "call {n}");
        assert!(rt; holds(&disk, "in.simg", &THREE_KINDS), "call {n}");
    }
}

#[test]
fn each_read_and_each_write_fails_in_turn(rt: HostRuntime) {
    for n in 1..4u64 {
        let faults = Faults {
            reads: Countdown::at(n),
            ..Faults::none()
        };
        let (answer, _) = expanded(rt, &PATHS, &THREE_KINDS, "other", faults).expect(
            &rt,
            "there is memory",
        );
        let is_told = match answer {
            Err(SparseCommandFault::Sparse(SparseFault::Read(_))) => true,
            _ => false,
        };
        assert!(rt; is_told, "read {n}");
        let faults = Faults {
            writes: Countdown::at(n),
            ..Faults::none()
        };
        let (answer, _) = expanded(rt, &PATHS, &THREE_KINDS, "other", faults).expect(
            &rt,
            "there is memory",
        );
        let is_told = match answer {
            Err(SparseCommandFault::Sparse(SparseFault::Write(_))) => true,
            _ => false,
        };
        assert!(rt; is_told, "write {n}");
    }
}

// The paths of two images, of which the first writes only its second block and the other only its first; and the
// number of the image that is reported as one of another cut.
const TWO_PATHS: [(&'static str, &'static str, Option<u32>); 6] = [
    ("out.1", "out.2", Some(2)),
    ("out.2", "out.1", None),
    ("out.1", "out.02", None),
    ("out.1", "oat.2", None),
    ("out.1", "out", None),
    ("out.9", "out.10", Some(2)),
];

// The result of writing both over one another.
const LAID: &[u8] = b"ABCD\x04\x03\x02\x01\0\0\0\0";

/// Writes both over one another: the image that is reported as one of another cut, and the disk. None, where there is
/// no memory for it, or it fails for another reason.
fn laid(
    rt: HostRuntime,
    first: &'static str,
    second: &'static str,
) -> Option<(Option<u32>, MemoryDisk)> {
    let paths: [Listed; 3] = [(first, 0), (second, 1), ("raw", 2)];
    let files: [&[u8]; 3] = [&SECOND_OF_THREE, &FIRST_OF_THREE, b"kept"];
    let mut disk = disk(rt.alloc(), &paths, &files, true, Faults::none())?;
    let mut report = Report::new(rt);
    let output = FileArg::new("OUT", "raw");
    let mut w = Window::new();
    let mut m = Meter::new();
    let answer = expand_several(
        &mut disk,
        &mut report,
        &[first, second],
        output,
        rt.alloc(),
        &mut w,
        &mut m,
    );
    match answer {
        Ok(()) => Some((None, disk)),
        Err(refusal) => match refusal.fault {
            SparseCommandFault::OtherCut { image } => Some((Some(image), disk)),
            _ => None,
        },
    }
}

#[test]
fn a_piece_of_another_cut_is_told(rt: HostRuntime) {
    for (first, second, told) in TWO_PATHS.iter() {
        let (image, disk) = laid(rt, first, second).expect(&rt, "there is memory");
        assert!(rt; image == *told, "{first} {second}");
        let left = if told.is_some() {
            b"kept" as &[u8]
        } else {
            LAID
        };
        assert!(rt; holds(&disk, "raw", left), "{first} {second}");
    }
}
