//! `sparse` over a disk in memory: once without a failure, with each call failing once, and where two paths are one
//! file.

ghost use Rattle.std.specs.Prelude.{IfSome};
ghost use Rattle.mem_disk.specs.Memory.{held_of};
ghost use Rattle.sys_disk.specs.World.{IsReading};

use crate::made;
use crate::made::holds;
use abt_io::{Meter, Window};
use cmd_cut::sparse_file;
use mem_disk::{Countdown, Faults, MemoryDisk};
use mem_test_commands::Listed;
use std::alloc::Global;
use sys_refusals::FileArg;
use sys_report::Report;

// Three blocks of 8 bytes: two of words that are equal, and one of others.
const RAW: [u8; 24] = [
    7, 7, 7, 7, 7, 7, 7, 7, 7, 7, 7, 7, 7, 7, 7, 7, 1, 2, 3, 4, 5, 6, 7, 8,
];

// Its sparse image.
const IMAGE: [u8; 64] = [
    0x3a, 0xff, 0x26, 0xed, 1, 0, 0, 0, 28, 0, 12, 0, 8, 0, 0, 0, 3, 0, 0, 0, 2, 0, 0, 0, 0, 0, 0,
    0, 0xc2, 0xca, 0, 0, 2, 0, 0, 0, 16, 0, 0, 0, 7, 7, 7, 7, 0xc1, 0xca, 0, 0, 1, 0, 0, 0, 20, 0,
    0, 0, 1, 2, 3, 4, 5, 6, 7, 8,
];

// What OUT held before.
const OLD: [u8; 5] = [9, 8, 7, 6, 5];

// How many calls a run makes at most.
const CALLS: u64 = 24;

// The paths: two lead to the file of IN.
const PATHS: [Listed; 3] = [("in", 0), ("link", 0), ("out", 1)];

fn disk(alloc: Global, faults: Faults) -> Option<MemoryDisk>
    ensures { IfSome result (λ disk. IsReading (held_of disk)) }
{
    made::disk(alloc, &PATHS, &[&RAW, &OLD], true, faults)
}

// Whether a run writes an image, in blocks of this many bytes.
fn run(rt: HostRuntime, disk: &mut MemoryDisk, output: &str, block: u32) -> bool
    requires { IsReading (held_of disk.old) }
{
    let mut report = Report::new(rt);
    let Ok(mut window) = Box::new(rt.alloc(), Window::new()) else {
        return false;
    };
    let w = &mut *window;
    let mut m = Meter::new();
    let input = FileArg::new("IN", "in");
    let output = FileArg::new("OUT", output);
    sparse_file(disk, &mut report, input, output, block, false, w, &mut m).is_ok()
}

#[test]
fn an_image_stands_in_the_other_file(rt: HostRuntime) {
    let mut disk = disk(rt.alloc(), Faults::none()).expect(&rt, "memory");
    assert!(rt; run(rt, &mut disk, "out", 8));
    assert!(rt; holds(&disk, "out", &IMAGE));
    assert!(rt; holds(&disk, "in", &RAW));
}

#[test]
fn an_image_stands_in_a_new_file(rt: HostRuntime) {
    let mut disk = disk(rt.alloc(), Faults::none()).expect(&rt, "memory");
    assert!(rt; run(rt, &mut disk, "new", 8));
    assert!(rt; holds(&disk, "new", &IMAGE));
    assert!(rt; holds(&disk, "out", &OLD));
}

#[test]
fn a_stream_gets_the_same_image(rt: HostRuntime) {
    let mut disk = disk(rt.alloc(), Faults::none()).expect(&rt, "memory");
    assert!(rt; run(rt, &mut disk, "-", 8));
    assert!(rt; holds(&disk, "/dev/stdout", &IMAGE));
}

#[test]
fn a_block_size_is_judged_before_out_is_emptied(rt: HostRuntime) {
    let mut disk = disk(rt.alloc(), Faults::none()).expect(&rt, "memory");
    assert!(rt; !run(rt, &mut disk, "out", 6));
    assert!(rt; holds(&disk, "out", &OLD));
}

#[test]
fn a_file_of_two_paths_is_not_written(rt: HostRuntime) {
    let mut disk = disk(rt.alloc(), Faults::none()).expect(&rt, "memory");
    assert!(rt; !run(rt, &mut disk, "link", 8));
    assert!(rt; holds(&disk, "in", &RAW));
}

// Whether OUT holds what it held, all of the image, or nothing of its magic.
fn has_no_part(disk: &MemoryDisk) -> bool {
    match disk.copy_of(1) {
        Ok(held) => holds(disk, "out", &IMAGE) || !held.as_slice().starts_with(&IMAGE[..4]),
        Err(_) => false,
    }
}

// Whether a run that meets this fault fails, and leaves no part of an image; one that meets none does its work.
fn breaks_off(rt: HostRuntime, faults: Faults) -> bool {
    let Some(mut disk) = disk(rt.alloc(), faults) else {
        return false;
    };
    let is_done = run(rt, &mut disk, "out", 8);
    let is_whole = holds(&disk, "out", &IMAGE);
    holds(&disk, "in", &RAW) && (is_done == is_whole) && has_no_part(&disk)
}

#[test]
fn each_call_fails_once(rt: HostRuntime) {
    for number in 1..CALLS {
        let at = Countdown::at(number);
        let none = Faults::none();
        assert!(rt;
            breaks_off(rt, Faults { calls: at, ..none }),
            "call {number}"
        );
        assert!(rt;
            breaks_off(rt, Faults { reads: at, ..none }),
            "read {number}"
        );
        assert!(rt;
            breaks_off(rt, Faults { writes: at, ..none }),
            "write {number}"
        );
    }
}
