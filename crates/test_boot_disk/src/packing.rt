//! `pack` and `repack` over a disk in memory.

use crate::commands::is_done;
use crate::made::{disk, holds, is_kept};
use mem_disk::Faults;
use mem_test_boot_commands::{BootCall, image};

/// The versions of boot images. The kernel of each begins after one page of 4096 bytes.
const VERSIONS: [u32; 5] = [0, 1, 2, 3, 4];

#[test]
fn the_kernel_stands_behind_the_header(rt: HostRuntime) {
    let kernel = image(rt.alloc()).expect(&rt, "has memory");
    for version in VERSIONS.iter() {
        let mut disk = disk(rt.alloc(), &[], Faults::none()).expect(&rt, "has memory");
        assert!(rt;
            is_done(rt, BootCall::Pack(*version), &mut disk) == Ok(true),
            "{version}"
        );
        let out = disk.file_at("out").expect(&rt, "is there");
        let out = disk.copy_of(out).expect(&rt, "has memory");
        assert!(rt; out.as_slice().starts_with(b"ANDROID!"), "{version}");
        assert!(rt; out.as_slice().len() >= 4096, "{version}");
        assert!(rt;
            (&out.as_slice()[4096..]).starts_with(kernel.as_slice()),
            "{version}"
        );
        assert!(rt; is_kept(rt.alloc(), &disk) == Ok(true), "{version}");
    }
}

/// Where packing fails, the command fails before OUT exists.
#[test]
fn a_version_that_there_is_none_of_makes_no_file(rt: HostRuntime) {
    let mut disk = disk(rt.alloc(), &[], Faults::none()).expect(&rt, "has memory");
    assert!(rt; is_done(rt, BootCall::Pack(5), &mut disk) == Ok(false));
    assert!(rt; disk.file_at("out").is_none());
    assert!(rt; disk.failed == 0);
}

/// The image that was packed again is packed again to the same bytes.
#[test]
fn an_image_is_packed_again(rt: HostRuntime) {
    let mut disk = disk(rt.alloc(), &[], Faults::none()).expect(&rt, "has memory");
    assert!(rt; is_done(rt, BootCall::Repack, &mut disk) == Ok(true));
    let out = disk.file_at("out").expect(&rt, "is there");
    let out = disk.copy_of(out).expect(&rt, "has memory");
    assert!(rt; out.as_slice().starts_with(b"VNDRBOOT\x04"));
    assert!(rt; is_kept(rt.alloc(), &disk) == Ok(true));
}

/// Where OUT leads to the file of IN, nothing is written.
#[test]
fn an_output_that_is_the_image_is_refused(rt: HostRuntime) {
    for command in [BootCall::Pack(0), BootCall::Pack(3), BootCall::Repack].iter() {
        let mut disk = disk(rt.alloc(), &[("out", 0)], Faults::none()).expect(&rt, "has memory");
        assert!(rt; is_done(rt, *command, &mut disk) == Ok(false));
        assert!(rt; is_kept(rt.alloc(), &disk) == Ok(true));
    }
}

/// What OUT held is gone.
#[test]
fn what_the_output_held_is_gone(rt: HostRuntime) {
    let mut disk = disk(rt.alloc(), &[("out", 1)], Faults::none()).expect(&rt, "has memory");
    assert!(rt; is_done(rt, BootCall::Pack(4), &mut disk) == Ok(true));
    assert!(rt; !holds(&disk, "out", b""));
}
