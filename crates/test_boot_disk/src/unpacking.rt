//! `unpack` over a disk in memory.

use crate::commands::is_done;
use crate::made::{disk, holds, is_kept};
use mem_disk::Faults;
use mem_test_boot_commands::BootCall;

/// Its parts except the table, by their paths.
const PARTS: [(&str, &[u8]); 4] = [
    ("parts/vendor_ramdisk", b"0123456789"),
    ("parts/dtb", b"dtb"),
    ("parts/bootconfig", b"a=b\nc"),
    ("parts/fragment.0", b"0123456789"),
];

#[test]
fn each_part_stands_under_its_name(rt: HostRuntime) {
    let mut disk = disk(rt.alloc(), &[], Faults::none()).expect(&rt, "has memory");
    assert!(rt; is_done(rt, BootCall::Unpack, &mut disk) == Ok(true));
    for (name, bytes) in PARTS.iter() {
        assert!(rt; holds(&disk, name, bytes), "{name}");
    }
    assert!(rt; disk.file_at("parts/table").is_some());
    assert!(rt; disk.file_at("parts/kernel").is_none());
    assert!(rt; disk.file_at("parts/pack.words").is_none());
    assert!(rt; is_kept(rt.alloc(), &disk) == Ok(true));
}

#[test]
fn the_words_stand_beside_the_parts(rt: HostRuntime) {
    let mut disk = disk(rt.alloc(), &[], Faults::none()).expect(&rt, "has memory");
    assert!(rt; is_done(rt, BootCall::UnpackWords, &mut disk) == Ok(true));
    let words = disk.file_at("parts/pack.words").expect(&rt, "is there");
    let words = disk.copy_of(words).expect(&rt, "has memory");
    assert!(rt;
        words.as_slice().starts_with(
            b"--escaped\n--vendor\n--version=4\n--page=2048\n--dtb=parts/dtb\n"
        )
    );
}

/// Where the image is one of the parts, none is written.
#[test]
fn a_part_that_is_the_image_is_refused_first(rt: HostRuntime) {
    let mut disk = disk(rt.alloc(), &[("parts/table", 0)], Faults::none()).expect(
        &rt,
        "has memory",
    );
    assert!(rt; is_done(rt, BootCall::Unpack, &mut disk) == Ok(false));
    assert!(rt; disk.file_at("parts/vendor_ramdisk").is_none());
    assert!(rt; is_kept(rt.alloc(), &disk) == Ok(true));
}

/// Where two parts are one file, the file holds the first.
#[test]
fn two_parts_in_one_file_are_refused(rt: HostRuntime) {
    let links = [("parts/vendor_ramdisk", 1), ("parts/dtb", 1)];
    let mut disk = disk(rt.alloc(), &links, Faults::none()).expect(&rt, "has memory");
    assert!(rt; is_done(rt, BootCall::Unpack, &mut disk) == Ok(false));
    assert!(rt; holds(&disk, "parts/dtb", b"0123456789"));
    assert!(rt; disk.file_at("parts/table").is_none());
    assert!(rt; is_kept(rt.alloc(), &disk) == Ok(true));
}
