//! `info` over a disk in memory.

use crate::commands::is_done;
use crate::made::disk;
use mem_disk::Faults;
use mem_test_boot_commands::BootCall;

#[test]
fn the_check_says_no_of_an_image_that_packing_would_write_otherwise(rt: HostRuntime) {
    let mut disk = disk(rt.alloc(), &[], Faults::none()).expect(&rt, "has memory");
    assert!(rt; is_done(rt, BootCall::InfoCheck, &mut disk) == Ok(false));
    assert!(rt; disk.failed == 0);
}
