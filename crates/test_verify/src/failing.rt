//! One failing read at each position: of the image for the one machine, of the partition for the other.

use crate::{raw_images, sparse_images};
use abt_io::DeviceFault;
use abt_verify::{Verified, VerifyFault};
use mem_test_data::vectors::{MIXED, NO_GAP};

const STANDS: &[u8; 12] = b"ABCD\x04\x03\x02\x01WXYZ";

#[test]
fn each_failed_read_of_the_image_is_told(rt: HostRuntime) {
    let (done, calls) = sparse_images::verified(&NO_GAP, 5, 0, STANDS);
    assert!(rt; done == Ok(Verified { blocks: 3 }));
    for n in 1..calls.saturating_add(2) {
        let (answer, seen) = sparse_images::verified(&NO_GAP, 5, n, STANDS);
        let failed = Err(VerifyFault::Read(DeviceFault::Failed));
        assert!(rt; answer == (if n > calls { done } else { failed }));
        assert!(rt; seen == n.min(calls));
    }
}

#[test]
fn each_failed_read_of_the_partition_is_told(rt: HostRuntime) {
    let (done, calls) = raw_images::verified(18, 18, 4, 0, &MIXED);
    assert!(rt; done == Ok(Verified { blocks: 5 }));
    for n in 1..calls.saturating_add(2) {
        let (answer, seen) = raw_images::verified(18, 18, 4, n, &MIXED);
        let failed = Err(VerifyFault::PartitionRead(DeviceFault::Failed));
        assert!(rt; answer == (if n > calls { done } else { failed }));
        assert!(rt; seen == n.min(calls));
    }
}
