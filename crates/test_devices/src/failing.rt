//! Each call of a device fails in turn and does not reach it; sources that give a wrong length or change.

use crate::calls::{copied, filled, filled_at, put_at, through_partition, through_spool};
use abt_io::*;
use mem_devices::*;

#[test]
fn each_call_of_a_spool_fails_in_turn(rt: HostRuntime) {
    for n in 1..=4u64 {
        let mut room = *b"....";
        let mut out = *b"....";
        let mut spool = Faulty::new(SliceSpool::new(&mut room), n);
        let answer = through_spool(&mut spool, b"ab", &mut out);
        assert!(rt; answer.is_ok() == (n == 4), "call {n}");
        assert!(rt; spool.seen == n.min(3), "call {n}");
        assert!(rt;
            room == (if n <= 2 { *b"...." } else { *b"ab.." }),
            "call {n}"
        );
    }
}

#[test]
fn each_call_of_a_partition_fails_in_turn(rt: HostRuntime) {
    for n in 1..=4u64 {
        let mut room = *b"....";
        let mut out = *b"..";
        let mut partition = Faulty::new(SlicePartition::new(&mut room), n);
        let answer = through_partition(&mut partition, 1, b"ab", &mut out);
        assert!(rt; answer.is_ok() == (n == 4), "call {n}");
        assert!(rt; partition.seen == n.min(3), "call {n}");
        assert!(rt;
            room == (if n == 1 { *b"...." } else { *b".ab." }),
            "call {n}"
        );
    }
}

#[test]
fn each_read_of_a_source_fails_and_what_came_before_stands(rt: HostRuntime) {
    for n in 1..=3u64 {
        let mut room = [0u8; 4];
        let mut output = SliceOutput::new(&mut room);
        let mut source = Faulty::new(Cut::new(SliceSource::new(b"abcd"), 2), n);
        let answer = copied(&mut source, 0, 4, &mut output);
        assert!(rt; answer.is_ok() == (n == 3), "call {n}");
        assert!(rt; output.written().len() as u64 == 2 * (n - 1), "call {n}");
        assert!(rt; source.seen == n.min(2), "call {n}");
    }
}

#[test]
fn what_an_input_gave_before_a_failed_read_stands(rt: HostRuntime) {
    let mut out = *b"....";
    let input = Forward::new(SliceSource::new(b"abcd"));
    let mut input = Faulty::new(Cut::new(input, 3), 2);
    let found = filled(&mut input, &mut out);
    assert!(rt; found.count == 3);
    assert!(rt; found.fault == Some(DeviceFault::Failed));
    assert!(rt; out == *b"abc.");
    // A failed read consumes nothing.
    assert!(rt; input.device.device.position() == 3);
}

/// The first write over the byte is corrupted, and no other.
#[test]
fn a_marred_write_fills_its_range(rt: HostRuntime) {
    let mut room = *b"......";
    {
        let mut partition = Marred::new(SlicePartition::new(&mut room), 3, b'?');
        assert!(rt; put_at(&mut partition, 2, b"cde") == Err(DeviceFault::Failed));
        assert!(rt; put_at(&mut partition, 3, b"d") == Ok(()));
    }
    assert!(rt; room == *b"..?d?.");
}

#[test]
fn a_source_claims_more_than_it_has(rt: HostRuntime) {
    let mut out = [0u8; 4];
    let mut long = Long::new(SliceSource::new(b"abc"), 1 << 32);
    assert!(rt; long.length() == 1 << 32);
    assert!(rt; filled_at(&mut long, 0, &mut out).count == 3);
    assert!(rt; out == *b"abc\0");
}

#[test]
fn a_source_is_another_after_some_calls(rt: HostRuntime) {
    let mut out = [0u8; 4];
    let mut source = SwitchSource::new(b"abc", b"wxyz", 2);
    assert!(rt; source.length() == 3);
    // Three bytes, and then the end.
    assert!(rt; filled_at(&mut source, 0, &mut out).count == 3);
    assert!(rt; source.length() == 4);
    assert!(rt; filled_at(&mut source, 0, &mut out).count == 4);
    assert!(rt; out == *b"wxyz");
}
