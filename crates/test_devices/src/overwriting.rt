//! Outputs whose written bytes are overwritten, and those whose first bytes are written last.

use crate::calls::{filled, put};
use abt_io::*;
use mem_devices::*;
use mem_test_data::counting::Counting;

/// Overwrites bytes from a position on with these. Full, where they exceed the end.
fn put_over<O: Overwrite>(output: &mut O, at: u32, bytes: &[u8]) -> Result<(), DeviceFault> {
    if bytes.len() > WINDOW {
        return Err(DeviceFault::Full);
    }
    if at as u64 + bytes.len() as u64 > output.position() {
        return Err(DeviceFault::Full);
    }
    write_over_all(output, at as u64, bytes, &mut Meter::new())
}

/// Writes `abcdef`, then these bytes over it from a place on, and then `gh`.
pub(crate) fn written_over<O: Overwrite>(
    output: &mut O,
    at: u32,
    bytes: &[u8],
) -> Result<(), DeviceFault> {
    put(output, b"abcdef")?;
    put_over(output, at, bytes)?;
    put(output, b"gh")
}

#[test]
fn bytes_are_written_over_within_what_was_written(rt: HostRuntime) {
    let mut room = *b".........";
    let mut output = Cut::new(SliceOutput::new(&mut room), 2);
    assert!(rt; written_over(&mut output, 1, b"XYZ") == Ok(()));
    assert!(rt; output.device.written() == b"aXYZefgh".as_slice());
}

/// Three writes of two bytes, two over them, and a last one.
#[test]
fn each_call_fails_and_what_was_written_before_stands(rt: HostRuntime) {
    let left = [
        *b"........",
        *b"ab......",
        *b"abcd....",
        *b"abcdef..",
        *b"aWXdef..",
        *b"aWXYZf..",
        *b"aWXYZfgh",
    ];
    for (calls, want) in left.iter().enumerate() {
        let mut room = *b"........";
        let output = Cut::new(SliceOutput::new(&mut room), 2);
        let mut output = Faulty::new(output, calls as u64 + 1);
        let answer = written_over(&mut output, 1, b"WXYZ");
        assert!(rt; answer.is_ok() == (calls == 6), "call {calls}");
        assert!(rt; room == *want, "call {calls}");
    }
}

/// Writes `abcdef`, clears it, writes `ghij` and overwrites bytes from a position on with `XY`; then it is read.
pub(crate) fn laid_behind<L: Spool + Overwrite>(
    spool: &mut L,
    at: u32,
    out: &mut [u8],
) -> Result<(), DeviceFault> {
    put(spool, b"abcdef")?;
    spool.clear()?;
    put(spool, b"ghij")?;
    let laid = put_over(spool, at, b"XY");
    let _ = filled(spool, out);
    laid
}

/// The position, the result and what is read: after the clear, across it, before it, and past the end.
pub(crate) const LAID: [(u32, Result<(), DeviceFault>, [u8; 4]); 5] = [
    (6, Ok(()), *b"XYij"),
    (8, Ok(()), *b"ghXY"),
    (5, Err(DeviceFault::Failed), *b"ghij"),
    (0, Err(DeviceFault::Failed), *b"ghij"),
    (9, Err(DeviceFault::Full), *b"ghij"),
];

#[test]
fn a_spool_is_written_over_behind_its_clear(rt: HostRuntime) {
    for (at, want, left) in LAID {
        let (mut room, mut out) = (*b"......", *b"....");
        let mut spool = SliceSpool::new(&mut room);
        assert!(rt; laid_behind(&mut spool, at, &mut out) == want, "place {at}");
        assert!(rt; out == left, "place {at}");
        assert!(rt; spool.position() == 10, "place {at}");
    }
}

#[test]
fn a_spool_that_was_never_cleared_is_written_over(rt: HostRuntime) {
    let (mut room, mut out) = (*b"........", *b"........");
    let mut spool = SliceSpool::new(&mut room);
    assert!(rt; written_over(&mut spool, 1, b"XYZ") == Ok(()));
    assert!(rt; filled(&mut spool, &mut out).count == 8);
    assert!(rt; out == *b"aXYZefgh");
}

#[test]
fn a_spool_in_a_device_of_the_tests_is_written_over(rt: HostRuntime) {
    for (at, want, left) in LAID {
        let (mut room, mut out) = (*b"......", *b"....");
        let spool = Cut::new(SliceSpool::new(&mut room), 1);
        let mut spool = Counting::new(Faulty::new(spool, 0));
        assert!(rt; laid_behind(&mut spool, at, &mut out) == want, "place {at}");
        assert!(rt; out == left, "place {at}");
        let taken = if want.is_ok() { 12 } else { 10 };
        assert!(rt; spool.taken == taken, "place {at}");
        assert!(rt; spool.position() == 10, "place {at}");
    }
}

/// Its fourth call overwrites, and its fifth reads.
#[test]
fn a_spool_that_fails_to_lay_holds_what_it_held(rt: HostRuntime) {
    let (mut room, mut out) = (*b"......", *b"....");
    let mut spool = Faulty::new(SliceSpool::new(&mut room), 4);
    assert!(rt; laid_behind(&mut spool, 6, &mut out) == Err(DeviceFault::Failed));
    assert!(rt; out == *b"ghij");
}

#[test]
fn the_first_bytes_are_laid_last(rt: HostRuntime) {
    let mut room = *b"................";
    let mut output = FrontLast::new(SliceOutput::new(&mut room));
    assert!(rt; put(&mut output, b"ANDROID!kernel") == Ok(()));
    assert!(rt; output.output.written() == b"\0\0\0\0\0\0\0\0kernel".as_slice());
    assert!(rt; output.finish(&mut Meter::new()) == Ok(()));
    assert!(rt; output.output.written() == b"ANDROID!kernel".as_slice());
}
