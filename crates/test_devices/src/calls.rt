//! The calls that the other files make, each within its precondition; counts take no bytes.
//!
//! They have no clauses: their results are tested and not proved. For a length above a window they return `Full`.

ghost use Rattle.std.specs.Prelude.{◌≤◌, length};

use abt_io::*;
use mem_devices::*;
use std::mem::size_of;

#[test]
fn counts_take_no_bytes(rt: HostRuntime) {
    assert!(rt; size_of::<Tally>() == 0);
    assert!(rt; size_of::<Log>() == 0);
    assert!(rt; size_of::<History>() == 0);
    assert!(rt; size_of::<Meter>() == 0);
}

const TOO_LONG: FullRead = FullRead {
    count: 0,
    fault: Some(DeviceFault::Full),
};

/// Reads until `out` is full.
pub(crate) fn filled<I: Input>(input: &mut I, out: &mut [u8]) -> FullRead {
    if out.len() > WINDOW {
        return TOO_LONG;
    }
    read_full(input, out, &mut Meter::new())
}

/// Reads from a place on until `out` is full.
pub(crate) fn filled_at<S: Source>(source: &mut S, at: u32, out: &mut [u8]) -> FullRead {
    if out.len() > WINDOW {
        return TOO_LONG;
    }
    read_full_at(source, at as u64, out, &mut Meter::new())
}

/// Writes all of these bytes.
pub(crate) fn put<O: Output>(output: &mut O, bytes: &[u8]) -> Result<(), DeviceFault> {
    if bytes.len() > WINDOW {
        return Err(DeviceFault::Full);
    }
    write_out(output, bytes, &mut Meter::new())
}

/// Writes all of these bytes at a place. Full, where the partition is too short.
pub(crate) fn put_at<P: Partition>(
    partition: &mut P,
    at: u32,
    bytes: &[u8],
) -> Result<(), DeviceFault> {
    if bytes.len() > WINDOW {
        return Err(DeviceFault::Full);
    }
    if at as u64 + bytes.len() as u64 > partition.length() {
        return Err(DeviceFault::Full);
    }
    write_all_at(partition, at as u64, bytes, &mut Meter::new())
}

/// Copies a range.
pub(crate) fn copied<S: Source, O: Output>(
    source: &mut S,
    from: u32,
    n: u32,
    output: &mut O,
) -> Result<(), CopyFault> {
    let (mut w, mut m) = (Window::new(), Meter::new());
    copy_range(source, from as u64, n as u64, output, &mut w, &mut m)
}

/// Empties a spool, writes to it and reads back: how many bytes came.
pub(crate) fn through_spool<S: Spool>(
    spool: &mut S,
    bytes: &[u8],
    out: &mut [u8],
) -> Result<usize, DeviceFault>
    requires bytes { length bytes.now ≤ 65536 }
    requires room { length out.old ≤ 65536 }
{
    spool.clear()?;
    spool.write(bytes)?;
    spool.read(out)
}

/// Writes to a partition and makes it last. Full, where it is too short.
pub(crate) fn put_and_sync<P: Partition>(
    partition: &mut P,
    at: u32,
    bytes: &[u8],
) -> Result<(), DeviceFault> {
    put_at(partition, at, bytes)?;
    partition.sync()
}

/// Writes to a partition, makes it last and reads it back by one call: how many bytes came.
pub(crate) fn through_partition<P: Partition>(
    partition: &mut P,
    at: u32,
    bytes: &[u8],
    out: &mut [u8],
) -> Result<usize, DeviceFault>
    requires { length out.old ≤ 65536 }
{
    put_and_sync(partition, at, bytes)?;
    partition.read_at(at as u64, out)
}

#[test]
fn a_spool_gives_back_what_it_took_and_is_emptied(rt: HostRuntime) {
    let mut room = *b"....";
    let mut out = *b"......";
    let mut spool = Cut::new(SliceSpool::new(&mut room), 3);
    assert!(rt; spool.capacity() == 4);
    assert!(rt; through_spool(&mut spool, b"abc", &mut out) == Ok(3));
    assert!(rt; through_spool(&mut spool, b"xy", &mut out) == Ok(2));
    assert!(rt; out == *b"xyc...");
}

#[test]
fn a_partition_is_written_at_a_place_and_read_back(rt: HostRuntime) {
    let mut room = *b"......";
    let mut out = *b"...";
    {
        let mut partition = SlicePartition::new(&mut room);
        assert!(rt; partition.length() == 6);
        assert!(rt; through_partition(&mut partition, 2, b"xyz", &mut out) == Ok(3));
    }
    assert!(rt; out == *b"xyz");
    assert!(rt; room == *b"..xyz.");
}
