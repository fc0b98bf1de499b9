//! One failing call of each device at each position: what is returned, and what is written.

use abt_flash::{Delivered, deliver};
use abt_flash_faults::FlashFault::{Read, Stopped};
use abt_flash_faults::{Cause, FlashFault};
use abt_io::{DeviceFault, Meter, SliceSource, Window};
use mem_devices::{Faulty, SlicePartition, SliceSpool};
use mem_test_data::vectors::NO_GAP;

#[derive(Clone, Copy, Drop)]
enum Device {
    Source,
    Spool,
    Partition,
}

/// What the partition holds after this many pieces are written.
const STATES: [&[u8; 16]; 4] = [
    b"................",
    b"ABCD............",
    b"ABCD\x04\x03\x02\x01........",
    b"ABCD\x04\x03\x02\x01WXYZ....",
];

/// Delivers `NO_GAP` in three pieces, where call `n` of a device fails, at 0 none: the result, and how many calls
/// that device had.
fn delivered(
    failing: Device,
    n: u64,
    cells: &mut [u8; 16],
) -> (Result<Delivered, FlashFault>, u64) {
    let (read, spooled, written) = match failing {
        Device::Source => (n, 0, 0),
        Device::Spool => (0, n, 0),
        Device::Partition => (0, 0, n),
    };
    let mut room = [0u8; 68];
    let mut source = Faulty::new(SliceSource::new(&NO_GAP), read);
    let mut spool = Faulty::new(SliceSpool::new(&mut room), spooled);
    let mut partition = Faulty::new(SlicePartition::new(cells), written);
    let mut w = Window::new();
    let mut m = Meter::new();
    let answer = deliver(&mut source, 68, &mut spool, &mut partition, &mut w, &mut m);
    let seen = match failing {
        Device::Source => source.seen,
        Device::Spool => spool.seen,
        Device::Partition => partition.seen,
    };
    (answer, seen)
}

/// Whether a failing call of this device may be the cause of a stop.
fn is_of(failing: Device, cause: Cause) -> bool {
    match (failing, cause) {
        (Device::Source, Cause::Read(DeviceFault::Failed)) => true,
        (Device::Spool, Cause::SpoolWrite(DeviceFault::Failed)) => true,
        (Device::Spool, Cause::SpoolRead(DeviceFault::Failed)) => true,
        (Device::Partition, Cause::Write(DeviceFault::Failed)) => true,
        (Device::Partition, Cause::Sync(DeviceFault::Failed)) => true,
        _ => false,
    }
}

/// Whether the partition holds this many pieces, and nothing else.
fn stand(pieces: u32, cells: &[u8; 16]) -> bool {
    match STATES.get(pieces as usize) {
        Some(state) => *state == cells,
        None => false,
    }
}

/// Whether the delivery in which call `n` of a device fails ends as it should, where the device has `calls` calls.
fn is_right(failing: Device, n: u64, calls: u64) -> bool {
    let mut cells = [b'.'; 16];
    let (answer, seen) = delivered(failing, n, &mut cells);
    let ended = match answer {
        Ok(_) => n > calls && stand(3, &cells),
        // The pieces before this one are stored, of this one all or nothing, and none after it.
        Err(Stopped { piece, cause }) => {
            is_of(failing, cause)
                && piece > 0
                && piece < 4
                && (stand(piece, &cells) || stand(piece.saturating_sub(1), &cells))
        }
        // Before anything was written.
        Err(Read(_)) => matches!(failing, Device::Source) && stand(0, &cells),
        Err(_) => false,
    };
    ended && seen == n.min(calls)
}

/// How often each is called at least; the partition has a write and a sync for each piece.
const CALLS: [(Device, u64); 3] = [
    (Device::Source, 12),
    (Device::Spool, 9),
    (Device::Partition, 6),
];

#[test]
fn each_call_of_each_device_fails_and_whole_pieces_stand(rt: HostRuntime) {
    for (failing, few) in CALLS.iter() {
        let (done, calls) = delivered(*failing, 0, &mut [b'.'; 16]);
        assert!(rt; done == Ok(Delivered { pieces: 3 }));
        assert!(rt; calls >= *few);
        for n in 1..calls.saturating_add(2) {
            assert!(rt; is_right(*failing, n, calls), "call {n}");
        }
    }
}
