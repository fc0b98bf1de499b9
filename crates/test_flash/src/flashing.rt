//! Images that are flashed as they are read.

use abt_chunks::MachineProgress;
use abt_flash::{Flashed, Flasher, flash};
use abt_flash_faults::FlashFault;
use abt_flash_faults::FlashFault::{PartitionTooSmall, Read, Sparse};
use abt_io::{DeviceFault, Forward, Meter, SliceSource, Window};
use abt_sparse::SparseFault::{Magic, TooFewBlocks, TooManyBlocks, Truncated};
use mem_devices::{Cut, Faulty, SlicePartition};
use mem_test_data::standing::holds;
use mem_test_data::vectors::{
    EMPTY, GAP_BETWEEN, LETTERS, LONG_HEADERS, MOST_BLOCKS, NO_GAP, THREE_KINDS, TOO_MANY,
    WITH_CHECKSUM,
};

type Answer = Result<Flashed, FlashFault>;

/// An image, how many of its bytes the source has at most, and the length of the partition. Then the expected result,
/// and what the partition then holds before the dots that it held.
type Row = (&'static [u8], usize, usize, Answer, &'static [u8]);

const ALL: usize = 1000;

#[rattlefmt::skip]
const ROWS: [Row; 22] = [
    // Raw and fill blocks are written, and the rest is left.
    (&THREE_KINDS, ALL, 16, Ok(Flashed { blocks: 2 }), b"ABCD\x04\x03\x02\x01"),
    (&WITH_CHECKSUM, ALL, 16, Ok(Flashed { blocks: 2 }), b"ABCD\x04\x03\x02\x01"),
    (&NO_GAP, ALL, 12, Ok(Flashed { blocks: 3 }), b"ABCD\x04\x03\x02\x01WXYZ"),
    (&GAP_BETWEEN, ALL, 16, Ok(Flashed { blocks: 2 }), b"ABCD....WXYZ"),
    (&EMPTY, ALL, 16, Ok(Flashed { blocks: 0 }), b""),
    (&EMPTY, ALL, 0, Ok(Flashed { blocks: 0 }), b""),
    (&LONG_HEADERS, ALL, 4, Ok(Flashed { blocks: 0 }), b""),
    // A partition that is too short fails after the header, before anything is written.
    (&THREE_KINDS, ALL, 11, Err(PartitionTooSmall { need: 12 }), b""),
    (&THREE_KINDS, 28, 11, Err(PartitionTooSmall { need: 12 }), b""),
    (&THREE_KINDS, 27, 11, Err(Sparse(Truncated { at: 27 })), b""),
    (&LONG_HEADERS, ALL, 3, Err(PartitionTooSmall { need: 4 }), b""),
    (&LONG_HEADERS, 32, 3, Err(PartitionTooSmall { need: 4 }), b""),
    (&LONG_HEADERS, 31, 3, Err(Sparse(Truncated { at: 31 })), b""),
    (&MOST_BLOCKS, ALL, 16, Err(PartitionTooSmall { need: 17_179_869_180 }), b""),
    // The blocks of a prefix are stored.
    (&WITH_CHECKSUM, 0, 16, Err(Sparse(Truncated { at: 0 })), b""),
    (&WITH_CHECKSUM, 42, 16, Err(Sparse(Truncated { at: 42 })), b"AB"),
    (&WITH_CHECKSUM, 59, 16, Err(Sparse(Truncated { at: 59 })), b"ABCD"),
    (&WITH_CHECKSUM, 87, 16, Err(Sparse(Truncated { at: 87 })), b"ABCD\x04\x03\x02\x01"),
    // So do the blocks before a bad chunk.
    (&TOO_MANY, ALL, 16, Err(Sparse(TooManyBlocks { chunk: 1 })), b"ABCD"),
    (&TOO_FEW, ALL, 16, Err(Sparse(TooFewBlocks { have: 1 })), b"ABCD"),
    (&LETTERS, ALL, 16, Err(Sparse(Magic)), b""),
    (&LETTERS, ALL, 0, Err(Sparse(Magic)), b""),
];

/// Two blocks, of which the one chunk has one: raw `ABCD`.
#[rattlefmt::skip]
const TOO_FEW: [u8; 44] = [
    0x3a, 0xff, 0x26, 0xed, 1, 0, 0, 0, 28, 0, 12, 0, 4, 0, 0, 0, 2, 0, 0, 0, 1, 0, 0, 0, 0, 0, 0, 0,
    0xc1, 0xca, 0, 0, 1, 0, 0, 0, 16, 0, 0, 0, b'A', b'B', b'C', b'D',
];

/// Flashes where each device takes or returns at most this many bytes in a call, and read `n` fails, at 0 none: the
/// result, and how many reads there were.
fn flashed(image: &[u8], most: usize, n: u64, room: &mut [u8]) -> (Answer, u64) {
    let most = most.max(1);
    let mut input = Faulty::new(Cut::new(Forward::new(SliceSource::new(image)), most), n);
    let mut partition = Cut::new(SlicePartition::new(room), most);
    let mut w = Window::new();
    let mut m = Meter::new();
    let answer = flash(&mut input, &mut partition, &mut w, &mut m);
    (answer, input.seen)
}

fn is_right(row: &Row, most: usize) -> bool {
    let (image, came, long, want, stands) = *row;
    let image = image.get(..came).unwrap_or(image);
    let mut room = [b'.'; 16];
    let (answer, _) = flashed(image, most, 0, &mut room[..long.min(16)]);
    answer == want && holds(&room, stands)
}

#[test]
fn each_row_is_answered_as_it_says(rt: HostRuntime) {
    for (i, row) in ROWS.iter().enumerate() {
        for most in [1, 13, 1000] {
            assert!(rt; is_right(row, most), "row {i} by {most}");
        }
    }
}

#[test]
fn each_read_fails_and_what_came_before_stands(rt: HostRuntime) {
    let (done, calls) = flashed(&THREE_KINDS, 5, 0, &mut [b'.'; 16]);
    assert!(rt; done == Ok(Flashed { blocks: 2 }));
    // 28 bytes, three times twelve and twice four, at most five in a call.
    assert!(rt; calls == 6 + 3 * 3 + 2);
    for n in 1..calls.saturating_add(2) {
        let mut room = [b'.'; 16];
        let (answer, seen) = flashed(&THREE_KINDS, 5, n, &mut room);
        let failed = Err(Read(DeviceFault::Failed));
        assert!(rt; answer == (if n > calls { done } else { failed }));
        assert!(rt; seen == n.min(calls));
        // The word of the first block is read in call 10, that of the second in call 14.
        let stands: &[u8] = match n {
            0..=10 => b"",
            11..=14 => b"ABCD",
            _ => b"ABCD\x04\x03\x02\x01",
        };
        assert!(rt; holds(&room, stands), "call {n}");
    }
}

#[test]
fn a_machine_that_is_over_answers_again(rt: HostRuntime) {
    let mut room = [b'.'; 8];
    let mut input = Forward::new(SliceSource::new(&TOO_FEW[..]));
    let mut partition = SlicePartition::new(&mut room);
    let mut w = Window::new();
    let mut m = Meter::new();
    let mut machine = Flasher::open();
    let mut last = Ok(MachineProgress::More);
    for _ in 0..20 {
        if last == Ok(MachineProgress::More) {
            last = machine.step(&mut input, &mut partition, &mut w, &mut m);
        }
    }
    assert!(rt; last == Err(Sparse(TooFewBlocks { have: 1 })));
    assert!(rt; machine.step(&mut input, &mut partition, &mut w, &mut m) == last);
    assert!(rt; input.position() == 44);
    assert!(rt; room == *b"ABCD....");
}
