//! Expanding an image that is read forward.

use abt_chunks::{Expanded, Expander, MachineProgress, expand};
use abt_io::{DeviceFault, Forward, Meter, SliceOutput, SliceSource, Window};
use abt_sparse::SparseFault;
use abt_sparse::SparseFault::{Read, Truncated, Write};
use mem_devices::{Cut, Faulty};
use mem_test_data::standing::holds;
use mem_test_data::vectors::{
    EMPTY, FRONT_OF_LONG_CHUNK, GAP_BETWEEN, LONG_HEADERS, NO_GAP, THREE_KINDS, WITH_CHECKSUM,
};

type Answer = Result<Expanded, SparseFault>;

/// An image, a position in it and the byte that replaces the one there. Then how many blocks it has, what it expands
/// to, and how many bytes of it are read.
type Row = (&'static [u8], usize, u8, u32, &'static [u8], u64);

#[rattlefmt::skip]
const ROWS: [Row; 8] = [
    (&THREE_KINDS, 6, 0, 3, b"ABCD\x04\x03\x02\x01\0\0\0\0", 72),
    // Any minor version, and any number of blocks of a checksum.
    (&THREE_KINDS, 6, 7, 3, b"ABCD\x04\x03\x02\x01\0\0\0\0", 72),
    (&WITH_CHECKSUM, 76, 0, 3, b"ABCD\x04\x03\x02\x01\0\0\0\0", 88),
    (&WITH_CHECKSUM, 76, 7, 3, b"ABCD\x04\x03\x02\x01\0\0\0\0", 88),
    (&NO_GAP, 6, 0, 3, b"ABCD\x04\x03\x02\x01WXYZ", 76),
    (&GAP_BETWEEN, 6, 0, 3, b"ABCD\0\0\0\0WXYZ", 72),
    (&LONG_HEADERS, 6, 0, 1, b"\0\0\0\0", 48),
    (&EMPTY, 6, 0, 0, b"", 28),
];

/// This image with another byte at a position, followed by bytes that are no chunk.
pub(crate) fn changed(image: &[u8], place: usize, byte: u8) -> [u8; 89] {
    let mut bytes = [0x7f; 89];
    for (cell, byte) in bytes.iter_mut().zip(image.iter()) {
        *cell = *byte;
    }
    if place < 89 {
        bytes[place] = byte;
    }
    bytes
}

/// Expands where the input returns and the output takes at most this many bytes in a call, and a call of each fails,
/// at 0 none. Returns the result, how many bytes of the image were read, how many calls each had, and how many bytes
/// were written.
pub(crate) fn expanded(
    image: &[u8],
    most: [usize; 2],
    failing: [u64; 2],
    room: &mut [u8],
) -> (Answer, [u64; 4]) {
    let input = Cut::new(Forward::new(SliceSource::new(image)), most[0].max(1));
    let output = Cut::new(SliceOutput::new(room), most[1].max(1));
    let mut input = Faulty::new(input, failing[0]);
    let mut output = Faulty::new(output, failing[1]);
    let mut w = Window::new();
    let mut m = Meter::new();
    let answer = expand(&mut input, &mut output, &mut w, &mut m);
    let read = input.device.device.position();
    let written = output.device.device.written().len() as u64;
    (answer, [read, input.seen, output.seen, written])
}

/// Bytes after the last chunk are left unread.
fn is_right(row: &Row, most: usize) -> bool {
    let (image, place, byte, blocks, gives, read) = *row;
    let image = changed(image, place, byte);
    let mut room = [b'.'; 16];
    let (answer, counts) = expanded(&image, [most, most], [0, 0], &mut room);
    let bytes = gives.len() as u64;
    answer == Ok(Expanded { blocks, bytes }) && counts[0] == read && holds(&room, gives)
}

#[test]
fn each_image_expands_in_any_cut(rt: HostRuntime) {
    for (i, row) in ROWS.iter().enumerate() {
        for most in [1, 13, 1000] {
            assert!(rt; is_right(row, most), "row {i} by {most}");
        }
    }
}

/// An image of one raw chunk of 16,385 blocks of four bytes.
fn long_image() -> [u8; 65_580] {
    let mut image = [0u8; 65_580];
    image[..40].copy_from_slice(&FRONT_OF_LONG_CHUNK);
    for i in 40..65_580 {
        image[i] = (i % 251) as u8;
    }
    image
}

#[test]
fn a_raw_chunk_longer_than_a_window_expands(rt: HostRuntime) {
    let image = long_image();
    let mut room = [0u8; 65_540];
    let (answer, _) = expanded(&image, [100_000, 100_000], [0, 0], &mut room);
    let whole = Expanded {
        blocks: 16_385,
        bytes: 65_540,
    };
    assert!(rt; answer == Ok(whole));
    assert!(rt; room.as_slice() == &image[40..]);
}

#[test]
fn a_full_output_holds_as_much_as_it_has_room_for(rt: HostRuntime) {
    let mut room = [9u8; 5];
    let (answer, _) = expanded(&THREE_KINDS, [1000, 1000], [0, 0], &mut room);
    assert!(rt; answer == Err(Write(DeviceFault::Full)));
    assert!(rt; room == *b"ABCD\x04");
}

/// Expands where a call of each device fails, at 0 none: the result, how many calls each had, and whether what was
/// written is a prefix of the expansion.
fn failing(read: u64, write: u64) -> (Answer, u64, u64, bool) {
    let mut room = [b'.'; 16];
    let (answer, counts) = expanded(&THREE_KINDS, [5, 3], [read, write], &mut room);
    let stands = &b"ABCD\x04\x03\x02\x01\0\0\0\0"[..(counts[3] as usize).min(12)];
    (answer, counts[1], counts[2], holds(&room, stands))
}

/// 28 bytes are read, three times twelve and twice four, at most five in a call; three blocks of four bytes written, at
/// most three in a call.
#[test]
fn each_call_fails_and_a_beginning_stands(rt: HostRuntime) {
    let whole = Ok(Expanded {
        blocks: 3,
        bytes: 12,
    });
    for n in 1..=18u64 {
        let (answer, reads, _, is_beginning) = failing(n, 0);
        let failed = Err(Read(DeviceFault::Failed));
        assert!(rt; answer == (if n > 17 { whole } else { failed }));
        assert!(rt; is_beginning && reads == n.min(17), "read {n}");
    }
    for n in 1..=7u64 {
        let (answer, _, writes, is_beginning) = failing(0, n);
        let failed = Err(Write(DeviceFault::Failed));
        assert!(rt; answer == (if n > 6 { whole } else { failed }));
        assert!(rt; is_beginning && writes == n.min(6), "write {n}");
    }
}

#[test]
fn a_machine_that_is_over_answers_the_same_again(rt: HostRuntime) {
    let mut room = [b'.'; 16];
    let mut input = Forward::new(SliceSource::new(&THREE_KINDS[..42]));
    let mut output = SliceOutput::new(&mut room);
    let mut w = Window::new();
    let mut m = Meter::new();
    let mut machine = Expander::open();
    let mut last = Ok(MachineProgress::More);
    for _ in 0..20 {
        if last == Ok(MachineProgress::More) {
            last = machine.step(&mut input, &mut output, &mut w, &mut m);
        }
    }
    assert!(rt; last == Err(Truncated { at: 42 }));
    assert!(rt; machine.step(&mut input, &mut output, &mut w, &mut m) == last);
    assert!(rt; input.position() == 42);
    assert!(rt; holds(&room, b"AB"));
}
