//! Sparse images, compared with what a partition holds.

use abt_io::{Forward, Meter, SliceSource, Window};
use abt_sparse::SparseFault::{Magic, TooManyBlocks, Truncated};
use abt_verify::VerifyFault::{Differs, Sparse};
use abt_verify::{Verified, VerifyFault, verify};
use mem_devices::{Cut, Faulty};
use mem_test_data::vectors::{
    EMPTY, GAP_BETWEEN, LETTERS, LONG_HEADERS, NO_GAP, THREE_KINDS, TOO_MANY, WITH_CHECKSUM,
};

type Answer = Result<Verified, VerifyFault>;

/// An image, how many of its bytes come at most, what the partition holds, and the expected result.
type Row = (&'static [u8], usize, &'static [u8], Answer);

const ALL: usize = 1000;

#[rattlefmt::skip]
const ROWS: [Row; 30] = [
    // The partition holds the raw and fill blocks; don't care blocks may be anything.
    (&THREE_KINDS, ALL, b"ABCD\x04\x03\x02\x01....", Ok(Verified { blocks: 2 })),
    (&THREE_KINDS, ALL, b"ABCD\x04\x03\x02\x01", Ok(Verified { blocks: 2 })),
    (&WITH_CHECKSUM, ALL, b"ABCD\x04\x03\x02\x01....", Ok(Verified { blocks: 2 })),
    (&NO_GAP, ALL, b"ABCD\x04\x03\x02\x01WXYZ..", Ok(Verified { blocks: 3 })),
    (&GAP_BETWEEN, ALL, b"ABCD....WXYZ", Ok(Verified { blocks: 2 })),
    (&EMPTY, ALL, b"", Ok(Verified { blocks: 0 })),
    (&EMPTY, ALL, b"....", Ok(Verified { blocks: 0 })),
    (&LONG_HEADERS, ALL, b"", Ok(Verified { blocks: 0 })),
    // The first byte that differs, counted from the first byte of the partition.
    (&THREE_KINDS, ALL, b"aBCD\x04\x03\x02\x01....", Err(Differs { at: 0 })),
    (&THREE_KINDS, ALL, b"ABCd\x04\x03\x02\x01....", Err(Differs { at: 3 })),
    (&THREE_KINDS, ALL, b"ABcd\x04\x03\x02\x00....", Err(Differs { at: 2 })),
    (&THREE_KINDS, ALL, b"ABCD\x84\x03\x02\x01....", Err(Differs { at: 4 })),
    (&THREE_KINDS, ALL, b"ABCD\x04\x03\x02\x00....", Err(Differs { at: 7 })),
    (&GAP_BETWEEN, ALL, b"ABCD....WXYz", Err(Differs { at: 11 })),
    // Bytes after the partition's end differ too.
    (&THREE_KINDS, ALL, b"", Err(Differs { at: 0 })),
    (&THREE_KINDS, ALL, b"ABC", Err(Differs { at: 3 })),
    (&THREE_KINDS, ALL, b"ABCD\x04\x03\x02", Err(Differs { at: 7 })),
    // A prefix that the partition holds is truncated.
    (&WITH_CHECKSUM, 0, b"ABCD\x04\x03\x02\x01....", Err(Sparse(Truncated { at: 0 }))),
    (&WITH_CHECKSUM, 27, b"ABCD\x04\x03\x02\x01....", Err(Sparse(Truncated { at: 27 }))),
    (&WITH_CHECKSUM, 39, b"ABCD\x04\x03\x02\x01....", Err(Sparse(Truncated { at: 39 }))),
    (&WITH_CHECKSUM, 43, b"ABCD\x04\x03\x02\x01....", Err(Sparse(Truncated { at: 43 }))),
    (&WITH_CHECKSUM, 59, b"ABCD\x04\x03\x02\x01....", Err(Sparse(Truncated { at: 59 }))),
    (&WITH_CHECKSUM, 87, b"ABCD\x04\x03\x02\x01....", Err(Sparse(Truncated { at: 87 }))),
    (&LONG_HEADERS, 31, b"....", Err(Sparse(Truncated { at: 31 }))),
    (&LONG_HEADERS, 47, b"....", Err(Sparse(Truncated { at: 47 }))),
    // A difference before the fault is reported.
    (&WITH_CHECKSUM, 42, b"AB.D\x04\x03\x02\x01....", Err(Sparse(Truncated { at: 42 }))),
    (&WITH_CHECKSUM, 43, b"AB.D\x04\x03\x02\x01....", Err(Differs { at: 2 })),
    (&TOO_MANY, ALL, b"ABC.....", Err(Differs { at: 3 })),
    // An invalid image fails with its own fault.
    (&TOO_MANY, ALL, b"ABCD....", Err(Sparse(TooManyBlocks { chunk: 1 }))),
    (&LETTERS, ALL, b"....", Err(Sparse(Magic))),
];

/// Verifies where each device returns at most this many bytes in a call, and read `n` of the image fails, at 0 none:
/// the result, and how many reads of the image there were.
pub(crate) fn verified(image: &[u8], most: usize, n: u64, room: &[u8]) -> (Answer, u64) {
    let most = most.max(1);
    let mut input = Faulty::new(Cut::new(Forward::new(SliceSource::new(image)), most), n);
    let mut partition = Cut::new(SliceSource::new(room), most);
    let mut w = Window::new();
    let mut m = Meter::new();
    let answer = verify(&mut input, &mut partition, &mut w, &mut m);
    (answer, input.seen)
}

fn is_right(row: &Row, most: usize) -> bool {
    let (image, came, room, want) = *row;
    let image = image.get(..came).unwrap_or(image);
    let (answer, _) = verified(image, most, 0, room);
    answer == want
}

#[test]
fn each_row_is_answered_as_it_says(rt: HostRuntime) {
    for (i, row) in ROWS.iter().enumerate() {
        for most in [1, 13, 1000] {
            assert!(rt; is_right(row, most), "row {i} by {most}");
        }
    }
}
