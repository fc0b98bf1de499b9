//! Invalid images: their first fault, and what they expand to before it.

use crate::expanding::{changed, expanded};
use abt_io::{Meter, SliceSource, Window};
use abt_runs::{RunFault, SparseRuns};
use abt_sparse::SparseFault;
use abt_sparse::SparseFault::{
    BlockSize, ChunkHeaderSize, ChunkLength, ChunkType, FileHeaderSize, Magic, Major, TooFewBlocks,
    TooManyBlocks, Truncated,
};
use mem_devices::Cut;
use mem_test_data::standing::holds;
use mem_test_data::vectors::{LONG_HEADERS, THREE_KINDS, TOO_MANY, TWO_HALVES, WITH_CHECKSUM};

/// An image, a position in it and the byte that replaces the one there, the fault, and what the blocks before it
/// expand to.
type Row = (&'static [u8], usize, u8, SparseFault, &'static [u8]);

#[rattlefmt::skip]
const ROWS: [Row; 16] = [
    // An invalid header fails before anything is written.
    (&THREE_KINDS, 0, 0, Magic, b""),
    (&THREE_KINDS, 4, 2, Major(2), b""),
    (&LONG_HEADERS, 8, 27, FileHeaderSize(27), b""),
    (&LONG_HEADERS, 10, 11, ChunkHeaderSize(11), b""),
    (&THREE_KINDS, 12, 0, BlockSize(0), b""),
    (&THREE_KINDS, 12, 6, BlockSize(6), b""),
    // Blocks before a bad chunk are written.
    (&THREE_KINDS, 28, 0xC5, ChunkType { chunk: 0, kind: 0xCAC5 }, b""),
    (&THREE_KINDS, 44, 0xC5, ChunkType { chunk: 1, kind: 0xCAC5 }, b"ABCD"),
    (&THREE_KINDS, 36, 15, ChunkLength { chunk: 0 }, b""),
    (&LONG_HEADERS, 40, 12, ChunkLength { chunk: 0 }, b""),
    (&WITH_CHECKSUM, 80, 12, ChunkLength { chunk: 3 }, b"ABCD\x04\x03\x02\x01\0\0\0\0"),
    (&TOO_MANY, 16, 2, TooManyBlocks { chunk: 1 }, b"ABCD"),
    (&THREE_KINDS, 16, 4, TooFewBlocks { have: 3 }, b"ABCD\x04\x03\x02\x01\0\0\0\0"),
    // An image that ends early, here by a chunk that claims to be longer.
    (&THREE_KINDS, 20, 4, Truncated { at: 72 }, b"ABCD\x04\x03\x02\x01\0\0\0\0"),
    (&LONG_HEADERS, 8, 49, Truncated { at: 48 }, b""),
    (&LONG_HEADERS, 20, 2, Truncated { at: 48 }, b"\0\0\0\0"),
];

/// Opens an image as classed blocks.
fn opened(image: &[u8]) -> Option<RunFault> {
    let mut source = Cut::new(SliceSource::new(image), 5);
    SparseRuns::open(&mut source, &mut Window::new(), &mut Meter::new()).err()
}

/// Whether both find this fault, and the blocks before it expand to these bytes.
fn is_found(image: &[u8], fault: SparseFault, stands: &[u8]) -> bool {
    let mut room = [b'.'; 16];
    let (answer, _) = expanded(image, [13, 13], [0, 0], &mut room);
    answer == Err(fault) && holds(&room, stands) && opened(image) == Some(RunFault::Sparse(fault))
}

#[test]
fn each_fault_is_found_by_expanding_and_by_opening(rt: HostRuntime) {
    for (image, place, byte, fault, stands) in ROWS.iter() {
        let bytes = changed(image, *place, *byte);
        assert!(rt;
            is_found(&bytes[..image.len().min(88)], *fault, stands),
            "{fault}"
        );
    }
}

#[test]
fn each_beginning_is_truncated_and_what_it_gives_stands(rt: HostRuntime) {
    for at in 0..88usize {
        let came = match at {
            0..=39 => 0,
            40..=43 => at - 40,
            44..=59 => 4,
            60..=71 => 8,
            _ => 12,
        };
        let stands = &b"ABCD\x04\x03\x02\x01\0\0\0\0"[..came];
        let fault = Truncated { at: at as u64 };
        assert!(rt; is_found(&WITH_CHECKSUM[..at], fault, stands), "at {at}");
    }
}

#[test]
fn longer_headers_that_are_cut_off_are_truncated(rt: HostRuntime) {
    for at in [31usize, 47] {
        assert!(rt; is_found(&LONG_HEADERS[..at], Truncated { at: at as u64 }, b""));
    }
}

#[test]
fn more_blocks_than_there_are_numbers_are_refused(rt: HostRuntime) {
    let fault = RunFault::Sparse(TooManyBlocks { chunk: 1 });
    assert!(rt; opened(&TWO_HALVES) == Some(fault));
}
