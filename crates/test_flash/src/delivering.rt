//! Images that go through a spool in pieces.

use abt_flash::{Delivered, deliver, deliver_runs, resume};
use abt_flash_faults::FlashFault::{
    LimitTooSmall, NoSuchPiece, PartitionTooSmall, Sparse, Stopped,
};
use abt_flash_faults::{Cause, FlashFault};
use abt_io::{DeviceFault, Meter, SliceSource, Window};
use abt_runs::SparseRuns;
use abt_sparse::SparseFault::{TooManyBlocks, Truncated};
use mem_devices::{Marred, SlicePartition, SliceSpool};
use mem_test_data::counting::Counting;
use mem_test_data::standing::holds;
use mem_test_data::vectors::{
    EMPTY, GAPS, LARGEST_BLOCK, LONG_HEADERS, MIXED_IMAGE, MOST_BLOCKS, NO_GAP, ONE_GAP,
    SECOND_OF_THREE, SHORT_HEADERS, THIRD_OF_THREE, THREE_KINDS, TOO_MANY, WITH_CHECKSUM,
};

type Answer = Result<Delivered, FlashFault>;

/// An image, how many of its bytes the source has at most, the limit, the piece to begin from (0: a delivery, and no
/// resuming), and the length of the partition. Then the expected result, how many bytes of pieces the spool was
/// given, and what the partition then holds before the dots that it held.
type Row = (
    &'static [u8],
    usize,
    u32,
    u32,
    usize,
    Answer,
    u64,
    &'static [u8],
);

const ALL: usize = 1000;

#[rattlefmt::skip]
const ROWS: [Row; 35] = [
    // An image is delivered in the pieces of its limit.
    (&NO_GAP, ALL, 68, 0, 16, Ok(Delivered { pieces: 3 }), 180, b"ABCD\x04\x03\x02\x01WXYZ"),
    (&NO_GAP, ALL, 83, 0, 16, Ok(Delivered { pieces: 3 }), 180, b"ABCD\x04\x03\x02\x01WXYZ"),
    (&NO_GAP, ALL, 84, 0, 16, Ok(Delivered { pieces: 2 }), 128, b"ABCD\x04\x03\x02\x01WXYZ"),
    (&NO_GAP, ALL, 100, 0, 12, Ok(Delivered { pieces: 1 }), 76, b"ABCD\x04\x03\x02\x01WXYZ"),
    // One piece would have 72 bytes, but weighs more.
    (&THREE_KINDS, ALL, 72, 0, 16, Ok(Delivered { pieces: 2 }), 124, b"ABCD\x04\x03\x02\x01"),
    (&THREE_KINDS, ALL, 83, 0, 16, Ok(Delivered { pieces: 2 }), 124, b"ABCD\x04\x03\x02\x01"),
    (&THREE_KINDS, ALL, 84, 0, 16, Ok(Delivered { pieces: 1 }), 72, b"ABCD\x04\x03\x02\x01"),
    (&WITH_CHECKSUM, ALL, 68, 0, 16, Ok(Delivered { pieces: 2 }), 124, b"ABCD\x04\x03\x02\x01"),
    (&MIXED_IMAGE, ALL, 88, 0, 24, Ok(Delivered { pieces: 2 }), 136, b"AAAAAAAAABCDEFGHIJ\0\0\0\0\0\0"),
    // One without a written block leaves the partition as it was.
    (&EMPTY, ALL, 68, 0, 16, Ok(Delivered { pieces: 1 }), 28, b""),
    (&EMPTY, ALL, 68, 0, 0, Ok(Delivered { pieces: 1 }), 28, b""),
    (&GAPS, ALL, 68, 0, 20, Ok(Delivered { pieces: 1 }), 40, b""),
    (&LONG_HEADERS, ALL, 68, 0, 4, Ok(Delivered { pieces: 1 }), 40, b""),
    // Pieces before the first that is wanted are not written.
    (&NO_GAP, ALL, 68, 1, 16, Ok(Delivered { pieces: 3 }), 180, b"ABCD\x04\x03\x02\x01WXYZ"),
    (&NO_GAP, ALL, 68, 2, 16, Ok(Delivered { pieces: 2 }), 124, b"....\x04\x03\x02\x01WXYZ"),
    (&NO_GAP, ALL, 68, 3, 16, Ok(Delivered { pieces: 1 }), 56, b"........WXYZ"),
    (&NO_GAP, ALL, 68, 4, 16, Err(NoSuchPiece { pieces: 3 }), 0, b""),
    (&NO_GAP, ALL, 68, u32::MAX, 16, Err(NoSuchPiece { pieces: 3 }), 0, b""),
    // The limit is tested before the partition, and both before the piece.
    (&THREE_KINDS, ALL, 67, 0, 11, Err(LimitTooSmall { least: 68 }), 0, b""),
    (&THREE_KINDS, ALL, 67, 4, 11, Err(LimitTooSmall { least: 68 }), 0, b""),
    (&THREE_KINDS, ALL, 68, 0, 11, Err(PartitionTooSmall { need: 12 }), 0, b""),
    (&THREE_KINDS, ALL, 68, 4, 11, Err(PartitionTooSmall { need: 12 }), 0, b""),
    (&LONG_HEADERS, ALL, 68, 0, 3, Err(PartitionTooSmall { need: 4 }), 0, b""),
    // Numbers above 32 bits are reported as they are.
    (&MOST_BLOCKS, ALL, 68, 0, 16, Err(PartitionTooSmall { need: 17_179_869_180 }), 0, b""),
    (&LARGEST_BLOCK, ALL, 0, 0, 16, Err(LimitTooSmall { least: 4_294_967_356 }), 0, b""),
    (&LARGEST_BLOCK, ALL, 100, 0, 16, Err(LimitTooSmall { least: 4_294_967_356 }), 0, b""),
    // A beginning is truncated before anything is written.
    (&WITH_CHECKSUM, 0, 68, 0, 16, Err(Sparse(Truncated { at: 0 })), 0, b""),
    (&WITH_CHECKSUM, 27, 68, 2, 16, Err(Sparse(Truncated { at: 27 })), 0, b""),
    (&WITH_CHECKSUM, 42, 68, 0, 16, Err(Sparse(Truncated { at: 42 })), 0, b""),
    (&WITH_CHECKSUM, 59, 68, 2, 16, Err(Sparse(Truncated { at: 59 })), 0, b""),
    (&WITH_CHECKSUM, 72, 68, 0, 16, Err(Sparse(Truncated { at: 72 })), 0, b""),
    (&WITH_CHECKSUM, 87, 68, 0, 16, Err(Sparse(Truncated { at: 87 })), 0, b""),
    (&LONG_HEADERS, 31, 67, 0, 3, Err(Sparse(Truncated { at: 31 })), 0, b""),
    (&LONG_HEADERS, 47, 67, 0, 3, Err(Sparse(Truncated { at: 47 })), 0, b""),
    (&TOO_MANY, ALL, 67, 0, 3, Err(Sparse(TooManyBlocks { chunk: 1 })), 0, b""),
];

/// The last piece of an image at the limit 68.
const LAST: [(&[u8], &[u8]); 5] = [
    (&NO_GAP, &THIRD_OF_THREE),
    (&THREE_KINDS, &SECOND_OF_THREE),
    (&LONG_HEADERS, &SHORT_HEADERS),
    (&GAPS, &ONE_GAP),
    (&EMPTY, &EMPTY),
];

/// Delivers or resumes through a spool of this room: the result, and how many bytes the spool was given.
fn delivered(
    image: &[u8],
    limit: u32,
    from: u32,
    room: &mut [u8; 100],
    cells: &mut [u8],
) -> (Answer, u64) {
    let limit = limit.min(100);
    let mut source = SliceSource::new(image);
    let mut spool = Counting::new(SliceSpool::new(room));
    let mut partition = SlicePartition::new(cells);
    let mut w = Window::new();
    let mut m = Meter::new();
    let answer = if from == 0 {
        deliver(
            &mut source,
            limit,
            &mut spool,
            &mut partition,
            &mut w,
            &mut m,
        )
    } else {
        resume(
            &mut source,
            limit,
            from,
            &mut spool,
            &mut partition,
            &mut w,
            &mut m,
        )
    };
    (answer, spool.taken)
}

fn is_right(row: &Row) -> bool {
    let (image, came, limit, from, long, want, spooled, stands) = *row;
    let image = image.get(..came).unwrap_or(image);
    let mut cells = [b'.'; 26];
    let (answer, given) = delivered(
        image,
        limit,
        from,
        &mut [0; 100],
        &mut cells[..long.min(26)],
    );
    answer == want && given == spooled && holds(&cells, stands)
}

#[test]
fn each_row_is_answered_as_it_says(rt: HostRuntime) {
    for (i, row) in ROWS.iter().enumerate() {
        assert!(rt; is_right(row), "row {i}");
    }
}

#[test]
fn the_spool_is_left_with_the_last_piece(rt: HostRuntime) {
    for (image, last) in LAST.iter() {
        let mut room = [0; 100];
        let (answer, _) = delivered(image, 68, 0, &mut room, &mut [b'.'; 20]);
        assert!(rt; answer.is_ok() && room.starts_with(last));
    }
}

#[test]
fn an_opened_image_is_delivered(rt: HostRuntime) {
    let mut room = [0u8; 68];
    let mut cells = [b'.'; 12];
    let mut w = Window::new();
    let mut m = Meter::new();
    let mut source = SliceSource::new(&NO_GAP);
    let mut spool = SliceSpool::new(&mut room);
    let mut partition = SlicePartition::new(&mut cells);
    if let Ok(runs) = SparseRuns::open(&mut source, &mut w, &mut m) {
        let answer = deliver_runs(
            runs,
            &mut source,
            68,
            &mut spool,
            &mut partition,
            &mut w,
            &mut m,
        );
        assert!(rt; answer == Ok(Delivered { pieces: 3 }));
    }
    assert!(rt; cells == *b"ABCD\x04\x03\x02\x01WXYZ");
}

/// The first write over byte 4 fails and leaves EE in its range.
#[test]
fn a_stop_in_the_second_piece_is_mended_from_there_or_before(rt: HostRuntime) {
    let mut room = [0u8; 100];
    let mut cells = [0xffu8; 16];
    {
        let mut source = SliceSource::new(&NO_GAP);
        let mut spool = SliceSpool::new(&mut room);
        let mut partition = Marred::new(SlicePartition::new(&mut cells), 4, 0xee);
        let mut w = Window::new();
        let mut m = Meter::new();
        let answer = deliver(&mut source, 68, &mut spool, &mut partition, &mut w, &mut m);
        let cause = Cause::Write(DeviceFault::Failed);
        assert!(rt; answer == Err(Stopped { piece: 2, cause }));
    }
    assert!(rt; cells == *b"ABCD\xee\xee\xee\xee\xff\xff\xff\xff\xff\xff\xff\xff");
    for (from, pieces) in [(2, 2), (1, 3)] {
        let mut mended = cells;
        let (answer, _) = delivered(&NO_GAP, 68, from, &mut room, &mut mended);
        assert!(rt; answer == Ok(Delivered { pieces }));
        assert!(rt; mended == *b"ABCD\x04\x03\x02\x01WXYZ\xff\xff\xff\xff");
    }
}
