//! Raw images, delivered and resumed without an intermediate sparse image, forward and in one pass.

use abt_flash::{Delivered, deliver_raw, deliver_raw_at, resume_raw, resume_raw_at};
use abt_flash_faults::FlashFault::{
    BadBlock, LimitTooSmall, NoSuchPiece, PartitionTooSmall, SourceChanged, Stopped, TooLarge,
};
use abt_flash_faults::{Cause, FlashFault};
use abt_io::{DeviceFault, Meter, SliceSource, Window};
use mem_devices::{Faulty, Long, SlicePartition, SliceSpool};
use mem_test_data::counting::Counting;
use mem_test_data::standing::holds;
use mem_test_data::vectors::{MIXED, MIXED_FIRST, MIXED_SECOND, OVER_MIXED};

type Answer = Result<Delivered, FlashFault>;

/// How many bytes the source has and how many it claims, the block size, the piece to begin from (0: a delivery, and
/// no resuming), and the length of the partition. Then the expected result, how many bytes of pieces the spool was
/// given, and what the partition then holds before the dots that it held. The limit is 88.
type Row = (usize, u64, u32, u32, usize, Answer, u64, &'static [u8]);

/// One byte more than 2^32 - 1 blocks of 4.
const LARGE: u64 = 17_179_869_181;

#[rattlefmt::skip]
const ROWS: [Row; 16] = [
    (18, 18, 8, 0, 24, Ok(Delivered { pieces: 2 }), 136, &OVER_MIXED),
    (18, 18, 8, 1, 26, Ok(Delivered { pieces: 2 }), 136, &OVER_MIXED),
    (18, 18, 8, 2, 26, Ok(Delivered { pieces: 1 }), 60, b"................IJ\0\0\0\0\0\0"),
    (18, 18, 8, 3, 26, Err(NoSuchPiece { pieces: 2 }), 0, b""),
    (18, 18, 8, u32::MAX, 26, Err(NoSuchPiece { pieces: 2 }), 0, b""),
    (0, 0, 8, 0, 0, Ok(Delivered { pieces: 1 }), 28, b""),
    // The faults are found in this order.
    (18, LARGE, 0, 0, 0, Err(BadBlock(0)), 0, b""),
    (18, LARGE, 6, 3, 0, Err(BadBlock(6)), 0, b""),
    (18, LARGE, 65_540, 0, 0, Err(BadBlock(65_540)), 0, b""),
    (18, LARGE, 4, 0, 0, Err(TooLarge), 0, b""),
    (18, 18, 28, 0, 0, Err(LimitTooSmall { least: 92 }), 0, b""),
    (18, 18, 28, 3, 0, Err(LimitTooSmall { least: 92 }), 0, b""),
    (18, 18, 8, 0, 23, Err(PartitionTooSmall { need: 24 }), 0, b""),
    (18, 18, 8, 3, 23, Err(PartitionTooSmall { need: 24 }), 0, b""),
    // A source that is shorter than it claims has changed. Planning the first piece asks whether the third block
    // continues. In planning alone that fault is returned as it is.
    (18, 32, 8, 0, 32, Err(Stopped { piece: 1, cause: Cause::SourceChanged }), 0, b""),
    (18, 32, 8, 2, 32, Err(SourceChanged), 0, b""),
];

/// Delivers or resumes: the result, and how many bytes the spool was given.
fn delivered(
    bytes: &[u8],
    claims: u64,
    block: u32,
    from: u32,
    room: &mut [u8; 88],
    cells: &mut [u8],
) -> (Answer, u64) {
    let mut source = Long::new(SliceSource::new(bytes), claims);
    let mut spool = Counting::new(SliceSpool::new(room));
    let mut partition = SlicePartition::new(cells);
    let mut w = Window::new();
    let mut m = Meter::new();
    let answer = if from == 0 {
        deliver_raw(
            &mut source,
            block,
            88,
            &mut spool,
            &mut partition,
            &mut w,
            &mut m,
        )
    } else {
        resume_raw(
            &mut source,
            block,
            88,
            from,
            &mut spool,
            &mut partition,
            &mut w,
            &mut m,
        )
    };
    (answer, spool.taken)
}

/// The same in one pass over the source: the result.
fn delivered_at(
    bytes: &[u8],
    claims: u64,
    block: u32,
    from: u32,
    room: &mut [u8; 88],
    cells: &mut [u8],
) -> Answer {
    let mut source = Long::new(SliceSource::new(bytes), claims);
    let mut spool = Counting::new(SliceSpool::new(room));
    let mut partition = SlicePartition::new(cells);
    let mut w = Window::new();
    let mut m = Meter::new();
    if from == 0 {
        return deliver_raw_at(
            &mut source,
            block,
            88,
            &mut spool,
            &mut partition,
            &mut w,
            &mut m,
        );
    }
    resume_raw_at(
        &mut source,
        block,
        88,
        from,
        &mut spool,
        &mut partition,
        &mut w,
        &mut m,
    )
}

fn is_right(row: &Row) -> bool {
    let (has, claims, block, from, long, want, spooled, stands) = *row;
    let mut room = [0u8; 88];
    let mut cells = [b'.'; 32];
    let bytes = &MIXED[..has.min(18)];
    let written = &mut cells[..long.min(32)];
    let (answer, given) = delivered(bytes, claims, block, from, &mut room, written);
    answer == want
        && given == spooled
        && holds(&cells, stands)
        && (answer.is_err() || has == 0 || room.starts_with(&MIXED_SECOND))
}

/// Whether one pass returns and leaves what the forward way does: on the partition, and after an Ok in the spool.
fn is_the_same_in_one_pass(row: &Row) -> bool {
    let (has, claims, block, from, long, want, _, stands) = *row;
    let mut room = [0u8; 88];
    let mut cells = [b'.'; 32];
    let bytes = &MIXED[..has.min(18)];
    let answer = delivered_at(
        bytes,
        claims,
        block,
        from,
        &mut room,
        &mut cells[..long.min(32)],
    );
    answer == want
        && holds(&cells, stands)
        && (answer.is_err() || has == 0 || room.starts_with(&MIXED_SECOND))
}

/// Delivers `MIXED` in one pass over it, where call `n` of the spool fails, at 0 none: the result, and how many calls
/// it had.
fn where_the_spool_fails(n: u64, room: &mut [u8; 88]) -> (Answer, u64) {
    let mut cells = [b'.'; 32];
    let mut source = SliceSource::new(&MIXED);
    let mut spool = Faulty::new(SliceSpool::new(room), n);
    let mut partition = SlicePartition::new(&mut cells);
    let mut w = Window::new();
    let mut m = Meter::new();
    let answer = deliver_raw_at(
        &mut source,
        8,
        88,
        &mut spool,
        &mut partition,
        &mut w,
        &mut m,
    );
    (answer, spool.seen)
}

/// Whether the spool holds a whole piece, or does not begin with a magic number.
fn holds_no_part(room: &[u8; 88]) -> bool {
    room.starts_with(&MIXED_FIRST)
        || room.starts_with(&MIXED_SECOND)
        || !room.starts_with(&MIXED_FIRST[..4])
}

#[test]
fn a_failing_spool_is_left_without_a_part_of_an_image(rt: HostRuntime) {
    let mut room = [0u8; 88];
    let (answer, calls) = where_the_spool_fails(0, &mut room);
    assert!(rt; answer == Ok(Delivered { pieces: 2 }));
    assert!(rt; calls > 12);
    for n in 1..calls.saturating_add(1) {
        let mut room = [0u8; 88];
        let stopped = match where_the_spool_fails(n, &mut room).0 {
            Err(Stopped { cause, .. }) => {
                cause == Cause::SpoolWrite(DeviceFault::Failed)
                    || cause == Cause::SpoolRead(DeviceFault::Failed)
            }
            _ => false,
        };
        assert!(rt; stopped && holds_no_part(&room), "call {n}");
    }
}

#[test]
fn one_pass_answers_and_leaves_the_same(rt: HostRuntime) {
    for (i, row) in ROWS.iter().enumerate() {
        assert!(rt; is_the_same_in_one_pass(row), "row {i}");
    }
}

#[test]
fn each_row_is_answered_as_it_says(rt: HostRuntime) {
    for (i, row) in ROWS.iter().enumerate() {
        assert!(rt; is_right(row), "row {i}");
    }
}
