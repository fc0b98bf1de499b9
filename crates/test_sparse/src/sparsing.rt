//! A raw image written as a sparse one, from end to end or where written bytes can be overwritten.

ghost use Rattle.std.specs.Prelude.{◌≤◌, ◌<◌, ◌+◌, ◌*◌, ◌^◌};

use crate::expanding::expanded;
use abt_io::{DeviceFault, Meter, SliceOutput, SliceSource, Window};
use abt_pieces::PieceFault;
use abt_pieces::PieceFault::{BadBlock, SourceChanged, TooLarge};
use abt_placed::sparsify_at;
use abt_sparsify::{Written, sparsify};
use mem_devices::{Cut, Faulty, Long};
use mem_test_data::vectors::{
    EMPTY, LETTERS, LETTERS_IMAGE, MIXED, MIXED_IMAGE, WORDS, WORDS_IMAGE,
};

/// How an image is written.
#[derive(Clone, Copy, Drop)]
enum Way {
    EndToEnd,
    WrittenOver,
}

type Answer = Result<Written, PieceFault>;

/// Bytes, how many of them the source claims to have, the block size, how many blocks a raw chunk has at most, the
/// expected result, and what is then written, where that is known.
type Row = (&'static [u8], u64, u32, u32, Answer, Option<&'static [u8]>);

/// One byte more than 2^32 - 1 blocks of 4.
const LARGE: u64 = 17_179_869_181;

#[rattlefmt::skip]
const ROWS: [Row; 9] = [
    (&WORDS, 10, 4, 1, Ok(Written { blocks: 3, chunks: 2, bytes: 60 }), Some(&WORDS_IMAGE)),
    (&MIXED, 18, 8, 100, Ok(Written { blocks: 3, chunks: 2, bytes: 72 }), Some(&MIXED_IMAGE)),
    (&LETTERS, 40, 8, 2, OF_LETTERS, Some(&LETTERS_IMAGE)),
    (&[], 0, 4, 1, Ok(Written { blocks: 0, chunks: 0, bytes: 28 }), Some(&EMPTY)),
    // A bad block size fails before the length, and both before anything is written.
    (&WORDS, LARGE, 0, 1, Err(BadBlock(0)), Some(&[])),
    (&WORDS, LARGE, 6, 1, Err(BadBlock(6)), Some(&[])),
    (&WORDS, LARGE, 65_540, 1, Err(BadBlock(65_540)), Some(&[])),
    (&WORDS, LARGE, 4, 1, Err(TooLarge), Some(&[])),
    // A source that is shorter than it claims has changed.
    (&WORDS, 12, 4, 1, Err(SourceChanged), None),
];

const OF_LETTERS: Answer = Ok(Written {
    blocks: 5,
    chunks: 3,
    bytes: 104,
});

/// What a writing came to.
#[derive(Drop)]
struct Writing {
    answer: Answer,
    /// How many bytes were written.
    written: usize,
    reads: u64,
    writes: u64,
}

/// Writes the image of a source that claims this many bytes, where the source returns and the output takes at most
/// this many bytes in a call, and a call of each fails, at 0 none.
fn write(
    way: Way,
    bytes: &[u8],
    claims: u64,
    size: u32,
    most: u32,
    cut: [usize; 2],
    failing: [u64; 2],
    room: &mut [u8; 120],
) -> Writing
    requires some { 1 ≤ most }
    requires small { 12 + most * size < 2 ^ 32 }
{
    let source = Cut::new(SliceSource::new(bytes), cut[0].max(1));
    let output = Cut::new(SliceOutput::new(room), cut[1].max(1));
    let mut source = Faulty::new(Long::new(source, claims), failing[0]);
    let mut output = Faulty::new(output, failing[1]);
    let mut w = Window::new();
    let mut m = Meter::new();
    let answer = match way {
        Way::EndToEnd => sparsify(&mut source, size, false, most, &mut output, &mut w, &mut m),
        Way::WrittenOver => sparsify_at(
            &mut source,
            size,
            false,
            most,
            &mut output,
            &mut w,
            &mut m,
        ),
    };
    Writing {
        answer,
        written: output.device.device.written().len(),
        reads: source.seen,
        writes: output.seen,
    }
}

fn is_right(way: Way, row: &Row) -> bool {
    let (bytes, claims, size, most, want, image) = *row;
    match most.checked_mul(size) {
        Some(chunk) if most > 0 && chunk < 1_000_000_000 => {
            let mut room = [0u8; 120];
            let writing = write(way, bytes, claims, size, most, [3, 5], [0, 0], &mut room);
            let stands = &room[..writing.written.min(120)];
            writing.answer == want && image.unwrap_or(stands) == stands
        }
        _ => false,
    }
}

#[test]
fn each_row_is_answered_as_it_says(rt: HostRuntime) {
    for (i, row) in ROWS.iter().enumerate() {
        assert!(rt; is_right(Way::EndToEnd, row), "row {i} from end to end");
        assert!(rt; is_right(Way::WrittenOver, row), "row {i} written over");
    }
}

/// The image of nine zeros in blocks of 4 bytes, of which the last is raw.
#[rattlefmt::skip]
const TAILED: [u8; 60] = [
    0x3a, 0xff, 0x26, 0xed, 1, 0, 0, 0, 28, 0, 12, 0, 4, 0, 0, 0, 3, 0, 0, 0, 2, 0, 0, 0, 0, 0, 0, 0,
    0xc2, 0xca, 0, 0, 2, 0, 0, 0, 16, 0, 0, 0, 0, 0, 0, 0,
    0xc1, 0xca, 0, 0, 1, 0, 0, 0, 16, 0, 0, 0, 0, 0, 0, 0,
];

#[test]
fn a_block_that_is_filled_up_is_raw_where_that_is_asked_for(rt: HostRuntime) {
    for way in [Way::EndToEnd, Way::WrittenOver] {
        let mut room = [0u8; 60];
        let mut source = SliceSource::new(&[0; 9]);
        let mut output = SliceOutput::new(&mut room);
        let mut w = Window::new();
        let mut m = Meter::new();
        let answer = match way {
            Way::EndToEnd => sparsify(&mut source, 4, true, 1, &mut output, &mut w, &mut m),
            Way::WrittenOver => sparsify_at(&mut source, 4, true, 1, &mut output, &mut w, &mut m),
        };
        let written = Written {
            blocks: 3,
            chunks: 2,
            bytes: 60,
        };
        assert!(rt; answer == Ok(written));
        assert!(rt; output.written() == TAILED.as_slice());
    }
}

/// Writes the image of `LETTERS` where a call of each device fails, at 0 none. What was written is a prefix of the
/// image. Returns the result, and how many calls each device had.
fn failing(read: u64, write_at: u64) -> (Answer, u64, u64, bool) {
    let mut room = [0u8; 120];
    let failing = [read, write_at];
    let writing = write(
        Way::EndToEnd,
        &LETTERS,
        40,
        8,
        2,
        [1000, 1000],
        failing,
        &mut room,
    );
    let stands = LETTERS_IMAGE.starts_with(&room[..writing.written.min(120)]);
    (writing.answer, writing.reads, writing.writes, stands)
}

#[test]
fn each_call_fails_and_a_beginning_stands(rt: HostRuntime) {
    let (done, reads, writes, _) = failing(0, 0);
    assert!(rt; done == OF_LETTERS);
    // The header, and for each of the three chunks its header and its data.
    assert!(rt; writes == 7);
    for n in 1..reads.saturating_add(2) {
        let (answer, seen, _, stands) = failing(n, 0);
        let failed = Err(PieceFault::Read(DeviceFault::Failed));
        assert!(rt; answer == (if n > reads { done } else { failed }));
        assert!(rt; stands && seen == n.min(reads), "read {n}");
    }
    for n in 1..9u64 {
        let (answer, _, seen, stands) = failing(0, n);
        let failed = Err(PieceFault::Write(DeviceFault::Failed));
        assert!(rt; answer == (if n > 7 { done } else { failed }));
        assert!(rt; stands && seen == n.min(7), "write {n}");
    }
}

/// Writes the image of a source that claims to have 40 bytes in one pass, where write `n` fails, at 0 none: the
/// result, and whether a reader accepts what is written.
fn placed(bytes: &[u8], n: u64) -> (Answer, bool) {
    let mut room = [0u8; 120];
    let mut expansion = [0u8; 60];
    let writing = write(
        Way::WrittenOver,
        bytes,
        40,
        8,
        2,
        [1000, 3],
        [0, n],
        &mut room,
    );
    let stands = &room[..writing.written.min(120)];
    let (read, _) = expanded(stands, [1000, 1000], [0, 0], &mut expansion);
    (writing.answer, read.is_ok())
}

#[test]
fn a_call_of_one_pass_fails_and_no_image_stands(rt: HostRuntime) {
    let failed = Err(PieceFault::Write(DeviceFault::Failed));
    for n in 1..40 {
        assert!(rt; placed(&LETTERS, n) == (failed, false), "write {n}");
    }
    assert!(rt; placed(&LETTERS[..10], 0) == (Err(SourceChanged), false));
    assert!(rt; placed(&LETTERS, 0) == (OF_LETTERS, true));
}
