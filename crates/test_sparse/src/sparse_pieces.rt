//! Cutting sparse images: published pieces, hostile and changing sources, and devices that fail.

use abt_io::{Meter, SliceOutput, SliceSource, Window};
use abt_pieces::{Cutter, Piece, PieceFault, least_limit};
use abt_runs::SparseRuns;
use mem_devices::{Faulty, SwitchSource};
use mem_test_data::vectors::*;

/// What a cut came to.
#[derive(Drop)]
struct Cutting {
    /// How many pieces are whole, and the block after the last of each.
    count: usize,
    ends: [u32; 4],
    /// How many bytes they have together, and the longest.
    bytes: u64,
    longest: u64,
    /// The number of the fault that ended it; 0 where none did.
    fault: u32,
}

impl Cutting {
    fn take(&mut self, piece: Piece) {
        if let Some(end) = self.ends.get_mut(self.count) {
            *end = piece.past;
        }
        self.count = self.count.saturating_add(1);
        self.bytes = self.bytes.saturating_add(piece.bytes);
        self.longest = self.longest.max(piece.bytes);
    }

    /// Ended by the fault of this number.
    fn by(self, fault: u32) -> Cutting {
        Cutting { fault, ..self }
    }
}

/// Cuts the image of a source, with all pieces one after another. After a fault the same fault is returned again.
fn cut(
    source: &mut Faulty<SwitchSource<'_>>,
    limit: u32,
    output: &mut Faulty<SliceOutput<'_>>,
) -> Cutting {
    let mut w = Window::new();
    let mut m = Meter::new();
    let mut cutting = Cutting {
        count: 0,
        ends: [0; 4],
        bytes: 0,
        longest: 0,
        fault: 0,
    };
    let runs = match SparseRuns::open(source, &mut w, &mut m) {
        Ok(runs) => runs,
        Err(fault) => return cutting.by(fault.number()),
    };
    let mut cutter = match Cutter::open(runs, limit) {
        Ok(cutter) => cutter,
        Err(fault) => return cutting.by(fault.number()),
    };
    for _ in 0..8 {
        match cutter.next_piece(source, output, &mut w, &mut m) {
            Ok(Some(piece)) => cutting.take(piece),
            Ok(None) => break,
            Err(fault) => {
                let again = cutter.next_piece(source, output, &mut w, &mut m);
                let is_same = again == Err(fault);
                return cutting.by(if is_same { fault.number() } else { u32::MAX });
            }
        }
    }
    cutting
}

/// The block after the last of a piece, and its bytes.
type Whole = (u32, &'static [u8]);

const OF_THREE_KINDS: [Whole; 2] = [(1, &FIRST_OF_THREE), (3, &SECOND_OF_THREE)];

const OF_NO_GAP: [Whole; 3] = [
    (1, &FIRST_OF_THREE),
    (2, &SECOND_OF_THREE),
    (3, &THIRD_OF_THREE),
];

const OF_EMPTY: [Whole; 1] = [(0, &EMPTY)];

/// An image, the limit, and its pieces.
type Row = (&'static [u8], u32, &'static [Whole]);

#[rattlefmt::skip]
const ROWS: [Row; 13] = [
    // The don't care at the end weighs nothing, so it goes with the fill. One piece would have 72 bytes, but weighs 84.
    (&THREE_KINDS, 68, &OF_THREE_KINDS),
    (&THREE_KINDS, 72, &OF_THREE_KINDS),
    (&THREE_KINDS, 83, &OF_THREE_KINDS),
    (&THREE_KINDS, 84, &[(3, &THREE_KINDS)]),
    (&NO_GAP, 68, &OF_NO_GAP),
    (&NO_GAP, 84, &[(2, &THREE_KINDS), (3, &THIRD_OF_THREE)]),
    (&GAP_BETWEEN, 96, &[(3, &GAP_BETWEEN)]),
    (&GAP_BETWEEN, 95, &[(2, &FIRST_OF_THREE), (3, &THIRD_OF_THREE)]),
    (&MIXED_IMAGE, 88, &[(2, &MIXED_FIRST), (3, &MIXED_SECOND)]),
    (&EMPTY, 68, &OF_EMPTY),
    (&GAPS, 68, &[(5, &ONE_GAP)]),
    (&LONG_HEADERS, 68, &[(1, &SHORT_HEADERS)]),
    (&MOST_BLOCKS, 68, &[(4_294_967_295, &MOST_BLOCKS)]),
];

/// Cuts an image that becomes another after this many calls, where a call of each device fails, at 0 none. Also
/// returns how many bytes were written, and how many calls each device had.
fn cut_changing(
    images: [&[u8]; 2],
    calls: u64,
    limit: u32,
    failing: [u64; 2],
    room: &mut [u8],
) -> (Cutting, usize, [u64; 2]) {
    let source = SwitchSource::new(images[0], images[1], calls);
    let mut source = Faulty::new(source, failing[0]);
    let mut output = Faulty::new(SliceOutput::new(room), failing[1]);
    let cutting = cut(&mut source, limit, &mut output);
    let written = output.device.written().len();
    (cutting, written, [source.seen, output.seen])
}

/// How many bytes of these pieces are still to be written; None where what is written is no beginning of them.
fn left(pieces: &[Whole], written: &[u8]) -> Option<usize> {
    let mut rest = written;
    let mut left = 0usize;
    for (_, bytes) in pieces.iter() {
        let n = rest.len().min(bytes.len());
        if !bytes.starts_with(&rest[..n]) {
            return None;
        }
        rest = &rest[n..];
        left = left.saturating_add(bytes.len() - n);
    }
    if rest.is_empty() { Some(left) } else { None }
}

fn is_cut_into(image: &[u8], limit: u32, pieces: &[Whole]) -> bool {
    let mut room = [0u8; 256];
    let (cutting, written, _) = cut_changing([image, image], 0, limit, [0, 0], &mut room);
    for (end, (past, _)) in cutting.ends.iter().zip(pieces.iter()) {
        if *end != *past {
            return false;
        }
    }
    let whole = left(pieces, &room[..written.min(256)]) == Some(0);
    whole && cutting.fault == 0 && cutting.count == pieces.len()
}

#[test]
fn published_images_are_cut_into_published_pieces(rt: HostRuntime) {
    for (i, (image, limit, pieces)) in ROWS.iter().enumerate() {
        assert!(rt; is_cut_into(image, *limit, pieces), "row {i}");
    }
}

/// The header of 10,000 chunks, and as many raw chunks without blocks.
fn many_chunks() -> [u8; 120_028] {
    let mut image = [0u8; 120_028];
    for i in 0..120_028usize {
        image[i] = if i < 28 {
            HEADER_OF_MANY[i]
        } else {
            NO_BLOCKS[(i - 28) % 12]
        };
    }
    image
}

#[test]
fn chunks_without_blocks_make_no_piece_of_their_own(rt: HostRuntime) {
    assert!(rt; is_cut_into(&many_chunks(), 68, &OF_EMPTY));
}

/// Why a limit fails for the blocks of this image, if it does.
fn limit_refused(image: &[u8], limit: u32) -> Option<PieceFault> {
    let mut source = SliceSource::new(image);
    let mut w = Window::new();
    let mut m = Meter::new();
    let runs = SparseRuns::open(&mut source, &mut w, &mut m).ok()?;
    Cutter::open(runs, limit).err()
}

#[test]
fn a_limit_that_no_piece_fits_is_refused(rt: HostRuntime) {
    let below_68 = Some(PieceFault::LimitTooSmall { least: 68 });
    assert!(rt; limit_refused(&THREE_KINDS, 67) == below_68);
    assert!(rt; limit_refused(&EMPTY, 0) == below_68);
    assert!(rt; limit_refused(&THREE_KINDS, 68) == None);
    let above_all = Some(PieceFault::LimitTooSmall {
        least: 4_294_967_356,
    });
    assert!(rt; least_limit(4_294_967_292) == 4_294_967_356);
    for limit in [0, 68, u32::MAX] {
        assert!(rt; limit_refused(&LARGEST_BLOCK, limit) == above_all);
    }
}

/// `THREE_KINDS` becomes its first 40 bytes after this many calls. During the opening the shorter image may also fail
/// with its own fault.
#[test]
fn a_source_that_shrinks_gives_a_beginning_of_its_pieces(rt: HostRuntime) {
    let mut is_whole = false;
    for calls in 0..40 {
        let images = [THREE_KINDS.as_slice(), &THREE_KINDS[..40]];
        let mut room = [0u8; 256];
        let (cutting, written, _) = cut_changing(images, calls, 68, [0, 0], &mut room);
        let left = left(&OF_THREE_KINDS, &room[..written.min(256)]);
        assert!(rt; left.is_some() && written as u64 <= cutting.bytes.saturating_add(68));
        is_whole = cutting.fault == 0;
        assert!(rt; is_whole == (left == Some(0)));
        assert!(rt; cutting.fault <= 10 || cutting.fault == 14);
    }
    assert!(rt; is_whole);
}

/// `NO_GAP` becomes an image of one chunk that no piece has room for.
#[test]
fn a_source_that_grows_makes_no_piece_too_long(rt: HostRuntime) {
    let mut other = [7u8; 65_580];
    other[..40].copy_from_slice(&FRONT_OF_LONG_CHUNK);
    let mut is_whole = false;
    for calls in 0..60 {
        let images = [NO_GAP.as_slice(), other.as_slice()];
        let mut room = [0u8; 1_000];
        let (cutting, written, _) = cut_changing(images, calls, 68, [0, 0], &mut room);
        assert!(rt; cutting.longest <= 68);
        assert!(rt; written as u64 <= cutting.bytes.saturating_add(68));
        is_whole = (cutting.fault, cutting.count, cutting.bytes) == (0, 3, 180);
    }
    assert!(rt; is_whole);
}

/// Cuts `NO_GAP` into its three pieces, where a call of each device fails, at 0 none. What was written is a beginning
/// of the pieces, and all of them where none fails. The fault, 0 for none, and how many calls each device had.
fn failing(read: u64, write: u64) -> (u32, u64, u64, bool) {
    let mut room = [0u8; 256];
    let images = [NO_GAP.as_slice(), NO_GAP.as_slice()];
    let (cutting, written, [reads, writes]) = cut_changing(images, 0, 68, [read, write], &mut room);
    let left = left(&OF_NO_GAP, &room[..written.min(256)]);
    let stands = left.is_some() && (cutting.fault == 0) == (left == Some(0));
    (cutting.fault, reads, writes, stands)
}

#[test]
fn each_call_fails_and_a_beginning_of_the_pieces_stands(rt: HostRuntime) {
    let (fault, reads, writes, stands) = failing(0, 0);
    assert!(rt; (fault, stands) == (0, true));
    // Four writes a piece: its header, the fronts of its chunks, and the data of the raw one.
    assert!(rt; writes == 12);
    for n in 1..reads.saturating_add(2) {
        let (fault, seen, _, stands) = failing(n, 0);
        assert!(rt; (fault, seen, stands) == (if n > reads { 0 } else { 11 }, n.min(reads), true));
    }
    for n in 1..14u64 {
        let (fault, _, seen, stands) = failing(0, n);
        assert!(rt; (fault, seen, stands) == (if n > 12 { 0 } else { 12 }, n.min(12), true));
    }
}
