//! Listing an image that is read forward.

use abt_chunks::{ChunkInfo, Chunks};
use abt_io::{DeviceFault, Forward, Meter, SliceSource, Window};
use abt_sparse::SparseFault::{Read, TooManyBlocks, Truncated};
use abt_sparse::{ChunkKind, SparseFault, SparseHeader};
use mem_devices::Faulty;
use mem_test_data::vectors::{LONG_HEADERS, THREE_KINDS, TWO_HALVES, WITH_CHECKSUM};

const RAW: ChunkInfo = ChunkInfo {
    index: 0,
    kind: ChunkKind::Raw,
    blocks: 1,
    word: [0; 4],
};

const FILL: ChunkInfo = ChunkInfo {
    index: 1,
    kind: ChunkKind::Fill,
    blocks: 1,
    word: [4, 3, 2, 1],
};

const SKIP: ChunkInfo = ChunkInfo {
    index: 2,
    kind: ChunkKind::Skip,
    blocks: 1,
    word: [0; 4],
};

const CHECKSUM: ChunkInfo = ChunkInfo {
    index: 3,
    kind: ChunkKind::Crc,
    blocks: 0,
    word: [0x78, 0x56, 0x34, 0x12],
};

const ALL: [ChunkInfo; 4] = [RAW, FILL, SKIP, CHECKSUM];

const ONE_SKIP: ChunkInfo = ChunkInfo {
    index: 0,
    kind: ChunkKind::Skip,
    blocks: 1,
    word: [0; 4],
};

const HALF: ChunkInfo = ChunkInfo {
    index: 0,
    kind: ChunkKind::Skip,
    blocks: 2_147_483_648,
    word: [0; 4],
};

const HEADER: SparseHeader = SparseHeader {
    minor: 0,
    file_hdr_sz: 28,
    chunk_hdr_sz: 12,
    blk_sz: 4,
    total_blks: 3,
    total_chunks: 4,
    image_checksum: 0,
};

const LONG_HEADER: SparseHeader = SparseHeader {
    minor: 0,
    file_hdr_sz: 32,
    chunk_hdr_sz: 16,
    blk_sz: 4,
    total_blks: 1,
    total_chunks: 1,
    image_checksum: 0,
};

/// An image, how many of its bytes come at most, the read that fails (0: none), the chunks that it should have, how
/// many of them come, and what comes after them, None at the end.
type Row = (&'static [u8], usize, u64, &'static [ChunkInfo], usize, Last);

type Last = Result<Option<ChunkInfo>, SparseFault>;

const FAILED: Last = Err(Read(DeviceFault::Failed));

#[rattlefmt::skip]
const ROWS: [Row; 13] = [
    (&WITH_CHECKSUM, 88, 0, &ALL, 4, Ok(None)),
    // No chunk is listed before its data came.
    (&THREE_KINDS, 47, 0, &[RAW], 1, Err(Truncated { at: 47 })),
    (&THREE_KINDS, 42, 0, &[RAW], 0, Err(Truncated { at: 42 })),
    // Longer headers are passed over.
    (&LONG_HEADERS, 48, 0, &[ONE_SKIP], 1, Ok(None)),
    (&LONG_HEADERS, 31, 0, &[], 0, Err(Truncated { at: 31 })),
    // Blocks past the total fail.
    (&TWO_HALVES, 52, 0, &[HALF], 1, Err(TooManyBlocks { chunk: 1 })),
    // The header is read, and for each chunk its header and its data.
    (&WITH_CHECKSUM, 88, 1, &ALL, 0, FAILED),
    (&WITH_CHECKSUM, 88, 2, &ALL, 0, FAILED),
    (&WITH_CHECKSUM, 88, 4, &ALL, 1, FAILED),
    (&WITH_CHECKSUM, 88, 5, &ALL, 1, FAILED),
    (&WITH_CHECKSUM, 88, 6, &ALL, 2, FAILED),
    (&WITH_CHECKSUM, 88, 7, &ALL, 3, FAILED),
    (&WITH_CHECKSUM, 88, 8, &ALL, 3, FAILED),
];

/// Reads the chunks up to the end or to a fault: the header, if there was one, how many chunks are as they should be,
/// and what came after them, None at the end.
fn listed(image: &[u8], failing: u64, want: &[ChunkInfo]) -> (Option<SparseHeader>, usize, Last) {
    let mut input = Faulty::new(Forward::new(SliceSource::new(image)), failing);
    let mut w = Window::new();
    let mut m = Meter::new();
    let mut chunks = match Chunks::open(&mut input, &mut w, &mut m) {
        Ok(chunks) => chunks,
        Err(fault) => return (None, 0, Err(fault)),
    };
    let mut last = Ok(None);
    let mut count = 0;
    for place in 0..9usize {
        last = chunks.next(&mut input, &mut w, &mut m);
        count = place;
        let want = want.get(place).copied();
        if want.is_none() || last != Ok(want) {
            break;
        }
    }
    (Some(chunks.header()), count, last)
}

fn is_right(row: &Row) -> bool {
    let (image, came, failing, want, count, last) = *row;
    let (_, found, ended) = listed(image.get(..came).unwrap_or(image), failing, want);
    found == count && ended == last
}

#[test]
fn each_row_is_listed_as_it_says(rt: HostRuntime) {
    for (i, row) in ROWS.iter().enumerate() {
        assert!(rt; is_right(row), "row {i}");
    }
}

/// A block count of a checksum is ignored.
#[test]
fn each_chunk_is_listed_with_its_blocks_and_word(rt: HostRuntime) {
    let mut image = WITH_CHECKSUM;
    image[76] = 7;
    assert!(rt; listed(&image, 0, &ALL) == (Some(HEADER), 4, Ok(None)));
    assert!(rt; listed(&LONG_HEADERS, 0, &[ONE_SKIP]) == (Some(LONG_HEADER), 1, Ok(None)));
}
