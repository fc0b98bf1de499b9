//! The bytes of the records, each fault in its turn, and the texts of the faults.

use abt_io::DeviceFault;
use abt_sparse::{ChunkHeader, ChunkKind, SparseFault, SparseHeader, header_of, u16_at, u32_at};
use law_sparse::{
    carries_raw, each_piece, ends_early, few_bytes, fewest_pieces, from_piece, has_blocks, in_turn,
    keeps_raw, lays_blocks, mends, one_code, one_cutting, one_grouping, one_outcome, pieces_read,
    reads_back, same_from_raw, same_pieces, weighs, worked_faults, worked_images, worked_pieces,
};
use std::test::Fail;

/// Three blocks of four bytes in three chunks.
const HEADER: [u8; 28] = [
    0x3a, 0xff, 0x26, 0xed, 1, 0, 0, 0, 28, 0, 12, 0, 4, 0, 0, 0, 3, 0, 0, 0, 3, 0, 0, 0, 0, 0, 0,
    0,
];

/// Records, and what they say.
#[rattlefmt::skip]
const HEADERS: [([u8; 28], SparseHeader); 2] = [
    (HEADER, SparseHeader {
        minor: 0, file_hdr_sz: 28, chunk_hdr_sz: 12, blk_sz: 4, total_blks: 3, total_chunks: 3, image_checksum: 0,
    }),
    // Each field has its place.
    ([
        0x3a, 0xff, 0x26, 0xed, 1, 0, 7, 1, 32, 2, 16, 3, 4, 5, 6, 7, 8, 9, 10, 11, 12, 13, 14, 15, 0x78, 0x56, 0x34,
        0x12,
    ], SparseHeader {
        minor: 0x0107, file_hdr_sz: 0x0220, chunk_hdr_sz: 0x0310, blk_sz: 0x0706_0504, total_blks: 0x0b0a_0908,
        total_chunks: 0x0f0e_0d0c, image_checksum: 0x1234_5678,
    }),
];

#[test]
fn a_header_is_encoded_and_decoded(rt: HostRuntime) {
    for (bytes, header) in HEADERS.iter() {
        assert!(rt; SparseHeader::decode(bytes) == Ok(*header));
        assert!(rt; header.encode() == *bytes);
        assert!(rt; header_of(bytes.as_slice()) == Ok(*header));
    }
}

/// Two positions of `HEADER`, the byte that replaces the one at each, and the fault of the result.
const REFUSALS: [(usize, u8, usize, u8, SparseFault); 6] = [
    (0, 0x3b, 4, 2, SparseFault::Magic),
    (4, 2, 8, 27, SparseFault::Major(2)),
    (8, 27, 10, 11, SparseFault::FileHeaderSize(27)),
    (10, 11, 12, 6, SparseFault::ChunkHeaderSize(11)),
    (12, 6, 6, 9, SparseFault::BlockSize(6)),
    (12, 0, 6, 9, SparseFault::BlockSize(0)),
];

#[test]
fn the_first_check_that_fails_is_answered(rt: HostRuntime) {
    for (place, byte, other_place, other, fault) in REFUSALS.iter() {
        let mut bytes = HEADER;
        bytes[*place % 28] = *byte;
        bytes[*other_place % 28] = *other;
        assert!(rt; SparseHeader::decode(&bytes) == Err(*fault));
    }
}

const CHUNK: ChunkHeader = ChunkHeader {
    kind: ChunkKind::Raw,
    blocks: 16_385,
    total: 65_552,
};

/// The first two bytes, the two that are reserved, and what they decode to.
const CHUNKS: [(u8, [u8; 2], Result<ChunkHeader, u16>); 3] = [
    (0xc1, [0, 0], Ok(CHUNK)),
    (0xc1, [0x34, 0x12], Ok(CHUNK)),
    (0xc5, [0, 0], Err(0xCAC5)),
];

#[test]
fn a_chunk_header_is_encoded_and_decoded(rt: HostRuntime) {
    assert!(rt; CHUNK.encode() == [0xc1, 0xca, 0, 0, 0x01, 0x40, 0, 0, 0x10, 0, 1, 0]);
    for (code, [low, high], header) in CHUNKS.iter() {
        let bytes = [*code, 0xca, *low, *high, 0x01, 0x40, 0, 0, 0x10, 0, 1, 0];
        assert!(rt; ChunkHeader::decode(&bytes) == *header);
    }
}

const KINDS: [(u16, Option<ChunkKind>); 5] = [
    (0xCAC1, Some(ChunkKind::Raw)),
    (0xCAC2, Some(ChunkKind::Fill)),
    (0xCAC3, Some(ChunkKind::Skip)),
    (0xCAC4, Some(ChunkKind::Crc)),
    (0xCAC0, None),
];

#[test]
fn each_kind_has_its_number(rt: HostRuntime) {
    for (code, kind) in KINDS.iter() {
        assert!(rt; ChunkKind::from_code(*code) == *kind);
    }
    assert!(rt; ChunkKind::Crc.code() == 0xCAC4);
    assert!(rt; u16_at(HEADER.as_slice(), 8) == 28);
    assert!(rt; u32_at(HEADER.as_slice(), 0) == 0xED26_FF3A);
}

#[rattlefmt::skip]
const FAULTS: [(SparseFault, u32, &str); 12] = [
    (SparseFault::Magic, 1, "1 Magic"),
    (SparseFault::Major(2), 2, "2 Major 2"),
    (SparseFault::FileHeaderSize(27), 3, "3 FileHeaderSize 27"),
    (SparseFault::ChunkHeaderSize(11), 4, "4 ChunkHeaderSize 11"),
    (SparseFault::BlockSize(6), 5, "5 BlockSize 6"),
    (SparseFault::ChunkType { chunk: 1, kind: 51_909 }, 6, "6 ChunkType chunk 1 kind 51909"),
    (SparseFault::ChunkLength { chunk: 2 }, 7, "7 ChunkLength chunk 2"),
    (SparseFault::TooManyBlocks { chunk: 3 }, 8, "8 TooManyBlocks chunk 3"),
    (SparseFault::TooFewBlocks { have: 4 }, 9, "9 TooFewBlocks have 4"),
    (SparseFault::Truncated { at: 47 }, 10, "10 Truncated at 47"),
    (SparseFault::Read(DeviceFault::Failed), 11, "11 Read"),
    (SparseFault::Write(DeviceFault::Full), 12, "12 Write"),
];

#[test]
fn each_fault_has_its_number_and_text(rt: HostRuntime) -> Result<(), Fail> {
    for (fault, number, text) in FAULTS.iter() {
        let shown = format!(in rt.alloc(); "{fault}")?;
        assert!(rt;
            fault.number() == *number && shown.as_str() == *text,
            "{text}"
        );
    }
    Ok(())
}

#[test]
fn each_law_is_called_and_does_nothing() {
    one_outcome();
    one_code();
    has_blocks();
    ends_early();
    lays_blocks();
    keeps_raw();
    one_grouping();
    reads_back();
    pieces_read();
    weighs();
    one_cutting();
    fewest_pieces();
    few_bytes();
    each_piece();
    from_piece();
    mends();
    same_pieces();
    same_from_raw();
    in_turn();
    carries_raw();
    worked_images();
    worked_faults();
    worked_pieces();
}
