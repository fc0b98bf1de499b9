//! The length of a chunk's data, and the number of blocks that a chunk counts.

ghost use Rattle.std.specs.Prelude.{◌≡◌, ◌<◌, ◌-◌, ◌^◌};
ghost use Rattle.abt_sparse.specs.Reading.{data_len, counted};

use crate::kind::ChunkKind;

/// How many bytes of data a chunk of so many blocks has after its header.
#[inline(always)]
pub fn data_length(block_size: u32, kind: ChunkKind, blocks: u32) -> u64
    ensures value { result ≡ data_len block_size kind blocks }
    ensures fits { result < 2 ^ 64 - 2 ^ 32 }
{
    match kind {
        ChunkKind::Raw => u64::from(blocks) * u64::from(block_size),
        ChunkKind::Fill => 4,
        ChunkKind::Skip => 0,
        ChunkKind::Crc => 4,
    }
}

/// How many blocks such a chunk counts: a checksum has none, whatever its header says.
#[inline(always)]
pub fn counted_blocks(kind: ChunkKind, blocks: u32) -> u32
    ensures { result ≡ counted kind blocks }
{
    match kind {
        ChunkKind::Raw => blocks,
        ChunkKind::Fill => blocks,
        ChunkKind::Skip => blocks,
        ChunkKind::Crc => 0,
    }
}
