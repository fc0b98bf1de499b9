//! What follows from the kind of a chunk, in small functions that the machine calls and the proofs cite.

ghost use Rattle.std.specs.Prelude.{◌≡◌, ◌<◌, ◌^◌};
ghost use Rattle.abt_chunks.specs.Ahead.{raw_announced, due_of, words_announced, left_of};
ghost use Rattle.abt_chunks.specs.ListingAhead.{is_spent};

use abt_sparse::ChunkKind;

/// How many bytes of the chunk's blocks are still to be given.
#[inline(always)]
pub(crate) fn bytes_left(kind: ChunkKind, raw: u64, words: u64) -> u64
    requires { left_of kind raw words < 2 ^ 64 }
    ensures { result ≡ left_of kind raw words }
{
    match kind {
        ChunkKind::Raw => raw,
        ChunkKind::Fill => 4 * words,
        ChunkKind::Skip => 4 * words,
        ChunkKind::Crc => 0,
    }
}

/// How many raw bytes are to be read of it.
#[inline(always)]
pub(crate) fn raw_bytes(kind: ChunkKind, blocks: u32, block_size: u32) -> u64
    ensures { result ≡ raw_announced kind blocks block_size }
{
    match kind {
        ChunkKind::Raw => u64::from(blocks) * u64::from(block_size),
        _ => 0,
    }
}

/// Whether its data is one word.
#[inline(always)]
pub(crate) fn has_word(kind: ChunkKind) -> bool
    ensures { result ≡ due_of kind }
{
    match kind {
        ChunkKind::Fill => true,
        ChunkKind::Crc => true,
        _ => false,
    }
}

/// How many words of four bytes it gives without reading them.
#[inline(always)]
pub(crate) fn laid_words(kind: ChunkKind, blocks: u32, block_size: u32) -> u64
    ensures { result ≡ words_announced kind blocks block_size }
{
    match kind {
        ChunkKind::Fill => u64::from(blocks) * (u64::from(block_size) / 4),
        ChunkKind::Skip => u64::from(blocks) * (u64::from(block_size) / 4),
        _ => 0,
    }
}

/// Whether nothing is left of such a chunk, neither of its data nor of the words that it gives.
#[inline(always)]
pub(crate) fn nothing_left(kind: ChunkKind, due: bool, raw: u64, words: u64) -> bool
    ensures { result ≡ is_spent kind due raw words }
{
    match kind {
        ChunkKind::Raw => raw == 0,
        ChunkKind::Fill => !due && words == 0,
        ChunkKind::Skip => words == 0,
        ChunkKind::Crc => !due,
    }
}
