//! The numbers of an opened sparse image.
ghost use Rattle.std.specs.Prelude.{◌≡◌, ◌<◌, ◌≤◌, ◌+◌, ◌%◌, ◌^◌};

use abt_sparse::SparseHeader;

/// A sparse image that was opened: its header, and where it ends. Chunk headers are read again in
/// each pass.
#[derive(Drop)]
pub struct SparseRuns {
    /// The image's header.
    pub header: SparseHeader,
    /// How long the source is, in bytes.
    pub length: u64,
    /// How many of them the image takes.
    pub image: u64,
    pub ghost some: { 4 ≤ header.blk_sz },
    pub ghost words: { header.blk_sz % 4 ≡ 0 },
    pub ghost chunk_header: { 12 ≤ header.chunk_hdr_sz },
    pub ghost behind: { header.file_hdr_sz ≤ image },
    pub ghost fits: { image ≤ length },
    pub ghost low: { image + 65536 < 2 ^ 64 },
    pub ghost small: { header.chunk_hdr_sz < 2 ^ 16 },
    pub ghost few_blocks: { header.total_blks < 2 ^ 32 },
    pub ghost few_chunks: { header.total_chunks < 2 ^ 32 },
}
