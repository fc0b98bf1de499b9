//! The header of a sparse image. It has a file of its own, since its definition as numbers cites it.

ghost use Rattle.std.specs.Prelude.{◌≡◌, ◌≤◌, ◌<◌, ◌%◌};

/// The header at the beginning of a sparse image, `sparse_header_t` without `magic` and `major_version`, which are
/// always 0xED26FF3A and 1. A value of this type passes all checks of a header.
#[derive(Clone, Copy, Debug, PartialEq, Eq, Drop)]
pub struct SparseHeader {
    /// `minor_version`, any number.
    pub minor: u16,
    /// The length of this header in bytes, with those past the 28th: at least 28.
    pub file_hdr_sz: u16,
    /// The length of each chunk's header in bytes, with those past the twelfth: at least 12.
    pub chunk_hdr_sz: u16,
    /// The length of a block in bytes: a multiple of 4, not 0.
    pub blk_sz: u32,
    /// The number of blocks of the image when it is expanded.
    pub total_blks: u32,
    /// The number of chunks.
    pub total_chunks: u32,
    /// A CRC32 of the expanded image, or 0. It is kept and not checked.
    pub image_checksum: u32,
    ghost file_header: { 28 ≤ file_hdr_sz },
    ghost chunk_header: { 12 ≤ chunk_hdr_sz },
    ghost some: { 0 < blk_sz },
    ghost words: { blk_sz % 4 ≡ 0 },
}
