//! The kinds of chunks.

ghost use Rattle.std.specs.Prelude.{◌≡◌, Some};
ghost use Rattle.abt_sparse.specs.Chunk.{code};
ghost use Rattle.abt_sparse.specs.Reading.{kind_at};

/// The kind of a chunk, `chunk_type` in `sparse_format.h`.
#[derive(Clone, Copy, Debug, PartialEq, Eq, Drop)]
pub enum ChunkKind {
    /// Blocks whose bytes are stored in the image (`CHUNK_TYPE_RAW`, 0xCAC1).
    Raw,
    /// Blocks filled with one word of four bytes (`CHUNK_TYPE_FILL`, 0xCAC2).
    Fill,
    /// Blocks whose content does not matter (`CHUNK_TYPE_DONT_CARE`, 0xCAC3).
    Skip,
    /// A checksum of four bytes, which has no blocks (`CHUNK_TYPE_CRC32`, 0xCAC4).
    Crc,
}

impl ChunkKind {
    /// The kind with this type number, or none where the format has no such number.
    #[inline(always)]
    pub fn from_code(code: u16) -> Option<ChunkKind>
        ensures { result ≡ kind_at code }
    {
        match code {
            0xCAC1 => Some(ChunkKind::Raw),
            0xCAC2 => Some(ChunkKind::Fill),
            0xCAC3 => Some(ChunkKind::Skip),
            0xCAC4 => Some(ChunkKind::Crc),
            _ => None,
        }
    }

    /// The type number of the kind.
    #[inline(always)]
    pub fn code(self) -> u16
        ensures value { result ≡ code self }
        ensures again { kind_at result ≡ Some self }
    {
        match self {
            ChunkKind::Raw => 0xCAC1,
            ChunkKind::Fill => 0xCAC2,
            ChunkKind::Skip => 0xCAC3,
            ChunkKind::Crc => 0xCAC4,
        }
    }
}
