//! The reasons for which a sparse image is refused.

ghost use Rattle.std.specs.Prelude.{◌≡◌};
ghost use Rattle.abt_sparse.specs.Number.{number_of};

use abt_io::DeviceFault;
use thiserror::Error;

/// Why an image is not read or written: the first fault from left to right, or a device's.
#[derive(Clone, Copy, Debug, PartialEq, Eq, Drop, Error)]
pub enum SparseFault {
    /// The first four bytes are not the number 0xED26FF3A (`SPARSE_HEADER_MAGIC`).
    #[error("1 Magic")]
    Magic,
    /// `major_version` is not 1.
    #[error("2 Major {0}")]
    Major(u16),
    /// `file_hdr_sz` is below 28.
    #[error("3 FileHeaderSize {0}")]
    FileHeaderSize(u16),
    /// `chunk_hdr_sz` is below 12.
    #[error("4 ChunkHeaderSize {0}")]
    ChunkHeaderSize(u16),
    /// `blk_sz` is 0 or no multiple of 4.
    #[error("5 BlockSize {0}")]
    BlockSize(u32),
    /// The chunk at this index, from 0, has a `chunk_type` that the format does not know.
    #[error("6 ChunkType chunk {chunk} kind {kind}")]
    ChunkType { chunk: u32, kind: u16 },
    /// `total_sz` of this chunk is not `chunk_hdr_sz` and the length of its data.
    #[error("7 ChunkLength chunk {chunk}")]
    ChunkLength { chunk: u32 },
    /// With this chunk the chunks have more blocks than `total_blks`.
    #[error("8 TooManyBlocks chunk {chunk}")]
    TooManyBlocks { chunk: u32 },
    /// All chunks together have only so many blocks, fewer than `total_blks`.
    #[error("9 TooFewBlocks have {have}")]
    TooFewBlocks { have: u32 },
    /// The input ends, after so many bytes, inside a header or the data of a chunk.
    #[error("10 Truncated at {at}")]
    Truncated { at: u64 },
    /// The device that is read failed.
    #[error("11 Read")]
    Read(DeviceFault),
    /// The device that is written failed.
    #[error("12 Write")]
    Write(DeviceFault),
}

impl SparseFault {
    /// The number of the fault, from 1 to 12, which also begins its text.
    pub fn number(&self) -> u32
        ensures { result ≡ number_of self.now }
    {
        match self {
            SparseFault::Magic => 1,
            SparseFault::Major(_) => 2,
            SparseFault::FileHeaderSize(_) => 3,
            SparseFault::ChunkHeaderSize(_) => 4,
            SparseFault::BlockSize(_) => 5,
            SparseFault::ChunkType { .. } => 6,
            SparseFault::ChunkLength { .. } => 7,
            SparseFault::TooManyBlocks { .. } => 8,
            SparseFault::TooFewBlocks { .. } => 9,
            SparseFault::Truncated { .. } => 10,
            SparseFault::Read(_) => 11,
            SparseFault::Write(_) => 12,
        }
    }
}
