//! What the machines of this crate return.

use abt_sparse::ChunkKind;

/// Whether a machine has more to do.
#[derive(Clone, Copy, Debug, PartialEq, Eq, Drop)]
pub enum MachineProgress {
    /// The next step goes on.
    More,
    /// The image has ended. Every further step returns this again.
    Done,
}

/// What was expanded.
#[derive(Clone, Copy, Debug, PartialEq, Eq, Drop)]
pub struct Expanded {
    /// The blocks of the image, `total_blks` of its header.
    pub blocks: u32,
    /// The bytes that were written: so many blocks of `blk_sz` bytes.
    pub bytes: u64,
}

/// A chunk as a listing shows it.
#[derive(Clone, Copy, Debug, PartialEq, Eq, Drop)]
pub struct ChunkInfo {
    /// The number of chunks before it.
    pub index: u32,
    pub kind: ChunkKind,
    /// The blocks that the chunk counts, 0 for a checksum.
    pub blocks: u32,
    /// The word of a fill or the value of a checksum, in the order of its bytes, and zeros for raw blocks and
    /// blocks that do not matter.
    pub word: [u8; 4],
}
