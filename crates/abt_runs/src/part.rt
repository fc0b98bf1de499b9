//! Places of an image, parts of it that have one class, and the reasons for which reading an image is refused.
ghost use Rattle.std.specs.Prelude.{◌≡◌};
ghost use Rattle.abt_runs.specs.Number.{run_fault_number};

use abt_io::DeviceFault;
use abt_sparse::SparseFault;
use thiserror::Error;

/// A place in an image: the block that follows it, and the position of that block in the source. It holds numbers
/// alone. Calls return it and take it again, and it means the same in every pass.
#[derive(Clone, Copy, Debug, PartialEq, Eq, Drop)]
pub struct Cursor {
    /// How many blocks are before it.
    pub block: u32,
    /// Of a sparse image: where its chunk's header begins, in bytes.
    pub at: u64,
    /// Of a sparse image: how many chunks are before that chunk.
    pub chunk: u32,
    /// Of a sparse image: how many blocks of that chunk, a raw one, are before it.
    pub used: u32,
    /// Of a raw image: how many blocks are asked for at once. It grows within a run.
    pub ask: u32,
}

/// What the blocks of a part are.
#[derive(Clone, Copy, Debug, PartialEq, Eq, Drop)]
pub enum RunKind {
    /// They have bytes of their own.
    Raw,
    /// They are this word all over.
    Fill([u8; 4]),
    /// Don't care: nothing is said of their bytes.
    Skip,
    /// There are none: it is the end of the image.
    End,
}

/// Adjacent blocks of one class.
#[derive(Clone, Copy, Debug, PartialEq, Eq, Drop)]
pub struct Run {
    /// What they are.
    pub kind: RunKind,
    /// How many there are.
    pub blocks: u32,
    /// The place of the first, with the headers before it passed. Where there is none it is `next`.
    pub here: Cursor,
    /// The place after the last.
    pub next: Cursor,
}

/// Why an image is not opened, or not read further.
#[derive(Clone, Copy, Debug, PartialEq, Eq, Drop, Error)]
pub enum RunFault {
    /// 1 to 10: the bytes are no sparse image.
    #[error("{0}")]
    Sparse(SparseFault),
    /// The source has failed.
    #[error("11 Read")]
    Read(DeviceFault),
    /// The image has more than 2^32 - 1 blocks.
    #[error("13 TooLarge")]
    TooLarge,
    /// The source's length is another, a read gave nothing below it, or its chunks are others.
    #[error("14 SourceChanged")]
    SourceChanged,
    /// The block size, in bytes, is no multiple of 4 from 4 to 65,536.
    #[error("15 BadBlock {0}")]
    BadBlock(u32),
}

impl RunFault {
    /// The number of the fault in the list of all faults of images.
    pub fn number(&self) -> u32
        ensures { result ≡ run_fault_number self.now }
    {
        match self {
            RunFault::Sparse(fault) => fault.number(),
            RunFault::Read(_) => 11,
            RunFault::TooLarge => 13,
            RunFault::SourceChanged => 14,
            RunFault::BadBlock(_) => 15,
        }
    }
}
