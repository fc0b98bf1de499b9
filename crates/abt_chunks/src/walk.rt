//! The state of the one machine that reads a sparse image forward. It does not depend on what is done with the
//! blocks: an expander, a listing and a flasher all use it. Between two steps it holds numbers, the image's header
//! and one word.

ghost use Rattle.std.specs.Prelude.{◌≡◌, ◌≤◌, ◌+◌, ◌*◌, if◌then◌else◌};
ghost use Rattle.abt_chunks.specs.Ahead.{left_of};

use abt_sparse::{ChunkKind, SparseFault, SparseHeader};

/// How far a walk has come.
#[derive(Clone, Copy, Debug, PartialEq, Eq, Drop)]
pub enum Phase {
    /// The image's header is still to be read.
    Header,
    /// Its 28 bytes have been read.
    Body,
    /// The image has ended.
    Done,
    /// The walk has stopped, and every step returns this fault.
    Failed(SparseFault),
}

/// What a walk does next.
#[derive(Clone, Copy, Debug, PartialEq, Eq, Drop)]
pub enum Turn {
    /// Reads the header of the image.
    Header,
    /// Passes over extra bytes of the image's or of a chunk's header.
    Extra,
    /// Reads raw bytes.
    Raw,
    /// Reads the word of a fill or the value of a checksum.
    Word,
    /// Gives words of a fill.
    Fill,
    /// Gives words of a gap, that is of blocks that do not matter.
    Gap,
    /// Reads the header of a chunk.
    Chunk,
    /// Ends after the last chunk.
    End,
    /// Returns again what it returned last.
    Over,
}

/// What one step gives of the image.
#[derive(Clone, Copy, Debug, PartialEq, Eq, Drop)]
pub enum Part {
    /// So many bytes of blocks, at the beginning of the window.
    Raw(usize),
    /// A word, so many times.
    Words([u8; 4], u64),
    /// So many words that do not matter.
    Skip(u64),
    /// Nothing: a header was read, or a part of one, or a word.
    Nothing,
    /// The end of the image.
    End,
    Fault(SparseFault),
}

/// What a step gives, and how many bytes it read.
#[derive(Clone, Copy, Debug, PartialEq, Eq, Drop)]
pub struct WalkStep {
    pub part: Part,
    pub received: u32,
}

/// A walk between two steps.
#[derive(Clone, Copy, Drop)]
pub struct Walk {
    pub phase: Phase,
    /// The image's header, once it has been read.
    pub header: SparseHeader,
    /// The kind of the chunk whose header was read last, and the blocks that it counts.
    pub kind: ChunkKind,
    pub blocks: u32,
    /// Whether the word in its data is still to be read; and that word, once it has been.
    pub due: bool,
    pub word: [u8; 4],
    /// How many chunk headers were read.
    pub index: u32,
    /// The blocks of these chunks.
    pub have: u32,
    /// How many bytes of a header are still to be passed over.
    pub extra: u32,
    /// How many raw bytes are still to be read.
    pub raw: u64,
    /// How many words of four bytes are still to be given.
    pub words: u64,
    /// How many bytes were read.
    pub position: u64,
    pub ghost counted: { index ≤ header.total_chunks },
    pub ghost room: { have ≤ header.total_blks },
    pub ghost begun: { have ≤ 4294967295 * index },
    pub ghost laid: { left_of kind raw words ≤ have * header.blk_sz },
    pub ghost placed: { position + extra + raw + (if due then 4 else 0) ≤ 65535 + 4294967295 * index },
}

impl Walk {
    /// A walk that has read nothing.
    pub fn new() -> Walk
        ensures { result.phase ≡ Phase.Header }
    {
        Walk {
            phase: Phase::Header,
            header: SparseHeader {
                minor: 0,
                file_hdr_sz: 28,
                chunk_hdr_sz: 12,
                blk_sz: 4,
                total_blks: 0,
                total_chunks: 0,
                image_checksum: 0,
            },
            kind: ChunkKind::Skip,
            blocks: 0,
            due: false,
            word: [0; 4],
            index: 0,
            have: 0,
            extra: 0,
            raw: 0,
            words: 0,
            position: 0,
        }
    }
}
