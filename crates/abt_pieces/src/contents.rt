//! The content of a piece in numbers: its chunks, its written blocks and its length, counted as blocks are passed.
ghost use Rattle.std.specs.Prelude.{◌≡◌, ◌<◌, ◌≤◌, ◌+◌, ◌*◌, ◌^◌};
ghost use Rattle.abt_pieces.specs.Contents.{opens, opens_len, copy_len, held, head_len as length_of_head, with_blocks};
ghost use Rattle.abt_pieces.specs.Contents.{contents_before};

use abt_runs::{RunKind, are_alike};

/// The numbers of a piece, as far as it has been passed.
#[derive(Clone, Copy, Drop)]
pub struct PieceContents {
    /// How many chunks it has.
    pub chunks: u32,
    /// How many of its blocks are raw or fill.
    pub written: u32,
    /// How long it is, in bytes, with its header of 28.
    pub bytes: u64,
}

/// The length of a chunk's header, with the word of a fill.
pub fn head_len(kind: RunKind) -> u64
    ensures { result ≡ length_of_head kind }
{
    match kind {
        RunKind::Raw => 12,
        RunKind::Fill(_) => 16,
        RunKind::Skip => 12,
        RunKind::End => 0,
    }
}

/// How many bytes of these blocks are copied into a chunk.
pub fn copied_len(kind: RunKind, blocks: u32, size: u32) -> u64
    ensures { result ≡ copy_len kind blocks size }
{
    match kind {
        RunKind::Raw => blocks as u64 * size as u64,
        RunKind::Fill(_) | RunKind::Skip | RunKind::End => 0,
    }
}

/// How many of these blocks are raw or fill.
fn held_in(kind: RunKind, blocks: u32) -> u32
    ensures { result ≡ held kind blocks }
{
    match kind {
        RunKind::Raw | RunKind::Fill(_) => blocks,
        RunKind::Skip | RunKind::End => 0,
    }
}

/// How many chunks more there are, and how long their headers are.
fn opened(last: RunKind, kind: RunKind) -> (u32, u64)
    ensures chunks { result.0 ≡ opens last kind }
    ensures bytes { result.1 ≡ opens_len last kind }
{
    if are_alike(last, kind) {
        (0, 0)
    } else {
        (1, head_len(kind))
    }
}

impl PieceContents {
    /// A piece with nothing but the blocks before its segment, which are skipped.
    pub fn begin(first: u32) -> PieceContents
        ensures { result ≡ contents_before first }
    {
        match first {
            0 => PieceContents {
                chunks: 0,
                written: 0,
                bytes: 28,
            },
            _ => PieceContents {
                chunks: 1,
                written: 0,
                bytes: 40,
            },
        }
    }

    /// With so many blocks of a class more, after a block of class `last`.
    pub fn with(self, last: RunKind, kind: RunKind, blocks: u32, size: u32) -> PieceContents
        requires chunks { self.chunks + opens last kind < 2 ^ 32 }
        requires written { self.written + held kind blocks < 2 ^ 32 }
        requires bytes { self.bytes + (opens_len last kind + copy_len kind blocks size) < 2 ^ 64 }
        ensures { result ≡ with_blocks self last kind blocks size }
    {
        let (chunks, bytes) = opened(last, kind);
        PieceContents {
            chunks: self.chunks + chunks,
            written: self.written + held_in(kind, blocks),
            bytes: self.bytes + (bytes + copied_len(kind, blocks, size)),
        }
    }
}
