//! A planned piece: how far it goes, and the numbers that its header needs first.
ghost use Rattle.std.specs.Prelude.{◌≡◌, ◌<◌, ◌≤◌, ◌+◌, ◌-◌, List, length};
ghost use Rattle.abt_sparse.specs.Block.{Block, AreBlocks};
ghost use Rattle.abt_pieces.specs.Contents.{with_blocks};
ghost use Rattle.abt_pieces.specs.Plan.{Planned, RestsWithin, last_kind};
ghost use Rattle.abt_pieces.specs.Outline.{IsOutline};

use crate::contents::PieceContents;
use crate::plan::Planner;
use crate::segment_tail::last;
use abt_runs::{Cursor, RunKind};

/// A piece of an image.
#[derive(Clone, Copy, Debug, PartialEq, Eq, Drop)]
pub struct Piece {
    /// The first block of its segment.
    pub first: u32,
    /// The block after its segment.
    pub past: u32,
    /// How many blocks of the segment are raw or fill.
    pub written: u32,
    /// The length of the piece, in bytes.
    pub bytes: u64,
}

/// A planned piece, the number of its chunks and the place after it.
#[derive(Clone, Copy, Drop)]
pub struct Outline {
    pub piece: Piece,
    pub chunks: u32,
    pub next: Cursor,
}

/// The piece up to where a planner has come, of an image of so many blocks of `size` bytes.
pub fn outlined(planner: &Planner, count: u32, size: u32) -> Outline
    requires rests { RestsWithin count planner.now }
    ensures first { result.piece.first ≡ planner.now.first }
    ensures past { result.piece.past ≡ planner.now.at.block }
    ensures next { result.next ≡ planner.now.at }
    ensures bytes { result.piece.bytes ≤ planner.now.weight }
    ensures least { 28 ≤ result.piece.bytes }
    ensures longer { result.piece.bytes ≤ planner.now.contents.bytes + 12 }
    ensures exact { (l : List Block) → length l ≡ count → AreBlocks size l → Planned size l planner.now →
        IsOutline size l result }
{
    let contents = whole(planner, count, size);
    Outline {
        piece: Piece {
            first: planner.first,
            past: planner.at.block,
            written: contents.written,
            bytes: contents.bytes,
        },
        chunks: contents.chunks,
        next: planner.at,
    }
}

/// The numbers of the piece with what is skipped after its segment.
fn whole(planner: &Planner, count: u32, size: u32) -> PieceContents
    requires rests { RestsWithin count planner.now }
    ensures more { planner.now.at.block < count →
        result ≡ with_blocks planner.now.contents (last_kind planner.now.tail planner.now.at.block) RunKind.Skip
        (count - planner.now.at.block) size }
    ensures same { count ≤ planner.now.at.block → result ≡ planner.now.contents }
    ensures bytes { result.bytes ≤ planner.now.weight }
    ensures least { 28 ≤ result.bytes }
    ensures longer { result.bytes ≤ planner.now.contents.bytes + 12 }
{
    let contents = planner.contents;
    if planner.at.block == count {
        return contents;
    }
    let last = last(&planner.tail, planner.at.block);
    contents.with(last, RunKind::Skip, count - planner.at.block, size)
}
