//! The pieces into which an image is cut.

ghost use Rattle.std.specs.Prelude.{◌≡◌, ◌<◌, ◌≤◌, ◌+◌, ◌-◌, ℕ, List, length, false, IsTrue, IfErr, IfOk, OnOk};
ghost use Rattle.abt_pieces.specs.Cutter.{is_begun};
ghost use Rattle.abt_pieces.specs.Cutter.{ToldCutter};
ghost use Rattle.abt_pieces.specs.declared.stage.CutterStage.{CutterStage};
ghost use Rattle.abt_runs.specs.Raw.{RawPlace};
ghost use Rattle.abt_sparse.specs.Block.{classify};
ghost use Rattle.cmd_common_sparse.specs.Blocks.{IsRawBlockSize, RefusedCut};

use crate::fault::SparseCommandFault;
use abt_io::Source;
use abt_pieces::{Cutter, PieceFault};
use abt_runs::{BlockRuns, RawRuns};

/// The remaining pieces. Between two calls none is begun.
#[derive(Drop)]
pub struct PiecesOf<B: BlockRuns + Drop> {
    /// What cuts them.
    pub cutter: Cutter<B>,
    ghost unbegun: { is_begun cutter.stage ≡ false },
}

/// The pieces of a raw image in blocks of this many bytes. Neither block nor limit is read from the image.
pub fn raw_pieces<S: Source>(
    source: &S,
    size: u32,
    limit: u32,
) -> Result<PiecesOf<RawRuns>, SparseCommandFault>
    ensures granted { OnOk result (IsRawBlockSize size × (64 + size ≤ limit)) }
    ensures runs { IfOk result (λ pieces. (pieces.cutter.runs.size ≡ size) × (pieces.cutter.limit ≡ limit)) }
    ensures opened { IsTrue S.models → IfOk result (λ pieces. pieces.cutter.runs.length
        ≡ length (S.content source.now)) }
    ensures begins { IfOk result (λ pieces. (pieces.cutter.made ≡ 0) × (pieces.cutter.stage ≡ CutterStage.Between)) }
    ensures told { IsTrue S.models → IfOk result (λ pieces. ToldCutter
        (λ c. RawPlace pieces.cutter.runs.blocks pieces.cutter.runs.size c) (λ c. pieces.cutter.runs.blocks - c.block)
        pieces.cutter.runs.size (classify pieces.cutter.runs.size (S.content source.now)) pieces.cutter.limit
        pieces.cutter.made pieces.cutter.start pieces.cutter.stage) }
    ensures refused { IfErr result (λ fault. RefusedCut fault size (S.size source.now) limit) }
{
    let runs = RawRuns::open(source, size).map_err(SparseCommandFault::Run)?;
    PiecesOf::open(runs, limit)
}

impl<B: BlockRuns + Drop> PiecesOf<B> {
    /// The pieces of an image that is read in runs of blocks, each of at most this many bytes.
    pub fn open(runs: B, limit: u32) -> Result<PiecesOf<B>, SparseCommandFault>
        ensures cutter { IfOk result (λ pieces. (pieces.cutter.limit ≡ limit) × (pieces.cutter.made ≡ 0)) }
        ensures runs { IfOk result (λ pieces. pieces.cutter.runs ≡ runs) }
        ensures begins { IfOk result (λ pieces. pieces.cutter.stage ≡ CutterStage.Between) }
        ensures told { (x : List ℕ) → B.opened runs x → IfOk result (λ pieces. ToldCutter (B.place runs x)
            (B.together runs x) (B.size runs) (B.list runs x) pieces.cutter.limit pieces.cutter.made
            pieces.cutter.start pieces.cutter.stage) }
        ensures granted { OnOk result (64 + B.size runs ≤ limit) }
        ensures refused { IfErr result (λ fault.
            (fault ≡ SparseCommandFault.Piece (PieceFault.LimitTooSmall (64 + B.size runs))) × (limit < 64 + B.size runs)) }
    {
        match Cutter::open(runs, limit) {
            Ok(cutter) => Ok(PiecesOf { cutter }),
            Err(fault) => Err(SparseCommandFault::Piece(fault)),
        }
    }
}
