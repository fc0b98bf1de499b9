//! Writes a raw image as a sparse image in one pass.
ghost use Rattle.std.specs.Prelude.{◌≡◌, ◌<◌, ◌≤◌, ◌+◌, ◌*◌, ◌^◌, ◌++◌, IsTrue, IfOk, OnOk, length};
ghost use Rattle.abt_runs.specs.Tail.{raw_list};
ghost use Rattle.abt_sparse.specs.Chunk.{spelling, chunks_of};
ghost use Rattle.abt_sparsify.specs.Sparsify.{WritesSparse};
ghost use Rattle.abt_placed.specs.Calls.{OutputGrows};
ghost use Rattle.abt_placed.specs.Piece.{ImageWritten, ReadsOnce};

use crate::cutting::lay_piece;
use abt_io::{Meter, Overwrite, Source, Window};
use abt_pieces::{PieceFault, run_fault};
use abt_runs::RawRuns;
use abt_sparsify::Written;

/// Writes a raw image as a sparse image, with the same bytes as `sparsify` writes. It writes to an output whose
/// written bytes can be overwritten, in one pass that reads each byte of the source once.
///
/// It fails as `sparsify` does:
///
/// With `is_tail_raw` a block that is filled up with zeros is raw, whatever its bytes are.
///
/// Each header is written after the data that it describes, and the magic number of the image last of all. So where
/// the call does not return Ok, what follows the earlier bytes of the output is nothing, or no image, whatever comes
/// after it.
pub fn sparsify_at<S: Source, O: Overwrite>(
    source: &mut S,
    block_size: u32,
    is_tail_raw: bool,
    most: u32,
    output: &mut O,
    w: &mut Window,
    m: &mut Meter,
) -> Result<Written, PieceFault>
    requires some { 1 ≤ most }
    requires small { 12 + most * block_size < 2 ^ 32 }
    ensures does { WritesSparse result block_size S.Source O.Output source.old source.new output.old output.new m.old
        m.new }
    ensures written { IfOk result (λ a. ImageWritten block_size (S.size source.old) a (O.written output.old)
        (O.written output.new)) }
    ensures chunks { IsTrue S.models → IfOk result (λ a.
        (a.blocks ≡ length (raw_list is_tail_raw block_size (S.content source.old)))
        × (a.chunks ≡ length (chunks_of most (raw_list is_tail_raw block_size (S.content source.old))))) }
    ensures grows { OutputGrows result (O.written output.old) (O.written output.new) }
    ensures whole { IsTrue S.models →
        OnOk result (O.written output.new ≡ O.written output.old ++ spelling block_size most
        (raw_list is_tail_raw block_size (S.content source.old))) }
    ensures takes { ReadsOnce (S.size source.old) result (S.given source.old) (S.given source.new) }
{
    let runs = match RawRuns::open(source, block_size) {
        Ok(runs) => runs,
        Err(fault) => return Err(run_fault(fault)),
    };
    match lay_piece(&runs, is_tail_raw, source, 0, most, u64::MAX, output, w, m) {
        Ok(outline) => Ok(Written {
            blocks: runs.blocks,
            chunks: outline.chunks,
            bytes: outline.piece.bytes,
        }),
        Err(fault) => Err(fault),
    }
}
