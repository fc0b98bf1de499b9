//! Cuts a raw image into pieces, each in one pass over its segment.
ghost use Rattle.std.specs.Prelude.{◌≡◌, ◌<◌, ◌≤◌, ◌+◌, ◌-◌, ◌*◌, ◌^◌, IsTrue, IfOk, IfErr, IfSome, OnErr};
ghost use Rattle.std.specs.Prelude.{Err, length, take, drop, false, ◌⊎◌};
ghost use Rattle.abt_sparse.specs.Block.{classify};
ghost use Rattle.abt_runs.specs.Raw.{RawPlace};
ghost use Rattle.abt_pieces.specs.Cutter.{ToldCutter, is_begun, has_failed};
ghost use Rattle.abt_pieces.specs.Fault.{CutCause, full_cut};
ghost use Rattle.abt_pieces.specs.declared.stage.CutterStage.{CutterStage};
ghost use Rattle.abt_pieces.specs.Calls.{CallCosts, devices};
ghost use Rattle.abt_placed.specs.Calls.{OutputGrows, LaysOn, scene};
ghost use Rattle.abt_pieces.specs.NextPiece.{LaidNext, SameCutter};
ghost use Rattle.abt_placed.specs.Segment.{IsUncut};
ghost use Rattle.abt_placed.specs.Unfinished.{IsUnfinished};
ghost use Rattle.abt_placed.specs.Piece.{OutlineLaid, OutlineWork, PieceAt, PieceAtWork, AnswersOver, ReadyRaw};
ghost use Rattle.abt_io.specs.Lent.{OnlyReads, OnlyWrites};
ghost use Rattle.abt_pieces.specs.Cutter.{full_at};

use crate::segment::{Segment, most_raw};
use abt_io::{Meter, Overwrite, Source, Window, write_out};
use abt_pieces::{Cutter, CutterStage, Outline, Piece, PieceFault};
use abt_runs::{Cursor, RawRuns};

/// Writes the piece of what begins at a block, after what is stored in the output: no raw chunk has more than
/// `most` blocks. A limit of `u64::MAX` is none, and the piece goes up to the last block. With `is_tail_raw` a block
/// that is filled up is raw, whatever its bytes are.
pub(crate) fn lay_piece<S: Source, O: Overwrite>(
    runs: &RawRuns,
    is_tail_raw: bool,
    source: &mut S,
    first: u32,
    most: u32,
    limit: u64,
    output: &mut O,
    w: &mut Window,
    m: &mut Meter,
) -> Result<Outline, PieceFault>
    requires within { first ≤ runs.now.blocks }
    requires some { 0 < most }
    requires small { 12 + most * runs.now.size < 2 ^ 32 }
    requires limit { 64 + runs.now.size ≤ limit }
    requires opened { IsTrue S.models → runs.now.length ≡ length (S.content source.old) }
    ensures lays { LaysOn result S.models (scene S.Source O.Output source.old output.old m.old)
        (scene S.Source O.Output source.new output.new m.new) }
    ensures made { IfOk result (λ o. OutlineLaid S.models is_tail_raw (S.content source.old) runs.now limit most first
        (O.written output.old) (O.written output.new) o) }
    ensures before { take (length (O.written output.old)) (O.written output.new) ≡ O.written output.old }
    ensures unfinished { OnErr result ((O.written output.new ≡ O.written output.old) ⊎
        IsUnfinished (drop (length (O.written output.old)) (O.written output.new))) }
    ensures within { length (O.written output.new)
        ≤ length (O.written output.old) + (28 + runs.now.blocks * (runs.now.size + 16)) }
    ensures long { IsUncut runs.now.size limit most →
        length (O.written output.new) + full_cut result ≤ length (O.written output.old) + limit }
    ensures work { OutlineWork runs.now first result (devices S.Source O.Output source.old output.old)
        (devices S.Source O.Output source.new output.new) m.old m.new }
{
    let front = output.position();
    match write_out(output, &[0; 28], m) {
        Ok(()) => {}
        Err(fault) => return Err(PieceFault::Write(fault)),
    }
    let mut segment = Segment::begin(front, first, most, limit);
    match segment.take_source(runs, is_tail_raw, source, output, w, m) {
        Ok(()) => {}
        Err(fault) => return Err(fault),
    }
    let past = segment.placer.blocks + segment.placer.count;
    match segment.end(runs.blocks, runs.size, output, m) {
        Ok(()) => {}
        Err(fault) => return Err(PieceFault::Write(fault)),
    }
    Ok(Outline {
        piece: Piece {
            first,
            past,
            written: past - first,
            bytes: output.position() - front,
        },
        chunks: segment.placer.chunks,
        next: Cursor {
            block: past,
            at: 0,
            chunk: 0,
            used: 0,
            ask: 1,
        },
    })
}

/// Writes the next piece of a raw image, with the same bytes as `Cutter::next_piece` writes. It writes to an output
/// whose written bytes can be overwritten, in one pass over the segment. For each piece at most a window of the
/// source is read again.
///
/// It returns and fails as `next_piece` does. A cutter may use either call for each piece. Whatever the source gives,
/// no piece passes the limit. `Write(Full)` comes only of an output that is full, and that took less than the limit.
///
/// Each header is written after the data that it describes, and the magic number of the piece last of all. So where
/// the call does not return Ok, what follows the earlier bytes of the output is nothing, or no image, whatever comes
/// after it.
pub fn next_piece_at<S: Source, O: Overwrite>(
    cutter: &mut Cutter<RawRuns>,
    source: &mut S,
    output: &mut O,
    w: &mut Window,
    m: &mut Meter,
) -> Result<Option<Piece>, PieceFault>
    requires unbegun { is_begun cutter.old.stage ≡ false }
    requires ready { ReadyRaw S.models (S.content source.old) cutter.old.runs cutter.old.limit cutter.old.made
        cutter.old.start cutter.old.stage }
    ensures cutter { SameCutter cutter.old.runs cutter.new.runs cutter.old.limit cutter.new.limit cutter.new.stage }
    ensures told { IsTrue S.models → ToldCutter (λ c. RawPlace cutter.old.runs.blocks cutter.old.runs.size c)
        (λ c. cutter.old.runs.blocks - c.block) cutter.old.runs.size
        (classify cutter.old.runs.size (S.content source.old)) cutter.new.limit cutter.new.made cutter.new.start
        cutter.new.stage }
    ensures reads { OnlyReads result S.Source source.old source.new }
    ensures writes { OnlyWrites result (full_at cutter.old.stage result) O.Output output.old output.new }
    // What is stored in the output, and the piece that is returned.
    ensures grows { OutputGrows result (O.written output.old) (O.written output.new) }
    ensures within { length (O.written output.new) ≤ length (O.written output.old) + cutter.old.limit }
    ensures made { IfOk result (λ o. IfSome o (λ p. PieceAt cutter.old.runs cutter.old.limit cutter.old.start.block
        cutter.new.start.block cutter.old.made cutter.new.made cutter.new.stage (O.written output.old)
        (O.written output.new) (devices S.Source O.Output source.old output.old)
        (devices S.Source O.Output source.new output.new) m.old m.new p)) }
    ensures laid { IsTrue S.models → IfOk result (λ o. IfSome o (λ p. LaidNext cutter.old.runs.size cutter.old.limit
        (classify cutter.old.runs.size (S.content source.old)) cutter.old.start.block p (O.written output.old)
        (O.written output.new))) }
    ensures over { AnswersOver cutter.old.stage cutter.new.stage
        ((output.new ≡ output.old) × (source.new ≡ source.old)) (cutter.new ≡ cutter.old) result }
    // What it costs, and what has failed.
    ensures costs { CallCosts cutter.old.runs.size (devices S.Source O.Output source.old output.old)
        (devices S.Source O.Output source.new output.new) m.old m.new }
    ensures work { PieceAtWork cutter.old.runs cutter.old.start.block (devices S.Source O.Output source.old output.old)
        (devices S.Source O.Output source.new output.new) m.old m.new }
    ensures full { has_failed cutter.old.stage ≡ false → full_cut result ≡ 1 → IsTrue (O.is_full output.new) ×
        (length (O.written output.new) < length (O.written output.old) + cutter.old.limit) }
    ensures cause { IfErr result (λ e. (cutter.old.stage ≡ CutterStage.Failed e) ⊎
        CutCause e S.models (S.read_faults source.old) (S.read_faults source.new) (O.write_faults output.old)
        (O.write_faults output.new)) }
{
    match cutter.stage {
        CutterStage::Done => return Ok(None),
        CutterStage::Failed(fault) => return Err(fault),
        CutterStage::Between
        | CutterStage::Plan(_)
        | CutterStage::Begin(_)
        | CutterStage::Write(_, _) => {}
    }
    let first = cutter.start.block;
    let most = most_raw(cutter.limit, cutter.runs.size);
    match lay_piece(
        &cutter.runs,
        false,
        source,
        first,
        most,
        cutter.limit as u64,
        output,
        w,
        m,
    ) {
        Ok(outline) => Ok(Some(cutter.pass(outline))),
        Err(fault) => Err(cutter.fail(fault)),
    }
}
