//! How a piece is written to the spool: forward in repeated passes, or in one pass with its headers last.

ghost use Rattle.std.specs.Prelude.{◌≡◌, ℕ, ◌<◌, ◌≤◌, ◌+◌, ◌-◌, ◌*◌, ◌++◌, Bool, IsTrue, IfOk, IfErr, length};
ghost use Rattle.std.specs.Prelude.{true, false, ◌⊎◌};
ghost use Rattle.abt_runs.specs.declared.part.Cursor.{Cursor};
ghost use Rattle.abt_pieces.specs.Calls.{devices};
ghost use Rattle.abt_pieces.specs.Cutter.{ToldCutter};
ghost use Rattle.abt_pieces.specs.Fault.{CutCause, full_cut};
ghost use Rattle.abt_pieces.specs.NextPiece.{LaidNext, SameCutter};
ghost use Rattle.abt_pieces.specs.Outline.{piece_at};
ghost use Rattle.abt_pieces.specs.SpentStage.{all_passes};
ghost use Rattle.abt_pieces.specs.declared.stage.CutterStage.{CutterStage};
ghost use Rattle.abt_placed.specs.Whole.{read_of};
ghost use Rattle.abt_flash.specs.Delivering.{Begins};
ghost use Rattle.abt_flash.specs.Way.{GrowsLate, WayCosts, forward_bounded, late_bounded};
ghost use Rattle.abt_io.specs.Lent.{OnlyReads, OnlyWrites};
ghost use Rattle.abt_pieces.specs.Ready.{ReadyCutter};
ghost use Rattle.abt_flash.specs.Way.{WritesNext, WaySpent};

use abt_io::{Meter, Overwrite, Source, Spool, Window};
use abt_pieces::{Cutter, Piece, PieceFault};
use abt_placed::next_piece_at;
use abt_runs::{BlockRuns, Cursor, RawRuns};

/// How the next piece of an image is written to a spool.
pub(crate) trait Way<R: BlockRuns + Drop, L: Spool> {
    /// Whether the piece is written from its beginning on, so that what the spool has of an unfinished piece is a
    /// beginning of it. Otherwise that is nothing, or no image.
    ghost is_forward: { Bool };

    /// How many bytes are read of the source for all pieces before a place, at most.
    ghost before: { R → Cursor → ℕ };

    /// How many more for each piece, and for the last.
    ghost each: { R → ℕ };

    ghost last: { R → ℕ };

    /// How many for all of the image, but for those.
    ghost all: { R → ℕ };

    /// Writes the piece after what is stored there. The cutter is between two pieces.
    fn write_piece<S: Source>(
        &self,
        cutter: &mut Cutter<R>,
        source: &mut S,
        spool: &mut L,
        w: &mut Window,
        m: &mut Meter,
    ) -> Result<Piece, PieceFault>
        requires between { cutter.old.stage ≡ CutterStage.Between }
        requires ready { ReadyCutter R.BlockRuns S.Source cutter.old.runs source.old cutter.old.limit cutter.old.made
            cutter.old.start cutter.old.stage }
        ensures cutter { SameCutter cutter.old.runs cutter.new.runs cutter.old.limit cutter.new.limit
            cutter.new.stage }
        ensures told { IsTrue S.models → ToldCutter (R.place cutter.old.runs (S.content source.old))
            (R.together cutter.old.runs (S.content source.old)) (R.size cutter.old.runs)
            (R.list cutter.old.runs (S.content source.old)) cutter.new.limit cutter.new.made cutter.new.start
            cutter.new.stage }
        ensures source { OnlyReads result S.Source source.old source.new }
        ensures writes { OnlyWrites result (full_cut result) L.Output spool.old spool.new }
        // What is stored in the spool, and the piece that is returned.
        ensures within { length (L.written spool.new) ≤ length (L.written spool.old) + cutter.old.limit }
        ensures begins { IsTrue is_forward → IsTrue S.models → Begins (L.written spool.new)
            (L.written spool.old ++ piece_at (R.size cutter.old.runs) cutter.old.limit
            (R.list cutter.old.runs (S.content source.old)) cutter.old.start.block) }
        ensures late { is_forward ≡ false → GrowsLate result (L.written spool.old) (L.written spool.new) }
        ensures made { IfOk result (λ p. WritesNext R.BlockRuns cutter.old.runs cutter.old.limit cutter.old.start
            cutter.new.start cutter.old.made cutter.new.made cutter.new.stage (S.given source.old) (S.given source.new)
            (L.written spool.old) (L.written spool.new) m.old m.new p) }
        ensures laid { IsTrue S.models → IfOk result (λ p. LaidNext (R.size cutter.old.runs) cutter.old.limit
            (R.list cutter.old.runs (S.content source.old)) cutter.old.start.block p (L.written spool.old)
            (L.written spool.new)) }
        // What it costs, and what has failed.
        ensures costs { WayCosts (R.one cutter.old.runs) (devices S.Source L.Output source.old spool.old)
            (devices S.Source L.Output source.new spool.new) m.old m.new }
        ensures spent { IsTrue S.models → IfOk result (λ p. WaySpent (before cutter.old.runs) (R.count cutter.old.runs)
            (each cutter.old.runs) (last cutter.old.runs) cutter.old.start cutter.new.start (S.given source.old)
            (S.given source.new)) }
        ensures full { full_cut result ≡ 1 → IsTrue (L.is_full spool.new) ×
            (length (L.written spool.new) < length (L.written spool.old) + cutter.old.limit) }
        ensures cause { IfErr result (λ e. CutCause e S.models (S.read_faults source.old) (S.read_faults source.new)
            (L.write_faults spool.old) (L.write_faults spool.new)) };

    /// What is read for a part of the image is no more than for all of it.
    ghost bounded: { (r : R) (c : Cursor) → R.within r c → before r c ≤ all r };
}

/// Forward: its bytes in order, in as many passes over what it is of as that takes.
pub(crate) struct Forward {}

impl<R: BlockRuns + Drop, L: Spool> Way<R, L> for Forward {
    ghost is_forward = { true };

    ghost before = { λ r c. all_passes (R.charge r) (R.copied r) c };

    ghost each = { λ r. 80 + R.one r };

    ghost last = { λ r. 48 };

    ghost all = { λ r. 3 * R.pass r + R.image r };

    ghost bounded = { λ r c h. forward_bounded _ _ _ _ _ _ (R.passed r c h) (R.copied_fits r c h) };

    fn write_piece<S: Source>(
        &self,
        cutter: &mut Cutter<R>,
        source: &mut S,
        spool: &mut L,
        w: &mut Window,
        m: &mut Meter,
    ) -> Result<Piece, PieceFault> {
        match cutter.next_piece(source, spool, w, m) {
            Ok(Some(piece)) => Ok(piece),
            Ok(None) => unreachable!(),
            Err(fault) => Err(fault),
        }
    }
}

/// In one pass over a raw image, each header after the data that it describes.
pub(crate) struct Late {}

impl<L: Spool + Overwrite> Way<RawRuns, L> for Late {
    ghost is_forward = { false };

    ghost before = { λ r c. read_of r.length r.size c.block };

    ghost each = { λ r. 65536 };

    ghost last = { λ r. 65536 };

    ghost all = { λ r. r.length };

    ghost bounded = { λ r c h. late_bounded _ _ _ };

    fn write_piece<S: Source>(
        &self,
        cutter: &mut Cutter<RawRuns>,
        source: &mut S,
        spool: &mut L,
        w: &mut Window,
        m: &mut Meter,
    ) -> Result<Piece, PieceFault> {
        match next_piece_at(cutter, source, spool, w, m) {
            Ok(Some(piece)) => Ok(piece),
            Ok(None) => unreachable!(),
            Err(fault) => Err(fault),
        }
    }
}
