//! Cuts an image into the fewest pieces for a download limit.
ghost use Rattle.std.specs.Prelude.{◌≡◌, ◌<◌, ◌≤◌, ◌+◌, ◌-◌, ◌*◌, ◌++◌, ℕ, List, IsTrue, IfOk, IfErr, IfSome, IfNone};
ghost use Rattle.std.specs.Prelude.{OnErr, Ok, Err, length, take, true, false, ◌⊎◌, if◌then◌else◌};
ghost use Rattle.abt_sparse.specs.Block.{Block};
ghost use Rattle.abt_sparse.specs.Runs.{Division};
ghost use Rattle.abt_pieces.specs.Fault.{CutCause, full_cut};
ghost use Rattle.abt_pieces.specs.Plan.{FirstPiece};
ghost use Rattle.abt_pieces.specs.Outline.{IsPieceOf};
ghost use Rattle.abt_pieces.specs.Alike.{SoundCutter-prop};
ghost use Rattle.abt_pieces.specs.Cutter.{SoundOutline, SoundCutter, ToldCutter, Made, segments_left, coming, has_more};
ghost use Rattle.abt_pieces.specs.Cutter.{is_begun, has_failed, piece_words, ToldOutline, full_at};
ghost use Rattle.abt_pieces.specs.Calls.{ReadsCut, PieceCosts, PlanCosts, devices};
ghost use Rattle.abt_pieces.specs.NextPiece.{LaidNext, LeavesCutter, PieceMade, PiecePassed};
ghost use Rattle.abt_pieces.specs.SpentStage.{SpentPiece, all_passes};
ghost use Rattle.abt_pieces.specs.Turn.{NextInTurn};
ghost use Rattle.abt_pieces.specs.declared.stage.CutterStage.{CutterStage};
ghost use Rattle.abt_io.specs.Lent.{OnlyWrites};
ghost use Rattle.abt_pieces.specs.Ready.{ReadyCutter};
ghost use Rattle.abt_pieces.specs.PlanStep.{Charged};

use crate::PieceFault;
use crate::fault::run_fault;
use crate::outline::{Outline, Piece};
use crate::plan::plan_piece;
use crate::stage::{CutterStage, PieceProgress};
use abt_io::{Meter, Output, Source, Window};
use abt_runs::{BlockRuns, Cursor};

/// The least limit at which every image with blocks of this size, in bytes, can be cut: that of a
/// piece with one raw block and others on both sides.
pub fn least_limit(block_size: u32) -> u64
    ensures { result ≡ 64 + block_size }
{
    64 + block_size as u64
}

/// Cuts an image into pieces. It holds numbers alone, and borrows its devices at each call.
#[derive(Drop)]
pub struct Cutter<R: BlockRuns + Drop> {
    /// The image.
    pub runs: R,
    /// The most bytes that a piece may have.
    pub limit: u32,
    /// Where the next piece begins.
    pub start: Cursor,
    /// How many pieces it has finished.
    pub made: u64,
    /// Its stage.
    pub stage: CutterStage,
    /// The places are within the image, and the numbers of a begun piece fit one another and the limit.
    pub ghost sound: { SoundCutter (R.within runs) (R.reach runs) (R.taken runs) (R.count runs) (R.size runs) limit made
        start stage } by { SoundCutter-prop (R.within runs) (R.within_alike runs) (R.reach runs) (R.taken runs)
            (R.count runs) (R.size runs) limit made start stage },
}

impl<R: BlockRuns + Drop> Cutter<R> {
    /// A cutter at the beginning of an opened image. It refuses with `LimitTooSmall` exactly where the
    /// limit is below `least_limit`, whatever the image holds, and then hands nothing back.
    pub fn open(runs: R, limit: u32) -> Result<Cutter<R>, PieceFault>
        ensures runs { IfOk result (λ c. c.runs ≡ runs) }
        ensures limit { IfOk result (λ c. c.limit ≡ limit) }
        ensures granted { IfOk result (λ c. 64 + R.size runs ≤ limit) }
        ensures refused { IfErr result (λ e. (e ≡ PieceFault.LimitTooSmall (64 + R.size runs)) ×
            (limit < 64 + R.size runs)) }
        ensures begins { IfOk result (λ c. (c.stage ≡ CutterStage.Between) × (c.made ≡ 0) × (c.start.block ≡ 0)) }
        ensures told { (x : List ℕ) → R.opened runs x →
            IfOk result (λ c. ToldCutter (R.place runs x) (R.together runs x) (R.size runs) (R.list runs x) c.limit
            c.made c.start c.stage) }
    {
        let least = least_limit(runs.block_size());
        if (limit as u64) < least {
            return Err(PieceFault::LimitTooSmall { least });
        }
        let start = runs.start();
        Ok(Cutter {
            runs,
            limit,
            start,
            made: 0,
            stage: CutterStage::Between,
        })
    }

    /// Whether a piece is begun or left, or a call has refused.
    pub fn more(&self) -> bool
        ensures { result ≡ has_more self.now.stage }
    {
        match self.stage {
            CutterStage::Done => false,
            CutterStage::Between
            | CutterStage::Plan(_)
            | CutterStage::Begin(_)
            | CutterStage::Write(_, _)
            | CutterStage::Failed(_) => true,
        }
    }

    /// Plans the next piece.
    fn outline<S: Source>(
        &self,
        source: &mut S,
        w: &mut Window,
        m: &mut Meter,
    ) -> Result<Outline, PieceFault>
        requires told { IsTrue S.models → R.opened self.now.runs (S.content source.old) ×
            R.place self.now.runs (S.content source.old) self.now.start }
        ensures source { ReadsCut result S.Source source.old source.new }
        ensures sound { IfOk result (λ o. SoundOutline (R.within self.now.runs) (R.count self.now.runs) self.now.limit
            self.now.start.block o) }
        ensures told { IsTrue S.models → IfOk result (λ o. ToldOutline (R.place self.now.runs (S.content source.old))
            (R.size self.now.runs) (R.list self.now.runs (S.content source.old)) self.now.limit self.now.start.block
            o) }
        ensures charges { IfOk result (λ o. Charged (R.charge self.now.runs) (R.one self.now.runs)
            (R.count self.now.runs) self.now.start o.next o.piece.past (S.given source.old) (S.given source.new)) }
        ensures takes { IfOk result (λ o. o.piece.bytes + R.taken self.now.runs self.now.start
            ≤ R.taken self.now.runs o.next + 80) }
        ensures costs { PlanCosts (R.one self.now.runs) (S.reads source.old) (S.given source.old) (S.reads source.new)
            (S.given source.new) m.old m.new }
        ensures words { IfOk result (λ o. m.new.turns.number
            ≤ m.old.turns.number + 5 * (S.given source.new - S.given source.old) + 2 + piece_words (R.one self.now.runs)
            (R.count self.now.runs) o.piece.past) }
    {
        let start = self.start;
        let planner = match plan_piece(&self.runs, source, start, self.limit, w, m) {
            Ok(planner) => planner,
            Err(fault) => return Err(run_fault(fault)),
        };
        match self.planned(&planner) {
            Ok(outline) => Ok(outline),
            Err(fault) => Err(fault),
        }
    }

    /// Writes the next piece, and returns what it is; `None` after the last. No piece may be begun: the last `step`,
    /// if there was one, did not return `More`.
    ///
    /// - It fails with `Read` or `Write` where that device has failed.
    /// - It fails with `SourceChanged` where the source is no longer the one that was opened.
    /// - After a fault it returns the same fault again.
    /// - After a fault the output has a beginning of the piece, and never more than the limit.
    /// - Whatever the source gave, a piece that was returned is a sparse image of all blocks, with nothing after it.
    /// - `Write(Full)` comes only of an output that is full, and that took less than the limit.
    pub fn next_piece<S: Source, O: Output>(
        &mut self,
        source: &mut S,
        output: &mut O,
        w: &mut Window,
        m: &mut Meter,
    ) -> Result<Option<Piece>, PieceFault>
        requires unbegun { is_begun self.old.stage ≡ false }
        requires ready { ReadyCutter R.BlockRuns S.Source self.old.runs source.old self.old.limit self.old.made
            self.old.start self.old.stage }
        ensures left { LeavesCutter R.BlockRuns S.Source result self.old.runs self.new.runs self.old.limit
            self.new.limit self.new.made self.new.start self.new.stage source.old source.new }
        ensures writes { OnlyWrites result (full_at self.old.stage result) O.Output output.old output.new }
        ensures within { length (O.written output.new) ≤ length (O.written output.old) + self.old.limit }
        ensures front { IsTrue S.models → O.written output.new ≡ O.written output.old ++ take
            (length (O.written output.new) - length (O.written output.old))
            (coming (R.size self.old.runs) self.old.limit (R.list self.old.runs (S.content source.old))
            self.old.start.block self.old.stage) }
        ensures made { IfOk result (λ o. IfSome o (λ p. PieceMade R.BlockRuns self.old.runs self.old.limit
            self.old.start self.new.start self.old.made self.new.made self.new.stage (S.given source.old)
            (S.given source.new) (O.written output.old) (O.written output.new) m.old m.new p)) }
        ensures laid { IsTrue S.models → IfOk result (λ o. IfSome o (λ p. LaidNext (R.size self.old.runs) self.old.limit
            (R.list self.old.runs (S.content source.old)) self.old.start.block p (O.written output.old)
            (O.written output.new))) }
        ensures none { IfOk result (λ o. IfNone o ((self.old.stage ≡ CutterStage.Done) × (output.new ≡ output.old) ×
            (source.new ≡ source.old) × (self.new ≡ self.old))) }
        ensures after_last { self.old.stage ≡ CutterStage.Done → IfOk result (λ o. IfSome o (λ p. ⊥)) × OnErr result ⊥ }
        ensures again { (f : PieceFault) → self.old.stage ≡ CutterStage.Failed f → (result ≡ Err f) ×
            (output.new ≡ output.old) × (source.new ≡ source.old) }
        ensures costs { PieceCosts (R.one self.old.runs) (devices S.Source O.Output source.old output.old)
            (devices S.Source O.Output source.new output.new) m.old m.new }
        ensures spent { IsTrue S.models → IfOk result (λ o. IfSome o (λ p. SpentPiece (R.charge self.old.runs)
            (R.copied self.old.runs) (R.count self.old.runs) (R.one self.old.runs) p.past self.new.start
            (all_passes (R.charge self.old.runs) (R.copied self.old.runs) self.old.start +
            (S.given source.new - S.given source.old)))) }
        ensures full { has_failed self.old.stage ≡ false → full_cut result ≡ 1 → IsTrue (O.is_full output.new) ×
            (length (O.written output.new) < length (O.written output.old) + self.old.limit) }
        ensures cause { IfErr result (λ e. (self.old.stage ≡ CutterStage.Failed e) ⊎
            CutCause e S.models (S.read_faults source.old) (S.read_faults source.new) (O.write_faults output.old)
            (O.write_faults output.new)) }
    {
        'steps: loop {
            m.tick();
            match self.step(source, output, w, m) {
                Ok(PieceProgress::More) => {}
                Ok(PieceProgress::Piece(piece)) => return Ok(Some(piece)),
                Ok(PieceProgress::End) => return Ok(None),
                Err(fault) => return Err(fault),
            }
        }
    }

    /// Plans and passes over the next piece, writes nothing, and returns what `next_piece` would. No
    /// piece may be begun.
    pub fn skip_piece<S: Source>(
        &mut self,
        source: &mut S,
        w: &mut Window,
        m: &mut Meter,
    ) -> Result<Option<Piece>, PieceFault>
        requires unbegun { is_begun self.old.stage ≡ false }
        requires ready { ReadyCutter R.BlockRuns S.Source self.old.runs source.old self.old.limit self.old.made
            self.old.start self.old.stage }
        ensures left { LeavesCutter R.BlockRuns S.Source result self.old.runs self.new.runs self.old.limit
            self.new.limit self.new.made self.new.start self.new.stage source.old source.new }
        ensures passed { IfOk result (λ o. IfSome o (λ p. PiecePassed R.BlockRuns self.old.runs self.old.limit
            self.old.start self.new.start self.old.made self.new.made self.new.stage (S.given source.old)
            (S.given source.new) m.old m.new p)) }
        ensures exact { IsTrue S.models →
            IfOk
            result (λ o. IfSome o (λ p. IsPieceOf (R.size self.old.runs) (R.list self.old.runs (S.content source.old))
            p)) }
        ensures greatest { IsTrue S.models →
            IfOk
            result (λ o. IfSome o (λ p. FirstPiece (R.size self.old.runs) (R.list self.old.runs (S.content source.old))
            self.old.limit p.first p.past)) }
        ensures none { IfOk result (λ o. IfNone o ((self.old.stage ≡ CutterStage.Done) × (source.new ≡ source.old) ×
            (self.new ≡ self.old))) }
        ensures again { (f : PieceFault) → self.old.stage ≡ CutterStage.Failed f → (result ≡ Err f) ×
            (source.new ≡ source.old) }
        ensures costs { PlanCosts (R.one self.old.runs) (S.reads source.old) (S.given source.old) (S.reads source.new)
            (S.given source.new) m.old m.new }
        ensures cause { IfErr result (λ e. (self.old.stage ≡ CutterStage.Failed e) ⊎
            CutCause e S.models (S.read_faults source.old) (S.read_faults source.new) 0 0) }
    {
        match self.stage {
            CutterStage::Done => return Ok(None),
            CutterStage::Failed(fault) => return Err(fault),
            CutterStage::Between
            | CutterStage::Plan(_)
            | CutterStage::Begin(_)
            | CutterStage::Write(_, _) => {}
        }
        match self.outline(source, w, m) {
            Ok(outline) => Ok(Some(self.pass(outline))),
            Err(fault) => Err(self.fail(fault)),
        }
    }
}

/// With so many pieces made, and one more where there is more, no way to divide the image within
/// the limit has fewer pieces.
pub fn no_fewer_pieces()
    ensures { (b limit made s : ℕ) (l : List Block) (st : CutterStage) (parts : List (List Block)) →
        Made b limit l made (segments_left b limit l s st) → Division limit b l parts →
        made + (if has_more st then 1 else 0) ≤ length parts }
{}

/// What a cutter writes next, with so many pieces made, is the one after them of all pieces of the
/// image.
pub fn next_in_turn()
    ensures { NextInTurn }
{}
