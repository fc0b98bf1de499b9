//! One step of cutting: a part of a plan, the header of a piece, or a part of its chunks.
ghost use Rattle.std.specs.Prelude.{◌≡◌, ◌<◌, ◌≤◌, ◌+◌, ◌-◌, ◌*◌, ◌^◌, ◌++◌, ℕ, List, IsTrue, IfOk, IfErr, OnOk, Ok};
ghost use Rattle.std.specs.Prelude.{Err, length, take, true, false, ◌⊎◌};
ghost use Rattle.abt_sparse.specs.Block.{Block, AreBlocks};
ghost use Rattle.abt_sparse.specs.Chunk.{header_record, plain_header};
ghost use Rattle.abt_pieces.specs.Fault.{CutCause, full_cut};
ghost use Rattle.abt_pieces.specs.Plan.{Planned, Even, last_words};
ghost use Rattle.abt_pieces.specs.Outline.{IsOutline, piece_at};
ghost use Rattle.abt_pieces.specs.Cutter.{SoundOutline, ToldStage, ToldCutter, OnEnd, coming, first_writer, most_raw};
ghost use Rattle.abt_pieces.specs.SpentStage.{SpentPlan, SpentStage};
ghost use Rattle.abt_pieces.specs.Stepped.{Stepped};
ghost use Rattle.abt_pieces.specs.declared.stage.CutterStage.{CutterStage};
ghost use Rattle.abt_pieces.specs.declared.stage.PieceProgress.{PieceProgress};
ghost use Rattle.abt_io.specs.Lent.{OnlyWrites, OneStep};
ghost use Rattle.abt_pieces.specs.Calls.{ReadsCut, WordCosts, WriteCosts};
ghost use Rattle.abt_pieces.specs.NextPiece.{KeepsPlace};
ghost use Rattle.abt_pieces.specs.Ready.{ReadyPlan, ReadyCutter};
ghost use Rattle.abt_pieces.specs.PlanStep.{PlanStaged};

use crate::PieceFault;
use crate::chunk::write_header;
use crate::cutter::Cutter;
use crate::fault::run_fault;
use crate::outline::{Outline, Piece, outlined};
use crate::plan::Planner;
use crate::stage::{CutterStage, PieceProgress};
use crate::write::Writer;
use abt_io::{Meter, Output, Source, Window};
use abt_runs::{BlockRuns, Cursor};

impl<R: BlockRuns + Drop> Cutter<R> {
    /// The piece of a plan that goes no further. A source that has changed since it was opened may
    /// have ended before the image does.
    pub(crate) fn planned(&self, planner: &Planner) -> Result<Outline, PieceFault>
        requires even { Even planner.now }
        requires room { planner.now.weight ≤ self.now.limit }
        requires at { R.within self.now.runs planner.now.at }
        ensures sound { IfOk result (λ o. SoundOutline (R.within self.now.runs) (R.count self.now.runs) self.now.limit
            planner.now.first o) }
        ensures exact { IfOk result (λ o. (l : List Block) → length l ≡ R.count self.now.runs →
            AreBlocks (R.size self.now.runs) l → Planned (R.size self.now.runs) l planner.now →
            IsOutline (R.size self.now.runs) l o) }
        ensures longer { IfOk result (λ o. o.piece.bytes ≤ planner.now.contents.bytes + 12) }
        ensures next { IfOk result (λ o. (o.next ≡ planner.now.at) × (o.piece.past ≡ planner.now.at.block)) }
        ensures refused { IfErr result (λ e. (e ≡ PieceFault.SourceChanged) × (planner.now.first ≡ planner.now.at.block)
            × (planner.now.at.block < R.count self.now.runs)) }
    {
        let _limit = self.limit;
        let count = self.runs.blocks();
        let size = self.runs.block_size();
        within_count(&self.runs, planner.at);
        let outline = outlined(planner, count, size);
        if outline.piece.first == outline.piece.past && outline.piece.past < count {
            return Err(PieceFault::SourceChanged);
        }
        Ok(outline)
    }

    /// Moves past a piece that is whole.
    pub fn pass(&mut self, outline: Outline) -> Piece
        requires few { self.old.made ≤ self.old.start.block }
        requires outline { SoundOutline (R.within self.old.runs) (R.count self.old.runs) self.old.limit
            self.old.start.block outline }
        ensures runs { self.new.runs ≡ self.old.runs }
        ensures limit { self.new.limit ≡ self.old.limit }
        ensures piece { result ≡ outline.piece }
        ensures start { self.new.start ≡ outline.next }
        ensures made { self.new.made ≡ self.old.made + 1 }
        ensures done { outline.piece.past ≡ R.count self.old.runs → self.new.stage ≡ CutterStage.Done }
        ensures between { outline.piece.past < R.count self.old.runs → self.new.stage ≡ CutterStage.Between }
    {
        let count = self.runs.blocks();
        self.start = outline.next;
        self.made += 1;
        self.stage = if outline.piece.past == count {
            CutterStage::Done
        } else {
            CutterStage::Between
        };
        outline.piece
    }

    /// The fault, which is returned from now on.
    pub fn fail(&mut self, fault: PieceFault) -> PieceFault
        requires few { self.old.made ≤ self.old.start.block }
        ensures fault { result ≡ fault }
        ensures stage { self.new.stage ≡ CutterStage.Failed fault }
        ensures rest { (self.new.runs ≡ self.old.runs) × (self.new.limit ≡ self.old.limit) ×
            (self.new.start ≡ self.old.start) × (self.new.made ≡ self.old.made) }
    {
        self.stage = CutterStage::Failed(fault);
        fault
    }

    /// Plans one part more of the next piece. One step.
    #[tactic(auto, using(crate::proofs::Fronts::run_not_full))]
    #[inline(always)]
    fn plan<S: Source>(
        &mut self,
        from: Planner,
        source: &mut S,
        w: &mut Window,
        m: &mut Meter,
    ) -> Result<(), PieceFault>
        requires ready { ReadyPlan R.BlockRuns S.Source self.old.runs source.old self.old.limit self.old.made
            self.old.start from }
        ensures keeps { KeepsPlace result self.old.runs self.new.runs self.old.limit self.new.limit self.old.start
            self.new.start self.old.made self.new.made self.new.stage }
        ensures source { ReadsCut result S.Source source.old source.new }
        ensures goes_on { OnOk result (PlanStaged R.BlockRuns self.old.runs self.old.limit self.old.start from.at
            self.new.stage (S.given source.old) (S.given source.new) m.old m.new) }
        ensures told { IsTrue S.models →
            OnOk result (ToldStage (R.place self.old.runs (S.content source.old))
            (R.together self.old.runs (S.content source.old)) (R.size self.old.runs)
            (R.list self.old.runs (S.content source.old)) self.old.limit self.old.start.block self.new.stage) }
        ensures coming { IsTrue S.models →
            OnOk result (coming (R.size self.old.runs) self.old.limit (R.list self.old.runs (S.content source.old))
            self.old.start.block self.new.stage ≡ piece_at (R.size self.old.runs) self.old.limit
            (R.list self.old.runs (S.content source.old)) self.old.start.block) }
        ensures spends { (t : ℕ) → SpentPlan (R.charge self.old.runs) (R.copied self.old.runs) (R.size self.old.runs)
            self.old.limit self.old.start t from →
            OnOk result (SpentStage (λ c. R.within self.old.runs c × R.place self.old.runs (S.content source.old) c)
            (R.charge self.old.runs) (R.copied self.old.runs) (R.held self.old.runs) (R.size self.old.runs)
            self.old.limit (R.count self.old.runs) (R.one self.old.runs) self.old.start
            (t + (S.given source.new - S.given source.old)) self.new.stage) }
        ensures costs { WordCosts (last_words (R.one self.old.runs) (R.count self.old.runs) from.at.block)
            (1 + 3 * R.one self.old.runs) S.Source source.old source.new m.old m.new }
        ensures unwritten { full_cut result ≡ 0 }
    {
        let mut planner = from;
        let limit = self.limit;
        match planner.step(&self.runs, source, limit, w, m) {
            Ok(false) => {
                self.stage = CutterStage::Plan(planner);
                Ok(())
            }
            Ok(true) => match self.planned(&planner) {
                Ok(outline) => {
                    self.stage = CutterStage::Begin(outline);
                    Ok(())
                }
                Err(fault) => Err(self.fail(fault)),
            },
            Err(fault) => Err(self.fail(run_fault(fault))),
        }
    }

    /// One step of a plan that is begun, or begins here. It leaves the output alone.
    #[inline(always)]
    fn plan_on<S: Source, O: Output>(
        &mut self,
        from: Planner,
        source: &mut S,
        _output: &O,
        w: &mut Window,
        m: &mut Meter,
    ) -> Result<PieceProgress, PieceFault>
        requires ready { ReadyPlan R.BlockRuns S.Source self.old.runs source.old self.old.limit self.old.made
            self.old.start from }
        requires at { (self.old.stage ≡ CutterStage.Plan from) ⊎ ((self.old.stage ≡ CutterStage.Between) ×
            (from.at ≡ self.old.start)) }
        requires told { IsTrue S.models → ToldCutter (R.place self.old.runs (S.content source.old))
            (R.together self.old.runs (S.content source.old)) (R.size self.old.runs)
            (R.list self.old.runs (S.content source.old)) self.old.limit self.old.made self.old.start self.old.stage }
        ensures stepped { Stepped R.BlockRuns S.Source O.Output result self.old.runs self.new.runs self.old.limit
            self.new.limit self.old.start self.new.start self.old.made self.new.made self.old.stage self.new.stage
            source.old source.new _output.now _output.now m.old m.new }
        ensures unended { OnEnd result ⊥ }
    {
        match self.plan(from, source, w, m) {
            Ok(()) => Ok(PieceProgress::More),
            Err(fault) => Err(fault),
        }
    }

    /// Writes the header of a planned piece. One step.
    fn begin<O: Output>(
        &mut self,
        outline: Outline,
        output: &mut O,
        m: &mut Meter,
    ) -> Result<(), PieceFault>
        requires at { self.old.stage ≡ CutterStage.Begin outline }
        ensures keeps { KeepsPlace result self.old.runs self.new.runs self.old.limit self.new.limit self.old.start
            self.new.start self.old.made self.new.made self.new.stage }
        ensures small { self.old.limit < 2 ^ 32 }
        ensures fits { (R.size self.old.runs < 2 ^ 32) × (R.count self.old.runs < 2 ^ 32) × (outline.chunks < 2 ^ 32) }
        ensures stage { OnOk result (self.new.stage ≡ CutterStage.Write outline (first_writer self.old.start outline
            (most_raw (R.size self.old.runs) self.old.limit))) }
        ensures writes { OnlyWrites result (full_cut result) O.Output output.old output.new }
        ensures within { length (O.written output.new) ≤ length (O.written output.old) + 28 }
        ensures whole { OnOk result (length (O.written output.new) ≡ length (O.written output.old) + 28) }
        ensures front { O.written output.new ≡ O.written output.old ++ take
            (length (O.written output.new) - length (O.written output.old))
            (header_record (plain_header (R.size self.old.runs) (R.count self.old.runs) outline.chunks)) }
        ensures costs { WriteCosts O.Output output.old output.new m.old m.new }
        ensures one_step { OneStep 0 m.old m.new }
        ensures full { full_cut result ≡ 1 → IsTrue (O.is_full output.new) ×
            (length (O.written output.new) < length (O.written output.old) + 28) }
        ensures cause { IfErr result (λ e. CutCause e true 0 0 (O.write_faults output.old)
            (O.write_faults output.new)) }
    {
        let _limit = self.limit;
        let _chunks = outline.chunks;
        let start = self.start;
        let count = self.runs.blocks();
        let size = self.runs.block_size();
        let written = write_header(output, size, count, outline.chunks, m);
        m.close_step(0);
        match written {
            Ok(()) => {
                let most = (self.limit - 40) / size;
                self.stage = CutterStage::Write(outline, Writer::begin(start, &outline, most));
                Ok(())
            }
            Err(fault) => Err(self.fail(PieceFault::Write(fault))),
        }
    }

    /// Writes one part more of a piece, or moves past it where it is whole. One step.
    #[inline(always)]
    fn write<S: Source, O: Output>(
        &mut self,
        outline: Outline,
        from: Writer,
        source: &mut S,
        output: &mut O,
        w: &mut Window,
        m: &mut Meter,
    ) -> Result<PieceProgress, PieceFault>
        requires at { self.old.stage ≡ CutterStage.Write outline from }
        requires ready { ReadyCutter R.BlockRuns S.Source self.old.runs source.old self.old.limit self.old.made
            self.old.start self.old.stage }
        ensures stepped { Stepped R.BlockRuns S.Source O.Output result self.old.runs self.new.runs self.old.limit
            self.new.limit self.old.start self.new.start self.old.made self.new.made self.old.stage self.new.stage
            source.old source.new output.old output.new m.old m.new }
        ensures unended { OnEnd result ⊥ }
    {
        let mut writer = from;
        match writer.step(&self.runs, source, output, w, m) {
            Ok(false) => {
                self.stage = CutterStage::Write(outline, writer);
                Ok(PieceProgress::More)
            }
            Ok(true) => Ok(PieceProgress::Piece(self.pass(outline))),
            Err(fault) => Err(self.fail(fault)),
        }
    }

    /// One step of cutting: it plans a part more of the next piece, or writes its header, or writes
    /// a part more of its chunks. It holds nothing over: it writes at most 80 bytes more than it
    /// received from the source. A piece is returned when it is whole, and `End` after the last;
    /// then that is returned again, and no device called. It refuses as `next_piece` does, and then
    /// returns the same fault again and calls no device.
    #[inline(always)]
    pub fn step<S: Source, O: Output>(
        &mut self,
        source: &mut S,
        output: &mut O,
        w: &mut Window,
        m: &mut Meter,
    ) -> Result<PieceProgress, PieceFault>
        requires ready { ReadyCutter R.BlockRuns S.Source self.old.runs source.old self.old.limit self.old.made
            self.old.start self.old.stage }
        ensures stepped { Stepped R.BlockRuns S.Source O.Output result self.old.runs self.new.runs self.old.limit
            self.new.limit self.old.start self.new.start self.old.made self.new.made self.old.stage self.new.stage
            source.old source.new output.old output.new m.old m.new }
        ensures end { OnEnd result ((self.old.stage ≡ CutterStage.Done) × (output.new ≡ output.old) ×
            (source.new ≡ source.old) × (self.new ≡ self.old)) }
        ensures after_last { self.old.stage ≡ CutterStage.Done → result ≡ Ok PieceProgress.End }
        ensures again { (f : PieceFault) → self.old.stage ≡ CutterStage.Failed f → (result ≡ Err f) ×
            (output.new ≡ output.old) × (source.new ≡ source.old) × (self.new ≡ self.old) }
    {
        match self.stage {
            CutterStage::Between => self.plan_on(Planner::begin(self.start), source, output, w, m),
            CutterStage::Plan(planner) => self.plan_on(planner, source, output, w, m),
            CutterStage::Begin(outline) => match self.begin(outline, output, m) {
                Ok(()) => Ok(PieceProgress::More),
                Err(fault) => Err(fault),
            },
            CutterStage::Write(outline, writer) => self.write(
                outline, writer, source, output, w, m,
            ),
            CutterStage::Done => {
                m.close_step(0);
                Ok(PieceProgress::End)
            }
            CutterStage::Failed(fault) => {
                m.close_step(0);
                Err(fault)
            }
        }
    }
}

/// A place is before one of the blocks, or after the last.
#[inline(always)]
fn within_count<R: BlockRuns>(_runs: &R, _at: Cursor)
    requires { R.within _runs.now _at }
    ensures { _at.block ≤ R.count _runs.now }
{}
