//! Finds how far a piece goes.
ghost use Rattle.std.specs.Prelude.{◌≡◌, ◌<◌, ◌≤◌, ◌+◌, ◌-◌, ◌*◌, ℕ, List, length, IsTrue, IfOk, false, true};
ghost use Rattle.abt_sparse.specs.Block.{Block};
ghost use Rattle.abt_pieces.specs.Contents.{contents_before};
ghost use Rattle.abt_pieces.specs.Plan.{Planned, Even, PlanEnds, FirstPiece, last_words};
ghost use Rattle.abt_runs.specs.Found.{ReadsImage, PartCosts};
ghost use Rattle.abt_pieces.specs.Calls.{PlanCosts};
ghost use Rattle.abt_pieces.specs.Ready.{ReadyPlanner};
ghost use Rattle.abt_pieces.specs.PlanStep.{PlanGoes, PlanRests, Charged};
ghost use Rattle.abt_pieces.specs.Cutter.{SoundPlanner, ToldPlanner};

use crate::contents::PieceContents;
use crate::segment_tail::{Tail, added, last, raw_cap};
use abt_io::{Meter, Source, Window};
use abt_runs::{BlockRuns, Cursor, RunFault, RunKind};

/// Plans a piece: the place that it has come to, and what it weighs up to there.
#[derive(Clone, Copy, Drop)]
pub struct Planner {
    pub first: u32,
    pub at: Cursor,
    pub tail: Tail,
    pub weight: u64,
    pub contents: PieceContents,
}

impl Planner {
    /// A piece that begins here.
    pub fn begin(from: Cursor) -> Planner
        ensures first { result.first ≡ from.block }
        ensures at { result.at ≡ from }
        ensures tail { result.tail ≡ Tail.Fresh }
        ensures weight { result.weight ≡ 52 }
        ensures contents { result.contents ≡ contents_before from.block }
        ensures even { Even result }
        ensures planned { (b : ℕ) (l : List Block) → from.block ≤ length l → Planned b l result }
    {
        Planner {
            first: from.block,
            at: from,
            tail: Tail::Fresh,
            weight: 52,
            contents: PieceContents::begin(from.block),
        }
    }

    /// One part more. True where the piece goes no further.
    #[inline(always)]
    pub fn step<R: BlockRuns, S: Source>(
        &mut self,
        runs: &R,
        source: &mut S,
        limit: u32,
        w: &mut Window,
        m: &mut Meter,
    ) -> Result<bool, RunFault>
        requires ready { ReadyPlanner R.BlockRuns S.Source runs.now source.old limit self.old }
        ensures source { ReadsImage result S.Source source.old source.new }
        ensures sound { SoundPlanner (R.within runs.now) limit self.old.first self.new }
        ensures told { IsTrue S.models → ToldPlanner (R.place runs.now (S.content source.old)) (R.size runs.now)
            (R.list runs.now (S.content source.old)) self.new }
        ensures goes_on { IfOk result (λ d. d ≡ false → PlanGoes R.BlockRuns runs.now limit (S.given source.old)
            (S.given source.new) self.old self.new) }
        ensures rests { IfOk result (λ d. d ≡ true → PlanRests R.BlockRuns runs.now (S.given source.old)
            (S.given source.new) self.old self.new) }
        ensures ends { IsTrue S.models →
            IfOk result (λ d. IsTrue d → PlanEnds (R.size runs.now) (R.list runs.now (S.content source.old)) limit
            self.new) }
        ensures onward { IfOk result (λ d. R.copied runs.now self.old.at ≤ R.copied runs.now self.new.at) }
        ensures stuck { 0 < self.old.at.used → self.old.tail ≡ Tail.Raw → limit - self.old.weight < R.size runs.now →
            IfOk result (λ d. d ≡ true) }
        ensures costs { PartCosts (R.padding runs.now self.old.at) (S.reads source.old) (S.given source.old)
            (S.reads source.new) (S.given source.new) m.old m.new }
    {
        let size = runs.block_size();
        let room = limit as u64 - self.weight;
        let cap = raw_cap(&self.tail, room, size);
        let run = match runs.next_part(source, self.at, cap, w, m) {
            Ok(run) => run,
            Err(fault) => return Err(fault),
        };
        if let RunKind::End = run.kind {
            self.at.ask = 1;
            return Ok(true);
        }
        if run.blocks == 0 {
            self.at = run.next;
            return Ok(false);
        }
        let (gain, tail) = added(&self.tail, run.kind, run.blocks, size);
        if gain > room {
            self.at.ask = 1;
            return Ok(true);
        }
        let last = last(&self.tail, self.at.block);
        self.contents = self.contents.with(last, run.kind, run.blocks, size);
        self.at = run.next;
        self.tail = tail;
        self.weight += gain;
        Ok(false)
    }
}

/// Plans the piece that begins at a place.
pub fn plan_piece<R: BlockRuns, S: Source>(
    runs: &R,
    source: &mut S,
    from: Cursor,
    limit: u32,
    w: &mut Window,
    m: &mut Meter,
) -> Result<Planner, RunFault>
    requires within { R.within runs.now from }
    requires told { IsTrue S.models → R.opened runs.now (S.content source.old) ×
        R.place runs.now (S.content source.old) from }
    requires limit { 64 + R.size runs.now ≤ limit }
    ensures source { ReadsImage result S.Source source.old source.new }
    ensures sound { IfOk result (λ p. SoundPlanner (R.within runs.now) limit from.block p) }
    ensures told { IsTrue S.models → IfOk result (λ p. ToldPlanner (R.place runs.now (S.content source.old))
        (R.size runs.now) (R.list runs.now (S.content source.old)) p) }
    ensures greatest { IsTrue S.models →
        IfOk result (λ p. FirstPiece (R.size runs.now) (R.list runs.now (S.content source.old)) limit from.block
        p.at.block) }
    ensures ends { IsTrue S.models →
        IfOk result (λ p. PlanEnds (R.size runs.now) (R.list runs.now (S.content source.old)) limit p) }
    ensures charges { IfOk result (λ p. Charged (R.charge runs.now) (R.one runs.now) (R.count runs.now) from p.at
        p.at.block (S.given source.old) (S.given source.new)) }
    ensures fresh { IfOk result (λ p. p.at.ask ≡ 1) }
    ensures takes { IfOk result (λ p. p.contents.bytes + R.taken runs.now from ≤ R.taken runs.now p.at + 56) }
    ensures costs { PlanCosts (R.one runs.now) (S.reads source.old) (S.given source.old) (S.reads source.new)
        (S.given source.new) m.old m.new }
    ensures words { IfOk result (λ p. m.new.turns.number + last_words (R.one runs.now) (R.count runs.now) from.block
        ≤ m.old.turns.number + 5 * (S.given source.new - S.given source.old) + 2 + last_words (R.one runs.now)
        (R.count runs.now) p.at.block + last_words (R.one runs.now) (R.count runs.now) (p.at.block + 1)) }
{
    let mut planner = Planner::begin(from);
    while !planner.step(runs, source, limit, w, m)? {
        m.tick();
    }
    Ok(planner)
}
