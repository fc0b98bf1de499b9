//! The runs of a piece, each known as a whole before it is written.
ghost use Rattle.std.specs.Prelude.{◌≡◌, ℕ, ◌<◌, ◌≤◌, ◌+◌, ◌-◌, ◌*◌, ◌^◌, IsTrue, IfOk, IfSome, IfNone, min};
ghost use Rattle.std.specs.Prelude.{true, false};
ghost use Rattle.abt_runs.specs.Found.{ReadsImage};
ghost use Rattle.abt_runs.specs.Part.{is_end as ends};
ghost use Rattle.abt_pieces.specs.Gather.{frame, Closed, ClosedRun, SoundGatherer, ToldGatherer, first_gatherer};
ghost use Rattle.abt_pieces.specs.Gather.{gathered_on, look_left, silent_left, gathered_to};
ghost use Rattle.abt_runs.specs.declared.part.Cursor.{Cursor};
ghost use Rattle.abt_pieces.specs.Plan.{last_words};
ghost use Rattle.abt_pieces.specs.Spent.{SpentGathering};
ghost use Rattle.abt_pieces.specs.Calls.{WordCosts};
ghost use Rattle.abt_pieces.specs.Ready.{ReadyPart, ReadyGatherer};
ghost use Rattle.abt_pieces.specs.Framed.{PartFound, PartTold};

use abt_io::{Meter, Source, Window};
use abt_runs::{BlockRuns, Cursor, Run, RunFault, RunKind, are_alike};

/// One part of a piece: of the image from `first` up to `past`, and don't care after it. One step.
#[inline(always)]
pub fn framed_part<R: BlockRuns, S: Source>(
    runs: &R,
    source: &mut S,
    first: u32,
    past: u32,
    at: Cursor,
    w: &mut Window,
    m: &mut Meter,
) -> Result<Run, RunFault>
    requires ready { ReadyPart R.BlockRuns S.Source runs.now source.old first past at }
    ensures source { ReadsImage result S.Source source.old source.new }
    ensures found { IfOk result (λ r. PartFound R.BlockRuns runs.now past at (S.given source.old) (S.given source.new)
        r) }
    ensures told { IsTrue S.models →
        IfOk result (λ r. PartTold R.BlockRuns S.Source runs.now source.old source.new first past at r) }
    ensures costs { WordCosts (last_words (R.one runs.now) (R.count runs.now) (min at.block past)) (R.one runs.now)
        S.Source source.old source.new m.old m.new }
    ensures words { IfOk result (λ r. m.new.turns.number + last_words (R.one runs.now) (R.count runs.now)
        (min at.block past) ≤ m.old.turns.number + 2 * (S.given source.new - S.given source.old) + 2 + last_words
        (R.one runs.now) (R.count runs.now) (min r.next.block past)) }
{
    let count = runs.blocks();
    if at.block < past {
        let cap = past - at.block;
        let run = match runs.next_part(source, at, cap, w, m) {
            Ok(run) => run,
            Err(fault) => return Err(fault),
        };
        if run.blocks < cap {
            return Ok(run);
        }
        return Ok(Run {
            kind: run.kind,
            blocks: cap,
            here: run.here,
            next: Cursor {
                block: past,
                ..run.next
            },
        });
    }
    m.close_step(0);
    let kind = if at.block == count {
        RunKind::End
    } else {
        RunKind::Skip
    };
    Ok(Run {
        kind,
        blocks: count - at.block,
        here: at,
        next: Cursor { block: count, ..at },
    })
}

/// Whether it is the end of the image.
pub(crate) fn is_end(kind: RunKind) -> bool
    ensures { result ≡ ends kind }
{
    match kind {
        RunKind::End => true,
        RunKind::Raw | RunKind::Fill(_) | RunKind::Skip => false,
    }
}

/// A run of a piece that is not yet known whole: blocks of one class, the place of the first of
/// them, and the place after the last. With no blocks it is not begun.
#[derive(Clone, Copy, Debug, PartialEq, Eq, Drop)]
pub struct Gatherer {
    pub kind: RunKind,
    pub count: u32,
    pub from: Cursor,
    pub at: Cursor,
}

impl Gatherer {
    /// At the first block of a piece whose segment begins here: the blocks before it are skipped.
    pub fn begin(start: Cursor) -> Gatherer
        ensures { result ≡ first_gatherer start }
    {
        Gatherer {
            kind: RunKind::Skip,
            count: start.block,
            from: start,
            at: start,
        }
    }

    /// Whether the piece has no run more.
    pub fn is_done(&self) -> bool
        ensures { result ≡ ends self.now.kind }
    {
        is_end(self.kind)
    }

    /// With a part more, and the run that has ended before it, if one has.
    #[inline(always)]
    fn and_part(self, part: Run) -> (Gatherer, Option<Run>)
        requires count { self.count + part.blocks < 2 ^ 32 }
        ensures { result ≡ gathered_on self part }
    {
        if part.blocks == 0 && !is_end(part.kind) {
            return (
                Gatherer {
                    at: part.next,
                    ..self
                },
                None,
            );
        }
        let next = Gatherer {
            kind: part.kind,
            count: part.blocks,
            from: part.here,
            at: part.next,
        };
        if self.count == 0 {
            return (next, None);
        }
        if are_alike(self.kind, part.kind) {
            return (
                Gatherer {
                    count: self.count + part.blocks,
                    at: part.next,
                    ..self
                },
                None,
            );
        }
        let run = Run {
            kind: self.kind,
            blocks: self.count,
            here: self.from,
            next: self.at,
        };
        (next, Some(run))
    }

    /// One part more of the piece. A run that has ended is given back whole, and the next begun.
    /// One step.
    #[inline(always)]
    pub fn gather<R: BlockRuns, S: Source>(
        &mut self,
        runs: &R,
        source: &mut S,
        first: u32,
        past: u32,
        w: &mut Window,
        m: &mut Meter,
    ) -> Result<Option<Run>, RunFault>
        requires ready { ReadyGatherer R.BlockRuns S.Source runs.now source.old first past self.old }
        ensures source { ReadsImage result S.Source source.old source.new }
        ensures sound { SoundGatherer (R.within runs.now) (R.count runs.now) first past self.new }
        ensures told { IsTrue S.models → ToldGatherer (R.place runs.now (S.content source.old))
            (R.list runs.now (S.content source.old)) first past self.new }
        ensures grows { IfOk
            result (λ o. IfNone o (self.new.at.block + self.old.count ≡ self.old.at.block + self.new.count)) }
        ensures run { IfOk result (λ o. IfSome o (λ r. ClosedRun self.old self.new r)) }
        ensures closed { IsTrue S.models →
            IfOk
            result (λ o. IfSome o (λ r. Closed (frame (R.list runs.now (S.content source.old)) first past) self.old
            self.new r)) }
        ensures left { ends self.old.kind ≡ false →
            IfOk result (λ o. look_left (R.left runs.now) (R.count runs.now) past self.new < look_left (R.left runs.now)
            (R.count runs.now) past self.old) }
        ensures paid { ends self.old.kind ≡ false →
            IfOk result (λ o. silent_left (R.count runs.now) past self.new < silent_left (R.count runs.now) past
            self.old + (S.given source.new - S.given source.old)) }
        ensures gathered { IsTrue S.models → (d : Cursor) → R.within runs.now d →
            R.place runs.now (S.content source.old) d → d.block ≡ past → d.ask ≡ 1 →
            IfOk result (λ o. S.given source.new + gathered_to (R.charge runs.now) past d self.old.at
            ≤ S.given source.old + gathered_to (R.charge runs.now) past d self.new.at) }
        ensures spends { IsTrue S.models → (d : Cursor) → R.within runs.now d
            → R.place runs.now (S.content source.old) d
            → d.block ≡ past → d.ask ≡ 1 → (s : ℕ) → SpentGathering (R.charge runs.now) (R.copied runs.now) first past d
            s self.old →
            IfOk result (λ o. SpentGathering (R.charge runs.now) (R.copied runs.now) first past d s self.new) }
        ensures costs { WordCosts (last_words (R.one runs.now) (R.count runs.now) (min self.old.at.block past))
            (R.one runs.now) S.Source source.old source.new m.old m.new }
        ensures words { IfOk result (λ o. m.new.turns.number + last_words (R.one runs.now) (R.count runs.now)
            (min self.old.at.block past)
            ≤ m.old.turns.number + 2 * (S.given source.new - S.given source.old) + 2 + last_words (R.one runs.now)
            (R.count runs.now) (min self.new.at.block past)) }
    {
        let part = match framed_part(runs, source, first, past, self.at, w, m) {
            Ok(part) => part,
            Err(fault) => return Err(fault),
        };
        let (next, run) = self.and_part(part);
        *self = next;
        Ok(run)
    }
}
