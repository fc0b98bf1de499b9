//! Opens a sparse image.
ghost use Rattle.std.specs.Prelude.{◌≡◌, ◌≤◌, ◌+◌, ◌-◌, ◌*◌, ℕ, List, IsTrue, IfOk, IfErr, max, true};
ghost use Rattle.abt_io.specs.Lent.{OnlyReads};
ghost use Rattle.abt_sparse.specs.Reading.{outcome};
ghost use Rattle.abt_sparse.specs.View.{view};
ghost use Rattle.abt_runs.specs.Stage.{is_opening_done};
ghost use Rattle.abt_runs.specs.Verdict.{ComesTo, CausedAt, Refuses, ends};
ghost use Rattle.abt_runs.specs.Sparse.{SparseOpened};

use crate::{OpeningProgress, OpeningStage, RunFault, SparseOpening, SparseRuns};
use abt_io::{Meter, Source, Window};

impl SparseOpening {
    /// The image that was opened.
    pub fn into_runs(self) -> SparseRuns
        requires { is_opening_done self.stage ≡ true }
        ensures image { result.image ≡ self.at }
        ensures opened { (x : List ℕ) → ComesTo self x (ends (outcome x)) →
            SparseOpened (view result.header) result.length result.image x }
    {
        SparseRuns {
            header: self.header,
            length: self.length,
            image: self.at,
        }
    }
}

impl SparseRuns {
    /// Opens the sparse image at the beginning of a source: goes through all its chunk headers.
    ///
    /// It refuses as `SparseOpening::opening_step` does.
    pub fn open<S: Source>(
        source: &mut S,
        w: &mut Window,
        m: &mut Meter,
    ) -> Result<SparseRuns, RunFault>
        ensures opened { IsTrue S.models →
            IfOk result (λ r. SparseOpened (view r.header) r.length r.image (S.content source.old)) }
        ensures refused { IsTrue S.models → IfErr result (λ e. Refuses e (outcome (S.content source.old))) }
        ensures reads { OnlyReads result S.Source source.old source.new }
        ensures charged { IfOk result (λ r. S.given source.new ≤ S.given source.old + r.image) }
        ensures given { S.given source.old ≤ S.given source.new }
        ensures received { S.given source.new + 28 * m.old.steps.number ≤ S.given source.old + 28 * m.new.steps.number }
        ensures calls { S.reads source.new ≤ S.reads source.old + 2 * (S.given source.new - S.given source.old) + 1 }
        ensures turns { m.new.turns.number ≤ m.old.turns.number + 2 * (S.given source.new - S.given source.old) + 2 }
        ensures greatest { m.new.greatest.number ≤ max m.old.greatest.number 28 }
        ensures cause { IfErr result (λ e. CausedAt OpeningStage.Header e (S.read_faults source.old)
            (S.read_faults source.new)
            (IsTrue S.models)) }
    {
        let mut opening = SparseOpening::begin();
        'steps: loop {
            m.tick();
            match opening.opening_step(source, w, m) {
                Ok(OpeningProgress::More) => {}
                Ok(OpeningProgress::Done) => return Ok(opening.into_runs()),
                Err(fault) => return Err(fault),
            }
        }
    }
}
