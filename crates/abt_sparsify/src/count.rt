//! Counts the runs of a raw image in one pass. The header of a sparse image needs these numbers first.
ghost use Rattle.std.specs.Prelude.{◌≡◌, ◌<◌, ◌≤◌, ◌+◌, ◌*◌, ◌^◌, IsTrue, IfOk, length};
ghost use Rattle.abt_runs.specs.Tail.{raw_list};
ghost use Rattle.abt_pieces.specs.Calls.{ReadsCut};
ghost use Rattle.abt_pieces.specs.Write.{chunks_in};
ghost use Rattle.abt_sparsify.specs.Sparsify.{with_run, no_runs, CountsOf, CountCosts};

use abt_io::{Meter, Source, Window};
use abt_pieces::{Gatherer, PieceFault, copied_len, head_len, run_fault};
use abt_runs::{BlockRuns, Run, RunKind, TailRuns};

/// What a sparse image holds.
#[derive(Clone, Copy, Debug, PartialEq, Eq, Drop)]
pub struct Written {
    /// How many blocks it has.
    pub blocks: u32,
    /// How many chunks it has.
    pub chunks: u32,
    /// How long it is, in bytes, with its header of 28.
    pub bytes: u64,
}

/// In how many chunks a run is written, a raw one cut every `most` blocks.
fn chunks_of_run(kind: RunKind, blocks: u32, most: u32) -> u32
    requires some { 0 < most }
    ensures { result ≡ chunks_in kind blocks most }
{
    match kind {
        RunKind::Raw => ((blocks as u64 + (most as u64 - 1)) / most as u64) as u32,
        RunKind::Fill(_) | RunKind::Skip | RunKind::End => 1,
    }
}

impl Written {
    /// An image of so many blocks, of which none is counted yet.
    fn begin(blocks: u32) -> Written
        ensures { result ≡ no_runs blocks }
    {
        Written {
            blocks,
            chunks: 0,
            bytes: 28,
        }
    }

    /// With the chunks of a run more.
    fn and_run(self, run: Run, size: u32, most: u32) -> Written
        requires some { 0 < most }
        requires chunks { self.chunks + chunks_in run.kind run.blocks most < 2 ^ 32 }
        requires bytes { (with_run self run size most).bytes < 2 ^ 64 }
        ensures { result ≡ with_run self run size most }
    {
        let chunks = chunks_of_run(run.kind, run.blocks, most);
        let copied = copied_len(run.kind, run.blocks, size);
        Written {
            blocks: self.blocks,
            chunks: self.chunks + chunks,
            bytes: self.bytes + (chunks as u64 * head_len(run.kind) + copied),
        }
    }
}

/// Counts what the sparse image of a raw one will hold, its raw runs cut every `most` blocks.
#[tactic(auto, using(crate::proofs::SparseSteps::granted))]
pub fn count_runs<S: Source>(
    runs: &TailRuns,
    source: &mut S,
    most: u32,
    w: &mut Window,
    m: &mut Meter,
) -> Result<Written, PieceFault>
    requires some { 0 < most }
    requires opened { IsTrue S.models → runs.now.raw.length ≡ length (S.content source.old) }
    ensures source { ReadsCut result S.Source source.old source.new }
    ensures blocks { IfOk result (λ a. a.blocks ≡ runs.now.raw.blocks) }
    ensures counts { IsTrue S.models →
        IfOk result (λ a. CountsOf most runs.now.raw.size
        (raw_list runs.now.is_tail_raw runs.now.raw.size (S.content source.old)) a) }
    ensures bounded { IfOk result (λ a. (28 ≤ a.bytes)
        × (a.bytes ≤ 28 + runs.now.raw.blocks * (runs.now.raw.size + 16))) }
    ensures economy { IsTrue S.models →
        IfOk result (λ a. S.given source.new ≤ S.given source.old + 2 * runs.now.raw.length) }
    ensures costs { CountCosts runs.now.raw.size S.Source source.old source.new m.old m.new }
{
    let size = runs.block_size();
    let count = runs.blocks();
    let mut counted = Written::begin(count);
    let mut gatherer = Gatherer::begin(runs.start());
    while !gatherer.is_done() {
        m.tick();
        let ended = match gatherer.gather(runs, source, 0, count, w, m) {
            Ok(ended) => ended,
            Err(fault) => return Err(run_fault(fault)),
        };
        match ended {
            Some(run) => counted = counted.and_run(run, size, most),
            None => {}
        }
    }
    Ok(counted)
}
