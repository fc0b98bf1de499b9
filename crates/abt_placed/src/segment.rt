//! The segment of a piece that is written in one pass. It takes blocks as long as they fit within the limit.
ghost use Rattle.std.specs.Prelude.{◌≡◌, ℕ, ◌<◌, ◌≤◌, ◌+◌, ◌-◌, ◌*◌, ◌/◌, ◌%◌, ◌^◌, ◌++◌, IfOk, OnOk, OnErr};
ghost use Rattle.std.specs.Prelude.{List, [], length, take, drop, replicate, true, false};
ghost use Rattle.abt_io.specs.Count.{full_of};
ghost use Rattle.abt_sparse.specs.Block.{Block};
ghost use Rattle.abt_runs.specs.Part.{AllOf};
ghost use Rattle.abt_sparse.specs.Runs.{framed};
ghost use Rattle.abt_pieces.specs.Plan.{cap_of, gain_of};
ghost use Rattle.abt_placed.specs.Placer.{room_of};
ghost use Rattle.abt_placed.specs.Placed.{classes};
ghost use Rattle.abt_placed.specs.Whole.{taken, read_of, spare};
ghost use Rattle.abt_placed.specs.Segment.{CanGoOn, SoundSegment, LaidSegment, EndedSegment, OneMoreExceeds};
ghost use Rattle.abt_placed.specs.Segment.{IsUncut};
ghost use Rattle.abt_placed.specs.Segment.{tail_of_open};
ghost use Rattle.abt_placed.specs.Piece.{LaidPiece};
ghost use Rattle.abt_placed.specs.Calls.{Writes, stand, scene};
ghost use Rattle.abt_placed.specs.Unfinished.{IsUnfinished};
ghost use Rattle.abt_placed.specs.Segment.{IsWordSize, PartBlocks, ReadySegment, SegmentGoes, PartOver, SegmentLays};

use crate::placer::Placer;
use abt_io::{DeviceFault, Meter, Overwrite, Source, WINDOW, Window};
use abt_pieces::{PieceFault, Tail, added, raw_cap, run_fault};
use abt_runs::{RawRuns, RunKind, leading, load_filled};

/// The segment of a piece that is being written, and what it weighs.
#[derive(Clone, Copy, Drop)]
pub struct Segment {
    /// Writes the piece.
    pub placer: Placer,
    /// The first block.
    pub first: u32,
    /// What all of it weighs.
    pub weight: u64,
    /// How many bytes the piece has at most: `u64::MAX` where that is no limit, and an image is whole.
    pub limit: u64,
}

/// How many blocks a raw chunk may have where no piece within the limit has to cut one.
pub(crate) fn most_raw(limit: u32, size: u32) -> u32
    requires some { 4 ≤ size }
    requires limit { 64 + size ≤ limit }
    ensures some { 0 < result }
    ensures small { 12 + result * size < 2 ^ 32 }
    ensures uncut { IsUncut size limit result }
{
    (limit - 12) / size
}

/// How many blocks a window has room for.
fn in_window(size: u32) -> u32
    requires some { 4 ≤ size }
    requires window { size ≤ 65536 }
    ensures some { 0 < result }
    ensures fits { result * size ≤ 65536 }
{
    WINDOW as u32 / size
}

/// How many of n blocks are looked at together: all are classed, or none is.
fn of_one_way(n: u32, classed: u32) -> u32
    requires more { 0 < n }
    ensures some { 0 < result }
    ensures few { result ≤ n }
    ensures within { 0 < classed → result ≤ classed }
{
    match classed {
        0 => n,
        _ => n.min(classed),
    }
}

impl Segment {
    /// Before its first block, where the place of the piece's header is kept.
    pub(crate) fn begin(front: u64, first: u32, most: u32, limit: u64) -> Segment
        ensures first { result.first ≡ first }
        ensures most { result.placer.most ≡ most }
        ensures limit { result.limit ≡ limit }
        ensures front { result.placer.front ≡ front }
        ensures taken { taken result.placer ≡ first }
        ensures sound { (size long : ℕ) → 0 < most → 12 + most * size < 2 ^ 32 → 64 + size ≤ limit →
            long ≡ front + 28 → SoundSegment size long result }
        ensures laid { (size : ℕ) (old now : List ℕ) → front ≡ length old → now ≡ old ++ replicate 28 0 →
            LaidSegment size [] now result }
    {
        let kind = match first {
            0 => RunKind::End,
            _ => RunKind::Skip,
        };
        Segment {
            placer: Placer {
                front,
                most,
                chunks: 0,
                blocks: 0,
                kind,
                count: first,
            },
            first,
            weight: 52,
            limit,
        }
    }

    /// What it ends in.
    fn tail(&self) -> Tail
        ensures { result ≡ tail_of_open self.now.placer.kind }
    {
        match self.placer.kind {
            RunKind::Raw => Tail::Raw,
            RunKind::Fill(word) => Tail::Fill(word),
            RunKind::Skip | RunKind::End => Tail::Fresh,
        }
    }

    /// What blocks of one class would add to its weight.
    fn gain(&self, kind: RunKind, blocks: u32, size: u32) -> u64
        ensures { result ≡ gain_of (tail_of_open self.now.placer.kind) kind blocks size }
    {
        let (gain, _) = added(&self.tail(), kind, blocks, size);
        gain
    }

    /// How many raw blocks may be taken next, but at least one.
    fn cap(&self, size: u32) -> u32
        requires some { 4 ≤ size }
        requires room { self.now.weight ≤ self.now.limit }
        requires most { 0 < self.now.placer.most }
        requires small { 12 + self.now.placer.most * size < 2 ^ 32 }
        ensures some { 0 < result }
        ensures cap { result ≤ cap_of (tail_of_open self.now.placer.kind) (self.now.limit - self.now.weight) size }
        ensures room { result ≤ room_of self.now.placer }
    {
        let room = self.limit - self.weight;
        let most = self.placer.room();
        // No raw chunk is longer than that.
        if room > u32::MAX as u64 {
            return most;
        }
        raw_cap(&self.tail(), room, size).min(most)
    }

    /// Takes blocks of one class, whose bytes these are, where they fit. True where they don't: then
    /// the segment ends before them.
    fn take_part<O: Overwrite>(
        &mut self,
        kind: RunKind,
        blocks: u32,
        bytes: &[u8],
        size: u32,
        output: &mut O,
        m: &mut Meter,
    ) -> Result<bool, DeviceFault>
        requires part { PartBlocks kind blocks size bytes.now }
        requires room { blocks ≤ room_of self.old.placer }
        requires cap { blocks ≤ cap_of (tail_of_open self.old.placer.kind) (self.old.limit - self.old.weight) size }
        requires can { CanGoOn size blocks (length (O.written output.old)) self.old }
        ensures segment { SegmentGoes size (taken self.old.placer + blocks) (full_of result) result self.old self.new
            (O.written output.old) (O.written output.new) }
        ensures laid { (g : List Block) (p : ℕ) → AllOf kind (classes size p blocks bytes.now) →
            LaidSegment size g (O.written output.old) self.old →
            IfOk result (λ d. d ≡ false → LaidSegment size (g ++ classes size p blocks bytes.now)
            (O.written output.new) self.new) }
        ensures passed { IfOk result (λ d. d ≡ false → taken self.new.placer ≡ taken self.old.placer + blocks) }
        ensures over { IfOk result (λ d. d ≡ true → PartOver size blocks kind self.old
            ((self.new ≡ self.old) × (output.new ≡ output.old))) }
        ensures writes { Writes result 14 14 (stand O.Output output.old m.old) (stand O.Output output.new m.new) }
    {
        let gain = self.gain(kind, blocks, size);
        if gain > self.limit - self.weight {
            return Ok(true);
        }
        match self.placer.take(kind, blocks, bytes, size, output, m) {
            Ok(()) => {}
            Err(fault) => return Err(fault),
        }
        self.weight += gain;
        Ok(false)
    }

    /// Takes the first blocks of the window, as many as fit: the first of them by class, so many, and
    /// the others raw. True where not all do: then the segment ends here.
    pub(crate) fn take_fitting<O: Overwrite>(
        &mut self,
        blocks: u32,
        classed: u32,
        size: u32,
        output: &mut O,
        w: &Window,
        m: &mut Meter,
    ) -> Result<bool, DeviceFault>
        requires size { IsWordSize size }
        requires window { blocks * size ≤ 65536 }
        requires can { CanGoOn size blocks (length (O.written output.old)) self.old }
        ensures segment { SegmentGoes size (taken self.old.placer + blocks) (full_of result) result self.old self.new
            (O.written output.old) (O.written output.new) }
        ensures laid { (g : List Block) → LaidSegment size g (O.written output.old) self.old →
            OnOk result (LaidSegment size
            (g ++ classes size classed (taken self.new.placer - taken self.old.placer) w.now.bytes)
            (O.written output.new) self.new) }
        ensures order { OnOk result (taken self.old.placer ≤ taken self.new.placer) }
        ensures all { IfOk result (λ d. d ≡ false → taken self.new.placer ≡ taken self.old.placer + blocks) }
        ensures short { IfOk result (λ d. d ≡ true → taken self.new.placer < taken self.old.placer + blocks) }
        ensures some { IfOk result (λ d. d ≡ true → self.old.first < taken self.new.placer) }
        ensures over { (g : List Block) → LaidSegment size g (O.written output.old) self.old →
            IfOk result (λ d. d ≡ true → OneMoreExceeds self.old.limit size
            (g ++ classes size classed (taken self.new.placer - taken self.old.placer) w.now.bytes)
            (drop (taken self.new.placer - taken self.old.placer) (classes size classed blocks w.now.bytes))) }
        ensures reached { IfOk result (λ d. d ≡ true → self.old.limit
            < 52 + (taken self.old.placer + blocks) * (size + 16)) }
        // So much for each block that is looked at, also for one that is filled up with zeros.
        ensures writes { Writes result (14 * blocks) (blocks * (size / 2 + 17)) (stand O.Output output.old m.old)
            (stand O.Output output.new m.new) }
    {
        let mut done = 0u32;
        while done < blocks {
            m.tick();
            let whole = classed.saturating_sub(done);
            let most = self.cap(size).min(blocks - done);
            let cap = of_one_way(most, whole);
            let from = done as usize * size as usize;
            let to = from + cap as usize * size as usize;
            let (kind, n) = leading(w.part(from, to), size as usize, cap, whole > 0, m);
            let past = from + n as usize * size as usize;
            match self.take_part(kind, n, w.part(from, past), size, output, m) {
                Ok(ended) => {
                    if ended {
                        return Ok(true);
                    }
                }
                Err(fault) => return Err(fault),
            }
            done += n;
        }
        Ok(false)
    }

    /// One step: the next window of the source. True where the segment goes no further.
    fn step<S: Source, O: Overwrite>(
        &mut self,
        runs: &RawRuns,
        is_tail_raw: bool,
        source: &mut S,
        output: &mut O,
        w: &mut Window,
        m: &mut Meter,
    ) -> Result<bool, PieceFault>
        requires ready { ReadySegment S.models is_tail_raw (S.content source.old) runs.now self.old
            (O.written output.old) }
        ensures lays { SegmentLays result S.models is_tail_raw runs.now self.old self.new (O.written output.old)
            (O.written output.new) (scene S.Source O.Output source.old output.old m.old)
            (scene S.Source O.Output source.new output.new m.new) }
        ensures ended { IfOk result (λ d. d ≡ true → EndedSegment S.models is_tail_raw (S.content source.old)
            runs.now.size runs.now.blocks self.new) }
        ensures on { IfOk result (λ d. d ≡ false → taken self.old.placer < taken self.new.placer) }
        ensures once { IfOk result (λ d. d ≡ false → S.given source.new + read_of runs.now.length runs.now.size
            (taken self.old.placer) ≡ S.given source.old + read_of runs.now.length runs.now.size
            (taken self.new.placer)) }
        ensures going_calls { IfOk result (λ d. d ≡ false → S.reads source.new + O.writes output.new + length
            (O.written output.old) + spare 14 runs.now.length runs.now.size (taken self.old.placer)
            ≤ S.reads source.old + O.writes output.old + length (O.written output.new) + 6
            * (S.given source.new - S.given source.old) + spare 14 runs.now.length runs.now.size
            (taken self.new.placer)) }
        ensures calls { S.reads source.new + O.writes output.new + length (O.written output.old)
            + spare 14 runs.now.length runs.now.size (taken self.old.placer)
            ≤ S.reads source.old + O.writes output.old + length (O.written output.new) + 6
            * (S.given source.new - S.given source.old) + 14 }
        ensures going_turns { IfOk result (λ d. d ≡ false → m.new.turns.number + 1 + length (O.written output.old)
            + spare (runs.now.size + 14) runs.now.length runs.now.size (taken self.old.placer)
            ≤ m.old.turns.number + length (O.written output.new) + 7 * (S.given source.new - S.given source.old)
            + spare (runs.now.size + 14) runs.now.length runs.now.size (taken self.new.placer)) }
        ensures turns { m.new.turns.number + length (O.written output.old)
            + spare (runs.now.size + 14) runs.now.length runs.now.size (taken self.old.placer)
            ≤ m.old.turns.number + length (O.written output.new) + 7 * (S.given source.new - S.given source.old)
            + runs.now.size + 14 }
    {
        let from = self.placer.blocks + self.placer.count;
        if from == runs.blocks {
            m.close_step(0);
            return Ok(true);
        }
        if source.length() != runs.length {
            m.close_step(0);
            return Err(PieceFault::SourceChanged);
        }
        let asked = in_window(runs.size).min(runs.blocks - from);
        let at = runs.place_of(from);
        let room = asked as usize * runs.size as usize;
        let want = (runs.length - at).min(room as u64) as usize;
        let loaded = load_filled(source, at, want, room, w, m);
        m.close_step(loaded.received);
        if let Some(fault) = loaded.fault {
            return Err(run_fault(fault));
        }
        let classed = runs.classed(is_tail_raw).saturating_sub(from);
        match self.take_fitting(asked, classed, runs.size, output, w, m) {
            Ok(ended) => Ok(ended),
            Err(fault) => Err(PieceFault::Write(fault)),
        }
    }

    /// Takes blocks of the source up to where the segment goes no further.
    pub(crate) fn take_source<S: Source, O: Overwrite>(
        &mut self,
        runs: &RawRuns,
        is_tail_raw: bool,
        source: &mut S,
        output: &mut O,
        w: &mut Window,
        m: &mut Meter,
    ) -> Result<(), PieceFault>
        requires ready { ReadySegment S.models is_tail_raw (S.content source.old) runs.now self.old
            (O.written output.old) }
        ensures lays { SegmentLays result S.models is_tail_raw runs.now self.old self.new (O.written output.old)
            (O.written output.new) (scene S.Source O.Output source.old output.old m.old)
            (scene S.Source O.Output source.new output.new m.new) }
        ensures ended { OnOk result (EndedSegment S.models is_tail_raw (S.content source.old) runs.now.size
            runs.now.blocks self.new) }
        ensures calls { S.reads source.new + O.writes output.new + length (O.written output.old)
            ≤ S.reads source.old + O.writes output.old + length (O.written output.new) + 6
            * (S.given source.new - S.given source.old) + 14 }
        ensures turns { m.new.turns.number + length (O.written output.old)
            ≤ m.old.turns.number + length (O.written output.new) + 7 * (S.given source.new - S.given source.old)
            + runs.now.size + 14 }
    {
        loop {
            match self.step(runs, is_tail_raw, source, output, w, m) {
                Ok(ended) => {
                    if ended {
                        return Ok(());
                    }
                }
                Err(fault) => return Err(fault),
            }
            m.tick();
        }
    }

    /// Writes what is skipped after the segment, and the headers that are left, the image's magic
    /// number last.
    pub(crate) fn end<O: Overwrite>(
        &mut self,
        blocks: u32,
        size: u32,
        output: &mut O,
        m: &mut Meter,
    ) -> Result<(), DeviceFault>
        requires size { IsWordSize size }
        requires within { taken self.old.placer ≤ blocks }
        requires sound { SoundSegment size (length (O.written output.old)) self.old }
        requires zeros { take 28 (drop self.old.placer.front (O.written output.old)) ≡ replicate 28 0 }
        ensures laid { (g : List Block) → LaidSegment size g (O.written output.old) self.old →
            OnOk result (LaidPiece size blocks self.old.placer.most self.new.placer.chunks
            (framed self.old.first g (blocks - taken self.old.placer))
            (take self.old.placer.front (O.written output.old)) (O.written output.new)) }
        ensures before { take self.old.placer.front (O.written output.new)
            ≡ take self.old.placer.front (O.written output.old) }
        ensures unfinished { OnErr result (IsUnfinished (drop self.old.placer.front (O.written output.new))) }
        ensures writes { Writes result 53 53 (stand O.Output output.old m.old) (stand O.Output output.new m.new) }
        ensures within { length (O.written output.new) ≤ self.old.placer.front + 28 + blocks * (size + 16) }
        ensures long { IsUncut size self.old.limit self.old.placer.most → length (O.written output.new) + full_of result
            ≤ self.old.placer.front + self.old.weight }
    {
        let behind = blocks - (self.placer.blocks + self.placer.count);
        match self.placer.skip(behind, size, output, m) {
            Ok(()) => {}
            Err(fault) => return Err(fault),
        }
        self.placer.finish(size, output, m)
    }
}
