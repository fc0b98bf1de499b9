//! Writes the chunks of an image: one chunk for each run, several for a long raw run.
ghost use Rattle.std.specs.Prelude.{◌≡◌, ℕ, [], ◌<◌, ◌≤◌, ◌+◌, ◌-◌, ◌*◌, ◌^◌, IsTrue, IfOk, IfErr, OnOk, length, min};
ghost use Rattle.std.specs.Prelude.{true, false};
ghost use Rattle.abt_runs.specs.Part.{is_end as ends};
ghost use Rattle.abt_pieces.specs.Fault.{full_cut};
ghost use Rattle.abt_pieces.specs.Calls.{ReadsCut, WordCosts};
ghost use Rattle.abt_pieces.specs.Contents.{head_len as length_of_head};
ghost use Rattle.abt_pieces.specs.Cutter.{first_writer};
ghost use Rattle.abt_pieces.specs.Write.{front_bytes, chunk_len, ChunkCause, front_begun, run_begun, run_front};
ghost use Rattle.abt_pieces.specs.Write.{run_head, next_blocks, opened_with, chunk_opened, next_copying, copied_on};
ghost use Rattle.abt_pieces.specs.Write.{rest_of, frame_of, ToldWriter, silent_write};
ghost use Rattle.abt_pieces.specs.Image.{MayCome};
ghost use Rattle.abt_runs.specs.declared.part.Cursor.{Cursor};
ghost use Rattle.abt_pieces.specs.Plan.{last_words};
ghost use Rattle.abt_pieces.specs.Spent.{Spent};
ghost use Rattle.abt_io.specs.Lent.{NoStep, OneStep};
ghost use Rattle.abt_pieces.specs.Ready.{ReadyWriter, ReadyCopying};
ghost use Rattle.abt_pieces.specs.WriterStep.{ChunkBegun, RawGoes, WriterStepped};

use crate::PieceFault;
use crate::chunk::write_front;
use crate::contents::{copied_len, head_len};
use crate::fault::run_fault;
use crate::gather::{Gatherer, is_end};
use crate::outline::Outline;
use abt_io::{Meter, Output, Source, WINDOW, Window, write_out};
use abt_runs::{BlockRuns, Cursor, Run, RunKind};

/// A raw run that is being written: chunk by chunk, and its bytes part by part.
#[derive(Clone, Copy, Drop)]
pub struct Copying {
    /// The place of the part that is being copied.
    pub here: Cursor,
    /// The place of the part after it.
    pub next: Cursor,
    /// How many bytes the part has.
    pub size: u64,
    /// How many of these are copied.
    pub done: u64,
    /// How many bytes of the open chunk are still to be copied.
    pub left: u64,
    /// How many blocks of the run are in chunks still to be begun.
    pub after: u32,
}

/// Writes the chunks of one piece, or of a whole image, in steps. It holds numbers alone.
#[derive(Clone, Copy, Drop)]
pub struct Writer {
    /// The first block of the segment.
    pub first: u32,
    /// The block after the segment.
    pub past: u32,
    /// How many blocks a raw chunk has at most.
    pub most: u32,
    /// The run that is being gathered, after what is written.
    pub gatherer: Gatherer,
    /// The raw run that is being copied, if one is.
    pub copying: Option<Copying>,
    /// How many chunks are still to be begun.
    pub chunks: u32,
    /// How many bytes are still to be written.
    pub bytes: u64,
}

impl Copying {
    /// With the part after the one that is copied, if that is raw.
    #[inline(always)]
    fn and_part(self, part: Run, size: u32) -> Option<Copying>
        ensures { result ≡ next_copying self part size }
    {
        if part.blocks == 0 && !is_end(part.kind) {
            return Some(Copying {
                next: part.next,
                ..self
            });
        }
        match part.kind {
            RunKind::Raw => Some(Copying {
                here: part.here,
                next: part.next,
                size: part.blocks as u64 * size as u64,
                done: 0,
                ..self
            }),
            RunKind::Fill(_) | RunKind::Skip | RunKind::End => None,
        }
    }

    /// With the next chunk open, of so many blocks of `size` bytes.
    fn and_chunk(self, blocks: u32, size: u32) -> Copying
        requires { blocks ≤ self.after }
        ensures { result ≡ opened_with self blocks size }
    {
        Copying {
            left: blocks as u64 * size as u64,
            after: self.after - blocks,
            ..self
        }
    }

    /// With so many bytes more copied, if any are left then.
    #[inline(always)]
    fn and_bytes(self, count: u64) -> Option<Copying>
        requires left { count ≤ self.left }
        requires done { self.done + count < 2 ^ 64 }
        ensures { result ≡ copied_on self count }
    {
        if self.after == 0 && self.left == count {
            return None;
        }
        Some(Copying {
            done: self.done + count,
            left: self.left - count,
            ..self
        })
    }
}

impl Writer {
    /// At the first chunk of a planned piece whose segment begins at a place.
    pub fn begin(start: Cursor, outline: &Outline, most: u32) -> Writer
        ensures { result ≡ first_writer start outline.now most }
    {
        Writer {
            first: outline.piece.first,
            past: outline.piece.past,
            most,
            gatherer: Gatherer::begin(start),
            copying: None,
            chunks: outline.chunks,
            bytes: outline.piece.bytes.saturating_sub(28),
        }
    }

    /// Writes what comes before a chunk's blocks, where the counted numbers have room for the chunk. Otherwise the
    /// source has changed since.
    #[inline(always)]
    fn begin_chunk<O: Output>(
        &mut self,
        kind: RunKind,
        blocks: u32,
        size: u32,
        output: &mut O,
        m: &mut Meter,
    ) -> Result<(), PieceFault>
        requires small { chunk_len kind blocks size < 2 ^ 32 }
        ensures ok { OnOk result (self.new ≡ front_begun self.old kind) }
        ensures room { OnOk result ((0 < self.old.chunks) × (chunk_len kind blocks size ≤ self.old.bytes)) }
        ensures put { ChunkBegun result (length_of_head kind) (front_bytes kind blocks (chunk_len kind blocks size))
            O.Output self.old self.new output.old output.new m.old m.new }
        ensures cause { IfErr result (λ e. ChunkCause e self.old.chunks self.old.bytes
            (chunk_len kind blocks size) (O.write_faults output.old) (O.write_faults output.new)) }
        ensures no_step { NoStep m.old m.new }
    {
        let head = head_len(kind);
        let total = head + copied_len(kind, blocks, size);
        if self.chunks == 0 || total > self.bytes {
            return Err(PieceFault::SourceChanged);
        }
        if let Err(fault) = write_front(output, kind, blocks, total as u32, m) {
            return Err(PieceFault::Write(fault));
        }
        self.chunks -= 1;
        self.bytes -= head;
        Ok(())
    }

    /// Begins a run that has ended: writes the chunk of one that is filled or skipped. The chunks of
    /// a raw run have steps of their own.
    #[inline(always)]
    fn begin_run<O: Output>(
        &mut self,
        run: Run,
        size: u32,
        output: &mut O,
        m: &mut Meter,
    ) -> Result<(), PieceFault>
        ensures ok { OnOk result (self.new ≡ run_begun self.old run) }
        ensures room { OnOk result (run_head run.kind ≤ self.old.bytes) }
        ensures some { OnOk result (0 < run_head run.kind → 0 < self.old.chunks) }
        ensures put { ChunkBegun result (run_head run.kind) (run_front run.kind run.blocks) O.Output self.old self.new
            output.old output.new m.old m.new }
        ensures cause { IfErr result (λ e. ChunkCause e self.old.chunks self.old.bytes (length_of_head run.kind)
            (O.write_faults output.old) (O.write_faults output.new)) }
        ensures no_step { NoStep m.old m.new }
    {
        match run.kind {
            RunKind::Raw => {
                self.copying = Some(Copying {
                    here: run.here,
                    next: run.here,
                    size: 0,
                    done: 0,
                    left: 0,
                    after: run.blocks,
                });
                Ok(())
            }
            RunKind::Fill(_) | RunKind::Skip | RunKind::End => {
                self.begin_chunk(run.kind, run.blocks, size, output, m)
            }
        }
    }

    /// Begins the next chunk of the raw run that is being written. One step.
    #[inline(always)]
    fn open_chunk<O: Output>(
        &mut self,
        copying: Copying,
        size: u32,
        output: &mut O,
        m: &mut Meter,
    ) -> Result<(), PieceFault>
        requires small { 12 + self.old.most * size < 2 ^ 32 }
        ensures ok { OnOk result (self.new ≡ chunk_opened self.old copying size) }
        ensures room { OnOk result ((0 < self.old.chunks) ×
            (12 + next_blocks copying self.old.most * size ≤ self.old.bytes)) }
        ensures put { ChunkBegun result 12 (front_bytes RunKind.Raw (next_blocks copying self.old.most)
            (12 + next_blocks copying self.old.most * size)) O.Output self.old self.new output.old output.new m.old
            m.new }
        ensures cause { IfErr result (λ e. ChunkCause e self.old.chunks self.old.bytes
            (12 + next_blocks copying self.old.most * size) (O.write_faults output.old) (O.write_faults output.new)) }
        ensures one_step { OneStep 0 m.old m.new }
    {
        m.close_step(0);
        let blocks = copying.after.min(self.most);
        match self.begin_chunk(RunKind::Raw, blocks, size, output, m) {
            Ok(()) => {}
            Err(fault) => return Err(fault),
        }
        self.copying = Some(copying.and_chunk(blocks, size));
        Ok(())
    }

    /// Looks for the end of the open run, and begins a run that has ended. One step.
    #[tactic(auto, using(crate::proofs::Fronts::run_not_full))]
    #[inline(always)]
    fn look<R: BlockRuns, S: Source, O: Output>(
        &mut self,
        runs: &R,
        source: &mut S,
        output: &mut O,
        w: &mut Window,
        m: &mut Meter,
    ) -> Result<(), PieceFault>
        requires ready { ReadyWriter R.BlockRuns S.Source runs.now source.old self.old }
        requires none { self.old.copying ≡ None }
        requires going { ends self.old.gatherer.kind ≡ false }
        ensures stepped { WriterStepped R.BlockRuns S.Source O.Output result (OnOk result) runs.now self.old
            self.new source.old source.new output.old output.new m.old m.new }
    {
        let size = runs.block_size();
        let mut gatherer = self.gatherer;
        let run = match gatherer.gather(runs, source, self.first, self.past, w, m) {
            Ok(run) => run,
            Err(fault) => return Err(run_fault(fault)),
        };
        self.gatherer = gatherer;
        match run {
            Some(run) => self.begin_run(run, size, output, m),
            None => Ok(()),
        }
    }

    /// Finds the next part of the raw run that is being copied. One step.
    #[tactic(auto, using(crate::proofs::Fronts::run_not_full))]
    #[inline(always)]
    fn next_raw<R: BlockRuns, S: Source>(
        &mut self,
        copying: Copying,
        runs: &R,
        source: &mut S,
        w: &mut Window,
        m: &mut Meter,
    ) -> Result<(), PieceFault>
        requires copies { ReadyCopying R.BlockRuns S.Source runs.now source.old self.old copying }
        requires whole { copying.done ≡ copying.size }
        ensures source { ReadsCut result S.Source source.old source.new }
        ensures told { IsTrue S.models →
            OnOk result (ToldWriter (R.place runs.now (S.content source.old))
            (R.together runs.now (S.content source.old)) (R.list runs.now (S.content source.old)) self.new) }
        ensures segment { (self.new.first ≡ self.old.first) × (self.new.past ≡ self.old.past) ×
            (self.new.most ≡ self.old.most) }
        ensures bytes { self.new.bytes ≡ self.old.bytes }
        ensures rest { IsTrue S.models →
            OnOk result (rest_of (frame_of (R.list runs.now (S.content source.old)) self.old) self.new
            ≡ rest_of (frame_of (R.list runs.now (S.content source.old)) self.old) self.old) }
        ensures goes_on { OnOk result (RawGoes R.BlockRuns runs.now self.old self.new (S.given source.old)
            (S.given source.new) m.old m.new) }
        ensures spends { IsTrue S.models → (d : Cursor) → R.within runs.now d
            → R.place runs.now (S.content source.old) d
            → d.block ≡ self.old.past → d.ask ≡ 1 → (s t : ℕ) →
            Spent (λ c. R.within runs.now c × R.place runs.now (S.content source.old) c) (R.charge runs.now)
            (R.copied runs.now) (R.held runs.now) d s t self.old →
            OnOk result (Spent (λ c. R.within runs.now c × R.place runs.now (S.content source.old) c)
            (R.charge runs.now) (R.copied runs.now) (R.held runs.now) d s
            (t + (S.given source.new - S.given source.old)) self.new) }
        ensures costs { WordCosts (last_words (R.one runs.now) (R.count runs.now)
            (min copying.next.block self.old.past)) (R.one runs.now) S.Source source.old source.new m.old m.new }
        ensures unwritten { full_cut result ≡ 0 }
    {
        let until = self.gatherer.at.block - self.gatherer.count;
        let size = runs.block_size();
        let part = match runs.next_raw(source, copying.next, until - copying.next.block, w, m) {
            Ok(part) => part,
            Err(fault) => return Err(run_fault(fault)),
        };
        match copying.and_part(part, size) {
            Some(next) => {
                self.copying = Some(next);
                Ok(())
            }
            None => Err(PieceFault::SourceChanged),
        }
    }

    /// Copies bytes of the raw run, up to a window. One step.
    #[tactic(auto, using(crate::proofs::Fronts::run_not_full))]
    #[inline(always)]
    fn copy_bytes<R: BlockRuns, S: Source, O: Output>(
        &mut self,
        copying: Copying,
        runs: &R,
        source: &mut S,
        output: &mut O,
        w: &mut Window,
        m: &mut Meter,
    ) -> Result<(), PieceFault>
        requires copies { ReadyCopying R.BlockRuns S.Source runs.now source.old self.old copying }
        requires more { copying.done < copying.size }
        ensures stepped { WriterStepped R.BlockRuns S.Source O.Output result (OnOk result) runs.now self.old
            self.new source.old source.new output.old output.new m.old m.new }
        ensures paid { OnOk result (silent_write (R.count runs.now) self.new < silent_write (R.count runs.now)
            self.old + (length (O.written output.new) - length (O.written output.old))) }
    {
        let part = copying.size - copying.done;
        let ask = part.min(copying.left).min(WINDOW as u64) as usize;
        w.is_whole();
        let count = match runs.copy(source, copying.here, copying.done, w.part_mut(0, ask), m) {
            Ok(count) => count,
            Err(fault) => return Err(run_fault(fault)),
        };
        if let Err(fault) = write_out(output, w.part(0, count), m) {
            return Err(PieceFault::Write(fault));
        }
        self.copying = copying.and_bytes(count as u64);
        self.bytes -= count as u64;
        Ok(())
    }

    /// Whether all that was counted is written. Else the source has changed since.
    fn end(&self) -> Result<bool, PieceFault>
        ensures whole { IfOk result (λ d. (d ≡ true) × (self.now.bytes ≡ 0) × (self.now.chunks ≡ 0)) }
        ensures refused { IfErr result (λ e. (e ≡ PieceFault.SourceChanged) ×
            ((self.now.bytes ≡ 0) × (self.now.chunks ≡ 0) → ⊥)) }
    {
        if self.chunks == 0 && self.bytes == 0 {
            return Ok(true);
        }
        Err(PieceFault::SourceChanged)
    }

    /// One step: True where all is written.
    #[inline(always)]
    pub fn step<R: BlockRuns, S: Source, O: Output>(
        &mut self,
        runs: &R,
        source: &mut S,
        output: &mut O,
        w: &mut Window,
        m: &mut Meter,
    ) -> Result<bool, PieceFault>
        requires ready { ReadyWriter R.BlockRuns S.Source runs.now source.old self.old }
        ensures stepped { WriterStepped R.BlockRuns S.Source O.Output result (λ p. IfOk result (λ d. d ≡ false → p))
            runs.now self.old self.new source.old source.new output.old output.new m.old m.new }
        ensures all { IfOk result (λ d. d ≡ true → MayCome (R.size runs.now) (R.count runs.now) self.old []) }
        ensures ended { IfOk result (λ d. d ≡ true → (self.old.bytes ≡ 0) ×
            (O.written output.new ≡ O.written output.old)) }
        ensures spent { IsTrue S.models → (d : Cursor) → R.within runs.now d → R.place runs.now (S.content source.old) d
            → d.block ≡ self.old.past → d.ask ≡ 1 → (s t : ℕ) →
            Spent (λ c. R.within runs.now c × R.place runs.now (S.content source.old) c) (R.charge runs.now)
            (R.copied runs.now) (R.held runs.now) d s t self.old →
            IfOk result (λ done. done ≡ true → t + (S.given source.new - S.given source.old)
            ≤ 2 * R.charge runs.now d + R.copied runs.now d + 32) }
    {
        match self.copying {
            Some(copying) => {
                if copying.left == 0 {
                    let size = runs.block_size();
                    return match self.open_chunk(copying, size, output, m) {
                        Ok(()) => Ok(false),
                        Err(fault) => Err(fault),
                    };
                }
                if copying.done == copying.size {
                    return match self.next_raw(copying, runs, source, w, m) {
                        Ok(()) => Ok(false),
                        Err(fault) => Err(fault),
                    };
                }
                match self.copy_bytes(copying, runs, source, output, w, m) {
                    Ok(()) => Ok(false),
                    Err(fault) => Err(fault),
                }
            }
            None => {
                if self.gatherer.is_done() {
                    m.close_step(0);
                    return self.end();
                }
                match self.look(runs, source, output, w, m) {
                    Ok(()) => Ok(false),
                    Err(fault) => Err(fault),
                }
            }
        }
    }
}
