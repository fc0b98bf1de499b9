//! A sparse image as classified blocks: its chunks one after the other, each read at its place.
ghost use Rattle.std.specs.Prelude.{◌≡◌, ◌<◌, ◌≤◌, ◌+◌, ◌-◌, ◌^◌, ◌↔◌, IsTrue, IfSome, IfNone, Some, length, take};
ghost use Rattle.std.specs.Prelude.{drop, true, false};
ghost use Rattle.abt_sparse.specs.Reading.{counted};
ghost use Rattle.abt_sparse.specs.View.{view};
ghost use Rattle.abt_sparse.specs.declared.chunk_header.ChunkHeader.{ChunkHeader as Heads};
ghost use Rattle.abt_runs.specs.Loads.{Loads};
ghost use Rattle.abt_runs.specs.Head.{chunk_header_of, HeadFits, has_word as wants_word, class_of_kind, part_of_chunk};
ghost use Rattle.abt_runs.specs.Head.{is_raw as raws};
ghost use Rattle.abt_runs.specs.Sparse.{SparseOpened, SparsePlace, SparseWithin, SparseWithin-prop, sparse_list};
ghost use Rattle.abt_runs.specs.Sparse.{sparse_charge, data_place, blocks_together};
ghost use Rattle.abt_runs.specs.SparseLaws.{sparse_long, sparse_are_blocks, sparse_one, sparse_left, sparse_held_grows};
ghost use Rattle.abt_runs.specs.SparseLaws.{sparse_place_afresh, sparse_afresh, sparse_spared, sparse_economy};
ghost use Rattle.abt_runs.specs.SparseLaws.{sparse_padded, sparse_source_long};

use crate::head::{CHUNK_HEADER, head_at};
use crate::reading::load;
use crate::{BlockRuns, Cursor, Run, RunFault, RunKind, SparseRuns};
use abt_io::{Meter, Source, Window};
use abt_sparse::{ChunkHeader, ChunkKind, counted_blocks, data_length};

#[inline(always)]
fn is_raw(kind: ChunkKind) -> bool
    ensures { result ≡ raws kind }
{
    match kind {
        ChunkKind::Raw => true,
        ChunkKind::Fill => false,
        ChunkKind::Skip => false,
        ChunkKind::Crc => false,
    }
}

/// Whether a word is to be read: that of a fill chunk that has blocks.
#[inline(always)]
fn has_word(chunk: &ChunkHeader) -> bool
    ensures { result ≡ wants_word chunk.now.kind chunk.now.blocks }
{
    match chunk.kind {
        ChunkKind::Raw => false,
        ChunkKind::Fill => chunk.blocks != 0,
        ChunkKind::Skip => false,
        ChunkKind::Crc => false,
    }
}

#[inline(always)]
fn class_of(kind: ChunkKind, word: [u8; 4]) -> RunKind
    ensures { result ≡ class_of_kind kind word }
{
    match kind {
        ChunkKind::Raw => RunKind::Raw,
        ChunkKind::Fill => RunKind::Fill(word),
        ChunkKind::Skip => RunKind::Skip,
        ChunkKind::Crc => RunKind::Skip,
    }
}

/// The part of a chunk from a place in it on, of raw blocks at most `cap`.
#[inline(always)]
fn part_of(chunk: &ChunkHeader, word: [u8; 4], from: Cursor, cap: u32) -> Run
    requires order { from.used ≤ from.block }
    requires used { from.used ≤ counted chunk.now.kind chunk.now.blocks }
    requires block { from.block - from.used + counted chunk.now.kind chunk.now.blocks < 2 ^ 32 }
    requires at { from.at + chunk.now.total < 2 ^ 64 }
    requires index { from.chunk + 1 < 2 ^ 32 }
    ensures { result ≡ part_of_chunk chunk.now word from cap }
{
    let counts = counted_blocks(chunk.kind, chunk.blocks);
    let left = counts - from.used;
    let behind = Cursor {
        block: from.block - from.used + counts,
        at: from.at + u64::from(chunk.total),
        chunk: from.chunk + 1,
        used: 0,
        ask: from.ask,
    };
    if left == 0 {
        return Run {
            kind: RunKind::Skip,
            blocks: 0,
            here: behind,
            next: behind,
        };
    }
    if is_raw(chunk.kind) && cap < left {
        return Run {
            kind: RunKind::Raw,
            blocks: cap,
            here: from,
            next: Cursor {
                block: from.block + cap,
                used: from.used + cap,
                ..from
            },
        };
    }
    Run {
        kind: class_of(chunk.kind, word),
        blocks: left,
        here: from,
        next: behind,
    }
}

/// What came of a chunk's word.
#[derive(Clone, Copy, Drop)]
struct Word {
    received: u32,
    fault: Option<RunFault>,
    bytes: [u8; 4],
}

/// Reads the word of a chunk that has one.
#[inline(always)]
fn load_word<S: Source>(
    source: &mut S,
    chunk: &ChunkHeader,
    at: u64,
    w: &mut Window,
    m: &mut Meter,
) -> Word
    requires below { at + 4 < 2 ^ 64 }
    requires there { IsTrue S.models → wants_word chunk.now.kind chunk.now.blocks ≡ true →
        at + 4 ≤ length (S.content source.old) }
    ensures few { result.received ≤ 4 }
    ensures none { wants_word chunk.now.kind chunk.now.blocks ≡ false → result.received ≡ 0 }
    ensures bytes { IsTrue S.models → IfNone result.fault (wants_word chunk.now.kind chunk.now.blocks ≡ true →
        result.bytes ≡ take 4 (drop at (S.content source.old))) }
    ensures loads { Loads result.fault result.received S.Source source.old source.new m.old m.new }
{
    let mut bytes = [0u8; 4];
    if !has_word(chunk) {
        return Word {
            received: 0,
            fault: None,
            bytes,
        };
    }
    let loaded = load(source, at, 4, w, m);
    bytes.copy_from_slice(w.part(0, 4));
    Word {
        received: loaded.received,
        fault: loaded.fault,
        bytes,
    }
}

impl SparseRuns {
    /// Whether a chunk's header is as it was found at opening, as far as its numbers show.
    #[inline(always)]
    fn fits(&self, chunk: &ChunkHeader, from: Cursor) -> bool
        requires used { from.used ≤ from.block }
        requires at { from.at ≤ self.now.image }
        ensures { IsTrue result ↔ HeadFits (view self.now.header) self.now.image from chunk.now }
    {
        let data = data_length(self.header.blk_sz, chunk.kind, chunk.blocks);
        if u64::from(chunk.total) != u64::from(self.header.chunk_hdr_sz) + data {
            return false;
        }
        let counts = counted_blocks(chunk.kind, chunk.blocks);
        if u64::from(self.header.total_blks)
            < u64::from(from.block - from.used) + u64::from(counts)
        {
            return false;
        }
        if self.image - from.at < u64::from(chunk.total) {
            return false;
        }
        from.used == 0 || (is_raw(chunk.kind) && from.used < chunk.blocks)
    }

    /// The chunk that has these bytes as its header, where it is as it was found at opening.
    #[inline(always)]
    fn chunk_here(&self, bytes: &[u8], from: Cursor) -> Option<ChunkHeader>
        requires whole { length bytes.now ≡ 12 }
        requires used { from.used ≤ from.block }
        requires at { from.at ≤ self.now.image }
        ensures fits { IfSome result (λ k. HeadFits (view self.now.header) self.now.image from k) }
        ensures read { IfSome result (λ k. chunk_header_of bytes.now ≡ Some k) }
        ensures found { (k : Heads) → chunk_header_of bytes.now ≡ Some k
            → HeadFits (view self.now.header) self.now.image from k
            → result ≡ Some k }
    {
        match head_at(bytes) {
            Some(chunk) => {
                if self.fits(&chunk, from) {
                    Some(chunk)
                } else {
                    None
                }
            }
            None => None,
        }
    }
}

impl BlockRuns for SparseRuns {
    ghost size = { λ s. s.header.blk_sz };

    ghost count = { λ s. s.header.total_blks };

    ghost image = { λ s. s.image };

    ghost source_size = { λ s. s.length };

    ghost opened = { λ s x. SparseOpened (view s.header) s.length s.image x };

    ghost list = { λ s x. sparse_list x };

    ghost within = { λ s c. SparseWithin (view s.header) s.image c };

    ghost within_alike = { λ s c. SparseWithin-prop (view s.header) s.image c };

    ghost place = { λ s x c. SparsePlace (view s.header) x c };

    ghost left = { λ s c. (s.header.total_blks - c.block) + (s.header.total_chunks - c.chunk) };

    ghost charge = { λ s c. sparse_charge (view s.header) c };

    ghost pass = { λ s. s.image };

    ghost one = { λ s. 0 };

    ghost opening = { λ s. s.image };

    ghost taken = { λ s c. sparse_charge (view s.header) c };

    ghost most_taken = { λ s. s.image };

    ghost padding = { λ s c. 0 };

    ghost reach = { λ s c. s.image - data_place (view s.header) c };

    ghost together = { λ s x c. blocks_together (view s.header) x c };

    ghost copied = { λ s c. sparse_charge (view s.header) c };

    ghost held = { λ s c n. n };

    ghost inside = { λ s. s.fits };

    ghost source_long = { λ s x e. sparse_source_long (view s.header) s.length s.image x e };

    ghost long = { λ s x e. sparse_long (view s.header) s.length s.image x e };

    ghost are_blocks = { λ s x e. sparse_are_blocks (view s.header) s.length s.image x e };

    ghost sized = { λ s. (s.some, s.words) };

    ghost one_fits = { λ s. sparse_one s.header.blk_sz };

    ghost bounded = { λ s c h. h.block };

    ghost left_fits = { λ s c h. sparse_left s.header.total_blks s.header.total_chunks c.block c.chunk s.few_blocks
        s.few_chunks };

    ghost passed = { λ s c h. (h.charge, h.charge) };

    ghost copied_fits = { λ s c h. h.charge };

    ghost held_grows = { λ s c m n. sparse_held_grows m n };

    ghost afresh_within = { λ s c h. sparse_afresh (view s.header) s.image c h };

    ghost afresh_place = { λ s x c h. sparse_place_afresh (view s.header) x c h };

    ghost spared = { λ s. sparse_spared s.header.total_blks s.image };

    ghost economy = { λ s. sparse_economy s.image };

    ghost padded = { λ s c. sparse_padded c.block s.header.total_blks };

    fn block_size(&self) -> u32 {
        self.header.blk_sz
    }

    fn blocks(&self) -> u32 {
        self.header.total_blks
    }

    fn start(&self) -> Cursor {
        Cursor {
            block: 0,
            at: u64::from(self.header.file_hdr_sz),
            chunk: 0,
            used: 0,
            ask: 1,
        }
    }

    #[inline(always)]
    fn next_part<S: Source>(
        &self,
        source: &mut S,
        from: Cursor,
        cap: u32,
        w: &mut Window,
        m: &mut Meter,
    ) -> Result<Run, RunFault> {
        if from.chunk == self.header.total_chunks {
            m.close_step(0);
            if from.block != self.header.total_blks {
                return Err(RunFault::SourceChanged);
            }
            return Ok(Run {
                kind: RunKind::End,
                blocks: 0,
                here: from,
                next: from,
            });
        }
        if source.length() != self.length {
            m.close_step(0);
            return Err(RunFault::SourceChanged);
        }
        if self.image - from.at < CHUNK_HEADER as u64 {
            m.close_step(0);
            return Err(RunFault::SourceChanged);
        }
        let head = load(source, from.at, CHUNK_HEADER, w, m);
        if let Some(fault) = head.fault {
            m.close_step(head.received);
            return Err(fault);
        }
        match self.chunk_here(w.part(0, CHUNK_HEADER), from) {
            Some(chunk) => {
                let at = from.at + u64::from(self.header.chunk_hdr_sz);
                let word = load_word(source, &chunk, at, w, m);
                m.close_step(head.received + word.received);
                match word.fault {
                    Some(fault) => Err(fault),
                    None => Ok(part_of(&chunk, word.bytes, from, cap)),
                }
            }
            None => {
                m.close_step(head.received);
                Err(RunFault::SourceChanged)
            }
        }
    }

    #[inline(always)]
    fn next_raw<S: Source>(
        &self,
        source: &mut S,
        from: Cursor,
        cap: u32,
        w: &mut Window,
        m: &mut Meter,
    ) -> Result<Run, RunFault> {
        self.next_part(source, from, cap, w, m)
    }

    fn copy<S: Source>(
        &self,
        source: &mut S,
        here: Cursor,
        at: u64,
        out: &mut [u8],
        m: &mut Meter,
    ) -> Result<usize, RunFault> {
        let data = here.at
            + u64::from(self.header.chunk_hdr_sz)
            + u64::from(here.used) * u64::from(self.header.blk_sz);
        match source.read_at(data + at, out) {
            Ok(n) => {
                m.close_step(n as u32);
                if n == 0 && !out.is_empty() {
                    return Err(RunFault::SourceChanged);
                }
                Ok(n)
            }
            Err(fault) => {
                m.close_step(0);
                Err(RunFault::Read(fault))
            }
        }
    }
}
