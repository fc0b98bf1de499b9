//! A raw image as classified blocks. A block whose words are all equal is fill; every other block is raw.
ghost use Rattle.std.specs.Prelude.{◌≡◌, ◌<◌, ◌≤◌, ◌+◌, ◌-◌, ◌*◌, ◌/◌, ◌%◌, ◌^◌, ◌++◌, IsTrue, false, IfOk, IfErr};
ghost use Rattle.std.specs.Prelude.{IfNone, length, take, drop, map, replicate, slice_range};
ghost use Rattle.abt_sparse.specs.Block.{split, class_of, classify, filled_to};
ghost use Rattle.abt_io.specs.Lent.{NoStep};
ghost use Rattle.abt_runs.specs.Part.{AllOf, is_end, next_ask};
ghost use Rattle.abt_runs.specs.Found.{Asked, CopiesBytes, ReadsImage};
ghost use Rattle.abt_runs.specs.Loads.{AsksBytes, LoadsWanted};
ghost use Rattle.abt_runs.specs.Tail.{AsksRawPart, FindsRawPart, classed_count};
ghost use Rattle.abt_runs.specs.Words.{kind_of_word};
ghost use Rattle.abt_runs.specs.Raw.{RawPlace, RawPlace-prop, raw_charge, raw_padding, raw_before, raw_held};
ghost use Rattle.abt_runs.specs.Raw.{RefusedRaw};
ghost use Rattle.abt_runs.specs.RawLaws.{raw_left, raw_long, raw_are_blocks, own_size, raw_passed, raw_copied_fits};
ghost use Rattle.abt_runs.specs.RawLaws.{raw_held_grows, raw_place_afresh, raw_afresh, raw_spared, raw_economy};
ghost use Rattle.abt_runs.specs.RawLaws.{raw_padded, raw_inside};

use crate::reading::{Loaded, load};
use crate::{BlockRuns, Cursor, Run, RunFault, RunKind, equal_word};
use abt_io::{Meter, Source, Window};

/// How many of the zeros after the last byte one call of `copy` gives at most.
const MOST_ZEROS: usize = 64;

/// Ticks once for each of so many words.
fn tick_words(words: usize, m: &mut Meter)
    ensures turns { m.new.turns.number ≡ m.old.turns.number + words }
    ensures no_step { NoStep m.old m.new }
{
    for _ in 0..words {
        m.tick();
    }
}

fn same_class(first: &Option<[u8; 4]>, other: &Option<[u8; 4]>) -> bool
    ensures { IsTrue result → first.now ≡ other.now }
{
    match (first, other) {
        (None, None) => true,
        (Some(v), Some(w)) => v.as_slice() == w.as_slice(),
        _ => false,
    }
}

fn kind_of(word: &Option<[u8; 4]>) -> RunKind
    ensures { result ≡ kind_of_word word.now }
{
    match word {
        Some(word) => RunKind::Fill(*word),
        None => RunKind::Raw,
    }
}

/// What the first of these n blocks are, and how many of them are alike: all are raw where they are not classed.
pub fn leading(
    blocks: &[u8],
    size: usize,
    n: u32,
    is_classed: bool,
    m: &mut Meter,
) -> (RunKind, u32)
    requires some { 4 ≤ size }
    requires words { size % 4 ≡ 0 }
    requires first { 0 < n }
    requires window { length blocks.now ≤ 65536 }
    requires whole { length blocks.now ≡ n * size }
    ensures some { 0 < result.1 }
    ensures within { result.1 ≤ n }
    ensures goes { is_end result.0 ≡ false }
    ensures all { IsTrue is_classed → AllOf result.0 (map class_of (split size result.1 blocks.now)) }
    ensures raw { is_classed ≡ false → result.0 ≡ RunKind.Raw }
    ensures turns { 2 * m.new.turns.number + size / 2 ≤ 2 * m.old.turns.number + length blocks.now }
    ensures looked { 4 * m.new.turns.number ≤ 4 * m.old.turns.number + (result.1 + 1) * (size + 4) }
    ensures no_step { NoStep m.old m.new }
{
    if !is_classed {
        return (RunKind::Raw, n);
    }
    let word = equal_word(&blocks[..size]);
    tick_words(size / 4, m);
    let kind = kind_of(&word);
    let mut count = 1u32;
    let mut at = size;
    while count < n {
        m.tick();
        tick_words(size / 4, m);
        if !same_class(&word, &equal_word(&blocks[at..at + size])) {
            break;
        }
        count += 1;
        at += size;
    }
    (kind, count)
}

/// Reads so many bytes to the beginning of the window, and fills it up with zeros as far as `room`.
pub fn load_filled<S: Source>(
    source: &mut S,
    at: u64,
    want: usize,
    room: usize,
    w: &mut Window,
    m: &mut Meter,
) -> Loaded
    requires order { want ≤ room }
    requires window { room ≤ 65536 }
    requires asks { AsksBytes S.models (S.content source.old) at want }
    ensures wanted { LoadsWanted result.fault result.received want S.Source source.old source.new m.old m.new }
    ensures bytes { IsTrue S.models →
        IfNone result.fault (slice_range w.new.bytes 0 room ≡ take want (drop at (S.content source.old)) ++ replicate
        (room - want) 0) }
{
    let loaded = load(source, at, want, w, m);
    w.is_whole();
    w.part_mut(want, room).fill(0);
    loaded
}

/// A raw image, filled up with zeros to a whole block.
#[derive(Drop)]
pub struct RawRuns {
    pub length: u64,
    pub size: u32,
    pub blocks: u32,
    pub ghost some: { 4 ≤ size },
    pub ghost window: { size ≤ 65536 },
    pub ghost words: { size % 4 ≡ 0 },
    pub ghost covers: { length ≤ blocks * size },
    pub ghost last: { blocks * size < length + size },
    pub ghost fits: { blocks < 2 ^ 32 },
}

impl RawRuns {
    /// The raw image that is all of the source, in blocks of this size.
    pub fn open<S: Source>(source: &S, size: u32) -> Result<RawRuns, RunFault>
        ensures size { IfOk result (λ r. (r.size ≡ size) × (r.length ≡ S.size source.now)) }
        ensures opened { IsTrue S.models → IfOk result (λ r. r.length ≡ length (S.content source.now)) }
        ensures refused { IfErr result (λ e. RefusedRaw e size (S.size source.now)) }
    {
        if size < 4 || size > 65_536 || size % 4 != 0 {
            return Err(RunFault::BadBlock(size));
        }
        let length = source.length();
        let whole = length / size as u64;
        let blocks = if length % size as u64 == 0 {
            whole
        } else {
            whole + 1
        };
        if blocks > u32::MAX as u64 {
            return Err(RunFault::TooLarge);
        }
        Ok(RawRuns {
            length,
            size,
            blocks: blocks as u32,
        })
    }

    /// Where a block is.
    pub fn place_of(&self, block: u32) -> u64
        requires { block < self.now.blocks }
        ensures place { result ≡ block * self.now.size }
        ensures within { result < self.now.length }
    {
        block as u64 * self.size as u64
    }

    /// How many blocks are classed, by their words; those behind them are raw.
    #[tactic(auto, using(crate::proofs::Tailed::few_whole))]
    pub fn classed(&self, is_tail_raw: bool) -> u32
        ensures is { result ≡ classed_count is_tail_raw self.now.size self.now.length self.now.blocks }
        ensures within { result ≤ self.now.blocks }
    {
        if is_tail_raw {
            (self.length / self.size as u64) as u32
        } else {
            self.blocks
        }
    }

    /// How many blocks are asked for at this place, where so many are classed: all of them, or none.
    fn asked(&self, from: Cursor, cap: u32, classed: u32) -> u32
        requires some { 0 < cap }
        requires there { from.block < self.now.blocks }
        requires ask { 0 < from.ask }
        requires classed { classed ≤ self.now.blocks }
        ensures some { 0 < result }
        ensures capped { result ≤ cap }
        ensures within { from.block + result ≤ self.now.blocks }
        ensures ask { result ≤ from.ask }
        ensures classed { from.block < classed → from.block + result ≤ classed }
    {
        let past = if from.block < classed {
            classed
        } else {
            self.blocks
        };
        from.ask.min(cap).min(past - from.block)
    }

    /// The place after so many blocks, of those that were asked for.
    fn after(&self, from: Cursor, asked: u32, blocks: u32) -> Cursor
        requires some { 0 < blocks }
        requires asked { blocks ≤ asked }
        requires within { from.block + asked ≤ self.now.blocks }
        requires ask { asked ≤ from.ask }
        requires window { from.ask * self.now.size ≤ 65536 }
        ensures block { result.block ≡ from.block + blocks }
        ensures used { result.used ≡ from.used }
        ensures ask { result.ask ≡ next_ask from.ask asked blocks self.now.size }
    {
        let ask = if blocks < asked {
            1
        } else if asked == from.ask && 2 * from.ask * self.size <= 65_536 {
            2 * from.ask
        } else {
            from.ask
        };
        Cursor {
            block: from.block + blocks,
            at: from.at,
            chunk: from.chunk,
            used: from.used,
            ask,
        }
    }

    /// The part that begins at a place, as `next_part` says, where the tail may be raw.
    pub(crate) fn part_from<S: Source>(
        &self,
        is_tail_raw: bool,
        source: &mut S,
        from: Cursor,
        cap: u32,
        w: &mut Window,
        m: &mut Meter,
    ) -> Result<Run, RunFault>
        requires asks { AsksRawPart self.now.length self.now.blocks self.now.size S.models (S.content source.old) from
            cap }
        ensures part { FindsRawPart is_tail_raw self.now.length self.now.blocks self.now.size result S.Source source.old
            source.new from cap m.old m.new }
        ensures asked { IfOk result (λ r. Asked (S.size source.old) self.now.length (S.given source.old)
            (S.given source.new) r) }
        ensures most { S.given source.new ≤ S.given source.old + 16 + cap * self.now.size }
    {
        if from.block == self.blocks {
            m.close_step(0);
            return Ok(Run {
                kind: RunKind::End,
                blocks: 0,
                here: from,
                next: from,
            });
        }
        if source.length() != self.length {
            m.close_step(0);
            return Err(RunFault::SourceChanged);
        }
        let classed = self.classed(is_tail_raw);
        let asked = self.asked(from, cap, classed);
        let at = self.place_of(from.block);
        let room = asked as usize * self.size as usize;
        let want = (self.length - at).min(room as u64) as usize;
        let loaded = load_filled(source, at, want, room, w, m);
        if let Some(fault) = loaded.fault {
            m.close_step(loaded.received);
            return Err(fault);
        }
        let (kind, blocks) = leading(
            w.part(0, room),
            self.size as usize,
            asked,
            from.block < classed,
            m,
        );
        m.close_step(loaded.received);
        Ok(Run {
            kind,
            blocks,
            here: Cursor { ask: 1, ..from },
            next: self.after(from, asked, blocks),
        })
    }

    /// Bytes of the image filled up, as `copy` says.
    pub(crate) fn copy_from<S: Source>(
        &self,
        source: &mut S,
        here: Cursor,
        at: u64,
        out: &mut [u8],
        m: &mut Meter,
    ) -> Result<usize, RunFault>
        requires out { length out.old ≤ 65536 }
        requires place { RawPlace self.now.blocks self.now.size here }
        requires reach { at + length out.old ≤ (self.now.blocks - here.block) * self.now.size }
        requires opened { IsTrue S.models → self.now.length ≡ length (S.content source.old) }
        ensures source { ReadsImage result S.Source source.old source.new }
        ensures bytes { IsTrue S.models → IfOk result (λ n. take n out.new
            ≡ take n (drop (here.block * self.now.size + at) (filled_to (self.now.blocks * self.now.size)
            (S.content source.old)))) }
        ensures copies { CopiesBytes result (λ n. raw_held self.now.length self.now.size here n) at (length out.new)
            (S.reads source.old) (S.given source.old) (S.reads source.new) (S.given source.new) m.old m.new }
    {
        let pos = here.block as u64 * self.size as u64 + at;
        if pos >= self.length {
            let zeros = out.len().min(MOST_ZEROS);
            out[..zeros].fill(0);
            m.close_step(0);
            return Ok(zeros);
        }
        let room = (self.length - pos).min(out.len() as u64) as usize;
        match source.read_at(pos, &mut out[..room]) {
            Ok(n) => {
                m.close_step(n as u32);
                if n == 0 && room > 0 {
                    return Err(RunFault::SourceChanged);
                }
                Ok(n)
            }
            Err(fault) => {
                m.close_step(0);
                Err(RunFault::Read(fault))
            }
        }
    }
}

impl BlockRuns for RawRuns {
    ghost size = { λ s. s.size };

    ghost count = { λ s. s.blocks };

    ghost image = { λ s. s.length };

    ghost source_size = { λ s. s.length };

    ghost opened = { λ s x. s.length ≡ length x };

    ghost list = { λ s x. classify s.size x };

    ghost within = { λ s c. RawPlace s.blocks s.size c };

    ghost within_alike = { λ s c. RawPlace-prop s.blocks s.size c };

    ghost place = { λ s x c. RawPlace s.blocks s.size c };

    ghost left = { λ s c. s.blocks - c.block };

    ghost charge = { λ s c. raw_charge s.length s.blocks s.size c };

    ghost pass = { λ s. 2 * s.length };

    ghost one = { λ s. s.size };

    ghost opening = { λ s. 0 };

    ghost taken = { λ s c. c.block * (s.size + 16) };

    ghost most_taken = { λ s. s.blocks * (s.size + 16) };

    ghost padding = { λ s c. raw_padding s.blocks s.size c };

    ghost reach = { λ s c. (s.blocks - c.block) * s.size };

    ghost together = { λ s x c. s.blocks - c.block };

    ghost copied = { λ s c. raw_before s.length s.size c };

    ghost held = { λ s c n. raw_held s.length s.size c n };

    ghost inside = { λ s. raw_inside s.length };

    ghost source_long = { λ s x e. e };

    ghost long = { λ s x e. raw_long s.length s.blocks s.size x s.some s.covers s.last e };

    ghost are_blocks = { λ s x e. raw_are_blocks s.length s.blocks s.size x s.some s.covers s.last e };

    ghost sized = { λ s. (s.some, s.words) };

    ghost one_fits = { λ s. own_size s.size };

    ghost bounded = { λ s c h. h.within };

    ghost left_fits = { λ s c h. raw_left s.blocks c s.fits };

    ghost passed = { λ s c h. raw_passed s.length s.blocks s.size c s.some s.covers s.last h };

    ghost copied_fits = { λ s c h. raw_copied_fits s.length s.size c };

    ghost held_grows = { λ s c m n. raw_held_grows s.length s.size c m n };

    ghost afresh_within = { λ s c h. raw_afresh s.length s.blocks s.size c h };

    ghost afresh_place = { λ s x c h. raw_place_afresh s.blocks s.size c h };

    ghost spared = { λ s. raw_spared s.length s.blocks s.size s.some s.last };

    ghost economy = { λ s. raw_economy s.length };

    ghost padded = { λ s c. raw_padded s.blocks s.size c };

    fn block_size(&self) -> u32 {
        self.size
    }

    fn blocks(&self) -> u32 {
        self.blocks
    }

    fn start(&self) -> Cursor {
        Cursor {
            block: 0,
            at: 0,
            chunk: 0,
            used: 0,
            ask: 1,
        }
    }

    fn next_part<S: Source>(
        &self,
        source: &mut S,
        from: Cursor,
        cap: u32,
        w: &mut Window,
        m: &mut Meter,
    ) -> Result<Run, RunFault> {
        self.part_from(false, source, from, cap, w, m)
    }

    fn next_raw<S: Source>(
        &self,
        _source: &mut S,
        from: Cursor,
        cap: u32,
        _w: &mut Window,
        m: &mut Meter,
    ) -> Result<Run, RunFault> {
        m.close_step(0);
        Ok(Run {
            kind: RunKind::Raw,
            blocks: cap,
            here: Cursor { ask: 1, ..from },
            next: Cursor {
                block: from.block + cap,
                ask: 1,
                ..from
            },
        })
    }

    fn copy<S: Source>(
        &self,
        source: &mut S,
        here: Cursor,
        at: u64,
        out: &mut [u8],
        m: &mut Meter,
    ) -> Result<usize, RunFault> {
        self.copy_from(source, here, at, out, m)
    }
}
