//! The trait of opened images: what is known of an image, and how it is read in repeated passes.
ghost use Rattle.std.specs.Prelude.{◌≡◌, ◌<◌, ◌≤◌, ◌+◌, ◌-◌, ◌*◌, ◌%◌, ◌^◌, ℕ, List, IsTrue, IfOk, length, take, drop};
ghost use Rattle.abt_io.specs.Count.{count_of};
ghost use Rattle.abt_sparse.specs.Block.{Block, AreBlocks};
ghost use Rattle.abt_runs.specs.declared.part.Cursor.{Cursor};
ghost use Rattle.abt_runs.specs.Part.{AllOf, Afresh, afresh, raw_of};
ghost use Rattle.abt_runs.specs.Found.{AsksPart, FindsPart, ReadsImage, Asked, CopyCosts, FoundRun, ToldRun, RunCosts};

use crate::whole::{joined, none_yet, room};
use crate::{Cursor, Run, RunFault, RunKind};
use abt_io::{Meter, Source, Window};

/// An opened image: its blocks in order, each raw, filled with a word or don't care. Each call borrows the source,
/// and no byte of it is kept. So what is known of the image takes the source's content as an argument.
pub trait BlockRuns {
    /// How many bytes a block has.
    ghost size: { Self → ℕ };

    /// How many blocks there are.
    ghost count: { Self → ℕ };

    /// How many bytes of the source the image takes.
    ghost image: { Self → ℕ };

    /// How long the source was when it was opened, in bytes.
    ghost source_size: { Self → ℕ };

    /// It was opened over these bytes.
    ghost opened: { Self → List ℕ → Type 0 };

    /// The blocks of the image that these bytes are.
    ghost list: { Self → List ℕ → List Block };

    /// Whether the numbers of a place are within what was found at opening.
    ghost within: { Self → Cursor → Type 0 };

    /// That they are has one proof at most.
    ghost within_alike: { (s : Self) (c : Cursor) → IsProp (within s c) };

    /// Whether a place is one of the image that these bytes are.
    ghost place: { Self → List ℕ → Cursor → Type 0 };

    /// How much there is to pass from a place on.
    ghost left: { Self → Cursor → ℕ };

    /// How many bytes a pass may have read before a place.
    ghost charge: { Self → Cursor → ℕ };

    /// How many bytes a whole pass may read.
    ghost pass: { Self → ℕ };

    /// How many bytes of the source are read to find one block's class.
    ghost one: { Self → ℕ };

    /// How many bytes of the source were read to open it.
    ghost opening: { Self → ℕ };

    /// How many bytes the blocks before a place may take in pieces, but for what each piece adds.
    ghost taken: { Self → Cursor → ℕ };

    /// How many bytes all blocks may take so.
    ghost most_taken: { Self → ℕ };

    /// How many words are compared at a place that were not read: of the zeros that fill up a last block.
    ghost padding: { Self → Cursor → ℕ };

    /// How many bytes of raw blocks there can be from a place on without a header between.
    ghost reach: { Self → Cursor → ℕ };

    /// How many adjacent blocks there are from that place on.
    ghost together: { Self → List ℕ → Cursor → ℕ };

    /// How many bytes copying the raw blocks before a place may have read.
    ghost copied: { Self → Cursor → ℕ };

    /// How many of the first bytes of the raw blocks at a place are in the source: the zeros that
    /// fill up a raw image's last block are not.
    ghost held: { Self → Cursor → ℕ → ℕ };

    /// How many bytes a block has.
    fn block_size(&self) -> u32
        ensures { result ≡ size self.now };

    /// How many blocks there are.
    fn blocks(&self) -> u32
        ensures { result ≡ count self.now };

    /// The place of the first block.
    fn start(&self) -> Cursor
        ensures first { result.block ≡ 0 }
        ensures unused { result.used ≡ 0 }
        ensures fresh { result.ask ≡ 1 }
        ensures within { within self.now result }
        ensures place { (x : List ℕ) → opened self.now x → place self.now x result };

    /// One step's worth of blocks of one class from a place on, at most `cap` of them where they
    /// are raw. It need not be maximal, and may hold no block where the place moves on; the end
    /// alone is `RunKind::End`, and alone reads nothing. The call is one step: it ends with
    /// `close_step` of what was read.
    ///
    /// It refuses with `Read` where the source has failed, and with `SourceChanged` where the
    /// source is no longer the one that was opened.
    fn next_part<S: Source>(
        &self,
        source: &mut S,
        from: Cursor,
        cap: u32,
        w: &mut Window,
        m: &mut Meter,
    ) -> Result<Run, RunFault>
        requires asks { AsksPart (within self.now) (opened self.now) (place self.now) S.models (S.content source.old)
            from cap }
        ensures part { FindsPart (within self.now) (size self.now) (count self.now) (left self.now) (charge self.now)
            (reach self.now) (taken self.now) (copied self.now) (padding self.now) (held self.now) (list self.now)
            (place self.now) (together self.now) result S.Source source.old source.new from cap m.old m.new }
        ensures asked { IfOk result (λ r. Asked (S.size source.old) (source_size self.now) (S.given source.old)
            (S.given source.new) r) }
        ensures most { S.given source.new ≤ S.given source.old + 16 + cap * one self.now };

    /// The next part of a run that is known to be raw, of the `cap` blocks from a place on. It is
    /// that of `next_part`, or all of them without a read, where the blocks' places need no header.
    /// One step.
    ///
    /// It refuses as `next_part` does.
    fn next_raw<S: Source>(
        &self,
        source: &mut S,
        from: Cursor,
        cap: u32,
        w: &mut Window,
        m: &mut Meter,
    ) -> Result<Run, RunFault>
        requires asks { AsksPart (within self.now) (opened self.now) (place self.now) S.models (S.content source.old)
            from cap }
        requires inside { from.block + cap ≤ count self.now }
        requires raw { IsTrue S.models →
            AllOf RunKind.Raw (take cap (drop from.block (list self.now (S.content source.old)))) }
        ensures part { FindsPart (within self.now) (size self.now) (count self.now) (left self.now) (charge self.now)
            (reach self.now) (taken self.now) (copied self.now) (padding self.now) (held self.now) (list self.now)
            (place self.now) (together self.now) result S.Source source.old source.new from cap m.old m.new }
        ensures fetched { IfOk result (λ r. S.given source.new ≡ S.given source.old → r.blocks ≡ cap) };

    /// Reads bytes of the adjacent raw blocks at a place, from byte `at` of these on, by at most one read. It returns
    /// how many came to the beginning of `out`, 0 only where `out` is empty. The call is one step: it ends with
    /// `close_step` of what was read. Bytes that no read gives, the zeros that fill up a raw image's last block, come
    /// at most 80 at a time.
    ///
    /// It refuses as `next_part` does.
    fn copy<S: Source>(
        &self,
        source: &mut S,
        here: Cursor,
        at: u64,
        out: &mut [u8],
        m: &mut Meter,
    ) -> Result<usize, RunFault>
        requires window { length out.old ≤ 65536 }
        requires within { within self.now here }
        requires room { at + length out.old ≤ reach self.now here }
        requires told { IsTrue S.models → opened self.now (S.content source.old) ×
            place self.now (S.content source.old) here }
        ensures source { ReadsImage result S.Source source.old source.new }
        ensures within { count_of result ≤ length out.new }
        ensures some { IfOk result (λ n. 0 < length out.new → 0 < n) }
        ensures bytes { IsTrue S.models → IfOk result (λ n. (q : ℕ)
            → q ≤ together self.now (S.content source.old) here →
            AllOf RunKind.Raw (take q (drop here.block (list self.now (S.content source.old)))) →
            at + n ≤ q * size self.now →
            take n out.new
            ≡ take n (drop at (raw_of (take q (drop here.block (list self.now (S.content source.old))))))) }
        ensures few { IfOk result (λ n. n ≤ 80 + (S.given source.new - S.given source.old)) }
        ensures costs { CopyCosts (held self.now here) at (count_of result) (S.reads source.old) (S.given source.old)
            (S.reads source.new) (S.given source.new) m.old m.new };

    /// The run of blocks of one class that begins at a place: all adjacent ones, but at most `cap` of them where they
    /// are raw. It is `RunKind::End` exactly where no block is left, whatever the source gives. Each turn is one
    /// step, that of `next_part`.
    ///
    /// It refuses as `next_part` does.
    final fn next_run<S: Source>(
        &self,
        source: &mut S,
        from: Cursor,
        cap: u32,
        w: &mut Window,
        m: &mut Meter,
    ) -> Result<Run, RunFault>
        requires asks { AsksPart (within self.now) (opened self.now) (place self.now) S.models (S.content source.old)
            from cap }
        ensures source { ReadsImage result S.Source source.old source.new }
        ensures told { IsTrue S.models → IfOk result (λ r. ToldRun (list self.now (S.content source.old))
            (place self.now (S.content source.old)) (together self.now (S.content source.old)) from cap r) }
        ensures found { IfOk result (λ r. FoundRun (within self.now) (size self.now) (count self.now) (one self.now)
            (charge self.now) (reach self.now) from cap (S.given source.old) (S.given source.new) r) }
        ensures costs { RunCosts (one self.now) (S.reads source.old) (S.given source.old) (S.reads source.new)
            (S.given source.new) m.old m.new }
    {
        let mut run = none_yet(from);
        'parts: loop {
            m.tick();
            let room = room(&run, cap);
            if room == 0 {
                return Ok(run);
            }
            let part = match self.next_part(source, run.next, room, w, m) {
                Ok(part) => part,
                Err(fault) => return Err(fault),
            };
            match joined(run, part) {
                Some(longer) => run = longer,
                None => return Ok(run),
            }
        }
    }

    /// The image is no longer than its source was when it was opened.
    ghost inside: { (s : Self) → image s ≤ source_size s };

    /// The source was as long as these bytes are.
    ghost source_long: { (s : Self) (x : List ℕ) → opened s x → source_size s ≡ length x };

    /// There are as many blocks as were counted.
    ghost long: { (s : Self) (x : List ℕ) → opened s x → length (list s x) ≡ count s };

    /// Each block has the image's size.
    ghost are_blocks: { (s : Self) (x : List ℕ) → opened s x → AreBlocks (size s) (list s x) };

    /// A block is of whole words, and is not empty.
    ghost sized: { (s : Self) → (4 ≤ size s) × (size s % 4 ≡ 0) };

    /// Finding one block's class reads no more than the block.
    ghost one_fits: { (s : Self) → one s ≤ size s };

    /// A place is before one of the blocks, or after the last.
    ghost bounded: { (s : Self) (c : Cursor) → within s c → c.block ≤ count s };

    /// What there is to pass fits a number of 64 bits.
    ghost left_fits: { (s : Self) (c : Cursor) → within s c → left s c < 2 ^ 64 };

    /// A pass reads no more than a whole one, and what is taken is no more than by all blocks.
    ghost passed: { (s : Self) (c : Cursor) → within s c → (charge s c ≤ pass s) × (taken s c ≤ most_taken s) };

    /// Copying reads no more than the image.
    ghost copied_fits: { (s : Self) (c : Cursor) → within s c → copied s c ≤ image s };

    /// Of more bytes no fewer are in the source, and never more than there are.
    ghost held_grows: { (s : Self) (c : Cursor) (m n : ℕ) → m ≤ n → (held s c m ≤ held s c n) × (held s c n ≤ n) };

    /// A place is one, too, where one block is asked for: no less has been read before it then, and no more is to pass.
    ghost afresh_within: { (s : Self) (c : Cursor) → within s c → Afresh (within s) (charge s) (taken s) (copied s)
        (left s) c };

    /// So it is in the image that these bytes are.
    ghost afresh_place: { (s : Self) (x : List ℕ) (c : Cursor) → place s x c → place s x (afresh c) };

    /// All blocks but one are within the image, of which so much is read to find their classes.
    ghost spared: { (s : Self) → (count s - 1) * one s ≤ image s };

    /// The opening, three passes and two times the image's bytes are at most eight times the image.
    ghost economy: { (s : Self) → opening s + 3 * pass s + 2 * image s ≤ 8 * image s };

    /// The words of one block alone are compared without being read, and those of the last alone.
    ghost padded: { (s : Self) (c : Cursor) → (4 * padding s c ≤ one s) × (0 < padding s c → c.block + 1 ≡ count s) };
}
