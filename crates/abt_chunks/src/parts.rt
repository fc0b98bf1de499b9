//! One step of a walk: the bytes of its turn are gathered in the window, and taken as a part of the image.
//!
//! Each function that takes a turn has the same clauses. `told`: whatever bytes follow, what lay ahead is what the
//! part gives, and then what lies ahead after it. The same holds of what a listing shows. Too few bytes are a fault.
//! `turn`: what every turn leaves, and whose fault a failure is. `words`: how much is given of a fill or of a gap.

ghost use Rattle.std.specs.Prelude.{◌≡◌, ◌≤◌, ◌<◌, ◌-◌, ℕ, List, [], length, false};
ghost use Rattle.abt_sparse.specs.Reading.{kind_at, number_at};
ghost use Rattle.abt_chunks.specs.Feeding.{TakesWhole};
ghost use Rattle.abt_chunks.specs.Parts.{Caused, IsRawPart, goes_on};
ghost use Rattle.abt_chunks.specs.Stepping.{GivesPart, StepTaken};
ghost use Rattle.abt_chunks.specs.Taking.{GivesWords, OwnTurn, ReadsHead, TakesHead, TurnTaken, TurnTells, WithinWords};
ghost use Rattle.abt_chunks.specs.Turns.{AtTurn, IsWalkOver, ask_of, needed_of};

use crate::kinds::{has_word, laid_words, raw_bytes};
use crate::walk::{Part, Phase, Turn, Walk, WalkStep};
use abt_io::{Input, Meter, WINDOW, Window, read_full};
use abt_sparse::{ChunkKind, SparseFault, counted_blocks, data_length, header_of, u16_at, u32_at};

/// The fault of a chunk whose type the format doesn't know. It comes before every other fault of a chunk, whatever
/// length its header states.
fn unknown_type(chunk: u32, got: &[u8]) -> SparseFault
    requires { length got.now ≡ 12 }
    ensures { result ≡ SparseFault.ChunkType chunk (number_at 0 2 got.now) }
{
    let kind = u16_at(got, 0);
    SparseFault::ChunkType { chunk, kind }
}

impl Walk {
    /// The header of the image, 28 bytes and its five checks.
    fn take_header(&mut self, got: &[u8]) -> Part
        requires here { AtTurn Turn.Header self.old }
        requires asked { length got.now ≤ 28 }
        ensures head { TakesHead result self.old self.new got.now 28 }
    {
        if got.len() < 28 {
            return self.fail(SparseFault::Truncated {
                at: got.len() as u64,
            });
        }
        match header_of(got) {
            Ok(header) => {
                *self = Walk {
                    phase: Phase::Body,
                    header,
                    kind: ChunkKind::Skip,
                    blocks: 0,
                    due: false,
                    word: [0; 4],
                    index: 0,
                    have: 0,
                    extra: u32::from(header.file_hdr_sz) - 28,
                    raw: 0,
                    words: 0,
                    position: 28,
                };
                Part::Nothing
            }
            Err(fault) => self.fail(fault),
        }
    }

    /// Bytes of a header after the part of it that this version knows. They are passed over.
    #[inline(always)]
    pub(crate) fn take_extra(&mut self, got: &[u8]) -> Part
        requires here { AtTurn Turn.Extra self.old }
        requires asked { length got.now ≤ self.old.extra }
        ensures head { TakesHead result self.old self.new got.now 1 }
    {
        if got.is_empty() {
            return self.fail(SparseFault::Truncated { at: self.position });
        }
        self.extra -= got.len() as u32;
        self.position += got.len() as u64;
        Part::Nothing
    }

    /// So many raw bytes, which are blocks as they are, whatever bytes they are. Those that came before the input ended
    /// count.
    #[inline(always)]
    pub(crate) fn take_raw(&mut self, n: usize) -> Part
        requires here { AtTurn Turn.Raw self.old }
        requires asked { n ≤ self.old.raw }
        ensures raw { IsRawPart result n }
        ensures told { (c : List ℕ) → length c ≡ n → TurnTells result self.old self.new c 1 }
        ensures turn { OwnTurn result self.old self.new n }
    {
        if n == 0 {
            return self.fail(SparseFault::Truncated { at: self.position });
        }
        self.raw -= n as u64;
        self.position += n as u64;
        Part::Raw(n)
    }

    /// The word of a fill, or the value of a checksum.
    #[inline(always)]
    fn take_word(&mut self, got: &[u8]) -> Part
        requires here { AtTurn Turn.Word self.old }
        requires asked { length got.now ≤ 4 }
        ensures head { TakesHead result self.old self.new got.now 4 }
    {
        if got.len() < 4 {
            let at = self.position + got.len() as u64;
            return self.fail(SparseFault::Truncated { at });
        }
        self.word.copy_from_slice(got);
        self.due = false;
        self.position += 4;
        Part::Nothing
    }

    /// The header of a chunk, twelve bytes.
    #[inline(always)]
    fn take_chunk(&mut self, got: &[u8]) -> Part
        requires here { AtTurn Turn.Chunk self.old }
        requires asked { length got.now ≤ 12 }
        ensures head { TakesHead result self.old self.new got.now 12 }
    {
        if got.len() < 12 {
            let end = self.position + got.len() as u64;
            return self.fail(SparseFault::Truncated { at: end });
        }
        match ChunkKind::from_code(u16_at(got, 0)) {
            Some(kind) => self.take_known(got, kind),
            None => self.fail(unknown_type(self.index, got)),
        }
    }

    /// The same, of a kind that the format knows: its length is checked, and then its blocks.
    #[inline(always)]
    fn take_known(&mut self, got: &[u8], kind: ChunkKind) -> Part
        requires here { AtTurn Turn.Chunk self.old }
        requires whole { length got.now ≡ 12 }
        requires known { kind_at (number_at 0 2 got.now) ≡ Some kind }
        ensures head { TakesHead result self.old self.new got.now 0 }
    {
        let blocks = u32_at(got, 4);
        let total = u32_at(got, 8);
        let header = self.header;
        let length = data_length(header.blk_sz, kind, blocks);
        if u64::from(total) != u64::from(header.chunk_hdr_sz) + length {
            return self.fail(SparseFault::ChunkLength { chunk: self.index });
        }
        let counts = counted_blocks(kind, blocks);
        if u64::from(header.total_blks) < u64::from(self.have) + u64::from(counts) {
            return self.fail(SparseFault::TooManyBlocks { chunk: self.index });
        }
        *self = Walk {
            phase: Phase::Body,
            header,
            kind,
            blocks: counts,
            due: has_word(kind),
            word: self.word,
            index: self.index + 1,
            have: self.have + counts,
            extra: u32::from(header.chunk_hdr_sz) - 12,
            raw: raw_bytes(kind, blocks, header.blk_sz),
            words: laid_words(kind, blocks, header.blk_sz),
            position: self.position + 12,
        };
        Part::Nothing
    }

    /// Words of a fill, as many as are left and at most `most`. Nothing is read for them.
    #[inline(always)]
    fn give_fill(&mut self, most: u64) -> Part
        requires here { AtTurn Turn.Fill self.old }
        requires some { 0 < most }
        ensures fill { Part.Words self.old.word (self.old.words - self.new.words) ≡ result }
        ensures gives { GivesWords result self.old self.new }
        ensures words { (skips : ℕ) → WithinWords result self.old self.new most skips }
    {
        let n = self.words.min(most);
        self.words -= n;
        Part::Words(self.word, n)
    }

    /// Words of a gap, as many as are left and at most `most`. Nothing is read for them.
    #[inline(always)]
    fn give_gap(&mut self, most: u64) -> Part
        requires here { AtTurn Turn.Gap self.old }
        requires some { 0 < most }
        ensures gap { Part.Skip (self.old.words - self.new.words) ≡ result }
        ensures gives { GivesWords result self.old self.new }
        ensures words { (fills : ℕ) → WithinWords result self.old self.new fills most }
    {
        let n = self.words.min(most);
        self.words -= n;
        Part::Skip(n)
    }

    /// After the last chunk: the blocks of all chunks are as many as the header says, or too few.
    #[inline(always)]
    fn end(&mut self) -> Part
        requires here { AtTurn Turn.End self.old }
        ensures over { goes_on result ≡ false }
        ensures told { TurnTells result self.old self.new [] 0 }
        ensures turn { OwnTurn result self.old self.new 0 }
    {
        if self.have != self.header.total_blks {
            return self.fail(SparseFault::TooFewBlocks { have: self.have });
        }
        self.phase = Phase::Done;
        Part::End
    }

    /// What was returned last, once more.
    fn again(&self) -> Part
        requires here { AtTurn Turn.Over self.now }
        ensures over { goes_on result ≡ false }
        ensures told { TurnTells result self.now self.now [] 0 }
        ensures turn { OwnTurn result self.now self.now 0 }
    {
        match self.phase {
            Phase::Failed(fault) => Part::Fault(fault),
            _ => Part::End,
        }
    }

    /// Takes a turn with the bytes that came for it.
    #[inline(always)]
    pub(crate) fn take(&mut self, turn: Turn, got: &[u8], fills: u64, skips: u64) -> Part
        requires here { AtTurn turn self.old }
        requires asked { length got.now ≤ ask_of turn self.old }
        requires words { 0 < fills × 0 < skips }
        ensures read { TakesWhole turn → ReadsHead result }
        ensures told { TurnTells result self.old self.new got.now (needed_of turn) }
        ensures turn { TurnTaken result self.old self.new (length got.now) }
        ensures words { WithinWords result self.old self.new fills skips }
        ensures cause { Caused result self.old.phase 1 0 }
        ensures over { IsWalkOver self.old.phase → self.new ≡ self.old }
    {
        match turn {
            Turn::Header => self.take_header(got),
            Turn::Extra => self.take_extra(got),
            Turn::Raw => self.take_raw(got.len()),
            Turn::Word => self.take_word(got),
            Turn::Fill => self.give_fill(fills),
            Turn::Gap => self.give_gap(skips),
            Turn::Chunk => self.take_chunk(got),
            Turn::End => self.end(),
            Turn::Over => self.again(),
        }
    }

    /// One step: reads what comes next, at most a window, and returns what it gives. Raw bytes are at the beginning
    /// of the window. Of a fill it gives at most `fills` words of four bytes, of a gap at most `skips`.
    #[inline(always)]
    pub fn part<I: Input>(
        &mut self,
        fills: u64,
        skips: u64,
        input: &mut I,
        w: &mut Window,
        m: &mut Meter,
    ) -> WalkStep
        requires words { 0 < fills × 0 < skips }
        ensures step { StepTaken I.Input result 65536 self.old self.new input.old input.new m.old m.new }
        ensures gives { GivesPart I.models result fills skips self.old self.new (I.remaining input.old)
            (I.remaining input.new) w.new.bytes }
    {
        self.part_within(fills, skips, WINDOW, input, w, m)
    }

    /// The same with at most `most` bytes read, so that a caller has the rest of the window for itself.
    #[inline(always)]
    pub fn part_within<I: Input>(
        &mut self,
        fills: u64,
        skips: u64,
        most: usize,
        input: &mut I,
        w: &mut Window,
        m: &mut Meter,
    ) -> WalkStep
        requires words { 0 < fills × 0 < skips }
        requires least { 28 ≤ most }
        requires most { most ≤ 65536 }
        ensures step { StepTaken I.Input result most self.old self.new input.old input.new m.old m.new }
        ensures gives { GivesPart I.models result fills skips self.old self.new (I.remaining input.old)
            (I.remaining input.new) w.new.bytes }
    {
        let turn = self.turn();
        let wish = self.ask(turn);
        let ask = wish.min(most);
        w.is_whole();
        let got = read_full(input, w.part_mut(0, ask), m);
        let part = match got.fault {
            Some(fault) => self.fail(SparseFault::Read(fault)),
            None => self.take(turn, w.part(0, got.count), fills, skips),
        };
        WalkStep {
            part,
            received: got.count as u32,
        }
    }
}
