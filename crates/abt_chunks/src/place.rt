//! The position of a walk: what it does next, how many bytes it asks for, and where the next byte of a block lies.

ghost use Rattle.std.specs.Prelude.{◌≡◌, ◌<◌, ◌≤◌, ◌^◌};
ghost use Rattle.abt_chunks.specs.Turns.{AtTurn, ask_of};
ghost use Rattle.abt_chunks.specs.Places.{place_of, upto_of};
ghost use Rattle.abt_chunks.specs.ListingAhead.{at_end};

use crate::kinds::{bytes_left, nothing_left};
use crate::walk::{Part, Phase, Turn, Walk};
use abt_io::WINDOW;
use abt_sparse::{ChunkKind, SparseFault, data_length};

impl Walk {
    /// Stops the walk: from now on every step returns this fault.
    pub(crate) fn fail(&mut self, fault: SparseFault) -> Part
        ensures part { result ≡ Part.Fault fault }
        ensures failed { self.new.phase ≡ Phase.Failed fault }
        ensures header { self.new.header ≡ self.old.header }
    {
        self.phase = Phase::Failed(fault);
        Part::Fault(fault)
    }

    /// Where the next byte of a block lies in the expanded image, in bytes from its first block.
    #[inline(always)]
    pub fn place(&self) -> u64
        ensures { result ≡ place_of self.now }
    {
        match self.phase {
            Phase::Header => 0,
            _ => {
                let given = data_length(self.header.blk_sz, ChunkKind::Raw, self.have);
                given - bytes_left(self.kind, self.raw, self.words)
            }
        }
    }

    /// The blocks of the chunks so far are fewer bytes than a `u64` counts. Only contracts need this fact.
    pub(crate) fn is_counted(&self)
        ensures { upto_of self.now < 2 ^ 64 }
    {
        match self.phase {
            Phase::Header => {}
            _ => {
                let _all = data_length(self.header.blk_sz, ChunkKind::Raw, self.have);
            }
        }
    }

    /// What the walk does next.
    #[inline(always)]
    pub(crate) fn turn(&self) -> Turn
        ensures { AtTurn result self.now }
    {
        match self.phase {
            Phase::Header => Turn::Header,
            Phase::Body => {
                if self.extra > 0 {
                    Turn::Extra
                } else {
                    self.turn_in_data()
                }
            }
            _ => Turn::Over,
        }
    }

    /// Nothing is left of what was begun, the image's header or a chunk.
    #[inline(always)]
    pub fn is_at_end(&self) -> bool
        ensures { result ≡ at_end self.now }
    {
        self.extra == 0 && nothing_left(self.kind, self.due, self.raw, self.words)
    }

    /// The same within a chunk, once its header has been passed: its data, then the words that it gives, then the
    /// next chunk or the end.
    #[inline(always)]
    fn turn_in_data(&self) -> Turn
        requires body { self.now.phase ≡ Phase.Body }
        requires extra { self.now.extra ≡ 0 }
        ensures { AtTurn result self.now }
    {
        match self.kind {
            ChunkKind::Raw => {
                if self.raw > 0 {
                    return Turn::Raw;
                }
            }
            ChunkKind::Fill => {
                if self.due {
                    return Turn::Word;
                }
                if self.words > 0 {
                    return Turn::Fill;
                }
            }
            ChunkKind::Skip => {
                if self.words > 0 {
                    return Turn::Gap;
                }
            }
            ChunkKind::Crc => {
                if self.due {
                    return Turn::Word;
                }
            }
        }
        if self.index < self.header.total_chunks {
            Turn::Chunk
        } else {
            Turn::End
        }
    }

    /// How many bytes that takes, at most a window: what is longer is taken in several steps.
    #[inline(always)]
    pub(crate) fn ask(&self, turn: Turn) -> usize
        ensures value { result ≡ ask_of turn self.now }
        ensures room { result ≤ 65536 }
    {
        match turn {
            Turn::Header => 28,
            Turn::Extra => (self.extra as usize).min(WINDOW),
            Turn::Raw => self.raw.min(WINDOW as u64) as usize,
            Turn::Word => 4,
            Turn::Chunk => 12,
            _ => 0,
        }
    }
}
