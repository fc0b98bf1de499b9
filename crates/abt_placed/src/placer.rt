//! The state of an image that is written in one pass: numbers alone.
ghost use Rattle.std.specs.Prelude.{◌≡◌, ◌<◌, ◌≤◌, ◌+◌, ◌^◌, false};
ghost use Rattle.abt_runs.specs.Part.{is_end};
ghost use Rattle.abt_placed.specs.Placer.{closed, goes_on_with, with_part, room_of};

use abt_runs::{RunKind, are_alike};

/// Writes one sparse image, in steps. The last chunk is open until its run has ended or it has as many
/// raw blocks as a chunk may have.
#[derive(Clone, Copy, Debug, PartialEq, Eq, Drop)]
pub struct Placer {
    /// Where the image begins in the output.
    pub front: u64,
    /// How many blocks a raw chunk has at most.
    pub most: u32,
    /// How many chunks are whole.
    pub chunks: u32,
    /// How many blocks they have.
    pub blocks: u32,
    /// What the blocks of the open chunk are; `End` where none is open.
    pub kind: RunKind,
    /// How many blocks it has.
    pub count: u32,
}

impl Placer {
    /// The same with the open chunk whole.
    pub(crate) fn and_closed(self) -> Placer
        requires within { self.blocks + self.count < 2 ^ 32 }
        requires chunks { self.chunks ≤ self.blocks }
        requires some { is_end self.kind ≡ false → 0 < self.count }
        ensures { result ≡ closed self }
    {
        match self.kind {
            RunKind::End => self,
            RunKind::Raw | RunKind::Fill(_) | RunKind::Skip => Placer {
                front: self.front,
                most: self.most,
                chunks: self.chunks + 1,
                blocks: self.blocks + self.count,
                kind: RunKind::End,
                count: 0,
            },
        }
    }

    /// With so many blocks of one class more.
    pub(crate) fn and_blocks(self, kind: RunKind, blocks: u32) -> Placer
        requires within { self.blocks + self.count + blocks < 2 ^ 32 }
        requires chunks { self.chunks ≤ self.blocks }
        requires some { is_end self.kind ≡ false → 0 < self.count }
        ensures { result ≡ with_part self kind blocks }
    {
        if self.goes_on(kind) {
            return Placer {
                count: self.count + blocks,
                ..self
            };
        }
        Placer {
            kind,
            count: blocks,
            ..self.and_closed()
        }
    }

    /// Whether blocks of this class go on with the open chunk.
    pub(crate) fn goes_on(&self, kind: RunKind) -> bool
        ensures { result ≡ goes_on_with self.now kind }
    {
        match kind {
            RunKind::Raw => self.count < self.most && are_alike(self.kind, kind),
            RunKind::Fill(_) | RunKind::Skip | RunKind::End => are_alike(self.kind, kind),
        }
    }

    /// How many blocks more the open chunk has room for, or the next one.
    pub(crate) fn room(&self) -> u32
        requires { 0 < self.now.most }
        ensures some { 0 < result }
        ensures is { result ≡ room_of self.now }
    {
        if self.count < self.most {
            self.most - self.count
        } else {
            self.most
        }
    }
}
