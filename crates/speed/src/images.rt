//! The images that the jobs work on.

ghost use Rattle.std.specs.Prelude.{◌≡◌, ◌<◌, ◌%◌};

use crate::random::Random;
use abt_pieces::image_header;
use abt_sparse::{ChunkHeader, ChunkKind};
use std::alloc::{AllocError, Global};

/// The blocks of images that tools write, in bytes.
pub const BLOCK: u32 = 4096;

/// The smallest blocks.
pub const WORD: u32 = 4;

/// An image that is being made.
#[derive(Drop)]
pub struct Maker {
    bytes: Vec<u8>,
    /// What raw blocks are taken from.
    page: Vec<u8>,
    random: Random,
    /// How many bytes a block has.
    size: u32,
    blocks: u32,
    chunks: u32,
}

impl Maker {
    pub fn new(alloc: Global, seed: u64) -> Result<Maker, AllocError> {
        let mut random = Random::new(seed);
        let mut page = Vec::new(alloc);
        for _ in 0..8192u32 {
            page.extend_from_slice(&random.next().to_le_bytes())?;
        }
        Ok(Maker {
            bytes: Vec::new(alloc),
            page,
            random,
            size: BLOCK,
            blocks: 0,
            chunks: 0,
        })
    }

    fn count(&mut self, blocks: u32) {
        self.blocks = self.blocks.saturating_add(blocks);
        self.chunks = self.chunks.saturating_add(1);
    }

    fn header(&mut self, kind: ChunkKind, blocks: u32, data: u32) -> Result<(), AllocError> {
        let header = ChunkHeader {
            kind,
            blocks,
            total: data.saturating_add(12),
        };
        self.count(blocks);
        self.bytes.extend_from_slice(&header.encode())
    }

    // This many blocks from anywhere in the page.
    fn data(&mut self, blocks: u32) -> Result<(), AllocError> {
        let from = 4 * self.random.below(8192) as usize;
        let length = blocks as usize * self.size as usize;
        let some = self.page.as_slice().get(from..from + length).unwrap_or(&[]);
        self.bytes.extend_from_slice(some)
    }

    fn raw(&mut self, blocks: u32) -> Result<(), AllocError> {
        let data = blocks.saturating_mul(self.size);
        self.header(ChunkKind::Raw, blocks, data)?;
        self.data(blocks)
    }

    fn fill(&mut self, word: u32, blocks: u32) -> Result<(), AllocError> {
        self.header(ChunkKind::Fill, blocks, 4)?;
        self.bytes.extend_from_slice(&word.to_le_bytes())
    }

    fn skip(&mut self, blocks: u32) -> Result<(), AllocError> {
        self.header(ChunkKind::Skip, blocks, 0)
    }

    // The next chunk of an image in which neighbours never join.
    fn in_turn(&mut self, most: u32) -> Result<(), AllocError>
        requires { 0 < most }
    {
        let blocks = self.random.below(most).saturating_add(1);
        match self.chunks % 4 {
            1 => {
                let word = if self.random.below(3) == 0 {
                    self.random.below(u32::MAX)
                } else {
                    0
                };
                self.fill(word, blocks)
            }
            3 => self.skip(blocks),
            _ => self.raw(blocks),
        }
    }

    /// A sparse image of blocks of this many bytes, and this many chunks of at most this many blocks: raw between fills
    /// and gaps.
    pub fn sparse(&mut self, size: u32, chunks: u32, most: u32) -> Result<(), AllocError>
        requires some { 0 < most }
        requires block { 0 < size }
        requires words { size % 4 ≡ 0 }
    {
        self.bytes.clear();
        self.size = size;
        self.blocks = 0;
        self.chunks = 0;
        self.bytes.extend_from_slice(&[0; 28])?;
        for _ in 0..chunks {
            self.in_turn(most)?;
        }
        let header = image_header(size, self.blocks, self.chunks);
        if let Some(front) = self.bytes.as_mut_slice().get_mut(..28) {
            front.copy_from_slice(&header);
        }
        Ok(())
    }

    /// The image that was made last.
    pub fn image(&self) -> &[u8] {
        self.bytes.as_slice()
    }

    /// How many bytes all blocks of the image have.
    pub fn expanded(&self) -> u64 {
        u64::from(self.blocks) * u64::from(self.size)
    }

    // A block of one word; in a block that only looks so the last word differs.
    fn equal(&mut self, word: u32, is_whole: bool) -> Result<(), AllocError> {
        let words = self.size / 4;
        let last = if is_whole { word } else { !word };
        for _ in 1..words {
            self.bytes.extend_from_slice(&word.to_le_bytes())?;
        }
        self.bytes.extend_from_slice(&last.to_le_bytes())
    }

    // A run of a raw image.
    fn run(&mut self) -> Result<(), AllocError> {
        let kind = self.random.below(10);
        let blocks = self.random.below(32).saturating_add(1);
        let word = self.random.below(u32::MAX);
        for _ in 0..blocks {
            match kind {
                0 | 1 | 2 => self.equal(0, true)?,
                3 => self.equal(word, true)?,
                4 => self.equal(word, false)?,
                _ => self.data(1)?,
            }
        }
        Ok(())
    }

    /// A raw image of this many runs, in blocks of the size that tools write.
    pub fn flat(&mut self, runs: u32) -> Result<(), AllocError> {
        self.bytes.clear();
        self.size = BLOCK;
        for _ in 0..runs {
            self.run()?;
        }
        Ok(())
    }
}
