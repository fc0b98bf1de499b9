//! The line that a command prints after its work.

ghost use Rattle.std.specs.Prelude.{Some};
ghost use Rattle.sys_refusals.specs.Paths.{shown_place};
ghost use Rattle.cmd_common_sparse.specs.Lines.{left_over_text, line_text};

use std::fmt;
use sys_refusals::FileArg;

/// A line of a report.
#[derive(Clone, Copy, Drop)]
pub enum Line {
    /// Of a raw image that was written.
    Expanded {
        blocks: u32,
        bytes: u64,
    },
    /// Of a sparse image that was written.
    Sparse {
        blocks: u32,
        chunks: u32,
        bytes: u64,
    },
    /// Of a piece that was written: its number, its first block, and the block after its last.
    Piece {
        number: u32,
        first: u32,
        past: u32,
        bytes: u64,
    },
    /// How many pieces there were.
    Pieces(u32),
    /// How many blocks were flashed or compared.
    Blocks(u64),
}

impl fmt::Display for Line {
    ghost output = { λ line. Some (line_text line) };

    fn fmt<W: fmt::Write>(&self, f: &mut fmt::Formatter<W>) -> fmt::Result {
        match *self {
            Line::Expanded { blocks, bytes } => write!(f, "blocks {blocks} bytes {bytes}"),
            Line::Sparse {
                blocks,
                chunks,
                bytes,
            } => write!(f, "blocks {blocks} chunks {chunks} bytes {bytes}"),
            Line::Piece {
                number,
                first,
                past,
                bytes,
            } => write!(f, "piece {number} blocks {first} {past} bytes {bytes}"),
            Line::Pieces(count) => write!(f, "pieces {count}"),
            Line::Blocks(count) => write!(f, "blocks {count}"),
        }
    }
}

/// A file of an older cut that is no piece of this one.
#[derive(Clone, Copy, Drop)]
pub struct LeftOver<'a>(pub FileArg<'a>);

impl fmt::Display for LeftOver<'_> {
    ghost output = { λ file. Some (left_over_text (shown_place file.0)) };

    fn fmt<W: fmt::Write>(&self, f: &mut fmt::Formatter<W>) -> fmt::Result {
        let place = self.0;
        write!(f, "abootimg: left over {place}")
    }
}
