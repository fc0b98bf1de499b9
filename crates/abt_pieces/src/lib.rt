//! Cuts an image into pieces for a download limit. Each piece is a sparse image of its own.
//!
//! A piece has a segment of the image, from block `first` up to `past`:
//!
//! - The piece is a whole sparse image with the same block size and number of blocks.
//! - Its blocks before the segment and after it are don't care. The segment is between them, each maximal run as one
//!   chunk.
//! - The piece weighs at most the limit, and its segment is the longest that does.
//!
//! What the pieces of a source that models its content are is stated exactly (`specs/Cutter`). Whatever a source
//! gives, each piece reads as a sparse image of all blocks (`specs/Image`).
//!
//! | file | content |
//! |---|---|
//! | `segment_tail.rt`, `plan.rt` | weigh a segment part by part, and find how far a piece goes |
//! | `contents.rt`, `outline.rt` | the numbers of a piece, which its header needs first |
//! | `gather.rt` | the runs of a piece, each known as a whole before it is written |
//! | `chunk.rt`, `write.rt` | write headers, and write a piece in steps that hold numbers alone |
//! | `stage.rt`, `piece_steps.rt` | one step of cutting |
//! | `cutter.rt` | `Cutter`, which writes whole pieces |
//! | `fault.rt` | the reasons for which all this is refused |
#![tactic(auto)]

mod chunk;
mod contents;
mod cutter;
mod fault;
mod gather;
mod outline;
mod piece_steps;
mod plan;
mod segment_tail;
mod stage;
mod write;

pub use chunk::{chunk_front, image_header, write_front, write_header};
pub use contents::{PieceContents, copied_len, head_len};
pub use cutter::{Cutter, least_limit, next_in_turn, no_fewer_pieces};
pub use fault::{PieceFault, run_fault};
pub use gather::{Gatherer, framed_part};
pub use outline::{Outline, Piece};
pub use plan::{Planner, plan_piece};
pub use segment_tail::{Tail, added, raw_cap};
pub use stage::{CutterStage, PieceProgress};
pub use write::{Copying, Writer};
