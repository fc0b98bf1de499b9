//! The commands `sparse` and `cut` over any disk. Both write images that begin with a magic.
//!
//! | file | content |
//! |---|---|
//! | `sparse.rt` | the command `sparse` |
//! | `write_image.rt` | writing the sparse image of a raw one to a file or a stream, and closing it |
//! | `engine_calls.rt` | the engine's calls that write it, with the progress of the command |
//! | `stopped_command.rt` | the fault of a command that stopped, where its file is written late |
//! | `cut.rt` | the command `cut` |
//! | `cut_loop.rt`, `pieces.rt` | writing all pieces of an image; writing one piece to a file of its own |
//! | `next_piece.rt` | the engine's calls for one piece, to a file or a stream |
//! | `zero_first.rt` | an output that writes its first byte last |
#![tactic(auto)]

mod cut;
mod cut_loop;
mod engine_calls;
mod next_piece;
mod pieces;
mod sparse;
mod stopped_command;
mod write_image;
mod zero_first;

pub use cut::{Cutting, cut_file};
pub use sparse::sparse_file;
