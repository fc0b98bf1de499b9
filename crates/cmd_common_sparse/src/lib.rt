//! What all commands of sparse images share: their faults, the lines that they print, the names of piece files, and
//! the blocks and pieces of a raw image.
//!
//! | file | content |
//! |---|---|
//! | `fault.rt` | why a command fails: the number of the fault, its text, and the file that it concerns |
//! | `lines.rt` | the line that a command prints after its work |
//! | `piece_files.rt`, `piece_names.rt` | the files that arguments name, and the names of piece files |
//! | `blocks.rt`, `pieces.rt` | the blocks and the pieces of a raw image, or why it has none |
#![tactic(auto)]

mod blocks;
mod fault;
mod lines;
mod piece_files;
mod piece_names;
mod pieces;

pub use blocks::{Blocks, blocks_of};
pub use fault::{SparseCommandFault, SparseRefusal};
pub use lines::{LeftOver, Line};
pub use piece_files::{PieceFiles, PieceNaming, image_place};
pub use piece_names::is_piece_name;
pub use pieces::{PiecesOf, raw_pieces};
