//! The commands `flash`, straight to a partition or in pieces, `verify` and `list`, over any disk.
//!
//! The contract of each command states what it leaves of files, whatever the outcome, and what it prints. Every
//! clause applies to a disk that models the contents of its files, such as `MemoryDisk`. The program's own disk
//! models nothing.
//!
//! | file | content |
//! |---|---|
//! | `flash.rt`, `flash_raw.rt` | `flash` of a sparse or a raw image, straight to a partition |
//! | `blocks.rt` | writing each block of a raw image to a partition |
//! | `flash_source.rt` | writing a source over the beginning of a partition |
//! | `pieces.rt` | `flash` of an image in pieces |
//! | `through.rt` | writing pieces through a file, which is closed after them |
//! | `delivering.rt` | the engine's call that writes the pieces |
//! | `verify.rt` | `verify`: whether a partition holds an image |
//! | `list.rt` | `list`: the header and the chunks of a sparse image |
#![tactic(auto)]

mod blocks;
mod delivering;
mod flash;
mod flash_raw;
mod flash_source;
mod list;
mod pieces;
mod through;
mod verify;

pub use flash::flash_file;
pub use flash_raw::flash_raw_file;
pub use list::list_file;
pub use pieces::flash_pieces_file;
pub use verify::{verify_file, verify_raw_file};
