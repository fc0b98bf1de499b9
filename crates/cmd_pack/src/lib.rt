//! The commands `pack` and `repack`, over any disk.
//!
//! Their contracts state what they leave of the files of a disk that models their contents, such as the one in memory.
//!
//! | file | content |
//! |---|---|
//! | `pack.rt`, `repack.rt` | the command of that name |
//! | `filling.rt` | combining the data from which the image is written |
//! | `telling.rt` | reporting what was left out |
#![tactic(auto)]

mod filling;
mod pack;
mod repack;
mod telling;

pub use pack::pack_file;
pub use repack::repack_file;
