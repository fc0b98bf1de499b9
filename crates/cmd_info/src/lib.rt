//! The command `info`, over any disk.
//!
//! Its contracts state what it prints of the file that a disk holds. Every clause applies to the disk in memory.
//!
//! | file | content |
//! |---|---|
//! | `info.rt` | the command `info` |
//! | `telling.rt` | printing the text of an image |
#![tactic(auto)]

mod info;
mod telling;

pub use info::{InfoOutcome, info_file};
