//! A disk in memory, which models its files: it is bound by each clause of a command that is generic over any `Disk`.
//! Any call of it can be made to fail, and any read or write of what it opens.
//!
//! | file | has |
//! |---|---|
//! | `disk.rt` | its files, the paths that lead to them, and what was opened |
//! | `noting.rt` | what it looks up, and what it counts |
//! | `calls.rt` | its calls: each counts its own failure, and the failures of a device that is given back |
//! | `open_to_read.rt` | how it opens inputs |
//! | `beginning.rt` | how it creates or empties a file, and closes one |
//! | `creating.rt` | how it creates an output, and which path it rejects before that |
//! | `open_in_place.rt` | how it opens a file to be written in place, and closes it |
//! | `passing.rt` | how it opens the file that pieces go through, and closes it |
//! | `input.rt`, `source.rt` | its inputs: read forward, and read at any offset |
//! | `output.rt`, `image.rt` | its outputs: written from the beginning on, and overwritten |
//! | `partition.rt`, `spool.rt` | a file that is written in place, and one that pieces go through |
//! | `left.rt` | which numbered files it has left |
//! | `counted.rt`, `failures.rt`, `countdown.rt` | what it counts, how often a device has failed, and which call fails |
#![tactic(auto)]

mod beginning;
mod calls;
mod countdown;
mod counted;
mod creating;
mod disk;
mod failures;
mod image;
mod input;
mod left;
mod noting;
mod open_in_place;
mod open_to_read;
mod output;
mod partition;
mod passing;
mod source;
mod spool;

pub use countdown::{Countdown, Faults};
pub use counted::Counted;
pub use disk::MemoryDisk;
pub use failures::Failures;
pub use image::MemoryImage;
pub use input::MemoryInput;
pub use mem_files::{MemoryFile, MemoryPath};
pub use output::MemoryOutput;
pub use partition::MemoryPartition;
pub use source::MemorySource;
pub use spool::MemorySpool;
