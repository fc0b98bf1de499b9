//! Devices over any open file of the system. A device models its content if its file does.
//!
//! | file | has |
//! |---|---|
//! | `source.rt` | a file that is read at any offset; each call makes one call of the file |
//! | `partition.rt` | a file that is written at any offset; each call makes one call of the file |
//! | `ahead.rt`, `ahead_file.rt` | a source whose small reads are read ahead; whether its file still has those bytes |
//! | `held.rt` | bytes of a file that were read ahead |
//! | `kept.rt` | the bytes last read of a raw image, in which the next piece begins |
//! | `gathering.rt`, `behind.rt` | a spool that collects small writes, and its buffer |
#![tactic(auto)]

mod ahead;
mod ahead_file;
mod behind;
mod gathering;
mod held;
mod kept;
mod partition;
mod source;

pub use ahead::AheadSource;
pub use ahead_file::AheadFile;
pub use gathering::GatheringSpool;
pub use partition::FilePartition;
pub use source::FileSource;
