//! What the system reports about files: their identity, the storage below them, and whether they are in use or have
//! changed. This crate opens no file, except standard input once more.
//!
//! | file | has |
//! |---|---|
//! | `identity.rt` | the identity of a file, and what else the system reports about it |
//! | `descriptors.rt` | what is open under a descriptor, by the system's paths for that |
//! | `read_files.rt` | the input files, as they were: whether one changed, or is an output by now |
//! | `aliases.rt` | the storage below a file or a block device |
//! | `mounts.rt`, `sysfs.rt` | whether a block device is in use; what Linux reports about block devices |
//! | `standard_input.rt` | standard input that is read at any offset |
#![tactic(auto)]

mod aliases;
mod descriptors;
mod identity;
mod mounts;
mod read_files;
mod standard_input;
mod sysfs;

pub use aliases::is_shared;
pub use descriptors::{ERRORS, INPUT, OUTPUT, is_shown, open_again};
pub use identity::{
    Found, Identity, Modified, found_at, found_of, identity_at, identity_of_stream,
};
pub use mounts::is_in_use;
pub use read_files::ReadFiles;
pub use standard_input::{
    StandardSource, is_standard_input, standard_source, standard_source_again,
};
