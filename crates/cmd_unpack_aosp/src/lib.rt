//! The body of unpack_bootimg, over any disk. Its contracts state what it leaves of the files of a disk that models
//! their contents.
//!
//! | file | content |
//! |---|---|
//! | `unpack.rt` | writing the parts of an image, each to the file of unpack_bootimg for it |
//! | `write_part.rt` | writing one part to a file of its own |
//! | `names.rt` | the file of a part |
#![tactic(auto)]

mod names;
mod unpack;
mod write_part;

pub use unpack::unpack_as_aosp;
