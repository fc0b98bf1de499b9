//! The command `unpack`, over any disk.
//!
//! Its contracts state what it leaves of the files of a disk that models their contents, such as the disk in memory.
//!
//! | file | content |
//! |---|---|
//! | `unpack.rt` | the command `unpack` |
//! | `parts.rt` | writing all parts, one after another |
//! | `write_part.rt` | writing one part to a file of its own |
//! | `copying.rt` | copying the bytes of a part from the image to an output |
//! | `counted.rt` | an output whose bytes are counted |
//! | `names.rt`, `lines.rt` | the file of a part, and the line that is printed of it |
#![tactic(auto)]

mod copying;
mod counted;
mod lines;
mod names;
mod parts;
mod unpack;
mod write_part;

pub use copying::{copy_fragment, copy_section};
pub use lines::PartLine;
pub use names::place_of;
pub use unpack::unpack_file;
