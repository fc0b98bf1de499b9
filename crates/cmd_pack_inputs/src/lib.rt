//! The inputs from which `pack` and `repack` pack an image, over any disk. These are the files that the arguments
//! name, each open for reading, and the image's own data where it is packed again.
//!
//! The layers above rely on two facts:
//! - `open_parts` and `open_fragments` open the files that the arguments name, and no others.
//! - `own_fields`, `own_fragments` and `trailing_of` return the image's own data.
//!
//! | file | content |
//! |---|---|
//! | `parts.rt`, `ramdisks.rt` | the parts of the image and its ramdisk fragments, each open for reading |
//! | `own.rt` | an image that is packed again, and the ranges that are read beside it |
//! | `fields.rt`, `own_ramdisks.rt` | the own fields and the own fragments of that image |
//! | `kept.rt`, `given_parts.rt` | what `repack` keeps beside its sections, what it leaves out, and what it replaces |
//! | `fragment_gaps.rt` | the bytes of a vendor ramdisk that are in no fragment |
//! | `input_files.rt` | the files that the arguments name |
#![tactic(auto)]

mod fields;
mod fragment_gaps;
mod given_parts;
mod input_files;
mod kept;
mod own;
mod own_ramdisks;
mod parts;
mod ramdisks;

pub use fields::own_fields;
pub use input_files::output_at;
pub use kept::{OwnData, judged};
pub use own::{Own, open_own, trailing_of};
pub use own_ramdisks::own_fragments;
pub use parts::open_parts;
pub use ramdisks::{Ramdisks, open_fragments};
