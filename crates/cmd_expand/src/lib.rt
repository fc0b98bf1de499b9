//! The command `expand` over any disk. Its contracts define what it leaves of files and what it prints, for a disk
//! that models the contents of its files, such as one in memory.
//!
//! | file | content |
//! |---|---|
//! | `expand.rt` | `expand` of one image |
//! | `overlay.rt` | `expand` of several images: each overwrites the result of those before it |
//! | `open_images.rt`, `overlay_loop.rt` | opening these images; writing them to the output, one after another |
//! | `cut_of.rt` | whether images are pieces of one cut, as far as it can be determined |
#![tactic(auto)]

mod cut_of;
mod expand;
mod open_images;
mod overlay;
mod overlay_loop;

pub use expand::expand_one;
pub use overlay::expand_several;
