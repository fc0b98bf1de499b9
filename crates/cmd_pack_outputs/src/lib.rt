//! The file to which `pack` and `repack` write an image, over any disk, and the data from which it is written.
//!
//! The layer above relies on `write_image`: it writes the image that packing its `ImageContents` gives, and leaves no
//! part of an image where it stops early.
//!
//! | file | content |
//! |---|---|
//! | `contents.rt`, `letting_go.rt` | the data from which an image is written, and closing its sources |
//! | `image_output.rt` | the file to which it is written, from opening to closing |
//! | `write_over.rt`, `packing.rt` | writing it over a regular file; packing it, and copying the bytes after it |
//! | `magic_last.rt` | an output whose magic is written last |
//! | `lines.rt` | the line that is printed of it |
#![tactic(auto)]

mod contents;
mod image_output;
mod letting_go;
mod lines;
mod magic_last;
mod packing;
mod write_over;

pub use contents::ImageContents;
pub use image_output::write_image;
