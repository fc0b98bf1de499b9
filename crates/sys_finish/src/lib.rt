//! Outputs, and how they are finished. This crate opens nothing.
//!
//! An output is finished once it has returned a `Finished`, which nothing else makes. If its file models its content,
//! that is exactly what the output was given.
//!
//! | file | has |
//! |---|---|
//! | `target.rt`, `sink.rt` | where bytes go, with holes for zeros, or a buffer; a log of all that was given |
//! | `collecting.rt`, `sending.rt` | a sink whose small writes are collected, and how they are sent |
//! | `gathered.rt` | an output that collects small writes |
//! | `output_file.rt`, `image_file.rt` | an output, and the output of an image with a magic; finishing them |
#![tactic(auto)]

mod collecting;
mod gathered;
mod image_file;
mod output_file;
mod sending;
mod sink;
mod target;

pub use collecting::Collecting;
pub use gathered::Gathered;
pub use image_file::ImageFile;
pub use output_file::{Finished, OutputFile};
pub use sink::Sink;
pub use target::Ended;
