//! Writes a raw image as a sparse image, or as its pieces, in one pass over it. The output must be one whose written
//! bytes can be overwritten.
//!
//! A chunk's header comes before its data and has the data's length. The image's header has the number of chunks. So
//! the place of each header is first filled with zeros, and the header is written there when its fields are known:
//!
//! - a raw chunk's header when its run has ended;
//! - the image's header when all else is written, and its magic number last of all.
//!
//! Whatever was broken off before that is no image.
//!
//! | file | content |
//! |---|---|
//! | `placer.rt` | `Placer`, the numbers that are held between two steps |
//! | `headers.rt` | writes headers at the places that were kept for them |
//! | `taking.rt` | takes blocks, class by class, as they are in the window, and the end |
//! | `segment.rt` | the segment of a piece, which takes what fits, one window of the source after another |
//! | `cutting.rt` | a whole piece |
//! | `image.rt` | a whole image, which is a piece without a limit |
//!
//! `specs/Placed` and `specs/Segment` define what is written at each step, `specs/Piece` what the whole is, and
//! `proofs/` proves it.
#![tactic(auto)]

mod cutting;
mod headers;
mod image;
mod placer;
mod segment;
mod taking;

pub use cutting::next_piece_at;
pub use image::sparsify_at;
