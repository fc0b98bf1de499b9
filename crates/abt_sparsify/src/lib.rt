//! Writes a raw image as a sparse image, in two passes over it.
//!
//! A block whose words are all equal is fill; every other block is raw. Each maximal run is one chunk, except that a
//! raw run is cut into chunks of a maximal number of blocks. The header has the number of chunks, so the first pass
//! counts them and the second pass writes them.
//!
//! | file | content |
//! |---|---|
//! | `count.rt` | the pass that counts |
//! | `write.rt` | the pass that writes, by the steps of the writer of pieces |
//! | `image.rt` | `sparsify`: the counting pass, the header, the writing pass |
//!
//! `specs/Sparsify` defines what is counted at each step, and `proofs/` proves it.
#![tactic(auto)]

mod count;
mod image;
mod write;

pub use count::Written;
pub use image::sparsify;
