//! Android sparse images, version 1.0 (AOSP `sparse_format.h`): their meaning, the laws that hold for all of them,
//! and their two records from and to bytes. This crate reads and writes no device.
//!
//! For the layers above:
//!
//! - `specs/` defines the terms of their contracts: blocks and the cells that they write (`Block`), chunks and their
//!   encodings (`Chunk`), runs, weight and cuts (`Runs`, `Gains`), pieces and flashing (`Pieces`, `Mending`).
//! - `specs/` defines the reading of bytes twice: as one function (`Reading`), and as two relations, 'is encoded so'
//!   and 'fails so' (`Fails`).
//! - `specs/Laws.antt` states the laws of these definitions. Exactly one of the two relations holds of any bytes, and
//!   `outcome` finds it. The encoding of a list of blocks reads back as that list. Greedy cuts are the fewest.
//!   Flashing the pieces in turn is flashing the image. `law_sparse` proves these laws by the lemmas of `proofs/`,
//!   which proofs of the layers above cite.
//! - `SparseHeader` and `ChunkHeader` decode and encode. Each direction undoes the other, except for the reserved
//!   field of a chunk's header. Decoding fails with the first check that fails.
//!
//! | file | content |
//! |---|---|
//! | `fault.rt` | `SparseFault`: why an image is refused, with its number and text |
//! | `kind.rt` | `ChunkKind` and its type numbers |
//! | `chunk_length.rt` | how long a chunk's data is, and how many blocks it counts |
//! | `numbers.rt` | numbers of two and four bytes at a place |
//! | `header.rt`, `records.rt` | `SparseHeader`, and its 28 bytes |
//! | `chunk_header.rt` | `ChunkHeader`, and its twelve bytes |
#![tactic(auto)]

mod chunk_header;
mod chunk_length;
mod fault;
mod header;
mod kind;
mod numbers;
mod records;

pub use chunk_header::ChunkHeader;
pub use chunk_length::{counted_blocks, data_length};
pub use fault::SparseFault;
pub use header::SparseHeader;
pub use kind::ChunkKind;
pub use numbers::{u16_at, u32_at};
pub use records::header_of;
