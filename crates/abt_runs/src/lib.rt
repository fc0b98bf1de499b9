//! An image as classified blocks. Each block is raw, filled with one word, or don't care. Each pass reads the blocks
//! again; none is held.
//!
//! Cutting and sparsing use one trait, [`BlockRuns`], and never see a chunk header. So what is proved with it holds
//! for sparse images (`sparse_format.h`) and for raw ones alike. Its contract for the layer above:
//!
//! - There is one list of classified blocks.
//! - `next_part` and `next_run` give its blocks from a cursor on, `next_raw` those that are known to be raw, and
//!   `copy` the bytes of these.
//! - Every read is counted against the blocks that were passed. So a whole pass reads at most the image (sparse) or
//!   twice the image (raw). Copying all raw blocks reads at most the image, wherever it was broken off and taken up
//!   again.
//! - Several walks over one image join at `Earliest` places: after a part that has blocks, the read budget that is
//!   spent is at most that of another walk at the same block or a later one.
//!
//! | file, in reading order | content |
//! |---|---|
//! | `part.rt` | `Cursor`, `Run`, `RunKind`, and `RunFault` with its numbers and texts |
//! | `runs.rt`, `whole.rt` | the trait `BlockRuns` with its laws, and `next_run`, which joins parts to runs |
//! | `words.rt`, `reading.rt` | `equal_word`, by lanes; bytes of the source loaded into the window |
//! | `raw.rt`, `head.rt` | `RawRuns`, a raw image; the header of a chunk |
//! | `tail.rt` | `TailRuns`, a raw image whose last block may be raw, whatever its bytes are |
//! | `stage.rt`, `opening_state.rt`, `opening_steps.rt` | `SparseOpening`: goes through all chunk headers, in steps |
//! | `sparse.rt`, `sparse_open.rt`, `sparse_parts.rt` | `SparseRuns`, a sparse image |
//!
//! `specs/` defines these terms (`Part` and `Whole` first, then `Raw`, and `Sparse`, `Head`, `Verdict` for sparse
//! images), and `proofs/` proves the contracts.
#![tactic(auto)]

mod head;
mod opening_state;
mod opening_steps;
mod part;
mod raw;
mod reading;
mod runs;
mod sparse;
mod sparse_open;
mod sparse_parts;
mod stage;
mod tail;
mod whole;
mod words;

pub use opening_state::SparseOpening;
pub use part::{Cursor, Run, RunFault, RunKind};
pub use raw::{RawRuns, leading, load_filled};
pub use reading::Loaded;
pub use runs::BlockRuns;
pub use sparse::SparseRuns;
pub use stage::{OpeningProgress, OpeningStage};
pub use tail::TailRuns;
pub use whole::are_alike;
pub use words::equal_word;
