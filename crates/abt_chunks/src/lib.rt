//! Reads sparse images (`sparse_format.h`) forward through one window: expands them to an output, or lists their
//! chunks.
//!
//! The layers above use the contract of [`expand`]:
//!
//! - It returns Ok exactly where an image is at the beginning of the input and no device fails. Then the expansion of
//!   the image was written, and exactly the image was read.
//! - Otherwise it returns the fault that the bytes have, and has written what comes before the fault.
//!
//! [`Walk::part`] is the one step on which [`Expander`], [`Chunks`] and a flasher are built. Whatever bytes follow,
//! what lies ahead of a walk is what the step gives, and then what lies ahead of the walk after the step.
//!
//! No call allocates memory. Bytes pass through the borrowed window, at most 65,536 of them in a step. No byte is
//! held over to the next step.
//!
//! | file | content |
//! |---|---|
//! | `progress.rt` | what the machines return: `MachineProgress`, `Expanded`, `ChunkInfo` |
//! | `walk.rt` | `Walk`, the state of the reading machine, with `Phase`, `Turn`, `Part`, `WalkStep` |
//! | `kinds.rt`, `place.rt` | what follows from a chunk's kind, and what a walk does next |
//! | `parts.rt` | `Walk::part`, one step of a walk |
//! | `expansion.rt`, `expander.rt` | what is written for a part; `Expander`, `expand` |
//! | `listing.rt` | `Chunks` |
//! | `feed.rt`, `pull.rt` | `Puller`, a walk that gets its input in pieces of any length |
//! | `laws.rt` | the law of listings |
//!
//! | definitions | content |
//! |---|---|
//! | `Whole`, `Expanding` | what an expansion returns and writes, as a whole and in steps |
//! | `Ahead`, `Parts` | what the rest of an input gives to a walk, and what a part says of that |
//! | `Turns`, `Places` | what a walk does next, and where it is in the expanded image |
//! | `Listing`, `ListingAhead`, `Showing` | what a listing shows, what it still shows, and what its calls return |
//! | `Feeding`, `Pulling` | what a walk that gets its input in pieces holds, and what a pull returns |
//! | `Stepping`, `Taking` | what one step of a walk does, and what each turn and each call that reads leaves |
//! | `Costs` | what calls cost, in bytes that were moved |
//! | `Cause` | which device failed where a call is refused, and how much was read before that was known |
#![tactic(auto)]

mod expander;
mod expansion;
mod feed;
mod kinds;
mod laws;
mod listing;
mod parts;
mod place;
mod progress;
mod pull;
mod walk;

pub use abt_sparse::{ChunkHeader, ChunkKind, SparseFault, SparseHeader};
pub use expander::{Expander, expand};
pub use feed::{Pull, Pulled, Puller};
pub use laws::listings_are_right;
pub use listing::Chunks;
pub use progress::{ChunkInfo, Expanded, MachineProgress};
pub use walk::{Part, Phase, Walk, WalkStep};
