//! Flashes sparse images to a partition: one image read forward, or an image cut into pieces that pass through a
//! spool.
//!
//! The layers above use the contracts of [`flash`] and [`deliver`].
//!
//! - `flash` returns Ok exactly where an image is at the beginning of the input, the partition has room for its
//!   blocks and no device fails. Then the partition holds its old content overwritten by the image's raw and fill
//!   blocks, each byte of them written once, and is synced. In no intermediate state is another byte touched.
//! - `deliver` leaves the same by way of the spool. The spool is given exactly the pieces of the image, each within
//!   the limit. Whatever a stop leaves on the way, `resume` mends.
//!
//! Nothing is read of the partition, and no call allocates memory. The faults are those of `abt_flash_faults`.
//!
//! | file | content |
//! |---|---|
//! | `stage.rt` | `FlashStage`, and what a flash returns |
//! | `write_part.rt` | what a part of an image requires of the partition, and how that is done |
//! | `flasher.rt` | `Flasher`, flashing in steps |
//! | `flashing.rt` | `flash` |
//! | `answer.rt` | `Delivered` |
//! | `way.rt` | how a piece is written to the spool: forward, or its headers last |
//! | `piece.rt` | one piece: the spool is cleared, the piece is written to it, and flashed from there |
//! | `delivering.rt` | the pieces that are only planned, and all others |
//! | `deliver_opened.rt` | `deliver_runs`: an opened image |
//! | `sparse.rt`, `raw.rt` | `deliver`, `resume`, `deliver_raw`, `resume_raw`: sparse images, and raw ones |
//! | `raw_at.rt` | `deliver_raw_at`, `resume_raw_at`: raw images in one pass, by a spool that can be overwritten |
//!
//! | definitions | content |
//! |---|---|
//! | `Flashing` | what a flash returns |
//! | `Laying` | what a call may touch |
//! | `Stepping` | what a step does |
//! | `Delivering` | one record for each promise of a delivery: spool, partition, intermediate states, costs |
//! | `Going`, `OnePiece` | a delivery between two pieces, and one piece of it |
//! | `Way`, `Causes` | how a piece is written to the spool, and why a delivery stops |
//! | `Devices` | what these records know of the devices |
//! | `Sparse`, `Raw` | which image is meant, and why it is refused |
#![tactic(auto)]

mod answer;
mod deliver_opened;
mod delivering;
mod flasher;
mod flashing;
mod piece;
mod raw;
mod raw_at;
mod sparse;
mod stage;
mod way;
mod write_part;

pub use answer::Delivered;
pub use deliver_opened::deliver_runs;
pub use flasher::Flasher;
pub use flashing::flash;
pub use raw::{deliver_raw, resume_raw};
pub use raw_at::{deliver_raw_at, resume_raw_at};
pub use sparse::{deliver, resume};
pub use stage::{FlashStage, Flashed};
