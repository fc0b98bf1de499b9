//! The devices that all bytes come from and go to, the window that the bytes pass through, and the counts of the work
//! done.
//!
//! **The contract for the layers above** is `device`, with five traits. For each call their clauses state what it
//! moves, what it leaves unchanged, when it fails, and what a crash may leave. All layers above are generic over
//! these traits, so their proofs hold for every device. A device may model its content; then contracts know its
//! bytes. A device that does not, such as a file, is still bound by all clauses on counts, lengths and faults.
//!
//! No call of this crate allocates memory. The values that only contracts see (`Tally`, `Log`, `History`) take no
//! bytes at run time, and only their own calls change them. They bind code that is generic over the traits. A caller
//! that takes a concrete device apart could leave them behind.
//!
//! | file, in reading order | content |
//! |---|---|
//! | `window.rt` | `Window`, the 65,536 bytes that every call borrows |
//! | `fill_window.rt` | fills the window with one word, or with one byte |
//! | `meter.rt`, `tally.rt`, `log.rt`, `history.rt` | what contracts count, with no bytes at run time |
//! | `device.rt` | the five traits |
//! | `overwrite.rt` | an output whose bytes can be overwritten |
//! | `front_last.rt` | an output that writes its first bytes last |
//! | `full_reads.rt`, `passing.rt`, `write_all.rt`, `copying.rt` | functions that move bytes, generic over the traits |
//! | `slices.rt` | borrowed memory as a source and as an output, which model their content |
//! | `bytes.rt` | facts about bytes, which `slices.rt` uses |
//! | `forward.rt` | a source read as an input, from byte 0 on |
//! | `laws.rt` | how intermediate states of a partition join |
//!
//! | definitions | content |
//! |---|---|
//! | `Bytes`, `BytesLaws` | lists that are bytes |
//! | `Count`, `Calls`, `Called` | how many bytes a call moves, and what each call does |
//! | `Frame`, `Lent` | what a call leaves unchanged, and what it leaves of the devices that it borrows |
//! | `Moment` | what a crash may leave |
//! | `Over`, `Held`, `Window` | what an overwrite leaves, what a spool holds, what the window holds |
//! | `Cause` | which device failed |
#![tactic(auto)]

mod bytes;
mod copying;
mod device;
mod fill_window;
mod forward;
mod front_last;
mod full_reads;
mod history;
mod laws;
mod log;
mod meter;
mod overwrite;
mod passing;
mod slices;
mod tally;
mod window;
mod write_all;

pub use bytes::{are_bytes, put_part, read_part};
pub use copying::{CopyFault, copy_range, copy_step, write_zeros};
pub use device::{DeviceFault, Input, Output, Partition, Source, Spool};
pub use fill_window::{WORDS, lay_byte, lay_word};
pub use forward::Forward;
pub use front_last::{FRONT, FrontLast};
pub use full_reads::{FullRead, read_full, read_full_at};
pub use history::History;
pub use laws::{moments_join, runs_join, untouched_bytes_last};
pub use log::Log;
pub use meter::Meter;
pub use overwrite::Overwrite;
pub use passing::pass_full;
pub use slices::{SliceOutput, SliceSource};
pub use tally::Tally;
pub use window::{WINDOW, Window};
pub use write_all::{write_all_at, write_out, write_over_all};
