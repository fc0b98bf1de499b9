//! Outputs over any open file.
//!
//! | file | has |
//! |---|---|
//! | `stream_file.rt` | an output that is written from its beginning on, such as a pipe |
//! | `hole_file.rt` | an output in which zeros may be a hole |
//! | `held_file.rt`, `room.rt` | an output that collects small writes and has headers written late; its memory |
#![tactic(auto)]

mod held_file;
mod hole_file;
mod room;
mod stream_file;

pub use held_file::HeldFile;
pub use hole_file::HoleFile;
pub use room::Room;
pub use stream_file::StreamFile;
