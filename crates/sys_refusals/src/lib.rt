//! The errors of commands, and the messages about them. This crate opens nothing.
//!
//! A `Refusal` has three things in one value: the fault, the file that it is about, and the system's reason. A fault of
//! a crate above implements `Told`, which gives the first line of its message and the device that it is about.
//! `HostFault` has the faults of files.
//!
//! | file | has |
//! |---|---|
//! | `place.rt` | a file, as the words name it and as a message shows it |
//! | `refusal.rt` | why a command fails, and for which file |
//! | `told.rt` | the message about a fault |
#![tactic(auto)]

mod place;
mod refusal;
mod told;

pub use place::FileArg;
pub use refusal::{About, HostFault, HostRefusal, Refusal, Sides};
pub use told::{Magic, Side, Told};
