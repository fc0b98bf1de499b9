//! What a command prints, and its progress. This crate opens nothing.
//!
//! | file | has |
//! |---|---|
//! | `standard_output.rt` | standard output, and a log of all that it was given |
//! | `report.rt` | the lines that a command prints, and on which stream |
//! | `progress.rt` | the progress of a command: a line on a terminal |
//! | `carried.rt` | devices whose bytes are counted for that line |
#![tactic(auto)]

mod carried;
mod progress;
mod report;
mod standard_output;

pub use carried::Carried;
pub use progress::Progress;
pub use report::Report;
pub use standard_output::StandardOutput;
