//! A system in memory, which models its files. The program's own disk runs over it as over the files of the operating
//! system. So each clause of that disk binds there. Calls can fail, be short or be interrupted, and a run can be looked at
//! as it would be if it had stopped between any two of them.
//!
//! | file | has |
//! |---|---|
//! | `system.rt` | its files, the paths that lead to them, and the calls of a system |
//! | `table.rt` | which file a path leads to, and what each file holds |
//! | `copied_file.rt` | one open file |
//! | `names.rt` | the names of a folder |
//! | `calls.rt` | which call fails, is short or is interrupted |
//! | `journal.rt` | what was written, and what a stop leaves of it |
#![tactic(auto)]

mod calls;
mod copied_file;
mod journal;
mod names;
mod system;
mod table;

pub use calls::{Calls, Way};
pub use copied_file::CopiedFile;
pub use journal::{Crash, Journal};
pub use names::MemoryNames;
pub use system::MemorySystem;
pub use table::Table;
