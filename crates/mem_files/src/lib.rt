//! Files in memory, which model their content. They are used to test devices over files, and by the disk and the system in
//! memory.
//!
//! | file | has |
//! |---|---|
//! | `memory_file.rt` | an open file in memory |
//! | `stored.rt` | what files hold, and which of them a path leads to |
#![tactic(auto)]

mod memory_file;
mod stored;

pub use memory_file::OpenMemoryFile;
pub use stored::{MemoryFile, MemoryPath, file_at};
