//! The system, by calls of std. Each function makes one call of std. It branches only on its arguments, or on what the
//! call returns.
//!
//! | file | has |
//! |---|---|
//! | `os_file.rt` | one open file, or a standard stream |
//! | `system.rt` | opening files, and identifying them |
#![tactic(auto)]

mod os_file;
mod system;

pub use os_file::OsFile;
pub use system::OsSystem;
