//! The commands of sparse images over any disk, as one call, and files that suit each of them: for tests over several
//! disks.
//!
//! | file | has |
//! |---|---|
//! | `commands.rt` | the commands, as one call |
//! | `rows.rt` | each command, and what its files hold |
#![tactic(auto)]

mod commands;
mod rows;

pub use commands::{Before, Command, Listed, PATHS, files, is_done};
pub use rows::{CommandRow, ROWS};
