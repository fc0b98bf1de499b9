//! The commands of sparse images: selects the command and calls its body with the files that the arguments name. The
//! bodies are in `cmd_expand`, `cmd_cut` and `cmd_flash`. This crate proves, over any disk, that each task is done by
//! its own body, with each argument and number in its place.
//!
//! | file | content |
//! |---|---|
//! | `command.rt` | selecting the command of a task |
//! | `commands.rt` | each command: one call of its body |
//! | `task_files.rt` | the files that the arguments name |
#![tactic(auto)]

mod command;
mod commands;
mod task_files;

pub use command::sparse_command;
