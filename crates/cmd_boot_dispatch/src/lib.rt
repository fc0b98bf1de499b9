//! The commands `pack`, `repack`, `unpack` and `info` of boot images, from their arguments to files and the report.
//! Their bodies are in `cmd_unpack`, `cmd_info` and `cmd_pack`, the meaning of their arguments is in `cmd_common_boot`.
//! This crate selects the command, and decodes the arguments of `pack` and `repack` to bytes.
//!
//! | file | content |
//! |---|---|
//! | `command.rt` | selecting the command |
//! | `pack_order.rt` | the arguments of `pack` and `repack`, as bytes |
#![tactic(auto)]

mod command;
mod pack_order;

pub use cmd_common_boot::{BootCommandFault, BootOutcome};
pub use command::{BootCommand, BootCommandKind, boot_command};
