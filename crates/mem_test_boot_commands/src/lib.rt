//! The commands of boot images over any disk, as one call, and an image that suits each of them: for tests over several
//! disks.
//!
//! | file | has |
//! |---|---|
//! | `commands.rt` | the commands, as one call |
//! | `orders.rt` | the arguments of `pack` and `repack` |
//! | `vendor.rt` | a vendor boot image, which is IN of each of them |
#![tactic(auto)]

mod commands;
mod orders;
mod vendor;

pub use commands::{BootCall, EACH, is_done};
pub use vendor::image;
