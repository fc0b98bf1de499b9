//! A command over the disk in memory, which models its files, so that every clause binds it. The program does not use
//! it. It shows that a disk exists for which the statements about a command over any disk hold in full.
//!
//! | file | has |
//! |---|---|
//! | `flashing.rt` | `flash` over a disk in memory |
#![tactic(auto)]

mod flashing;

pub use flashing::flash_in_memory;
