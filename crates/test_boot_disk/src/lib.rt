//! Tests of the commands of boot images, over a disk in memory. Each command runs in three ways:
//! - once over a disk where no call fails;
//! - over a disk where each call, each read and each write fails in turn;
//! - over a disk with two paths to one file.
//!
//! | file | what it tests |
//! |---|---|
//! | `made.rt` | a disk that holds a vendor boot image |
//! | `commands.rt` | the commands over that disk, as one call |
//! | `failing.rt` | each command fails exactly where something has failed |
//! | `informing.rt` | `info`: its check answers no |
//! | `packing.rt` | what `pack` and `repack` leave of OUT |
//! | `unpacking.rt` | `unpack`: each part under its name; two paths to one file |
#![tactic(auto)]

#[cfg(test)]
mod commands;
#[cfg(test)]
mod failing;
#[cfg(test)]
mod informing;
#[cfg(test)]
mod made;
#[cfg(test)]
mod packing;
#[cfg(test)]
mod unpacking;
