//! An open file of the system: its calls are a trait, and the contracts of the calls are what POSIX promises of each.
//!
//! The devices are generic over this trait. They are proved for every file that models its content. A file in memory
//! models its content. A file of the system models nothing, and runs the same code. `sys_std` has it.
//!
//! | file | has |
//! |---|---|
//! | `system_file.rt` | the trait of one open file |
//! | `system.rt` | the trait of a system, which opens files and identifies them |
//! | `opening.rt` | how a file is opened |
//! | `stat.rt` | what `stat` returns for a file, and what follows from that |
//! | `tries.rt` | one call that is repeated when a signal interrupts it |
//! | `held_bytes.rt` | a write over buffered bytes |
#![tactic(auto)]

mod held_bytes;
mod opening;
mod stat;
mod system;
mod system_file;
mod tries;

pub use held_bytes::put_held;
pub use opening::Opening;
pub use stat::{Kind, Stat};
pub use system::System;
pub use system_file::{Stamp, SystemFile};
pub use tries::{read, read_at, write, write_all, write_at, write_front};
