//! Devices for tests and statements. There are a partition and a spool over borrowed memory, which model their bytes.
//! The others move few bytes a call, fail, tear a write, claim a length, change or lose power. Their contracts state
//! exactly when. The program uses none of these devices.
//!
//! | file | has |
//! |---|---|
//! | `partition.rt`, `spool.rt` | a borrowed slice as a partition, and as a spool |
//! | `cells.rt`, `bytes.rt` | a borrowed slice in a struct of its own; writing over runs of bytes |
//! | `crash.rt`, `pick.rt` | a partition that loses power, and what it then leaves |
//! | `cut.rt` | a device that moves few bytes a call |
//! | `faulty.rt` | a device of which one call fails |
//! | `marred.rt` | a partition that tears a write |
//! | `long.rt`, `switch.rt` | a source that claims a length, and one that changes |
#![tactic(auto)]

mod bytes;
mod cells;
mod crash;
mod cut;
mod faulty;
mod long;
mod marred;
mod partition;
mod pick;
mod spool;
mod switch;

pub use cells::Cells;
pub use crash::CrashPartition;
pub use cut::Cut;
pub use faulty::Faulty;
pub use long::Long;
pub use marred::Marred;
pub use partition::SlicePartition;
pub use pick::Pick;
pub use spool::SliceSpool;
pub use switch::SwitchSource;
