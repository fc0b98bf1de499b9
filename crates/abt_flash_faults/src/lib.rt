//! The reasons for which flashing or delivering an image is refused, each with its number and text. They are a crate
//! of their own, so that the messages of the commands depend on the faults and not on the flasher.
//!
//! | file | content |
//! |---|---|
//! | `fault.rt` | `FlashFault`, and `Cause`: why a delivery stopped after its first piece was begun |
#![tactic(auto)]

mod fault;

pub use fault::{Cause, FlashFault, sparse_fault};
