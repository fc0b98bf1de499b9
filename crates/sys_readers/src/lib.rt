//! Readers and writers of std as devices of `abt_io`. They do not model their content. All clauses on counts, lengths
//! and faults bind them.
//!
//! | file | has |
//! |---|---|
//! | `streams.rt` | a reader as an input, and a writer as an output |
//! | `tries.rt` | one call of the system, which is repeated when a signal interrupts it |
#![tactic(auto)]

mod streams;
mod tries;

pub use streams::{FromRead, ToWrite};
