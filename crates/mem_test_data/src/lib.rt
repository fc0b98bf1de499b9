//! What the crates of tests share.
//!
//! | file | has |
//! |---|---|
//! | `vectors.rt` | sparse images and raw bytes, byte for byte |
//! | `counting.rt` | a device that counts the bytes that it gives and takes |
//! | `standing.rt` | whether a buffer that was filled with dots holds given bytes |
#![tactic(auto)]

pub mod counting;
pub mod standing;
pub mod vectors;
