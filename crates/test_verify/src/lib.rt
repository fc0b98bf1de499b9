//! Tests of verifying, over the public calls of `abt_verify`.
//!
//! | file | what it tests |
//! |---|---|
//! | `sparse_images.rt` | a table of sparse images, compared with what a partition holds |
//! | `raw_images.rt` | the same for raw images |
//! | `windows.rt` | parts that are longer than what a step compares |
//! | `stepping.rt` | the machines step by step, and the laws |
//! | `failing.rt` | one failing read at each position |
//! | `faults.rt` | the numbers and texts of the faults |
#![tactic(auto)]

#[cfg(test)]
mod failing;
#[cfg(test)]
mod faults;
#[cfg(test)]
mod raw_images;
#[cfg(test)]
mod sparse_images;
#[cfg(test)]
mod stepping;
#[cfg(test)]
mod windows;
