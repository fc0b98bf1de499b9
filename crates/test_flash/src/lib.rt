//! Tests of flashing, delivering and resuming, over the public calls of `abt_flash`.
//!
//! | file | what it tests |
//! |---|---|
//! | `flashing.rt` | a table of images, each flashed as it is read; the machine step by step |
//! | `delivering.rt` | a table of images that go through a spool in pieces, from the first or from a later one |
//! | `raw_images.rt` | the same for raw images, without an intermediate sparse image |
//! | `counting.rt` | what a delivery of a thousand chunks reads and writes |
//! | `failing.rt` | one failing call of each device at each position |
//! | `resuming.rt` | a stop at each write, a crash, and resuming |
//! | `boot_images.rt` | a boot image that is packed, sparsed, delivered, opened and unpacked |
//! | `faults.rt` | the numbers and texts of the faults |
#![tactic(auto)]

#[cfg(test)]
mod boot_images;
#[cfg(test)]
mod counting;
#[cfg(test)]
mod delivering;
#[cfg(test)]
mod failing;
#[cfg(test)]
mod faults;
#[cfg(test)]
mod flashing;
#[cfg(test)]
mod raw_images;
#[cfg(test)]
mod resuming;
