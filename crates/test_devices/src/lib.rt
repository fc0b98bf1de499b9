//! Tests of the devices, the movers and the counts of `abt_io`, over its public calls.
//!
//! What a contract states of every device is not tested again for each of them. A test shows that a call can succeed,
//! which bytes it gives for known input, and what no contract can state of a file.
//!
//! | file | what it tests |
//! |---|---|
//! | `calls.rt` | each call of a spool and of a partition within its precondition; counts take no bytes |
//! | `movers.rt` | the movers, over the devices in memory |
//! | `overwriting.rt` | bytes that are overwritten, and first bytes that are written last |
//! | `failing.rt` | each call of a device fails in turn; sources that give a wrong length or change |
//! | `crashes.rt` | what a crash leaves after each call, with each choice of bytes |
//! | `files.rt` | devices over real files |
//! | `streams.rt` | readers and writers that are interrupted or fail |
#![tactic(auto)]

#[cfg(test)]
mod calls;
#[cfg(test)]
mod crashes;
#[cfg(test)]
mod failing;
#[cfg(test)]
mod files;
#[cfg(test)]
mod movers;
#[cfg(test)]
mod overwriting;
#[cfg(test)]
mod streams;
