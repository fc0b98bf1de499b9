//! Tests of the commands of sparse images over a disk in memory. Each command runs in three ways:
//! - once over a disk where no call fails;
//! - over a disk where each call, each read and each write fails in turn;
//! - over a disk with two paths to one file.
//!
//! What a contract states of every disk needs no test. These tests check results and files, and that the disk counts
//! what fails: a command fails exactly where something has failed.
//!
//! | file | content |
//! |---|---|
//! | `made.rt` | a disk of given paths and files, and what it holds |
//! | `commands.rt` | a command over such a disk |
//! | `leaving.rt` | what each command leaves, of valid files and of invalid ones |
//! | `failing.rt` | what each command leaves where something fails, and where its output is IN's file |
//! | `expanding.rt` | the faults of `expand` |
//! | `sparsing.rt` | the output of `sparse` |
#![tactic(auto)]

#[cfg(test)]
mod commands;
#[cfg(test)]
mod expanding;
#[cfg(test)]
mod failing;
#[cfg(test)]
mod leaving;
#[cfg(test)]
mod made;
#[cfg(test)]
mod sparsing;
