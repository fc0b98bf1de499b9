//! Tests of the source of `sys_devices` that reads ahead. They run over a file in memory, and over one whose reads
//! are short, fail and are counted.
//!
//! | file | content |
//! |---|---|
//! | `short_file.rt` | a file in memory whose reads return few bytes, fail at a chosen call, and are counted |
//! | `sources.rt` | the tests |
#![tactic(auto)]

#[cfg(test)]
mod short_file;
#[cfg(test)]
mod sources;
