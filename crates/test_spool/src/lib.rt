//! Tests of the gathering spool of `sys_devices`, and of the outputs of `sys_outputs`, over files whose calls fail.
//!
//! | file | content |
//! |---|---|
//! | `faulty_file.rt` | a file of the system of which chosen calls fail |
//! | `taken.rt` | what a spool should hold, and whether it does |
//! | `spools.rt` | the tests of the spool |
//! | `given.rt` | what was written to an output, and its calls |
//! | `outputs.rt` | the tests of outputs |
#![tactic(auto)]

#[cfg(test)]
mod faulty_file;
#[cfg(test)]
mod given;
#[cfg(test)]
mod outputs;
#[cfg(test)]
mod spools;
#[cfg(test)]
mod taken;
