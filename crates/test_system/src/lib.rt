//! Tests of the commands over the program's own disk, whose system is in memory. What runs here is what users run, but
//! for the calls of the operating system.
//!
//! | file | content |
//! |---|---|
//! | `commands.rt` | a command over that disk, what its files hold, and what it leaves |
//! | `same.rt` | each command leaves the same if reads and writes move few bytes, or are interrupted |
//! | `failing.rt` | calls fail in turn |
//! | `stopping.rt` | each command stops between any two of its calls |
#![tactic(auto)]

#[cfg(test)]
mod commands;
#[cfg(test)]
mod failing;
#[cfg(test)]
mod same;
#[cfg(test)]
mod stopping;
