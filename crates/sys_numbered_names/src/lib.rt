//! Names with a number after them and a point between, such as the pieces of a cut: `PREFIX.1` and so on.
//!
//! | file | has |
//! |---|---|
//! | `names.rt` | the number after a name, and the least of several |
//! | `folder.rt` | which numbered files a folder has |
#![tactic(auto)]

mod folder;
mod names;

pub use folder::next_number;
pub use names::{lesser, number_behind};
