//! The text that the program prints of a sparse image: its listing, and the demonstration without arguments.
//!
//! `report_list` prints exactly the text that is defined for the image, also where the reader of the output waits for
//! each line. `demo` prints exactly its one line.
//!
//! | file | content |
//! |---|---|
//! | `listing.rt`, `lines.rt` | printing the listing of an image, and the text of its lines |
//! | `demonstration.rt`, `shown.rt` | expanding the built-in image, and the output that keeps the first twelve bytes |
#![tactic(auto)]

mod demonstration;
mod lines;
mod listing;
mod shown;

pub use demonstration::{IMAGE, demo};
pub use listing::report_list;
