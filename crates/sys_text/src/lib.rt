//! Text into an output, without allocation.
//!
//! A `Text` collects text in a small buffer and sends it in whole lines. The layers above rely on this:
//!
//! - Once `finish` returns Ok, the output has taken everything that was added, in that order, and nothing else.
//! - After a write that failed, the output holds a prefix of the text, and `finish` returns the fault.
//!
//! | file | has |
//! |---|---|
//! | `text_output.rt`, `held.rt` | text into an output, and its buffer |
//! | `shown_path.rt` | a path as a terminal can show it |
//! | `progress_line.rt` | the line that shows the progress of a command |
#![tactic(auto)]

mod held;
mod progress_line;
mod shown_path;
mod text_output;

pub use progress_line::ProgressLine;
pub use shown_path::ShownPath;
pub use text_output::{Text, print_line};
