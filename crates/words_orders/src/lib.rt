//! The words of the command line, and the order that they give.
//!
//! | file | has |
//! |---|---|
//! | `order.rt` | the orders and their tasks |
//! | `table.rt`, `rows.rt` | the table of the command line: its commands, and a command's row |
//! | `parser.rt` | the parser that clap makes of the table |
//! | `reading.rt` | reading the words: the order that the answers ask for |
//! | `answers.rt` | the answers of a command: what was given for each row of its table |
//! | `fault.rt` | why words are rejected |
//! | `completions.rt`, `completion_texts.rt` | the shells that can complete words, and what they read for that |
#![tactic(auto)]

mod answers;
mod completion_texts;
mod completions;
mod fault;
mod order;
mod parser;
mod reading;
mod rows;
mod table;

pub use answers::{Answer, Answers};
pub use completions::Shell;
pub use fault::WordsFault;
pub use order::{BootTask, Given, Order, PackOrder, Pieces, SparseTask, Task};
pub use parser::with_rows;
pub use reading::{answers_of, expand, order_of, told_by};
pub use rows::Work;
pub use table::{FLAG, PART, PATH, TEXT, VERSION, options};
