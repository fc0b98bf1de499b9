//! The meaning of single words of a command line: numbers, files of words, and the values that a row of the table
//! takes.
//!
//! | file | has |
//! |---|---|
//! | `rows.rt` | a row of the table of a command line, and the kinds of its value |
//! | `numbers.rt` | numbers in the notation of flashing guides: `4096`, `0x1000`, `4K` |
//! | `aosp_numbers.rt` | numbers, OS versions and patch levels as mkbootimg reads them |
//! | `word_files.rt` | words `@FILE`, which are replaced by the lines of a file |
#![tactic(auto)]

mod aosp_numbers;
mod numbers;
mod rows;
mod word_files;

pub use numbers::{number_in, number_word};
pub use rows::{Row, Value, WordPlace};
pub use word_files::{expanded, file_of};
