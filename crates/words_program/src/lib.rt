//! The steps before a command of the program: the files that words name are read, and the user is told of wrong words.
//!
//! | file | has |
//! |---|---|
//! | `word_files.rt` | reading the files of words `@FILE` |
//! | `mistakes.rt` | the messages about wrong words |
//! | `telling.rt` | other texts and messages that no command prints |
#![tactic(auto)]

mod mistakes;
mod telling;
mod word_files;

pub use mistakes::wrong_words;
pub use telling::{print, refused};
pub use word_files::read_word_files;
