//! What words say, by the rows of a table.
#![tactic(auto)]

mod saying;

pub use saying::{
    Said, is_option_word, is_placed, is_said, placed_words, push_counted, read, said_by,
};
