//! The text that the program prints of a boot image: the values of its header, and the options that pack it again.
//!
//! The layers above rely on two facts:
//! - `report_info` prints exactly the text that is defined for the image, with the verdict of the check.
//! - `write_words` prints exactly the options of the image's header, sections and fragments.
//!
//! | file | content |
//! |---|---|
//! | `info.rt`, `info_lines.rt` | the text of `info`: the values of an image's header; the text of each line |
//! | `packing_words.rt`, `word_lines.rt` | the options that pack an image again, and the text of each |
#![tactic(auto)]

mod info;
mod info_lines;
mod packing_words;
mod word_lines;

pub use info::{InfoReport, report_info};
pub use info_lines::{Notation, put_number, put_two_digits};
pub use packing_words::write_words;
