//! The texts of a boot image that unpack_bootimg prints.
//!
//! The layers above rely on two facts:
//! - `write_aosp_text` writes exactly the text that is defined for the image's header and its table of fragments.
//! - The arguments are quoted as a shell reads them.
//!
//! | file | content |
//! |---|---|
//! | `text.rt` | a text of an image: its beginning, its ramdisk fragments, and its end |
//! | `info.rt` | the lines of the header's values |
//! | `rows.rt` | one line: a label and a value |
//! | `words.rt` | the arguments of mkbootimg that make an image again |
//! | `options.rt` | each option of these arguments, with its value |
//! | `shell.rt` | quoting an argument for a shell |
//! | `files.rt` | the names of the files to which the parts are written |
#![tactic(auto)]

mod files;
mod info;
mod options;
mod rows;
mod shell;
mod text;
mod words;

pub use files::{fragment_file, has_table, section_file};
pub use options::Ending;
pub use text::{AospText, write_aosp_text};
