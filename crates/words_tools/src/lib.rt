//! The words of AOSP's tools, and the orders that they give.
//!
//! | file | has |
//! |---|---|
//! | `tools.rt` | the tools, and which of them the words call |
//! | `table.rt`, `parser.rt` | the words and options of each tool, and their parser |
//! | `fragments.rt` | the words of ramdisk fragments, separated from the others |
//! | `hyphens.rt` | which words with a hyphen are values |
//! | `orders.rt`, `mkbootimg.rt`, `groups.rt` | the orders that the answers ask for |
//! | `unpack_bootimg.rt` | the image that unpack_bootimg is to unpack |
//! | `texts.rt` | texts that the orders need and that are no words |
//! | `shortening.rt` | whether the answers are among the words |
#![tactic(auto)]

mod fragments;
mod groups;
mod hyphens;
mod mkbootimg;
mod orders;
mod parser;
mod shortening;
mod table;
mod texts;
mod tools;
mod unpack_bootimg;

pub use fragments::{Parted, part_words};
pub use orders::{Orders, orders_of, texts_of};
pub use tools::{Tool, called};
pub use unpack_bootimg::{UnpackImage, UnpackText};
