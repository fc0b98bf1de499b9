//! The fields of boot images of every kind and version, and the arguments of `pack` that set them.
//!
//! The layers above rely on two facts:
//! - An argument is read where it has its format, and fails where it has not.
//! - A field is returned where a header has it.
//!
//! | file | content |
//! |---|---|
//! | `image_kind.rt` | the kinds of boot images |
//! | `fields.rt` | the fields that a header has |
//! | `os_word.rt` | the argument of `--os` |
//! | `fragment_word.rt` | the argument FRAGMENT |
//! | `board_word.rt` | the argument of `--board-id` |
//! | `loading.rt` | the load addresses of the parts |
//! | `unescaping.rt` | texts with escaped bytes |
#![tactic(auto)]

mod board_word;
mod fields;
mod fragment_word;
mod image_kind;
mod loading;
mod os_word;
mod unescaping;

pub use board_word::BoardWord;
pub use fields::{Address, TextField, address_of, front_text, id_of, os_version_of, text_field_of};
pub use fragment_word::FragmentWord;
pub use image_kind::ImageKind;
pub use loading::{AddressWords, BASE, base_of, is_sum, load_address};
pub use os_word::os_from_word;
pub use unescaping::unescaped;
