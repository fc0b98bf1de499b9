//! Laws about the way back. The words that `write_words` writes say what an image has. Packing makes the image again
//! from them and from the parts that unpacking writes. No other code depends on these laws.
//!
//! | file | has |
//! |---|---|
//! | `words_laws.rt` | the laws, each the contract of a function that does nothing |
//! | `specs/Said.antt` | what the words of `pack` say of an image |
//! | `specs/WayBack.antt` | the steps of the way back |
#![tactic(auto)]

mod words_laws;

pub use words_laws::{
    canonical_is_said, canonical_packs_again, header_is_held, image_is_held, words_pack_again,
    words_say_the_header,
};
