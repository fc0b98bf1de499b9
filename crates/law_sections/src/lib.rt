//! Laws of boot images and vendor boot images, for the layers above and for tests. No code that runs depends on them.
//!
//! | file | has |
//! |---|---|
//! | `laws.rt` | laws about the definitions of `abt_sections`, each the contract of a function that does nothing |
//! | `inputs.rt` | that what the packer accepts fulfils the premises of these laws |
#![tactic(auto)]

mod inputs;
mod laws;

pub use inputs::{boot_input, vendor_input};
pub use laws::{
    canonical_is_packed, image_is_whole, no_magic_is_no_image, packed_holds_parts, packed_is_image,
};
