//! Sparse images and boot images for programs written in C. It is a static library that allocates no memory and calls
//! nothing back. Between two calls it keeps nothing but the numbers in the state that the caller passes.
//! `include/abootimg.h` at the top of the repository says how each call is used.
//!
//! The contract of a call on a sparse image is that of [`abt_sparse_next`]. Whatever bytes follow those that it used,
//! what lay ahead of the state is the part that it reports, and then what lies ahead of the state after it. So the
//! parts of an image are the same wherever the caller cuts its input. Each call has a result for every state: it
//! returns fault 90 for a state that none of the calls left, and leaves that state as it is.
//!
//! | file | content |
//! |---|---|
//! | `state.rt` | the numbers that C keeps, and those that are reported to it |
//! | `stored.rt` | from these numbers to the reading machine, with all its conditions checked, and back |
//! | `told.rt` | a part as numbers |
//! | `sparse.rt` | the calls on sparse images |
//! | `sparse_header.rt` | the calls on the headers of a sparse image |
//! | `boot.rt`, `boot_told.rt` | the call on boot images, and what it reports |
//! | `boot_fields.rt` | the calls on the fields of a boot header and on the fragments of a ramdisk |
#![tactic(auto)]

mod boot;
mod boot_fields;
mod boot_told;
mod sparse;
mod sparse_header;
mod state;
mod stored;
mod told;

pub use boot::abt_boot_info;
pub use boot_fields::{AbtFields, AbtFragment, abt_boot_fields, abt_boot_fragment};
pub use boot_told::{AbtBoot, AbtSection};
pub use sparse::{abt_sparse_init, abt_sparse_last, abt_sparse_next, abt_sparse_size};
pub use sparse_header::{AbtChunk, AbtHeader, abt_sparse_chunk, abt_sparse_header};
pub use state::{AbtPart, AbtSize, AbtSparse};
