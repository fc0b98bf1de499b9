//! What an opened boot image holds beside its fields and parts. This is why a check fails, and what packing the image
//! again leaves out.
//!
//! The layers above rely on two facts:
//! - `count_left_out` counts exactly the bytes of each kind that are not zero and have no place in a packed image.
//! - `end_of` returns the end of the image.
//!
//! | file | content |
//! |---|---|
//! | `set_bytes.rt` | counting and finding bytes that are not zero |
//! | `section_places.rt` | the positions of sections, and the end of the image |
//! | `left_out.rt` | what packing an image again leaves out |
//! | `reasons.rt` | why an answer of a check is no |
//! | `reason_lines.rt` | the line that says why |
#![tactic(auto)]

mod left_out;
mod reason_lines;
mod reasons;
mod section_places;
mod set_bytes;

pub use left_out::{Anew, LeftOut, count_left_out};
pub use reason_lines::Finding;
pub use reasons::{CheckAnswer, Findings, Reason, Unended, find_reasons};
pub use section_places::{end_of, place_of};
