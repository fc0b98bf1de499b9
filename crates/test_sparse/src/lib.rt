//! Tests of sparse images: their records, reading, classed blocks, cutting and sparsing, over the public calls of
//! `abt_sparse`, `abt_chunks`, `abt_runs`, `abt_pieces`, `abt_sparsify` and `abt_placed`.
//!
//! | file | what it tests |
//! |---|---|
//! | `records.rt` | the bytes of the two records, and the texts of the faults |
//! | `refusals.rt` | a table of invalid images, expanded and opened |
//! | `expanding.rt` | expanding an image that is read forward |
//! | `listing.rt` | listing an image that is read forward |
//! | `feeding.rt` | an image that is fed in pieces of any length |
//! | `walks.rt` | an image as classed blocks |
//! | `sparse_pieces.rt` | cutting sparse images |
//! | `raw_pieces.rt` | cutting raw images |
//! | `sparsing.rt` | a raw image written as a sparse one, from end to end or where written bytes can be overwritten |
#![tactic(auto)]

#[cfg(test)]
mod expanding;
#[cfg(test)]
mod feeding;
#[cfg(test)]
mod listing;
#[cfg(test)]
mod raw_pieces;
#[cfg(test)]
mod records;
#[cfg(test)]
mod refusals;
#[cfg(test)]
mod sparse_pieces;
#[cfg(test)]
mod sparsing;
#[cfg(test)]
mod walks;
