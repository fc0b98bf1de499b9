//! The laws of sparse images, each the contract of a function that does nothing, and worked images. No code that runs
//! depends on them.
//!
//! | file | has |
//! |---|---|
//! | `theorems.rt` | the laws that `abt_sparse/specs/Laws.antt` states, and what is read of worked images |
#![tactic(auto)]

mod theorems;

pub use theorems::{
    carries_raw, each_piece, ends_early, few_bytes, fewest_pieces, from_piece, has_blocks, in_turn,
    keeps_raw, lays_blocks, mends, one_code, one_cutting, one_grouping, one_outcome, pieces_read,
    reads_back, same_from_raw, same_pieces, weighs, worked_faults, worked_images, worked_pieces,
};
