//! Verifies that a partition holds an image: a sparse image read forward, or a raw one.
//!
//! The layers above use the contracts of [`verify`] and [`verify_raw`].
//!
//! - `verify` returns Ok exactly where an image is at the beginning of the input, each byte of its raw and fill
//!   blocks is at its place of the partition, and no device fails.
//! - Otherwise it returns the first byte that differs, or the fault that the input has; all that comes before is
//!   held.
//! - `verify_raw` does the same for every byte of a raw image.
//!
//! Don't-care blocks are passed over. The partition is a source: nothing is written to it. No call allocates memory.
//! A step holds at most half a window of the image, and beside it as much of the partition.
//!
//! | file | content |
//! |---|---|
//! | `fault.rt` | `VerifyFault`: the reasons of a refusal |
//! | `stage.rt` | `VerifyStage`, and what is returned |
//! | `alike.rt` | counts leading bytes that are the same |
//! | `comparing.rt` | compares a part of an image with its place |
//! | `verifier.rt` | `Verifier`, verifying a sparse image in steps |
//! | `verifying.rt` | `verify` |
//! | `raw_verifier.rt` | `RawVerifier`, verifying a raw image in steps |
//! | `raw_verifying.rt` | `verify_raw` |
//! | `laws.rt` | how verifying and flashing are related |
//!
//! `specs/Standing.antt` defines when a partition holds an image and which byte is the first that differs.
//! `specs/Verifying.antt` and `specs/Raw.antt` define what is returned, `specs/Stepping.antt` what a step does, and
//! `specs/Comparing.antt` what one comparison does.
#![tactic(auto)]

mod alike;
mod comparing;
mod fault;
mod laws;
mod raw_verifier;
mod raw_verifying;
mod stage;
mod verifier;
mod verifying;

pub use fault::VerifyFault;
pub use laws::{unwritten_partition_stays, verifying_is_right};
pub use raw_verifier::RawVerifier;
pub use raw_verifying::verify_raw;
pub use stage::{Verified, VerifyStage};
pub use verifier::Verifier;
pub use verifying::verify;
