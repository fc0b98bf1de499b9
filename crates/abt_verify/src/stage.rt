//! The stage of a verifier, and what is returned.

use crate::fault::VerifyFault;

/// The stage of a verifier.
#[derive(Clone, Copy, Debug, PartialEq, Eq, Drop)]
pub enum VerifyStage {
    /// The image is read and compared.
    Going,
    /// The partition holds all of the image.
    Done,
    /// Every step returns this fault.
    Failed(VerifyFault),
}

/// What was verified.
#[derive(Clone, Copy, Debug, PartialEq, Eq, Drop)]
pub struct Verified {
    /// How many raw and fill blocks the partition holds; of a raw image, all blocks.
    pub blocks: u64,
}
