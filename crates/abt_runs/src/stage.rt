//! How far the opening of a sparse image has come, and what a step of it returns.
use crate::RunFault;

/// What a step returns that was not refused.
#[derive(Clone, Copy, Debug, PartialEq, Eq, Drop)]
pub enum OpeningProgress {
    /// There is more to do.
    More,
    /// All is done.
    Done,
}

/// What an opening does next.
#[derive(Clone, Copy, Debug, PartialEq, Eq, Drop)]
pub enum OpeningStage {
    /// It reads the image's header.
    Header,
    /// It reads the next chunk's header, or tests the count of blocks after the last.
    Chunks,
    /// The image is opened.
    Done,
    /// It was refused so, and is again.
    Failed(RunFault),
}
