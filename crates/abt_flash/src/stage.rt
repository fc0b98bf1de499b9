//! The stage of a flasher, and what a flash returns.

use abt_flash_faults::FlashFault;

/// The stage of a flasher.
#[derive(Clone, Copy, Debug, PartialEq, Eq, Drop)]
pub enum FlashStage {
    /// The image is read and written.
    Going,
    /// It has been written and synced.
    Done,
    /// Every step returns this fault.
    Failed(FlashFault),
}

/// What was flashed.
#[derive(Clone, Copy, Debug, PartialEq, Eq, Drop)]
pub struct Flashed {
    /// How many raw and fill blocks were written.
    pub blocks: u32,
}
