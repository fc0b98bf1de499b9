//! The reasons for which flashing or delivering is refused.

ghost use Rattle.std.specs.Prelude.{◌≡◌};
ghost use Rattle.abt_flash_faults.specs.Fault.{cause_number, flash_fault_number, fault_of_sparse};

use abt_io::DeviceFault;
use abt_sparse::SparseFault;
use thiserror::Error;

/// Why a delivery stopped once its first piece was begun.
#[derive(Clone, Copy, Debug, PartialEq, Eq, Drop, Error)]
pub enum Cause {
    /// The source failed.
    #[error("11")]
    Read(DeviceFault),
    /// The partition failed.
    #[error("12")]
    Write(DeviceFault),
    /// A later pass over the source contradicts an earlier one.
    #[error("14")]
    SourceChanged,
    /// The partition could not be synced.
    #[error("18")]
    Sync(DeviceFault),
    /// The spool was not cleared or written.
    #[error("32")]
    SpoolWrite(DeviceFault),
    /// The spool was not read.
    #[error("33")]
    SpoolRead(DeviceFault),
    /// What the spool gave back was not the piece that was written.
    #[error("34")]
    SpoolChanged,
}

impl Cause {
    /// The number of the cause in the list of all faults.
    pub fn number(&self) -> u32
        ensures { result ≡ cause_number self.now }
    {
        match self {
            Cause::Read(_) => 11,
            Cause::Write(_) => 12,
            Cause::SourceChanged => 14,
            Cause::Sync(_) => 18,
            Cause::SpoolWrite(_) => 32,
            Cause::SpoolRead(_) => 33,
            Cause::SpoolChanged => 34,
        }
    }
}

/// Why an image is not flashed or delivered.
#[derive(Clone, Copy, Debug, PartialEq, Eq, Drop, Error)]
pub enum FlashFault {
    /// 1 to 10: the bytes are no sparse image.
    #[error("{0}")]
    Sparse(SparseFault),
    /// The input or source failed.
    #[error("11 Read")]
    Read(DeviceFault),
    /// The partition was not written.
    #[error("12 Write")]
    Write(DeviceFault),
    /// The image has more than 2^32 - 1 blocks.
    #[error("13 TooLarge")]
    TooLarge,
    /// A later pass over the source contradicts an earlier one.
    #[error("14 SourceChanged")]
    SourceChanged,
    /// The block size, in bytes, is no multiple of 4 from 4 to 65,536.
    #[error("15 BadBlock {0}")]
    BadBlock(u32),
    /// The limit is below the least one for this block size.
    #[error("16 LimitTooSmall least {least}")]
    LimitTooSmall { least: u64 },
    /// The partition has not the bytes that all blocks of the image take.
    #[error("17 PartitionTooSmall need {need}")]
    PartitionTooSmall { need: u64 },
    /// The partition was not synced.
    #[error("18 Sync")]
    Sync(DeviceFault),
    /// The delivery stopped in this piece, counted from 1.
    #[error("19 Stopped piece {piece} cause {cause}")]
    Stopped { piece: u32, cause: Cause },
    /// The image has only so many pieces.
    #[error("31 NoSuchPiece pieces {pieces}")]
    NoSuchPiece { pieces: u32 },
}

impl FlashFault {
    /// The number of the fault in the list of all faults.
    pub fn number(&self) -> u32
        ensures { result ≡ flash_fault_number self.now }
    {
        match self {
            FlashFault::Sparse(fault) => fault.number(),
            FlashFault::Read(_) => 11,
            FlashFault::Write(_) => 12,
            FlashFault::TooLarge => 13,
            FlashFault::SourceChanged => 14,
            FlashFault::BadBlock(_) => 15,
            FlashFault::LimitTooSmall { .. } => 16,
            FlashFault::PartitionTooSmall { .. } => 17,
            FlashFault::Sync(_) => 18,
            FlashFault::Stopped { .. } => 19,
            FlashFault::NoSuchPiece { .. } => 31,
        }
    }
}

/// The same fault of the machine that reads.
pub fn sparse_fault(fault: SparseFault) -> FlashFault
    ensures { result ≡ fault_of_sparse fault }
{
    match fault {
        SparseFault::Read(fault) => FlashFault::Read(fault),
        SparseFault::Write(fault) => FlashFault::Write(fault),
        _ => FlashFault::Sparse(fault),
    }
}
