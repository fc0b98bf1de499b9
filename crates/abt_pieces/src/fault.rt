//! The reasons for which cutting or sparsing is refused.
ghost use Rattle.std.specs.Prelude.{◌≡◌};
ghost use Rattle.abt_pieces.specs.Fault.{piece_fault_number, fault_of_run};

use abt_io::DeviceFault;
use abt_runs::RunFault;
use thiserror::Error;

/// Why a piece, or a sparse image, is not written.
#[derive(Clone, Copy, Debug, PartialEq, Eq, Drop, Error)]
pub enum PieceFault {
    /// The source failed.
    #[error("11 Read")]
    Read(DeviceFault),
    /// The output failed.
    #[error("12 Write")]
    Write(DeviceFault),
    /// The image has more than 2^32 - 1 blocks.
    #[error("13 TooLarge")]
    TooLarge,
    /// A later pass over the source contradicts an earlier one.
    #[error("14 SourceChanged")]
    SourceChanged,
    /// The block size is no multiple of 4 from 4 to 65,536.
    #[error("15 BadBlock {0}")]
    BadBlock(u32),
    /// The limit is below the least one for this block size.
    #[error("16 LimitTooSmall least {least}")]
    LimitTooSmall { least: u64 },
}

impl PieceFault {
    /// The number of the fault.
    pub fn number(&self) -> u32
        ensures { result ≡ piece_fault_number self.now }
    {
        match self {
            PieceFault::Read(_) => 11,
            PieceFault::Write(_) => 12,
            PieceFault::TooLarge => 13,
            PieceFault::SourceChanged => 14,
            PieceFault::BadBlock(_) => 15,
            PieceFault::LimitTooSmall { .. } => 16,
        }
    }
}

/// The same refusal of a pass over the source.
pub fn run_fault(fault: RunFault) -> PieceFault
    ensures { result ≡ fault_of_run fault }
{
    match fault {
        RunFault::Read(fault) => PieceFault::Read(fault),
        RunFault::TooLarge => PieceFault::TooLarge,
        RunFault::SourceChanged | RunFault::Sparse(_) => PieceFault::SourceChanged,
        RunFault::BadBlock(size) => PieceFault::BadBlock(size),
    }
}
