//! The reasons for which an image is not found on a partition.

ghost use Rattle.std.specs.Prelude.{◌≡◌};
ghost use Rattle.abt_verify.specs.Fault.{verify_fault_number, verify_fault_of};

use abt_io::DeviceFault;
use abt_sparse::SparseFault;
use thiserror::Error;

/// Why an image is not found on a partition.
#[derive(Clone, Copy, Debug, PartialEq, Eq, Drop, Error)]
pub enum VerifyFault {
    /// 1 to 10: the bytes are no sparse image.
    #[error("{0}")]
    Sparse(SparseFault),
    /// The input or source failed.
    #[error("11 Read")]
    Read(DeviceFault),
    /// The source has not the bytes that it said it had.
    #[error("14 SourceChanged")]
    SourceChanged,
    /// The block size, in bytes, is no multiple of 4 from 4 to 65,536.
    #[error("15 BadBlock {0}")]
    BadBlock(u32),
    /// This byte of the partition, counted from 0, is the first that is not the image's, or that is missing.
    #[error("35 Differs at {at}")]
    Differs { at: u64 },
    /// The partition was not read.
    #[error("37 PartitionRead")]
    PartitionRead(DeviceFault),
}

impl VerifyFault {
    /// The number of the fault in the list of all faults.
    pub fn number(&self) -> u32
        ensures { result ≡ verify_fault_number self.now }
    {
        match self {
            VerifyFault::Sparse(fault) => fault.number(),
            VerifyFault::Read(_) => 11,
            VerifyFault::SourceChanged => 14,
            VerifyFault::BadBlock(_) => 15,
            VerifyFault::Differs { .. } => 35,
            VerifyFault::PartitionRead(_) => 37,
        }
    }
}

/// A fault of the machine that reads an image.
pub(crate) fn sparse_fault(fault: SparseFault) -> VerifyFault
    ensures { result ≡ verify_fault_of fault }
{
    match fault {
        SparseFault::Read(reason) => VerifyFault::Read(reason),
        other => VerifyFault::Sparse(other),
    }
}
