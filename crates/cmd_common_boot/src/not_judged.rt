//! Why it is not judged, before OUT is opened, whether an image can be packed.

ghost use Rattle.std.specs.Prelude.{◌≡◌};
ghost use Rattle.sys_disk.specs.DiskCalls.{FailsOnly};
ghost use Rattle.cmd_common_boot.specs.NotJudged.{fault_of, refusals_of};

use crate::BootCommandFault;
use sys_disk::{Disk, NoMemory};
use sys_refusals::HostFault;

/// Why an image is not judged.
#[derive(Drop)]
pub enum NotJudged<'a> {
    /// For this fault.
    Fault(BootCommandFault<'a>),
    /// Because memory was refused.
    Memory(NoMemory),
}

impl<'a> NotJudged<'a> {
    /// The fault that the user is told. A refusal of memory is counted.
    pub fn counted<D: Disk>(self, disk: &mut D) -> BootCommandFault<'a>
        ensures fails { FailsOnly D.models (refusals_of self.entry) (D.held disk.old) (D.held disk.new)
            (D.world disk.old) (D.world disk.new) }
        ensures told { result ≡ fault_of self.entry }
    {
        match self {
            NotJudged::Fault(fault) => fault,
            NotJudged::Memory(refused) => {
                disk.no_memory(refused);
                BootCommandFault::Host(HostFault::Memory)
            }
        }
    }
}
