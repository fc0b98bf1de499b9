//! An input of a disk in memory that is read at any offset.

ghost use Rattle.std.specs.Prelude.{◌≡◌, true, refl, length};
ghost use Rattle.abt_io.specs.Bytes.{AreBytes};
ghost use Rattle.mem_disk.specs.Memory.{CopiesFrom, IsUnused};

use crate::{Countdown, Failures};
use abt_io::{DeviceFault, Source, Tally, are_bytes};
use sys_disk::Lasting;

/// Bytes that are read at any offset.
#[derive(Drop)]
pub struct MemorySource {
    pub bytes: Vec<u8>,
    faults: Countdown,
    calls: Tally,
    pub count: Tally,
    pub failed: Failures,
    pub ghost told: { AreBytes bytes.items },
}

impl MemorySource {
    /// These bytes, where a read may fail.
    pub fn new(bytes: Vec<u8>, faults: Countdown) -> MemorySource
        ensures unread { result.count.number ≡ 0 }
        ensures unused { IsUnused bytes result.bytes result.failed }
    {
        are_bytes(bytes.as_slice());
        MemorySource {
            bytes,
            faults,
            calls: Tally::new(),
            count: Tally::new(),
            failed: Failures::none(),
        }
    }
}

impl Source for MemorySource {
    ghost models = { true };

    ghost content = { λ s. s.bytes.items };

    ghost size = { λ s. length s.bytes.items };

    ghost reads = { λ s. s.calls.number };

    ghost given = { λ s. s.count.number };

    ghost read_faults = { λ s. s.failed.tally.number };

    ghost sized = { λ s _. refl };

    ghost are_bytes = { λ s _. s.told };

    fn length(&self) -> u64 {
        self.bytes.len() as u64
    }

    fn read_at(&mut self, at: u64, out: &mut [u8]) -> Result<usize, DeviceFault> {
        self.calls.add(1);
        if self.faults.is_over() {
            self.failed.add();
            return Err(DeviceFault::Failed);
        }
        let n = copied_from(self.bytes.as_slice(), at, out);
        self.count.add(n as u64);
        Ok(n)
    }
}

impl Lasting for MemorySource {
    fn forget(&mut self) {}

    fn rest(&mut self) {}

    fn shorter(&self) -> Option<u64> {
        None
    }

    fn length_now(&mut self) -> u64 {
        self.bytes.len() as u64
    }
}

// Copies bytes from an offset on, as many as there are and have room.
pub(crate) fn copied_from(bytes: &[u8], at: u64, out: &mut [u8]) -> usize
    ensures { CopiesFrom at bytes.now result out.new }
{
    let len = bytes.len();
    if at >= len as u64 {
        return 0;
    }
    let from = at as usize;
    let n = out.len().min(len - from);
    out[..n].copy_from_slice(&bytes[from..from + n]);
    n
}
