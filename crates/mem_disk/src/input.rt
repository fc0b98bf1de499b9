//! An input of a disk in memory that is read forward.

ghost use Rattle.std.specs.Prelude.{◌≡◌, true, drop};
ghost use Rattle.abt_io.specs.Bytes.{AreBytes};
ghost use Rattle.abt_io.specs.BytesLaws.{bytes_of_drop};
ghost use Rattle.mem_disk.specs.Memory.{IsUnused};

use crate::source::copied_from;
use crate::{Countdown, Failures};
use abt_io::{DeviceFault, Input, Tally, are_bytes};
use sys_disk::{Measured, Reasons};

/// Bytes that are read forward.
#[derive(Drop)]
pub struct MemoryInput {
    pub bytes: Vec<u8>,
    pub position: usize,
    pub calls: Tally,
    pub count: Tally,
    pub failed: Failures,
    faults: Countdown,
    pub ghost told: { AreBytes bytes.items },
}

impl MemoryInput {
    /// These bytes, where a read may fail.
    pub fn new(bytes: Vec<u8>, faults: Countdown) -> MemoryInput
        ensures position { result.position ≡ 0 }
        ensures unread { result.count.number ≡ 0 }
        ensures unused { IsUnused bytes result.bytes result.failed }
    {
        are_bytes(bytes.as_slice());
        MemoryInput {
            bytes,
            position: 0,
            calls: Tally::new(),
            count: Tally::new(),
            failed: Failures::none(),
            faults,
        }
    }
}

impl Input for MemoryInput {
    ghost models = { true };

    ghost remaining = { λ s. drop s.position s.bytes.items };

    ghost reads = { λ s. s.calls.number };

    ghost given = { λ s. s.count.number };

    ghost read_faults = { λ s. s.failed.tally.number };

    ghost are_bytes = { λ s _. bytes_of_drop s.position s.bytes.items s.told };

    fn read(&mut self, out: &mut [u8]) -> Result<usize, DeviceFault> {
        self.calls.add(1);
        if self.faults.is_over() {
            self.failed.add();
            return Err(DeviceFault::Failed);
        }
        let n = copied_from(self.bytes.as_slice(), self.position as u64, out);
        self.position += n;
        self.count.add(n as u64);
        Ok(n)
    }
}

impl Reasons for MemoryInput {
    fn why(&self) -> Option<i32> {
        None
    }
}

impl Measured for MemoryInput {
    fn known_length(&self) -> Option<u64> {
        Some(self.bytes.len() as u64)
    }
}
