//! An output of a disk in memory that is written from its beginning on.

ghost use Rattle.std.specs.Prelude.{◌≡◌, false};
ghost use Rattle.abt_io.specs.Frame.{writes_alone};
ghost use Rattle.mem_disk.specs.Memory.{IsUnused};

use crate::{Countdown, Failures};
use abt_io::{DeviceFault, Output, Tally};
use sys_disk::Reasons;

/// Bytes that were written. A write fails if there is no memory for it.
#[derive(Drop)]
pub struct MemoryOutput {
    /// The number of its file.
    pub file: u64,
    pub bytes: Vec<u8>,
    pub calls: Tally,
    pub failed: Failures,
    faults: Countdown,
}

impl MemoryOutput {
    /// These bytes of the file of this number, where a write may fail.
    pub fn new(file: u64, bytes: Vec<u8>, faults: Countdown) -> MemoryOutput
        ensures file { result.file ≡ file }
        ensures unused { IsUnused bytes result.bytes result.failed }
    {
        MemoryOutput {
            file,
            bytes,
            calls: Tally::new(),
            failed: Failures::none(),
            faults,
        }
    }
}

impl Output for MemoryOutput {
    ghost written = { λ o. o.bytes.items };

    ghost is_full = { λ _. false };

    ghost writes = { λ o. o.calls.number };

    ghost write_faults = { λ o. o.failed.tally.number };

    ghost full_faults = { λ _. 0 };

    ghost write_frame = { λ o. record writes_alone { file = o.file } };

    fn write(&mut self, bytes: &[u8]) -> Result<usize, DeviceFault> {
        self.calls.add(1);
        if self.faults.is_over() {
            self.failed.add();
            return Err(DeviceFault::Failed);
        }
        match self.bytes.extend_from_slice(bytes) {
            Ok(()) => Ok(bytes.len()),
            Err(_) => {
                self.failed.add();
                Err(DeviceFault::Failed)
            }
        }
    }
}

impl Reasons for MemoryOutput {
    fn why(&self) -> Option<i32> {
        None
    }
}
