//! The output of an image on a disk in memory, which can be overwritten.

ghost use Rattle.std.specs.Prelude.{◌≡◌, ◌≤◌, ◌+◌, false, length};
ghost use Rattle.abt_io.specs.Frame.{writes_alone};
ghost use Rattle.sys_disk.specs.Images.{HasNoFront};
ghost use Rattle.mem_disk.specs.Memory.{IsUnused};

use crate::{Countdown, Failures};
use abt_io::{DeviceFault, Output, Overwrite, Tally, put_part};
use sys_disk::{Late, Reasons};

/// Bytes that were written, and that can be overwritten. A write fails if there is no memory for it.
#[derive(Drop)]
pub struct MemoryImage {
    /// The number of its file.
    pub file: u64,
    pub bytes: Vec<u8>,
    pub calls: Tally,
    pub failed: Failures,
    faults: Countdown,
}

impl MemoryImage {
    /// These bytes of the file of this number, where a write may fail.
    pub fn new(file: u64, bytes: Vec<u8>, faults: Countdown) -> MemoryImage
        ensures file { result.file ≡ file }
        ensures unused { IsUnused bytes result.bytes result.failed }
    {
        MemoryImage {
            file,
            bytes,
            calls: Tally::new(),
            failed: Failures::none(),
            faults,
        }
    }
}

impl Output for MemoryImage {
    ghost written = { λ o. o.bytes.items };

    ghost is_full = { λ _. false };

    ghost writes = { λ o. o.calls.number };

    ghost write_faults = { λ o. o.failed.tally.number };

    ghost full_faults = { λ _. 0 };

    ghost write_frame = { λ o. record writes_alone { file = o.file } };

    fn write(&mut self, bytes: &[u8]) -> Result<usize, DeviceFault> {
        self.calls.add(1);
        if self.faults.is_over() {
            self.failed.add();
            return Err(DeviceFault::Failed);
        }
        match self.bytes.extend_from_slice(bytes) {
            Ok(()) => Ok(bytes.len()),
            Err(_) => {
                self.failed.add();
                Err(DeviceFault::Failed)
            }
        }
    }
}

impl Overwrite for MemoryImage {
    fn position(&self) -> u64 {
        self.bytes.len() as u64
    }

    fn write_over(&mut self, at: u64, bytes: &[u8]) -> Result<usize, DeviceFault> {
        self.calls.add(1);
        if self.faults.is_over() {
            self.failed.add();
            return Err(DeviceFault::Failed);
        }
        put_part(self.bytes.as_mut_slice(), at, bytes);
        Ok(bytes.len())
    }
}

impl Late for MemoryImage {
    fn settle(&mut self) -> Result<(), DeviceFault> {
        if self.faults.is_over() {
            self.failed.add();
            return Err(DeviceFault::Failed);
        }
        Ok(())
    }
}

impl Reasons for MemoryImage {
    fn why(&self) -> Option<i32> {
        None
    }
}

// The same bytes without the first.
pub(crate) fn torn(bytes: Vec<u8>) -> Vec<u8>
    ensures { HasNoFront result.items }
{
    let mut bytes = bytes;
    if !bytes.is_empty() {
        bytes[0] = 0;
    }
    bytes
}
