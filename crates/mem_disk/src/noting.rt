//! What a disk in memory looks up, and what it counts.

ghost use Rattle.std.specs.Prelude.{◌≡◌, [], false, IfOk, Contains, get_or, IsTrue};
ghost use Rattle.sys_disk.specs.Counts.{call_of, reads, writes};
ghost use Rattle.sys_disk.specs.World.{MayWrite};
ghost use Rattle.mem_disk.specs.Memory.{held_of, CountsMore};
ghost use Rattle.mem_files.specs.Stored.{contents, leads};

use crate::Failures;
use crate::disk::MemoryDisk;
use abt_io::Tally;
use mem_files::file_at;
use std::alloc::AllocError;
use sys_refusals::HostRefusal;

impl MemoryDisk {
    /// The file that this path leads to.
    pub fn file_at(&self, path: &str) -> Option<u64>
        ensures { result ≡ leads self.now.paths.items path.now }
    {
        file_at(self.paths.as_slice(), path)
    }

    /// The content of a file.
    pub fn copy_of(&self, file: u64) -> Result<Vec<u8>, AllocError>
        ensures { IfOk result (λ bytes. bytes.items ≡ get_or (contents self.now.files.items) file []) }
    {
        match self.files.as_slice().get(file as usize) {
            Some(held) => Vec::from_slice(self.alloc, held.bytes.as_slice()),
            None => Ok(Vec::new(self.alloc)),
        }
    }

    // Whether it is a file that is read, or that was begun.
    pub(crate) fn is_taken(&self, file: u64) -> bool
        ensures read { result ≡ false → ¬ Contains self.now.read.items file }
        ensures begun { result ≡ false → ¬ Contains self.now.begun.items file }
    {
        self.read.as_slice().contains(&file) || self.begun.as_slice().contains(&file)
    }

    // Whether this path leads to no device that is in use, or such devices may be written.
    pub(crate) fn may_write(&self, path: &str) -> bool
        ensures { IsTrue result → MayWrite path.now (held_of self.now) }
    {
        if path == "/dev/in-use" {
            return self.allows_mounted;
        }
        true
    }

    // Counts a failed call.
    pub(crate) fn refused<'a>(&mut self, refusal: HostRefusal<'a>) -> HostRefusal<'a>
        ensures same { result ≡ refusal.entry }
        ensures counts { CountsMore (call_of result.fault) self.old self.new }
    {
        self.counted.call(&refusal.fault);
        self.failed = self.failed.saturating_add(1);
        refusal
    }

    // Counts what a device gave that was read, and how often it failed.
    pub(crate) fn add_read(&mut self, given: &Tally, failures: &Failures)
        ensures { CountsMore (reads given.now.number failures.now.tally.number) self.old self.new }
    {
        self.counted.read(given, &failures.tally);
        self.failed = self.failed.saturating_add(failures.seen);
    }

    // Counts how often a device failed that was written.
    pub(crate) fn add_written(&mut self, failures: &Failures)
        ensures { CountsMore (writes failures.now.tally.number) self.old self.new }
    {
        self.counted.written(&failures.tally);
        self.failed = self.failed.saturating_add(failures.seen);
    }
}
