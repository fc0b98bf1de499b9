//! How a disk in memory opens a file to be written in place, and closes it.

ghost use Rattle.std.specs.Prelude.{◌≡◌, ◌<◌, None, IfOk, length, replicate};
ghost use Rattle.abt_io.specs.Moment.{past_of_file};
ghost use Rattle.sys_refusals.specs.Paths.{path_of};
ghost use Rattle.sys_disk.specs.Counts.{writes};
ghost use Rattle.sys_disk.specs.InPlace.{OpensPart, closed_part};
ghost use Rattle.sys_disk.specs.World.{Spares, Ends, SparesRest, number_of};
ghost use Rattle.mem_disk.specs.Made.{MakesMemory};
ghost use Rattle.mem_disk.specs.Memory.{world_of, held_of, OpensOnly, IsUnused};

use crate::{MemoryDisk, MemoryFile, MemoryPartition};
use std::alloc::{AllocError, Global};
use sys_refusals::{FileArg, HostFault, HostRefusal};

impl MemoryDisk {
    // Opens an existing file, to be written in place.
    pub(crate) fn partition_at<'a>(
        &mut self,
        place: FileArg<'a>,
    ) -> Result<MemoryPartition, HostRefusal<'a>>
        ensures opened { IfOk result (λ part. OpensPart (world_of self.old) (path_of place.entry) part.bytes.items
            (held_of self.old) (held_of self.new)) }
        ensures unused { IfOk result (λ part. IsUnused (past_of_file (number_of self.new.part)) part.history.past
            part.failed) }
        ensures leaves { OpensOnly result self.old self.new }
    {
        if self.faults.calls.is_over() {
            return Err(HostRefusal::at(HostFault::CannotOpen, place, None));
        }
        let Ok(path) = place.path(self.alloc) else {
            return Err(HostRefusal::memory());
        };
        if !self.may_write(path.as_str()) {
            return Err(HostRefusal::at(HostFault::Mounted, place, None));
        }
        let Some(file) = self.file_at(path.as_str()) else {
            return Err(HostRefusal::at(HostFault::CannotOpen, place, None));
        };
        if self.is_taken(file) {
            return Err(HostRefusal::at(HostFault::SameFile, place, None));
        }
        if file >= self.files.len() as u64 {
            return Err(HostRefusal::at(HostFault::CannotOpen, place, None));
        }
        let Ok(bytes) = self.copy_of(file) else {
            return Err(HostRefusal::memory());
        };
        if self.begun.insert(0, file).is_err() {
            return Err(HostRefusal::memory());
        }
        self.part = Some(file);
        Ok(MemoryPartition::new(file, bytes, self.faults.reads, self.faults.writes))
    }

    // Creates or empties a file, makes it this many zeros, and opens it to be written in place.
    pub(crate) fn zeros_at<'a>(
        &mut self,
        place: FileArg<'a>,
        bytes: u64,
    ) -> Result<MemoryPartition, HostRefusal<'a>>
        ensures { MakesMemory result bytes (path_of place.entry) self.old self.new }
    {
        if self.faults.calls.is_over() {
            return Err(HostRefusal::at(HostFault::CannotOpen, place, None));
        }
        let Ok(path) = place.path(self.alloc) else {
            return Err(HostRefusal::memory());
        };
        let Ok(zeros) = zeros(self.alloc, bytes) else {
            return Err(HostRefusal::memory());
        };
        let Ok(same) = Vec::from_slice(self.alloc, zeros.as_slice()) else {
            return Err(HostRefusal::memory());
        };
        match self.start(path, zeros) {
            Ok(file) => {
                self.part = Some(file);
                Ok(MemoryPartition::new(file, same, self.faults.reads, self.faults.writes))
            }
            Err(fault) => Err(HostRefusal::at(fault, place, None)),
        }
    }

    // Closes the file that is open in place, which holds what the partition holds.
    pub(crate) fn put_back(&mut self, part: MemoryPartition)
        ensures ended { Ends self.old.part part.bytes.items (world_of self.old) (world_of self.new) }
        ensures paths { (world_of self.new).at ≡ (world_of self.old).at }
        ensures closed { held_of self.new ≡ closed_part part.history.past (writes part.failed.tally.number)
            (held_of self.old) }
        ensures rest { SparesRest self.old.part (world_of self.old) (world_of self.new) }
    {
        self.syncs.add(part.is_stable as u64);
        self.counted.written(&part.failed.tally);
        self.failed = self.failed.saturating_add(part.failed.seen);
        match self.part.take() {
            Some(file) => self.lay(file, part.bytes),
            None => {}
        }
    }

    // A file, which exists, holds these bytes.
    fn lay(&mut self, file: u64, bytes: Vec<u8>)
        requires { file < length self.old.files.items }
        ensures holds { (world_of self.new).holds file ≡ bytes.items }
        ensures spares { Spares file (world_of self.old) (world_of self.new) }
        ensures paths { self.new.paths ≡ self.old.paths }
        ensures held { held_of self.new ≡ held_of self.old }
    {
        self.files[file as usize] = MemoryFile { bytes };
    }
}

// This many zeros.
fn zeros(alloc: Global, n: u64) -> Result<Vec<u8>, AllocError>
    ensures { IfOk result (λ zeros. zeros.items ≡ replicate n 0) }
{
    let mut zeros = Vec::new(alloc);
    match zeros.resize(n as usize, 0) {
        Ok(()) => Ok(zeros),
        Err(e) => Err(e),
    }
}
