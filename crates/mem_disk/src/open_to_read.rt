//! How a disk in memory opens inputs.

ghost use Rattle.std.specs.Prelude.{◌≡◌, string_bytes, IfOk, OnErr};
ghost use Rattle.sys_refusals.specs.Paths.{path_in, path_of};
ghost use Rattle.sys_disk.specs.World.{OpensFile};
ghost use Rattle.mem_disk.specs.Memory.{world_of, held_of, Untouched, OpensMemory, OpensOnly, IsUnused};

use crate::{MemoryDisk, MemoryInput, MemorySource};
use sys_refusals::{FileArg, HostFault, HostRefusal};

// The most bytes of a text.
const TEXT: usize = 1 << 20;

impl MemoryDisk {
    // Opens what is read forward.
    pub(crate) fn input_at<'a>(
        &mut self,
        place: FileArg<'a>,
    ) -> Result<MemoryInput, HostRefusal<'a>>
        ensures position { IfOk result (λ from. from.position ≡ 0) }
        ensures opens { OpensMemory result (path_in place.entry) (λ from. from.bytes.items)
            (λ from. from.count.number) (λ from. from.failed) self.old self.new }
    {
        if self.faults.calls.is_over() {
            return Err(HostRefusal::at(HostFault::CannotOpen, place, None));
        }
        let Ok(path) = place.path_read(self.alloc) else {
            return Err(HostRefusal::memory());
        };
        let Some(file) = self.file_at(path.as_str()) else {
            return Err(HostRefusal::at(HostFault::CannotOpen, place, None));
        };
        let Ok(bytes) = self.copy_of(file) else {
            return Err(HostRefusal::memory());
        };
        match self.read.push(file) {
            Ok(()) => Ok(MemoryInput::new(bytes, self.faults.reads)),
            Err(_) => Err(HostRefusal::memory()),
        }
    }

    // Opens what is read at any offset.
    pub(crate) fn source_at<'a>(
        &mut self,
        place: FileArg<'a>,
    ) -> Result<MemorySource, HostRefusal<'a>>
        ensures { OpensMemory result (path_of place.entry) (λ at. at.bytes.items) (λ at. at.count.number)
            (λ at. at.failed) self.old self.new }
    {
        if self.faults.calls.is_over() {
            return Err(HostRefusal::at(HostFault::CannotOpen, place, None));
        }
        let Ok(path) = place.path(self.alloc) else {
            return Err(HostRefusal::memory());
        };
        let Some(file) = self.file_at(path.as_str()) else {
            return Err(HostRefusal::at(HostFault::CannotOpen, place, None));
        };
        let Ok(bytes) = self.copy_of(file) else {
            return Err(HostRefusal::memory());
        };
        match self.read.push(file) {
            Ok(()) => Ok(MemorySource::new(bytes, self.faults.reads)),
            Err(_) => Err(HostRefusal::memory()),
        }
    }

    // An open source, once more.
    pub(crate) fn again_at<'a>(
        &mut self,
        at: &MemorySource,
        place: FileArg<'a>,
    ) -> Result<MemorySource, HostRefusal<'a>>
        ensures unused { IfOk result (λ again. IsUnused at.now.bytes.items again.bytes.items again.failed) }
        ensures untouched { Untouched self.old self.new }
    {
        if self.faults.calls.is_over() {
            return Err(HostRefusal::at(HostFault::CannotOpen, place, None));
        }
        match Vec::from_slice(self.alloc, at.bytes.as_slice()) {
            Ok(bytes) => Ok(MemorySource::new(bytes, self.faults.reads)),
            Err(_) => Err(HostRefusal::memory()),
        }
    }

    // The text of a file.
    pub(crate) fn text_at<'a>(&mut self, place: FileArg<'a>) -> Result<String, HostRefusal<'a>>
        ensures opened { IfOk result (λ text. OpensFile (world_of self.old) (path_in place.entry) (string_bytes text)
            (held_of self.old) (held_of self.new)) }
        ensures leaves { OpensOnly result self.old self.new }
    {
        if self.faults.calls.is_over() {
            return Err(HostRefusal::at(HostFault::CannotOpen, place, None));
        }
        let Ok(path) = place.path_read(self.alloc) else {
            return Err(HostRefusal::memory());
        };
        let Some(file) = self.file_at(path.as_str()) else {
            return Err(HostRefusal::at(HostFault::CannotOpen, place, None));
        };
        let Ok(bytes) = self.copy_of(file) else {
            return Err(HostRefusal::memory());
        };
        if bytes.len() > TEXT {
            return Err(HostRefusal::at(HostFault::TooLong, place, None));
        }
        let Ok(text) = String::from_utf8(bytes) else {
            return Err(HostRefusal::at(HostFault::NotText, place, None));
        };
        match self.read.push(file) {
            Ok(()) => Ok(text),
            Err(_) => Err(HostRefusal::memory()),
        }
    }
}
