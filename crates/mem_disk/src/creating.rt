//! How a disk in memory creates an output, and which path it rejects before that.

ghost use Rattle.std.specs.Prelude.{◌≡◌, [], None, IfOk, OnOk, OnErr};
ghost use Rattle.sys_refusals.specs.Paths.{path_of, path_out};
ghost use Rattle.sys_disk.specs.Images.{is_file, is_over, OfImage, EmptiesAt};
ghost use Rattle.sys_disk.specs.World.{IsFree, number_of};
ghost use Rattle.mem_disk.specs.Made.{CreatesMemory};
ghost use Rattle.mem_disk.specs.Memory.{world_of, held_of, OpensOutput, IsUnused};

use crate::{MemoryDisk, MemoryImage, MemoryOutput};
use sys_disk::ImageTo;
use sys_refusals::{FileArg, HostFault, HostRefusal};

impl MemoryDisk {
    // Fails for a path that leads to a file that is read, or that was begun.
    pub(crate) fn refuse_taken_at<'a>(&self, place: FileArg<'a>) -> Result<(), HostRefusal<'a>>
        ensures { OnOk result (IsFree (path_of place.entry) (held_of self.now) (world_of self.now)) }
    {
        let Ok(path) = place.path(self.alloc) else {
            return Err(HostRefusal::memory());
        };
        let Some(file) = self.file_at(path.as_str()) else {
            return Ok(());
        };
        if self.is_taken(file) {
            return Err(HostRefusal::at(HostFault::SameFile, place, None));
        }
        Ok(())
    }

    // Creates or empties a file.
    pub(crate) fn plain_at<'a>(
        &mut self,
        place: FileArg<'a>,
    ) -> Result<MemoryOutput, HostRefusal<'a>>
        requires { self.old.output ≡ None }
        ensures { CreatesMemory result (path_of place.entry) self.old self.new }
    {
        if self.faults.calls.is_over() {
            return Err(HostRefusal::at(HostFault::CannotOpen, place, None));
        }
        let Ok(path) = place.path(self.alloc) else {
            return Err(HostRefusal::memory());
        };
        match self.begin(path) {
            Ok(file) => Ok(MemoryOutput::new(file, Vec::new(self.alloc), self.faults.writes)),
            Err(fault) => Err(HostRefusal::at(fault, place, None)),
        }
    }

    // Creates or empties the file of a raw image.
    pub(crate) fn raw_at<'a>(&mut self, place: FileArg<'a>) -> Result<MemoryOutput, HostRefusal<'a>>
        requires { self.old.output ≡ None }
        ensures { CreatesMemory result (path_out place.entry) self.old self.new }
    {
        if self.faults.calls.is_over() {
            return Err(HostRefusal::at(HostFault::CannotOpen, place, None));
        }
        let Ok(path) = place.path_written(self.alloc) else {
            return Err(HostRefusal::memory());
        };
        match self.begin(path) {
            Ok(file) => Ok(MemoryOutput::new(file, Vec::new(self.alloc), self.faults.writes)),
            Err(fault) => Err(HostRefusal::at(fault, place, None)),
        }
    }

    // Creates or empties the file of an image that has a magic.
    pub(crate) fn image_at<'a>(
        &mut self,
        place: FileArg<'a>,
    ) -> Result<ImageTo<MemoryImage, MemoryOutput>, HostRefusal<'a>>
        requires { self.old.output ≡ None }
        ensures unused { IfOk result (OfImage (λ file. IsUnused [] file.bytes.items file.failed)
            (λ onto. IsUnused [] onto.bytes.items onto.failed)) }
        ensures this { IfOk result (OfImage (λ image. image.file ≡ number_of self.new.output)
            (λ onto. onto.file ≡ number_of self.new.output)) }
        ensures kind { IfOk result (λ image. is_file image ≡ is_over (path_out place.entry)) }
        ensures begins { OpensOutput result (path_out place.entry) self.old self.new }
        ensures empties { OnErr result (EmptiesAt (path_out place.entry) (world_of self.old) (world_of self.new)) }
    {
        if self.faults.calls.is_over() {
            return Err(HostRefusal::at(HostFault::CannotOpen, place, None));
        }
        let Ok(path) = place.path_written(self.alloc) else {
            return Err(HostRefusal::memory());
        };
        let is_over = path.as_str() != "/dev/stdout";
        let bytes = Vec::new(self.alloc);
        let writes = self.faults.writes;
        match self.begin(path) {
            Ok(file) if is_over => Ok(ImageTo::File(MemoryImage::new(file, bytes, writes))),
            Ok(file) => Ok(ImageTo::Stream(MemoryOutput::new(file, bytes, writes))),
            Err(fault) => Err(HostRefusal::at(fault, place, None)),
        }
    }
}
