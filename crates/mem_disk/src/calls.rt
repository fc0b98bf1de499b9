//! The calls of a disk in memory. Each counts its own failure, and the failures of a device that is given back.

ghost use Rattle.std.specs.Prelude.{false, true};
ghost use Rattle.sys_disk.specs.Images.{is_over};
ghost use Rattle.mem_disk.specs.Memory.{world_of, held_of};

use crate::image::torn;
use crate::{
    MemoryDisk, MemoryImage, MemoryInput, MemoryOutput, MemoryPartition, MemorySource, MemorySpool,
};
use abt_io::Tally;
use std::alloc::AllocError;
use sys_disk::{Disk, ImageTo, NoMemory};
use sys_refusals::{FileArg, HostFault, HostRefusal};

impl Disk for MemoryDisk {
    type From = MemoryInput;

    type Onto = MemoryOutput;

    type At = MemorySource;

    type InPlace = MemoryPartition;

    type Image = MemoryImage;

    type Through = MemorySpool;

    ghost models = { true };

    ghost world = { world_of };

    ghost held = { held_of };

    ghost is_over = { is_over };

    ghost on_output = { λ _. false };

    ghost told = { λ t. t };

    ghost source_told = { λ t. t };

    ghost part_told = { λ t. t };

    ghost through_told = { λ t. t };

    fn input<'a>(&mut self, place: FileArg<'a>) -> Result<MemoryInput, HostRefusal<'a>> {
        match self.input_at(place) {
            Ok(from) => Ok(from),
            Err(refusal) => Err(self.refused(refusal)),
        }
    }

    fn source<'a>(&mut self, place: FileArg<'a>) -> Result<MemorySource, HostRefusal<'a>> {
        match self.source_at(place) {
            Ok(at) => Ok(at),
            Err(refusal) => Err(self.refused(refusal)),
        }
    }

    fn ahead<'a>(&mut self, place: FileArg<'a>) -> Result<MemorySource, HostRefusal<'a>> {
        match self.source_at(place) {
            Ok(at) => Ok(at),
            Err(refusal) => Err(self.refused(refusal)),
        }
    }

    fn again<'a>(
        &mut self,
        at: &MemorySource,
        place: FileArg<'a>,
    ) -> Result<MemorySource, HostRefusal<'a>> {
        match self.again_at(at, place) {
            Ok(again) => Ok(again),
            Err(refusal) => Err(self.refused(refusal)),
        }
    }

    fn text<'a>(&mut self, place: FileArg<'a>) -> Result<String, HostRefusal<'a>> {
        match self.text_at(place) {
            Ok(text) => Ok(text),
            Err(refusal) => Err(self.refused(refusal)),
        }
    }

    fn let_go(&mut self, from: MemoryInput) {
        self.add_read(&from.count, &from.failed);
    }

    fn let_go_source(&mut self, at: MemorySource) {
        self.add_read(&at.count, &at.failed);
    }

    fn partition<'a>(&mut self, place: FileArg<'a>) -> Result<MemoryPartition, HostRefusal<'a>> {
        match self.partition_at(place) {
            Ok(part) => Ok(part),
            Err(refusal) => Err(self.refused(refusal)),
        }
    }

    fn why_of_part(&self, _part: &MemoryPartition) -> Option<i32> {
        None
    }

    fn why_of_spool(&self, _through: &MemorySpool) -> Option<i32> {
        None
    }

    fn unchanged<'a>(&mut self) -> Result<(), HostRefusal<'a>> {
        if self.faults.calls.is_over() {
            return Err(self.refused(HostRefusal::of(HostFault::Changed, None)));
        }
        Ok(())
    }

    fn close<'a>(
        &mut self,
        part: MemoryPartition,
        place: FileArg<'a>,
    ) -> Result<bool, HostRefusal<'a>> {
        self.put_back(part);
        if self.faults.calls.is_over() {
            return Err(self.refused(HostRefusal::at(HostFault::Write, place, None)));
        }
        Ok(false)
    }

    fn zeros<'a>(
        &mut self,
        place: FileArg<'a>,
        bytes: u64,
    ) -> Result<MemoryPartition, HostRefusal<'a>> {
        match self.zeros_at(place, bytes) {
            Ok(part) => Ok(part),
            Err(refusal) => Err(self.refused(refusal)),
        }
    }

    fn spool<'a>(
        &mut self,
        place: FileArg<'a>,
        limit: u32,
        keeping: bool,
        _from: &MemorySource,
    ) -> Result<MemorySpool, HostRefusal<'a>> {
        match self.spool_at(place, limit, keeping) {
            Ok(through) => Ok(through),
            Err(refusal) => Err(self.refused(refusal)),
        }
    }

    fn close_spool<'a>(
        &mut self,
        through: MemorySpool,
        place: FileArg<'a>,
    ) -> Result<bool, HostRefusal<'a>> {
        self.add_read(&Tally::new(), &through.read_failures);
        self.add_written(&through.write_failures);
        self.add_written(&through.clear_failures);
        let is_there = self.put_through(through.bytes);
        if !is_there || self.faults.calls.is_over() {
            return Err(self.refused(HostRefusal::at(HostFault::Write, place, None)));
        }
        Ok(false)
    }

    fn is_there<'a>(&mut self, place: FileArg<'a>) -> Result<bool, HostRefusal<'a>> {
        match place.path(self.alloc) {
            Ok(path) => Ok(self.file_at(path.as_str()).is_some()),
            Err(_) => Err(self.refused(HostRefusal::memory())),
        }
    }

    fn left_over(&mut self, place: FileArg<'_>, behind: u32) -> Result<Option<u32>, AllocError> {
        match self.next_left(place, behind) {
            Ok(left) => Ok(left),
            Err(error) => {
                self.refused(HostRefusal::memory());
                Err(error)
            }
        }
    }

    fn no_memory(&mut self, _refused: NoMemory) {
        self.refused(HostRefusal::memory());
    }

    fn refuse_taken<'a>(&mut self, place: FileArg<'a>) -> Result<(), HostRefusal<'a>> {
        match self.refuse_taken_at(place) {
            Ok(()) => Ok(()),
            Err(refusal) => Err(self.refused(refusal)),
        }
    }

    fn plain<'a>(&mut self, place: FileArg<'a>) -> Result<MemoryOutput, HostRefusal<'a>> {
        match self.plain_at(place) {
            Ok(onto) => Ok(onto),
            Err(refusal) => Err(self.refused(refusal)),
        }
    }

    fn raw<'a>(&mut self, place: FileArg<'a>) -> Result<MemoryOutput, HostRefusal<'a>> {
        match self.raw_at(place) {
            Ok(onto) => Ok(onto),
            Err(refusal) => Err(self.refused(refusal)),
        }
    }

    fn finish<'a>(
        &mut self,
        onto: MemoryOutput,
        place: FileArg<'a>,
    ) -> Result<bool, HostRefusal<'a>> {
        self.add_written(&onto.failed);
        let is_refused = self.faults.calls.is_over();
        self.put(onto.bytes);
        if is_refused {
            return Err(self.refused(HostRefusal::at(HostFault::Write, place, None).begun(place)));
        }
        if self.is_synced {
            self.syncs.add(1);
        }
        Ok(false)
    }

    fn give_up(&mut self, onto: MemoryOutput) {
        self.add_written(&onto.failed);
        self.put(onto.bytes);
    }

    fn image<'a>(
        &mut self,
        place: FileArg<'a>,
        _is_gathered: bool,
    ) -> Result<ImageTo<MemoryImage, MemoryOutput>, HostRefusal<'a>> {
        match self.image_at(place) {
            Ok(image) => Ok(image),
            Err(refusal) => Err(self.refused(refusal)),
        }
    }

    fn finish_image<'a>(
        &mut self,
        image: MemoryImage,
        place: FileArg<'a>,
    ) -> Result<bool, HostRefusal<'a>> {
        self.add_written(&image.failed);
        let is_over = self.faults.calls.is_over();
        let bytes = if is_over {
            torn(image.bytes)
        } else {
            image.bytes
        };
        self.put(bytes);
        if is_over {
            return Err(self.refused(HostRefusal::at(HostFault::Write, place, None).begun(place)));
        }
        let is_synced = self.is_synced;
        if is_synced {
            self.syncs.add(1);
        }
        Ok(false)
    }

    fn give_up_image(&mut self, image: MemoryImage) {
        self.add_written(&image.failed);
        self.put(image.bytes);
    }
}
