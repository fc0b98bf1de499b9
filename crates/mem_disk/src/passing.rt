//! How a disk in memory opens the file that pieces go through, and closes it.

ghost use Rattle.std.specs.Prelude.{◌≡◌, None, IsTrue, IfOk, OnOk, OnErr};
ghost use Rattle.abt_io.specs.Frame.{nothing_logged};
ghost use Rattle.sys_refusals.specs.Paths.{path_of};
ghost use Rattle.sys_disk.specs.Counts.{no_counts};
ghost use Rattle.sys_disk.specs.Spools.{OpensSpool, closed_spool};
ghost use Rattle.sys_disk.specs.World.{Ends, SparesRest};
ghost use Rattle.mem_disk.specs.Memory.{world_of, held_of, RefusesAt};

use crate::{MemoryDisk, MemoryFile, MemorySpool};
use sys_refusals::{FileArg, HostFault, HostRefusal};

impl MemoryDisk {
    // Creates or empties a file that pieces go through.
    pub(crate) fn spool_at<'a>(
        &mut self,
        place: FileArg<'a>,
        limit: u32,
        keeping: bool,
    ) -> Result<MemorySpool, HostRefusal<'a>>
        ensures capacity { IfOk result (λ through. through.limit ≡ limit) }
        ensures empty { IfOk result (λ through. through.log.state ≡ nothing_logged) }
        ensures reads { IfOk result (λ through. through.read_failures.tally.number ≡ 0) }
        ensures writes { IfOk result (λ through. through.write_failures.tally.number ≡ 0) }
        ensures clears { IfOk result (λ through. through.clear_failures.tally.number ≡ 0) }
        ensures opened { OnOk result (OpensSpool keeping (path_of place.entry) (held_of self.old)
            (held_of self.new) (world_of self.old) (world_of self.new)) }
        ensures refused { OnErr result (RefusesAt (path_of place.entry) self.old self.new) }
    {
        if self.faults.calls.is_over() {
            return Err(HostRefusal::at(HostFault::CannotOpen, place, None));
        }
        let Ok(path) = place.path(self.alloc) else {
            return Err(HostRefusal::memory());
        };
        let empty = Vec::new(self.alloc);
        match self.start(path, Vec::new(self.alloc)) {
            Ok(file) => {
                self.spool = Some(file);
                self.keeps = keeping;
                let faults = self.faults;
                Ok(MemorySpool::new(empty, limit, faults.reads, faults.writes))
            }
            Err(fault) => Err(HostRefusal::at(fault, place, None)),
        }
    }

    // Puts these bytes into the file that pieces go through, which is closed. Returns whether it existed.
    pub(crate) fn put_through(&mut self, bytes: Vec<u8>) -> bool
        ensures ended { IsTrue result → Ends self.old.spool bytes.items (world_of self.old) (world_of self.new) }
        ensures closed { held_of self.new ≡ closed_spool no_counts (held_of self.old) }
        ensures rest { SparesRest self.old.spool (world_of self.old) (world_of self.new) }
    {
        let Some(file) = self.spool.take() else {
            return true;
        };
        if file >= self.files.as_slice().len() as u64 {
            return false;
        }
        self.files[file as usize] = MemoryFile { bytes };
        true
    }
}
