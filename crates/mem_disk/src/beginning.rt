//! How a disk in memory creates a file, or empties it, and closes one.

ghost use Rattle.std.specs.Prelude.{◌≡◌, [], Some, None, string_bytes, ◌<◌, IfOk, OnErr, Contains, false, length};
ghost use Rattle.sys_disk.specs.Counts.{no_counts};
ghost use Rattle.sys_disk.specs.Images.{HoldsSame, Leaves};
ghost use Rattle.sys_disk.specs.World.{OnlyAt, Spares, Ends, SparesRest, ended, number_of};
ghost use Rattle.mem_disk.specs.Memory.{world_of, held_of, Starts, Fills, RefusesAt, OpensOutput};
ghost use Rattle.mem_files.specs.Stored.{leads};

use crate::disk::MemoryDisk;
use mem_files::{MemoryFile, MemoryPath};
use sys_refusals::HostFault;

impl MemoryDisk {
    // Begins an output at this path, and returns the number of its file. That is created if there is none, and else
    // emptied.
    pub(crate) fn begin(&mut self, path: String) -> Result<u64, HostFault>
        requires { self.old.output ≡ None }
        ensures begins { OpensOutput result (string_bytes path) self.old self.new }
        ensures file { IfOk result (λ file. file ≡ number_of self.new.output) }
    {
        match self.start(path, Vec::new(self.alloc)) {
            Ok(file) => {
                self.output = Some(file);
                Ok(file)
            }
            Err(fault) => Err(fault),
        }
    }

    // Begins the file at this path, which is created if there is none, and returns its number. It holds these bytes.
    pub(crate) fn start(&mut self, path: String, bytes: Vec<u8>) -> Result<u64, HostFault>
        ensures starts { IfOk result (λ file. Starts file (string_bytes path) bytes.items (held_of self.old)
            (held_of self.new) (world_of self.old) (world_of self.new)) }
        ensures present { IfOk result (λ file. file < length self.new.files.items) }
        ensures refused { OnErr result (RefusesAt (string_bytes path) self.old self.new) }
    {
        if !self.may_write(path.as_str()) {
            return Err(HostFault::Mounted);
        }
        match self.file_at(path.as_str()) {
            Some(file) => match self.fill(file, bytes) {
                Ok(()) => Ok(file),
                Err(fault) => Err(fault),
            },
            None => {
                let file = match self.create(path) {
                    Ok(file) => file,
                    Err(fault) => return Err(fault),
                };
                match self.fill(file, bytes) {
                    Ok(()) => Ok(file),
                    Err(fault) => Err(fault),
                }
            }
        }
    }

    // Begins an existing file, which then holds these bytes.
    fn fill(&mut self, file: u64, bytes: Vec<u8>) -> Result<(), HostFault>
        ensures { Fills result file bytes.items self.old self.new }
    {
        if self.is_taken(file) {
            return Err(HostFault::SameFile);
        }
        if file >= self.files.len() as u64 {
            return Err(HostFault::CannotOpen);
        }
        if self.begun.insert(0, file).is_err() {
            return Err(HostFault::Memory);
        }
        self.files[file as usize] = MemoryFile { bytes };
        Ok(())
    }

    // Creates an empty file at a path that leads to none, and returns its number. It is none that was opened.
    fn create(&mut self, path: String) -> Result<u64, HostFault>
        requires { leads self.old.paths.items (string_bytes path) ≡ None }
        ensures held { held_of self.new ≡ held_of self.old }
        ensures there { IfOk result (λ file. leads self.new.paths.items (string_bytes path) ≡ Some file) }
        ensures spares { IfOk result (λ file. Spares file (world_of self.old) (world_of self.new)) }
        ensures free { IfOk result (λ file. ¬ Contains self.old.read.items file) }
        ensures only { OnErr result (OnlyAt self.old.read.items (string_bytes path) (world_of self.old)
            (world_of self.new)) }
        ensures same { HoldsSame (world_of self.old) (world_of self.new) }
    {
        let file = self.files.len() as u64;
        if self.is_taken(file) {
            return Err(HostFault::SameFile);
        }
        let Ok(()) = self.paths.push(MemoryPath { name: path, file }) else {
            return Err(HostFault::Memory);
        };
        let empty = MemoryFile {
            bytes: Vec::new(self.alloc),
        };
        let Ok(()) = self.files.push(empty) else {
            return Err(HostFault::Memory);
        };
        Ok(file)
    }

    // Puts these bytes into the open output, which is closed.
    pub(crate) fn put(&mut self, bytes: Vec<u8>)
        ensures ended { Ends self.old.output bytes.items (world_of self.old) (world_of self.new) }
        ensures closed { held_of self.new ≡ ended false no_counts (held_of self.old) }
        ensures rest { SparesRest self.old.output (world_of self.old) (world_of self.new) }
        ensures left { Leaves self.old.output bytes.items (world_of self.new) }
    {
        match self.output.take() {
            Some(file) => self.files[file as usize] = MemoryFile { bytes },
            None => {}
        }
    }
}
