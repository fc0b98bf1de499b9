//! A disk of given paths and files, and what it holds.

ghost use Rattle.std.specs.Prelude.{◌≡◌, IfSome, None};
ghost use Rattle.mem_disk.specs.Memory.{held_of};
ghost use Rattle.sys_disk.specs.World.{IsReading};

use mem_disk::{Faults, MemoryDisk, MemoryFile, MemoryPath};
use mem_test_commands::Listed;
use std::alloc::Global;

/// A disk on which nothing is open. None, where there is no memory for it.
pub(crate) fn disk(
    alloc: Global,
    paths: &[Listed],
    files: &[&[u8]],
    is_synced: bool,
    faults: Faults,
) -> Option<MemoryDisk>
    ensures reading { IfSome result (λ disk. IsReading (held_of disk)) }
    ensures part { IfSome result (λ disk. (held_of disk).part ≡ None) }
    ensures spool { IfSome result (λ disk. (held_of disk).spool ≡ None) }
{
    let mut listed = Vec::new(alloc);
    for (name, file) in paths {
        let Ok(name) = String::from_str(alloc, name) else {
            return None;
        };
        if listed.push(MemoryPath { name, file: *file }).is_err() {
            return None;
        }
    }
    let mut held = Vec::new(alloc);
    for bytes in files {
        let Ok(bytes) = Vec::from_slice(alloc, bytes) else {
            return None;
        };
        if held.push(MemoryFile { bytes }).is_err() {
            return None;
        }
    }
    Some(MemoryDisk::new(alloc, listed, held, is_synced, faults))
}

/// Whether a path leads to a file that holds these bytes.
pub(crate) fn holds(disk: &MemoryDisk, path: &str, bytes: &[u8]) -> bool {
    match disk.file_at(path) {
        Some(file) => match disk.copy_of(file) {
            Ok(held) => held.as_slice() == bytes,
            Err(_) => false,
        },
        None => false,
    }
}
