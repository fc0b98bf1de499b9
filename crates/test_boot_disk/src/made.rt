//! A disk that holds a vendor boot image.

ghost use Rattle.std.specs.Prelude.{IfOk};
ghost use Rattle.mem_disk.specs.Memory.{held_of};
ghost use Rattle.sys_disk.specs.World.{IsReading};

use mem_disk::{Faults, MemoryDisk, MemoryFile, MemoryPath};
use mem_test_boot_commands::image;
use std::alloc::{AllocError, Global};

fn path(alloc: Global, name: &str, file: u64) -> Result<MemoryPath, AllocError> {
    let name = String::from_str(alloc, name)?;
    Ok(MemoryPath { name, file })
}

/// A disk with the image as IN, and these further paths. File 0 is what IN leads to, file 1 is an empty one.
pub(crate) fn disk(
    alloc: Global,
    links: &[(&str, u64)],
    faults: Faults,
) -> Result<MemoryDisk, AllocError>
    ensures { IfOk result (λ disk. IsReading (held_of disk)) }
{
    let mut paths = Vec::new(alloc);
    paths.push(path(alloc, "in", 0)?)?;
    for (name, file) in links.iter() {
        paths.push(path(alloc, name, *file)?)?;
    }
    let mut files = Vec::new(alloc);
    files.push(MemoryFile {
        bytes: image(alloc)?,
    })?;
    files.push(MemoryFile {
        bytes: Vec::new(alloc),
    })?;
    Ok(MemoryDisk::new(alloc, paths, files, false, faults))
}

/// Whether the file at this path holds these bytes.
pub(crate) fn holds(disk: &MemoryDisk, name: &str, bytes: &[u8]) -> bool {
    match disk.file_at(name) {
        Some(file) => match disk.copy_of(file) {
            Ok(held) => held.as_slice() == bytes,
            Err(_) => false,
        },
        None => false,
    }
}

/// Whether IN holds the image.
pub(crate) fn is_kept(alloc: Global, disk: &MemoryDisk) -> Result<bool, AllocError> {
    let image = image(alloc)?;
    Ok(holds(disk, "in", image.as_slice()))
}
