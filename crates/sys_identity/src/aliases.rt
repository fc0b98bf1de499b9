//! The storage below a file or a block device, so that one storage is known by each of its names.

use crate::identity::{Identity, found_at};
use crate::sysfs::{add_devices, told_bytes, told_device, told_number, told_sectors};
use std::alloc::AllocError;
use sys_file::System;

// The most devices that are stacked on one another, and the most that are examined.
const MOST: usize = 64;

/// A part of a file or of a block device that is written or read with another one.
#[derive(Clone, Copy, Drop)]
pub struct Layer {
    pub identity: Identity,
    pub from: u64,
    /// Where it ends.
    pub end: u64,
    /// Whether all of that part is: of a mapped device it is known only that some of it is.
    pub is_exact: bool,
}

impl Layer {
    /// The whole of a file.
    pub fn whole(identity: Identity) -> Layer {
        Layer {
            identity,
            from: 0,
            end: u64::MAX,
            is_exact: true,
        }
    }

    /// Whether two have bytes in common. For two mapped devices on one disk that is not known: they are taken to be
    /// separate.
    pub fn meets(&self, other: &Layer) -> bool {
        let is_one = self.identity == other.identity;
        let is_common = self.from < other.end && other.from < self.end;
        is_one && is_common && (self.is_exact || other.is_exact)
    }

    // The same bytes in the storage below, after this many others, if it has that many.
    fn on(&self, identity: Identity, offset: u64, length: u64) -> Layer {
        Layer {
            identity,
            from: offset.saturating_add(self.from),
            end: offset.saturating_add(self.end.min(length)),
            is_exact: self.is_exact,
        }
    }
}

/// Whether a file shares its storage with one of these, or is one of them.
pub fn is_shared<S: System>(
    system: &S,
    identity: Identity,
    files: &[Identity],
) -> Result<bool, AllocError> {
    let mut ours = None;
    for file in files {
        if identity.block().is_none() && file.block().is_none() {
            continue;
        }
        if ours.is_none() {
            ours = Some(layers_of(system, identity)?);
        }
        let theirs = layers_of(system, *file)?;
        if let Some(ours) = &ours
            && any_meets(ours.as_slice(), theirs.as_slice())
        {
            return Ok(true);
        }
    }
    Ok(false)
}

fn any_meets(ours: &[Layer], theirs: &[Layer]) -> bool {
    for our in ours {
        for their in theirs {
            if our.meets(their) {
                return true;
            }
        }
    }
    false
}

// A file, and all storage below it.
fn layers_of<S: System>(system: &S, identity: Identity) -> Result<Vec<Layer>, AllocError> {
    let mut layers = Vec::new(system.alloc());
    add_layer(&mut layers, Layer::whole(identity))?;
    for at in 0..MOST {
        if at >= layers.len() {
            break;
        }
        let layer = layers[at];
        if let Some(device) = layer.identity.block() {
            add_backing(system, layer, device, &mut layers)?;
            add_disk(system, layer, device, &mut layers)?;
            add_mapped(system, device, &mut layers)?;
        }
    }
    Ok(layers)
}

fn add_layer(layers: &mut Vec<Layer>, layer: Layer) -> Result<(), AllocError> {
    match layers.push(layer) {
        Ok(()) => Ok(()),
        Err(_) => Err(AllocError),
    }
}

// A loop device is backed by a file.
fn add_backing<S: System>(
    system: &S,
    layer: Layer,
    device: u64,
    layers: &mut Vec<Layer>,
) -> Result<(), AllocError> {
    let Some(path) = told_bytes(system, device, "loop/backing_file")? else {
        return Ok(());
    };
    let Ok(path) = str::from_utf8(path.as_slice()) else {
        return Ok(());
    };
    let Ok(backing) = found_at(system, path) else {
        return Ok(());
    };
    let offset = told_number(system, device, "loop/offset")?.unwrap_or(0);
    let length = told_sectors(system, device, "size")?.unwrap_or(u64::MAX);
    add_layer(layers, layer.on(backing.identity, offset, length))
}

// A partition is a part of its disk.
fn add_disk<S: System>(
    system: &S,
    layer: Layer,
    device: u64,
    layers: &mut Vec<Layer>,
) -> Result<(), AllocError> {
    if told_bytes(system, device, "partition")?.is_none() {
        return Ok(());
    }
    let Some(disk) = told_device(system, device, "../dev")? else {
        return Ok(());
    };
    let start = told_sectors(system, device, "start")?.unwrap_or(0);
    let length = told_sectors(system, device, "size")?.unwrap_or(u64::MAX);
    add_layer(layers, layer.on(Identity::of_block(disk), start, length))
}

// A mapped device, or one of several disks, is somewhere on others.
fn add_mapped<S: System>(
    system: &S,
    device: u64,
    layers: &mut Vec<Layer>,
) -> Result<(), AllocError> {
    let mut below = Vec::new(system.alloc());
    add_devices(system, device, "slaves", false, &mut below)?;
    for number in below.iter() {
        let layer = Layer {
            is_exact: false,
            ..Layer::whole(Identity::of_block(*number))
        };
        add_layer(layers, layer)?;
    }
    Ok(())
}
