//! What Linux reports about block devices, below `/sys/dev/block/MAJOR:MINOR`. If that does not exist, it reports
//! nothing.

use crate::identity::{device_number, device_parts};
use std::alloc::{AllocError, Global};
use std::io;
use sys_file::System;

// The number of bytes of a sector, in which lengths are given there.
const SECTOR: u64 = 512;

/// The content of a file there, without the line's end.
pub fn told_bytes<S: System>(
    system: &S,
    device: u64,
    name: &str,
) -> Result<Option<Vec<u8>>, AllocError> {
    let path = path_of(system.alloc(), device, name)?;
    let mut bytes = match system.contents(path.as_str()) {
        Ok(bytes) => bytes,
        Err(error) if error.kind() == io::ErrorKind::OutOfMemory => return Err(AllocError),
        Err(_) => return Ok(None),
    };
    if bytes.last() == Some(&b'\n') {
        let _ = bytes.pop();
    }
    Ok(Some(bytes))
}

/// A number of bytes there.
pub fn told_number<S: System>(
    system: &S,
    device: u64,
    name: &str,
) -> Result<Option<u64>, AllocError> {
    let Some(bytes) = told_bytes(system, device, name)? else {
        return Ok(None);
    };
    match str::from_utf8(bytes.as_slice()) {
        Ok(text) => Ok(text.parse::<u64>().ok()),
        Err(_) => Ok(None),
    }
}

/// A number of sectors there, in bytes.
pub fn told_sectors<S: System>(
    system: &S,
    device: u64,
    name: &str,
) -> Result<Option<u64>, AllocError> {
    match told_number(system, device, name)? {
        Some(sectors) => Ok(Some(sectors.saturating_mul(SECTOR))),
        None => Ok(None),
    }
}

/// The number of a device that is named there.
pub fn told_device<S: System>(
    system: &S,
    device: u64,
    name: &str,
) -> Result<Option<u64>, AllocError> {
    let Some(bytes) = told_bytes(system, device, name)? else {
        return Ok(None);
    };
    match str::from_utf8(bytes.as_slice()) {
        Ok(text) => Ok(device_in(text)),
        Err(_) => Ok(None),
    }
}

/// The devices that a folder there names, each in a folder of its own. If they are to be the partitions of a disk, only
/// those that have a file `partition`.
pub fn add_devices<S: System>(
    system: &S,
    device: u64,
    folder: &str,
    are_parts: bool,
    to: &mut Vec<u64>,
) -> Result<(), AllocError> {
    let path = path_of(system.alloc(), device, folder)?;
    let mut names = match system.names(path.as_str()) {
        Ok(names) => names,
        Err(error) if error.kind() == io::ErrorKind::OutOfMemory => return Err(AllocError),
        Err(_) => return Ok(()),
    };
    for _ in 0..u64::MAX {
        let Some(Ok(name)) = system.next_name(&mut names) else {
            return Ok(());
        };
        let inner = format!(in system.alloc(); "{folder}/{name}")?;
        add_device(system, device, inner.as_str(), are_parts, to)?;
    }
    Ok(())
}

fn add_device<S: System>(
    system: &S,
    device: u64,
    folder: &str,
    is_part: bool,
    to: &mut Vec<u64>,
) -> Result<(), AllocError> {
    let partition = format!(in system.alloc(); "{folder}/partition")?;
    if is_part && told_bytes(system, device, partition.as_str())?.is_none() {
        return Ok(());
    }
    let number = format!(in system.alloc(); "{folder}/dev")?;
    if let Some(found) = told_device(system, device, number.as_str())?
        && !to.as_slice().contains(&found)
        && to.push(found).is_err()
    {
        return Err(AllocError);
    }
    Ok(())
}

/// `MAJOR:MINOR` as one number.
pub fn device_in(text: &str) -> Option<u64> {
    let (major, minor) = text.split_once(':')?;
    let major = major.parse::<u32>().ok()?;
    let minor = minor.parse::<u32>().ok()?;
    Some(device_number(major, minor))
}

fn path_of(alloc: Global, device: u64, name: &str) -> Result<String, AllocError> {
    let (major, minor) = device_parts(device);
    format!(in alloc; "/sys/dev/block/{major}:{minor}/{name}")
}
