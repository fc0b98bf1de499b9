//! Whether a block device is in use: a file system on it is mounted, or it is swap. If `/proc` does not exist, no
//! device is.

use crate::identity::found_at;
use crate::sysfs::{add_devices, device_in};
use std::alloc::{AllocError, Global};
use std::io;
use sys_file::System;

// The most devices that are examined.
const MOST: usize = 1024;

/// Whether this block device is in use, or a partition of it, or a device on one of these.
pub fn is_in_use<S: System>(system: &S, device: u64) -> Result<bool, AllocError> {
    let devices = devices_on(system, device)?;
    let devices = devices.as_slice();
    if is_mounted(system, devices)? {
        return Ok(true);
    }
    is_swap(system, devices)
}

// This device, its partitions, and all devices on them.
fn devices_on<S: System>(system: &S, device: u64) -> Result<Vec<u64>, AllocError> {
    let mut devices = Vec::new(system.alloc());
    if devices.push(device).is_err() {
        return Err(AllocError);
    }
    for at in 0..MOST {
        if at >= devices.len() {
            break;
        }
        let one = devices[at];
        add_devices(system, one, ".", true, &mut devices)?;
        add_devices(system, one, "holders", false, &mut devices)?;
    }
    Ok(devices)
}

fn is_mounted<S: System>(system: &S, devices: &[u64]) -> Result<bool, AllocError> {
    let Some(text) = text_at(system, "/proc/self/mountinfo")? else {
        return Ok(false);
    };
    for line in text.as_str().lines() {
        if is_mount_of(system, line, devices)? {
            return Ok(true);
        }
    }
    Ok(false)
}

// `ID PARENT MAJOR:MINOR ROOT POINT OPTIONS .. - TYPE SOURCE ..`: where MAJOR is 0, which a file system has that is
// not on one device alone, SOURCE may still be one.
fn is_mount_of<S: System>(system: &S, line: &str, devices: &[u64]) -> Result<bool, AllocError> {
    let Some(number) = word_at(line, 2) else {
        return Ok(false);
    };
    match device_in(number) {
        Some(device) if devices.contains(&device) => return Ok(true),
        _ => {}
    }
    let Some((_, rest)) = line.split_once(" - ") else {
        return Ok(false);
    };
    match word_at(rest, 1) {
        Some(source) if number.starts_with("0:") && source.starts_with('/') => {
            is_one_of(system, source, devices)
        }
        _ => Ok(false),
    }
}

// A line of titles, and then `PATH TYPE SIZE USED PRIORITY`.
fn is_swap<S: System>(system: &S, devices: &[u64]) -> Result<bool, AllocError> {
    let Some(text) = text_at(system, "/proc/swaps")? else {
        return Ok(false);
    };
    for line in text.as_str().lines() {
        match word_at(line, 0) {
            Some(path) if path.starts_with('/') => {
                if is_one_of(system, path, devices)? {
                    return Ok(true);
                }
            }
            _ => {}
        }
    }
    Ok(false)
}

// The word of a line after this many others.
fn word_at(line: &str, before: usize) -> Option<&str> {
    let mut rest = line;
    for _ in 0..before {
        match rest.split_once(' ') {
            Some((_, behind)) => rest = behind,
            None => return None,
        }
    }
    match rest.split_once(|letter: char| letter == ' ' || letter == '\t') {
        Some((word, _)) => Some(word),
        None => Some(rest),
    }
}

// Whether a path, in which `\040` means a blank, leads to one of these block devices.
fn is_one_of<S: System>(system: &S, path: &str, devices: &[u64]) -> Result<bool, AllocError> {
    let path = unescaped(system.alloc(), path.as_bytes())?;
    let Ok(path) = str::from_utf8(path.as_slice()) else {
        return Ok(false);
    };
    match found_at(system, path) {
        Ok(found) => match found.identity.block() {
            Some(device) => Ok(devices.contains(&device)),
            None => Ok(false),
        },
        Err(_) => Ok(false),
    }
}

// The bytes of a path, in which a backslash and three digits encode one byte.
fn unescaped(alloc: Global, path: &[u8]) -> Result<Vec<u8>, AllocError> {
    let mut bytes = Vec::new(alloc);
    let mut skip = 0usize;
    for at in 0..path.len() {
        if skip > 0 {
            skip -= 1;
            continue;
        }
        let byte = match escaped(&path[at..]) {
            Some(byte) => {
                skip = 3;
                byte
            }
            None => path[at],
        };
        if bytes.push(byte).is_err() {
            return Err(AllocError);
        }
    }
    Ok(bytes)
}

fn escaped(path: &[u8]) -> Option<u8> {
    if path.len() < 4 || path[0] != b'\\' {
        return None;
    }
    let high = digit(path[1])?;
    let middle = digit(path[2])?;
    let low = digit(path[3])?;
    u8::try_from((high << 6) | (middle << 3) | low).ok()
}

fn digit(letter: u8) -> Option<u32> {
    if letter >= b'0' && letter <= b'7' {
        Some((letter - b'0') as u32)
    } else {
        None
    }
}

// The content of a file of /proc, if it exists.
fn text_at<S: System>(system: &S, path: &str) -> Result<Option<String>, AllocError> {
    match system.contents(path) {
        Ok(bytes) => Ok(Some(String::from_utf8_lossy(system.alloc(), bytes.as_slice())?)),
        Err(error) if error.kind() == io::ErrorKind::OutOfMemory => Err(AllocError),
        Err(_) => Ok(None),
    }
}
