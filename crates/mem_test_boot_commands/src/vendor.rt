//! A vendor boot image.

use std::alloc::{AllocError, Global};

/// A vendor boot image of version 4, as runs of bytes with their positions. Between them it has zeros.
const RUNS: [(usize, &[u8]); 8] = [
    (0, b"VNDRBOOT\x04\0\0\0\0\x08\0\0"),
    (24, b"\x0a\0\0\0"),
    (2096, b"\x50\x08\0\0\x03\0\0\0"),
    (2112, b"\x6c\0\0\0\x01\0\0\0\x6c\0\0\0\x05\0\0\0"),
    (4096, b"0123456789"),
    (6144, b"dtb"),
    (8192, b"\x0a\0\0\0\0\0\0\0\x01\0\0\0"),
    (10240, b"a=b\nc"),
];

/// The image that IN has.
pub fn image(alloc: Global) -> Result<Vec<u8>, AllocError> {
    let mut bytes = Vec::new(alloc);
    for (at, run) in RUNS.iter() {
        bytes.resize(*at, 0)?;
        bytes.extend_from_slice(run)?;
    }
    Ok(bytes)
}
