//! Comparing images with the content of a partition.

use crate::devices::Memory;
use crate::digest::Digest;
use crate::images::{BLOCK, Maker};
use crate::jobs::Size;
use crate::random::Random;
use abt_chunks::expand;
use abt_io::{Meter, SliceOutput, Window};
use abt_verify::{Verified, VerifyFault, verify, verify_raw};
use anyhow::Result;
use std::alloc::{AllocError, Global};

// The bytes that any image here fits in.
const ROOM: usize = 64 << 20;

// The length of the partition on which one byte differs: no image here has fewer bytes, and comparing them takes little
// of the time of comparing a whole image.
const FRONT: u32 = 128 << 10;

/// Adds how much of an image is on the partition, or why it isn't, and where it differs.
fn note(answer: Result<Verified, VerifyFault>, digest: &mut Digest) {
    match answer {
        Ok(verified) => digest.note(verified.blocks),
        Err(VerifyFault::Differs { at }) => {
            digest.note(35);
            digest.note(at);
        }
        Err(fault) => digest.note(u64::from(fault.number())),
    }
}

/// Compares a sparse image and the raw one with the content of a partition.
fn both(
    image: &[u8],
    raw: &[u8],
    stands: &[u8],
    digest: &mut Digest,
    w: &mut Window,
    m: &mut Meter,
) {
    let mut partition = Memory::new(stands);
    let mut image = Memory::new(image);
    note(verify(&mut image, &mut partition, w, m), digest);
    let mut raw = Memory::new(raw);
    note(verify_raw(&mut raw, BLOCK, &mut partition, w, m), digest);
}

/// Makes bytes a prefix of others, except for the byte at an offset.
fn alter(bytes: &mut Vec<u8>, whole: &[u8], at: usize) -> Result<(), AllocError> {
    let front = whole.get(..FRONT as usize).unwrap_or(&[]);
    bytes.clear();
    bytes.extend_from_slice(front)?;
    if let Some(byte) = bytes.as_mut_slice().get_mut(at) {
        *byte = !*byte;
    }
    Ok(())
}

/// Images of chunks of one to three blocks, each compared with its expansion, and that with itself; and both with a
/// short partition, of which one byte differs.
pub fn compare(
    alloc: Global,
    seed: u64,
    size: Size,
    w: &mut Window,
    m: &mut Meter,
) -> Result<Digest> {
    let mut digest = Digest::new();
    let mut random = Random::new(seed);
    let mut maker = Maker::new(alloc, seed)?;
    let mut room = vec![in alloc; 0u8; ROOM]?;
    let mut altered = Vec::new(alloc);
    for _ in 0..size.rounds {
        maker.sparse(BLOCK, size.chunks, 3)?;
        let image = maker.image();
        let mut output = SliceOutput::new(room.as_mut_slice());
        expand(&mut Memory::new(image), &mut output, w, m)?;
        let raw = room.get(..maker.expanded() as usize).unwrap_or(&[]);
        both(image, raw, raw, &mut digest, w, m);
        alter(&mut altered, raw, random.below(FRONT) as usize)?;
        both(image, raw, altered.as_slice(), &mut digest, w, m);
    }
    Ok(digest)
}
