//! Reading sparse images forward: expanding them, listing them, and feeding them in parts as a C program does.

use crate::devices::{Memory, Sink};
use crate::digest::Digest;
use crate::images::{BLOCK, Maker, WORD};
use crate::jobs::Size;
use abt_chunks::{Chunks, Part, Pull, Puller, expand};
use abt_io::{Meter, Window};
use abt_sparse::SparseFault;
use anyhow::Result;
use std::alloc::Global;
use sys_readers::ToWrite;

fn expanded(image: &[u8], w: &mut Window, m: &mut Meter) -> Result<Digest, SparseFault> {
    let mut input = Memory::new(image);
    let mut output = ToWrite::new(Sink::new());
    let expanded = expand(&mut input, &mut output, w, m)?;
    let mut digest = output.writer.digest;
    digest.note(expanded.bytes);
    Ok(digest)
}

fn listed(image: &[u8], w: &mut Window, m: &mut Meter) -> Result<Digest, SparseFault> {
    let mut digest = Digest::new();
    let mut input = Memory::new(image);
    let mut chunks = Chunks::open(&mut input, w, m)?;
    for _ in 0..u32::MAX {
        match chunks.next(&mut input, w, m)? {
            Some(chunk) => {
                digest.note(u64::from(chunk.blocks));
                digest.note(u64::from(u32::from_le_bytes(chunk.word)));
            }
            None => break,
        }
    }
    Ok(digest)
}

fn note(part: Part, digest: &mut Digest) {
    match part {
        Part::Raw(n) => digest.note(n as u64),
        Part::Words(word, n) => {
            digest.note(u64::from(u32::from_le_bytes(word)));
            digest.note(n);
        }
        Part::Skip(n) => digest.note(n),
        Part::Nothing => {}
        Part::End => digest.note(1),
        Part::Fault(fault) => digest.note(u64::from(fault.number())),
    }
}

// All parts that this piece of an image gives.
fn pull_all(puller: &mut Puller, bytes: &[u8], digest: &mut Digest) {
    let mut rest = bytes;
    for _ in 0..u64::MAX {
        let pulled = puller.pull(rest);
        rest = rest.get(pulled.used..).unwrap_or(&[]);
        match pulled.pull {
            Pull::Need => return,
            Pull::Gives(part) => {
                note(part, digest);
                if let Part::End | Part::Fault(_) = part {
                    return;
                }
            }
        }
    }
}

fn fed(image: &[u8]) -> Digest {
    let mut digest = Digest::new();
    let mut puller = Puller::new();
    for piece in image.chunks(4096) {
        pull_all(&mut puller, piece, &mut digest);
    }
    note(puller.last(), &mut digest);
    digest
}

/// Images of blocks of the size that tools write, and of the smallest ones, each read in three ways.
pub fn read_all(
    alloc: Global,
    seed: u64,
    size: Size,
    w: &mut Window,
    m: &mut Meter,
) -> Result<Digest> {
    let mut digest = Digest::new();
    let mut maker = Maker::new(alloc, seed)?;
    for round in 0..size.rounds {
        if round % 2 == 0 {
            maker.sparse(BLOCK, size.chunks, 3)?;
        } else {
            maker.sparse(WORD, size.chunks.saturating_mul(20), 3)?;
        }
        let image = maker.image();
        digest.join(&expanded(image, w, m)?);
        digest.join(&listed(image, w, m)?);
        digest.join(&fed(image));
    }
    Ok(digest)
}
