//! Flashing sparse images in pieces.

use crate::devices::{Board, Memory};
use crate::digest::Digest;
use crate::images::{BLOCK, Maker};
use crate::jobs::Size;
use crate::random::Random;
use abt_flash::deliver;
use abt_io::{Meter, Window};
use anyhow::{Result, bail};
use mem_devices::SliceSpool;
use std::alloc::Global;

// How many bytes the spool holds.
const ROOM: u32 = 8 << 20;

/// Delivers an image in pieces of at most this many bytes.
fn deliver_image(
    image: &[u8],
    expanded: u64,
    limit: u32,
    room: &mut [u8],
    w: &mut Window,
    m: &mut Meter,
) -> Result<Digest> {
    if room.len() < limit as usize {
        bail!("no room");
    }
    let mut source = Memory::new(image);
    let mut spool = SliceSpool::new(room);
    let mut board = Board::new(expanded);
    let delivered = deliver(&mut source, limit, &mut spool, &mut board, w, m)?;
    let mut digest = board.digest;
    digest.note(u64::from(delivered.pieces));
    Ok(digest)
}

/// Images of chunks of one to three blocks, such as those of an ext4 file system, at limits that make some dozens of
/// pieces.
pub fn deliver_mixed(
    alloc: Global,
    seed: u64,
    size: Size,
    w: &mut Window,
    m: &mut Meter,
) -> Result<Digest> {
    let mut digest = Digest::new();
    let mut random = Random::new(seed);
    let mut room = vec![in alloc; 0u8; ROOM as usize]?;
    let mut maker = Maker::new(alloc, seed)?;
    for _ in 0..size.rounds {
        maker.sparse(BLOCK, size.chunks, 3)?;
        let limit = ROOM - random.below(ROOM / 2);
        let expanded = maker.expanded();
        let told = deliver_image(maker.image(), expanded, limit, room.as_mut_slice(), w, m)?;
        digest.join(&told);
    }
    Ok(digest)
}
