//! Writing raw images as sparse ones, whole and in pieces, and flashing them in pieces.

use crate::devices::{Board, Memory};
use crate::digest::Digest;
use crate::images::{BLOCK, Maker};
use crate::jobs::Size;
use abt_flash::{deliver_raw, deliver_raw_at, resume_raw_at};
use abt_io::{Meter, SliceOutput, Window};
use abt_pieces::{Piece, PieceFault};
use abt_placed::{next_piece_at, sparsify_at};
use abt_runs::RawRuns;
use anyhow::{Result, bail};
use cmd_common_sparse::PiecesOf;
use mem_devices::SliceSpool;
use std::alloc::Global;

// How many bytes a piece has at most.
const LIMIT: u32 = 4 << 20;

// The bytes that the sparse image of any raw one here fits in.
const ROOM: usize = 64 << 20;

// How many blocks of 4096 a chunk has at most.
const MOST: u32 = 1_000_000;

fn sparse(image: &[u8], room: &mut [u8], w: &mut Window, m: &mut Meter) -> Result<Digest> {
    let mut digest = Digest::new();
    let mut source = Memory::new(image);
    let mut output = SliceOutput::new(room);
    let written = sparsify_at(&mut source, BLOCK, false, MOST, &mut output, w, m)?;
    digest.put(0, output.written());
    digest.note(u64::from(written.chunks));
    Ok(digest)
}

fn next_piece(
    pieces: &mut PiecesOf<RawRuns>,
    source: &mut Memory<'_>,
    output: &mut SliceOutput<'_>,
    w: &mut Window,
    m: &mut Meter,
) -> Result<Option<Piece>, PieceFault> {
    next_piece_at(&mut pieces.cutter, source, output, w, m)
}

fn cut(image: &[u8], room: &mut [u8], w: &mut Window, m: &mut Meter) -> Result<Digest> {
    let mut digest = Digest::new();
    let mut source = Memory::new(image);
    let runs = RawRuns::open(&source, BLOCK)?;
    let Ok(mut pieces) = PiecesOf::open(runs, LIMIT) else {
        bail!("the limit is too small");
    };
    for _ in 0..u32::MAX {
        let mut output = SliceOutput::new(room);
        match next_piece(&mut pieces, &mut source, &mut output, w, m)? {
            Some(piece) => digest.note(piece.bytes),
            None => break,
        }
        digest.put(0, output.written());
    }
    Ok(digest)
}

fn delivered(image: &[u8], room: &mut [u8], w: &mut Window, m: &mut Meter) -> Result<Digest> {
    if room.len() < LIMIT as usize {
        bail!("no room");
    }
    let mut source = Memory::new(image);
    let mut spool = SliceSpool::new(room);
    let mut board = Board::new((image.len() as u64).saturating_add(u64::from(BLOCK)));
    let delivered = deliver_raw(&mut source, BLOCK, LIMIT, &mut spool, &mut board, w, m)?;
    let mut digest = board.digest;
    digest.note(u64::from(delivered.pieces));
    Ok(digest)
}

/// Delivers an image from a piece on, and adds what was written to a digest. Returns the number of pieces.
fn deliver_from(
    image: &[u8],
    from: u32,
    room: &mut [u8],
    digest: &mut Digest,
    w: &mut Window,
    m: &mut Meter,
) -> Result<u32> {
    if room.len() < LIMIT as usize {
        bail!("no room");
    }
    let mut source = Memory::new(image);
    let mut spool = SliceSpool::new(room);
    let mut board = Board::new((image.len() as u64).saturating_add(u64::from(BLOCK)));
    let delivered = if from > 1 {
        resume_raw_at(
            &mut source,
            BLOCK,
            LIMIT,
            from,
            &mut spool,
            &mut board,
            w,
            m,
        )?
    } else {
        deliver_raw_at(&mut source, BLOCK, LIMIT, &mut spool, &mut board, w, m)?
    };
    digest.join(&board.digest);
    digest.note(u64::from(delivered.pieces));
    Ok(delivered.pieces)
}

/// Delivers an image, and the second half of its pieces once more.
fn delivered_once(image: &[u8], room: &mut [u8], w: &mut Window, m: &mut Meter) -> Result<Digest> {
    let mut digest = Digest::new();
    let pieces = deliver_from(image, 1, room, &mut digest, w, m)?;
    let from = (pieces / 2).saturating_add(1);
    deliver_from(image, from, room, &mut digest, w, m)?;
    Ok(digest)
}

/// Raw images: one half is as good as random, and a part only looks like equal words. Where each is to be read once,
/// the calls for that deliver it.
pub fn write_raw(
    alloc: Global,
    seed: u64,
    size: Size,
    is_once: bool,
    w: &mut Window,
    m: &mut Meter,
) -> Result<Digest> {
    let mut digest = Digest::new();
    let mut maker = Maker::new(alloc, seed)?;
    let mut room = vec![in alloc; 0u8; ROOM]?;
    for _ in 0..size.rounds {
        maker.flat(size.chunks)?;
        let image = maker.image();
        digest.join(&sparse(image, room.as_mut_slice(), w, m)?);
        digest.join(&cut(image, room.as_mut_slice(), w, m)?);
        let told = if is_once {
            delivered_once(image, room.as_mut_slice(), w, m)?
        } else {
            delivered(image, room.as_mut_slice(), w, m)?
        };
        digest.join(&told);
    }
    Ok(digest)
}
