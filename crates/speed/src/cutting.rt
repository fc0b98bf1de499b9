//! Cutting sparse images.

ghost use Rattle.std.specs.Prelude.{◌≡◌, false};

use crate::devices::{Memory, Sink};
use crate::digest::Digest;
use crate::images::{Maker, WORD};
use crate::jobs::Size;
use crate::random::Random;
use abt_io::{Meter, Source, Window};
use abt_pieces::{Piece, PieceFault};
use abt_runs::SparseRuns;
use anyhow::{Result, bail};
use cmd_common_sparse::PiecesOf;
use std::alloc::Global;
use sys_devices::FileSource;
use sys_readers::ToWrite;
use sys_std::OsFile;

fn next_piece<S: Source>(
    pieces: &mut PiecesOf<SparseRuns>,
    source: &mut S,
    output: &mut ToWrite<Sink>,
    w: &mut Window,
    m: &mut Meter,
) -> Result<Option<Piece>, PieceFault>
    requires { S.models ≡ false }
{
    pieces.cutter.next_piece(source, output, w, m)
}

/// Cuts the image of a source, and adds each piece to a digest.
fn cut<S: Source>(
    source: &mut S,
    limit: u32,
    digest: &mut Digest,
    w: &mut Window,
    m: &mut Meter,
) -> Result<()>
    requires { S.models ≡ false }
{
    let runs = SparseRuns::open(source, w, m)?;
    let Ok(mut pieces) = PiecesOf::open(runs, limit) else {
        bail!("the limit is too small");
    };
    let mut output = ToWrite::new(Sink::new());
    for _ in 0..u32::MAX {
        match next_piece(&mut pieces, source, &mut output, w, m)? {
            Some(piece) => digest.note(piece.bytes),
            None => break,
        }
    }
    digest.join(&output.writer.digest);
    Ok(())
}

/// Images of the smallest blocks, each a chunk of its own: at limits that make thousands of pieces, and a few.
pub fn cut_single(
    alloc: Global,
    seed: u64,
    size: Size,
    w: &mut Window,
    m: &mut Meter,
) -> Result<Digest> {
    let mut digest = Digest::new();
    let mut random = Random::new(seed);
    let mut maker = Maker::new(alloc, seed)?;
    for round in 0..size.rounds {
        maker.sparse(WORD, size.chunks, 1)?;
        let limit = if round % 2 == 0 { 2_000 } else { 1_000_000 };
        let limit = random.below(1_000).saturating_add(limit);
        let mut source = Memory::new(maker.image());
        cut(&mut source, limit, &mut digest, w, m)?;
    }
    Ok(digest)
}

/// The image of a file at many limits.
pub fn cut_file(
    source: &mut FileSource<OsFile>,
    seed: u64,
    w: &mut Window,
    m: &mut Meter,
) -> Result<Digest> {
    let mut digest = Digest::new();
    let mut limit = Random::new(seed).below(997).saturating_add(20_000);
    for _ in 0..2_500u32 {
        cut(source, limit, &mut digest, w, m)?;
        limit = limit.saturating_add(331);
    }
    Ok(digest)
}
