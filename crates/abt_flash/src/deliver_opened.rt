//! Delivers an opened image, whole or from one of its pieces on.

ghost use Rattle.std.specs.Prelude.{◌≡◌, ◌<◌, ◌≤◌, ◌+◌, ◌*◌, IsTrue, IfOk, MatchBool, length, max, true};
ghost use Rattle.abt_flash.specs.Causes.{opening_fault};
ghost use Rattle.abt_flash.specs.Delivering.{OpenDelivered, blocks_in_first};
ghost use Rattle.abt_flash.specs.Way.{ReadFor};

use crate::answer::Delivered;
use crate::delivering::{deliver_rest, plan_pieces};
use crate::way::{Forward, Way};
use abt_flash_faults::FlashFault;
use abt_io::{Meter, Partition, Source, Spool, Window};
use abt_pieces::{Cutter, PieceFault};
use abt_runs::BlockRuns;

/// Why a cutter is not opened.
fn not_opened(fault: PieceFault) -> FlashFault
    ensures { result ≡ opening_fault fault }
{
    match fault {
        PieceFault::LimitTooSmall { least } => FlashFault::LimitTooSmall { least },
        PieceFault::Read(fault) => FlashFault::Read(fault),
        PieceFault::Write(fault) => FlashFault::Write(fault),
        PieceFault::SourceChanged => FlashFault::SourceChanged,
        PieceFault::TooLarge => FlashFault::TooLarge,
        PieceFault::BadBlock(size) => FlashFault::BadBlock(size),
    }
}

/// Whether a partition of this size is too small for what its image needs.
fn is_too_small(size: u64, need: u64) -> bool
    ensures { MatchBool result (size < need) (need ≤ size) }
{
    size < need
}

/// Delivers all pieces of an opened image but so many of the first, which are only planned.
pub(crate) fn deliver_behind<W: Way<R, L>, R: BlockRuns + Drop, S: Source, L: Spool, P: Partition>(
    way: &W,
    runs: R,
    source: &mut S,
    limit: u32,
    before: u32,
    spool: &mut L,
    partition: &mut P,
    w: &mut Window,
    m: &mut Meter,
) -> Result<Delivered, FlashFault>
    requires capacity { limit ≤ L.size spool.old }
    requires opened { IsTrue S.models → R.opened runs (S.content source.old) }
    ensures delivered { OpenDelivered R.BlockRuns runs W.is_forward limit before
        S.Source L.Input L.Output L.Spool.own P.Source P.Partition.own result source.old source.new spool.old
        spool.new partition.old partition.new m.old m.new }
    ensures reads { IsTrue S.models →
        IfOk result (λ d. ReadFor (R.within runs) (R.charge runs) (W.before runs) (R.one runs) (W.each runs)
        (W.last runs) (W.all runs) (blocks_in_first limit (R.size runs) (R.list runs (S.content source.old)) before)
        before d.pieces (S.given source.old) (S.given source.new)) }
    ensures few { IfOk result (λ d. before + d.pieces ≤ max 1 (R.count runs)) }
    ensures grown { S.given source.old ≤ S.given source.new × L.given spool.old
        ≤ L.given spool.new × length (L.written spool.old) ≤ length (L.written spool.new) × P.taken partition.old
        ≤ P.taken partition.new }
{
    let mut cutter = match Cutter::open(runs, limit) {
        Ok(cutter) => cutter,
        Err(fault) => return Err(not_opened(fault)),
    };
    let need = cutter.runs.blocks() as u64 * cutter.runs.block_size() as u64;
    if is_too_small(partition.length(), need) {
        return Err(FlashFault::PartitionTooSmall { need });
    }
    match plan_pieces(&mut cutter, source, before, w, m) {
        Ok(()) => {}
        Err(fault) => return Err(fault),
    }
    deliver_rest(way, &mut cutter, source, spool, partition, w, m)
}

/// Cuts an opened image into pieces within a download limit, and flashes one after the other to a partition: each is
/// written to the spool after a clear, flashed from there, and synced.
pub fn deliver_runs<R: BlockRuns + Drop, S: Source, L: Spool, P: Partition>(
    runs: R,
    source: &mut S,
    limit: u32,
    spool: &mut L,
    partition: &mut P,
    w: &mut Window,
    m: &mut Meter,
) -> Result<Delivered, FlashFault>
    requires capacity { limit ≤ L.size spool.old }
    requires opened { IsTrue S.models → R.opened runs (S.content source.old) }
    ensures delivered { OpenDelivered R.BlockRuns runs true limit 0
        S.Source L.Input L.Output L.Spool.own P.Source P.Partition.own result source.old source.new spool.old
        spool.new partition.old partition.new m.old m.new }
    ensures reads { IsTrue S.models →
        IfOk result (λ d. S.given source.new + R.opening runs
        ≤ S.given source.old + 8 * R.image runs + 128 * (d.pieces + 1)) }
{
    deliver_behind(&Forward {}, runs, source, limit, 0, spool, partition, w, m)
}
