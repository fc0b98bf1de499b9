//! Delivers a raw image, whole or from one of its pieces on.

ghost use Rattle.std.specs.Prelude.{◌≤◌, ◌+◌, ◌-◌, ◌*◌, IsTrue, IfOk, length, max, true};
ghost use Rattle.abt_sparse.specs.Block.{classify};
ghost use Rattle.abt_flash.specs.Delivering.{blocks_in_first};
ghost use Rattle.abt_flash.specs.Raw.{RawDelivered};
ghost use Rattle.abt_flash.specs.Way.{ReadForRaw};

use crate::answer::Delivered;
use crate::deliver_opened::deliver_behind;
use crate::delivering::pieces_before;
use crate::sparse::not_read;
use crate::way::{Forward, Way};
use abt_flash_faults::FlashFault;
use abt_io::{Meter, Partition, Source, Spool, Window};
use abt_runs::RawRuns;

/// Delivers all pieces of a raw image in blocks of this size but so many of the first, which are only planned.
pub(crate) fn raw_behind<W: Way<RawRuns, L>, S: Source, L: Spool, P: Partition>(
    way: &W,
    source: &mut S,
    b: u32,
    limit: u32,
    before: u32,
    spool: &mut L,
    partition: &mut P,
    w: &mut Window,
    m: &mut Meter,
) -> Result<Delivered, FlashFault>
    requires capacity { limit ≤ L.size spool.old }
    ensures delivered { RawDelivered W.is_forward b limit before
        S.Source L.Input L.Output L.Spool.own P.Source P.Partition.own result source.old source.new spool.old
        spool.new partition.old partition.new m.old m.new }
    ensures reads { IsTrue S.models →
        IfOk result (λ d. ReadForRaw W.before W.each W.last W.all b (length (S.content source.old))
        (blocks_in_first limit b (classify b (S.content source.old)) before) before d.pieces (S.given source.old)
        (S.given source.new)) }
    ensures few { IsTrue S.models →
        IfOk result (λ d. before + d.pieces ≤ max 1 (length (classify b (S.content source.old)))) }
{
    match RawRuns::open(source, b) {
        Ok(runs) => deliver_behind(way, runs, source, limit, before, spool, partition, w, m),
        Err(fault) => Err(not_read(fault)),
    }
}

/// Cuts a raw image in blocks of this size into pieces within a download limit, and flashes one after the other to a
/// partition, as `deliver` does.
pub fn deliver_raw<S: Source, L: Spool, P: Partition>(
    source: &mut S,
    b: u32,
    limit: u32,
    spool: &mut L,
    partition: &mut P,
    w: &mut Window,
    m: &mut Meter,
) -> Result<Delivered, FlashFault>
    requires capacity { limit ≤ L.size spool.old }
    ensures delivered { RawDelivered true b limit 0
        S.Source L.Input L.Output L.Spool.own P.Source P.Partition.own result source.old source.new spool.old
        spool.new partition.old partition.new m.old m.new }
    ensures reads { IsTrue S.models →
        IfOk result (λ d. S.given source.new ≤ S.given source.old + 8 * length (S.content source.old)
        + 128 * (d.pieces + 1)) }
{
    raw_behind(&Forward {}, source, b, limit, 0, spool, partition, w, m)
}

/// Delivers a raw image from a piece on, counted from 1, as `resume` does: those before it are planned and passed over.
pub fn resume_raw<S: Source, L: Spool, P: Partition>(
    source: &mut S,
    b: u32,
    limit: u32,
    from_piece: u32,
    spool: &mut L,
    partition: &mut P,
    w: &mut Window,
    m: &mut Meter,
) -> Result<Delivered, FlashFault>
    requires some { 1 ≤ from_piece }
    requires capacity { limit ≤ L.size spool.old }
    ensures delivered { RawDelivered true b limit (from_piece - 1)
        S.Source L.Input L.Output L.Spool.own P.Source P.Partition.own result source.old source.new spool.old
        spool.new partition.old partition.new m.old m.new }
    ensures reads { IsTrue S.models →
        IfOk result (λ d. S.given source.new ≤ S.given source.old + 8 * length (S.content source.old)
        + 128 * ((from_piece - 1) + d.pieces + 1)) }
{
    raw_behind(
        &Forward {},
        source,
        b,
        limit,
        pieces_before(from_piece),
        spool,
        partition,
        w,
        m,
    )
}
