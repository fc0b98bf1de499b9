//! Delivers a sparse image, whole or from one of its pieces on.

ghost use Rattle.std.specs.Prelude.{◌≡◌, ◌≤◌, ◌+◌, ◌-◌, ◌*◌, IsTrue, IfOk};
ghost use Rattle.abt_flash.specs.Causes.{run_fault_of};
ghost use Rattle.abt_flash.specs.Sparse.{SparseDelivered, image_length};

use crate::answer::Delivered;
use crate::deliver_opened::deliver_behind;
use crate::delivering::pieces_before;
use crate::way::Forward;
use abt_flash_faults::FlashFault;
use abt_io::{Meter, Partition, Source, Spool, Window};
use abt_runs::{RunFault, SparseRuns};

/// Why an image is not opened.
pub(crate) fn not_read(fault: RunFault) -> FlashFault
    ensures { result ≡ run_fault_of fault }
{
    match fault {
        RunFault::Sparse(fault) => FlashFault::Sparse(fault),
        RunFault::Read(fault) => FlashFault::Read(fault),
        RunFault::TooLarge => FlashFault::TooLarge,
        RunFault::SourceChanged => FlashFault::SourceChanged,
        RunFault::BadBlock(size) => FlashFault::BadBlock(size),
    }
}

/// Delivers all pieces of the sparse image at the beginning of a source but so many of the first, which are only
/// planned.
pub(crate) fn sparse_behind<S: Source, L: Spool, P: Partition>(
    source: &mut S,
    limit: u32,
    before: u32,
    spool: &mut L,
    partition: &mut P,
    w: &mut Window,
    m: &mut Meter,
) -> Result<Delivered, FlashFault>
    requires capacity { limit ≤ L.size spool.old }
    ensures delivered { SparseDelivered limit before
        S.Source L.Input L.Output L.Spool.own P.Source P.Partition.own result source.old source.new spool.old
        spool.new partition.old partition.new m.old m.new }
    ensures reads { IsTrue S.models →
        IfOk result (λ d. S.given source.new ≤ S.given source.old + 8 * image_length (S.content source.old)
        + 128 * (before + d.pieces + 1)) }
{
    match SparseRuns::open(source, w, m) {
        Ok(runs) => deliver_behind(
            &Forward {},
            runs,
            source,
            limit,
            before,
            spool,
            partition,
            w,
            m,
        ),
        Err(fault) => Err(not_read(fault)),
    }
}

/// Cuts the sparse image at the beginning of a source into pieces within a download limit, and flashes one after the
/// other to a partition: each is written to the spool after a clear, flashed from there, and synced.
pub fn deliver<S: Source, L: Spool, P: Partition>(
    source: &mut S,
    limit: u32,
    spool: &mut L,
    partition: &mut P,
    w: &mut Window,
    m: &mut Meter,
) -> Result<Delivered, FlashFault>
    requires capacity { limit ≤ L.size spool.old }
    ensures delivered { SparseDelivered limit 0
        S.Source L.Input L.Output L.Spool.own P.Source P.Partition.own result source.old source.new spool.old
        spool.new partition.old partition.new m.old m.new }
    ensures reads { IsTrue S.models →
        IfOk result (λ d. S.given source.new ≤ S.given source.old + 8 * image_length (S.content source.old)
        + 128 * (d.pieces + 1)) }
{
    sparse_behind(source, limit, 0, spool, partition, w, m)
}

/// Delivers from a piece on, counted from 1. The pieces before it are planned and passed over. All others are written
/// over whatever is there, also where they were whole already. So what a stop in this piece or a later one left is
/// mended. The pieces before it are neither read nor written: the partition must already hold them.
pub fn resume<S: Source, L: Spool, P: Partition>(
    source: &mut S,
    limit: u32,
    from_piece: u32,
    spool: &mut L,
    partition: &mut P,
    w: &mut Window,
    m: &mut Meter,
) -> Result<Delivered, FlashFault>
    requires some { 1 ≤ from_piece }
    requires capacity { limit ≤ L.size spool.old }
    ensures delivered { SparseDelivered limit (from_piece - 1)
        S.Source L.Input L.Output L.Spool.own P.Source P.Partition.own result source.old source.new spool.old
        spool.new partition.old partition.new m.old m.new }
    ensures reads { IsTrue S.models →
        IfOk result (λ d. S.given source.new ≤ S.given source.old + 8 * image_length (S.content source.old)
        + 128 * ((from_piece - 1) + d.pieces + 1)) }
{
    sparse_behind(
        source,
        limit,
        pieces_before(from_piece),
        spool,
        partition,
        w,
        m,
    )
}
