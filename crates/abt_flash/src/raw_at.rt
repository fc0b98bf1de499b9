//! Delivers a raw image in one pass over it, whole or from one of its pieces on.

ghost use Rattle.std.specs.Prelude.{◌≤◌, ◌+◌, ◌-◌, ◌*◌, IsTrue, IfOk, length, false};
ghost use Rattle.abt_sparse.specs.Block.{classify};
ghost use Rattle.abt_flash.specs.Delivering.{blocks_in_first};
ghost use Rattle.abt_flash.specs.Raw.{RawDelivered};

use crate::answer::Delivered;
use crate::delivering::pieces_before;
use crate::raw::raw_behind;
use crate::way::Late;
use abt_flash_faults::FlashFault;
use abt_io::{Meter, Overwrite, Partition, Source, Spool, Window};

/// Delivers a raw image as `deliver_raw` does, by a spool that can be written over, and reads it once: the bytes of the
/// image, and at most a window more for each piece.
///
/// The header of a piece is written after its chunks, and its magic number last of all. So where a piece is not
/// finished, what is stored in the spool after its last clear is nothing, or no image, whatever follows it.
pub fn deliver_raw_at<S: Source, L: Spool + Overwrite, P: Partition>(
    source: &mut S,
    b: u32,
    limit: u32,
    spool: &mut L,
    partition: &mut P,
    w: &mut Window,
    m: &mut Meter,
) -> Result<Delivered, FlashFault>
    requires capacity { limit ≤ L.size spool.old }
    ensures delivered { RawDelivered false b limit 0
        S.Source L.Input L.Output L.Spool.own P.Source P.Partition.own result source.old source.new spool.old
        spool.new partition.old partition.new m.old m.new }
    ensures reads { IsTrue S.models →
        IfOk result (λ d. S.given source.new ≤ S.given source.old + length (S.content source.old)
        + 65536 * d.pieces) }
{
    raw_behind(&Late {}, source, b, limit, 0, spool, partition, w, m)
}

/// Delivers a raw image from a piece on, counted from 1, as `deliver_raw_at` does: those before it are planned and
/// passed over, for which the bytes of their blocks are read too.
pub fn resume_raw_at<S: Source, L: Spool + Overwrite, P: Partition>(
    source: &mut S,
    b: u32,
    limit: u32,
    from_piece: u32,
    spool: &mut L,
    partition: &mut P,
    w: &mut Window,
    m: &mut Meter,
) -> Result<Delivered, FlashFault>
    requires some { 1 ≤ from_piece }
    requires capacity { limit ≤ L.size spool.old }
    ensures delivered { RawDelivered false b limit (from_piece - 1)
        S.Source L.Input L.Output L.Spool.own P.Source P.Partition.own result source.old source.new spool.old
        spool.new partition.old partition.new m.old m.new }
    ensures reads { IsTrue S.models →
        IfOk result (λ d. S.given source.new ≤ S.given source.old + length (S.content source.old) + 65536 * d.pieces
        + b * blocks_in_first limit b (classify b (S.content source.old)) (from_piece - 1)
        + (from_piece - 1) * (48 + b)) }
{
    raw_behind(
        &Late {},
        source,
        b,
        limit,
        pieces_before(from_piece),
        spool,
        partition,
        w,
        m,
    )
}
