//! Writes the pieces of an image to a partition, by one call of the engine.

ghost use Rattle.std.specs.Prelude.{◌≡◌, ◌≤◌, ◌+◌, ◌-◌, [], IsTrue, OnOk};
ghost use Rattle.cmd_flash.specs.Files.{DeviceFailed, NeitherFailed};
ghost use Rattle.cmd_flash.specs.InPieces.{DeliversPieces, SyncsPieces};

use abt_flash::{Delivered, resume, resume_raw_at};
use abt_flash_faults::FlashFault;
use abt_io::{Meter, Overwrite, Partition, Source, Spool, Window};
use sys_report::Carried;

/// Flashes the pieces from this one on, of a raw image in one pass over it.
pub(crate) fn delivered<S: Source, L: Spool + Overwrite, P: Partition>(
    source: &mut Carried<'_, S>,
    raw: Option<u32>,
    limit: u32,
    from: u32,
    spool: &mut L,
    onto: &mut P,
    w: &mut Window,
    m: &mut Meter,
) -> Result<Delivered, FlashFault>
    requires some { 1 ≤ from }
    requires capacity { limit ≤ L.size spool.old }
    // what the partition holds, or why not: a device's fault where one has failed of devices that had not yet
    ensures delivers { IsTrue S.models → IsTrue L.models → IsTrue P.models → (P.past onto.old).pending ≡ []
        → DeliversPieces
        (λ cause. S.read_faults source.old.device + P.put_faults onto.old + (L.write_faults spool.old
        + (L.read_faults spool.old + L.clear_faults spool.old)) ≡ 0 → DeviceFailed
        (S.read_faults source.old.device + L.read_faults spool.old)
        (S.read_faults source.new.device + L.read_faults spool.new)
        (P.put_faults onto.old + (L.write_faults spool.old + L.clear_faults spool.old))
        (P.put_faults onto.new + (L.write_faults spool.new + L.clear_faults spool.new)) cause)
        raw result limit (from - 1) (S.content source.old.device) (P.content onto.old) (P.content onto.new) }
    ensures syncs { SyncsPieces result P.Source P.Partition.own onto.old onto.new }
    ensures same { IsTrue S.models → IsTrue L.models → IsTrue P.models
        → (P.past onto.new).file ≡ (P.past onto.old).file }
    ensures clean { OnOk result (NeitherFailed
        (S.read_faults source.old.device + L.read_faults spool.old)
        (S.read_faults source.new.device + L.read_faults spool.new)
        (P.put_faults onto.old + (L.write_faults spool.old + L.clear_faults spool.old))
        (P.put_faults onto.new + (L.write_faults spool.new + L.clear_faults spool.new))) }
{
    match raw {
        Some(size) => resume_raw_at(source, size, limit, from, spool, onto, w, m),
        None => resume(source, limit, from, spool, onto, w, m),
    }
}
