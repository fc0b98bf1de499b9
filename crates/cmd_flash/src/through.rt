//! Writes the pieces of an image to a partition, through a file that is closed after them.

ghost use Rattle.std.specs.Prelude.{◌≡◌, ◌≤◌, ◌+◌, ◌-◌, [], IfErr, IfOk, IsTrue, OnErr, OnOk, Some, None, false};
ghost use Rattle.sys_disk.specs.World.{SparesRest};
ghost use Rattle.abt_io.specs.declared.device.DeviceFault.{DeviceFault};
ghost use Rattle.abt_flash_faults.specs.declared.fault.Cause.{Cause};
ghost use Rattle.cmd_flash.specs.InPieces.{DeliversPieces, SyncsPieces};
ghost use Rattle.cmd_flash.specs.Through.{ClosesSpool, HasFailedWith, HasNotFailedWith, told};

use crate::delivering::delivered;
use abt_flash::Delivered;
use abt_flash_faults::{Cause, FlashFault};
use abt_io::{DeviceFault, Meter, Window};
use sys_disk::Disk;
use sys_refusals::{FileArg, HostRefusal};
use sys_report::Carried;

/// Flashes the pieces from this one on. All that they went through is in its file then.
pub(crate) fn delivered_through<'a, D: Disk>(
    disk: &mut D,
    source: &mut Carried<'_, D::At>,
    raw: Option<u32>,
    limit: u32,
    from: u32,
    through: D::Through,
    spool: FileArg<'a>,
    onto: &mut D::InPlace,
    w: &mut Window,
    m: &mut Meter,
) -> (Result<Delivered, FlashFault>, Option<i32>)
    requires some { 1 ≤ from }
    requires capacity { limit ≤ D.Through.Spool.size through }
    // what the partition holds, or why not: a device's fault where one has failed of devices that had not yet
    ensures delivers { IsTrue D.models → (D.InPlace.past onto.old).pending ≡ [] → DeliversPieces
        (λ cause. D.At.read_faults source.old.device + D.InPlace.put_faults onto.old
        + (D.Through.Output.write_faults through + (D.Through.Input.read_faults through
        + D.Through.Spool.clear_faults through)) ≡ 0 → HasFailedWith (D.At.read_faults source.new.device)
        (D.InPlace.put_faults onto.new) (D.held disk.old) (D.held disk.new) cause) raw result.0 limit (from - 1)
        (D.At.content source.old.device) (D.InPlace.content onto.old) (D.InPlace.content onto.new) }
    ensures syncs { SyncsPieces result.0 D.InPlace.Source D.InPlace.Partition.own onto.old onto.new }
    ensures same { IsTrue D.models → (D.InPlace.past onto.new).file ≡ (D.InPlace.past onto.old).file }
    ensures clean { IsTrue D.models → OnOk result.0 (D.At.read_faults source.old.device + D.InPlace.put_faults onto.old
        + (D.Through.Output.write_faults through + (D.Through.Input.read_faults through
        + D.Through.Spool.clear_faults through)) ≡ 0 → HasNotFailedWith (D.At.read_faults source.new.device)
        (D.InPlace.put_faults onto.new) (D.held disk.old) (D.held disk.new)) }
    // and of the disk
    ensures closed { IsTrue D.models → ClosesSpool (D.held disk.old) (D.held disk.new) }
    ensures rest { IsTrue D.models → SparesRest (D.held disk.old).spool (D.world disk.old) (D.world disk.new) }
{
    let mut through = through;
    let answer = delivered(source, raw, limit, from, &mut through, onto, w, m);
    let why = disk.why_of_spool(&through);
    let (cause, why) = late(disk.close_spool(through, spool), why);
    (told_of(answer, from, cause), why)
}

// Why the pieces were not delivered after all: closing the spool failed, or the spool did not let them be read
// because IN had changed. Also returns the system's error where a call of the spool had failed, or this one did.
fn late<'a>(closed: Result<bool, HostRefusal<'a>>, why: Option<i32>) -> (Option<Cause>, Option<i32>)
    ensures settled { OnErr closed.entry (result.0 ≡ Some (Cause.SpoolWrite DeviceFault.Failed)) }
    ensures changed { IfOk closed.entry (λ is_changed. IsTrue is_changed → result.0 ≡ Some Cause.SourceChanged) }
    ensures none { IfOk closed.entry (λ is_changed. is_changed ≡ false → result.0 ≡ None) }
{
    match closed {
        Err(refusal) => (
            Some(Cause::SpoolWrite(DeviceFault::Failed)),
            why.or(refusal.about.why),
        ),
        Ok(true) => (Some(Cause::SourceChanged), why),
        Ok(false) => (None, why),
    }
}

// The result of delivering pieces from this one on, where there may be a cause that came before what stopped them. A
// piece whose bytes could not all be written to the spool stopped for that, since any other cause came later.
fn told_of(
    delivered: Result<Delivered, FlashFault>,
    from: u32,
    late: Option<Cause>,
) -> Result<Delivered, FlashFault>
    ensures { result ≡ told delivered from late }
{
    let Some(cause) = late else {
        return delivered;
    };
    match delivered {
        Err(FlashFault::Stopped { piece, .. }) => Err(FlashFault::Stopped { piece, cause }),
        Err(fault) => Err(fault),
        Ok(delivered) => Err(FlashFault::Stopped {
            piece: from.saturating_sub(1).saturating_add(delivered.pieces),
            cause,
        }),
    }
}
