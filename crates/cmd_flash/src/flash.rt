//! The command `flash` of a sparse image that is written straight to a partition.

ghost use Rattle.std.specs.Prelude.{◌≡◌, ◌-◌, IsTrue, OnOk, IfErr};
ghost use Rattle.sys_refusals.specs.Paths.{path_in, path_of};
ghost use Rattle.sys_report.specs.Shows.{ShowsBeside, Unprinted};
ghost use Rattle.sys_disk.specs.DiskCalls.{HasNoPart};
ghost use Rattle.cmd_flash.specs.Files.{DeviceFailed, LeavesOthers, NeitherFailed, SparesAround};
ghost use Rattle.cmd_flash.specs.Flashing.{FlashesFile, Lays, RefusesFlash, SyncsOnce};

use abt_flash::flash;
use abt_io::{Input, Meter, Partition, Window};
use cmd_common_sparse::{Line, SparseCommandFault, SparseRefusal};
use sys_disk::{Disk, Measured, Reasons, closed};
use sys_refusals::{FileArg, Sides};
use sys_report::{Carried, Report};

/// Flashes an image to a partition, which must be there, and prints how many blocks it was. The image is read forward,
/// so that it may be a pipe.
#[inline(never)]
pub fn flash_file<'a, D: Disk>(
    disk: &mut D,
    report: &mut Report,
    input: FileArg<'a>,
    partition: FileArg<'a>,
    w: &mut Window,
    m: &mut Meter,
) -> Result<(), SparseRefusal<'a>>
    requires ready { IsTrue D.models → HasNoPart (D.held disk.old) }
    // PARTITION holds the result of flashing IN over what it held, and is synced; the line has its number of blocks
    ensures done { IsTrue D.models → OnOk result (FlashesFile (path_in input.entry) (path_of partition.entry)
        (D.world disk.old) (D.world disk.new) (D.held disk.old).syncs (D.held disk.new).syncs
        (ShowsBeside (D.on_output (path_of partition.entry)) report.old report.new)) }
    // whatever the outcome, only PARTITION may hold anything else, where it is not in use or that is allowed, and IN
    // holds what it held; after an Ok nothing has failed
    ensures leaves { IsTrue D.models → LeavesOthers result (SparesAround (path_of partition.entry) (D.held disk.old)
        (D.world disk.old) (D.world disk.new)) (path_in input.entry) (D.held disk.old) (D.held disk.new)
        (D.world disk.old) (D.world disk.new) }
    // it fails for the first fault of IN, for lack of room, or where a file, a device or the report failed
    ensures refused { IsTrue D.models → IfErr result (λ refusal. RefusesFlash refusal.fault (path_in input.entry)
        (path_of partition.entry) (D.world disk.old) (D.world disk.new) (D.held disk.old) (D.held disk.new)
        (Unprinted report.old report.new)) }
{
    let from = disk.input(input)?;
    report.progress.expect_if(from.known_length());
    let mut onto = disk.partition(partition)?;
    let mut carried = Carried {
        device: from,
        progress: &mut report.progress,
    };
    let answer = flashed(&mut carried, &mut onto, w, m);
    let Carried { device: from, .. } = carried;
    let why = from.why();
    disk.let_go(from);
    let sides = Sides::none()
        .reading(input, why)
        .writing(partition, disk.why_of_part(&onto));
    let (blocks, is_on_output) = match closed(disk, answer, onto, partition, sides) {
        Ok(end) => end,
        Err(refusal) => return Err(refusal),
    };
    report.line_beside(is_on_output, Line::Blocks(blocks as u64))?;
    Ok(())
}

// How many blocks were flashed.
fn flashed<I: Input, P: Partition>(
    from: &mut Carried<'_, I>,
    onto: &mut P,
    w: &mut Window,
    m: &mut Meter,
) -> Result<u32, SparseCommandFault>
    ensures lays { IsTrue I.models → IsTrue P.models → Lays
        (DeviceFailed (I.read_faults from.old.device) (I.read_faults from.new.device) (P.put_faults onto.old)
        (P.put_faults onto.new))
        (I.given from.new.device - I.given from.old.device) result (I.remaining from.old.device)
        (P.content onto.old) (P.content onto.new) }
    ensures clean { OnOk result (NeitherFailed (I.read_faults from.old.device) (I.read_faults from.new.device)
        (P.put_faults onto.old) (P.put_faults onto.new)) }
    ensures syncs { SyncsOnce result P.Source P.Partition.own onto.old onto.new }
    ensures same { IsTrue I.models → IsTrue P.models → (P.past onto.new).file ≡ (P.past onto.old).file }
{
    match flash(from, onto, w, m) {
        Ok(flashed) => Ok(flashed.blocks),
        Err(fault) => Err(SparseCommandFault::Flash(fault)),
    }
}
