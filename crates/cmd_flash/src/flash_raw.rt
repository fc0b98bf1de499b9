//! The command `flash` of a raw image that is written straight to a partition.

ghost use Rattle.std.specs.Prelude.{IsTrue, OnOk, IfErr};
ghost use Rattle.sys_refusals.specs.Paths.{path_of};
ghost use Rattle.sys_report.specs.Shows.{ShowsBeside, Unprinted};
ghost use Rattle.sys_disk.specs.DiskCalls.{HasNoPart};
ghost use Rattle.cmd_flash.specs.Files.{LeavesOthers, SparesAround};
ghost use Rattle.cmd_flash.specs.FlashingRaw.{FlashesRawFile, RefusesFlashRaw};

use crate::blocks::flash_blocks;
use abt_io::{Meter, Source, Window};
use cmd_common_sparse::{Line, SparseCommandFault, SparseRefusal};
use sys_disk::{Disk, closed};
use sys_refusals::{FileArg, Sides};
use sys_report::{Carried, Report};

/// Flashes a raw image in blocks of this many bytes to a partition, which must exist, and prints how many blocks
/// these were. The image is read once, at any position, so standard input must be a file.
#[inline(never)]
pub fn flash_raw_file<'a, D: Disk>(
    disk: &mut D,
    report: &mut Report,
    input: FileArg<'a>,
    partition: FileArg<'a>,
    size: u32,
    w: &mut Window,
    m: &mut Meter,
) -> Result<(), SparseRefusal<'a>>
    requires ready { IsTrue D.models → HasNoPart (D.held disk.old) }
    // PARTITION begins with IN in whole blocks, and is synced; the printed line has its number of blocks
    ensures done { IsTrue D.models → OnOk result (FlashesRawFile size (path_of input.entry) (path_of partition.entry)
        (D.world disk.old) (D.world disk.new) (D.held disk.old).syncs (D.held disk.new).syncs
        (ShowsBeside (D.on_output (path_of partition.entry)) report.old report.new)) }
    // whatever the outcome, only PARTITION may hold anything else, where it is not in use or that is allowed, and IN
    // holds what it held; after an Ok nothing has failed
    ensures leaves { IsTrue D.models → LeavesOthers result (SparesAround (path_of partition.entry) (D.held disk.old)
        (D.world disk.old) (D.world disk.new)) (path_of input.entry) (D.held disk.old) (D.held disk.new)
        (D.world disk.old) (D.world disk.new) }
    // it fails for its blocks, for lack of room, or where a file, a device or the report failed
    ensures refused { IsTrue D.models → IfErr result (λ refusal. RefusesFlashRaw refusal.fault size
        (path_of input.entry)
        (path_of partition.entry) (D.world disk.old) (D.world disk.new) (D.held disk.old) (D.held disk.new)
        (Unprinted report.old report.new)) }
{
    let source = disk.source(input)?;
    report.progress.expect(source.length(), 1);
    let mut onto = disk.partition(partition)?;
    let mut carried = Carried {
        device: source,
        progress: &mut report.progress,
    };
    let answer = flash_blocks(&mut carried, size, &mut onto, w, m);
    let Carried { device: source, .. } = carried;
    disk.let_go_source(source);
    let sides = Sides::none()
        .reading(input, None)
        .writing(partition, disk.why_of_part(&onto));
    let (blocks, is_on_output) = match closed(disk, answer, onto, partition, sides) {
        Ok(end) => end,
        Err(refusal) => return Err(refusal),
    };
    report.line_beside(is_on_output, Line::Blocks(blocks as u64))?;
    Ok(())
}
