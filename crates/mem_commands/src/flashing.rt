//! `flash` over the disk in memory, which models its files, so that every clause binds it.

ghost use Rattle.std.specs.Prelude.{OnOk, IfErr};
ghost use Rattle.sys_refusals.specs.Paths.{path_in, path_of};
ghost use Rattle.mem_disk.specs.Memory.{held_of, world_of};
ghost use Rattle.sys_report.specs.Shows.{ShowsHere, Unprinted};
ghost use Rattle.sys_disk.specs.DiskCalls.{HasNoPart};
ghost use Rattle.cmd_flash.specs.Files.{LeavesOthers, SparesAround};
ghost use Rattle.cmd_flash.specs.Flashing.{FlashesFile, RefusesFlash};

use abt_io::{Meter, Window};
use cmd_common_sparse::SparseRefusal;
use cmd_flash::flash_file;
use mem_disk::MemoryDisk;
use sys_refusals::FileArg;
use sys_report::Report;

/// `flash` over a disk in memory.
pub fn flash_in_memory<'a>(
    disk: &mut MemoryDisk,
    report: &mut Report,
    input: FileArg<'a>,
    partition: FileArg<'a>,
    w: &mut Window,
    m: &mut Meter,
) -> Result<(), SparseRefusal<'a>>
    requires { HasNoPart (held_of disk.old) }
    ensures done { OnOk result (FlashesFile (path_in input.entry) (path_of partition.entry) (world_of disk.old)
        (world_of disk.new) (held_of disk.old).syncs (held_of disk.new).syncs (ShowsHere report.old report.new)) }
    ensures leaves { LeavesOthers result (SparesAround (path_of partition.entry) (held_of disk.old)
        (world_of disk.old) (world_of disk.new)) (path_in input.entry) (held_of disk.old) (held_of disk.new)
        (world_of disk.old) (world_of disk.new) }
    ensures refused { IfErr result (λ refusal. RefusesFlash refusal.fault (path_in input.entry)
        (path_of partition.entry) (world_of disk.old) (world_of disk.new) (held_of disk.old) (held_of disk.new)
        (Unprinted report.old report.new)) }
{
    flash_file(disk, report, input, partition, w, m)
}
