//! The commands over a disk in memory, as one call.

ghost use Rattle.mem_disk.specs.Memory.{held_of};
ghost use Rattle.sys_disk.specs.World.{IsReading};

use abt_io::{Meter, Window};
use mem_disk::MemoryDisk;
use mem_test_boot_commands::BootCall;
use std::alloc::AllocError;
use sys_report::Report;

/// Whether a command with IN over this disk, on which nothing is open yet, returns Ok.
pub(crate) fn is_done(
    rt: HostRuntime,
    command: BootCall,
    disk: &mut MemoryDisk,
) -> Result<bool, AllocError>
    requires { IsReading (held_of disk.old) }
{
    let alloc = rt.alloc();
    let mut report = Report::new(rt);
    let mut w = Box::new(alloc, Window::new())?;
    let mut m = Meter::new();
    mem_test_boot_commands::is_done(command, alloc, disk, &mut report, &mut w, &mut m)
}
