//! A command over a disk in memory.

use crate::made::disk;
use abt_io::{Meter, Window};
use mem_disk::{Faults, MemoryDisk};
use mem_test_commands::{Before, Command, PATHS, files, is_done};
use std::alloc::AllocError;
use sys_report::Report;

/// Runs a command over such files, from `in` to the file of this name: whether it returns Ok, and the disk after it.
pub(crate) fn run(
    rt: HostRuntime,
    command: Command,
    output: &str,
    before: Before,
    faults: Faults,
) -> Result<(bool, MemoryDisk), AllocError> {
    let alloc = rt.alloc();
    let Some(made) = disk(alloc, &PATHS, &files(before), true, faults) else {
        return Err(AllocError);
    };
    let mut disk = made;
    let mut report = Report::new(rt);
    let mut w = Box::new(alloc, Window::new())?;
    let mut m = Meter::new();
    let is_done = is_done(
        command,
        output,
        alloc,
        &mut disk,
        &mut report,
        &mut w,
        &mut m,
    );
    Ok((is_done, disk))
}
