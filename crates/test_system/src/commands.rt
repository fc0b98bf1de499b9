//! A command over the program's own disk, whose system is in memory, and what it has left.

use abt_io::{Meter, Window};
use mem_system::{Calls, Crash, MemorySystem, Table, Way};
use mem_test_boot_commands::{BootCall, image};
use mem_test_commands::{Before, Command, CommandRow, PATHS, files};
use mem_test_data::vectors::THREE_KINDS;
use std::alloc::{AllocError, Global};
use std::rc::Rc;
use sys_host::Reading;
use sys_host_disk::Host;
use sys_report::Report;

/// A command, and what its files hold before it.
#[derive(Clone, Copy, Drop)]
pub(crate) enum Task {
    /// Over sparse images, from `in` to the file of this name.
    Sparse(Command, &'static str, Before),
    Boot(BootCall),
}

/// A path, and what the file is to hold that it leads to.
pub(crate) type Held<'a> = (&'static str, &'a [u8]);

/// Commands that may write to standard output, and their files.
pub(crate) const STREAMED: [CommandRow; 2] = [
    (Command::Expand, (&THREE_KINDS, b"")),
    (Command::Sparse, (b"a raw 12", b"")),
];

/// What OUT of `pack` and `repack` held.
pub(crate) const OLDER: &[u8] = b"ANDROID! an older image";

impl Task {
    /// The files that it may write.
    pub fn written(self) -> &'static [&'static str] {
        match self {
            Task::Sparse(_, _, _) => &[
                "out",
                "out.1",
                "out.2",
                "out.3",
                "out.4",
                "spool",
                "/dev/stdout",
            ],
            Task::Boot(_) => &[
                "out",
                "parts/vendor_ramdisk",
                "parts/dtb",
                "parts/bootconfig",
                "parts/fragment.0",
                "parts/table",
                "parts/pack.words",
            ],
        }
    }

    /// Those that it only reads.
    pub fn read(self) -> &'static [&'static str] {
        match self {
            Task::Sparse(_, _, _) => &["in", "more"],
            Task::Boot(_) => &["in"],
        }
    }

    // A system of its files.
    fn table(self, alloc: Global) -> Option<Table> {
        let mut table = Table::new(alloc)?;
        match self {
            Task::Sparse(_, _, before) => {
                let files = files(before);
                for (path, file) in PATHS.iter() {
                    let bytes = files.get(*file as usize)?;
                    table.add(path, *file, bytes).ok()?;
                }
            }
            Task::Boot(_) => {
                let image = image(alloc).ok()?;
                table.add("in", 0, image.as_slice()).ok()?;
                table.add("parts", 1, b"").ok()?;
                table.add("out", 2, OLDER).ok()?;
            }
        }
        Some(table)
    }
}

/// What a command has left.
#[derive(Drop)]
pub(crate) struct Left {
    /// Whether it returned Ok.
    pub is_done: bool,
    /// Whether the call was made that was to fail.
    pub has_failed: bool,
    pub calls: Rc<Calls>,
    before: Table,
    disk: Host<MemorySystem>,
}

impl Left {
    /// What the file at a path held before.
    pub fn before(&mut self, path: &str) -> Option<Vec<u8>> {
        let number = self.disk.system().table.number_at(path)?;
        self.before.copy_of(number)
    }

    /// What the file at a path holds.
    pub fn copy_at(&mut self, path: &str) -> Option<Vec<u8>> {
        let table = &self.disk.system().table;
        table.copy_of(table.number_at(path)?)
    }

    /// Whether a path leads to a file that holds these bytes.
    pub fn holds(&mut self, path: &str, bytes: &[u8]) -> bool {
        match self.copy_at(path) {
            Some(held) => held.as_slice() == bytes,
            None => false,
        }
    }

    /// Whether two runs have left the same in each of these files.
    pub fn is_same(&mut self, other: &mut Left, paths: &[&str]) -> bool {
        for path in paths {
            let Some(bytes) = self.copy_at(path) else {
                if other.copy_at(path).is_some() {
                    return false;
                }
                continue;
            };
            if !other.holds(path, bytes.as_slice()) {
                return false;
            }
        }
        true
    }

    /// What the file at a path would hold, if the run had stopped after so many calls.
    pub fn stopped(&mut self, path: &str, calls: usize, crash: Crash) -> Option<Vec<u8>> {
        let number = self.disk.system().table.number_at(path)?;
        let before = self.before.copy_of(number)?;
        let journal = &self.calls.as_ref().journal;
        journal.left(number, before.as_slice(), calls, crash)
    }

    /// How often the file at a path was synced by the first calls, which are so many.
    pub fn syncs(&mut self, path: &str, calls: usize) -> u32 {
        match self.disk.system().table.number_at(path) {
            Some(number) => self.calls.as_ref().journal.syncs(number, calls),
            None => 0,
        }
    }
}

/// Runs a command over its files, of which some are to hold other bytes. Its calls go this way.
pub(crate) fn run(
    rt: HostRuntime,
    task: Task,
    others: &[Held<'_>],
    is_synced: bool,
    way: Way,
) -> Result<Left, AllocError> {
    let alloc = rt.alloc();
    let (Some(made), Some(before)) = (task.table(alloc), task.table(alloc)) else {
        return Err(AllocError);
    };
    let mut table = made;
    for (path, bytes) in others {
        if let Some(file) = table.number_at(path)
            && file > 0
            && file < 64
        {
            table.store(file, Vec::from_slice(alloc, bytes)?);
        }
    }
    let calls = match Rc::new(alloc, Calls::new(alloc, way)) {
        Ok(calls) => calls,
        Err(_) => return Err(AllocError),
    };
    let system = MemorySystem::new(table, Some(calls.clone()?));
    let mut disk = Host::new(Reading::new(system));
    if is_synced {
        disk.sync_all();
    }
    let mut report = Report::new(rt);
    let report = &mut report;
    let mut w = Box::new(alloc, Window::new())?;
    let mut m = Meter::new();
    let is_done = match task {
        Task::Sparse(command, output, _) => mem_test_commands::is_done(
            command, output, alloc, &mut disk, report, &mut w, &mut m,
        ),
        Task::Boot(command) => {
            mem_test_boot_commands::is_done(command, alloc, &mut disk, report, &mut w, &mut m)?
        }
    };
    Ok(Left {
        is_done,
        has_failed: way.failing != 0 && calls.as_ref().have_failed(),
        calls,
        before,
        disk,
    })
}
