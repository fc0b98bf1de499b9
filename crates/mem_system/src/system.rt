//! Files in memory as a system has them.

ghost use Rattle.std.specs.Prelude.{◌≡◌, ◌≢◌, None, Some, IfOk, IfErr, IfSome, OnOk, OnErr, true, pos, map, drop};
ghost use Rattle.std.specs.Prelude.{string_bytes, [], IsTrue};
ghost use Rattle.std.specs.IoError.{error_kind};
ghost use Rattle.sys_file.specs.System.{IsJustOpened};
ghost use Rattle.sys_file.specs.declared.stat.Kind.{Kind};
ghost use Rattle.mem_files.specs.Stored.{leads};
ghost use Rattle.mem_system.specs.Table.{stored_in};

use crate::calls::{Calls, counted};
use crate::copied_file::CopiedFile;
use crate::names::MemoryNames;
use crate::table::{INPUT, OUTPUT, Table};
use std::alloc::Global;
use std::io;
use std::io::ErrorKind;
use std::rc::Rc;
use sys_file::{Kind, Opening, Stat, System, SystemFile};

/// Files in memory. An open file is a copy, which is stored once it is closed.
#[derive(Drop)]
pub struct MemorySystem {
    pub table: Table,
    calls: Option<Rc<Calls>>,
}

impl MemorySystem {
    /// These files. Calls that may fail are counted, if that is asked for.
    pub fn new(table: Table, calls: Option<Rc<Calls>>) -> MemorySystem
        ensures { result.table ≡ table }
    {
        MemorySystem { table, calls }
    }

    // The counts, for one more file.
    fn calls(&self) -> Option<Rc<Calls>> {
        match &self.calls {
            Some(calls) => calls.clone().ok(),
            None => None,
        }
    }

    // The file of this number, as one that was just opened.
    fn opened(&self, number: u64) -> io::Result<CopiedFile>
        ensures content { IfOk result (λ f. f.file.bytes.items ≡ stored_in self.now.table.files.items number) }
        ensures number { IfOk result (λ f. f.number ≡ number) }
        ensures fresh { IfOk result (IsJustOpened true ⟦<CopiedFile as SystemFile>⟧.place
            ⟦<CopiedFile as SystemFile>⟧.past) }
        ensures kind { IfErr result (λ e. error_kind e ≢ ErrorKind.NotFound) }
    {
        let Some(bytes) = self.table.copy_of(number) else {
            return Err(io::Error::from(ErrorKind::OutOfMemory));
        };
        Ok(CopiedFile::new(bytes, number, self.calls()))
    }
}

fn stat_of(number: u64, length: u64) -> Stat
    ensures { result ≡ record {
      kind = Kind.File;
      on = 1;
      number = number;
      device = 0;
      length = length;
      second = pos 0;
      nanosecond = pos 0;
    } }
{
    Stat {
        kind: Kind::File,
        on: 1,
        number,
        device: 0,
        length,
        second: 0,
        nanosecond: 0,
    }
}

impl System for MemorySystem {
    type File = CopiedFile;

    type Names = MemoryNames;

    ghost to_come = { λ it. drop it.at (map string_bytes it.names.items) };

    ghost is_file = { λ _. true };

    ghost which = { λ f. f.number };

    ghost number = { λ _ n. n };

    ghost known = { λ n. record {
      kind = Kind.File;
      on = 1;
      number = n;
      device = 0;
      length = 0;
      second = pos 0;
      nanosecond = pos 0;
    } };

    ghost at = { λ s. leads s.table.paths.items };

    ghost holds = { λ s. stored_in s.table.files.items };

    ghost stdin = { 0 };

    ghost stdout = { 1 };

    ghost has_streams = { λ _ s. s.table.streams };

    fn alloc(&self) -> Global {
        self.table.alloc
    }

    fn look(&self, path: &str) -> io::Result<Stat> {
        match self.table.number_at(path) {
            Some(number) => Ok(stat_of(number, self.table.length_of(number))),
            None => Err(io::Error::from(ErrorKind::NotFound)),
        }
    }

    fn stat(&self, file: &CopiedFile) -> io::Result<Stat> {
        counted(&self.calls)?;
        Ok(stat_of(file.number, file.file.bytes.len() as u64))
    }

    fn open(&mut self, path: &str, how: Opening) -> io::Result<CopiedFile> {
        counted(&self.calls)?;
        if let Some(number) = self.table.number_at(path) {
            return self.opened(number);
        }
        if !how.creates() {
            return Err(io::Error::from(ErrorKind::NotFound));
        }
        let Some(number) = self.table.next_number() else {
            return Err(io::Error::from(ErrorKind::StorageFull));
        };
        let file = self.opened(number)?;
        match self.table.lead(path, number) {
            Ok(()) => Ok(file),
            Err(_) => Err(io::Error::from(ErrorKind::OutOfMemory)),
        }
    }

    fn again(&self, file: &CopiedFile) -> io::Result<CopiedFile> {
        counted(&self.calls)?;
        match Vec::from_slice(self.table.alloc, file.file.bytes.as_slice()) {
            Ok(bytes) => Ok(CopiedFile::new(bytes, file.number, self.calls())),
            Err(_) => Err(io::Error::from(ErrorKind::OutOfMemory)),
        }
    }

    fn close(&mut self, file: CopiedFile) {
        self.table.store(file.number, file.file.bytes)
    }

    // No file has the number of another that is open at the same time.
    fn descriptor(&self, file: &CopiedFile) -> i32 {
        (file.number % 1000) as i32 + 3
    }

    fn input(&self) -> CopiedFile {
        CopiedFile::new(Vec::new(self.table.alloc), INPUT, self.calls())
    }

    fn output(&self, _synced: Option<CopiedFile>) -> CopiedFile
        ensures fresh { IsJustOpened ⟦<CopiedFile as SystemFile>⟧.models ⟦<CopiedFile as SystemFile>⟧.place
            ⟦<CopiedFile as SystemFile>⟧.past result }
        ensures empty { IsTrue ⟦<CopiedFile as SystemFile>⟧.models → ⟦<CopiedFile as SystemFile>⟧.stands result ≡ [] }
        ensures which { IsTrue ⟦<CopiedFile as SystemFile>⟧.models → result.number ≡ 1 }
    {
        CopiedFile::new(Vec::new(self.table.alloc), OUTPUT, self.calls())
    }

    fn contents(&self, _path: &str) -> io::Result<Vec<u8>> {
        Err(io::Error::from(ErrorKind::NotFound))
    }

    fn names(&self, _folder: &str) -> io::Result<MemoryNames> {
        if counted(&self.calls).is_err() {
            return Err(io::Error::from(ErrorKind::OutOfMemory));
        }
        match MemoryNames::of(self.table.alloc, self.table.paths.as_slice()) {
            Some(names) => Ok(names),
            None => Err(io::Error::from(ErrorKind::OutOfMemory)),
        }
    }

    fn next_name(&self, names: &mut MemoryNames) -> Option<io::Result<String>> {
        if counted(&self.calls).is_err() {
            return Some(Err(io::Error::from(ErrorKind::OutOfMemory)));
        }
        names.next_name(self.table.alloc)
    }

    fn whole_path(&self, path: &str) -> io::Result<String> {
        counted(&self.calls)?;
        match String::from_str(self.table.alloc, path) {
            Ok(path) => Ok(path),
            Err(_) => Err(io::Error::from(ErrorKind::OutOfMemory)),
        }
    }

    fn make_folders(&mut self, _path: &str) -> io::Result<()> {
        Err(io::Error::from(ErrorKind::Unsupported))
    }

    fn make_link(&mut self, _to: &str, _path: &str) -> io::Result<()> {
        Err(io::Error::from(ErrorKind::Unsupported))
    }

    fn remove(&mut self, _path: &str) -> io::Result<()> {
        Err(io::Error::from(ErrorKind::Unsupported))
    }
}
