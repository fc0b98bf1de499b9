//! One open file of a system in memory.

ghost use Rattle.std.specs.Prelude.{◌≡◌, ◌≢◌, ◌<◌, ◌≤◌, ◌+◌, [], OnOk, IfErr, true, length};
ghost use Rattle.sys_file.specs.File.{WritesAt};
ghost use Rattle.sys_file.specs.Past.{LaysWithin};
ghost use Rattle.abt_io.specs.Count.{count_of};
ghost use Rattle.std.specs.IoError.{error_kind};
ghost use Rattle.sys_file.specs.System.{IsJustOpened};

use crate::calls::{Calls, counted, is_torn, moved};
use crate::table::INPUT;
use mem_files::OpenMemoryFile;
use std::io;
use std::io::ErrorKind;
use std::rc::Rc;
use sys_file::{Stamp, SystemFile};

/// A copy of what the file of this number holds. It is stored there once it is closed.
#[derive(Drop)]
pub struct CopiedFile {
    pub file: OpenMemoryFile,
    pub number: u64,
    calls: Option<Rc<Calls>>,
    pub ghost below: { number < 64 },
    pub ghost quiet: { number ≡ 0 → file.bytes.items ≡ [] },
}

impl CopiedFile {
    /// A file of this number that holds these bytes. Its calls are counted, if that is asked for.
    pub fn new(bytes: Vec<u8>, number: u64, calls: Option<Rc<Calls>>) -> CopiedFile
        requires below { number < 64 }
        requires quiet { number ≡ 0 → bytes.items ≡ [] }
        ensures bytes { result.file.bytes ≡ bytes }
        ensures number { result.number ≡ number }
        ensures fresh { IsJustOpened true ⟦<CopiedFile as SystemFile>⟧.place ⟦<CopiedFile as SystemFile>⟧.past result }
    {
        CopiedFile {
            file: OpenMemoryFile::new(bytes, 0),
            number,
            calls,
        }
    }

    // Nothing is written to standard input.
    fn may_write(&self) -> io::Result<()>
        ensures { OnOk result (self.now.number ≢ 0) }
    {
        if self.number == INPUT {
            return Err(io::Error::from(ErrorKind::PermissionDenied));
        }
        Ok(())
    }

    // A write at an offset that fails. It may have written half of its bytes.
    fn failed(&mut self, at: u64, bytes: &[u8], error: io::Error) -> io::Result<usize>
        requires stands { at ≤ length self.old.file.bytes.items }
        requires some { self.old.number ≢ 0 }
        ensures writes { WritesAt true self.old.file.bytes.items self.new.file.bytes.items result at bytes.now }
        ensures idle { IfErr result (λ e. error_kind e ≡ ErrorKind.Interrupted → self.new.file ≡ self.old.file) }
        ensures lays { at + length bytes.now ≤ length self.old.file.bytes.items → LaysWithin self.old.file.bytes.items
            self.new.file.bytes.items self.old.file.history.past self.new.file.history.past result at
            (length bytes.now) }
        ensures none { count_of result ≡ 0 }
        ensures stays { self.new.file.place ≡ self.old.file.place }
        ensures number { self.new.number ≡ self.old.number }
    {
        if !is_torn(&self.calls, &error) {
            return Err(error);
        }
        let half = &bytes[..bytes.len() / 2];
        if SystemFile::write_at(&mut self.file, at, half).is_ok() {
            self.wrote(at, half);
        }
        Err(error)
    }

    // Keeps in the journal that these bytes were written at an offset.
    fn wrote(&self, at: u64, bytes: &[u8]) {
        if let Some(calls) = &self.calls {
            calls.as_ref().journal.wrote(self.number, at, bytes);
        }
    }
}

impl SystemFile for CopiedFile {
    ghost models = { true };

    ghost stands = { λ f. f.file.bytes.items };

    ghost past = { λ f. f.file.history.past };

    ghost place = { λ f. ⟦<OpenMemoryFile as SystemFile>⟧.place f.file };

    ghost are_bytes = { λ f _. f.file.told };

    fn length(&self) -> io::Result<u64> {
        counted(&self.calls)?;
        SystemFile::length(&self.file)
    }

    fn stamp(&self) -> Option<Stamp> {
        SystemFile::stamp(&self.file)
    }

    fn read_at(&self, at: u64, out: &mut [u8]) -> io::Result<usize> {
        let n = moved(&self.calls, out.len())?;
        SystemFile::read_at(&self.file, at, &mut out[..n])
    }

    fn write_at(&mut self, at: u64, bytes: &[u8]) -> io::Result<usize> {
        self.may_write()?;
        let n = match moved(&self.calls, bytes.len()) {
            Ok(n) => n,
            Err(error) => return self.failed(at, bytes, error),
        };
        match SystemFile::write_at(&mut self.file, at, &bytes[..n]) {
            Ok(done) => {
                self.wrote(at, &bytes[..done]);
                Ok(done)
            }
            Err(error) => Err(error),
        }
    }

    fn read(&mut self, out: &mut [u8]) -> io::Result<usize> {
        let n = moved(&self.calls, out.len())?;
        SystemFile::read(&mut self.file, &mut out[..n])
    }

    fn write(&mut self, bytes: &[u8]) -> io::Result<usize> {
        self.may_write()?;
        let at = self.file.place;
        let n = match moved(&self.calls, bytes.len()) {
            Ok(n) => n,
            Err(error) => return self.failed(at, bytes, error),
        };
        match SystemFile::write(&mut self.file, &bytes[..n]) {
            Ok(done) => {
                self.wrote(at, &bytes[..done]);
                Ok(done)
            }
            Err(error) => Err(error),
        }
    }

    fn go_to(&mut self, at: u64) -> io::Result<()> {
        counted(&self.calls)?;
        SystemFile::go_to(&mut self.file, at)
    }

    fn set_len(&mut self, n: u64) -> io::Result<()> {
        self.may_write()?;
        counted(&self.calls)?;
        SystemFile::set_len(&mut self.file, n)?;
        if let Some(calls) = &self.calls {
            calls.as_ref().journal.set_len(self.number, n);
        }
        Ok(())
    }

    fn sync(&mut self) -> io::Result<()> {
        counted(&self.calls)?;
        SystemFile::sync(&mut self.file)?;
        if let Some(calls) = &self.calls {
            calls.as_ref().journal.synced(self.number);
        }
        Ok(())
    }
}
