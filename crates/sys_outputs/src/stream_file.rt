//! An output that is written from its beginning on, by writes at its position: a pipe, a device, or a file that was
//! just created or emptied.
//!
//! Where a write failed, any bytes may follow what it was given, or have overwritten it. Then `end` fails. In the first
//! case the file still begins with what it was given.

ghost use Rattle.std.specs.Prelude.{◌≡◌, ◌≤◌, [], false, IsTrue, length, IfOk, IfErr};
ghost use Rattle.abt_io.specs.Frame.{nothing_logged};
ghost use Rattle.sys_file.specs.File.{Begins};
ghost use Rattle.sys_outputs.specs.Given.{LetsFileGo, PutsBehind, PutsFrom};

use abt_io::Log;
use std::io;
use std::io::ErrorKind;
use sys_file::{SystemFile, write, write_at};

/// An output that is written from its beginning on. After every call that did not fail it holds what it was given.
#[derive(Drop)]
pub struct StreamFile<F: SystemFile + Drop> {
    file: F,
    /// The number of bytes that it was given.
    used: u64,
    /// A write failed.
    is_failed: bool,
    /// A write failed over bytes that it was given.
    pub is_marred: bool,
    /// All that it was given.
    pub given: Log,
    ghost long: { length given.state.bytes ≡ used },
    ghost place: { IsTrue F.models → F.place file ≡ used },
    ghost reaches: { IsTrue F.models → used ≤ length (F.stands file) },
    ghost stands: { IsTrue F.models → is_failed ≡ false → F.stands file ≡ given.state.bytes },
    ghost front: { IsTrue F.models → is_marred ≡ false → Begins given.state.bytes (F.stands file) },
}

impl<F: SystemFile + Drop> StreamFile<F> {
    /// Nothing was written yet, from its position on.
    pub fn new(file: F) -> StreamFile<F>
        requires empty { IsTrue F.models → F.stands file ≡ [] }
        requires front { IsTrue F.models → F.place file ≡ 0 }
        ensures given { result.given.state ≡ nothing_logged }
        ensures marred { result.is_marred ≡ false }
    {
        StreamFile {
            file,
            used: 0,
            is_failed: false,
            is_marred: false,
            given: Log::new(),
        }
    }

    /// Takes some of these bytes, by one write after all that it was given.
    pub fn put(&mut self, bytes: &[u8]) -> io::Result<usize>
        ensures puts { PutsBehind result bytes.now self.old.given.state self.new.given.state }
        ensures marred { self.new.is_marred ≡ self.old.is_marred }
    {
        if bytes.len() as u64 > u64::MAX - self.used {
            return Err(io::Error::from(ErrorKind::InvalidInput));
        }
        match write(&mut self.file, bytes) {
            Ok(n) => {
                self.used += n as u64;
                self.given.append(&bytes[..n]);
                Ok(n)
            }
            Err(error) => {
                self.is_failed = true;
                Err(error)
            }
        }
    }

    /// Overwrites what it was given with a prefix of these bytes, if it has positions. On a failure it returns the
    /// number of the system's error.
    pub fn put_over(&mut self, at: u64, bytes: &[u8]) -> Result<usize, Option<i32>>
        ensures { PutsFrom result at bytes.now self.old.given.state self.new.given.state }
    {
        if at > self.used || bytes.len() as u64 > self.used - at {
            return Err(None);
        }
        match write_at(&mut self.file, at, bytes) {
            Ok(n) => {
                self.given.put(&bytes[..n], at);
                Ok(n)
            }
            Err(error) => {
                self.is_failed = true;
                self.is_marred = true;
                Err(error.raw_os_error())
            }
        }
    }

    /// The file, which holds all that was given. On a failure it returns the file as it is.
    pub fn end(self) -> Result<F, (F, io::Error)>
        ensures whole { IsTrue F.models → IfOk result (λ file. F.stands file ≡ self.given.state.bytes) }
        ensures front { IsTrue F.models → self.is_marred ≡ false → IfErr result (λ refused. Begins
            self.given.state.bytes (F.stands refused.0)) }
    {
        if self.is_failed {
            return Err((self.file, io::Error::from(ErrorKind::WriteZero)));
        }
        Ok(self.file)
    }

    /// The file as it is, and whether it holds all that was given.
    pub fn let_go(self) -> (F, bool)
        ensures { LetsFileGo F.models (F.stands result.0) result.1 self.is_marred self.given.state.bytes }
    {
        let is_failed = self.is_failed;
        (self.file, !is_failed)
    }
}
