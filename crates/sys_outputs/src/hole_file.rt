//! A regular file in which zeros may be a hole, which takes no room and no time.
//!
//! A hole is made by a change of the file's length, after all that it was given. Where that fails, or a write does, any
//! bytes may be there. They are truncated before the next hole, and at the end. Where a write over given bytes failed,
//! `end` fails. Else the file always begins with what it was given.

ghost use Rattle.std.specs.Prelude.{◌≡◌, ◌<◌, ◌≤◌, ◌+◌, ◌^◌, [], false, IsTrue, length, replicate, max};
ghost use Rattle.std.specs.Prelude.{IfOk, IfErr, OnOk};
ghost use Rattle.abt_io.specs.Frame.{nothing_logged, and_bytes};
ghost use Rattle.sys_file.specs.File.{Begins};
ghost use Rattle.sys_outputs.specs.Given.{LetsFileGo, PutsBehind, PutsFrom, LaysHole, StaysGiven};

use abt_io::Log;
use std::io;
use std::io::ErrorKind;
use sys_file::{SystemFile, write_at};

// A hole has at least this many bytes.
const PAGE: u64 = 4096;

/// A file that was just created or emptied. After every call that did not fail it holds what it was given.
#[derive(Drop)]
pub struct HoleFile<F: SystemFile + Drop> {
    file: F,
    /// The number of bytes that it was given.
    used: u64,
    /// Up to this offset any bytes may follow them, because a call failed.
    stale: u64,
    /// A write failed over bytes that it was given.
    pub is_marred: bool,
    /// All that it was given.
    pub given: Log,
    ghost place: { length given.state.bytes ≡ used },
    ghost reaches: { IsTrue F.models → used ≤ length (F.stands file) },
    ghost stands: { IsTrue F.models → is_marred ≡ false → Begins given.state.bytes (F.stands file) },
    ghost ends: { IsTrue F.models → length (F.stands file) ≤ max stale used },
}

impl<F: SystemFile + Drop> HoleFile<F> {
    /// The file is empty.
    pub fn new(file: F) -> HoleFile<F>
        requires { IsTrue F.models → F.stands file ≡ [] }
        ensures given { result.given.state ≡ nothing_logged }
        ensures marred { result.is_marred ≡ false }
    {
        HoleFile {
            file,
            used: 0,
            stale: 0,
            is_marred: false,
            given: Log::new(),
        }
    }

    /// Takes some of these bytes, by one write after all that it was given. Zeros become a hole, if the file can have
    /// one.
    pub fn put(&mut self, bytes: &[u8]) -> io::Result<usize>
        ensures puts { PutsBehind result bytes.now self.old.given.state self.new.given.state }
        ensures marred { self.new.is_marred ≡ self.old.is_marred }
    {
        if bytes.len() as u64 > u64::MAX - self.used {
            return Err(io::Error::from(ErrorKind::InvalidInput));
        }
        if is_zero(bytes) && self.grows(bytes.len() as u64) {
            return Ok(bytes.len());
        }
        match write_at(&mut self.file, self.used, bytes) {
            Ok(n) => {
                self.used += n as u64;
                self.given.append(&bytes[..n]);
                Ok(n)
            }
            Err(error) => {
                self.stale = self.stale.max(self.used + bytes.len() as u64);
                Err(error)
            }
        }
    }

    /// Extends the file by this many zeros at once, or if it cannot be that long by half as many, and so on. Returns by
    /// how many: 0 if not even by a page.
    pub fn lay_hole(&mut self, n: u64) -> u64
        ensures lays { LaysHole n result self.old.given.state self.new.given.state }
        ensures marred { self.new.is_marred ≡ self.old.is_marred }
    {
        let mut some = n;
        while some >= PAGE {
            if some <= u64::MAX - self.used && self.grows(some) {
                return some;
            }
            some /= 2;
        }
        0
    }

    // Extends the file by this many zeros, if it can be that long and nothing else is there.
    fn grows(&mut self, n: u64) -> bool
        requires { self.old.used + n < 2 ^ 64 }
        ensures grown { IsTrue result → self.new.given.state ≡ and_bytes self.old.given.state (replicate n 0) }
        ensures kept { result ≡ false → self.new.given.state ≡ self.old.given.state }
        ensures used { result ≡ false → self.new.used ≡ self.old.used }
        ensures marred { self.new.is_marred ≡ self.old.is_marred }
    {
        if self.cut_off().is_err() {
            return false;
        }
        let end = self.used + n;
        if self.file.set_len(end).is_err() {
            self.stale = self.stale.max(end);
            return false;
        }
        self.used = end;
        self.given.append_zeros(n);
        true
    }

    // Truncates what may follow all that it was given.
    fn cut_off(&mut self) -> io::Result<()>
        ensures cut { OnOk result (self.new.stale ≤ self.new.used) }
        ensures keeps { StaysGiven self.old.given.state self.new.given.state self.old.used self.new.used
            self.old.is_marred self.new.is_marred }
    {
        if self.stale <= self.used {
            return Ok(());
        }
        match self.file.set_len(self.used) {
            Ok(()) => {
                self.stale = 0;
                Ok(())
            }
            Err(error) => Err(error),
        }
    }

    /// Overwrites what it was given with a prefix of these bytes. On a failure it returns the number of the system's
    /// error.
    pub fn put_over(&mut self, at: u64, bytes: &[u8]) -> Result<usize, Option<i32>>
        ensures { PutsFrom result at bytes.now self.old.given.state self.new.given.state }
    {
        if at > self.used || bytes.len() as u64 > self.used - at {
            return Err(None);
        }
        match write_at(&mut self.file, at, bytes) {
            Ok(n) => {
                self.given.put(&bytes[..n], at);
                Ok(n)
            }
            Err(error) => {
                self.is_marred = true;
                Err(error.raw_os_error())
            }
        }
    }

    /// The file, which holds all that was given and nothing after it. On a failure it returns the file as it is.
    pub fn end(self) -> Result<F, (F, io::Error)>
        ensures whole { IsTrue F.models → IfOk result (λ file. F.stands file ≡ self.given.state.bytes) }
        ensures front { IsTrue F.models → self.is_marred ≡ false → IfErr result (λ refused. Begins
            self.given.state.bytes (F.stands refused.0)) }
    {
        let mut ended = self;
        if ended.is_marred {
            return Err((ended.file, io::Error::from(ErrorKind::WriteZero)));
        }
        match ended.cut_off() {
            Ok(()) => Ok(ended.file),
            Err(error) => Err((ended.file, error)),
        }
    }

    /// The file as it is, and whether it holds all that was given and nothing after it.
    pub fn let_go(self) -> (F, bool)
        ensures { LetsFileGo F.models (F.stands result.0) result.1 self.is_marred self.given.state.bytes }
    {
        let is_whole = !self.is_marred && self.stale <= self.used;
        (self.file, is_whole)
    }
}

// Most data that isn't zero shows it at an end. What is left is looked at as a whole, which is fast.
fn is_zero(bytes: &[u8]) -> bool
    ensures { IsTrue result → bytes.now ≡ replicate (length bytes.now) 0 }
{
    match (bytes.first(), bytes.last()) {
        (Some(0), Some(0)) => bits_of(bytes) == 0,
        _ => false,
    }
}

// The bits that any of these bytes has.
fn bits_of(bytes: &[u8]) -> u8
    ensures { result ≡ 0 → bytes.now ≡ replicate (length bytes.now) 0 }
{
    let mut all = 0;
    for byte in bytes {
        all |= *byte;
    }
    all
}
