//! A file in memory, which models its content.

ghost use Rattle.std.specs.Prelude.{◌≡◌, ◌≤◌, ◌+◌, ◌-◌, ◌++◌, IsTrue, false, true, length, take, replicate};
ghost use Rattle.abt_io.specs.Bytes.{AreBytes};
ghost use Rattle.abt_io.specs.Moment.{put_at};
ghost use Rattle.sys_file.specs.System.{IsJustOpened};

use abt_io::{History, are_bytes, put_part, read_part};
use std::io;
use std::io::ErrorKind;
use sys_file::{Stamp, SystemFile};

/// Bytes that are read and written as a file is. The call of this number fails, counted down from there, and after it
/// none does.
#[derive(Drop)]
pub struct OpenMemoryFile {
    pub bytes: Vec<u8>,
    pub left: u64,
    pub history: History,
    pub place: u64,
    pub ghost told: { AreBytes bytes.items },
}

impl OpenMemoryFile {
    /// These bytes.
    pub fn new(bytes: Vec<u8>, left: u64) -> OpenMemoryFile
        ensures bytes { result.bytes ≡ bytes }
        ensures fresh { IsJustOpened true ⟦<OpenMemoryFile as SystemFile>⟧.place ⟦<OpenMemoryFile as SystemFile>⟧.past
            result }
    {
        are_bytes(bytes.as_slice());
        OpenMemoryFile {
            bytes,
            left,
            history: History::new(),
            place: 0,
        }
    }

    // Whether it is the next call that fails.
    fn is_over(&mut self) -> bool
        ensures { (self.new.bytes ≡ self.old.bytes) × (self.new.history ≡ self.old.history)
            × (self.new.place ≡ self.old.place) }
    {
        if self.left == 0 {
            return false;
        }
        self.left -= 1;
        self.left == 0
    }
}

impl SystemFile for OpenMemoryFile {
    ghost models = { true };

    ghost stands = { λ f. f.bytes.items };

    ghost past = { λ f. f.history.past };

    ghost place = { λ f. f.place };

    ghost are_bytes = { λ f _. f.told };

    fn length(&self) -> io::Result<u64> {
        Ok(self.bytes.len() as u64)
    }

    fn stamp(&self) -> Option<Stamp> {
        Some(Stamp {
            length: self.bytes.len() as u64,
            second: 0,
            nanosecond: 0,
        })
    }

    fn read_at(&self, at: u64, out: &mut [u8]) -> io::Result<usize> {
        Ok(read_part(self.bytes.as_slice(), at, out))
    }

    fn write_at(&mut self, at: u64, bytes: &[u8]) -> io::Result<usize> {
        if self.is_over() {
            return Err(io::Error::from(ErrorKind::Other));
        }
        if !lay(&mut self.bytes, at, bytes) {
            return Err(io::Error::from(ErrorKind::StorageFull));
        }
        let n = bytes.len();
        self.history.wrote(self.bytes.as_slice(), at, n as u64);
        Ok(n)
    }

    fn read(&mut self, out: &mut [u8]) -> io::Result<usize> {
        let n = read_part(self.bytes.as_slice(), self.place, out);
        self.place += n as u64;
        Ok(n)
    }

    fn write(&mut self, bytes: &[u8]) -> io::Result<usize> {
        let n = SystemFile::write_at(self, self.place, bytes)?;
        self.place += n as u64;
        Ok(n)
    }

    fn go_to(&mut self, at: u64) -> io::Result<()> {
        self.place = at;
        Ok(())
    }

    fn set_len(&mut self, n: u64) -> io::Result<()> {
        if self.is_over() {
            return Err(io::Error::from(ErrorKind::Other));
        }
        let Ok(n) = usize::try_from(n) else {
            return Err(io::Error::from(ErrorKind::FileTooLarge));
        };
        match self.bytes.resize(n, 0) {
            Ok(()) => {
                are_bytes(self.bytes.as_slice());
                Ok(())
            }
            Err(_) => Err(io::Error::from(ErrorKind::StorageFull)),
        }
    }

    fn sync(&mut self) -> io::Result<()> {
        self.history.settled(self.bytes.as_slice());
        Ok(())
    }
}

// Writes bytes at an offset of these, and returns whether there was room for them.
fn lay(bytes: &mut Vec<u8>, at: u64, part: &[u8]) -> bool
    requires { at ≤ length bytes.old.items }
    ensures laid { IsTrue result → bytes.new.items ≡ put_at bytes.old.items at part.now }
    ensures kept { result ≡ false → bytes.new.items ≡ bytes.old.items }
    ensures told { AreBytes bytes.new.items }
{
    let n = part.len();
    let len = bytes.len();
    let end = at as usize + n;
    if end < n || (end > len && bytes.resize(end, 0).is_err()) {
        are_bytes(bytes.as_slice());
        return false;
    }
    put_part(bytes.as_mut_slice(), at, part);
    are_bytes(bytes.as_slice());
    true
}
