//! A file of the system, of which chosen calls fail.

ghost use Rattle.std.specs.Prelude.{[], false};
ghost use Rattle.std.proofs.lemmas.Bool.{false≢true};
ghost use Rattle.abt_io.specs.Moment.{no_past};

use std::io;
use sys_file::{Stamp, SystemFile};
use sys_std::OsFile;

/// Why a call fails that was chosen: the number of EIO.
pub(crate) const WHY: i32 = 5;

/// A file whose writes and changes of length fail where their bits are set, the lowest bit first. A write that fails
/// has written half of its bytes.
#[derive(Drop)]
pub(crate) struct FaultyFile {
    pub file: OsFile,
    pub fails: u64,
}

impl FaultyFile {
    // Whether it is the next call that fails.
    fn is_over(&mut self) -> bool {
        let is_over = self.fails % 2 == 1;
        self.fails /= 2;
        is_over
    }
}

impl SystemFile for FaultyFile {
    ghost models = { false };

    ghost stands = { λ _. [] };

    ghost past = { λ _. no_past };

    ghost place = { λ _. 0 };

    ghost are_bytes = { λ _ t. absurd (false≢true t) };

    fn length(&self) -> io::Result<u64> {
        self.file.length()
    }

    fn stamp(&self) -> Option<Stamp> {
        self.file.stamp()
    }

    fn read_at(&self, at: u64, out: &mut [u8]) -> io::Result<usize> {
        self.file.read_at(at, out)
    }

    fn write_at(&mut self, at: u64, bytes: &[u8]) -> io::Result<usize> {
        if self.is_over() {
            let _ = self.file.write_at(at, &bytes[..bytes.len() / 2]);
            return Err(io::Error::from_raw_os_error(WHY));
        }
        self.file.write_at(at, bytes)
    }

    fn read(&mut self, out: &mut [u8]) -> io::Result<usize> {
        self.file.read(out)
    }

    fn write(&mut self, bytes: &[u8]) -> io::Result<usize> {
        self.file.write(bytes)
    }

    fn go_to(&mut self, at: u64) -> io::Result<()> {
        self.file.go_to(at)
    }

    fn set_len(&mut self, n: u64) -> io::Result<()> {
        if self.is_over() {
            return Err(io::Error::from_raw_os_error(WHY));
        }
        self.file.set_len(n)
    }

    fn sync(&mut self) -> io::Result<()> {
        self.file.sync()
    }
}
