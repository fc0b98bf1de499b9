//! One open file of the system, or a standard stream, which has no positions.

ghost use Rattle.std.specs.Prelude.{[], false};
ghost use Rattle.std.proofs.lemmas.Bool.{false≢true};
ghost use Rattle.abt_io.specs.Moment.{no_past};

use crate::system::stat_of;
use std::fs::File;
use std::io;
use std::io::{ErrorKind, Read, Seek, SeekFrom, Write};
use std::os::unix::fs::FileExt;
use std::rt::{Stdin, Stdout};
use sys_file::{Stamp, SystemFile};

/// A file, or a standard stream.
#[derive(Drop)]
pub enum OsFile {
    File(File),
    Input(Stdin),
    /// Standard output, and the file that is synced instead of it.
    Output(Stdout, Option<File>),
}

impl OsFile {
    // The file, which has positions.
    pub(crate) fn file(&self) -> io::Result<&File> {
        match self {
            OsFile::File(file) => Ok(file),
            _ => Err(io::Error::from(ErrorKind::Unsupported)),
        }
    }
}

impl SystemFile for OsFile {
    ghost models = { false };

    ghost stands = { λ _. [] };

    ghost past = { λ _. no_past };

    ghost place = { λ _. 0 };

    ghost are_bytes = { λ _ t. absurd (false≢true t) };

    #[inline(never)]
    fn length(&self) -> io::Result<u64> {
        let mut file = self.file()?;
        file.seek(SeekFrom::End(0))
    }

    fn stamp(&self) -> Option<Stamp> {
        stat_of(&self.file().ok()?.metadata().ok()?).stamp()
    }

    fn read_at(&self, at: u64, out: &mut [u8]) -> io::Result<usize> {
        FileExt::read_at(self.file()?, out, at)
    }

    fn write_at(&mut self, at: u64, bytes: &[u8]) -> io::Result<usize> {
        FileExt::write_at(self.file()?, bytes, at)
    }

    fn read(&mut self, out: &mut [u8]) -> io::Result<usize> {
        match self {
            OsFile::Input(stdin) => stdin.read(out),
            _ => self.file()?.read(out),
        }
    }

    fn write(&mut self, bytes: &[u8]) -> io::Result<usize> {
        match self {
            OsFile::Output(stdout, _) => stdout.write(bytes),
            _ => self.file()?.write(bytes),
        }
    }

    fn go_to(&mut self, at: u64) -> io::Result<()> {
        let mut file = self.file()?;
        file.seek(SeekFrom::Start(at))?;
        Ok(())
    }

    #[inline(never)]
    fn set_len(&mut self, n: u64) -> io::Result<()> {
        self.file()?.set_len(n)
    }

    fn sync(&mut self) -> io::Result<()> {
        match self {
            OsFile::Output(_, None) => Ok(()),
            OsFile::Output(_, Some(file)) => file.sync_all(),
            _ => self.file()?.sync_all(),
        }
    }
}
