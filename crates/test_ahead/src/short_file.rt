//! A file in memory whose reads return few bytes, fail at a chosen call, and are counted.

ghost use Rattle.std.specs.Prelude.{[], false};
ghost use Rattle.std.proofs.lemmas.Bool.{false≢true};
ghost use Rattle.abt_io.specs.Moment.{no_past};

use abt_io::read_part;
use std::cell::Cell;
use std::io;
use std::io::ErrorKind;
use sys_file::{Stamp, SystemFile};

/// Bytes that are read as a file is, and that can't be written.
#[derive(Drop)]
pub(crate) struct ShortFile {
    pub bytes: Vec<u8>,
    /// The most bytes that a read returns.
    pub most: usize,
    /// Counts reads down to the one that fails; after it none fails.
    pub left: Cell<u64>,
    /// How many bytes were returned.
    pub given: Cell<u64>,
    /// Its current stamp.
    pub stamp: Cell<Stamp>,
}

impl ShortFile {
    /// These bytes.
    pub(crate) fn new(bytes: Vec<u8>, most: usize, left: u64) -> ShortFile {
        let length = bytes.len() as u64;
        ShortFile {
            bytes,
            most,
            left: Cell::new(left),
            given: Cell::new(0),
            stamp: Cell::new(Stamp {
                length,
                second: 0,
                nanosecond: 0,
            }),
        }
    }
}

impl SystemFile for ShortFile {
    ghost models = { false };

    ghost stands = { λ _. [] };

    ghost past = { λ _. no_past };

    ghost place = { λ _. 0 };

    ghost are_bytes = { λ _ t. absurd (false≢true t) };

    fn length(&self) -> io::Result<u64> {
        Ok(self.bytes.len() as u64)
    }

    fn stamp(&self) -> Option<Stamp> {
        Some(self.stamp.get())
    }

    fn read_at(&self, at: u64, out: &mut [u8]) -> io::Result<usize> {
        let left = self.left.get();
        self.left.set(left.saturating_sub(1));
        if left == 1 {
            return Err(io::Error::from(ErrorKind::Other));
        }
        let ask = out.len().min(self.most);
        let n = read_part(self.bytes.as_slice(), at, &mut out[..ask]);
        self.given.set(self.given.get().saturating_add(n as u64));
        Ok(n)
    }

    fn write_at(&mut self, _at: u64, _bytes: &[u8]) -> io::Result<usize> {
        Err(io::Error::from(ErrorKind::Unsupported))
    }

    fn read(&mut self, _out: &mut [u8]) -> io::Result<usize> {
        Err(io::Error::from(ErrorKind::Unsupported))
    }

    fn write(&mut self, _bytes: &[u8]) -> io::Result<usize> {
        Err(io::Error::from(ErrorKind::Unsupported))
    }

    fn go_to(&mut self, _at: u64) -> io::Result<()> {
        Err(io::Error::from(ErrorKind::Unsupported))
    }

    fn set_len(&mut self, _n: u64) -> io::Result<()> {
        Err(io::Error::from(ErrorKind::Unsupported))
    }

    fn sync(&mut self) -> io::Result<()> {
        Err(io::Error::from(ErrorKind::Unsupported))
    }
}
