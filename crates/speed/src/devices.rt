//! Devices in memory. What is written to them is not kept: a digest of it is.

ghost use Rattle.std.specs.Prelude.{◌≡◌, ◌≤◌, [], false, length, Some, refl};
ghost use Rattle.std.proofs.lemmas.Bool.{false≢true};
ghost use Rattle.std.specs.Io.{WritesAtMost};

use crate::digest::Digest;
use abt_io::{DeviceFault, Input, Partition, Source, Tally};
use std::io;
use std::io::Write;

/// Bytes that are read, forward or at any offset.
#[derive(Drop)]
pub struct Memory<'a> {
    bytes: &'a [u8],
    at: usize,
    reads: Tally,
    given: Tally,
}

impl<'a> Memory<'a> {
    pub fn new(bytes: &'a [u8]) -> Memory<'a> {
        Memory {
            bytes,
            at: 0,
            reads: Tally::new(),
            given: Tally::new(),
        }
    }

    // Gives bytes from an offset on.
    fn give(&mut self, at: usize, out: &mut [u8]) -> usize
        ensures within { result ≤ length out.new }
        ensures reads { self.new.reads.number ≡ self.old.reads.number }
        ensures given { self.new.given.number ≡ self.old.given.number }
    {
        let start = at.min(self.bytes.len());
        let rest = &self.bytes[start..];
        let n = rest.len().min(out.len());
        out[..n].copy_from_slice(&rest[..n]);
        n
    }
}

impl Source for Memory<'_> {
    ghost models = { false };

    ghost content = { λ _. [] };

    ghost size = { λ s. length s.bytes.now };

    ghost reads = { λ s. s.reads.number };

    ghost given = { λ s. s.given.number };

    ghost read_faults = { λ _. 0 };

    ghost sized = { λ _ t. absurd (false≢true t) };

    ghost are_bytes = { λ _ t. absurd (false≢true t) };

    fn length(&self) -> u64 {
        self.bytes.len() as u64
    }

    fn read_at(&mut self, at: u64, out: &mut [u8]) -> Result<usize, DeviceFault> {
        self.reads.add(1);
        let n = self.give(at as usize, out);
        self.given.add(n as u64);
        Ok(n)
    }
}

impl Input for Memory<'_> {
    ghost models = { false };

    ghost remaining = { λ _. [] };

    ghost reads = { λ s. s.reads.number };

    ghost given = { λ s. s.given.number };

    ghost read_faults = { λ _. 0 };

    ghost are_bytes = { λ _ t. absurd (false≢true t) };

    fn read(&mut self, out: &mut [u8]) -> Result<usize, DeviceFault> {
        self.reads.add(1);
        let n = self.give(self.at, out);
        self.at = self.at.saturating_add(n);
        self.given.add(n as u64);
        Ok(n)
    }
}

/// Takes bytes one after another.
#[derive(Drop)]
pub struct Sink {
    pub length: u64,
    pub digest: Digest,
}

impl Sink {
    pub fn new() -> Sink {
        Sink {
            length: 0,
            digest: Digest::new(),
        }
    }
}

impl Write for Sink {
    fn write(&mut self, bytes: &[u8]) -> io::Result<usize> {
        self.digest.put(self.length, bytes);
        self.length = self.length.wrapping_add(bytes.len() as u64);
        Ok(bytes.len())
    }

    fn flush(&mut self) -> io::Result<()> {
        Ok(())
    }
}

/// Is written at any offset.
#[derive(Drop)]
pub struct Board {
    size: u64,
    pub digest: Digest,
    reads: Tally,
    puts: Tally,
    taken: Tally,
    syncs: Tally,
}

impl Board {
    /// This many bytes.
    pub fn new(size: u64) -> Board {
        Board {
            size,
            digest: Digest::new(),
            reads: Tally::new(),
            puts: Tally::new(),
            taken: Tally::new(),
            syncs: Tally::new(),
        }
    }
}

impl Source for Board {
    ghost models = { false };

    ghost content = { λ _. [] };

    ghost size = { λ s. s.size };

    ghost reads = { λ s. s.reads.number };

    ghost given = { λ _. 0 };

    ghost read_faults = { λ _. 0 };

    ghost read_frame = { λ s. record {
      size = s.size;
      past = record { file = 0; pending = []; synced = s.syncs.number; moments = [] };
      puts = s.puts.number;
      taken = s.taken.number;
      syncs = s.syncs.number;
      put_faults = 0;
    } };

    ghost sized = { λ _ t. absurd (false≢true t) };

    ghost are_bytes = { λ _ t. absurd (false≢true t) };

    fn length(&self) -> u64 {
        self.size
    }

    fn read_at(&mut self, _at: u64, _out: &mut [u8]) -> Result<usize, DeviceFault> {
        self.reads.add(1);
        Ok(0)
    }
}

impl Partition for Board {
    ghost past = { λ s. record { file = 0; pending = []; synced = s.syncs.number; moments = [] } };

    ghost puts = { λ s. s.puts.number };

    ghost taken = { λ s. s.taken.number };

    ghost syncs = { λ s. s.syncs.number };

    ghost put_faults = { λ _. 0 };

    ghost reading = { λ _. refl };

    fn write_at(&mut self, at: u64, bytes: &[u8]) -> Result<usize, DeviceFault> {
        self.puts.add(1);
        self.digest.put(at, bytes);
        self.taken.add(bytes.len() as u64);
        Ok(bytes.len())
    }

    fn sync(&mut self) -> Result<(), DeviceFault> {
        self.syncs.add(1);
        Ok(())
    }
}
