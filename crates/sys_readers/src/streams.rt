//! A reader as an input, and a writer as an output. They model nothing.

ghost use Rattle.std.specs.Prelude.{◌≡◌, [], false};
ghost use Rattle.abt_io.specs.Frame.{nothing_logged};
ghost use Rattle.std.proofs.lemmas.Bool.{false≢true};

use crate::tries;
use abt_io::{DeviceFault, Input, Log, Output, Tally};
use std::io::{Read, Write};

/// A writer as an output. An error, and a write that takes no byte, is `Failed`.
#[derive(Drop)]
pub struct ToWrite<W> {
    pub writer: W,
    pub log: Log,
    pub calls: Tally,
    pub faults: Tally,
}

impl<W> ToWrite<W> {
    /// Nothing was written yet.
    pub fn new(writer: W) -> ToWrite<W>
        ensures log { result.log.state ≡ nothing_logged }
        ensures calls { result.calls.number ≡ 0 }
        ensures faults { result.faults.number ≡ 0 }
    {
        ToWrite {
            writer,
            log: Log::new(),
            calls: Tally::new(),
            faults: Tally::new(),
        }
    }
}

impl<W: Write> Output for ToWrite<W> {
    ghost written = { λ o. o.log.state.bytes };

    ghost is_full = { λ _. false };

    ghost writes = { λ o. o.calls.number };

    ghost write_faults = { λ o. o.faults.number };

    ghost full_faults = { λ _. 0 };

    fn write(&mut self, bytes: &[u8]) -> Result<usize, DeviceFault> {
        self.calls.add(1);
        match tries::write(&mut self.writer, bytes) {
            Ok(n) => {
                self.log.append(&bytes[..n]);
                Ok(n)
            }
            Err(_) => {
                self.faults.add(1);
                Err(DeviceFault::Failed)
            }
        }
    }
}

/// A reader as an input. An error is `Failed`.
#[derive(Drop)]
pub struct FromRead<R> {
    pub reader: R,
    pub calls: Tally,
    pub count: Tally,
    pub faults: Tally,
}

impl<R> FromRead<R> {
    /// Nothing was read yet.
    pub fn new(reader: R) -> FromRead<R>
        ensures calls { result.calls.number ≡ 0 }
        ensures faults { result.faults.number ≡ 0 }
    {
        FromRead {
            reader,
            calls: Tally::new(),
            count: Tally::new(),
            faults: Tally::new(),
        }
    }
}

impl<R: Read> Input for FromRead<R> {
    ghost models = { false };

    ghost remaining = { λ _. [] };

    ghost reads = { λ s. s.calls.number };

    ghost given = { λ s. s.count.number };

    ghost read_faults = { λ s. s.faults.number };

    ghost are_bytes = { λ _ t. absurd (false≢true t) };

    fn read(&mut self, out: &mut [u8]) -> Result<usize, DeviceFault> {
        self.calls.add(1);
        match tries::read(&mut self.reader, out) {
            Ok(n) => {
                self.count.add(n as u64);
                Ok(n)
            }
            Err(_) => {
                self.faults.add(1);
                Err(DeviceFault::Failed)
            }
        }
    }
}
