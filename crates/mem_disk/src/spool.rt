//! A file of a disk in memory that pieces go through.

ghost use Rattle.std.specs.Prelude.{◌≡◌, ◌<◌, ◌≤◌, ◌+◌, ◌^◌, length, drop, [], true, not, nat_lt, refl};
ghost use Rattle.abt_io.specs.Bytes.{AreBytes};
ghost use Rattle.abt_io.specs.BytesLaws.{bytes_of_drop};
ghost use Rattle.abt_io.specs.Frame.{last_cut, nothing_logged};
ghost use Rattle.abt_io.specs.Held.{held_is};
ghost use Rattle.mem_disk.specs.Spooled.{filled_as_spool};

use crate::partition::put_part;
use crate::source::copied_from;
use crate::{Countdown, Failures};
use abt_io::{DeviceFault, Input, Log, Output, Overwrite, Spool, Tally, are_bytes};

/// Bytes that were written since the last clear, which are read from their beginning on. It holds no more than its
/// limit.
#[derive(Drop)]
pub struct MemorySpool {
    pub bytes: Vec<u8>,
    pub limit: u32,
    pub seen: usize,
    /// How much had been written at the last clear.
    pub cleared: u64,
    pub log: Log,
    pub read_failures: Failures,
    pub write_failures: Failures,
    pub clear_failures: Failures,
    reads: Tally,
    given: Tally,
    writes: Tally,
    full_faults: Tally,
    clears: Tally,
    read_countdown: Countdown,
    write_countdown: Countdown,
    pub ghost since: { bytes.items ≡ drop (last_cut log.state.cuts) log.state.bytes },
    pub ghost cut: { cleared ≡ last_cut log.state.cuts },
    pub ghost all: { cleared + length bytes.items ≡ length log.state.bytes },
    pub ghost room: { length bytes.items ≤ limit },
    pub ghost fits: { cleared + length bytes.items < 2 ^ 64 },
    pub ghost told: { AreBytes bytes.items },
}

impl MemorySpool {
    /// With nothing in it, where a read may fail, and a write or a clear.
    pub fn new(
        empty: Vec<u8>,
        limit: u32,
        read_countdown: Countdown,
        write_countdown: Countdown,
    ) -> MemorySpool
        requires { empty.items ≡ [] }
        ensures limit { result.limit ≡ limit }
        ensures log { result.log.state ≡ nothing_logged }
        ensures reads { result.read_failures.tally.number ≡ 0 }
        ensures writes { result.write_failures.tally.number ≡ 0 }
        ensures clears { result.clear_failures.tally.number ≡ 0 }
    {
        are_bytes(empty.as_slice());
        MemorySpool {
            bytes: empty,
            limit,
            seen: 0,
            cleared: 0,
            log: Log::new(),
            read_failures: Failures::none(),
            write_failures: Failures::none(),
            clear_failures: Failures::none(),
            reads: Tally::new(),
            given: Tally::new(),
            writes: Tally::new(),
            full_faults: Tally::new(),
            clears: Tally::new(),
            read_countdown,
            write_countdown,
        }
    }
}

impl Input for MemorySpool {
    ghost models = { true };

    ghost remaining = { λ s. drop s.seen s.bytes.items };

    ghost reads = { λ s. s.reads.number };

    ghost given = { λ s. s.given.number };

    ghost read_faults = { λ s. s.read_failures.tally.number };

    ghost read_frame = { λ s. record {
      written = s.log.state.bytes;
      cuts = s.log.state.cuts;
      capacity = s.limit;
      writes = s.writes.number;
      write_faults = s.write_failures.tally.number;
      full_faults = s.full_faults.number;
      clears = s.clears.number;
      clear_faults = s.clear_failures.tally.number;
    } };

    ghost are_bytes = { λ s _. bytes_of_drop s.seen s.bytes.items s.told };

    fn read(&mut self, out: &mut [u8]) -> Result<usize, DeviceFault> {
        self.reads.add(1);
        if self.read_countdown.is_over() {
            self.read_failures.add();
            return Err(DeviceFault::Failed);
        }
        let seen = self.seen;
        let n = copied_from(self.bytes.as_slice(), seen as u64, out);
        self.given.add(n as u64);
        self.seen = seen.saturating_add(n);
        Ok(n)
    }
}

impl Output for MemorySpool {
    ghost written = { λ s. s.log.state.bytes };

    ghost is_full = { λ s. not (nat_lt (length s.bytes.items) s.limit) };

    ghost writes = { λ s. s.writes.number };

    ghost write_faults = { λ s. s.write_failures.tally.number };

    ghost full_faults = { λ s. s.full_faults.number };

    ghost write_frame = { λ s. record {
      file = 0;
      gone = last_cut s.log.state.cuts + s.seen;
      cuts = s.log.state.cuts;
      capacity = s.limit;
      reads = s.reads.number;
      given = s.given.number;
      read_faults = s.read_failures.tally.number;
      clears = s.clears.number;
      clear_faults = s.clear_failures.tally.number;
    } };

    fn write(&mut self, bytes: &[u8]) -> Result<usize, DeviceFault> {
        self.writes.add(1);
        if bytes.is_empty() {
            return Ok(0);
        }
        let room = self.limit as usize;
        let used = self.bytes.len();
        if used >= room {
            self.write_failures.add();
            self.full_faults.add(1);
            return Err(DeviceFault::Full);
        }
        let n = bytes.len().min(room - used);
        if n as u64 > u64::MAX - self.cleared - used as u64 || self.write_countdown.is_over() {
            self.write_failures.add();
            return Err(DeviceFault::Failed);
        }
        if self.bytes.extend_from_slice(&bytes[..n]).is_err() {
            self.write_failures.add();
            return Err(DeviceFault::Failed);
        }
        are_bytes(self.bytes.as_slice());
        self.log.append(&bytes[..n]);
        Ok(n)
    }
}

impl Overwrite for MemorySpool {
    fn position(&self) -> u64 {
        self.cleared + self.bytes.len() as u64
    }

    /// An offset before the last clear is an error: nothing is there any more.
    fn write_over(&mut self, at: u64, bytes: &[u8]) -> Result<usize, DeviceFault> {
        self.writes.add(1);
        let cleared = self.cleared;
        if at < cleared {
            self.write_failures.add();
            return Err(DeviceFault::Failed);
        }
        if self.write_countdown.is_over() {
            self.write_failures.add();
            return Err(DeviceFault::Failed);
        }
        put_part(&mut self.bytes, at - cleared, bytes);
        self.log.put(bytes, at);
        Ok(bytes.len())
    }
}

impl Spool for MemorySpool {
    ghost size = { λ s. s.limit };

    ghost gone = { λ s. last_cut s.log.state.cuts + s.seen };

    ghost cuts = { λ s. s.log.state.cuts };

    ghost clears = { λ s. s.clears.number };

    ghost clear_faults = { λ s. s.clear_failures.tally.number };

    ghost reading = { λ s. refl };

    ghost writing = { λ s. refl };

    ghost held = { λ s _. held_is s.bytes.items s.log.state.bytes (last_cut s.log.state.cuts) s.seen s.since };

    ghost filled = { λ s full. filled_as_spool s.bytes.items s.log.state.bytes (last_cut s.log.state.cuts) s.limit
        s.since full };

    fn capacity(&self) -> u64 {
        self.limit as u64
    }

    fn clear(&mut self) -> Result<(), DeviceFault> {
        self.clears.add(1);
        if self.write_countdown.is_over() {
            self.clear_failures.add();
            return Err(DeviceFault::Failed);
        }
        self.log.cut();
        self.cleared += self.bytes.len() as u64;
        self.bytes.clear();
        self.seen = 0;
        are_bytes(self.bytes.as_slice());
        Ok(())
    }
}
