//! A spool over a file, where each call is one of the file: a gathering spool is compared to it.

ghost use Rattle.std.specs.Prelude.{◌≡◌, ◌≤◌, ◌+◌, ◌<◌, ◌^◌, [], false, not, nat_lt, length, refl};
ghost use Rattle.std.proofs.lemmas.Bool.{false≢true};
ghost use Rattle.abt_io.specs.Frame.{last_cut};
ghost use Rattle.abt_io.specs.Held.{filled_count};

use abt_io::{DeviceFault, Input, Log, Output, Overwrite, Spool, Tally};
use sys_file::{SystemFile, read_at, write_at};
use sys_std::OsFile;

/// One file that is written from its beginning on, and read from its beginning on. It is full where it holds as much
/// as its capacity.
#[derive(Drop)]
pub struct FileSpool {
    pub file: OsFile,
    pub capacity: u64,
    pub used: u64,
    pub seen: u64,
    /// How much had been written at the last clear.
    pub cleared: u64,
    pub log: Log,
    pub reads: Tally,
    pub given: Tally,
    pub read_faults: Tally,
    pub writes: Tally,
    pub write_faults: Tally,
    pub full_faults: Tally,
    pub clears: Tally,
    pub clear_faults: Tally,
    /// Why its last call failed, where one did.
    pub why: Option<i32>,
    pub ghost cut: { cleared ≡ last_cut log.state.cuts },
    pub ghost since: { last_cut log.state.cuts + used ≡ length log.state.bytes },
    pub ghost room: { used ≤ capacity },
    pub ghost fits: { cleared + used < 2 ^ 64 },
}

impl FileSpool {
    /// A spool of at most `capacity` bytes, over a file that is empty (as one that was opened with its
    /// content cut off).
    pub(crate) fn new(file: OsFile, capacity: u64) -> FileSpool {
        FileSpool {
            file,
            capacity,
            used: 0,
            seen: 0,
            cleared: 0,
            log: Log::new(),
            reads: Tally::new(),
            given: Tally::new(),
            read_faults: Tally::new(),
            writes: Tally::new(),
            write_faults: Tally::new(),
            full_faults: Tally::new(),
            clears: Tally::new(),
            clear_faults: Tally::new(),
            why: None,
        }
    }
}

impl Input for FileSpool {
    ghost models = { false };

    ghost remaining = { λ _. [] };

    ghost reads = { λ s. s.reads.number };

    ghost given = { λ s. s.given.number };

    ghost read_faults = { λ s. s.read_faults.number };

    ghost read_frame = { λ s. record {
      written = s.log.state.bytes;
      cuts = s.log.state.cuts;
      capacity = s.capacity;
      writes = s.writes.number;
      write_faults = s.write_faults.number;
      full_faults = s.full_faults.number;
      clears = s.clears.number;
      clear_faults = s.clear_faults.number;
    } };

    ghost are_bytes = { λ _ t. absurd (false≢true t) };

    /// Returns nothing that was not written since the last clear.
    fn read(&mut self, out: &mut [u8]) -> Result<usize, DeviceFault> {
        self.reads.add(1);
        let left = self.used.saturating_sub(self.seen);
        let ask = left.min(out.len() as u64) as usize;
        match read_at(&self.file, self.seen, &mut out[..ask]) {
            Ok(n) => {
                self.given.add(n as u64);
                self.seen = self.seen.saturating_add(n as u64);
                Ok(n)
            }
            Err(error) => {
                self.why = error.raw_os_error();
                self.read_faults.add(1);
                Err(DeviceFault::Failed)
            }
        }
    }
}

impl Output for FileSpool {
    ghost written = { λ s. s.log.state.bytes };

    ghost is_full = { λ s. not (nat_lt s.used s.capacity) };

    ghost writes = { λ s. s.writes.number };

    ghost write_faults = { λ s. s.write_faults.number };

    ghost full_faults = { λ s. s.full_faults.number };

    ghost write_frame = { λ s. record {
      file = 0;
      gone = last_cut s.log.state.cuts + s.seen;
      cuts = s.log.state.cuts;
      capacity = s.capacity;
      reads = s.reads.number;
      given = s.given.number;
      read_faults = s.read_faults.number;
      clears = s.clears.number;
      clear_faults = s.clear_faults.number;
    } };

    fn write(&mut self, bytes: &[u8]) -> Result<usize, DeviceFault> {
        self.writes.add(1);
        if bytes.is_empty() {
            return Ok(0);
        }
        let used = self.used;
        if used >= self.capacity {
            self.write_faults.add(1);
            self.full_faults.add(1);
            return Err(DeviceFault::Full);
        }
        let n = (self.capacity - used).min(bytes.len() as u64) as usize;
        if n as u64 > u64::MAX - self.cleared - used {
            self.write_faults.add(1);
            return Err(DeviceFault::Failed);
        }
        match write_at(&mut self.file, used, &bytes[..n]) {
            Ok(taken) => {
                self.log.append(&bytes[..taken]);
                self.used = used + taken as u64;
                Ok(taken)
            }
            Err(error) => {
                self.why = error.raw_os_error();
                self.write_faults.add(1);
                Err(DeviceFault::Failed)
            }
        }
    }
}

impl Overwrite for FileSpool {
    fn position(&self) -> u64 {
        self.cleared + self.used
    }

    /// Fails at a position before the last clear: nothing is stored there any more.
    fn write_over(&mut self, at: u64, bytes: &[u8]) -> Result<usize, DeviceFault> {
        self.writes.add(1);
        let cleared = self.cleared;
        if at < cleared {
            self.write_faults.add(1);
            return Err(DeviceFault::Failed);
        }
        match write_at(&mut self.file, at - cleared, bytes) {
            Ok(n) => {
                self.log.put(&bytes[..n], at);
                Ok(n)
            }
            Err(error) => {
                self.why = error.raw_os_error();
                self.write_faults.add(1);
                Err(DeviceFault::Failed)
            }
        }
    }
}

impl Spool for FileSpool {
    ghost size = { λ s. s.capacity };

    ghost gone = { λ s. last_cut s.log.state.cuts + s.seen };

    ghost cuts = { λ s. s.log.state.cuts };

    ghost clears = { λ s. s.clears.number };

    ghost clear_faults = { λ s. s.clear_faults.number };

    ghost reading = { λ s. refl };

    ghost writing = { λ s. refl };

    ghost held = { λ _ t. absurd (false≢true t) };

    ghost filled = { λ s full. filled_count s.capacity s.used (last_cut s.log.state.cuts) (length s.log.state.bytes)
        s.since full };

    fn capacity(&self) -> u64 {
        self.capacity
    }

    /// Truncates the file to no bytes; it stays open.
    fn clear(&mut self) -> Result<(), DeviceFault> {
        self.clears.add(1);
        match self.file.set_len(0) {
            Ok(()) => {
                self.log.cut();
                self.cleared += self.used;
                self.used = 0;
                self.seen = 0;
                Ok(())
            }
            Err(error) => {
                self.why = error.raw_os_error();
                self.clear_faults.add(1);
                Err(DeviceFault::Failed)
            }
        }
    }
}
