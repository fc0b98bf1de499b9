//! A borrowed slice as a spool.

ghost use Rattle.std.specs.Prelude.{◌≡◌, ◌<◌, ◌≤◌, ◌+◌, ◌^◌, length, take, drop, true, not, nat_lt, refl};
ghost use Rattle.abt_io.specs.BytesLaws.{bytes_of_part};
ghost use Rattle.abt_io.specs.Frame.{nothing_logged, last_cut};
ghost use Rattle.abt_io.specs.Held.{held_is, filled_is};

use crate::cells::Cells;
use abt_io::{DeviceFault, Input, Log, Output, Overwrite, Spool, Tally, read_part};

/// A borrowed slice that is written from its beginning on, and read from its beginning on.
#[derive(Drop)]
pub struct SliceSpool<'a> {
    pub cells: Cells<'a>,
    pub used: usize,
    pub seen: usize,
    /// How much had been written at the last clear.
    pub cleared: u64,
    pub log: Log,
    pub reads: Tally,
    pub given: Tally,
    pub writes: Tally,
    pub write_faults: Tally,
    pub full_faults: Tally,
    pub clears: Tally,
    pub ghost since: { take used cells.bytes.now ≡ drop (last_cut log.state.cuts) log.state.bytes },
    pub ghost cut: { cleared ≡ last_cut log.state.cuts },
    pub ghost all: { cleared + used ≡ length log.state.bytes },
    pub ghost room: { used ≤ length cells.bytes.now },
    pub ghost fits: { cleared + used < 2 ^ 64 },
}

impl<'a> SliceSpool<'a> {
    /// Empty, with as much room as this slice has.
    pub fn new(room: &'a mut [u8]) -> SliceSpool<'a>
        ensures same_reference { result.cells.bytes.ghost_name ≡ room.entry.ghost_name }
        ensures room { result.cells.bytes.now ≡ room.old }
        ensures used { result.used ≡ 0 }
        ensures seen { result.seen ≡ 0 }
        ensures log { result.log.state ≡ nothing_logged }
    {
        SliceSpool {
            cells: Cells::new(room),
            used: 0,
            seen: 0,
            cleared: 0,
            log: Log::new(),
            reads: Tally::new(),
            given: Tally::new(),
            writes: Tally::new(),
            write_faults: Tally::new(),
            full_faults: Tally::new(),
            clears: Tally::new(),
        }
    }
}

impl<'a> Input for SliceSpool<'a> {
    ghost models = { true };

    ghost remaining = { λ s. drop s.seen (take s.used s.cells.bytes.now) };

    ghost reads = { λ s. s.reads.number };

    ghost given = { λ s. s.given.number };

    ghost read_faults = { λ s. 0 };

    ghost read_frame = { λ s. record {
      written = s.log.state.bytes;
      cuts = s.log.state.cuts;
      capacity = length s.cells.bytes.now;
      writes = s.writes.number;
      write_faults = s.write_faults.number;
      full_faults = s.full_faults.number;
      clears = s.clears.number;
      clear_faults = 0;
    } };

    ghost are_bytes = { λ s _. bytes_of_part s.used s.seen s.cells.bytes.now s.cells.told };

    fn read(&mut self, out: &mut [u8]) -> Result<usize, DeviceFault> {
        self.reads.add(1);
        let used = self.used.min(self.cells.len());
        let seen = self.seen;
        let n = read_part(&self.cells.all()[..used], seen as u64, out);
        self.given.add(n as u64);
        self.seen = seen.saturating_add(n);
        Ok(n)
    }
}

impl<'a> Output for SliceSpool<'a> {
    ghost written = { λ s. s.log.state.bytes };

    ghost is_full = { λ s. not (nat_lt s.used (length s.cells.bytes.now)) };

    ghost writes = { λ s. s.writes.number };

    ghost write_faults = { λ s. s.write_faults.number };

    ghost full_faults = { λ s. s.full_faults.number };

    ghost write_frame = { λ s. record {
      file = 0;
      gone = last_cut s.log.state.cuts + s.seen;
      cuts = s.log.state.cuts;
      capacity = length s.cells.bytes.now;
      reads = s.reads.number;
      given = s.given.number;
      read_faults = 0;
      clears = s.clears.number;
      clear_faults = 0;
    } };

    fn write(&mut self, bytes: &[u8]) -> Result<usize, DeviceFault> {
        self.writes.add(1);
        if bytes.is_empty() {
            return Ok(0);
        }
        let room = self.cells.len();
        let used = self.used;
        if used >= room {
            self.write_faults.add(1);
            self.full_faults.add(1);
            return Err(DeviceFault::Full);
        }
        let n = bytes.len().min(room - used);
        if n as u64 > u64::MAX - self.cleared - used as u64 {
            self.write_faults.add(1);
            return Err(DeviceFault::Failed);
        }
        self.cells.put(used as u64, &bytes[..n]);
        self.log.append(&bytes[..n]);
        self.used = used + n;
        Ok(n)
    }
}

impl<'a> Overwrite for SliceSpool<'a> {
    fn position(&self) -> u64 {
        self.cleared + self.used as u64
    }

    /// An offset before the last clear is an error: nothing is there any more.
    fn write_over(&mut self, at: u64, bytes: &[u8]) -> Result<usize, DeviceFault> {
        self.writes.add(1);
        let cleared = self.cleared;
        if at < cleared {
            self.write_faults.add(1);
            return Err(DeviceFault::Failed);
        }
        self.cells.put(at - cleared, bytes);
        self.log.put(bytes, at);
        Ok(bytes.len())
    }
}

impl<'a> Spool for SliceSpool<'a> {
    ghost size = { λ s. length s.cells.bytes.now };

    ghost gone = { λ s. last_cut s.log.state.cuts + s.seen };

    ghost cuts = { λ s. s.log.state.cuts };

    ghost clears = { λ s. s.clears.number };

    ghost clear_faults = { λ s. 0 };

    ghost reading = { λ s. refl };

    ghost writing = { λ s. refl };

    ghost held = { λ s _. held_is (take s.used s.cells.bytes.now) s.log.state.bytes (last_cut s.log.state.cuts) s.seen
        s.since };

    ghost filled = { λ s full. filled_is s.cells.bytes.now s.log.state.bytes (last_cut s.log.state.cuts) s.used s.since
        full };

    fn capacity(&self) -> u64 {
        self.cells.len() as u64
    }

    fn clear(&mut self) -> Result<(), DeviceFault> {
        self.clears.add(1);
        self.log.cut();
        self.cleared += self.used as u64;
        self.used = 0;
        self.seen = 0;
        Ok(())
    }
}
