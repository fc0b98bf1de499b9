//! A partition over memory that can crash: it keeps the stable content, and which bytes were written since.

ghost use Rattle.std.specs.Prelude.{◌≡◌, ◌<◌, ◌+◌, ℕ, [], false, length, slice_get, slice_index, replicate, true, refl};
ghost use Rattle.mem_devices.specs.Crash.{IsTracked, left_of, picked};
ghost use Rattle.abt_io.specs.Moment.{MayLeave, is_pending, moment_of, no_past};

use crate::cells::Cells;
use crate::{Pick, SlicePartition};
use abt_io::{DeviceFault, History, Partition, Source};

/// Three borrowed slices of one length: what a read gives, what is stable, and 1 for each byte that was written since
/// the last sync, else 0.
#[derive(Drop)]
pub struct CrashPartition<'a> {
    pub now: SlicePartition<'a>,
    pub stable: Cells<'a>,
    pub touched: Cells<'a>,
    pub ghost tracked: { IsTracked now.cells.bytes.now stable.bytes.now touched.bytes.now now.history.past.pending },
}

impl<'a> CrashPartition<'a> {
    /// All of `now` is stable, and nothing is touched.
    pub fn new(now: &'a mut [u8], stable: &'a mut [u8], touched: &'a mut [u8]) -> CrashPartition<'a>
        requires stable { length stable.old ≡ length now.old }
        requires touched { length touched.old ≡ length now.old }
        ensures same_reference { result.now.cells.bytes.ghost_name ≡ now.entry.ghost_name }
        ensures now { result.now.cells.bytes.now ≡ now.old }
        ensures stable { result.stable.bytes.now ≡ now.old }
        ensures touched { result.touched.bytes.now ≡ replicate (length now.old) 0 }
        ensures history { result.now.history.past ≡ no_past }
    {
        stable.copy_from_slice(now);
        touched.fill(0);
        CrashPartition {
            now: SlicePartition::new(now),
            stable: Cells::new(stable),
            touched: Cells::new(touched),
        }
    }

    /// Loses power, and starts again: each byte that was written since the last sync is as `pick` says, all others are
    /// as they were. What is left is stable, and the history begins anew.
    pub fn crash(&mut self, pick: Pick)
        ensures same_reference { self.new.now.cells.bytes.ghost_name ≡ self.old.now.cells.bytes.ghost_name }
        ensures left { MayLeave (moment_of self.old.now.history.past self.old.now.cells.bytes.now)
            self.new.now.cells.bytes.now }
        ensures picked { (i : ℕ) → i < length self.old.now.cells.bytes.now
            → is_pending self.old.now.history.past.pending i ≡ true
            → slice_index self.new.now.cells.bytes.now i ≡ picked pick (slice_index self.old.now.cells.bytes.now i)
            (slice_index self.old.stable.bytes.now i) }
        ensures stable { self.new.stable.bytes.now ≡ self.new.now.cells.bytes.now }
        ensures touched { self.new.touched.bytes.now ≡ replicate (length self.old.now.cells.bytes.now) 0 }
        ensures history { self.new.now.history.past ≡ no_past }
    {
        self.now
            .cells
            .leave(self.stable.all(), self.touched.all(), pick);
        self.stable.copy(self.now.cells.all());
        self.touched.clear();
        self.now.history = History::new();
    }
}

impl<'a> Source for CrashPartition<'a> {
    ghost models = { true };

    ghost content = { λ s. s.now.cells.bytes.now };

    ghost size = { λ s. length s.now.cells.bytes.now };

    ghost reads = { λ s. s.now.reads.number };

    ghost given = { λ s. s.now.given.number };

    ghost read_faults = { λ s. 0 };

    ghost read_frame = { λ s. record {
      size = length s.now.cells.bytes.now;
      past = s.now.history.past;
      puts = s.now.puts.number;
      taken = s.now.taken.number;
      syncs = s.now.syncs.number;
      put_faults = 0;
    } };

    ghost sized = { λ s _. refl };

    ghost are_bytes = { λ s _. s.now.cells.told };

    fn length(&self) -> u64 {
        self.now.length()
    }

    fn read_at(&mut self, at: u64, out: &mut [u8]) -> Result<usize, DeviceFault> {
        self.now.read_at(at, out)
    }
}

impl<'a> Partition for CrashPartition<'a> {
    ghost past = { λ s. s.now.history.past };

    ghost puts = { λ s. s.now.puts.number };

    ghost taken = { λ s. s.now.taken.number };

    ghost syncs = { λ s. s.now.syncs.number };

    ghost put_faults = { λ s. 0 };

    ghost reading = { λ s. refl };

    fn write_at(&mut self, at: u64, bytes: &[u8]) -> Result<usize, DeviceFault> {
        self.touched.fill(at, bytes.len(), 1);
        self.now.write_at(at, bytes)
    }

    fn sync(&mut self) -> Result<(), DeviceFault> {
        self.stable.copy(self.now.cells.all());
        self.touched.clear();
        self.now.sync()
    }
}
