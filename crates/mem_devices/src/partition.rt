//! A borrowed slice as a partition.

ghost use Rattle.std.specs.Prelude.{◌≡◌, ◌≤◌, ◌+◌, length, true, refl};
ghost use Rattle.abt_io.specs.Calls.{HasLaid, HasPut, HasSettled, HasSynced};
ghost use Rattle.abt_io.specs.Moment.{no_past, put_at, settled, wrote};

use crate::cells::Cells;
use abt_io::{DeviceFault, History, Partition, Source, Tally, read_part};
use std::mem;

/// A borrowed slice that is read and written at any offset, and never fails.
#[derive(Drop)]
pub struct SlicePartition<'a> {
    pub cells: Cells<'a>,
    pub history: History,
    pub reads: Tally,
    pub given: Tally,
    pub puts: Tally,
    pub taken: Tally,
    pub syncs: Tally,
}

impl<'a> SlicePartition<'a> {
    /// All of this slice. Nothing is pending.
    pub fn new(bytes: &'a mut [u8]) -> SlicePartition<'a>
        ensures same_reference { result.cells.bytes.ghost_name ≡ bytes.entry.ghost_name }
        ensures bytes { result.cells.bytes.now ≡ bytes.old }
        ensures history { result.history.past ≡ no_past }
    {
        SlicePartition {
            cells: Cells::new(bytes),
            history: History::new(),
            reads: Tally::new(),
            given: Tally::new(),
            puts: Tally::new(),
            taken: Tally::new(),
            syncs: Tally::new(),
        }
    }
}

impl<'a> Source for SlicePartition<'a> {
    ghost models = { true };

    ghost content = { λ s. s.cells.bytes.now };

    ghost size = { λ s. length s.cells.bytes.now };

    ghost reads = { λ s. s.reads.number };

    ghost given = { λ s. s.given.number };

    ghost read_faults = { λ s. 0 };

    ghost read_frame = { λ s. record {
      size = length s.cells.bytes.now;
      past = s.history.past;
      puts = s.puts.number;
      taken = s.taken.number;
      syncs = s.syncs.number;
      put_faults = 0;
    } };

    ghost sized = { λ s _. refl };

    ghost are_bytes = { λ s _. s.cells.told };

    fn length(&self) -> u64 {
        self.cells.len() as u64
    }

    fn read_at(&mut self, at: u64, out: &mut [u8]) -> Result<usize, DeviceFault> {
        self.reads.add(1);
        let n = read_part(self.cells.all(), at, out);
        self.given.add(n as u64);
        Ok(n)
    }
}

impl<'a> Partition for SlicePartition<'a> {
    ghost past = { λ s. s.history.past };

    ghost puts = { λ s. s.puts.number };

    ghost taken = { λ s. s.taken.number };

    ghost syncs = { λ s. s.syncs.number };

    ghost put_faults = { λ s. 0 };

    ghost reading = { λ s. refl };

    fn write_at(&mut self, at: u64, bytes: &[u8]) -> Result<usize, DeviceFault>
        requires window { length bytes.now ≤ 65536 }
        requires fits { at + length bytes.now ≤ length self.old.cells.bytes.now }
        ensures laid { let p = ⟦<SlicePartition<'a> as Partition>⟧ in HasLaid p.models p.content p.past result
            self.old self.new at bytes.now }
        ensures put { let p = ⟦<SlicePartition<'a> as Partition>⟧ in HasPut p.size p.reads p.given
            p.read_faults p.puts p.taken p.syncs p.put_faults result self.old self.new (length bytes.now) }
        ensures bytes { self.new.cells.bytes.now ≡ put_at self.old.cells.bytes.now at bytes.now }
        ensures past { self.new.history.past
            ≡ wrote self.old.history.past self.new.cells.bytes.now at (length bytes.now) }
    {
        let len = bytes.len();
        self.puts.add(1);
        self.taken.add(len as u64);
        self.cells.put(at, bytes);
        let mut history = mem::replace(&mut self.history, History::new());
        history.wrote(self.cells.all(), at, len as u64);
        self.history = history;
        Ok(len)
    }

    fn sync(&mut self) -> Result<(), DeviceFault>
        ensures settled { let p = ⟦<SlicePartition<'a> as Partition>⟧ in HasSettled p.models p.content p.past
            result self.old self.new }
        ensures synced { let p = ⟦<SlicePartition<'a> as Partition>⟧ in HasSynced p.size p.reads p.given
            p.read_faults p.puts p.taken p.syncs p.put_faults result self.old self.new }
        ensures past { self.new.history.past ≡ settled self.old.history.past self.old.cells.bytes.now }
    {
        self.syncs.add(1);
        let mut history = mem::replace(&mut self.history, History::new());
        history.settled(self.cells.all());
        self.history = history;
        Ok(())
    }
}
