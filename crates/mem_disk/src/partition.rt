//! A file of a disk in memory that is written in place.

ghost use Rattle.std.specs.Prelude.{◌≡◌, ◌≤◌, ◌+◌, true, refl, length};
ghost use Rattle.abt_io.specs.Bytes.{AreBytes};
ghost use Rattle.abt_io.specs.Moment.{past_of_file, put_at};
ghost use Rattle.sys_disk.specs.InPlace.{is_settled};
ghost use Rattle.mem_disk.specs.Memory.{IsUnused};

use crate::source::copied_from;
use crate::{Countdown, Failures};
use abt_io::{DeviceFault, History, Partition, Source, Tally, are_bytes};
use std::mem;

/// Bytes that are written in place. A call that fails leaves them as they are.
#[derive(Drop)]
pub struct MemoryPartition {
    pub bytes: Vec<u8>,
    pub history: History,
    /// How often a write or a sync has failed.
    pub failed: Failures,
    /// Whether it was synced after its last write.
    pub is_stable: bool,
    reads: Tally,
    given: Tally,
    read_faults: Tally,
    puts: Tally,
    taken: Tally,
    syncs: Tally,
    read_countdown: Countdown,
    write_countdown: Countdown,
    pub ghost told: { AreBytes bytes.items },
    pub ghost kept: { is_stable ≡ is_settled history.past },
}

impl MemoryPartition {
    /// These bytes of the file of this number, where a read may fail, and a write or a sync.
    pub fn new(
        file: u64,
        bytes: Vec<u8>,
        read_countdown: Countdown,
        write_countdown: Countdown,
    ) -> MemoryPartition
        ensures history { result.history.past ≡ past_of_file file }
        ensures unused { IsUnused bytes result.bytes result.failed }
    {
        are_bytes(bytes.as_slice());
        let mut history = History::new();
        history.begins(file);
        MemoryPartition {
            bytes,
            history,
            failed: Failures::none(),
            is_stable: false,
            reads: Tally::new(),
            given: Tally::new(),
            read_faults: Tally::new(),
            puts: Tally::new(),
            taken: Tally::new(),
            syncs: Tally::new(),
            read_countdown,
            write_countdown,
        }
    }
}

impl Source for MemoryPartition {
    ghost models = { true };

    ghost content = { λ s. s.bytes.items };

    ghost size = { λ s. length s.bytes.items };

    ghost reads = { λ s. s.reads.number };

    ghost given = { λ s. s.given.number };

    ghost read_faults = { λ s. s.read_faults.number };

    ghost read_frame = { λ s. record {
      size = length s.bytes.items;
      past = s.history.past;
      puts = s.puts.number;
      taken = s.taken.number;
      syncs = s.syncs.number;
      put_faults = s.failed.tally.number;
    } };

    ghost sized = { λ s _. refl };

    ghost are_bytes = { λ s _. s.told };

    fn length(&self) -> u64 {
        self.bytes.len() as u64
    }

    fn read_at(&mut self, at: u64, out: &mut [u8]) -> Result<usize, DeviceFault> {
        self.reads.add(1);
        if self.read_countdown.is_over() {
            self.read_faults.add(1);
            return Err(DeviceFault::Failed);
        }
        let n = copied_from(self.bytes.as_slice(), at, out);
        self.given.add(n as u64);
        Ok(n)
    }
}

impl Partition for MemoryPartition {
    ghost past = { λ s. s.history.past };

    ghost puts = { λ s. s.puts.number };

    ghost taken = { λ s. s.taken.number };

    ghost syncs = { λ s. s.syncs.number };

    ghost put_faults = { λ s. s.failed.tally.number };

    ghost reading = { λ s. refl };

    fn write_at(&mut self, at: u64, bytes: &[u8]) -> Result<usize, DeviceFault> {
        self.puts.add(1);
        if self.write_countdown.is_over() {
            self.failed.add();
            return Err(DeviceFault::Failed);
        }
        let len = bytes.len();
        self.taken.add(len as u64);
        put_part(&mut self.bytes, at, bytes);
        let mut history = mem::replace(&mut self.history, History::new());
        history.wrote(self.bytes.as_slice(), at, len as u64);
        self.is_stable = false;
        self.history = history;
        Ok(len)
    }

    fn sync(&mut self) -> Result<(), DeviceFault> {
        self.syncs.add(1);
        if self.write_countdown.is_over() {
            self.failed.add();
            return Err(DeviceFault::Failed);
        }
        let mut history = mem::replace(&mut self.history, History::new());
        history.settled(self.bytes.as_slice());
        self.is_stable = true;
        self.history = history;
        Ok(())
    }
}

// Writes bytes at an offset.
pub(crate) fn put_part(into: &mut Vec<u8>, at: u64, bytes: &[u8])
    requires { at + length bytes.now ≤ length into.old.items }
    ensures value { into.new.items ≡ put_at into.old.items at bytes.now }
    ensures told { AreBytes into.new.items }
{
    let from = at as usize;
    into.as_mut_slice()[from..from + bytes.len()].copy_from_slice(bytes);
    are_bytes(into.as_slice());
}
