//! A device that fails once.

ghost use Rattle.std.specs.Prelude.{◌≡◌, ◌≤◌, ◌+◌, ◌↔◌, IsTrue, min, length, take};
ghost use Rattle.std.specs.Borrow.{sem};
ghost use Rattle.abt_io.specs.Called.{PassesOnce, WritesOnce, WritesOverOnce, ReadsPlaceOnce};
ghost use Rattle.abt_io.specs.Calls.{HasLaid, HasPut, HasSettled, HasSynced, HasCleared, HasCountedClear};
ghost use Rattle.abt_io.specs.Count.{count_of};
ghost use Rattle.mem_devices.specs.FrameLaws.{counted_reading, counted_writing, counted_partition, more_reading};
ghost use Rattle.mem_devices.specs.FrameLaws.{more_writing, more_partition};
ghost use Rattle.mem_devices.specs.Inner.{LendsInner};
ghost use Rattle.mem_devices.specs.Testing.{FailsOnce};

use abt_io::{DeviceFault, Input, Output, Overwrite, Partition, Source, Spool, Tally};

/// Fails its call number `at` (from 1): that call returns `Failed` and doesn't reach the device. All other calls pass.
/// `read`, `read_at`, `write`, `write_over`, `write_at`, `sync` and `clear` count; `length`, `capacity` and `position`
/// don't. It implements each device trait that its device implements.
#[derive(Drop)]
pub struct Faulty<D> {
    pub device: D,
    pub at: u64,
    pub seen: u64,
    pub reads: Tally,
    pub writes: Tally,
    pub others: Tally,
}

impl<D> Faulty<D> {
    /// A device whose call number `at` fails; at 0 none does.
    pub fn new(device: D, at: u64) -> Faulty<D>
        ensures device { result.device ≡ device }
        ensures at { result.at ≡ at }
        ensures seen { result.seen ≡ 0 }
        ensures reads { result.reads.number ≡ 0 }
        ensures writes { result.writes.number ≡ 0 }
        ensures others { result.others.number ≡ 0 }
    {
        Faulty {
            device,
            at,
            seen: 0,
            reads: Tally::new(),
            writes: Tally::new(),
            others: Tally::new(),
        }
    }

    /// The device in it, which is called without a failure and without a count.
    pub fn inner(&mut self) -> &mut D
        ensures* writes_back { sem 𝓛 (LendsInner D.row self.entry result) }
        ensures value { result.now ≡ self.old.device }
    {
        &mut self.device
    }

    // Counts a call, and returns whether it is the one that fails.
    fn fails(&mut self) -> bool
        ensures device { self.new.device ≡ self.old.device }
        ensures reads { self.new.reads.number ≡ self.old.reads.number }
        ensures writes { self.new.writes.number ≡ self.old.writes.number }
        ensures others { self.new.others.number ≡ self.old.others.number }
        ensures at { self.new.at ≡ self.old.at }
        ensures seen { self.new.seen ≡ min (self.old.seen + 1) u64.MAX }
        ensures last { IsTrue result ↔ (self.new.seen ≡ self.old.at) }
    {
        self.seen = self.seen.saturating_add(1);
        self.seen == self.at
    }
}

impl<D: Input> Input for Faulty<D> {
    ghost models = { D.models };

    ghost remaining = { λ c. D.remaining c.device };

    ghost reads = { λ c. D.reads c.device + c.reads.number };

    ghost given = { λ c. D.given c.device };

    ghost read_faults = { λ c. D.read_faults c.device + c.reads.number };

    ghost read_frame = { λ c. more_reading (D.read_frame c.device) c.writes.number c.others.number };

    ghost are_bytes = { λ c t. D.are_bytes c.device t };

    fn read(&mut self, out: &mut [u8]) -> Result<usize, DeviceFault>
        requires { length out.old ≤ 65536 }
        ensures passed { PassesOnce ⟦<Faulty<D> as Input>⟧ result self.old self.new (length out.new) }
        ensures bytes { IsTrue D.models → take (count_of result) out.new
            ≡ take (count_of result) (D.remaining self.old.device) }
        ensures once { FailsOnce result self.old.at self.new.at self.old.seen self.new.seen self.old.reads.number
            self.new.reads.number }
    {
        if self.fails() {
            self.reads.add(1);
            return Err(DeviceFault::Failed);
        }
        self.device.read(out)
    }
}

impl<D: Output> Output for Faulty<D> {
    ghost written = { λ c. D.written c.device };

    ghost is_full = { λ c. D.is_full c.device };

    ghost writes = { λ c. D.writes c.device + c.writes.number };

    ghost write_faults = { λ c. D.write_faults c.device + c.writes.number };

    ghost full_faults = { λ c. D.full_faults c.device };

    ghost write_frame = { λ c. more_writing (D.write_frame c.device) c.reads.number c.others.number };

    fn write(&mut self, bytes: &[u8]) -> Result<usize, DeviceFault>
        requires { length bytes.now ≤ 65536 }
        ensures wrote { WritesOnce ⟦<Faulty<D> as Output>⟧ result self.old self.new bytes.now }
        ensures once { FailsOnce result self.old.at self.new.at self.old.seen self.new.seen self.old.writes.number
            self.new.writes.number }
    {
        if self.fails() {
            self.writes.add(1);
            return Err(DeviceFault::Failed);
        }
        self.device.write(bytes)
    }
}

impl<D: Overwrite> Overwrite for Faulty<D> {
    fn position(&self) -> u64 {
        self.device.position()
    }

    fn write_over(&mut self, at: u64, bytes: &[u8]) -> Result<usize, DeviceFault>
        requires window { length bytes.now ≤ 65536 }
        requires stands { at + length bytes.now ≤ length (D.written self.old.device) }
        ensures wrote { WritesOverOnce ⟦<Faulty<D> as Output>⟧ result self.old self.new at bytes.now }
        ensures once { FailsOnce result self.old.at self.new.at self.old.seen self.new.seen self.old.writes.number
            self.new.writes.number }
    {
        if self.fails() {
            self.writes.add(1);
            return Err(DeviceFault::Failed);
        }
        self.device.write_over(at, bytes)
    }
}

impl<D: Source> Source for Faulty<D> {
    ghost models = { D.models };

    ghost content = { λ c. D.content c.device };

    ghost size = { λ c. D.size c.device };

    ghost reads = { λ c. D.reads c.device + c.reads.number };

    ghost given = { λ c. D.given c.device };

    ghost read_faults = { λ c. D.read_faults c.device + c.reads.number };

    ghost read_frame = { λ c. more_partition (D.read_frame c.device) c.writes.number c.others.number };

    ghost sized = { λ c t. D.sized c.device t };

    ghost are_bytes = { λ c t. D.are_bytes c.device t };

    fn length(&self) -> u64 {
        self.device.length()
    }

    fn read_at(&mut self, at: u64, out: &mut [u8]) -> Result<usize, DeviceFault>
        requires { length out.old ≤ 65536 }
        ensures has_read { ReadsPlaceOnce ⟦<Faulty<D> as Source>⟧ result self.old self.new at out.new }
        ensures once { FailsOnce result self.old.at self.new.at self.old.seen self.new.seen self.old.reads.number
            self.new.reads.number }
    {
        if self.fails() {
            self.reads.add(1);
            return Err(DeviceFault::Failed);
        }
        self.device.read_at(at, out)
    }
}

impl<D: Partition> Partition for Faulty<D> {
    ghost past = { λ c. D.past c.device };

    ghost puts = { λ c. D.puts c.device + c.writes.number };

    ghost taken = { λ c. D.taken c.device };

    ghost syncs = { λ c. D.syncs c.device + c.others.number };

    ghost put_faults = { λ c. D.put_faults c.device + c.writes.number + c.others.number };

    ghost reading = { λ c. counted_partition _ _ (D.reading c.device) c.writes.number c.others.number };

    fn write_at(&mut self, at: u64, bytes: &[u8]) -> Result<usize, DeviceFault>
        requires window { length bytes.now ≤ 65536 }
        requires fits { at + length bytes.now ≤ D.size self.old.device }
        ensures laid { let p = ⟦<Faulty<D> as Partition>⟧ in HasLaid p.models p.content p.past result self.old
            self.new at bytes.now }
        ensures put { let p = ⟦<Faulty<D> as Partition>⟧ in HasPut p.size p.reads p.given p.read_faults p.puts p.taken
            p.syncs p.put_faults result self.old self.new (length bytes.now) }
        ensures once { FailsOnce result self.old.at self.new.at self.old.seen self.new.seen self.old.writes.number
            self.new.writes.number }
    {
        if self.fails() {
            self.writes.add(1);
            return Err(DeviceFault::Failed);
        }
        self.device.write_at(at, bytes)
    }

    fn sync(&mut self) -> Result<(), DeviceFault>
        ensures settled { let p = ⟦<Faulty<D> as Partition>⟧ in HasSettled p.models p.content p.past result self.old
            self.new }
        ensures synced { let p = ⟦<Faulty<D> as Partition>⟧ in HasSynced p.size p.reads p.given p.read_faults p.puts p.taken
            p.syncs p.put_faults result self.old self.new }
        ensures once { FailsOnce result self.old.at self.new.at self.old.seen self.new.seen self.old.others.number
            self.new.others.number }
    {
        if self.fails() {
            self.others.add(1);
            return Err(DeviceFault::Failed);
        }
        self.device.sync()
    }
}

impl<D: Spool> Spool for Faulty<D> {
    ghost size = { λ c. D.size c.device };

    ghost gone = { λ c. D.gone c.device };

    ghost cuts = { λ c. D.cuts c.device };

    ghost clears = { λ c. D.clears c.device + c.others.number };

    ghost clear_faults = { λ c. D.clear_faults c.device + c.others.number };

    ghost reading = { λ c. counted_reading _ _ (D.reading c.device) c.writes.number c.others.number };

    ghost writing = { λ c. counted_writing _ _ (D.writing c.device) c.reads.number c.others.number };

    ghost held = { λ c t. D.held c.device t };

    ghost filled = { λ c t. D.filled c.device t };

    fn capacity(&self) -> u64 {
        self.device.capacity()
    }

    fn clear(&mut self) -> Result<(), DeviceFault>
        ensures cleared { let s = ⟦<Faulty<D> as Spool>⟧ in HasCleared s.written s.gone s.cuts result self.old self.new }
        ensures counted { let s = ⟦<Faulty<D> as Spool>⟧ in HasCountedClear s.size s.given s.reads s.writes s.read_faults s.write_faults
            s.full_faults s.clears s.clear_faults result self.old self.new }
        ensures once { FailsOnce result self.old.at self.new.at self.old.seen self.new.seen self.old.others.number
            self.new.others.number }
    {
        if self.fails() {
            self.others.add(1);
            return Err(DeviceFault::Failed);
        }
        self.device.clear()
    }
}
