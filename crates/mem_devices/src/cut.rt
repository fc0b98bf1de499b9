//! A device that moves few bytes a call.

ghost use Rattle.std.specs.Prelude.{◌≡◌, ◌<◌, ◌≤◌, ◌+◌, IsTrue, length, take};
ghost use Rattle.abt_io.specs.Called.{PassesOnce, WritesOnce, WritesOverOnce, ReadsPlaceOnce};
ghost use Rattle.abt_io.specs.Calls.{HasLaid, HasPut};
ghost use Rattle.abt_io.specs.Count.{count_of};
ghost use Rattle.mem_devices.specs.Testing.{MovesAtMost};

use abt_io::{DeviceFault, Input, Output, Overwrite, Partition, Source, Spool};

/// Gives or takes at most `most` bytes a call, which is at least 1. It implements each device trait that its device
/// implements.
#[derive(Drop)]
pub struct Cut<D> {
    pub device: D,
    pub most: usize,
    pub ghost some: { 0 < most },
}

impl<D> Cut<D> {
    /// Limits the calls of this device.
    pub fn new(device: D, most: usize) -> Cut<D>
        requires { 0 < most }
        ensures device { result.device ≡ device }
        ensures most { result.most ≡ most }
    {
        Cut { device, most }
    }

    // How much of a request of `n` bytes is passed on.
    fn share(&self, n: usize) -> usize
        ensures most { result ≤ self.now.most }
        ensures within { result ≤ n }
        ensures some { 0 < n → 0 < result }
    {
        n.min(self.most)
    }
}

impl<D: Input> Input for Cut<D> {
    ghost models = { D.models };

    ghost remaining = { λ c. D.remaining c.device };

    ghost reads = { λ c. D.reads c.device };

    ghost given = { λ c. D.given c.device };

    ghost read_faults = { λ c. D.read_faults c.device };

    ghost read_frame = { λ c. D.read_frame c.device };

    ghost are_bytes = { λ c t. D.are_bytes c.device t };

    fn read(&mut self, out: &mut [u8]) -> Result<usize, DeviceFault>
        requires { length out.old ≤ 65536 }
        ensures passed { PassesOnce ⟦<Cut<D> as Input>⟧ result self.old self.new (length out.new) }
        ensures bytes { IsTrue D.models → take (count_of result) out.new
            ≡ take (count_of result) (D.remaining self.old.device) }
        ensures most { MovesAtMost (count_of result) self.old.most self.new.most }
    {
        let n = self.share(out.len());
        self.device.read(&mut out[..n])
    }
}

impl<D: Source> Source for Cut<D> {
    ghost models = { D.models };

    ghost content = { λ c. D.content c.device };

    ghost size = { λ c. D.size c.device };

    ghost reads = { λ c. D.reads c.device };

    ghost given = { λ c. D.given c.device };

    ghost read_faults = { λ c. D.read_faults c.device };

    ghost read_frame = { λ c. D.read_frame c.device };

    ghost sized = { λ c t. D.sized c.device t };

    ghost are_bytes = { λ c t. D.are_bytes c.device t };

    fn length(&self) -> u64 {
        self.device.length()
    }

    fn read_at(&mut self, at: u64, out: &mut [u8]) -> Result<usize, DeviceFault>
        requires { length out.old ≤ 65536 }
        ensures has_read { ReadsPlaceOnce ⟦<Cut<D> as Source>⟧ result self.old self.new at out.new }
        ensures most { MovesAtMost (count_of result) self.old.most self.new.most }
    {
        let n = self.share(out.len());
        self.device.read_at(at, &mut out[..n])
    }
}

impl<D: Output> Output for Cut<D> {
    ghost written = { λ c. D.written c.device };

    ghost is_full = { λ c. D.is_full c.device };

    ghost writes = { λ c. D.writes c.device };

    ghost write_faults = { λ c. D.write_faults c.device };

    ghost full_faults = { λ c. D.full_faults c.device };

    ghost write_frame = { λ c. D.write_frame c.device };

    fn write(&mut self, bytes: &[u8]) -> Result<usize, DeviceFault>
        requires { length bytes.now ≤ 65536 }
        ensures wrote { WritesOnce ⟦<Cut<D> as Output>⟧ result self.old self.new bytes.now }
        ensures most { MovesAtMost (count_of result) self.old.most self.new.most }
    {
        let n = self.share(bytes.len());
        self.device.write(&bytes[..n])
    }
}

impl<D: Overwrite> Overwrite for Cut<D> {
    fn position(&self) -> u64 {
        self.device.position()
    }

    fn write_over(&mut self, at: u64, bytes: &[u8]) -> Result<usize, DeviceFault>
        requires window { length bytes.now ≤ 65536 }
        requires stands { at + length bytes.now ≤ length (D.written self.old.device) }
        ensures wrote { WritesOverOnce ⟦<Cut<D> as Output>⟧ result self.old self.new at bytes.now }
        ensures most { MovesAtMost (count_of result) self.old.most self.new.most }
    {
        let n = self.share(bytes.len());
        self.device.write_over(at, &bytes[..n])
    }
}

impl<D: Partition> Partition for Cut<D> {
    ghost past = { λ c. D.past c.device };

    ghost puts = { λ c. D.puts c.device };

    ghost taken = { λ c. D.taken c.device };

    ghost syncs = { λ c. D.syncs c.device };

    ghost put_faults = { λ c. D.put_faults c.device };

    ghost reading = { λ c. D.reading c.device };

    fn write_at(&mut self, at: u64, bytes: &[u8]) -> Result<usize, DeviceFault>
        requires window { length bytes.now ≤ 65536 }
        requires fits { at + length bytes.now ≤ D.size self.old.device }
        ensures laid { let p = ⟦<Cut<D> as Partition>⟧ in HasLaid p.models p.content p.past result self.old self.new
            at bytes.now }
        ensures put { let p = ⟦<Cut<D> as Partition>⟧ in HasPut p.size p.reads p.given p.read_faults p.puts p.taken
            p.syncs p.put_faults result self.old self.new (length bytes.now) }
        ensures most { MovesAtMost (count_of result) self.old.most self.new.most }
    {
        let n = self.share(bytes.len());
        self.device.write_at(at, &bytes[..n])
    }

    fn sync(&mut self) -> Result<(), DeviceFault> {
        self.device.sync()
    }
}

impl<D: Spool> Spool for Cut<D> {
    ghost size = { λ c. D.size c.device };

    ghost gone = { λ c. D.gone c.device };

    ghost cuts = { λ c. D.cuts c.device };

    ghost clears = { λ c. D.clears c.device };

    ghost clear_faults = { λ c. D.clear_faults c.device };

    ghost reading = { λ c. D.reading c.device };

    ghost writing = { λ c. D.writing c.device };

    ghost held = { λ c t. D.held c.device t };

    ghost filled = { λ c t. D.filled c.device t };

    fn capacity(&self) -> u64 {
        self.device.capacity()
    }

    fn clear(&mut self) -> Result<(), DeviceFault> {
        self.device.clear()
    }
}
