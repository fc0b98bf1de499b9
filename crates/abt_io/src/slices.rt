//! A borrowed slice as a source, and as an output.

ghost use Rattle.std.specs.Prelude.{◌≡◌, ◌<◌, ◌≤◌, ◌-◌, OnOk, OnErr, min, length};
ghost use Rattle.std.specs.Prelude.{take, drop, true, not, nat_lt, refl};
ghost use Rattle.abt_io.specs.Bytes.{AreBytes};
ghost use Rattle.abt_io.specs.Called.{WritesOnce};
ghost use Rattle.abt_io.specs.Count.{count_of};

use crate::bytes::{are_bytes, read_part};
use crate::{DeviceFault, Output, Source, Tally};

/// A borrowed slice to read from, at any place.
#[derive(Drop)]
pub struct SliceSource<'a> {
    pub bytes: &'a [u8],
    pub calls: Tally,
    pub count: Tally,
    pub ghost told: { AreBytes bytes.now },
}

impl<'a> SliceSource<'a> {
    /// All of this slice.
    pub fn new(bytes: &'a [u8]) -> SliceSource<'a>
        ensures bytes { result.bytes.now ≡ bytes.now }
        ensures calls { result.calls.number ≡ 0 }
        ensures count { result.count.number ≡ 0 }
    {
        are_bytes(bytes);
        SliceSource {
            bytes,
            calls: Tally::new(),
            count: Tally::new(),
        }
    }
}

impl<'a> Source for SliceSource<'a> {
    ghost models = { true };

    ghost content = { λ s. s.bytes.now };

    ghost size = { λ s. length s.bytes.now };

    ghost reads = { λ s. s.calls.number };

    ghost given = { λ s. s.count.number };

    ghost read_faults = { λ s. 0 };

    ghost sized = { λ s _. refl };

    ghost are_bytes = { λ s _. s.told };

    fn length(&self) -> u64 {
        self.bytes.len() as u64
    }

    fn read_at(&mut self, at: u64, out: &mut [u8]) -> Result<usize, DeviceFault> {
        self.calls.add(1);
        let n = read_part(self.bytes, at, out);
        self.count.add(n as u64);
        Ok(n)
    }
}

/// A borrowed slice to write to, from its beginning. It takes as many bytes of a write as have room, and
/// returns `Full` only to a nonempty write when it has none.
#[derive(Drop)]
pub struct SliceOutput<'a> {
    pub room: &'a mut [u8],
    pub used: usize,
    pub calls: Tally,
    pub faults: Tally,
}

impl<'a> SliceOutput<'a> {
    /// As much room as this slice has.
    pub fn new(room: &'a mut [u8]) -> SliceOutput<'a>
        ensures same_reference { result.room.ghost_name ≡ room.entry.ghost_name }
        ensures room { result.room.now ≡ room.old }
        ensures used { result.used ≡ 0 }
        ensures calls { result.calls.number ≡ 0 }
        ensures faults { result.faults.number ≡ 0 }
    {
        SliceOutput {
            room,
            used: 0,
            calls: Tally::new(),
            faults: Tally::new(),
        }
    }

    /// What it took.
    pub fn written(&self) -> &[u8]
        ensures { result.now ≡ take self.now.used self.now.room.now }
    {
        &self.room[..self.used.min(self.room.len())]
    }
}

impl<'a> Output for SliceOutput<'a> {
    ghost written = { λ o. take o.used o.room.now };

    ghost is_full = { λ o. not (nat_lt o.used (length o.room.now)) };

    ghost writes = { λ o. o.calls.number };

    ghost write_faults = { λ o. o.faults.number };

    ghost full_faults = { λ o. o.faults.number };

    fn write(&mut self, bytes: &[u8]) -> Result<usize, DeviceFault>
        requires { length bytes.now ≤ 65536 }
        ensures wrote { WritesOnce ⟦<SliceOutput<'a> as Output>⟧ result self.old self.new bytes.now }
        ensures takes { OnOk result (count_of result
            ≡ min (length bytes.now) (length self.old.room.now - self.old.used)) }
        ensures refuses { OnErr result (0 < length bytes.now) }
    {
        self.calls.add(1);
        if bytes.is_empty() {
            return Ok(0);
        }
        if self.used >= self.room.len() {
            self.faults.add(1);
            return Err(DeviceFault::Full);
        }
        let n = bytes.len().min(self.room.len() - self.used);
        self.room[self.used..self.used + n].copy_from_slice(&bytes[..n]);
        self.used += n;
        Ok(n)
    }
}
