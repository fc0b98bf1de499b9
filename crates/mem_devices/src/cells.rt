//! A borrowed slice in a struct of its own, so that all of it can be borrowed beside the other fields of a device.

ghost use Rattle.std.specs.Prelude.{◌≡◌, ◌≤◌, ◌+◌, ℕ, length, replicate, slice_index};
ghost use Rattle.abt_io.specs.Bytes.{AreBytes};
ghost use Rattle.mem_devices.specs.Crash.{left_of};
ghost use Rattle.abt_io.specs.Moment.{put_at};

use crate::Pick;
use crate::bytes::{clear_part, copy_part, fill_part};
use crate::pick::leave;
use abt_io::{are_bytes, put_part};

/// The bytes that a device over memory keeps.
#[derive(Drop)]
pub struct Cells<'a> {
    pub bytes: &'a mut [u8],
    pub ghost told: { AreBytes bytes.now },
}

impl<'a> Cells<'a> {
    pub(crate) fn new(bytes: &'a mut [u8]) -> Cells<'a>
        ensures same_reference { result.bytes.ghost_name ≡ bytes.entry.ghost_name }
        ensures bytes { result.bytes.now ≡ bytes.old }
    {
        are_bytes(bytes);
        Cells { bytes }
    }

    pub(crate) fn len(&self) -> usize
        ensures { result ≡ length self.now.bytes.now }
    {
        self.bytes.len()
    }

    pub(crate) fn all(&self) -> &[u8]
        ensures { result.now ≡ self.now.bytes.now }
    {
        &*self.bytes
    }

    /// Writes bytes at an offset.
    pub(crate) fn put(&mut self, at: u64, bytes: &[u8])
        requires { at + length bytes.now ≤ length self.old.bytes.now }
        ensures same_reference { self.new.bytes.ghost_name ≡ self.old.bytes.ghost_name }
        ensures value { self.new.bytes.now ≡ put_at self.old.bytes.now at bytes.now }
    {
        put_part(self.bytes, at, bytes);
    }

    /// Writes one byte repeatedly, from an offset on.
    pub(crate) fn fill(&mut self, at: u64, n: usize, byte: u8)
        requires { at + n ≤ length self.old.bytes.now }
        ensures same_reference { self.new.bytes.ghost_name ≡ self.old.bytes.ghost_name }
        ensures value { self.new.bytes.now ≡ put_at self.old.bytes.now at (replicate n byte) }
    {
        fill_part(self.bytes, at, n, byte);
    }

    /// Sets all of them to 0.
    pub(crate) fn clear(&mut self)
        ensures same_reference { self.new.bytes.ghost_name ≡ self.old.bytes.ghost_name }
        ensures value { self.new.bytes.now ≡ replicate (length self.old.bytes.now) 0 }
    {
        clear_part(self.bytes);
    }

    /// Copies as many other bytes over them.
    pub(crate) fn copy(&mut self, from: &[u8])
        requires { length from.now ≡ length self.old.bytes.now }
        ensures same_reference { self.new.bytes.ghost_name ≡ self.old.bytes.ghost_name }
        ensures value { self.new.bytes.now ≡ from.now }
    {
        copy_part(self.bytes, from);
    }

    /// Sets every byte to what a crash leaves of it.
    pub(crate) fn leave(&mut self, stable: &[u8], touched: &[u8], pick: Pick)
        requires stable { length stable.now ≡ length self.old.bytes.now }
        requires touched { length touched.now ≡ length self.old.bytes.now }
        ensures same_reference { self.new.bytes.ghost_name ≡ self.old.bytes.ghost_name }
        ensures left { (i : ℕ) → slice_index self.new.bytes.now i ≡ left_of pick (slice_index self.old.bytes.now i)
            (slice_index stable.now i) (slice_index touched.now i) }
        ensures long { length self.new.bytes.now ≡ length self.old.bytes.now }
    {
        leave(self.bytes, stable, touched, pick);
    }
}
