//! An output whose written bytes can be overwritten, and a borrowed slice as such an output.

ghost use Rattle.std.specs.Prelude.{◌≡◌, ◌≤◌, ◌+◌, length};
ghost use Rattle.abt_io.specs.Calls.{HasWrittenOver};

use crate::bytes::put_part;
use crate::{DeviceFault, Output, SliceOutput};

/// An output whose written bytes can be overwritten, so that a header is written once all its fields are known.
///
/// An overwrite counts as one of the output's `writes`. It makes nothing longer, so it never fails with `Full`.
pub trait Overwrite: Output {
    /// How many bytes were written: where the next one goes.
    fn position(&self) -> u64
        ensures { result ≡ length (Self.written self.now) };

    /// Overwrites what is stored at a place with a prefix of these bytes, and returns how many. All of them
    /// have to fit there. A refused call moves nothing.
    fn write_over(&mut self, at: u64, bytes: &[u8]) -> Result<usize, DeviceFault>
        requires window { length bytes.now ≤ 65536 }
        requires stands { at + length bytes.now ≤ length (Self.written self.old) }
        ensures wrote { HasWrittenOver Self.written Self.writes Self.write_faults Self.full_faults Self.write_frame result
            self.old self.new at bytes.now };
}

impl<'a> Overwrite for SliceOutput<'a> {
    fn position(&self) -> u64 {
        self.used.min(self.room.len()) as u64
    }

    fn write_over(&mut self, at: u64, bytes: &[u8]) -> Result<usize, DeviceFault> {
        self.calls.add(1);
        let n = bytes.len();
        put_part(self.room, at, bytes);
        Ok(n)
    }
}
