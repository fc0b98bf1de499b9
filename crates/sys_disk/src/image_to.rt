//! The output of an image that has a magic.

ghost use Rattle.std.specs.Prelude.{◌≡◌, ◌<◌, ◌≤◌, IfErr, OnOk, OnErr};

use abt_io::{DeviceFault, Overwrite};

/// The output of an image, which can be overwritten.
#[derive(Drop)]
pub enum ImageTo<F, S> {
    /// A regular file, in which the magic is written last: an image that was broken off has none.
    File(F),
    /// A pipe, a device or standard output, which is written from its beginning on.
    Stream(S),
}

/// An output that can be overwritten, and may have buffered what it took.
pub trait Late: Overwrite {
    /// Writes all that it took. If that fails, a write before the present call has failed.
    fn settle(&mut self) -> Result<(), DeviceFault>
        ensures kept { Self.written self.new ≡ Self.written self.old }
        ensures frame { Self.write_frame self.new ≡ Self.write_frame self.old }
        ensures faults { Self.write_faults self.old ≤ Self.write_faults self.new }
        ensures cause { OnErr result (Self.write_faults self.old < Self.write_faults self.new) }
        ensures clean { OnOk result (Self.write_faults self.new ≡ Self.write_faults self.old) }
        ensures failed { IfErr result (λ e. e ≡ DeviceFault.Failed) };
}
