//! A source whose file may change while it is read.

ghost use Rattle.std.specs.Prelude.{◌≡◌, None, IsTrue};
ghost use Rattle.sys_disk.specs.Lasts.{HoldsStill};

use abt_io::Source;

/// A source that may have read more than was asked for, and serves later reads from memory. The file may no longer hold
/// what it gives so. Therefore it is checked once for each piece, at the piece's end.
pub trait Lasting: Source {
    /// A piece begins: what is buffered is read again before it is given.
    fn forget(&mut self)
        ensures { HoldsStill Self.models Self.content Self.size Self.read_faults self.old self.new };

    /// Frees the memory of the buffer, until the source is read again.
    fn rest(&mut self)
        ensures { HoldsStill Self.models Self.content Self.size Self.read_faults self.old self.new };

    /// The file's present length, if that is less than what was given of it from memory since the piece began.
    fn shorter(&self) -> Option<u64>
        ensures { IsTrue Self.models → result ≡ None };

    /// The file's present length.
    fn length_now(&mut self) -> u64
        ensures told { IsTrue Self.models → result ≡ Self.size self.old }
        ensures content { IsTrue Self.models → Self.content self.new ≡ Self.content self.old }
        ensures size { Self.size self.new ≡ Self.size self.old }
        ensures reads { Self.reads self.new ≡ Self.reads self.old }
        ensures given { Self.given self.new ≡ Self.given self.old }
        ensures faults { Self.read_faults self.new ≡ Self.read_faults self.old };
}
