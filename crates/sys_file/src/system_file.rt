//! The trait of one open file, as the system gives it.

ghost use Rattle.std.specs.Prelude.{◌≡◌, ◌≤◌, ◌+◌, ℕ, List, Bool, IsTrue, IfOk, IfErr, IfSome, length};
ghost use Rattle.std.specs.IoError.{error_kind};
ghost use Rattle.abt_io.specs.Bytes.{AreBytes};
ghost use Rattle.abt_io.specs.Count.{count_of};
ghost use Rattle.abt_io.specs.Moment.{Past};
ghost use Rattle.sys_file.specs.File.{ReadsAt, ReadsAtPlace, GoesTo, WritesAt, SetsLength};
ghost use Rattle.sys_file.specs.Past.{LaysWithin, SettlesFile};

use std::io;
use std::io::ErrorKind;

/// The length of a regular file, and the time of its last modification.
#[derive(Clone, Copy, Drop)]
pub struct Stamp {
    pub length: u64,
    pub second: i64,
    pub nanosecond: i64,
}

/// One open file. Nobody else writes it meanwhile.
///
/// A byte becomes pending when a write changes it, or tries to. It stays pending until a sync succeeds. A crash may
/// change pending bytes and no others. A crash may also leave the file with the length that it had before a change of
/// its length.
pub trait SystemFile {
    /// Whether the file models its content.
    ghost models: { Bool };

    /// The file's present content, where it models it.
    ghost stands: { Self → List ℕ };

    /// The pending bytes, the number of syncs that succeeded and the intermediate states, where the file models its
    /// content. They are those of a partition.
    ghost past: { Self → Past };

    /// The file's position: where the next `read` or `write` begins.
    ghost place: { Self → ℕ };

    /// The length in bytes. The call may change the position.
    fn length(&self) -> io::Result<u64>
        ensures { IsTrue models → IfOk result (λ n. n ≡ length (stands self.now)) };

    /// The stamp, if this is a regular file.
    fn stamp(&self) -> Option<Stamp>
        ensures { IsTrue models → IfSome result (λ s. s.length ≡ length (stands self.now)) };

    /// One read of the bytes from an offset on.
    fn read_at(&self, at: u64, out: &mut [u8]) -> io::Result<usize>
        ensures { ReadsAt models (stands self.now) result at out.new };

    /// One write of a prefix of these bytes at an offset. A write that a signal interrupted did nothing.
    fn write_at(&mut self, at: u64, bytes: &[u8]) -> io::Result<usize>
        requires { IsTrue models → at ≤ length (Self.stands self.old) }
        ensures writes { WritesAt models (Self.stands self.old) (Self.stands self.new) result at bytes.now }
        ensures again { IsTrue models → IfErr result (λ e. error_kind e ≡ ErrorKind.Interrupted
            → Self.stands self.new ≡ Self.stands self.old) }
        ensures idle { IsTrue models → IfErr result (λ e. error_kind e ≡ ErrorKind.Interrupted
            → Self.past self.new ≡ Self.past self.old) }
        ensures lays { IsTrue models → at + length bytes.now ≤ length (Self.stands self.old) → LaysWithin
            (Self.stands self.old) (Self.stands self.new) (Self.past self.old) (Self.past self.new) result at
            (length bytes.now) }
        ensures stays { IsTrue models → Self.place self.new ≡ Self.place self.old };

    /// One read at the file's position, which moves to the end of the bytes read.
    fn read(&mut self, out: &mut [u8]) -> io::Result<usize>
        ensures { ReadsAtPlace models (stands self.old) (stands self.new) (place self.old) (place self.new) result
            out.new };

    /// One write of a prefix of these bytes at the file's position, which moves to their end. A write that a signal
    /// interrupted did nothing.
    fn write(&mut self, bytes: &[u8]) -> io::Result<usize>
        requires { IsTrue models → place self.old ≤ length (Self.stands self.old) }
        ensures writes { WritesAt models (Self.stands self.old) (Self.stands self.new) result (place self.old)
            bytes.now }
        ensures again { IsTrue models → IfErr result (λ e. error_kind e ≡ ErrorKind.Interrupted
            → Self.stands self.new ≡ Self.stands self.old) }
        ensures moves { IsTrue models → place self.new ≡ place self.old + count_of result };

    /// Sets the position, if the file has one.
    fn go_to(&mut self, at: u64) -> io::Result<()>
        ensures { IsTrue models → GoesTo (stands self.old) (stands self.new) (place self.old) (place self.new) result
            at };

    /// Sets the length: the file is truncated, or zeros are appended.
    fn set_len(&mut self, n: u64) -> io::Result<()>
        ensures sets { SetsLength models (Self.stands self.old) (Self.stands self.new) result n }
        ensures stays { IsTrue models → Self.place self.new ≡ Self.place self.old }
        ensures past { IsTrue models → Self.past self.new ≡ Self.past self.old };

    /// Makes all written bytes durable.
    fn sync(&mut self) -> io::Result<()>
        ensures { IsTrue models → SettlesFile (stands self.old) (stands self.new) (past self.old) (past self.new)
            result };

    /// The modelled content consists of bytes.
    ghost are_bytes: { (s : Self) → IsTrue models → AreBytes (stands s) };
}
