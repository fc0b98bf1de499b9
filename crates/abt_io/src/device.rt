//! Five device traits, on which all other crates build, and the reasons why a call fails.
//!
//! The ghost members are what contracts know of a device. The records of `specs/Calls` state how each call changes
//! them.
//!
//! - `count_of result` is how many bytes the call moved. It is 0 where the call failed.
//! - A call that returns Ok has not failed: its count of faults is as before.
//! - Only a `write` may find its device full. Every other call that fails returns `Failed`.
//! - A clause under `IsTrue models` speaks of bytes. It binds only a device that models its content.
//! - The laws below the last function of a trait hold between any two calls.

ghost use Rattle.std.specs.Prelude.{◌≡◌, ◌<◌, ◌≤◌, ◌+◌, ◌-◌, ℕ, List, Bool, IsTrue, length, take, drop, replicate};
ghost use Rattle.abt_io.specs.Bytes.{AreBytes};
ghost use Rattle.abt_io.specs.Calls.{HasPassed, HasWritten, HasReadAt, HasLaid, HasPut, HasSettled, HasSynced};
ghost use Rattle.abt_io.specs.Calls.{HasCleared, HasCountedClear};
ghost use Rattle.abt_io.specs.Count.{count_of};
ghost use Rattle.abt_io.specs.Frame.{ReadFrame, reads_alone, WriteFrame, writes_alone, PartitionFrame, no_partition};
ghost use Rattle.abt_io.specs.Frame.{last_cut};
ghost use Rattle.abt_io.specs.Moment.{Past};

/// Why a call of a device was refused. A refused call moves nothing; only a `write_at` that was refused
/// may leave any bytes in the range that it was asked to write.
#[derive(Clone, Copy, Debug, PartialEq, Eq, Drop)]
pub enum DeviceFault {
    /// The device failed.
    Failed,
    /// The device has no room left.
    Full,
}

/// Gives bytes forward, in pieces of any length. A read returns 0 only for an empty request, or at the end.
pub trait Input {
    /// Whether it models its content.
    ghost models: { Bool };

    /// What it still has to give, where it models its content.
    ghost remaining: { Self → List ℕ };

    /// How many calls it had.
    ghost reads: { Self → ℕ };

    /// How many bytes it has given.
    ghost given: { Self → ℕ };

    /// How often it has failed.
    ghost read_faults: { Self → ℕ };

    /// What no read changes.
    ghost read_frame: { Self → ReadFrame } = { λ _. reads_alone };

    /// Reads the next bytes, at most as many as `out` has room for.
    fn read(&mut self, out: &mut [u8]) -> Result<usize, DeviceFault>
        requires { length out.old ≤ 65536 }
        ensures passed { HasPassed models remaining reads given read_faults read_frame result self.old self.new
            (length out.new) }
        ensures bytes { IsTrue models → take (count_of result) out.new ≡ take (count_of result) (remaining self.old) };

    /// Passes over the next bytes, at most as many as `room` has room for: a read whose bytes nobody wants. After the
    /// call `room` may hold any bytes.
    fn pass(&mut self, room: &mut [u8]) -> Result<usize, DeviceFault>
        requires { length room.old ≤ 65536 }
        ensures passed { HasPassed models remaining reads given read_faults read_frame result self.old self.new
            (length room.new) }
    {
        self.read(room)
    }

    /// The modelled content is a list of bytes.
    ghost are_bytes: { (s : Self) → IsTrue models → AreBytes (remaining s) };
}

/// Takes bytes, one after another. A write of a nonempty list takes at least 1 of them, from its beginning on.
pub trait Output {
    /// All that was ever written.
    ghost written: { Self → List ℕ };

    /// It has no room left.
    ghost is_full: { Self → Bool };

    /// How many calls it had.
    ghost writes: { Self → ℕ };

    /// How often it has failed.
    ghost write_faults: { Self → ℕ };

    /// How often it has returned `Full`.
    ghost full_faults: { Self → ℕ };

    /// What no write changes.
    ghost write_frame: { Self → WriteFrame } = { λ _. writes_alone };

    /// Writes a prefix of these bytes, and returns how many.
    fn write(&mut self, bytes: &[u8]) -> Result<usize, DeviceFault>
        requires { length bytes.now ≤ 65536 }
        ensures wrote { HasWritten written is_full writes write_faults full_faults write_frame result self.old self.new
            (length bytes.now) (take (count_of result) bytes.now) };

    /// Writes at most `n` zeros, as `write` would, and returns how many. `zeros` is memory that they may be taken
    /// from; an output that can write any number of zeros by one call needs none of it.
    fn write_zeros(&mut self, n: u64, zeros: &[u8]) -> Result<u64, DeviceFault>
        requires window { length zeros.now ≤ 65536 }
        requires some { 0 < length zeros.now }
        requires zeros { zeros.now ≡ replicate (length zeros.now) 0 }
        ensures wrote { HasWritten written is_full writes write_faults full_faults write_frame result self.old self.new
            n (replicate (count_of result) 0) }
    {
        let some = n.min(zeros.len() as u64) as usize;
        match self.write(&zeros[..some]) {
            Ok(k) => Ok(k as u64),
            Err(fault) => Err(fault),
        }
    }
}

/// Gives the bytes at any place. A read returns 0 only for an empty request, or where there are no bytes.
pub trait Source {
    /// Whether it models its content.
    ghost models: { Bool };

    /// What it contains, where it models its content.
    ghost content: { Self → List ℕ };

    /// How long it says it is.
    ghost size: { Self → ℕ };

    /// How many calls of `read_at` it had.
    ghost reads: { Self → ℕ };

    /// How many bytes it has given.
    ghost given: { Self → ℕ };

    /// How often it has failed.
    ghost read_faults: { Self → ℕ };

    /// What no read changes.
    ghost read_frame: { Self → PartitionFrame } = { λ _. no_partition };

    /// How many bytes it says that it has.
    fn length(&self) -> u64
        ensures size { result ≡ size self.now }
        ensures told { IsTrue models → result ≡ length (content self.now) };

    /// Reads bytes from a place on, at most as many as `out` has room for. A place past the end gives
    /// nothing.
    fn read_at(&mut self, at: u64, out: &mut [u8]) -> Result<usize, DeviceFault>
        requires { length out.old ≤ 65536 }
        ensures has_read { HasReadAt models content size reads given read_faults read_frame result self.old self.new
            at out.new };

    /// It is as long as its content.
    ghost sized: { (s : Self) → IsTrue models → size s ≡ length (content s) };

    /// The modelled content is a list of bytes.
    ghost are_bytes: { (s : Self) → IsTrue models → AreBytes (content s) };
}

/// A source that can be written at any place within its length. The length never changes.
///
/// Contracts know its intermediate states (`moments` in its history). Each is what one call left: the content, the
/// pending bytes and the number of syncs that had succeeded. After a call that succeeds the newest one is the present
/// state. A call that fails may add states too, each as it left the partition.
///
/// - The bytes that a write took are pending until a sync succeeds. Then no byte is pending.
/// - The rest of the range of a write may have become pending too. Where the write failed, that range may hold any
///   bytes.
/// - A byte that a write changed is pending, also where the write failed: a crash may still leave its old value.
/// - No call changes a byte outside its range, or makes it pending.
/// - A crash leaves every byte that isn't pending as it is, and any value where one is pending.
pub trait Partition: Source {
    /// Its history: the bytes that are pending, the syncs that succeeded and its states.
    ghost past: { Self → Past };

    /// How many calls of `write_at` it had.
    ghost puts: { Self → ℕ };

    /// How many bytes it has taken.
    ghost taken: { Self → ℕ };

    /// How many calls of `sync` it had.
    ghost syncs: { Self → ℕ };

    /// How often a `write_at` or a `sync` has failed.
    ghost put_faults: { Self → ℕ };

    /// Writes a prefix of these bytes at a place, and returns how many. All of them have to fit.
    fn write_at(&mut self, at: u64, bytes: &[u8]) -> Result<usize, DeviceFault>
        requires window { length bytes.now ≤ 65536 }
        requires fits { at + length bytes.now ≤ Self.size self.old }
        ensures laid { HasLaid Self.models Self.content past result self.old self.new at bytes.now }
        ensures put { HasPut Self.size Self.reads Self.given Self.read_faults puts taken syncs put_faults result self.old self.new
            (length bytes.now) };

    /// Makes all that was written last. Where it fails, nothing is stable for certain.
    fn sync(&mut self) -> Result<(), DeviceFault>
        ensures settled { HasSettled Self.models Self.content past result self.old self.new }
        ensures synced { HasSynced Self.size Self.reads Self.given Self.read_faults puts taken syncs put_faults result
            self.old self.new };

    /// What a read leaves.
    ghost reading: { (s : Self) → Self.read_frame s ≡ record {
      size = Self.size s;
      past = past s;
      puts = puts s;
      taken = taken s;
      syncs = syncs s;
      put_faults = put_faults s;
    } };
}

/// Takes bytes by writes, and gives each of them once by reads, from the first on, until it is cleared.
pub trait Spool: Input + Output {
    /// How many bytes it has room for.
    ghost size: { Self → ℕ };

    /// How many of all the bytes that were written are cleared or read.
    ghost gone: { Self → ℕ };

    /// How much had been written at each clear, the newest first.
    ghost cuts: { Self → List ℕ };

    /// How many calls of `clear` it had.
    ghost clears: { Self → ℕ };

    /// How often a `clear` has failed.
    ghost clear_faults: { Self → ℕ };

    /// How many bytes it has room for, between two clears.
    fn capacity(&self) -> u64
        ensures { result ≡ size self.now };

    /// Empties it. Where it fails, it is as it was.
    fn clear(&mut self) -> Result<(), DeviceFault>
        ensures cleared { HasCleared Self.written gone cuts result self.old self.new }
        ensures counted { HasCountedClear size Self.given Self.reads Self.writes Self.read_faults Self.write_faults
            Self.full_faults clears clear_faults result self.old self.new };

    /// What a read leaves.
    ghost reading: { (s : Self) → Self.read_frame s ≡ record {
      written = Self.written s;
      cuts = cuts s;
      capacity = size s;
      writes = Self.writes s;
      write_faults = Self.write_faults s;
      full_faults = Self.full_faults s;
      clears = clears s;
      clear_faults = clear_faults s;
    } };

    /// What a write leaves.
    ghost writing: { (s : Self) → Self.write_frame s ≡ record {
      file = 0;
      gone = gone s;
      cuts = cuts s;
      capacity = size s;
      reads = Self.reads s;
      given = Self.given s;
      read_faults = Self.read_faults s;
      clears = clears s;
      clear_faults = clear_faults s;
    } };

    /// It gives what was written since the last clear, each byte once.
    ghost held: { (s : Self) → IsTrue Self.models → Self.remaining s ≡ drop (gone s) (Self.written s) };

    /// It is full only where it holds as much as it has room for.
    ghost filled: { (s : Self) → IsTrue (Self.is_full s) → size s ≤ length (Self.written s) - last_cut (cuts s) };
}
