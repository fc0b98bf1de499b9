//! Writing over runs of bytes. The results are bytes.

ghost use Rattle.std.specs.Prelude.{◌≡◌, ◌≤◌, ◌+◌, length, replicate};
ghost use Rattle.abt_io.specs.Bytes.{AreBytes};
ghost use Rattle.abt_io.specs.Moment.{put_at};

use abt_io::are_bytes;

/// Writes one byte repeatedly, from an offset on.
pub(crate) fn fill_part(into: &mut [u8], at: u64, n: usize, byte: u8)
    requires { at + n ≤ length into.old }
    ensures value { into.new ≡ put_at into.old at (replicate n byte) }
    ensures told { AreBytes into.new }
{
    let from = at as usize;
    into[from..from + n].fill(byte);
    are_bytes(into);
}

/// Sets all of them to 0.
pub(crate) fn clear_part(into: &mut [u8])
    ensures value { into.new ≡ replicate (length into.old) 0 }
    ensures told { AreBytes into.new }
{
    into.fill(0);
    are_bytes(into);
}

/// Copies as many other bytes over them.
pub(crate) fn copy_part(into: &mut [u8], from: &[u8])
    requires { length from.now ≡ length into.old }
    ensures value { into.new ≡ from.now }
    ensures told { AreBytes into.new }
{
    into.copy_from_slice(from);
    are_bytes(into);
}
