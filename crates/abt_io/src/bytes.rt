//! Facts about byte slices (each item is below 256), and copies from and to a place in a slice.

ghost use Rattle.std.specs.Prelude.{◌≡◌, ◌<◌, ◌≤◌, ◌+◌, ◌-◌, length, min, take, drop};
ghost use Rattle.abt_io.specs.Bytes.{AreBytes};
ghost use Rattle.abt_io.specs.Moment.{put_at};

/// Each item of a slice of bytes is below 256. Only contracts need this fact.
#[inline(always)]
pub fn are_bytes(bytes: &[u8])
    ensures { AreBytes bytes.now }
{
    let _bytes = bytes;
}

/// Copies bytes from a place on, as many as there are and have room, and says how many.
pub fn read_part(bytes: &[u8], at: u64, out: &mut [u8]) -> usize
    ensures count { result ≡ min (length out.new) (length bytes.now - at) }
    ensures within { result ≤ length out.new }
    ensures present { result ≤ length bytes.now - at }
    ensures bytes { take result out.new ≡ take result (drop at bytes.now) }
    ensures ended { result ≡ 0 → 0 < length out.new → length bytes.now ≤ at }
{
    let len = bytes.len();
    if at >= len as u64 {
        return 0;
    }
    let from = at as usize;
    let n = out.len().min(len - from);
    out[..n].copy_from_slice(&bytes[from..from + n]);
    n
}

/// Writes bytes at a place.
pub fn put_part(into: &mut [u8], at: u64, bytes: &[u8])
    requires { at + length bytes.now ≤ length into.old }
    ensures value { into.new ≡ put_at into.old at bytes.now }
    ensures told { AreBytes into.new }
{
    let from = at as usize;
    into[from..from + bytes.len()].copy_from_slice(bytes);
    are_bytes(into);
}
