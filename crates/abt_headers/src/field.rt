//! Fields at their places in a record. All numbers are little-endian.

ghost use Rattle.std.specs.Prelude.{◌≡◌, ◌+◌, ◌≤◌, ◌<◌, ◌^◌, ◌++◌, length, take, drop};
ghost use Rattle.abt_headers.specs.Field.{number_at, part_at};

use byteorder::{ByteOrder, LittleEndian};

/// The number in the four bytes at `place`.
#[inline(never)]
pub(crate) fn u32_at(bytes: &[u8], place: usize) -> u32
    requires { place + 4 ≤ length bytes.now }
    ensures { result ≡ number_at place 4 bytes.now }
{
    LittleEndian::read_u32(&bytes[place..])
}

/// The number in the eight bytes at `place`.
pub(crate) fn u64_at(bytes: &[u8], place: usize) -> u64
    requires { place + 8 ≤ length bytes.now }
    ensures { result ≡ number_at place 8 bytes.now }
{
    LittleEndian::read_u64(&bytes[place..])
}

/// A copy of the `N` bytes at `place`.
pub(crate) fn bytes_at<const N: usize>(bytes: &[u8], place: usize) -> [u8; N]
    requires { place + N ≤ length bytes.now }
    ensures { result ≡ part_at place N bytes.now }
{
    *bytes[place..].first_chunk().unwrap()
}

/// Writes a field at `place`, and leaves all bytes around it.
#[inline(never)]
pub(crate) fn put(out: &mut [u8], place: usize, field: &[u8])
    requires { place + length field.now ≤ length out.old }
    ensures { out.new ≡ take place out.old ++ (field.now ++ drop (place + length field.now) out.old) }
{
    out[place..place + field.len()].copy_from_slice(field);
}

/// Says of a number what its type says. It does nothing.
pub(crate) fn number_fits(number: u32)
    ensures { number < 2 ^ 32 }
{}

/// Says of a number what its type says. It does nothing.
pub(crate) fn long_number_fits(number: u64)
    ensures { number < 2 ^ 64 }
{}

/// Says of an array what its type says. It does nothing.
pub(crate) fn array_fits<T, const N: usize>(array: &[T; N])
    ensures { length array.now ≡ N }
{}
