//! Little-endian numbers at a place in bytes.

ghost use Rattle.std.specs.Prelude.{◌≡◌, ◌+◌, ◌≤◌, length};
ghost use Rattle.abt_sparse.specs.Reading.{number_at};

use byteorder::{ByteOrder, LittleEndian};

/// The number in the two bytes at `place`.
#[inline(always)]
pub fn u16_at(bytes: &[u8], place: usize) -> u16
    requires { place + 2 ≤ length bytes.now }
    ensures { result ≡ number_at place 2 bytes.now }
{
    LittleEndian::read_u16(&bytes[place..])
}

/// The number in the four bytes at `place`.
#[inline(always)]
pub fn u32_at(bytes: &[u8], place: usize) -> u32
    requires { place + 4 ≤ length bytes.now }
    ensures { result ≡ number_at place 4 bytes.now }
{
    LittleEndian::read_u32(&bytes[place..])
}
