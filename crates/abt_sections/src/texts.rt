//! Text fields: a name or a command line, with zeros after it.

ghost use Rattle.std.specs.Prelude.{◌≡◌, ◌≤◌, ◌+◌, IsTrue, length, take, drop};
ghost use Rattle.abt_sections.specs.Fields as fields;

use abt_io::Meter;

/// At most `most` bytes, none of them zero.
pub(crate) fn is_text(most: usize, text: &[u8], m: &mut Meter) -> bool
    ensures value { result ≡ fields.is_text most text.now }
    ensures bound { IsTrue result → length text.now ≤ most }
{
    text.len() <= most && no_zero(text, m)
}

pub(crate) fn no_zero(text: &[u8], m: &mut Meter) -> bool
    ensures { result ≡ fields.no_zero text.now }
{
    for byte in text {
        m.tick();
        if *byte == 0 {
            return false;
        }
    }
    true
}

/// These bytes, and then zeros.
pub(crate) fn filled<const N: usize>(text: &[u8]) -> [u8; N]
    requires { length text.now ≤ N }
    ensures { result ≡ fields.filled N text.now }
{
    let mut out = [0; N];
    out[..text.len()].copy_from_slice(text);
    out
}

/// The first bytes of a text, at most so many, and then zeros.
pub(crate) fn filled_front<const N: usize>(text: &[u8], most: usize) -> [u8; N]
    requires { most ≤ N }
    ensures { result ≡ fields.filled N (take most text.now) }
{
    let end = most.min(text.len());
    filled(&text[..end])
}

/// The bytes of a text from a place on, and then zeros.
pub(crate) fn filled_back<const N: usize>(text: &[u8], from: usize) -> [u8; N]
    requires { length text.now ≤ from + N }
    ensures { result ≡ fields.filled N (drop from text.now) }
{
    let start = from.min(text.len());
    filled(&text[start..])
}
