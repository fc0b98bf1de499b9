//! Texts in which `\x` and two hexadecimal digits encode a byte, as `info` and `unpack --words` write them.

ghost use Rattle.std.specs.Prelude.{◌≡◌, ◌<◌, ◌≤◌, ◌∷◌, IfOk, IfSome, length, drop};
ghost use Rattle.hex.specs.Hex.{hex_digit_value};
ghost use Rattle.cmd_common_fields.specs.Unescaped as spec;

use std::alloc::Global;
use sys_disk::{NoMemory, push};

/// The bytes that a text encodes: `\x` and two hexadecimal digits encode that byte, and each other character itself.
pub fn unescaped(alloc: Global, text: &str) -> Result<Vec<u8>, NoMemory>
    ensures { IfOk result (λ bytes. bytes.items ≡ spec.unescaped text.now) }
{
    let text = text.as_bytes();
    let mut bytes = Vec::new(alloc);
    let mut at = 0;
    while at < text.len() {
        let (byte, past) = next_byte(text, at);
        match push(&mut bytes, byte) {
            Ok(()) => {}
            Err(refused) => return Err(refused),
        }
        at = past;
    }
    Ok(bytes)
}

// The byte at this position, and the position after it.
fn next_byte(text: &[u8], at: usize) -> (u8, usize)
    requires { at < length text.now }
    ensures value { spec.unescaped (drop at text.now) ≡ result.0 ∷ spec.unescaped (drop result.1 text.now) }
    ensures on { at < result.1 }
    ensures within { result.1 ≤ length text.now }
{
    match escape_in(&text[at..]) {
        Some(byte) => (byte, at + 4),
        None => (text[at], at + 1),
    }
}

// The byte of the escape that a text begins with, where it begins with one.
fn escape_in(text: &[u8]) -> Option<u8>
    ensures value { result ≡ spec.escape_in text.now }
    ensures four { IfSome result (λ _. 4 ≤ length text.now) }
{
    if text.len() < 4 || text[0] != b'\\' || text[1] != b'x' {
        return None;
    }
    byte_of(text[2], text[3])
}

// The byte of two digits.
fn byte_of(high: u8, low: u8) -> Option<u8>
    ensures { result ≡ spec.byte_of high low }
{
    let high = hex_value(high)?;
    let low = hex_value(low)?;
    Some(16 * high + low)
}

fn hex_value(digit: u8) -> Option<u8>
    ensures value { result ≡ hex_digit_value digit }
    ensures small { IfSome result (λ n. n < 16) }
{
    match digit {
        b'0'..=b'9' => Some(digit - 48),
        b'a'..=b'f' => Some(digit - 87),
        b'A'..=b'F' => Some(digit - 55),
        _ => None,
    }
}
