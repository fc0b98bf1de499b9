//! Numbers in the notation of flashing guides.

ghost use Rattle.std.specs.Prelude.{◌≡◌, ◌≢◌, ◌<◌, ◌≤◌, ◌^◌, ℕ, List, [], ◌∷◌, ◌++◌, Some, None, IfSome};
ghost use Rattle.words_values.specs.NumberWord.{IsDecimal, IsDigits, IsNumber, IsRead, IsScale};

use crate::aosp_numbers::{os_version, patch_level, python_number};
use crate::rows::Value;

/// Reads a number: `4096`, `0x1000`, or `4K`, `1M` and `2G` in powers of 1024. Nothing may precede or follow it, and it
/// has no sign. `None` for every other word, and for a number that does not fit in 64 bits.
pub fn number_word(word: &str) -> Option<u64>
    ensures value { IfSome result (λ n. IsNumber word.now n) }
    ensures accepts { (n : ℕ) → IsNumber word.now n → n < 2 ^ 64 → result ≡ Some n }
{
    match hexadecimal(word) {
        Some(digits) => digits_word(digits, 16),
        None => decimal(word),
    }
}

// The digits after `0x`.
fn hexadecimal(word: &str) -> Option<&str>
    ensures value { IfSome result (λ digits. word.now ≡ 48 ∷ (120 ∷ digits.now)) }
    ensures none { result ≡ None → (digits : List ℕ) → word.now ≢ 48 ∷ (120 ∷ digits) }
{
    word.strip_prefix('0')?.strip_prefix('x')
}

// Digits, with the letter of a scale or without.
fn decimal(word: &str) -> Option<u64>
    ensures value { IfSome result (λ n. IsDecimal word.now n) }
    ensures accepts { (n : ℕ) → IsDecimal word.now n → n < 2 ^ 64 → result ≡ Some n }
{
    match scaled(word) {
        Some((digits, scale)) => digits_word(digits, 10)?.checked_mul(scale),
        None => digits_word(word, 10),
    }
}

// The digits before the letter of a scale, and the factor that the letter means.
fn scaled(word: &str) -> Option<(&str, u64)>
    ensures value { IfSome result (λ cut. (letter : ℕ) × IsScale letter cut.1 ×
        (word.now ≡ cut.0.now ++ (letter ∷ []))) }
    ensures none { result ≡ None → (digits : List ℕ) (letter scale : ℕ) → IsScale letter scale →
        word.now ≢ digits ++ (letter ∷ []) }
{
    if let Some(digits) = word.strip_suffix('K') {
        return Some((digits, 1024));
    }
    if let Some(digits) = word.strip_suffix('M') {
        return Some((digits, 1_048_576));
    }
    if let Some(digits) = word.strip_suffix('G') {
        return Some((digits, 1_073_741_824));
    }
    None
}

// The number that these digits encode. `from_str_radix` alone would take a sign before them.
#[inline(never)]
fn digits_word(digits: &str, radix: u32) -> Option<u64>
    requires least { 2 ≤ radix }
    requires most { radix ≤ 16 }
    ensures value { IfSome result (λ n. IsDigits radix digits.now n) }
    ensures accepts { (n : ℕ) → IsDigits radix digits.now n → n < 2 ^ 64 → result ≡ Some n }
{
    if digits.starts_with('+') {
        return None;
    }
    u64::from_str_radix(digits, radix).ok()
}

/// The number that a word encodes for a value of this kind; 0 for a value that is no number. `None` if the word encodes
/// none, or one that does not fit in the value's width. The parser checks that a count is large enough.
#[inline(never)]
pub fn number_in(value: Value, word: &str) -> Option<u64>
    ensures value { IfSome result (λ n. IsRead value word.now n) }
    ensures accepts { (n : ℕ) → IsRead value word.now n → result ≡ Some n }
{
    match value {
        Value::Number => narrow(number_word(word)?),
        Value::LongNumber => number_word(word),
        Value::Count(_) => narrow(digits_word(word, 10)?),
        Value::File => Some(0),
        Value::Text => Some(0),
        Value::CommandLine => Some(0),
        Value::Os => Some(0),
        Value::Name(_) => Some(0),
        Value::IsGiven => Some(0),
        Value::PythonNumber => narrow(python_number(word)?),
        Value::LongPythonNumber => python_number(word),
        Value::OsVersion => os_version(word),
        Value::PatchLevel => patch_level(word),
        Value::NotTaken if word == "false" => Some(0),
        Value::NotTaken => None,
    }
}

// A number that fits in 32 bits.
fn narrow(number: u64) -> Option<u64>
    ensures value { IfSome result (λ n. n ≡ number) }
    ensures width { IfSome result (λ n. n < 2 ^ 32) }
    ensures accepts { number < 2 ^ 32 → result ≡ Some number }
{
    if number > u32::MAX as u64 {
        return None;
    }
    Some(number)
}
