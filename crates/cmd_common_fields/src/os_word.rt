//! The argument of `--os`.

ghost use Rattle.std.specs.Prelude.{◌≡◌, ◌<◌, ◌^◌, ℕ, IfSome, IfOk, IfErr, IsOkAnd, Some};
ghost use Rattle.abt_headers.specs.Os.{IsOsVersion, os_raw};
ghost use Rattle.abt_headers.specs.declared.os.OsParts.{OsParts};
ghost use Rattle.cmd_common_fields.specs.OsWord.{IsNumberWord, IsOsWord};

use abt_headers::{HeaderFault, OsParts, OsVersion};

/// Reads `A.B.C-YYYY-MM`: digits alone, four for the year and two for the month. Every other format fails with error
/// 28, and so do numbers that exceed the header's fields.
pub fn os_from_word(word: &str) -> Result<OsVersion, HeaderFault>
    ensures value { IfOk result (λ version. (os : OsParts) × IsOsWord word.now os × IsOsVersion os ×
        (version.number ≡ os_raw os)) }
    ensures accepts { (os : OsParts) → IsOsWord word.now os → IsOsVersion os →
        IsOkAnd result (λ version. version.number ≡ os_raw os) }
    ensures refuses { IfErr result (λ fault. fault ≡ HeaderFault.Os) }
{
    match parts_of(word) {
        Some(os) => OsVersion::new(os.a, os.b, os.c, os.year, os.month),
        None => Err(HeaderFault::Os),
    }
}

// The numbers of an argument of this format.
fn parts_of(word: &str) -> Option<OsParts>
    ensures value { IfSome result (λ os. IsOsWord word.now os) }
    ensures accepts { (os : OsParts) → IsOsWord word.now os → IsOsVersion os → result ≡ Some os }
{
    let (a, rest) = word.split_once('.')?;
    let (b, rest) = rest.split_once('.')?;
    let (c, rest) = rest.split_once('-')?;
    let (year, month) = rest.split_once('-')?;
    if year.len() != 4 || month.len() != 2 {
        return None;
    }
    Some(OsParts {
        a: number(a)?,
        b: number(b)?,
        c: number(c)?,
        year: number(year)?,
        month: number(month)?,
    })
}

// The number that these digits encode. `parse` alone would accept a sign before them.
#[inline(never)]
pub(crate) fn number(digits: &str) -> Option<u32>
    ensures value { IfSome result (λ n. IsNumberWord digits.now n) }
    ensures accepts { (n : ℕ) → IsNumberWord digits.now n → n < 2 ^ 32 → result ≡ Some n }
{
    if digits.starts_with('+') {
        return None;
    }
    digits.parse::<u32>().ok()
}
