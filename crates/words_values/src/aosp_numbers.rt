//! Numbers as mkbootimg reads them: those of Python's `int(word, 0)`, an OS version and a patch level.

ghost use Rattle.std.specs.Prelude.{◌≡◌, ◌≤◌, ◌+◌, ◌*◌, ◌^◌, ◌<◌, IfSome, option_map};
ghost use Rattle.words_values.specs.AospNumber.{behind_dot, behind_underscore, four, is_digit, level_from};
ghost use Rattle.words_values.specs.AospNumber.{more, number_behind_zero, only_zero, os_version, packed_level};
ghost use Rattle.words_values.specs.AospNumber.{packed_version, patch_level, plain_number, python_digits};
ghost use Rattle.words_values.specs.AospNumber.{python_number};
ghost use Rattle.words_values.specs.AospNumber.{radix_of, signed_number, three, two};
ghost use Rattle.words_values.specs.AospNumber.{version_from_b, version_from_c, with_digit, with_letter};
ghost use Rattle.words_values.specs.AospNumber as spec;
ghost use Rattle.std.specs.Char.{digit_value};

// ---- Python's numbers

/// The number that the digits so far encode, and whether the last letter is one of them, and no underscore.
#[derive(Clone, Copy, PartialEq)]
pub(crate) struct Digits {
    pub number: u64,
    pub is_ended: bool,
}

/// The number that Python's `int(word, 0)` reads: decimal, or after `0x`, `0o` or `0b`, with an underscore between two
/// digits or none. White space may be around it, and a sign directly before it. `None` for a number below zero, and for
/// one that does not fit in 64 bits.
pub(crate) fn python_number(word: &str) -> Option<u64>
    ensures { result ≡ python_number word.now }
{
    signed_number(word.trim().as_bytes())
}

// With a sign or without one.
fn signed_number(bytes: &[u8]) -> Option<u64>
    ensures { result ≡ signed_number bytes.now }
{
    match bytes {
        [b'+', rest @ ..] => plain_number(rest),
        [b'-', rest @ ..] => only_zero(plain_number(rest)),
        _ => plain_number(bytes),
    }
}

fn only_zero(number: Option<u64>) -> Option<u64>
    ensures { result ≡ only_zero number }
{
    match number {
        Some(0) => Some(0),
        _ => None,
    }
}

fn plain_number(bytes: &[u8]) -> Option<u64>
    ensures { result ≡ plain_number bytes.now }
{
    match bytes {
        [] => None,
        [b'0', letter, rest @ ..] => behind_zero(*letter, bytes, rest),
        _ => number_of(bytes, 10),
    }
}

// The number of a word that begins with a zero. The letter of a radix and digits follow it, or only zeros.
fn behind_zero(letter: u8, word: &[u8], rest: &[u8]) -> Option<u64>
    ensures { result ≡ number_behind_zero (radix_of letter) word.now rest.now }
{
    match radix_of(letter) {
        Some(radix) => number_of(behind_underscore(rest), radix),
        None => only_zero(number_of(word, 10)),
    }
}

fn radix_of(letter: u8) -> Option<u64>
    ensures { result ≡ radix_of letter }
{
    match letter {
        b'x' | b'X' => Some(16),
        b'o' | b'O' => Some(8),
        b'b' | b'B' => Some(2),
        _ => None,
    }
}

fn behind_underscore(bytes: &[u8]) -> &[u8]
    ensures { result.now ≡ behind_underscore bytes.now }
{
    match bytes {
        [b'_', rest @ ..] => rest,
        _ => bytes,
    }
}

// The number that these digits encode.
#[inline(never)]
fn number_of(bytes: &[u8], radix: u64) -> Option<u64>
    ensures { result ≡ python_digits radix bytes.now }
{
    let mut digits = Some(Digits {
        number: 0,
        is_ended: false,
    });
    for byte in bytes {
        digits = with_letter(radix, digits, *byte);
    }
    match digits {
        Some(digits) if digits.is_ended => Some(digits.number),
        _ => None,
    }
}

fn with_letter(radix: u64, digits: Option<Digits>, letter: u8) -> Option<Digits>
    ensures { result ≡ with_letter radix digits letter }
{
    let digits = digits?;
    if letter != b'_' {
        return with_digit(radix, digits.number, letter);
    }
    if digits.is_ended {
        Some(Digits {
            number: digits.number,
            is_ended: false,
        })
    } else {
        None
    }
}

fn with_digit(radix: u64, number: u64, letter: u8) -> Option<Digits>
    ensures { result ≡ with_digit radix number letter }
{
    let digit = digit_value(letter);
    if digit >= radix {
        return None;
    }
    let number = number.checked_mul(radix)?.checked_add(digit)?;
    Some(Digits {
        number,
        is_ended: true,
    })
}

// The value of a digit or a letter, and 36 of any other.
fn digit_value(letter: u8) -> u64
    ensures { result ≡ digit_value letter }
{
    match letter {
        48..=57 => letter as u64 - 48,
        65..=90 => letter as u64 - 55,
        97..=122 => letter as u64 - 87,
        _ => 36,
    }
}

// ---- digits at the beginning of a text

// The number that the first digits encode, how many they are, and what follows them.
#[derive(Clone, Copy)]
struct Front<'a> {
    number: u64,
    count: u32,
    rest: &'a [u8],
}

// With the next letter, if it is a digit.
fn more<'a>(front: Front<'a>) -> Front<'a>
    requires small { front.number ≤ 999 }
    requires few { front.count ≤ 3 }
    ensures value { spec.front_digits result.number result.count result.rest.now ≡
        more (spec.front_digits front.entry.number front.entry.count front.entry.rest.now) }
    ensures small { result.number ≤ front.entry.number * 10 + 9 }
    ensures few { result.count ≤ front.entry.count + 1 }
{
    match front.rest {
        [letter, rest @ ..] if is_digit(*letter) => Front {
            number: front.number * 10 + (*letter - 48) as u64,
            count: front.count + 1,
            rest,
        },
        _ => front,
    }
}

fn is_digit(letter: u8) -> bool
    ensures { result ≡ is_digit letter }
{
    48 <= letter && letter <= 57
}

fn two<'a>(text: &'a [u8]) -> Front<'a>
    ensures value { spec.front_digits result.number result.count result.rest.now ≡ two text.now }
    ensures small { result.number ≤ 99 }
    ensures few { result.count ≤ 2 }
{
    more(more(Front {
        number: 0,
        count: 0,
        rest: text,
    }))
}

fn three<'a>(text: &'a [u8]) -> Front<'a>
    ensures value { spec.front_digits result.number result.count result.rest.now ≡ three text.now }
    ensures small { result.number ≤ 999 }
    ensures few { result.count ≤ 3 }
{
    more(two(text))
}

fn four<'a>(text: &'a [u8]) -> Front<'a>
    ensures value { spec.front_digits result.number result.count result.rest.now ≡ four text.now }
    ensures small { result.number ≤ 9999 }
{
    more(three(text))
}

// ---- an OS version and a patch level

/// The number of an OS version, `A`, `A.B` or `A.B.C`, whatever follows it; 0 for a word that begins with none. `None`
/// if one of the three is above 127.
pub(crate) fn os_version(word: &str) -> Option<u64>
    ensures { result ≡ os_version word.now }
{
    let a = three(word.as_bytes());
    if a.count == 0 {
        return Some(0);
    }
    let Some(b) = behind_dot(a.rest) else {
        return packed_version(a.number, 0, 0);
    };
    match behind_dot(b.rest) {
        Some(c) => packed_version(a.number, b.number, c.number),
        None => packed_version(a.number, b.number, 0),
    }
}

// One to three digits after a dot.
fn behind_dot<'a>(text: &'a [u8]) -> Option<Front<'a>>
    ensures value { option_map (λ f. spec.front_digits f.number f.count f.rest.now) result ≡ behind_dot text.now }
    ensures small { IfSome result (λ f. f.number ≤ 999) }
{
    match text {
        [b'.', rest @ ..] => {
            let front = three(rest);
            if front.count == 0 { None } else { Some(front) }
        }
        _ => None,
    }
}

fn packed_version(a: u64, b: u64, c: u64) -> Option<u64>
    ensures { result ≡ packed_version a b c }
{
    if a < 128 && b < 128 && c < 128 {
        Some(a * 16384 + b * 128 + c)
    } else {
        None
    }
}

/// The number of a patch level, `YYYY-MM`, whatever follows it; 0 for a word that begins with none. `None` if the year
/// is not from 2000 to 2127, or the month is none.
pub(crate) fn patch_level(word: &str) -> Option<u64>
    ensures { result ≡ patch_level word.now }
{
    let year = four(word.as_bytes());
    if year.count != 4 {
        return Some(0);
    }
    match year.rest {
        [b'-', rest @ ..] => {
            let month = two(rest);
            if month.count == 2 {
                packed_level(year.number, month.number)
            } else {
                Some(0)
            }
        }
        _ => Some(0),
    }
}

fn packed_level(year: u64, month: u64) -> Option<u64>
    ensures { result ≡ packed_level year month }
{
    if year < 2000 || year > 2127 || month == 0 || month > 12 {
        return None;
    }
    Some((year - 2000) * 16 + month)
}
