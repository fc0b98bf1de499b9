//! The lines of a header's values, each a label and a value.

ghost use Rattle.std.specs.Prelude.{◌≡◌};
ghost use Rattle.std.specs.Int.{to_be_bytes, w32, w64};
ghost use Rattle.hex.specs.Hex.{encode_lower};
ghost use Rattle.abt_headers.specs.Os.{os_parts};
ghost use Rattle.sys_text.specs.Printed.{Prints};
ghost use Rattle.cmd_unpack_aosp_texts.specs.Info as spec;

use abt_headers::{OsParts, OsVersion};
use abt_io::Output;
use cmd_common_fields::front_text;
use cmd_common_texts::{Notation, put_number, put_two_digits};
use sys_text::Text;

/// Adds `0x` and the eight hexadecimal digits of a number.
pub(crate) fn put_low<O: Output>(number: u32, text: &mut Text<'_, O>)
    ensures { Prints O.written O.write_faults text.old text.new (spec.low number) }
{
    text.word("0x");
    text.put(&low_digits(number));
}

fn low_digits(number: u32) -> [u8; 8]
    ensures { result ≡ encode_lower (to_be_bytes w32 number) }
{
    let mut digits = [0u8; 8];
    let _ = hex::encode_to_slice(number.to_be_bytes().as_slice(), &mut digits);
    digits
}

/// Adds `0x` and the sixteen hexadecimal digits of a number.
pub(crate) fn put_high<O: Output>(number: u64, text: &mut Text<'_, O>)
    ensures { Prints O.written O.write_faults text.old text.new (spec.high number) }
{
    text.word("0x");
    text.put(&high_digits(number));
}

fn high_digits(number: u64) -> [u8; 16]
    ensures { result ≡ encode_lower (to_be_bytes w64 number) }
{
    let mut digits = [0u8; 16];
    let _ = hex::encode_to_slice(number.to_be_bytes().as_slice(), &mut digits);
    digits
}

// Adds a label, and what separates it from its value.
fn put_label<O: Output>(label: &str, text: &mut Text<'_, O>)
    ensures { Prints O.written O.write_faults text.old text.new (spec.labelled label.now) }
{
    text.word(label);
    text.word(": ");
}

/// Adds the line of a number, in decimal.
pub(crate) fn put_decimal_row<O: Output>(label: &str, number: u64, text: &mut Text<'_, O>)
    ensures { Prints O.written O.write_faults text.old text.new (spec.decimal_row label.now number) }
{
    put_label(label, text);
    text.number(number);
    text.end_line();
}

/// Adds the line of a number of 32 bits, in hexadecimal digits.
pub(crate) fn put_low_row<O: Output>(label: &str, number: u32, text: &mut Text<'_, O>)
    ensures { Prints O.written O.write_faults text.old text.new (spec.low_row label.now number) }
{
    put_label(label, text);
    put_low(number, text);
    text.end_line();
}

/// Adds the line of a number of 64 bits, in hexadecimal digits.
pub(crate) fn put_high_row<O: Output>(label: &str, number: u64, text: &mut Text<'_, O>)
    ensures { Prints O.written O.write_faults text.old text.new (spec.high_row label.now number) }
{
    put_label(label, text);
    put_high(number, text);
    text.end_line();
}

/// Adds the line of a number in as few hexadecimal digits as it has.
pub(crate) fn put_short_row<O: Output>(label: &str, number: u32, text: &mut Text<'_, O>)
    ensures { Prints O.written O.write_faults text.old text.new (spec.short_row label.now number) }
{
    put_label(label, text);
    put_number(number as u64, Notation::Hexadecimal, text);
    text.end_line();
}

/// Adds the line of a text field with these bytes: it ends at the first zero.
pub(crate) fn put_text_row<O: Output>(label: &str, field: &[u8], text: &mut Text<'_, O>)
    ensures { Prints O.written O.write_faults text.old text.new (spec.text_row label.now field.now) }
{
    put_label(label, text);
    text.put(front_text(field));
    text.end_line();
}

/// Adds the lines of an OS version and of its patch level.
pub(crate) fn put_os_rows<O: Output>(os: OsVersion, text: &mut Text<'_, O>)
    ensures { Prints O.written O.write_faults text.old text.new (spec.os_rows (os_parts os.number)) }
{
    let parts = os.parts();
    text.word("os version: ");
    put_version_or_none(parts, text);
    text.word("\nos patch level: ");
    put_level_or_none(parts, text);
    text.end_line();
}

fn put_version_or_none<O: Output>(parts: OsParts, text: &mut Text<'_, O>)
    ensures { Prints O.written O.write_faults text.old text.new (spec.version_or_none parts) }
{
    if is_no_version(parts) {
        text.word("None");
        return;
    }
    put_version(parts, text);
}

fn put_level_or_none<O: Output>(parts: OsParts, text: &mut Text<'_, O>)
    ensures { Prints O.written O.write_faults text.old text.new (spec.level_or_none parts) }
{
    if is_no_level(parts) {
        text.word("None");
        return;
    }
    put_level(parts, text);
}

/// Whether the OS version is zero.
pub(crate) fn is_no_version(parts: OsParts) -> bool
    ensures { result ≡ spec.is_no_version parts }
{
    parts.a == 0 && parts.b == 0 && parts.c == 0
}

/// Whether the patch level is zero.
pub(crate) fn is_no_level(parts: OsParts) -> bool
    ensures { result ≡ spec.is_no_level parts }
{
    parts.year == 2000 && parts.month == 0
}

/// Adds `A.B.C`.
pub(crate) fn put_version<O: Output>(parts: OsParts, text: &mut Text<'_, O>)
    ensures { Prints O.written O.write_faults text.old text.new (spec.version_text parts) }
{
    text.number(parts.a as u64);
    text.word(".");
    text.number(parts.b as u64);
    text.word(".");
    text.number(parts.c as u64);
}

/// Adds `YYYY-MM`.
pub(crate) fn put_level<O: Output>(parts: OsParts, text: &mut Text<'_, O>)
    ensures { Prints O.written O.write_faults text.old text.new (spec.level_text parts) }
{
    text.number(parts.year as u64);
    text.word("-");
    put_two_digits(parts.month, text);
}
