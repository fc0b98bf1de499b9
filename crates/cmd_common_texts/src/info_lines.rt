//! The lines of `info`.

ghost use Rattle.std.specs.Prelude.{◌≡◌, ◌<◌, ◌≤◌, ◌∷◌, [], false, drop};
ghost use Rattle.std.specs.Fmt.{digit_glyph, digits};
ghost use Rattle.std.specs.List.{flat_map};
ghost use Rattle.hex.specs.Hex.{encode_lower};
ghost use Rattle.abt_headers.specs.Os.{os_parts};
ghost use Rattle.abt_sections.specs.Header.{view_of};
ghost use Rattle.cmd_common_texts.specs.Info as info;
ghost use Rattle.sys_text.specs.Printed.{Prints};

use abt_headers::{OsVersion, RamdiskEntry, SectionPlace};
use abt_io::Output;
use abt_sections::{ImageHeader, Verdict};
use cmd_common_fields::{Address, TextField, front_text};
use sys_text::Text;

// How many digits a number has at most, in any base.
const DIGITS: usize = 64;

/// How places, sizes, addresses and the OS version are written.
#[derive(Clone, Copy, Drop)]
pub enum Notation {
    /// In decimal digits.
    Decimal,
    /// In hexadecimal digits after `0x`, and the OS version as `--os` takes it.
    Hexadecimal,
}

/// Adds the line of an image's kind.
pub fn put_kind<O: Output>(header: &ImageHeader, notation: Notation, text: &mut Text<'_, O>)
    ensures { Prints
        O.written O.write_faults text.old text.new (info.line (info.image_kind_text notation (view_of header.now))) }
{
    match header {
        ImageHeader::Boot(header) => {
            put_numbers("boot", header.version(), header.page_size(), notation, text);
        }
        ImageHeader::Vendor(header) => {
            put_numbers(
                "vendor",
                header.version(),
                header.page_size(),
                notation,
                text,
            );
        }
    }
}

// Adds the line of a kind with its version and page size.
fn put_numbers<O: Output>(
    kind: &str,
    version: u32,
    page: u32,
    notation: Notation,
    text: &mut Text<'_, O>,
)
    ensures { Prints
        O.written O.write_faults text.old text.new (info.line (info.kind_line notation kind.now version page)) }
{
    text.word("kind ");
    text.word(kind);
    text.word(" version ");
    text.number(version as u64);
    text.word(" page ");
    put_number(page as u64, notation, text);
    text.end_line();
}

/// Adds a number in this notation.
pub fn put_number<O: Output>(number: u64, notation: Notation, text: &mut Text<'_, O>)
    ensures { Prints O.written O.write_faults text.old text.new (info.number_text notation number) }
{
    match notation {
        Notation::Decimal => text.number(number),
        Notation::Hexadecimal => {
            let mut room = [0u8; DIGITS];
            let first = put_hexadecimal(number, &mut room);
            text.word("0x");
            text.put(&room[first..]);
        }
    }
}

// Puts the hexadecimal digits of a number at the end of the room, and returns the position of the first.
fn put_hexadecimal(number: u64, room: &mut [u8; DIGITS]) -> usize
    ensures within { result ≤ 64 }
    ensures digits { drop result room.new ≡ digits 16 false number }
{
    let mut first = DIGITS;
    let mut rest = number;
    while first > 0 {
        first -= 1;
        room[first] = digit_of(rest % 16);
        rest /= 16;
        if rest == 0 {
            break;
        }
    }
    first
}

fn digit_of(number: u64) -> u8
    requires { number < 16 }
    ensures { result ≡ digit_glyph false number }
{
    if number < 10 {
        b'0' + number as u8
    } else {
        b'a' + (number as u8 - 10)
    }
}

/// Adds the line of a section.
pub fn put_section<O: Output>(place: SectionPlace, notation: Notation, text: &mut Text<'_, O>)
    ensures { Prints O.written O.write_faults text.old text.new (info.section_line notation place) }
{
    text.word("section ");
    text.word(place.kind.name());
    text.word(" at ");
    put_number(place.at, notation, text);
    text.word(" size ");
    put_number(place.size as u64, notation, text);
    text.end_line();
}

/// Adds the line of a ramdisk fragment, of which this is the entry at this index.
pub fn put_fragment<O: Output>(
    index: u32,
    entry: &RamdiskEntry,
    notation: Notation,
    text: &mut Text<'_, O>,
)
    ensures { Prints
        O.written O.write_faults text.old text.new (info.line (info.fragment_text notation index entry.now)) }
{
    text.word("fragment ");
    text.number(index as u64);
    text.word(" at ");
    put_number(entry.ramdisk_offset as u64, notation, text);
    text.word(" size ");
    put_number(entry.ramdisk_size as u64, notation, text);
    text.word(" type ");
    text.number(entry.ramdisk_type as u64);
    text.word(" name ");
    put_quoted(&entry.name, text);
    text.end_line();
}

/// Adds the line of an address.
pub fn put_address<O: Output>(
    which: Address,
    address: u64,
    notation: Notation,
    text: &mut Text<'_, O>,
)
    ensures { Prints
        O.written O.write_faults text.old text.new (info.line (info.address_text notation which address)) }
{
    text.word("address ");
    text.word(which.name());
    text.word(" ");
    put_number(address, notation, text);
    text.end_line();
}

/// Adds the line of an OS version and its patch level.
pub fn put_os<O: Output>(os: OsVersion, notation: Notation, text: &mut Text<'_, O>)
    ensures { Prints
        O.written O.write_faults text.old text.new (info.line (info.os_info notation (os_parts os.number))) }
{
    let parts = os.parts();
    text.word("os ");
    text.number(parts.a as u64);
    text.word(".");
    text.number(parts.b as u64);
    text.word(".");
    text.number(parts.c as u64);
    text.word(mark_behind_version(notation));
    text.number(parts.year as u64);
    text.word("-");
    put_two_digits(parts.month, text);
    text.end_line();
}

// The text between a version and its patch level.
fn mark_behind_version(notation: Notation) -> &'static str
    ensures { result.now ≡ info.mark_behind_version notation }
{
    match notation {
        Notation::Decimal => " ",
        Notation::Hexadecimal => "-",
    }
}

/// Adds the two digits of a number below 100.
#[inline(never)]
pub fn put_two_digits<O: Output>(number: u32, text: &mut Text<'_, O>)
    ensures { Prints O.written O.write_faults text.old text.new (info.two_digits number) }
{
    text.number((number / 10) as u64);
    text.number((number % 10) as u64);
}

/// Adds the line of a text field with these bytes.
pub fn put_field<O: Output>(which: TextField, field: &[u8], text: &mut Text<'_, O>)
    ensures { Prints O.written O.write_faults text.old text.new (info.line (info.field_text which field.now)) }
{
    text.word(which.name());
    text.word(" ");
    put_quoted(field, text);
    text.end_line();
}

/// Adds the line of an id.
pub fn put_id<O: Output>(id: &[u8; 32], text: &mut Text<'_, O>)
    ensures { Prints O.written O.write_faults text.old text.new (info.line (info.id_text id.now)) }
{
    text.word("id ");
    text.put(&digits_of_id(id));
    text.end_line();
}

// An id as hexadecimal digits.
fn digits_of_id(id: &[u8; 32]) -> [u8; 64]
    ensures { result ≡ encode_lower id.now }
{
    let mut digits = [0u8; 64];
    let _ = hex::encode_to_slice(id.as_slice(), &mut digits);
    digits
}

/// Adds the line of what checking an image found.
pub fn put_check<O: Output>(verdict: Verdict, text: &mut Text<'_, O>)
    ensures { Prints O.written O.write_faults text.old text.new (info.line (info.check_text verdict)) }
{
    text.word("check canonical ");
    text.word(yes_no(verdict.canonical));
    text.word(" padding ");
    text.word(yes_no(verdict.padding));
    text.word(" id ");
    text.word(yes_no(verdict.id));
    text.word(" offset ");
    text.word(yes_no(verdict.offset));
    text.end_line();
}

fn yes_no(value: bool) -> &'static str
    ensures { result.now ≡ info.yes_no value }
{
    if value { "yes" } else { "no" }
}

// Adds the text of a field up to its first zero byte, in quotes.
//
// The bytes from 20 to 7e (hexadecimal) are printed as they are, except the quote and the backslash. These two and
// all other bytes are `\x` and two digits.
fn put_quoted<O: Output>(field: &[u8], text: &mut Text<'_, O>)
    ensures { Prints O.written O.write_faults text.old text.new (info.quoted field.now) }
{
    text.word("\"");
    put_escaped(front_text(field), text);
    text.word("\"");
}

/// Adds the bytes of a text, each as it is or escaped.
#[inline(never)]
pub fn put_escaped<O: Output>(bytes: &[u8], text: &mut Text<'_, O>)
    ensures { Prints O.written O.write_faults text.old text.new (flat_map info.escaped bytes.now) }
{
    for byte in bytes {
        put_byte(*byte, text);
    }
}

/// Adds a byte of a text, as it is or as `\x` and two digits.
#[inline(never)]
pub fn put_byte<O: Output>(byte: u8, text: &mut Text<'_, O>)
    ensures { Prints O.written O.write_faults text.old text.new (info.escaped byte) }
{
    if is_plain(byte) {
        text.put(&[byte]);
        return;
    }
    text.word("\\x");
    text.put(&digits_of(byte));
}

// A byte as two hexadecimal digits.
fn digits_of(byte: u8) -> [u8; 2]
    ensures { result ≡ encode_lower (byte ∷ []) }
{
    let mut digits = [0u8; 2];
    let _ = hex::encode_to_slice([byte].as_slice(), &mut digits);
    digits
}

// Whether a byte is printed as it is.
pub fn is_plain(byte: u8) -> bool
    ensures { result ≡ info.is_plain byte }
{
    (0x20..=0x7e).contains(&byte) && byte != b'"' && byte != b'\\'
}
