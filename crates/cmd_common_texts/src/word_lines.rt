//! The arguments that pack an image again, each as a line of text.

ghost use Rattle.std.specs.Prelude.{◌≡◌, ◌++◌, ◌∷◌, []};
ghost use Rattle.std.specs.List.{flat_map};
ghost use Rattle.abt_headers.specs.Os.{os_parts};
ghost use Rattle.sys_text.specs.Printed.{Prints};
ghost use Rattle.cmd_common_texts.specs.Info as info;
ghost use Rattle.cmd_common_texts.specs.Words as words;

use crate::info_lines::{put_byte, put_escaped, put_two_digits};
use abt_headers::{OsParts, OsVersion};
use abt_io::Output;
use cmd_common_fields::front_text;
use sys_text::Text;

/// Adds the argument `--NAME`.
pub fn put_flag_word<O: Output>(name: &str, text: &mut Text<'_, O>)
    ensures { Prints O.written O.write_faults text.old text.new (words.words_text (words.flag_word name.now ∷ [])) }
{
    text.word("--");
    text.word(name);
    text.end_line();
}

/// Adds the argument `--NAME=N` of a number.
pub fn put_number_word<O: Output>(name: &str, number: u64, text: &mut Text<'_, O>)
    ensures { Prints
        O.written O.write_faults text.old text.new (words.words_text (words.number_word name.now number ∷ [])) }
{
    text.word("--");
    text.word(name);
    text.word("=");
    text.number(number);
    text.end_line();
}

/// Adds the argument `--NAME=FOLDER/FILE` of a part.
pub fn put_part_word<O: Output>(name: &str, folder: &str, file: &str, text: &mut Text<'_, O>)
    ensures { Prints
        O.written O.write_faults text.old text.new (words.words_text (words.part_word name.now folder.now file.now ∷ [])) }
{
    text.word("--");
    text.word(name);
    text.word("=");
    put_escaped(folder.as_bytes(), text);
    text.word("/");
    text.word(file);
    text.end_line();
}

/// Adds the argument `--NAME=TEXT` of a text that ends at the first zero byte of two fields.
pub fn put_text_word<O: Output>(name: &str, front: &[u8], back: &[u8], text: &mut Text<'_, O>)
    ensures { Prints
        O.written O.write_faults text.old text.new (words.words_text (words.text_word name.now front.now back.now ∷ [])) }
{
    text.word("--");
    text.word(name);
    text.word("=");
    put_escaped(front_text(front), text);
    put_escaped(rest_of_text(front, back), text);
    text.end_line();
}

// The part of a text that is in the second of two fields.
fn rest_of_text<'a>(front: &[u8], back: &'a [u8]) -> &'a [u8]
    ensures { words.text_over front.now back.now ≡ words.text_of front.now ++ result.now }
{
    if front_text(front).len() == front.len() {
        front_text(back)
    } else {
        &[]
    }
}

/// Adds the argument `--os=A.B.C-YYYY-MM`, or `--os-number=N` where the month is none.
pub fn put_os_word<O: Output>(os: OsVersion, text: &mut Text<'_, O>)
    ensures { Prints O.written O.write_faults text.old text.new (words.words_text (words.os_option os.number ∷ [])) }
{
    let parts = os.parts();
    let month = parts.month;
    if month < 1 || month > 12 {
        text.word("--os-number=");
        text.number(os.raw() as u64);
        text.end_line();
        return;
    }
    text.word("--os=");
    put_os_parts(parts, text);
    text.end_line();
}

fn put_os_parts<O: Output>(parts: OsParts, text: &mut Text<'_, O>)
    ensures { Prints O.written O.write_faults text.old text.new (words.os_text parts) }
{
    text.number(parts.a as u64);
    text.word(".");
    text.number(parts.b as u64);
    text.word(".");
    text.number(parts.c as u64);
    text.word("-");
    text.number(parts.year as u64);
    text.word("-");
    put_two_digits(parts.month, text);
}

/// Adds the argument `--fragment=TYPE:NAME:FOLDER/fragment.I` of a ramdisk fragment.
pub fn put_fragment_word<O: Output>(
    index: u32,
    kind: u32,
    name: &[u8],
    folder: &str,
    text: &mut Text<'_, O>,
)
    ensures { Prints O.written O.write_faults text.old text.new
        (words.words_text (words.fragment_option index kind name.now folder.now ∷ [])) }
{
    text.word("--fragment=");
    text.number(kind as u64);
    text.word(":");
    put_escaped_name(name, text);
    text.word(":");
    put_escaped(folder.as_bytes(), text);
    text.word("/fragment.");
    text.number(index as u64);
    text.end_line();
}

/// Adds the argument `--board-id=I:K=N`: number K of the board id of fragment I is N.
pub fn put_board_word<O: Output>(fragment: u32, place: u32, number: u32, text: &mut Text<'_, O>)
    ensures { Prints O.written O.write_faults text.old text.new
        (words.words_text (words.board_option fragment place number ∷ [])) }
{
    text.word("--board-id=");
    text.number(fragment as u64);
    text.word(":");
    text.number(place as u64);
    text.word("=");
    text.number(number as u64);
    text.end_line();
}

// Adds the bytes of a fragment's name, of which a colon is escaped too.
fn put_escaped_name<O: Output>(name: &[u8], text: &mut Text<'_, O>)
    ensures { Prints O.written O.write_faults text.old text.new (flat_map words.escaped_in_name name.now) }
{
    for byte in name {
        put_byte_in_name(*byte, text);
    }
}

fn put_byte_in_name<O: Output>(byte: u8, text: &mut Text<'_, O>)
    ensures { Prints O.written O.write_faults text.old text.new (words.escaped_in_name byte) }
{
    if byte == b':' {
        text.word("\\x3a");
        return;
    }
    put_byte(byte, text);
}
