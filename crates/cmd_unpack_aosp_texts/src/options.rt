//! The options of mkbootimg's arguments, each with its value.

ghost use Rattle.std.specs.Prelude.{◌≡◌, ◌++◌};
ghost use Rattle.abt_headers.specs.Os.{os_parts};
ghost use Rattle.sys_text.specs.Printed.{Prints};
ghost use Rattle.cmd_unpack_aosp_texts.specs.Files.{name_of_fragment};
ghost use Rattle.cmd_unpack_aosp_texts.specs.Shell.{word_bytes};
ghost use Rattle.cmd_unpack_aosp_texts.specs.Words as spec;

use crate::files::fragment_front;
use crate::rows::{is_no_level, is_no_version, put_high, put_level, put_low, put_version};
use crate::shell::Word;
use abt_headers::OsVersion;
use abt_io::Output;
use cmd_common_fields::front_text;
use sys_text::Text;

/// What separates arguments.
#[derive(Clone, Copy)]
pub enum Ending {
    /// A blank; the last argument ends the line. Arguments are quoted.
    Blank,
    /// A zero byte after each argument.
    Zero,
}

// Adds what comes before an argument that is not the first.
fn begin_word<O: Output>(ending: Ending, text: &mut Text<'_, O>)
    ensures { Prints O.written O.write_faults text.old text.new (spec.before_word ending) }
{
    match ending {
        Ending::Blank => text.word(" "),
        Ending::Zero => {}
    }
}

// Adds what follows an argument.
fn end_word<O: Output>(ending: Ending, text: &mut Text<'_, O>)
    ensures { Prints O.written O.write_faults text.old text.new (spec.behind_word ending) }
{
    match ending {
        Ending::Blank => {}
        Ending::Zero => text.put(&[0]),
    }
}

/// Adds what follows all arguments.
pub(crate) fn end_words<O: Output>(ending: Ending, text: &mut Text<'_, O>)
    ensures { Prints O.written O.write_faults text.old text.new (spec.behind_words ending) }
{
    match ending {
        Ending::Blank => text.end_line(),
        Ending::Zero => {}
    }
}

/// Adds the first argument.
pub(crate) fn put_first_word<O: Output>(name: &str, ending: Ending, text: &mut Text<'_, O>)
    ensures { Prints O.written O.write_faults text.old text.new (spec.first_word ending name.now) }
{
    text.word(name);
    end_word(ending, text);
}

// Adds an argument that is not quoted.
#[inline(never)]
fn put_name<O: Output>(name: &str, ending: Ending, text: &mut Text<'_, O>)
    ensures { Prints O.written O.write_faults text.old text.new (spec.plain_word ending name.now) }
{
    begin_word(ending, text);
    text.word(name);
    end_word(ending, text);
}

/// Adds a number as an argument, in decimal.
#[inline(never)]
pub(crate) fn put_number_value<O: Output>(number: u64, ending: Ending, text: &mut Text<'_, O>)
    ensures { Prints O.written O.write_faults text.old text.new (spec.number_value ending number) }
{
    begin_word(ending, text);
    text.number(number);
    end_word(ending, text);
}

/// Adds an option with a number, in decimal.
pub(crate) fn put_number_option<O: Output>(
    name: &str,
    number: u64,
    ending: Ending,
    text: &mut Text<'_, O>,
)
    ensures { Prints O.written O.write_faults text.old text.new (spec.number_option ending name.now number) }
{
    put_name(name, ending, text);
    put_number_value(number, ending, text);
}

/// Adds an option with a number of 32 bits, in hexadecimal digits.
pub(crate) fn put_low_option<O: Output>(
    name: &str,
    number: u32,
    ending: Ending,
    text: &mut Text<'_, O>,
)
    ensures { Prints O.written O.write_faults text.old text.new (spec.low_option ending name.now number) }
{
    put_name(name, ending, text);
    begin_word(ending, text);
    put_low(number, text);
    end_word(ending, text);
}

/// Adds an option with a number of 64 bits, in hexadecimal digits.
pub(crate) fn put_high_option<O: Output>(
    name: &str,
    number: u64,
    ending: Ending,
    text: &mut Text<'_, O>,
)
    ensures { Prints O.written O.write_faults text.old text.new (spec.high_option ending name.now number) }
{
    put_name(name, ending, text);
    begin_word(ending, text);
    put_high(number, text);
    end_word(ending, text);
}

/// Adds the option of a number of a board id.
pub(crate) fn put_board_option<O: Output>(
    place: u32,
    number: u32,
    ending: Ending,
    text: &mut Text<'_, O>,
)
    ensures { Prints O.written O.write_faults text.old text.new (spec.board_id_option ending place number) }
{
    begin_word(ending, text);
    text.word("--board_id");
    text.number(place as u64);
    end_word(ending, text);
    begin_word(ending, text);
    put_low(number, text);
    end_word(ending, text);
}

/// Adds the options of an OS version and of its patch level, each where it is not zero.
pub(crate) fn put_os_options<O: Output>(os: OsVersion, ending: Ending, text: &mut Text<'_, O>)
    ensures { Prints O.written O.write_faults text.old text.new (spec.os_options ending (os_parts os.number)) }
{
    put_version_option(os, ending, text);
    put_level_option(os, ending, text);
}

fn put_version_option<O: Output>(os: OsVersion, ending: Ending, text: &mut Text<'_, O>)
    ensures { Prints O.written O.write_faults text.old text.new (spec.version_option ending (os_parts os.number)) }
{
    let parts = os.parts();
    if is_no_version(parts) {
        return;
    }
    put_name("--os_version", ending, text);
    begin_word(ending, text);
    put_version(parts, text);
    end_word(ending, text);
}

fn put_level_option<O: Output>(os: OsVersion, ending: Ending, text: &mut Text<'_, O>)
    ensures { Prints O.written O.write_faults text.old text.new (spec.level_option ending (os_parts os.number)) }
{
    let parts = os.parts();
    if is_no_level(parts) {
        return;
    }
    put_name("--os_patch_level", ending, text);
    begin_word(ending, text);
    put_level(parts, text);
    end_word(ending, text);
}

// Adds an argument that may have to be quoted.
fn put_value<O: Output>(word: &Word<'_>, ending: Ending, text: &mut Text<'_, O>)
    ensures { Prints O.written O.write_faults text.old text.new (spec.text_value ending (word_bytes word.now)) }
{
    begin_word(ending, text);
    put_text(word, ending, text);
    end_word(ending, text);
}

fn put_text<O: Output>(word: &Word<'_>, ending: Ending, text: &mut Text<'_, O>)
    ensures { Prints O.written O.write_faults text.old text.new (spec.written_text ending (word_bytes word.now)) }
{
    match ending {
        Ending::Blank => word.put_quoted(text),
        Ending::Zero => word.put(text),
    }
}

/// Adds an option with a text field: it ends at the first zero.
pub(crate) fn put_field_option<O: Output>(
    name: &str,
    field: &[u8],
    ending: Ending,
    text: &mut Text<'_, O>,
)
    ensures { Prints O.written O.write_faults text.old text.new (spec.field_option ending name.now field.now) }
{
    put_name(name, ending, text);
    put_value(&Word::new(front_text(field)), ending, text);
}

/// Adds an option with the texts of two fields together.
pub(crate) fn put_fields_option<O: Output>(
    name: &str,
    front: &[u8],
    back: &[u8],
    ending: Ending,
    text: &mut Text<'_, O>,
)
    ensures { Prints O.written O.write_faults text.old text.new
        (spec.fields_option ending name.now front.now back.now) }
{
    put_name(name, ending, text);
    let word = Word::of_two(front_text(front), front_text(back));
    put_value(&word, ending, text);
}

/// Adds an option with the file of a part.
pub(crate) fn put_file_option<O: Output>(
    name: &str,
    folder: &str,
    file: &str,
    ending: Ending,
    text: &mut Text<'_, O>,
)
    ensures { Prints O.written O.write_faults text.old text.new (spec.file_option ending folder.now name.now file.now) }
{
    put_path_option(name, folder, file, "", ending, text);
}

/// Adds an option with the file of a ramdisk fragment.
pub(crate) fn put_fragment_option<O: Output>(
    name: &str,
    folder: &str,
    index: u32,
    ending: Ending,
    text: &mut Text<'_, O>,
)
    ensures { Prints O.written O.write_faults text.old text.new
        (spec.file_option ending folder.now name.now (name_of_fragment index)) }
{
    let mut digits = itoa::Buffer::new();
    let number = digits.format(index);
    let front = fragment_front(index);
    put_path_option(name, folder, front, number, ending, text);
}

// Adds an option with a file whose name ends with a number, or with nothing.
fn put_path_option<O: Output>(
    name: &str,
    folder: &str,
    file: &str,
    number: &str,
    ending: Ending,
    text: &mut Text<'_, O>,
)
    ensures { Prints O.written O.write_faults text.old text.new
        (spec.file_option ending folder.now name.now (file.now ++ number.now)) }
{
    put_name(name, ending, text);
    put_value(&path_word(folder, file, number), ending, text);
}

fn path_word<'a>(folder: &'a str, file: &'a str, number: &'a str) -> Word<'a>
    ensures { word_bytes result ≡ spec.joined_path folder.now (file.now ++ number.now) }
{
    Word {
        front: folder.as_bytes(),
        middle: slash_behind(folder).as_bytes(),
        back: file.as_bytes(),
        end: number.as_bytes(),
    }
}

// What separates a folder from a name.
fn slash_behind(folder: &str) -> &'static str
    ensures { result.now ≡ spec.slash_behind folder.now }
{
    if is_ended(folder.as_bytes()) { "" } else { "/" }
}

// Whether no slash is needed after it.
fn is_ended(folder: &[u8]) -> bool
    ensures { result ≡ spec.is_ended folder.now }
{
    folder.is_empty() || folder[folder.len() - 1] == b'/'
}
