//! Quoting an argument for a shell.

ghost use Rattle.std.specs.Prelude.{◌≡◌, ◌++◌, ◌&&◌};
ghost use Rattle.std.specs.List.{flat_map};
ghost use Rattle.sys_text.specs.Printed.{Prints};
ghost use Rattle.cmd_unpack_aosp_texts.specs.Shell.{are_safe, between_quotes, word_bytes, escaped_quote, is_blank};
ghost use Rattle.cmd_unpack_aosp_texts.specs.Shell.{is_safe};
ghost use Rattle.cmd_unpack_aosp_texts.specs.Shell.{shell_quoted};

use abt_io::Output;
use sys_text::Text;

/// An argument in four parts, one after the other.
#[derive(Clone, Copy)]
pub(crate) struct Word<'a> {
    pub front: &'a [u8],
    pub middle: &'a [u8],
    pub back: &'a [u8],
    pub end: &'a [u8],
}

impl<'a> Word<'a> {
    /// The argument that consists of a text.
    pub fn new(front: &'a [u8]) -> Word<'a>
        ensures { word_bytes result ≡ front.now }
    {
        Word {
            front,
            middle: &[],
            back: &[],
            end: &[],
        }
    }

    /// The argument that consists of two texts.
    pub fn of_two(front: &'a [u8], middle: &'a [u8]) -> Word<'a>
        ensures { word_bytes result ≡ front.now ++ middle.now }
    {
        Word {
            front,
            middle,
            back: &[],
            end: &[],
        }
    }

    fn is_empty(&self) -> bool
        ensures { result ≡ is_blank (word_bytes self.now) }
    {
        let back = both(is_blank(self.back), is_blank(self.end));
        both(is_blank(self.front), both(is_blank(self.middle), back))
    }

    // No byte of it means anything to a shell.
    fn is_safe(&self) -> bool
        ensures { result ≡ are_safe (word_bytes self.now) }
    {
        let back = both(are_safe(self.back), are_safe(self.end));
        both(are_safe(self.front), both(are_safe(self.middle), back))
    }

    /// Adds it as it is.
    pub fn put<O: Output>(&self, text: &mut Text<'_, O>)
        ensures { Prints O.written O.write_faults text.old text.new (word_bytes self.now) }
    {
        text.put(self.front);
        text.put(self.middle);
        text.put(self.back);
        text.put(self.end);
    }

    // Adds it between quotes. A quote within it is written outside of the quotes.
    fn put_between<O: Output>(&self, text: &mut Text<'_, O>)
        ensures { Prints O.written O.write_faults text.old text.new (between_quotes (word_bytes self.now)) }
    {
        text.word("'");
        put_inside(self.front, text);
        put_inside(self.middle, text);
        put_inside(self.back, text);
        put_inside(self.end, text);
        text.word("'");
    }

    /// Adds it in the form that a shell reads back as the same argument.
    pub fn put_quoted<O: Output>(&self, text: &mut Text<'_, O>)
        ensures { Prints O.written O.write_faults text.old text.new (shell_quoted (word_bytes self.now)) }
    {
        if !self.is_empty() && self.is_safe() {
            self.put(text);
        } else {
            self.put_between(text);
        }
    }
}

fn both(first: bool, second: bool) -> bool
    ensures { result ≡ (first && second) }
{
    first && second
}

fn is_blank(bytes: &[u8]) -> bool
    ensures { result ≡ is_blank bytes.now }
{
    match bytes {
        [] => true,
        [_, ..] => false,
    }
}

// Whether no byte means anything to a shell.
fn are_safe(bytes: &[u8]) -> bool
    ensures { result ≡ are_safe bytes.now }
{
    for byte in bytes {
        if !is_safe(*byte) {
            return false;
        }
    }
    true
}

// A letter, a digit or one of `%+,-./:=@_`.
fn is_safe(byte: u8) -> bool
    ensures { result ≡ is_safe byte }
{
    (b'+'..=b':').contains(&byte)
        || (b'@'..=b'Z').contains(&byte)
        || (b'a'..=b'z').contains(&byte)
        || (byte == b'%' || byte == b'=' || byte == b'_')
}

fn put_inside<O: Output>(bytes: &[u8], text: &mut Text<'_, O>)
    ensures { Prints O.written O.write_faults text.old text.new (flat_map escaped_quote bytes.now) }
{
    for byte in bytes {
        put_byte_inside(*byte, text);
    }
}

fn put_byte_inside<O: Output>(byte: u8, text: &mut Text<'_, O>)
    ensures { Prints O.written O.write_faults text.old text.new (escaped_quote byte) }
{
    if byte == b'\'' {
        text.word("'\"'\"'");
        return;
    }
    text.put(&[byte]);
}
