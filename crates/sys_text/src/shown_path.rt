//! A path as a terminal can show it.

ghost use Rattle.std.specs.Prelude.{◌≡◌, Some, encode_utf8, flat_map};
ghost use Rattle.std.specs.Fmt.{WritesOnOk};
ghost use Rattle.sys_text.specs.Shown.{acts_on_terminal, as_shown, byte_escape, shown_letter};

use std::fmt;

/// A path in which each byte of a control character, and of a mark that changes the direction of text, is `\x` and two
/// hexadecimal digits.
#[derive(Clone, Copy, Drop)]
pub struct ShownPath<'a>(pub &'a str);

impl fmt::Display for ShownPath<'_> {
    ghost output = { λ path. Some (as_shown path.0.now) };

    #[inline(never)]
    fn fmt<W: fmt::Write>(&self, f: &mut fmt::Formatter<W>) -> fmt::Result {
        for letter in self.0.chars() {
            put_letter(letter, f)?;
        }
        Ok(())
    }
}

fn put_letter<W: fmt::Write>(letter: char, f: &mut fmt::Formatter<W>) -> fmt::Result
    ensures { WritesOnOk W.write_str_gives f.old result (shown_letter letter) f.new }
{
    if acts_on_a_terminal(letter) {
        escape(letter, f)
    } else {
        f.write_char(letter)
    }
}

// A control character, or one of the marks of direction that enclose other text.
fn acts_on_a_terminal(letter: char) -> bool
    ensures { result ≡ acts_on_terminal letter }
{
    letter.is_control() || matches!(letter, '\u{202a}'..='\u{202e}' | '\u{2066}'..='\u{2069}')
}

#[inline(never)]
fn escape<W: fmt::Write>(letter: char, f: &mut fmt::Formatter<W>) -> fmt::Result
    ensures { WritesOnOk W.write_str_gives f.old result (flat_map byte_escape (encode_utf8 letter)) f.new }
{
    let mut room = [0u8; 4];
    for byte in letter.encode_utf8(&mut room).as_bytes() {
        escape_byte(*byte, f)?;
    }
    Ok(())
}

fn escape_byte<W: fmt::Write>(byte: u8, f: &mut fmt::Formatter<W>) -> fmt::Result
    ensures { WritesOnOk W.write_str_gives f.old result (byte_escape byte) f.new }
{
    write!(f, "\\x{byte:02x}")
}
