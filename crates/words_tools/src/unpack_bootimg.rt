//! What the words of unpack_bootimg ask for.

ghost use Rattle.std.specs.Prelude.{◌≡◌};
ghost use Rattle.words_tools.specs.UnpackBootimg.{AsksUnpack, text_asked};

use words_orders::{Answers, FLAG, PART};
use words_values::{Row, Value, WordPlace};

/// An image that is to be unpacked as unpack_bootimg does.
#[derive(Clone, Copy, Drop)]
pub struct UnpackImage<'a> {
    /// The image.
    pub input: &'a str,
    /// Where its parts go.
    pub folder: &'a str,
    pub text: UnpackText,
}

/// What is printed of the image.
#[derive(Clone, Copy, Drop)]
pub enum UnpackText {
    /// What its header says.
    Info,
    /// The words that make it again, as a shell reads them.
    Words,
    /// The same words, each followed by a zero byte.
    ZeroWords,
}

#[rattlefmt::skip]
pub(crate) static UNPACK_BOOTIMG: [Row; 4] = [
    Row { name: "boot_img", is_required: true, help: "The boot image or vendor boot image", ..PART },
    Row { name: "out", value_name: "DIR", default: Some("out"), help: "The folder of its parts, which is made where it is not there", ..PART },
    Row { name: "format", value: Value::Name(&["info", "mkbootimg"]), value_name: "FORMAT", default: Some("info"), help: "What is printed: what the header says, or the words of mkbootimg that make the image again", ..PART },
    Row { name: "null", place: WordPlace::ShortFlag('0'), help: "Each word of mkbootimg ends in a zero byte, and none is quoted", ..FLAG },
];

/// The image that the answers name, its folder, and what is printed.
pub(crate) fn unpacking<'a>(answers: &Answers<'a>) -> UnpackImage<'a>
    ensures { AsksUnpack answers.now.all.items result }
{
    UnpackImage {
        input: answers.given_word("boot_img"),
        folder: answers.given_word("out"),
        text: text_asked(answers),
    }
}

fn text_asked(answers: &Answers<'_>) -> UnpackText
    ensures { result ≡ text_asked answers.now.all.items }
{
    if answers.given_word("format") != "mkbootimg" {
        return UnpackText::Info;
    }
    if answers.flag("null") {
        UnpackText::ZeroWords
    } else {
        UnpackText::Words
    }
}
