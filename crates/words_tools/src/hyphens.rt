//! Which words with a hyphen are values, by the rules of Python's argparse. No contract depends on how clap reads words.

ghost use Rattle.std.specs.Prelude.{◌≡◌, ◌∷◌, ℕ, List, IfSome, IsTrue, codes, false, map};
ghost use Rattle.words_sayings.specs.Rows.{shape_of};
ghost use Rattle.words_tools.specs.declared.tools.Tool.TheVariants as tools;
ghost use Rattle.words_tools.specs.Rejected.{AwaitsNext, BeginsLetter, BeginsOption, HasHyphens};

use crate::shortening::begins;
use crate::tools::Tool;
use std::convert::AsStr;
use words_values::{Row, WordPlace};

/// Whether each word after an option is its value, if it has none after `=`.
pub(crate) fn are_values<S: AsStr>(rows: &[Row], words: &[S]) -> bool {
    let mut awaits = false;
    for word in words {
        if awaits && !is_value(rows, word.as_str()) {
            return false;
        }
        awaits = !awaits && awaits_value(rows, word.as_str());
    }
    true
}

/// Whether clap may refuse words that give orders: a word that begins with a hyphen stands behind an option that has no
/// value of its own, or `--` is among the words of simg2img.
pub(crate) fn has_hyphens<S: AsStr>(tool: Tool, words: &[S]) -> bool
    ensures { IsTrue result → HasHyphens tool (map S.text words.now) }
{
    let rows = tool.rows();
    for i in 1..words.len() {
        if is_stop(tool, words[i].as_str()) {
            return true;
        }
        if awaits_value(rows, words[i - 1].as_str()) && behind_hyphen(words[i].as_str()).is_some() {
            return true;
        }
    }
    false
}

fn is_stop(tool: Tool, word: &str) -> bool
    ensures { IsTrue result → (tool ≡ tools.Simg2img) × (word.now ≡ codes "--") }
{
    match tool {
        Tool::Simg2img => word == "--",
        _ => false,
    }
}

/// Whether a word can be the value of the option before it. One that begins with a hyphen is a number below zero or has
/// a space, and does not begin as an option.
#[inline(never)]
pub(crate) fn is_value(rows: &[Row], word: &str) -> bool
    ensures { result ≡ false → (value : List ℕ) × (word.now ≡ 45 ∷ value) }
{
    match behind_hyphen(word) {
        Some("") | None => true,
        Some(behind) => (is_number(behind) || word.contains(' ')) && !is_option(rows, behind),
    }
}

fn behind_hyphen<'a>(word: &'a str) -> Option<&'a str>
    ensures { IfSome result (λ behind. word.entry.now ≡ 45 ∷ behind.now) }
{
    word.strip_prefix('-')
}

// Digits, with a point before the last of them or without.
fn is_number(text: &str) -> bool {
    match text.split_once('.') {
        Some((whole, part)) => are_digits(whole) && are_digits(part) && !part.is_empty(),
        None => are_digits(text),
    }
}

fn are_digits(text: &str) -> bool {
    for byte in text.as_bytes() {
        if !byte.is_ascii_digit() {
            return false;
        }
    }
    true
}

// Whether what stands after a hyphen begins as an option, of these rows or for help.
fn is_option(rows: &[Row], behind: &str) -> bool {
    let Some(option) = behind.strip_prefix('-') else {
        return behind.starts_with('h') || is_letter(rows, behind);
    };
    let short = match option.split_once('=') {
        Some((front, _)) => front,
        None => option,
    };
    "help".starts_with(short) || is_long(rows, short, true)
}

// Whether this is a letter's name, and what may follow it in its word.
#[inline(never)]
fn is_letter(rows: &[Row], behind: &str) -> bool
    ensures { IsTrue result → BeginsLetter (map shape_of rows.now) behind.now }
{
    for row in rows {
        if let WordPlace::Letter = row.place {
            if begins(behind, row.name) {
                return true;
            }
        }
    }
    false
}

// Whether a name of an option is this or begins so, or a name of a flag.
#[inline(never)]
fn is_long(rows: &[Row], short: &str, has_flags: bool) -> bool
    ensures { IsTrue result → has_flags ≡ false → BeginsOption (map shape_of rows.now) short.now }
{
    for row in rows {
        if !begins(row.name, short) {
            continue;
        }
        match row.place {
            WordPlace::Option | WordPlace::Options => return true,
            WordPlace::Flag | WordPlace::ShortFlag(_) if has_flags => return true,
            _ => {}
        }
    }
    false
}

// Whether a word is an option whose value is the next word.
#[inline(never)]
fn awaits_value(rows: &[Row], word: &str) -> bool
    ensures { IsTrue result → AwaitsNext (map shape_of rows.now) word.now }
{
    match word.strip_prefix("--") {
        Some(option) => !option.is_empty() && is_long(rows, option, false),
        None => match behind_hyphen(word) {
            Some(behind) => behind.len() == 1 && is_letter(rows, behind),
            None => false,
        },
    }
}
