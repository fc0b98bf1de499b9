//! The messages about wrong words. No word is sent to a terminal as it is: each is shown as paths are.

ghost use Rattle.std.specs.Prelude.{◌≡◌, ◌≢◌, ◌≤◌, ◌⊎◌};
ghost use Rattle.words_orders.specs.Refused.{IsOfWords};
ghost use Rattle.words_program.specs.Mistake.{IsMistake};

use crate::telling::{print, refused};
use clap::Error;
use std::alloc::{AllocError, Global};
use std::convert::AsStr;
use std::fmt;
use sys_host::{REFUSED, Telling, USAGE};
use sys_refusals::HostRefusal;
use sys_report::Report;
use sys_text::{ShownPath, Text};
use words_orders::{WordsFault, order_of};
use words_tools::{Tool, orders_of};

/// Tells of a mistake in the words, or prints a text that they ask for, as `--help` does, and returns the exit status.
/// The words may be those of a tool.
#[inline(never)]
pub fn wrong_words<S: AsStr>(
    rt: HostRuntime,
    tool: Option<Tool>,
    words: &[S],
    fault: &WordsFault,
    how: Telling,
    report: &mut Report,
) -> u8
    ensures mistake { IsMistake fault.now → result ≢ 0 }
    // it ends as a wrong use only if the words themselves are wrong
    ensures wrong { result ≡ 2 → IsOfWords fault.now }
    ensures status { result ≤ 2 }
{
    match fault {
        WordsFault::Memory => refused(rt, HostRefusal::memory(), how, report),
        WordsFault::Misread(error) => tell_error(rt, error, REFUSED, how, report),
        WordsFault::BadNumber {
            word,
            is_number,
            is_verbose,
        } => {
            let how = Telling {
                program: how.program,
                is_verbose: *is_verbose || how.is_verbose,
            };
            tell_bad_number(word.as_str(), advice(tool, *is_number), how, report);
            USAGE
        }
        WordsFault::NotTaken(instead) => {
            tell_not_taken(instead, how, report);
            USAGE
        }
        WordsFault::Usage(error) if !error.use_stderr() => print(rt, error, how, report),
        WordsFault::Usage(_) => match shown_words(rt.alloc(), words) {
            Ok(shown) => wrong_use(rt, tool, shown.as_slice(), how, report),
            Err(_) => refused(rt, HostRefusal::memory(), how, report),
        },
    }
}

/// The line of a word that is no number, or one of 4 GiB or more.
#[derive(Clone, Copy, Drop)]
struct BadNumber<'a> {
    program: &'a str,
    word: &'a str,
}

impl fmt::Display for BadNumber<'_> {
    fn fmt<W: fmt::Write>(&self, f: &mut fmt::Formatter<W>) -> fmt::Result {
        let program = self.program;
        let word = ShownPath(self.word);
        write!(f, "{program}: bad number {word}")
    }
}

// How a number is written.
fn advice(tool: Option<Tool>, is_number: bool) -> &'static str {
    match tool {
        _ if is_number => "  it must be below 4 GiB, so at most 4294967295",
        Some(_) => "  write it as 4096 or 0x1000",
        None => "  write it as 4096, 0x1000, 4K, 1M or 1G",
    }
}

fn tell_bad_number(word: &str, advice: &str, how: Telling, report: &mut Report) {
    report.note(BadNumber {
        program: how.program,
        word,
    });
    if how.is_verbose {
        report.note(advice);
    }
}

// A line about what a tool does and this program doesn't, with what does it.
fn tell_not_taken(instead: &str, how: Telling, report: &mut Report) {
    let mut text = Text::new(&mut report.err);
    text.word(how.program);
    text.word(": ");
    text.word(instead);
    text.end_line();
    let _ = text.finish();
}

// A mistake in words that are shown already: what the parser says of them.
fn wrong_use(
    rt: HostRuntime,
    tool: Option<Tool>,
    shown: &[String],
    how: Telling,
    report: &mut Report,
) -> u8
    ensures mistake { result ≢ 0 }
    ensures status { result ≤ 2 }
{
    match fault_of(rt.alloc(), tool, shown) {
        Some(WordsFault::Usage(error)) => tell_error(rt, &error, USAGE, how, report),
        Some(WordsFault::Misread(error)) => tell_error(rt, &error, USAGE, how, report),
        Some(WordsFault::Memory) => refused(rt, HostRefusal::memory(), how, report),
        _ => USAGE,
    }
}

// Prints what the parser says of words, and returns this status, or that of a lack of memory.
fn tell_error(rt: HostRuntime, error: &Error, status: u8, how: Telling, report: &mut Report) -> u8
    ensures { (result ≡ status) ⊎ (result ≡ 1) }
{
    let Ok(told) = format!(in rt.alloc(); "{error}") else {
        return refused(rt, HostRefusal::memory(), how, report);
    };
    let mut text = Text::new(&mut report.err);
    text.word(told.as_str());
    let _ = text.finish();
    status
}

// Why these words are rejected.
fn fault_of(alloc: Global, tool: Option<Tool>, words: &[String]) -> Option<WordsFault> {
    match tool {
        Some(tool) => orders_of(alloc, tool, words, &[], &[]).err(),
        None => order_of(alloc, words).err(),
    }
}

// Each word as paths are shown.
fn shown_words<S: AsStr>(alloc: Global, words: &[S]) -> Result<Vec<String>, AllocError> {
    let mut shown = Vec::new(alloc);
    for word in words {
        let word = ShownPath(word.as_str());
        shown.push(format!(in alloc; "{word}")?)?;
    }
    Ok(shown)
}
