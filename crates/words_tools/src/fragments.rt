//! The words of ramdisk fragments, separated from the other words of a call of mkbootimg.

ghost use Rattle.std.specs.Prelude.{◌≡◌, ◌++◌, ℕ, List, [], ◌∷◌, IfErr, IfOk, IfSome, IsTrue, OnOk, Contains, codes, map};
ghost use Rattle.words_sayings.specs.Rows.{shape_of};
ghost use Rattle.words_values.specs.NumberWord.{IsRead};
ghost use Rattle.words_orders.specs.declared.answers.Answer.{Answer};
ghost use Rattle.words_orders.specs.Refused.{IsOfWords};
ghost use Rattle.words_tools.specs.Fragments.{AreParted, AreParting, IsAnswerTo, IsNameOf, SaysOption, fragment_rows};
ghost use Rattle.words_tools.specs.Rejected.{RejectsParts, RejectsWord};

use crate::hyphens::is_value;
use crate::shortening::is_short_of;
use crate::table::fragment_rows;
use crate::tools::Tool;
use std::alloc::{AllocError, Global};
use std::convert::AsStr;
use words_orders::{Answer, WordsFault};
use words_values::{Row, number_in, number_word};

// The option that ends a group.
pub(crate) const FRAGMENT: &str = "vendor_ramdisk_fragment";

const NO_VALUE: &str = "an option of a fragment has no value";

/// The words of a call, separated.
#[derive(Drop)]
pub struct Parted<'a> {
    /// What those of fragments say, in their order.
    pub said: Vec<Answer<'a>>,
    pub others: Vec<&'a str>,
}

impl<'a> Parted<'a> {
    fn new(alloc: Global) -> Parted<'a>
        ensures said { result.said.items ≡ [] }
        ensures others { result.others.items ≡ [] }
    {
        Parted {
            said: Vec::new(alloc),
            others: Vec::new(alloc),
        }
    }

    /// The words of a tool that has no fragments.
    pub fn of_others<S: AsStr>(alloc: Global, words: &'a [S]) -> Result<Parted<'a>, AllocError>
        ensures said { IfOk result (λ parted. parted.said.items ≡ []) }
        ensures others { IfOk result (λ parted. map (λ word. word.now) parted.others.items ≡ map S.text words.now) }
    {
        let mut parted = Parted::new(alloc);
        for word in words {
            parted.leave(word.as_str())?;
        }
        Ok(parted)
    }

    // Takes the next word, which may follow an option that awaits its value. Returns the option that awaits one now.
    fn take(
        &mut self,
        alloc: Global,
        before: Option<&'static Row>,
        word: &'a str,
    ) -> Result<Option<&'static Row>, WordsFault>
        ensures parting { (words : List (List ℕ)) → AreParting words self.old.said.items
            (map (λ it. it.now) self.old.others.items) before.entry → IfOk result (AreParting (words ++ (word.now ∷ []))
            self.new.said.items (map (λ it. it.now) self.new.others.items)) }
        ensures refused { IfErr result (λ fault. IsOfWords fault → RejectsWord before.entry word.now) }
    {
        if let Some(row) = before {
            if !(is_value(fragment_rows(), word) && is_value(Tool::Mkbootimg.rows(), word)) {
                return Err(WordsFault::NotTaken(NO_VALUE));
            }
            return match self.say(alloc, row, word) {
                Ok(()) => Ok(None),
                Err(fault) => Err(fault),
            };
        }
        match kind_of(word) {
            WordKind::Other => {
                self.leave(word)?;
                Ok(None)
            }
            WordKind::WithEquals(row, value) => match self.say(alloc, row, value) {
                Ok(()) => Ok(None),
                Err(fault) => Err(fault),
            },
            WordKind::WithNext(row) => Ok(Some(row)),
        }
    }

    fn leave(&mut self, word: &'a str) -> Result<(), AllocError>
        ensures said { OnOk result (self.new.said.items ≡ self.old.said.items) }
        ensures others { OnOk result (map (λ it. it.now) self.new.others.items
            ≡ map (λ it. it.now) self.old.others.items ++ (word.now ∷ [])) }
    {
        self.others.push(word)?;
        Ok(())
    }

    // Adds the answer of a word to a row.
    fn say(&mut self, alloc: Global, row: &'static Row, word: &'a str) -> Result<(), WordsFault>
        ensures said { OnOk result ((answer : Answer) × IsAnswerTo row.now word.now answer
            × (self.new.said.items ≡ self.old.said.items ++ (answer ∷ []))) }
        ensures others { OnOk result (self.new.others.items ≡ self.old.others.items) }
        ensures refused { IfErr result (λ fault. IsOfWords fault → (n : ℕ) → IsRead row.now.value word.now n → ⊥) }
    {
        match number_in(row.value, word) {
            Some(number) => match self.said.push(Answer { row, word, number }) {
                Ok(()) => Ok(()),
                Err(_) => Err(WordsFault::Memory),
            },
            None => Err(WordsFault::BadNumber {
                word: String::from_str(alloc, word)?,
                is_number: number_word(word).is_some(),
                is_verbose: false,
            }),
        }
    }
}

/// What a word is.
#[derive(Clone, Copy)]
pub(crate) enum WordKind<'a> {
    Other,
    /// An option with its value after `=`.
    WithEquals(&'static Row, &'a str),
    /// An option whose value is the next word.
    WithNext(&'static Row),
}

/// The words of ramdisk fragments, and the others.
pub fn part_words<'a, S: AsStr>(alloc: Global, words: &'a [S]) -> Result<Parted<'a>, WordsFault>
    ensures parted { IfOk result (λ parted. AreParted (map S.text words.now) parted.said.items
        (map (λ word. word.now) parted.others.items)) }
    // they are rejected only if an option of fragments has no value, or a wrong one, or for want of memory
    ensures refused { IfErr result (λ fault. IsOfWords fault → RejectsParts (map S.text words.now)) }
{
    let mut parted = Parted::new(alloc);
    let mut before = None;
    for word in words {
        match parted.take(alloc, before, word.as_str()) {
            Ok(next) => before = next,
            Err(fault) => return Err(fault),
        }
    }
    match before {
        Some(_row) => Err(WordsFault::NotTaken(NO_VALUE)),
        None => Ok(parted),
    }
}

fn kind_of<'a>(word: &'a str) -> WordKind<'a>
    ensures { SaysOption word.now result }
{
    let Some(option) = word.strip_prefix("--") else {
        return WordKind::Other;
    };
    match cut(option, "=") {
        Some((short, value)) => match row_named(short) {
            Some(row) if row.name != FRAGMENT => WordKind::WithEquals(row, value),
            _ => WordKind::Other,
        },
        None => match row_named(option) {
            Some(row) => WordKind::WithNext(row),
            None => WordKind::Other,
        },
    }
}

/// The parts before and after a text.
#[inline(never)]
pub(crate) fn cut<'a>(text: &'a str, by: &str) -> Option<(&'a str, &'a str)>
    ensures { IfSome result (λ parts. text.now ≡ parts.0.now ++ (by.now ++ parts.1.now)) }
{
    text.split_once(by)
}

// The row that a name means.
fn row_named(short: &str) -> Option<&'static Row>
    ensures { IfSome result (λ row. IsNameOf short.now row.now.name.now × Contains fragment_rows (shape_of row.now)) }
{
    for row in fragment_rows() {
        if is_name_of(short, row.name) {
            return Some(row);
        }
    }
    None
}

// Whether this is the name, or a prefix of it and of no other. The name of the file must be given in full.
fn is_name_of(short: &str, name: &str) -> bool
    ensures { IsTrue result → IsNameOf short.now name.now }
{
    short == name || (name != FRAGMENT && is_short_of(fragment_rows(), short, name))
}
