//! The answers of a command: what was given for each row of its table.

ghost use Rattle.std.specs.Prelude.{◌≡◌, ◌++◌, ◌↔◌, IfOk, IfErr, OnOk, map, option_map, unwrap_or, nat_lt, Some, None};
ghost use Rattle.std.specs.Prelude.{List, [], ◌∷◌, ◌≤◌, ℕ, if◌then◌else◌, IfSome, IsTrue, is_some, bytes_eq};
ghost use Rattle.std.specs.Prelude.{drop, length, take};
ghost use Rattle.std.specs.List.{All, list_all, list_any};
ghost use Rattle.words_orders.specs.Asked.{IsGiven, IsReadRight, has_excluded, has_needed, is_enough};
ghost use Rattle.words_orders.specs.Asked.{answer_named, answer_number, flag_named, number_named, saying_of_answer};
ghost use Rattle.words_orders.specs.Asked.{word_named, words_named};
ghost use Rattle.words_orders.specs.Reads.{CanBeRead, IsReadFor, takes};
ghost use Rattle.words_orders.specs.Refused.{IsOfWords, TellsNoNumber};
ghost use Rattle.words_sayings.specs.Steps.{table_of};
ghost use Rattle.words_sayings.specs.Rows.{shape_of};
ghost use Rattle.words_sayings.specs.Words.{answers_due, words_due, default_words, left_over, of_row, option_list};
ghost use Rattle.words_sayings.specs.Words.{saying_of, says_name, words_of_row};

use crate::fault::WordsFault;
use crate::order::Given;
use std::alloc::{AllocError, Global};
use words_sayings::{Said, is_placed, push_counted};
use words_values::{Row, Value, WordPlace, number_in, number_word};

/// A word that was given for a row, or the row's default.
#[derive(Clone, Copy)]
pub struct Answer<'a> {
    pub row: &'static Row,
    pub word: &'a str,
    /// The number that the word encodes, if the row is one of numbers, else 0.
    pub number: u64,
}

impl<'a> Answer<'a> {
    /// The answer of a word to a row.
    fn new(
        alloc: Global,
        row: &'static Row,
        word: &'a str,
        is_verbose: bool,
    ) -> Result<Answer<'a>, WordsFault>
        ensures row { IfOk result (λ answer. answer.row.now ≡ row.now) }
        ensures word { IfOk result (λ answer. answer.word.now ≡ word.now) }
        ensures number { IfOk result (λ answer. IsReadFor (shape_of row.now) word.now answer.number) }
        ensures refused { IfErr result (TellsNoNumber (shape_of row.now) word.now is_verbose) }
    {
        match number_for(row, word) {
            Some(number) => Ok(Answer { row, word, number }),
            None if is_not_taken(row.value) => Err(WordsFault::NotTaken(row.help)),
            None => Err(WordsFault::BadNumber {
                word: String::from_str(alloc, word)?,
                is_number: number_word(word).is_some(),
                is_verbose,
            }),
        }
    }
}

/// The answers of a command, in the order of its table.
#[derive(Drop)]
pub struct Answers<'a> {
    pub all: Vec<Answer<'a>>,
    /// Whether an error is to have its second line.
    pub is_verbose: bool,
}

impl<'a> Answers<'a> {
    /// No answers yet.
    pub(crate) fn new(alloc: Global, is_verbose: bool) -> Answers<'a>
        ensures { result.all.items ≡ [] }
    {
        Answers {
            all: Vec::new(alloc),
            is_verbose,
        }
    }

    /// Adds what is said of each of these rows, else its default, with these positional words. Returns whether none of
    /// these is left.
    pub(crate) fn read_rows(
        &mut self,
        alloc: Global,
        rows: &[&'static Row],
        said: &[Said<'a>],
        placed: &[&'a str],
    ) -> Result<bool, WordsFault>
        ensures are { OnOk result (map saying_of_answer self.new.all.items ≡ map saying_of_answer self.old.all.items
            ++ answers_due (table_of rows.now) (map saying_of said.now) (map (λ s. s.now) placed.now)) }
        ensures read { All IsReadRight self.old.all.items → OnOk result (All IsReadRight self.new.all.items) }
        ensures left { IfOk result (λ is_all. IsTrue is_all ↔
            (left_over (table_of rows.now) (map (λ s. s.now) placed.now) ≡ [])) }
        ensures refused { IfErr result (λ fault. IsOfWords fault → All CanBeRead
            (answers_due (table_of rows.now) (map saying_of said.now) (map (λ s. s.now) placed.now)) → ⊥) }
    {
        let mut left = placed;
        for row in rows {
            let words = words_for(alloc, row, said, left)?;
            match self.read_words(alloc, row, words.as_slice()) {
                Ok(()) => {}
                Err(fault) => return Err(fault),
            }
            left = later_words(row.place, left);
        }
        Ok(left.is_empty())
    }

    fn read_words(
        &mut self,
        alloc: Global,
        row: &'static Row,
        words: &[&'a str],
    ) -> Result<(), WordsFault>
        ensures are { OnOk result (map saying_of_answer self.new.all.items ≡ map saying_of_answer self.old.all.items
            ++ map (of_row (shape_of row.now)) (map (λ s. s.now) words.now)) }
        ensures read { OnOk result (All IsReadRight self.old.all.items → All IsReadRight self.new.all.items) }
        ensures refused { IfErr result (λ fault. IsOfWords fault →
            All CanBeRead (map (of_row (shape_of row.now)) (map (λ s. s.now) words.now)) → ⊥) }
    {
        for word in words {
            let answer = match Answer::new(alloc, row, *word, self.is_verbose) {
                Ok(answer) => answer,
                Err(fault) => return Err(fault),
            };
            self.push(answer)?;
        }
        Ok(())
    }

    fn push(&mut self, answer: Answer<'a>) -> Result<(), AllocError>
        ensures { OnOk result (self.new.all.items ≡ self.old.all.items ++ (answer.entry ∷ [])) }
    {
        self.all.push(answer)?;
        Ok(())
    }

    /// The first answer of this name.
    #[inline(never)]
    pub fn find(&self, name: &str) -> Option<Answer<'a>>
        ensures { result ≡ answer_named name.now self.now.all.items }
    {
        for answer in &self.all {
            if answer.row.name == name {
                return Some(*answer);
            }
        }
        None
    }

    /// The first word of this name.
    #[inline(never)]
    pub fn word(&self, name: &str) -> Option<&'a str>
        ensures { option_map (λ word. word.now) result ≡ option_map (λ a. a.word.now) (answer_named name.now
            self.now.all.items) }
    {
        Some(self.find(name)?.word)
    }

    /// The same for a word that a parse always finds.
    #[inline(never)]
    pub fn given_word(&self, name: &str) -> &'a str
        ensures { result.now ≡ word_named name.now self.now.all.items }
    {
        self.word(name).unwrap_or("")
    }

    /// The number of this name.
    #[inline(never)]
    pub fn number(&self, name: &str) -> Option<u32>
        ensures { result ≡ number_named name.now self.now.all.items }
    {
        match self.find(name) {
            Some(answer) => narrow(answer.number),
            None => None,
        }
    }

    /// The same for a number that a parse always finds.
    #[inline(never)]
    pub fn given_number(&self, name: &str) -> u32
        ensures { result ≡ unwrap_or (number_named name.now self.now.all.items) 0 }
    {
        self.number(name).unwrap_or(0)
    }

    /// The number of this name, which may have 64 bits; 0 where there is none.
    pub fn long_number(&self, name: &str) -> u64
        ensures { result ≡ answer_number (answer_named name.now self.now.all.items) }
    {
        match self.find(name) {
            Some(answer) => answer.number,
            None => 0,
        }
    }

    /// What the option of this row was given.
    pub(crate) fn given(&self, row: &'static Row) -> Given<'a>
        ensures { IsGiven self.now.all.items (shape_of row.now) result }
    {
        match self.find(row.name) {
            Some(answer) => Given {
                row,
                word: Some(answer.word),
                number: answer.number,
            },
            None => Given {
                row,
                word: None,
                number: 0,
            },
        }
    }

    /// Whether these rows have the answers that they must have.
    pub(crate) fn are_enough(&self, rows: &[&'static Row]) -> bool
        ensures { result ≡ list_all (is_enough (map saying_of_answer self.now.all.items)) (table_of rows.now) }
    {
        for row in rows {
            if !self.is_enough(row) {
                return false;
            }
        }
        true
    }

    // Whether a row that must have an answer has one, with the row that it needs, and without the one that it excludes.
    fn is_enough(&self, row: &'static Row) -> bool
        ensures { result ≡ is_enough (map saying_of_answer self.now.all.items) (shape_of row.now) }
    {
        if !self.is_answered(row.name) {
            return !row.is_required;
        }
        self.has_needed(row.needs) && !self.has_excluded(row.excludes)
    }

    fn has_needed(&self, other: Option<&'static str>) -> bool
        ensures { result ≡ has_needed (map saying_of_answer self.now.all.items)
            (option_map (λ s. s.now) other.entry) }
    {
        match other {
            Some(name) => self.is_answered(name),
            None => true,
        }
    }

    fn has_excluded(&self, other: Option<&'static str>) -> bool
        ensures { result ≡ has_excluded (map saying_of_answer self.now.all.items)
            (option_map (λ s. s.now) other.entry) }
    {
        match other {
            Some(name) => self.is_answered(name),
            None => false,
        }
    }

    #[inline(never)]
    fn is_answered(&self, name: &str) -> bool
        ensures { result ≡ says_name name.now (map saying_of_answer self.now.all.items) }
    {
        self.find(name).is_some()
    }

    /// Whether this flag was given.
    #[inline(never)]
    pub fn flag(&self, name: &str) -> bool
        ensures { result ≡ flag_named name.now self.now.all.items }
    {
        self.given_word(name) == "true"
    }

    /// Appends every word of this name.
    pub fn push_words(&self, name: &str, words: &mut Vec<&'a str>) -> Result<(), AllocError>
        ensures { OnOk result (map (λ s. s.now) words.new.items ≡ map (λ s. s.now) words.old.items
            ++ words_named name.now self.now.all.items) }
    {
        for answer in &self.all {
            if answer.row.name != name {
                continue;
            }
            words.push(answer.word)?;
        }
        Ok(())
    }
}

// The number that a word gives to a row; none if the row takes no such word.
fn number_for(row: &Row, word: &str) -> Option<u64>
    ensures value { IfSome result (λ n. IsReadFor (shape_of row.now) word.now n) }
    ensures accepts { (n : ℕ) → IsReadFor (shape_of row.now) word.now n → result ≡ Some n }
{
    let number = number_in(row.value, word)?;
    if takes(row.value, word, number) {
        Some(number)
    } else {
        None
    }
}

// Whether a value is one of its names, or a count is large enough.
fn takes(value: Value, word: &str, number: u64) -> bool
    ensures { result ≡ takes value word.now number }
{
    match value {
        Value::Name(names) => is_among(names, word),
        Value::Count(least) => number >= least as u64,
        Value::File | Value::Text | Value::Os | Value::CommandLine | Value::IsGiven => true,
        Value::Number | Value::LongNumber | Value::NotTaken => true,
        Value::PythonNumber | Value::LongPythonNumber => true,
        Value::OsVersion | Value::PatchLevel => true,
    }
}

fn is_among(names: &[&str], word: &str) -> bool
    ensures { result ≡ list_any (bytes_eq word.now) (map (λ s. s.now) names.now) }
{
    for name in names {
        if word == *name {
            return true;
        }
    }
    false
}

// Whether the value is one that no word gives.
fn is_not_taken(value: Value) -> bool {
    match value {
        Value::NotTaken => true,
        _ => false,
    }
}

// The words for a row, where these positional words are left for it.
fn words_for<'a>(
    alloc: Global,
    row: &'static Row,
    said: &[Said<'a>],
    placed: &[&'a str],
) -> Result<Vec<&'a str>, AllocError>
    ensures { IfOk result (λ words. map (λ s. s.now) words.items ≡ words_of_row (shape_of row.now) (map saying_of said.now)
        (map (λ s. s.now) placed.now)) }
{
    let mut words = Vec::new(alloc);
    if is_placed(row.place) {
        words.extend_from_slice(next_words(row.place, placed))?;
        return Ok(words);
    }
    push_counted(row, said, &mut words)?;
    if words.is_empty() {
        if let Some(word) = default_word(row.place, row.default) {
            words.push(word)?;
        }
    }
    Ok(words)
}

// Those that go to a row.
fn next_words<'b, 'a>(place: WordPlace, placed: &'b [&'a str]) -> &'b [&'a str]
    ensures { map (λ s. s.now) result.now ≡ take (words_due place (length (map (λ s. s.now) placed.entry.now)))
        (map (λ s. s.now) placed.entry.now) }
{
    &placed[..count_of(place, placed.len())]
}

// Those that are left after it.
fn later_words<'b, 'a>(place: WordPlace, placed: &'b [&'a str]) -> &'b [&'a str]
    ensures { map (λ s. s.now) result.now ≡ drop (words_due place (length (map (λ s. s.now) placed.entry.now)))
        (map (λ s. s.now) placed.entry.now) }
{
    &placed[count_of(place, placed.len())..]
}

// How many of this many positional words go to a row.
fn count_of(place: WordPlace, many: usize) -> usize
    ensures count { result ≡ words_due place many }
    ensures most { result ≤ many }
{
    match place {
        WordPlace::Word => if many == 0 { 0 } else { 1 },
        WordPlace::Words => many.saturating_sub(1),
        WordPlace::LastWords => many,
        WordPlace::Option
        | WordPlace::Options
        | WordPlace::Letter
        | WordPlace::Flag
        | WordPlace::ShortFlag(_) => 0,
    }
}

// The default of an option or a flag.
fn default_word(place: WordPlace, default: Option<&'static str>) -> Option<&'static str>
    ensures { option_list (option_map (λ s. s.now) result) ≡ default_words place (option_map (λ s. s.now) default.entry) }
{
    match place {
        WordPlace::Flag | WordPlace::ShortFlag(_) => Some("false"),
        WordPlace::Word | WordPlace::Words | WordPlace::LastWords => default,
        WordPlace::Option | WordPlace::Options | WordPlace::Letter => default,
    }
}

// A number of 32 bits.
fn narrow(number: u64) -> Option<u32>
    ensures { result ≡ (if nat_lt number 4294967296 then Some number else None) }
{
    u32::try_from(number).ok()
}
