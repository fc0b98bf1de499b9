//! What words say, by the rows of a table: each word is used once, and none is left.

ghost use Rattle.std.specs.Prelude.{◌≡◌, ◌++◌, ◌∷◌, ◌==◌, ◌||◌, [], true, false, map, length, drop};
ghost use Rattle.std.specs.Prelude.{option_map, if◌then◌else◌, IfOk, OnOk, Some, None};
ghost use Rattle.std.specs.List.{list_all, list_any, starts_with};
ghost use Rattle.clap.specs.Lexer.{name_and_value, strip_byte};
ghost use Rattle.words_sayings.specs.Rows.{plain_value, shape_of};
ghost use Rattle.words_sayings.specs.Steps.{Steps, before_of, look_of, table_of};
ghost use Rattle.words_sayings.specs.Words.{begins_with, counted_words, ends_run, flag_of, flags_said, flags_step};
ghost use Rattle.words_sayings.specs.Words.{goes_on, has_placed, is_again, is_either, is_flag, is_letter, is_lettered};
ghost use Rattle.words_sayings.specs.Words.{is_of_name, is_once, is_only, is_option, is_option_word, is_placed};
ghost use Rattle.words_sayings.specs.Words.{is_placed_right, is_plain, is_run, is_stop, is_several, is_short_of, is_word};
ghost use Rattle.words_sayings.specs.Words.{last_word, letter_says, letter_value, lettered_in, letters_say, look};
ghost use Rattle.words_sayings.specs.Words.{look_letters, look_long, may_be_value, names_row, nothing, of_row, row_named};
ghost use Rattle.words_sayings.specs.Words.{row_says, said_words, saying, saying_of, says, says_last, says_name, step, step_of};
ghost use Rattle.words_sayings.specs.Words.{takes_hyphens, word_says, words_by_place, words_say};

use std::alloc::{AllocError, Global};
use std::convert::AsStr;
use words_values::{Row, Value, WordPlace};

/// What a word says, alone or with the value after it.
#[derive(Clone, Copy)]
pub struct Said<'a> {
    /// The row of an option or a flag; `None` for a positional word.
    pub row: Option<&'static Row>,
    /// The value of an option, `true` of a flag, or the word itself.
    pub word: &'a str,
}

/// What these words say; none if one of them says nothing, or an option is said again.
pub fn read<'a, S: AsStr>(
    alloc: Global,
    rows: &[&'static Row],
    words: &'a [S],
) -> Result<Option<Vec<Said<'a>>>, AllocError>
    ensures { IfOk result (λ found. option_map (λ said. map saying_of said.items) found
        ≡ words_say (table_of rows.now) (map S.text words.entry.now)) }
{
    if !is_placed_right(rows, words) {
        return Ok(None);
    }
    let Some(said) = said_by(alloc, rows, false, words)? else {
        return Ok(None);
    };
    if are_once(rows, said.as_slice()) {
        Ok(Some(said))
    } else {
        Ok(None)
    }
}

/// The same, where an option may be said again, and by a short name if `is_short` is true.
pub fn said_by<'a, S: AsStr>(
    alloc: Global,
    rows: &[&'static Row],
    is_short: bool,
    words: &'a [S],
) -> Result<Option<Vec<Said<'a>>>, AllocError>
    ensures { IfOk result (λ found. option_map (λ said. map saying_of said.items) found
        ≡ says is_short (table_of rows.now) (map S.text words.entry.now)) }
{
    let mut said = Vec::new(alloc);
    let mut state = State::Nothing;
    for word in words {
        match push_next(rows, is_short, state, word.as_str(), &mut said)? {
            Some(next) => state = next,
            None => return Ok(None),
        }
    }
    if is_awaiting(state) {
        return Ok(None);
    }
    Ok(Some(said))
}

// Whether an option awaits its value.
fn is_awaiting(state: State) -> bool
    ensures { (if result then None else Some []) ≡ says_last (before_of state) }
{
    match state {
        State::Awaiting(_row) => true,
        State::Nothing => false,
        State::Stopped => false,
    }
}

/// What came before a word.
#[derive(Clone, Copy)]
pub(crate) enum State {
    /// Nothing that matters to it.
    Nothing,
    /// An option that awaits its value.
    Awaiting(&'static Row),
    /// `--`.
    Stopped,
}

// Adds what a word says; returns what is then before the next one, or none if it says nothing.
fn push_next<'a>(
    rows: &[&'static Row],
    is_short: bool,
    state: State,
    word: &'a str,
    said: &mut Vec<Said<'a>>,
) -> Result<Option<State>, AllocError>
    ensures { IfOk result (λ next. Steps (step_of is_short (table_of rows.now) (before_of state) word.now) next
        (map saying_of said.old.items) (map saying_of said.new.items)) }
{
    match state {
        State::Nothing => push_word(rows, is_short, word, said),
        State::Awaiting(row) => push_value(is_short, row, word, said),
        State::Stopped => add(said, None, word, State::Stopped),
    }
}

// Adds that a row, or none, gets this word. Returns what is then before the next one.
fn add<'a>(
    said: &mut Vec<Said<'a>>,
    row: Option<&'static Row>,
    word: &'a str,
    next: State,
) -> Result<Option<State>, AllocError>
    ensures { IfOk result (λ found. Steps (step (saying (option_map (λ row. shape_of row.now) row.entry) word.now ∷ [])
        (before_of next)) found (map saying_of said.old.items) (map saying_of said.new.items)) }
{
    said.push(Said { row, word })?;
    Ok(Some(next))
}

fn push_value<'a>(
    is_short: bool,
    row: &'static Row,
    word: &'a str,
    said: &mut Vec<Said<'a>>,
) -> Result<Option<State>, AllocError>
    ensures { IfOk result (λ next. Steps (if may_be_value is_short (shape_of row.now) word.now
        then step (of_row (shape_of row.now) word.now ∷ []) nothing else None) next
        (map saying_of said.old.items) (map saying_of said.new.items)) }
{
    if !may_be_value(is_short, row, word) {
        return Ok(None);
    }
    add(said, Some(row), word, State::Nothing)
}

// Whether a word may be the value of the option before it.
fn may_be_value(is_short: bool, row: &Row, word: &str) -> bool
    ensures { result ≡ may_be_value is_short (shape_of row.now) word.now }
{
    is_short || (takes_hyphens(row.value) || is_plain(word))
}

fn takes_hyphens(value: Value) -> bool
    ensures { result ≡ takes_hyphens (plain_value value) }
{
    match value {
        Value::CommandLine => true,
        Value::File | Value::Text | Value::Os | Value::Name(_) | Value::IsGiven => false,
        Value::Number | Value::LongNumber | Value::Count(_) | Value::NotTaken => false,
        Value::PythonNumber | Value::LongPythonNumber => false,
        Value::OsVersion | Value::PatchLevel => false,
    }
}

fn push_word<'a>(
    rows: &[&'static Row],
    is_short: bool,
    word: &'a str,
    said: &mut Vec<Said<'a>>,
) -> Result<Option<State>, AllocError>
    ensures { IfOk result (λ next. Steps (word_says is_short (table_of rows.now) word.now (look word.now)) next
        (map saying_of said.old.items) (map saying_of said.new.items)) }
{
    match form_of(word) {
        Form::Plain => add(said, None, word, State::Nothing),
        Form::Stop => Ok(Some(State::Stopped)),
        Form::Long(name, value) => push_named(row_named(rows, is_short, name), value, said),
        Form::Letters(text) => push_letters(rows, text, said),
    }
}

// ---- what a word looks like

/// What a word looks like.
#[derive(Clone, Copy)]
pub(crate) enum Form<'a> {
    /// No option.
    Plain,
    /// `--`.
    Stop,
    /// `--NAME`, or `--NAME=VALUE`.
    Long(&'a str, Option<&'a str>),
    /// A hyphen and letters.
    Letters(&'a str),
}

fn form_of<'a>(word: &'a str) -> Form<'a>
    ensures { look_of result ≡ look word.entry.now }
{
    let Some(behind) = behind_hyphen(word) else {
        return Form::Plain;
    };
    match behind_hyphen(behind) {
        Some(text) => long_form(text),
        None => letters_form(behind),
    }
}

// Of what follows two hyphens.
fn long_form<'a>(text: &'a str) -> Form<'a>
    ensures { look_of result ≡ look_long text.entry.now }
{
    if text.is_empty() {
        return Form::Stop;
    }
    let (name, value) = name_and_value(text);
    Form::Long(name, value)
}

// Of what follows a hyphen, and begins with none.
fn letters_form<'a>(text: &'a str) -> Form<'a>
    ensures { look_of result ≡ look_letters text.entry.now }
{
    if text.is_empty() {
        Form::Plain
    } else {
        Form::Letters(text)
    }
}

// What follows a hyphen.
#[inline(never)]
fn behind_hyphen<'a>(word: &'a str) -> Option<&'a str>
    ensures { option_map (λ s. s.now) result ≡ strip_byte 45 word.entry.now }
{
    word.strip_prefix('-')
}

// The name of an option, and the value after `=`.
fn name_and_value<'a>(text: &'a str) -> (&'a str, Option<&'a str>)
    ensures { (result.0.now, option_map (λ s. s.now) result.1) ≡ name_and_value text.entry.now }
{
    match text.split_once('=') {
        Some((name, value)) => (name, Some(value)),
        None => (text, None),
    }
}

/// Whether a word is no option.
fn is_plain(word: &str) -> bool
    ensures { result ≡ is_plain word.now }
{
    match form_of(word) {
        Form::Plain => true,
        Form::Stop => false,
        Form::Long(_name, _value) => false,
        Form::Letters(_text) => false,
    }
}

// Whether a word is `--`.
fn is_stop(word: &str) -> bool
    ensures { result ≡ is_stop word.now }
{
    match form_of(word) {
        Form::Plain => false,
        Form::Stop => true,
        Form::Long(_name, _value) => false,
        Form::Letters(_text) => false,
    }
}

/// Whether a word is an option, or letters of flags.
pub fn is_option_word(word: &str) -> bool
    ensures { result ≡ is_option_word word.now }
{
    match form_of(word) {
        Form::Plain => false,
        Form::Stop => false,
        Form::Long(_name, _value) => true,
        Form::Letters(_text) => true,
    }
}

// ---- several words for one row

fn is_placed_right<S: AsStr>(rows: &[&'static Row], words: &[S]) -> bool
    ensures { result ≡ is_placed_right (table_of rows.now) (map S.text words.now) }
{
    !has_several(rows) || is_run(words)
}

// Whether a row has several words, with another row behind it.
fn has_several(rows: &[&'static Row]) -> bool
    ensures { result ≡ list_any (λ row. is_several row.place) (table_of rows.now) }
{
    for row in rows {
        if is_several(row.place) {
            return true;
        }
    }
    false
}

fn is_several(place: WordPlace) -> bool
    ensures { result ≡ is_several place }
{
    match place {
        WordPlace::Words => true,
        WordPlace::Word | WordPlace::LastWords | WordPlace::Letter | WordPlace::Flag => false,
        WordPlace::Option | WordPlace::Options | WordPlace::ShortFlag(_) => false,
    }
}

// Whether positional words stand in one run.
fn is_run<S: AsStr>(words: &[S]) -> bool
    ensures { result ≡ is_run false (map S.text words.now) }
{
    let mut is_ended = false;
    let mut left = words;
    while let Some((word, rest)) = left.split_first() {
        let text = word.as_str();
        if !goes_on(is_ended, text, rest) {
            return false;
        }
        is_ended = is_ended_behind(is_ended, text);
        left = rest;
    }
    true
}

// Whether a positional word has an option, or nothing, behind it exactly if it is the last.
fn goes_on<S: AsStr>(is_ended: bool, word: &str, rest: &[S]) -> bool
    ensures { result ≡ goes_on is_ended word.now (map S.text rest.now) }
{
    !is_placed_word(is_ended, word) || is_either(ends_run(rest), has_placed(is_ended, rest))
}

fn is_ended_behind(is_ended: bool, word: &str) -> bool
    ensures { result ≡ (is_ended || is_stop word.now) }
{
    is_ended || is_stop(word)
}

// Whether an option, or nothing, comes next.
fn ends_run<S: AsStr>(words: &[S]) -> bool
    ensures { result ≡ ends_run (map S.text words.now) }
{
    match words {
        [] => true,
        [word, ..] => is_option_word(word.as_str()),
    }
}

// Whether a positional word comes later.
fn has_placed<S: AsStr>(was_ended: bool, words: &[S]) -> bool
    ensures { result ≡ has_placed was_ended (map S.text words.now) }
{
    let mut is_ended = was_ended;
    for word in words {
        let text = word.as_str();
        if is_placed_word(is_ended, text) {
            return true;
        }
        is_ended = is_ended_behind(is_ended, text);
    }
    false
}

fn is_placed_word(is_ended: bool, word: &str) -> bool
    ensures { result ≡ is_placed is_ended word.now }
{
    is_ended || is_plain(word)
}

fn is_either(one: bool, other: bool) -> bool
    ensures { result ≡ is_either one other }
{
    if one { !other } else { other }
}

// ---- options

fn row_named(rows: &[&'static Row], is_short: bool, said: &str) -> Option<&'static Row>
    ensures { option_map (λ row. shape_of row.now) result ≡ row_named is_short (table_of rows.now) said.now }
{
    for row in rows {
        if is_named(rows, is_short, said, row) {
            return Some(*row);
        }
    }
    None
}

// Whether a name says a row: its own, or one that is short for it.
fn is_named(rows: &[&'static Row], is_short: bool, said: &str, row: &Row) -> bool
    ensures { result ≡ names_row is_short (table_of rows.now) said.now (shape_of row.now) }
{
    said == row.name || (is_short && is_short_of(rows, said, row.name))
}

// Whether this is a prefix of the name, and of no other.
fn is_short_of(rows: &[&'static Row], short: &str, name: &str) -> bool
    ensures { result ≡ is_short_of (table_of rows.now) short.now name.now }
{
    begins(name, short) && is_only(rows, short, name)
}

fn begins(name: &str, front: &str) -> bool
    ensures { result ≡ starts_with ◌==◌ name.now front.now }
{
    name.starts_with(front)
}

fn is_only(rows: &[&'static Row], short: &str, name: &str) -> bool
    ensures { result ≡ list_all (is_only short.now name.now) (table_of rows.now) }
{
    for row in rows {
        if !is_this(row, short, name) {
            return false;
        }
    }
    true
}

// Whether a row has this name, or one that doesn't begin so.
fn is_this(row: &Row, short: &str, name: &str) -> bool
    ensures { result ≡ is_only short.now name.now (shape_of row.now) }
{
    row.name == name || !begins(row.name, short)
}

// Adds what an option or a flag says, if the value may stand where it does.
fn push_named<'a>(
    row: Option<&'static Row>,
    value: Option<&'a str>,
    said: &mut Vec<Said<'a>>,
) -> Result<Option<State>, AllocError>
    ensures { IfOk result (λ next. Steps (row_says (option_map (λ row. shape_of row.now) row.entry)
        (option_map (λ s. s.now) value.entry)) next (map saying_of said.old.items) (map saying_of said.new.items)) }
{
    let Some(row) = row else {
        return Ok(None);
    };
    match value {
        Some(value) => push_joined(row, value, said),
        None => push_alone(row, said),
    }
}

// The same with a value in its word.
fn push_joined<'a>(
    row: &'static Row,
    word: &'a str,
    said: &mut Vec<Said<'a>>,
) -> Result<Option<State>, AllocError>
    ensures { IfOk result (λ next. Steps (row_says (Some (shape_of row.now)) (Some word.now)) next
        (map saying_of said.old.items) (map saying_of said.new.items)) }
{
    if !is_option(row.place) {
        return Ok(None);
    }
    add(said, Some(row), word, State::Nothing)
}

// The same without one.
fn push_alone<'a>(row: &'static Row, said: &mut Vec<Said<'a>>) -> Result<Option<State>, AllocError>
    ensures { IfOk result (λ next. Steps (row_says (Some (shape_of row.now)) None) next
        (map saying_of said.old.items) (map saying_of said.new.items)) }
{
    if is_flag(row.place) {
        return add(said, Some(row), "true", State::Nothing);
    }
    if is_option(row.place) {
        Ok(Some(State::Awaiting(row)))
    } else {
        Ok(None)
    }
}

/// Whether a row is a positional word.
pub fn is_placed(place: WordPlace) -> bool
    ensures { result ≡ is_word place }
{
    match place {
        WordPlace::Word | WordPlace::Words | WordPlace::LastWords => true,
        WordPlace::Option | WordPlace::Options | WordPlace::Letter => false,
        WordPlace::Flag | WordPlace::ShortFlag(_) => false,
    }
}

fn is_option(place: WordPlace) -> bool
    ensures { result ≡ is_option place }
{
    match place {
        WordPlace::Option | WordPlace::Options => true,
        WordPlace::Word | WordPlace::Words | WordPlace::LastWords | WordPlace::Letter => false,
        WordPlace::Flag | WordPlace::ShortFlag(_) => false,
    }
}

fn is_flag(place: WordPlace) -> bool
    ensures { result ≡ is_flag place }
{
    match place {
        WordPlace::Flag | WordPlace::ShortFlag(_) => true,
        WordPlace::Word | WordPlace::Words | WordPlace::LastWords | WordPlace::Letter => false,
        WordPlace::Option | WordPlace::Options => false,
    }
}

// ---- letters

fn push_letters<'a>(
    rows: &[&'static Row],
    text: &'a str,
    said: &mut Vec<Said<'a>>,
) -> Result<Option<State>, AllocError>
    ensures { IfOk result (λ next. Steps (letters_say (table_of rows.now) text.now
        (lettered_in (table_of rows.now) text.now)) next
        (map saying_of said.old.items) (map saying_of said.new.items)) }
{
    match lettered_in(rows, text) {
        Some(row) => push_lettered(row, letter_value(behind(text, row.name)), said),
        None => push_flags(rows, text.as_bytes(), said),
    }
}

// The option whose name is a letter, with which these letters begin.
fn lettered_in(rows: &[&'static Row], text: &str) -> Option<&'static Row>
    ensures { option_map (λ row. shape_of row.now) result ≡ lettered_in (table_of rows.now) text.now }
{
    for row in rows {
        if begins_with(text, row) {
            return Some(*row);
        }
    }
    None
}

fn begins_with(text: &str, row: &Row) -> bool
    ensures { result ≡ begins_with text.now (shape_of row.now) }
{
    is_lettered(row.place) && begins(text, row.name)
}

fn is_lettered(place: WordPlace) -> bool
    ensures { result ≡ is_lettered place }
{
    match place {
        WordPlace::Letter => true,
        WordPlace::Word | WordPlace::Words | WordPlace::LastWords | WordPlace::Flag => false,
        WordPlace::Option | WordPlace::Options | WordPlace::ShortFlag(_) => false,
    }
}

// What follows the front of a text.
fn behind<'a>(text: &'a str, front: &str) -> &'a str
    ensures { starts_with ◌==◌ text.entry.now front.now ≡ true → result.now ≡ drop (length front.now) text.entry.now }
{
    match text.strip_prefix(front) {
        Some(rest) => rest,
        None => "",
    }
}

// Adds what such an option says.
fn push_lettered<'a>(
    row: &'static Row,
    value: Option<&'a str>,
    said: &mut Vec<Said<'a>>,
) -> Result<Option<State>, AllocError>
    ensures { IfOk result (λ next. Steps (letter_says (shape_of row.now) (option_map (λ s. s.now) value.entry)) next
        (map saying_of said.old.items) (map saying_of said.new.items)) }
{
    let Some(word) = value else {
        return Ok(Some(State::Awaiting(row)));
    };
    add(said, Some(row), word, State::Nothing)
}

// The value behind a letter in its word, of which a first `=` is no part.
fn letter_value<'a>(more: &'a str) -> Option<&'a str>
    ensures { option_map (λ s. s.now) result ≡ letter_value more.entry.now }
{
    if more.is_empty() {
        return None;
    }
    match more.strip_prefix('=') {
        Some(value) => Some(value),
        None => Some(more),
    }
}

// Adds the flags of these letters.
fn push_flags<'a>(
    rows: &[&'static Row],
    letters: &[u8],
    said: &mut Vec<Said<'a>>,
) -> Result<Option<State>, AllocError>
    ensures { IfOk result (λ next. Steps (flags_step (flags_said (table_of rows.now) letters.now)) next
        (map saying_of said.old.items) (map saying_of said.new.items)) }
{
    for letter in letters {
        let Some(row) = flag_of(rows, *letter) else {
            return Ok(None);
        };
        said.push(Said {
            row: Some(row),
            word: "true",
        })?;
    }
    Ok(Some(State::Nothing))
}

// The flag of a letter.
fn flag_of(rows: &[&'static Row], letter: u8) -> Option<&'static Row>
    ensures { option_map (λ row. shape_of row.now) result ≡ flag_of (table_of rows.now) letter }
{
    for row in rows {
        if is_letter(row.place, letter) {
            return Some(*row);
        }
    }
    None
}

fn is_letter(place: WordPlace, letter: u8) -> bool
    ensures { result ≡ is_letter letter place }
{
    match place {
        WordPlace::ShortFlag(own) => own as u32 == letter as u32,
        WordPlace::Word | WordPlace::Words | WordPlace::LastWords | WordPlace::Letter => false,
        WordPlace::Option | WordPlace::Options | WordPlace::Flag => false,
    }
}

// ---- what is said of a row

// Whether each option and flag is said once, or may be said again.
fn are_once(rows: &[&'static Row], said: &[Said<'_>]) -> bool
    ensures { result ≡ list_all (is_once (map saying_of said.now)) (table_of rows.now) }
{
    for row in rows {
        if !is_once(row, said) {
            return false;
        }
    }
    true
}

fn is_once(row: &Row, said: &[Said<'_>]) -> bool
    ensures { result ≡ is_once (map saying_of said.now) (shape_of row.now) }
{
    is_again(row.place) || count_said(row.name, said) <= 1
}

fn is_again(place: WordPlace) -> bool
    ensures { result ≡ is_again place }
{
    match place {
        WordPlace::Options => true,
        WordPlace::Word | WordPlace::Words | WordPlace::LastWords | WordPlace::Letter => false,
        WordPlace::Option | WordPlace::Flag | WordPlace::ShortFlag(_) => false,
    }
}

fn count_said(name: &str, said: &[Said<'_>]) -> usize
    ensures { result ≡ length (said_words name.now (map saying_of said.now)) }
{
    let mut count = 0;
    for one in said {
        if is_of(one, name) {
            count += 1;
        }
    }
    count
}

/// Whether anything is said of the row of this name.
pub fn is_said(name: &str, said: &[Said<'_>]) -> bool
    ensures { result ≡ says_name name.now (map saying_of said.now) }
{
    count_said(name, said) != 0
}

/// Adds those that count of the words that are said of a row: the last, or all if the row may be said again.
pub fn push_counted<'a>(
    row: &Row,
    said: &[Said<'a>],
    words: &mut Vec<&'a str>,
) -> Result<(), AllocError>
    ensures { OnOk result (map (λ s. s.now) words.new.items ≡ map (λ s. s.now) words.old.items
        ++ counted_words row.now.place (said_words row.now.name.now (map saying_of said.now))) }
{
    if is_again(row.place) {
        return push_said(row.name, said, words);
    }
    if let Some(word) = last_said(row.name, said) {
        words.push(word)?;
    }
    Ok(())
}

// The last word that is said of the row of this name.
fn last_said<'a>(name: &str, said: &[Said<'a>]) -> Option<&'a str>
    ensures { option_map (λ s. s.now) result ≡ last_word (said_words name.now (map saying_of said.now)) }
{
    let mut last = None;
    for one in said {
        if !is_of(one, name) {
            continue;
        }
        last = Some(one.word);
    }
    last
}

// Adds the words that are said of the row of this name.
fn push_said<'a>(name: &str, said: &[Said<'a>], words: &mut Vec<&'a str>) -> Result<(), AllocError>
    ensures { OnOk result (map (λ s. s.now) words.new.items ≡ map (λ s. s.now) words.old.items
        ++ said_words name.now (map saying_of said.now)) }
{
    for one in said {
        if !is_of(one, name) {
            continue;
        }
        words.push(one.word)?;
    }
    Ok(())
}

fn is_of(said: &Said<'_>, name: &str) -> bool
    ensures { result ≡ is_of_name name.now (saying_of said.now).row }
{
    match said.row {
        Some(row) => row.name == name,
        None => false,
    }
}

/// The positional words.
pub fn placed_words<'a>(alloc: Global, said: &[Said<'a>]) -> Result<Vec<&'a str>, AllocError>
    ensures { IfOk result (λ words. map (λ s. s.now) words.items ≡ words_by_place (map saying_of said.now)) }
{
    let mut words = Vec::new(alloc);
    for one in said {
        if one.row.is_some() {
            continue;
        }
        words.push(one.word)?;
    }
    Ok(words)
}
