//! The ramdisk fragments that words of mkbootimg ask for, and their board ids.

ghost use Rattle.std.specs.Prelude.{◌≡◌, ◌⊎◌, ◌++◌, List, IfOk, IfSome, IsTrue, Contains, true};
ghost use Rattle.std.specs.List.{AllZip};
ghost use Rattle.words_tools.specs.Fragments.{BoardSaid, FragmentSaid, IsSpelledBoard, IsBoardText, IsSpelledFragment};
ghost use Rattle.words_tools.specs.Fragments.{IsFragmentText, board_by, board_said, boards_said, count_behind};
ghost use Rattle.words_tools.specs.Fragments.{ended_by};
ghost use Rattle.words_tools.specs.Fragments.{fragment_said, fragments_said, group_behind, group_of, group_with};
ghost use Rattle.words_tools.specs.Fragments.{is_board, is_file_word, no_group, of_platform, platform_group};
ghost use Rattle.words_tools.specs.Fragments.{ramdisk_type};
ghost use Rattle.words_tools.specs.Fragments.{FragmentSaid};
ghost use Rattle.words_tools.specs.Rejected.{EndsInGroup, IsOfName, RejectsFragments, RejectsName, RejectsType};

use crate::fragments::{FRAGMENT, cut};
use std::alloc::{AllocError, Global};
use words_orders::Answer;
use words_values::{Value, number_in};

/// What was said of a fragment so far: its type, and its name.
#[derive(Clone, Copy)]
pub(crate) struct Group<'a> {
    pub kind: Option<u64>,
    pub name: Option<&'a str>,
}

impl<'a> Group<'a> {
    /// Nothing yet, which is the type none.
    pub fn new() -> Group<'a>
        ensures { group_of result ≡ no_group }
    {
        Group {
            kind: Some(0),
            name: None,
        }
    }

    /// The fragment of `--vendor_ramdisk`.
    pub fn platform() -> Group<'a>
        ensures { group_of result ≡ platform_group }
    {
        Group {
            kind: Some(1),
            name: Some(""),
        }
    }

    // The same with what an answer says.
    fn with(self, said: &Answer<'a>) -> Group<'a>
        ensures { group_of result ≡ group_with (group_of self.entry) said.now }
    {
        let Group { kind, name } = self;
        if said.row.name == "ramdisk_type" {
            return Group {
                kind: type_number(said.word),
                name,
            };
        }
        if said.row.name == "ramdisk_name" {
            return Group {
                kind,
                name: Some(said.word),
            };
        }
        Group { kind, name }
    }

    /// What is said after an answer: nothing yet, if it ends a group.
    pub fn behind(self, said: &Answer<'a>) -> Group<'a>
        ensures { group_of result ≡ group_behind (group_of self.entry) said.now }
    {
        if is_file_word(said) {
            Group::new()
        } else {
            self.with(said)
        }
    }
}

/// The number of a type.
pub(crate) fn type_number(word: &str) -> Option<u64>
    ensures { result ≡ ramdisk_type word.now }
{
    if word.eq_ignore_ascii_case("none") {
        return Some(0);
    }
    if word.eq_ignore_ascii_case("platform") {
        return Some(1);
    }
    if word.eq_ignore_ascii_case("recovery") {
        return Some(2);
    }
    if word.eq_ignore_ascii_case("dlkm") {
        return Some(3);
    }
    number_in(Value::LongPythonNumber, word)
}

/// Whether an answer is the file that ends a group.
#[inline(never)]
pub(crate) fn is_file_word(said: &Answer<'_>) -> bool
    ensures { result ≡ is_file_word said.now }
{
    said.row.name == FRAGMENT
}

// Whether it is a number of a board id.
fn is_board(said: &Answer<'_>) -> bool
    ensures { result ≡ is_board said.now }
{
    let name = said.row.name;
    !(name == FRAGMENT || (name == "ramdisk_type" || name == "ramdisk_name"))
}

/// The words of `pack` for the fragments, with which the texts begin: for `--vendor_ramdisk`, and for those after it.
pub(crate) fn fragment_words<'a>(
    alloc: Global,
    ramdisk: Option<Answer<'a>>,
    said: &[Answer<'a>],
    texts: &'a [String],
) -> Result<Option<Vec<&'a str>>, AllocError>
    ensures { IfOk result (λ all. IfSome all (λ all. AllZip (λ f text. IsFragmentText f text.now)
        (of_platform ramdisk.entry ++ fragments_said no_group said.now) all.items)) }
{
    let Some(mut all) = platform_words(alloc, ramdisk, texts)? else {
        return Ok(None);
    };
    let mut group = Group::new();
    for answer in said {
        if !push_ended(&mut all, group, answer, texts)? {
            return Ok(None);
        }
        group = group.behind(answer);
    }
    Ok(Some(all))
}

// Adds the word of the fragment that an answer ends, if it ends one. Returns whether its text is there.
fn push_ended<'a>(
    all: &mut Vec<&'a str>,
    group: Group<'_>,
    said: &Answer<'_>,
    texts: &'a [String],
) -> Result<bool, AllocError>
    ensures { (done : List FragmentSaid) → AllZip (λ f text. IsFragmentText f text.now) done all.old.items
        → IfOk result (λ is. IsTrue is → AllZip (λ f text. IsFragmentText f text.now)
        (done ++ ended_by (group_of group.entry) said.now) all.new.items) }
{
    if !is_file_word(said) {
        return Ok(true);
    }
    let Some(text) = fragment_text(group, said.word, texts, all.len()) else {
        return Ok(false);
    };
    all.push(text)?;
    Ok(true)
}

// That of `--vendor_ramdisk`, if it is given.
fn platform_words<'a>(
    alloc: Global,
    ramdisk: Option<Answer<'a>>,
    texts: &'a [String],
) -> Result<Option<Vec<&'a str>>, AllocError>
    ensures { IfOk result (λ all. IfSome all (λ all. AllZip (λ f text. IsFragmentText f text.now)
        (of_platform ramdisk.entry) all.items)) }
{
    let mut all = Vec::new(alloc);
    if let Some(ramdisk) = ramdisk {
        let Some(text) = fragment_text(Group::platform(), ramdisk.word, texts, 0) else {
            return Ok(None);
        };
        all.push(text)?;
    }
    Ok(Some(all))
}

// The text at this place, if it is that of a fragment with this file.
fn fragment_text<'a>(
    group: Group<'_>,
    path: &str,
    texts: &'a [String],
    at: usize,
) -> Option<&'a str>
    ensures { IfSome result (λ text. IsFragmentText (fragment_said (group_of group.entry) path.now) text.now) }
{
    let kind = group.kind?;
    let name = group.name?;
    let text = texts.get(at)?.as_str();
    if says_fragment(text, kind, name, path) {
        Some(text)
    } else {
        None
    }
}

// Whether a text is TYPE:NAME:FILE of these.
fn says_fragment(text: &str, kind: u64, name: &str, path: &str) -> bool
    ensures { IsTrue result → IsSpelledFragment kind name.now path.now text.now }
{
    let Some((digits, behind)) = cut(text, ":") else {
        return false;
    };
    let Some((named, file)) = cut(behind, ":") else {
        return false;
    };
    number_in(Value::Count(0), digits) == Some(kind) && named == name && file == path
}

/// The words of `pack` for the numbers of board ids, if this many fragments come first: they are the texts from a place
/// on.
pub(crate) fn board_words<'a>(
    alloc: Global,
    first: u64,
    said: &[Answer<'a>],
    texts: &'a [String],
    from: usize,
) -> Result<Option<Vec<&'a str>>, AllocError>
    ensures { IfOk result (λ all. IfSome all (λ all. AllZip (λ b text. IsBoardText b text.now)
        (boards_said first said.now) all.items)) }
{
    let mut all = Vec::new(alloc);
    let mut fragment = first;
    for answer in said {
        if !push_board(&mut all, fragment, answer, texts, from)? {
            return Ok(None);
        }
        let Some(next) = counted(fragment, answer) else {
            return Ok(None);
        };
        fragment = next;
    }
    Ok(Some(all))
}

// Adds the word of a number of a board id, if an answer is one. Returns whether its text is there.
fn push_board<'a>(
    all: &mut Vec<&'a str>,
    fragment: u64,
    said: &Answer<'_>,
    texts: &'a [String],
    from: usize,
) -> Result<bool, AllocError>
    ensures { (done : List BoardSaid) → AllZip (λ b text. IsBoardText b text.now) done all.old.items
        → IfOk result (λ is. IsTrue is → AllZip (λ b text. IsBoardText b text.now)
        (done ++ board_by fragment said.now) all.new.items) }
{
    if !is_board(said) {
        return Ok(true);
    }
    let Some(text) = board_text(fragment, said, texts, from.saturating_add(all.len())) else {
        return Ok(false);
    };
    all.push(text)?;
    Ok(true)
}

// How many fragments come before what follows an answer.
fn counted(fragment: u64, said: &Answer<'_>) -> Option<u64>
    ensures { IfSome result (λ n. n ≡ count_behind fragment said.now) }
{
    if is_file_word(said) {
        fragment.checked_add(1)
    } else {
        Some(fragment)
    }
}

// The text at this place, where it is that of a number of the board id of this fragment.
fn board_text<'a>(
    fragment: u64,
    said: &Answer<'_>,
    texts: &'a [String],
    at: usize,
) -> Option<&'a str>
    ensures { IfSome result (λ text. IsBoardText (board_said fragment said.now) text.now) }
{
    let place = said.row.name.strip_prefix("board_id")?;
    let text = texts.get(at)?.as_str();
    if says_board(text, fragment, place, said.number) {
        Some(text)
    } else {
        None
    }
}

// Whether a text is I:K=N of these.
fn says_board(text: &str, fragment: u64, place: &str, number: u64) -> bool
    ensures { IsTrue result → IsSpelledBoard fragment place.now number text.now }
{
    let Some((counted, behind)) = cut(text, ":") else {
        return false;
    };
    let Some((placed, digits)) = cut(behind, "=") else {
        return false;
    };
    number_in(Value::Count(0), counted) == Some(fragment)
        && placed == place
        && number_in(Value::Count(0), digits) == Some(number)
}

// ---- what is rejected

const SAME_NAME: &str = "two fragments have the same name";

/// Why these fragments are rejected, behind that of `--vendor_ramdisk` if it is given.
pub(crate) fn fragments_refusal(
    said: &[Answer<'_>],
    ramdisk: Option<Answer<'_>>,
) -> Option<&'static str>
    ensures { IfSome result (λ _. RejectsFragments (of_platform ramdisk.entry ++ fragments_said no_group said.now)
        ⊎ EndsInGroup said.now) }
{
    let mut group = Group::new();
    for i in 0..said.len() {
        let refusal = end_refusal(group, &said[..i], &said[i], ramdisk);
        if refusal.is_some() {
            return refusal;
        }
        group = group.behind(&said[i]);
    }
    match said {
        [.., last] if !is_file_word(last) => {
            Some("a fragment ends with --vendor_ramdisk_fragment and its file")
        }
        _ => None,
    }
}

// Why the fragment is rejected that an answer after these ends, if it ends one.
fn end_refusal(
    group: Group<'_>,
    before: &[Answer<'_>],
    said: &Answer<'_>,
    ramdisk: Option<Answer<'_>>,
) -> Option<&'static str>
    ensures file { IfSome result (λ _. is_file_word said.now ≡ true) }
    ensures group { IfSome result (λ _. RejectsType (group_of group.entry).kind
        ⊎ RejectsName (of_platform ramdisk.entry ++ fragments_said no_group before.now) (group_of group.entry).name) }
{
    if is_file_word(said) {
        group_refusal(group, before, ramdisk)
    } else {
        None
    }
}

// Why a group is rejected that comes after these answers.
fn group_refusal(
    group: Group<'_>,
    before: &[Answer<'_>],
    ramdisk: Option<Answer<'_>>,
) -> Option<&'static str>
    ensures { IfSome result (λ _. RejectsType (group_of group.entry).kind
        ⊎ RejectsName (of_platform ramdisk.entry ++ fragments_said no_group before.now) (group_of group.entry).name) }
{
    match group.kind {
        Some(kind) if kind <= u32::MAX as u64 => {}
        _ => return Some("--ramdisk_type is none, platform, recovery, dlkm or a number"),
    }
    let Some(name) = group.name else {
        return Some("each fragment has a name: give --ramdisk_name");
    };
    if name == "default" {
        return Some("no fragment has the name default");
    }
    if cut(name, ":").is_some() {
        return Some("a name has no colon: use abootimg pack with --escaped");
    }
    if ramdisk.is_some() && name.is_empty() {
        return Some(SAME_NAME);
    }
    if is_named_in(before, name) {
        return Some(SAME_NAME);
    }
    None
}

// Whether one of these fragments has this name.
fn is_named_in(said: &[Answer<'_>], name: &str) -> bool
    ensures { IsTrue result → (f : FragmentSaid)
        × (Contains (fragments_said no_group said.now) f × IsOfName name.now f) }
{
    let mut group = Group::new();
    for answer in said {
        if is_file_word(answer) && group.name == Some(name) {
            return true;
        }
        group = group.behind(answer);
    }
    false
}
