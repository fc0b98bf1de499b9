//! Words `@FILE`, which are replaced by the lines of a file.

ghost use Rattle.std.specs.Prelude.{◌≡◌, ◌++◌, ℕ, List, ◌∷◌, None, IfOk, IfSome, OnOk, map, string_bytes};
ghost use Rattle.words_values.specs.WordFile.{IsNamed, expansion, own, stands_for, texts_behind, words_of};

use std::alloc::{AllocError, Global};
use std::convert::AsStr;

/// The path in a word `@FILE`; `@` alone and `@@..` name none.
pub fn file_of(word: &str) -> Option<&str>
    ensures word { IfSome result (λ path. word.now ≡ 64 ∷ path.now) }
    ensures named { IfSome result (λ path. IsNamed path.now) }
    ensures none { result ≡ None → (path : List ℕ) → word.now ≡ 64 ∷ path → IsNamed path → ⊥ }
{
    let path = word.strip_prefix('@')?;
    if path.is_empty() || path.starts_with('@') {
        return None;
    }
    Some(path)
}

/// The words, with each `@FILE` replaced by those lines of its file that aren't empty, and each other word that begins
/// with `@@` without one of the two. The texts are those of the files, in their order.
pub fn expanded<'a, S: AsStr>(
    alloc: Global,
    words: &'a [S],
    texts: &'a [String],
) -> Result<Vec<&'a str>, AllocError>
    ensures { IfOk result (λ all. map (λ word. word.now) all.items ≡ expansion (map S.text words.now)
        (map string_bytes texts.now)) }
{
    let mut all = Vec::new(alloc);
    let mut left = texts;
    for word in words {
        left = push_word(&mut all, word.as_str(), left)?;
    }
    Ok(all)
}

// Adds what replaces a word, and returns the texts for the words after it.
fn push_word<'a>(
    all: &mut Vec<&'a str>,
    word: &'a str,
    texts: &'a [String],
) -> Result<&'a [String], AllocError>
    ensures words { OnOk result (map (λ it. it.now) all.new.items ≡ map (λ it. it.now) all.old.items ++ stands_for
        word.now (map string_bytes texts.now)) }
    ensures left { IfOk result (λ left. map string_bytes left.now ≡ texts_behind word.now (map string_bytes
        texts.now)) }
{
    if file_of(word).is_none() {
        all.push(own_word(word))?;
        return Ok(texts);
    }
    let [text, left @ ..] = texts else {
        return Ok(texts);
    };
    push_lines(all, text.as_str())?;
    Ok(left)
}

// A word that names no file: `@@..` loses its first `@`.
fn own_word(word: &str) -> &str
    ensures { result.now ≡ own word.now }
{
    match word.strip_prefix('@') {
        Some(rest) if rest.starts_with('@') => rest,
        _ => word,
    }
}

// Adds the lines that aren't empty.
fn push_lines<'a>(words: &mut Vec<&'a str>, text: &'a str) -> Result<(), AllocError>
    ensures { OnOk result (map (λ it. it.now) words.new.items ≡ map (λ it. it.now) words.old.items ++ words_of
        text.now) }
{
    for line in text.lines() {
        if !line.is_empty() {
            words.push(line)?;
        }
    }
    Ok(())
}
