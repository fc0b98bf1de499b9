//! The texts that the orders of mkbootimg need: the words of `pack` for ramdisk fragments. They are not trusted.

use crate::groups::{Group, is_file_word};
use std::alloc::{AllocError, Global};
use words_orders::Answer;

/// Those of the fragments, of which the file of `--vendor_ramdisk` is the first, and then those of their board ids.
pub(crate) fn fragment_texts(
    alloc: Global,
    ramdisk: Option<&str>,
    said: &[Answer<'_>],
) -> Result<Vec<String>, AllocError> {
    let mut texts = Vec::new(alloc);
    if let Some(path) = ramdisk {
        texts.push(format!(in alloc; "1::{path}")?)?;
    }
    let first = texts.len() as u64;
    let mut group = Group::new();
    for answer in said {
        push_ended_text(alloc, &mut texts, group, answer)?;
        group = group.behind(answer);
    }
    push_board_texts(alloc, &mut texts, first, said)?;
    Ok(texts)
}

// That of the fragment that an answer ends, where it ends one.
fn push_ended_text(
    alloc: Global,
    texts: &mut Vec<String>,
    group: Group<'_>,
    said: &Answer<'_>,
) -> Result<(), AllocError> {
    if is_file_word(said) {
        let kind = group.kind.unwrap_or(0);
        let name = group.name.unwrap_or("");
        let path = said.word;
        texts.push(format!(in alloc; "{kind}:{name}:{path}")?)?;
    }
    Ok(())
}

fn push_board_texts(
    alloc: Global,
    texts: &mut Vec<String>,
    first: u64,
    said: &[Answer<'_>],
) -> Result<(), AllocError> {
    let mut fragment = first;
    for answer in said {
        if is_file_word(answer) {
            fragment = fragment.saturating_add(1);
        }
        if let Some(place) = answer.row.name.strip_prefix("board_id") {
            let number = answer.number;
            texts.push(format!(in alloc; "{fragment}:{place}={number}")?)?;
        }
    }
    Ok(())
}
