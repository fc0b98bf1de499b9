//! The arguments of `pack` and `repack`, with the bytes that each encodes.

ghost use Rattle.std.specs.Prelude.{◌≡◌, IfOk, map};
ghost use Rattle.std.specs.List.{All};
ghost use Rattle.cmd_boot_dispatch.specs.Ordered.{IsCommandOf, IsOfItsWord, IsReadOf, bytes_for};
ghost use Rattle.cmd_boot_dispatch.specs.Ordered.{command_option, command_options, ordered_option, ordered_options};

use abt_sections::FragmentSpec;
use cmd_common_boot::{FragmentText, OptionText, PackCommand, PackTexts};
use cmd_common_fields::{FragmentWord, unescaped};
use std::alloc::Global;
use sys_disk::{NoMemory, append, push};
use words_orders::{Given, PackOrder};

/// Reads the value of each option of the table, and the arguments of the fragments.
pub(crate) fn command_of<'a>(
    alloc: Global,
    order: PackOrder<'a>,
) -> Result<PackCommand<'a>, NoMemory>
    ensures { IfOk result (IsCommandOf order.entry) }
{
    let PackOrder {
        output,
        is_vendor,
        version,
        page,
        given,
        board_ids,
        fragments,
        keeps_trailing,
        is_escaped,
        is_front_ended,
    } = order;
    let options = options_of(alloc, given.as_slice(), is_escaped)?;
    let fragments = fragments_of(alloc, fragments.as_slice(), is_escaped)?;
    Ok(PackCommand {
        alloc,
        output,
        is_vendor,
        version,
        page,
        texts: PackTexts {
            options,
            fragments,
            is_front_ended,
        },
        board_ids,
        keeps_trailing,
    })
}

// The options that have an argument.
fn options_of<'a>(
    alloc: Global,
    given: &[Given<'a>],
    is_escaped: bool,
) -> Result<Vec<OptionText<'a>>, NoMemory>
    ensures { IfOk result (λ options. command_options options.items ≡ ordered_options is_escaped given.now) }
{
    let mut options = Vec::new(alloc);
    for given in given {
        let Some(word) = given.word else {
            continue;
        };
        let option = option_of(alloc, *given, word, is_escaped)?;
        push(&mut options, option)?;
    }
    Ok(options)
}

// An option that has this argument.
fn option_of<'a>(
    alloc: Global,
    given: Given<'a>,
    word: &'a str,
    is_escaped: bool,
) -> Result<OptionText<'a>, NoMemory>
    requires { given.word ≡ Some word }
    ensures { IfOk result (λ option. ordered_option is_escaped given.entry ≡ Some (command_option option)) }
{
    Ok(OptionText {
        row: given.row,
        name: given.row.name,
        word,
        number: given.number,
        bytes: bytes_of(alloc, word, is_escaped)?,
    })
}

fn fragments_of<'a>(
    alloc: Global,
    words: &[&'a str],
    is_escaped: bool,
) -> Result<Vec<FragmentText<'a>>, NoMemory>
    ensures words { IfOk result (λ fragments.
        map (λ f. f.word.now) fragments.items ≡ map (λ s. s.now) words.now) }
    ensures each { IfOk result (λ fragments. All (IsOfItsWord is_escaped) fragments.items) }
{
    let mut fragments = Vec::new(alloc);
    for word in words {
        let fragment = fragment_of(alloc, *word, is_escaped)?;
        push(&mut fragments, fragment)?;
    }
    Ok(fragments)
}

fn fragment_of<'a>(
    alloc: Global,
    word: &'a str,
    is_escaped: bool,
) -> Result<FragmentText<'a>, NoMemory>
    ensures word { IfOk result (λ fragment. fragment.word.now ≡ word.entry.now) }
    ensures said { IfOk result (IsOfItsWord is_escaped) }
{
    let (spec, path) = match fragment_word(alloc, word, is_escaped)? {
        Some(FragmentWord { spec, path }) => (Some(spec), path),
        None => (None, ""),
    };
    let path = bytes_of(alloc, path, is_escaped)?;
    Ok(FragmentText { word, spec, path })
}

// What an argument describes of a fragment.
fn fragment_word<'a>(
    alloc: Global,
    word: &'a str,
    is_escaped: bool,
) -> Result<Option<FragmentWord<'a>>, NoMemory>
    ensures { IfOk result (IsReadOf is_escaped word.entry.now) }
{
    if is_escaped {
        FragmentWord::escaped(alloc, word)
    } else {
        Ok(FragmentWord::new(word))
    }
}

fn bytes_of(alloc: Global, word: &str, is_escaped: bool) -> Result<Vec<u8>, NoMemory>
    ensures { IfOk result (λ bytes. bytes.items ≡ bytes_for is_escaped word.now) }
{
    if is_escaped {
        return unescaped(alloc, word);
    }
    let mut bytes = Vec::new(alloc);
    append(&mut bytes, word.as_bytes())?;
    Ok(bytes)
}
