//! The FRAGMENT arguments of `pack`.

ghost use Rattle.std.specs.Prelude.{◌≡◌, ◌≤◌, ◌↔◌, ℕ, List, IsSome, IfOk, IfSome, IsSomeAnd, Some, length};
ghost use Rattle.abt_sections.specs.Fields.{filled};
ghost use Rattle.abt_sections.specs.declared.spec.FragmentSpec.{FragmentSpec};
ghost use Rattle.cmd_common_fields.specs.Fragment.{IsEscapedFragment, IsFragment, IsOfParts, type_number};

use crate::os_word::number;
use crate::unescaping::unescaped;
use abt_sections::FragmentSpec;
use std::alloc::Global;
use sys_disk::NoMemory;

// The bytes of a name in the table of fragments, of which the last is zero.
const NAME_BYTES: usize = 32;

/// An argument `TYPE:NAME:FILE`, split at its first two colons.
#[derive(Clone, Copy)]
pub struct FragmentWord<'a> {
    /// The fragment's entry of the table. The board id is zero.
    pub spec: FragmentSpec,
    pub path: &'a str,
}

impl<'a> FragmentWord<'a> {
    /// Reads an argument. Returns `None` where its format or its TYPE is another, or NAME has more than 31 bytes.
    pub fn new(word: &'a str) -> Option<FragmentWord<'a>>
        ensures value { IfSome result (λ f. IsFragment word.entry.now f.spec f.path.now) }
        ensures accepts { (spec : FragmentSpec) (path : List ℕ) → IsFragment word.entry.now spec path →
            IsSomeAnd result (λ f. (f.spec ≡ spec) × (f.path.now ≡ path)) }
    {
        let (kind, rest) = word.split_once(':')?;
        let (name, path) = rest.split_once(':')?;
        let spec = FragmentSpec {
            kind: fragment_kind(kind)?,
            name: fragment_name(name)?,
            board_id: [0; 16],
        };
        Some(FragmentWord { spec, path })
    }

    /// The same for an argument in which `\x` and two hexadecimal digits encode a byte. NAME encodes at most 32
    /// bytes, any of which may be zero. FILE is taken as it is written.
    pub fn escaped(alloc: Global, word: &'a str) -> Result<Option<FragmentWord<'a>>, NoMemory>
        ensures value { IfOk result (λ o. IfSome o (λ f. IsEscapedFragment word.entry.now f.spec f.path.now)) }
        ensures accepts { (spec : FragmentSpec) (path : List ℕ) → IsEscapedFragment word.entry.now spec path →
            IfOk result (λ o. IsSomeAnd o (λ f. (f.spec ≡ spec) × (f.path.now ≡ path))) }
    {
        let Some((kind, rest)) = word.split_once(':') else {
            return Ok(None);
        };
        let Some((name, path)) = rest.split_once(':') else {
            return Ok(None);
        };
        let name = unescaped(alloc, name)?;
        match fragment_spec(kind, name.as_slice()) {
            Some(spec) => Ok(Some(FragmentWord { spec, path })),
            None => Ok(None),
        }
    }
}

// The fragment of a TYPE and the bytes of a name.
fn fragment_spec(kind: &str, name: &[u8]) -> Option<FragmentSpec>
    ensures value { IfSome result (IsOfParts kind.now name.now) }
    ensures accepts { (spec : FragmentSpec) → IsOfParts kind.now name.now spec → result ≡ Some spec }
{
    let kind = fragment_kind(kind)?;
    let name = name_field(name)?;
    Some(FragmentSpec {
        kind,
        name,
        board_id: [0; 16],
    })
}

// These bytes, and then zeros.
fn name_field(bytes: &[u8]) -> Option<[u8; NAME_BYTES]>
    ensures accepts { IsSome result ↔ (length bytes.now ≤ 32) }
    ensures value { IfSome result (λ name. name ≡ filled 32 bytes.now) }
{
    if bytes.len() > NAME_BYTES {
        return None;
    }
    let mut name = [0; NAME_BYTES];
    name[..bytes.len()].copy_from_slice(bytes);
    Some(name)
}

// The number of a TYPE, which is a name or a number.
fn fragment_kind(word: &str) -> Option<u32>
    ensures { result ≡ type_number word.now }
{
    match word {
        "none" => Some(0),
        "platform" => Some(1),
        "recovery" => Some(2),
        "dlkm" => Some(3),
        _ => number(word),
    }
}

// The bytes of a NAME, and then zeros.
fn fragment_name(word: &str) -> Option<[u8; NAME_BYTES]>
    ensures accepts { IsSome result ↔ (length word.now ≤ 31) }
    ensures value { IfSome result (λ name. name ≡ filled 32 word.now) }
{
    let text = word.as_bytes();
    if text.len() >= NAME_BYTES {
        return None;
    }
    name_field(text)
}
