//! Combines the data from which an image is written.

ghost use Rattle.std.specs.Prelude.{◌≡◌, ◌==◌, [], IsTrue, Bool, length, map, slice_index_or};
ghost use Rattle.abt_sections.specs.Fields.{cmd_common_fields};
ghost use Rattle.cmd_common_fields.specs.Kind.{version_of};
ghost use Rattle.cmd_common_boot.specs.Parts.{row_count};
ghost use Rattle.cmd_pack.specs.Filling.{address_where, loaded_at, loaded_where, second_in};

use abt_io::Source;
use abt_sections::BootSpec;
use cmd_common_boot::{PackTexts, PartSource, counts_ramdisk, counts_second};
use cmd_common_fields::ImageKind;
use cmd_pack_inputs::Ramdisks;
use cmd_pack_outputs::ImageContents;
use sys_disk::Lasting;

/// An image of this kind, with these fields and parts, and the bytes after it. The texts say whether a zero ends the
/// first field of the command line.
pub(crate) fn filled<'f, 't, S: Source + Lasting + Drop>(
    kind: ImageKind,
    fields: BootSpec<'f>,
    texts: &PackTexts<'_>,
    parts: Vec<PartSource<'t, S>>,
    ramdisks: Ramdisks<'t, S>,
    trailing: PartSource<'t, S>,
) -> ImageContents<'f, PartSource<'t, S>>
    requires versioned { fields.version ≡ version_of kind }
    requires counted { length parts.items ≡ row_count kind }
    ensures kind { result.kind ≡ kind }
    ensures parts { result.parts.items ≡ parts.entry.items }
    ensures specs { result.specs.items ≡ ramdisks.entry.specs.items }
    ensures sources { result.sources.items ≡ ramdisks.entry.sources.items }
    ensures nothing { result.nothing.size ≡ 0 }
    ensures unread { ⟦<PartSource<'t, S> as Source>⟧.read_faults result.nothing ≡ 0 }
    ensures trailing { result.trailing ≡ trailing.entry }
    ensures front { result.fields.is_front_ended ≡ texts.now.is_front_ended }
    ensures loaded { IsTrue S.models → cmd_common_fields result.fields ≡ loaded_at kind texts.now.options.items
        (map ⟦<PartSource<'t, S> as Source>⟧.content parts.entry.items) (cmd_common_fields fields.entry) }
{
    let of_ramdisk = counts_ramdisk(texts);
    let of_second = counts_second(texts);
    let fields = BootSpec {
        is_front_ended: texts.is_front_ended,
        ..loaded(fields, kind, of_ramdisk, of_second, parts.as_slice())
    };
    let Ramdisks { specs, sources } = ramdisks;
    ImageContents {
        kind,
        fields,
        parts,
        specs,
        sources,
        nothing: PartSource::empty(),
        trailing,
    }
}

// These fields, with the addresses that a boot image of these parts has.
fn loaded<'f, P: Source>(
    fields: BootSpec<'f>,
    kind: ImageKind,
    counts_ramdisk: bool,
    counts_second: bool,
    parts: &[P],
) -> BootSpec<'f>
    ensures version { result.version ≡ fields.entry.version }
    ensures loaded { IsTrue P.models → cmd_common_fields result ≡ loaded_where kind counts_ramdisk counts_second
        (map P.content parts.now) (cmd_common_fields fields.entry) }
{
    match kind {
        ImageKind::Boot(version) => {
            let has_no_ramdisk = is_empty(parts, 1);
            let has_no_second = is_without_second(version, parts);
            BootSpec {
                ramdisk_addr: address(fields.ramdisk_addr, counts_ramdisk, has_no_ramdisk),
                second_addr: address(fields.second_addr, counts_second, has_no_second),
                ..fields
            }
        }
        ImageKind::Vendor(_) => fields,
    }
}

// An address. It is mkbootimg's 0 where it counts from a base and its part has no bytes.
fn address(given: u32, counts: bool, is_empty: bool) -> u32
    ensures { result ≡ address_where counts is_empty given }
{
    if counts && is_empty { 0 } else { given }
}

// Whether a boot image of this version has no second stage, or one without bytes.
fn is_without_second<P: Source>(version: u32, parts: &[P]) -> bool
    ensures { IsTrue P.models → result ≡ (length (second_in version (map P.content parts.now)) == 0) }
{
    if version < 3 {
        is_empty(parts, 2)
    } else {
        true
    }
}

// Whether there is no such part, or one without bytes.
fn is_empty<P: Source>(parts: &[P], i: usize) -> bool
    ensures { IsTrue P.models → result ≡ (length (slice_index_or (map P.content parts.now) i []) == 0) }
{
    match parts.get(i) {
        Some(part) => part.length() == 0,
        None => true,
    }
}
