//! The parts from which an image is packed, each open for reading.

ghost use Rattle.std.specs.Prelude.{◌≡◌, [], IsTrue, IfErr, IfOk, length, map};
ghost use Rattle.abt_sections.specs.Cause.{total};
ghost use Rattle.cmd_common_fields.specs.Options.{option_of};
ghost use Rattle.cmd_common_boot.specs.Given.{found};
ghost use Rattle.cmd_common_boot.specs.Parts.{part_sections, row_count};
ghost use Rattle.cmd_pack_inputs.specs.Opening.{OpensEach, OpensOne, StopsOpening};
ghost use Rattle.cmd_pack_inputs.specs.Own.{IsOpenOwn, IsOwnPart};
ghost use Rattle.cmd_pack_inputs.specs.Parts.{ArePartsOf, IsPartBy, IsPartInput, IsPathOf};

use crate::input_files::file_at;
use crate::own::{Own, own_part};
use abt_io::Source;
use cmd_common_boot::{PackTexts, PartRow, PartSource, rows_of};
use cmd_common_fields::ImageKind;
use std::alloc::Global;
use sys_disk::{Disk, push};
use sys_refusals::{HostFault, HostRefusal};

/// Opens the parts of an image of this kind: each is the given file, or else the image's own part, or empty.
pub fn open_parts<'t, D: Disk>(
    disk: &mut D,
    alloc: Global,
    kind: ImageKind,
    texts: &'t PackTexts<'_>,
    own: Option<&Own<'t, D::At>>,
) -> Result<Vec<PartSource<'t, D::At>>, HostRefusal<'t>>
    requires first { IsTrue D.models → (D.held disk.old).begun ≡ [] }
    requires own { IsTrue D.At.models → IsOpenOwn D.At.content own }
    ensures counted { IfOk result (λ parts. length parts.items ≡ row_count kind) }
    ensures parts { IsTrue D.models → IfOk result (λ parts. ArePartsOf (D.world disk.old) texts.now.options.items
        (IsOwnPart D.At.content own.entry) (part_sections kind)
        (map ⟦<PartSource<'t, D::At> as Source>⟧.content parts.items)) }
    ensures opens { OpensEach D.models result (IsPartInput texts.now.options.items (part_sections kind))
        (λ parts. total ⟦<PartSource<'t, D::At> as Source>⟧.read_faults parts.items) 0
        (D.held disk.old) (D.held disk.new) (D.world disk.old) (D.world disk.new) }
{
    let rows = rows_of(kind);
    let mut parts = Vec::new(alloc);
    for row in rows {
        let part = match open_part(disk, *row, texts, own) {
            Ok(part) => part,
            Err(refusal) => return Err(refusal),
        };
        match push(&mut parts, part) {
            Ok(()) => {}
            Err(refused) => {
                disk.no_memory(refused);
                return Err(HostRefusal::memory());
            }
        }
    }
    Ok(parts)
}

// The given file, or else the image's own part.
fn open_part<'t, D: Disk>(
    disk: &mut D,
    row: PartRow,
    texts: &'t PackTexts<'_>,
    own: Option<&Own<'t, D::At>>,
) -> Result<PartSource<'t, D::At>, HostRefusal<'t>>
    requires first { IsTrue D.models → (D.held disk.old).begun ≡ [] }
    requires own { IsTrue D.At.models → IsOpenOwn D.At.content own }
    ensures part { IsTrue D.models → IfOk result (λ part. IsPartBy (D.world disk.old)
        (found texts.now.options.items row.option.now) (IsOwnPart D.At.content own.entry row.section)
        (⟦<PartSource<'t, D::At> as Source>⟧.content part)) }
    ensures opens { OpensEach D.models result (IsPathOf texts.now.options.items row.option.now)
        (⟦<PartSource<'t, D::At> as Source>⟧.read_faults) 0 (D.held disk.old) (D.held disk.new)
        (D.world disk.old) (D.world disk.new) }
{
    match texts.find(row.option) {
        Some(option) => open_file(disk, row.option, &*option.word, option.bytes.as_slice()),
        None => own_part(disk, own, row.section),
    }
}

/// Opens a file whose path is these bytes, which an argument encodes.
pub(crate) fn open_file<'t, D: Disk>(
    disk: &mut D,
    role: &'static str,
    word: &'t str,
    path: &'t [u8],
) -> Result<PartSource<'t, D::At>, HostRefusal<'t>>
    requires first { IsTrue D.models → (D.held disk.old).begun ≡ [] }
    ensures opens { OpensOne D.models result path.now ⟦<PartSource<'t, D::At> as Source>⟧.content
        ⟦<PartSource<'t, D::At> as Source>⟧.read_faults (D.held disk.old) (D.held disk.new) (D.world disk.old)
        (D.world disk.new) }
    ensures refused { IsTrue D.models → IfErr result (λ refusal. StopsOpening (λ p. p ≡ path.now) (D.held disk.old)
        (D.held disk.new) refusal.fault) }
{
    match str::from_utf8(path) {
        Ok(path) => {
            let place = file_at(role, path);
            match disk.source(place) {
                Ok(file) => Ok(PartSource::whole(file, place)),
                Err(refusal) => Err(refusal),
            }
        }
        Err(_) => {
            let place = file_at(role, word);
            Err(HostRefusal::at(HostFault::CannotOpen, place, None))
        }
    }
}
