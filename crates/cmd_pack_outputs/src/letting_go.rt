//! Closing the sources of an image after it was written, and the file that a fault concerns.

ghost use Rattle.sys_disk.specs.Counts.{reads};
ghost use Rattle.sys_disk.specs.DiskCalls.{FailsOnly};
ghost use Rattle.abt_sections.specs.Cause.{total};
ghost use Rattle.cmd_pack_outputs.specs.Contents.{bytes_given, faults_in};

use crate::contents::ImageContents;
use abt_io::Source;
use cmd_common_boot::PartSource;
use sys_disk::{Disk, Lasting};
use sys_refusals::{FileArg, Sides};

/// How many bytes are read.
pub(crate) fn bytes_of<S: Source + Lasting + Drop>(
    contents: &ImageContents<'_, PartSource<'_, S>>,
) -> u64 {
    let parts = sum_of(contents.parts.as_slice());
    let ramdisks = sum_of(contents.sources.as_slice());
    parts
        .saturating_add(ramdisks)
        .saturating_add(contents.trailing.size)
}

fn sum_of<S: Source + Lasting + Drop>(parts: &[PartSource<'_, S>]) -> u64 {
    let mut bytes: u64 = 0;
    for part in parts {
        bytes = bytes.saturating_add(part.size);
    }
    bytes
}

/// The file that a fault of reading is about.
pub(crate) fn sides_of<'t, S: Source + Lasting + Drop>(
    contents: &ImageContents<'_, PartSource<'t, S>>,
) -> Sides<'t> {
    let place = place_at_fault(contents.parts.as_slice())
        .or(place_at_fault(contents.sources.as_slice()))
        .or(contents.trailing.place);
    match place {
        Some(place) => Sides::none().reading(place, None),
        None => Sides::none(),
    }
}

// The file of the first part that could not be read.
fn place_at_fault<'t, S: Source + Lasting + Drop>(
    parts: &[PartSource<'t, S>],
) -> Option<FileArg<'t>> {
    for part in parts {
        if part.is_at_fault() && part.place.is_some() {
            return part.place;
        }
    }
    None
}

/// Lets the files go that an image was written from.
pub(crate) fn let_go<'t, D: Disk>(disk: &mut D, contents: ImageContents<'_, PartSource<'t, D::At>>)
    ensures fails { FailsOnly D.models (reads (bytes_given ⟦<PartSource<'t, D::At> as Source>⟧.given contents.entry)
        (faults_in ⟦<PartSource<'t, D::At> as Source>⟧.read_faults contents.entry))
        (D.held disk.old) (D.held disk.new) (D.world disk.old) (D.world disk.new) }
{
    let ImageContents {
        parts,
        sources,
        nothing,
        trailing,
        ..
    } = contents;
    let_go_parts(disk, parts);
    let_go_parts(disk, sources);
    let_go_part(disk, nothing);
    let_go_part(disk, trailing);
}

fn let_go_parts<'t, D: Disk>(disk: &mut D, parts: Vec<PartSource<'t, D::At>>)
    ensures fails { FailsOnly D.models (reads (total ⟦<PartSource<'t, D::At> as Source>⟧.given parts.entry.items)
        (total ⟦<PartSource<'t, D::At> as Source>⟧.read_faults parts.entry.items))
        (D.held disk.old) (D.held disk.new) (D.world disk.old) (D.world disk.new) }
{
    let mut parts = parts;
    while let Some(part) = parts.pop() {
        let_go_part(disk, part);
    }
}

fn let_go_part<'t, D: Disk>(disk: &mut D, part: PartSource<'t, D::At>)
    ensures fails { FailsOnly D.models (reads (⟦<PartSource<'t, D::At> as Source>⟧.given part.entry)
        (⟦<PartSource<'t, D::At> as Source>⟧.read_faults part.entry))
        (D.held disk.old) (D.held disk.new) (D.world disk.old) (D.world disk.new) }
{
    let PartSource { file, .. } = part;
    match file {
        Some(file) => disk.let_go_source(file),
        None => {}
    }
}
