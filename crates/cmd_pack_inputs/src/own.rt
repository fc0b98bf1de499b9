//! An open image, and the ranges of it that are read beside it.

ghost use Rattle.std.specs.Prelude.{◌≡◌, ◌+◌, ◌<◌, ◌≤◌, IsTrue, IfOk, IfErr, length, take, drop, []};
ghost use Rattle.sys_disk.specs.World.{HasFailed};
ghost use Rattle.sys_refusals.specs.Paths.{path_of};
ghost use Rattle.abt_sections.specs.Header.{view_of};
ghost use Rattle.abt_sections.specs.Open.{IsOpened};
ghost use Rattle.cmd_common_boot.specs.ImageFaults.{RefusesImage};
ghost use Rattle.cmd_pack_inputs.specs.Opening.{OpensAgain, OpensOne};
ghost use Rattle.cmd_pack_inputs.specs.Own.{IsOpenOwn, IsOwnPart, kept_behind};

use abt_headers::Section;
use abt_io::{Meter, Source, Window};
use abt_sections::{Image, open};
use cmd_common_boot::{BootCommandFault, PartSource};
use cmd_common_findings::{end_of, place_of};
use sys_disk::{Disk, Lasting};
use sys_refusals::{FileArg, HostRefusal, Refusal, Sides};

/// An image that is packed again.
#[derive(Drop)]
pub struct Own<'a, S: Source + Lasting + Drop> {
    pub image: Image,
    pub source: S,
    pub place: FileArg<'a>,
}

/// Opens an image.
pub fn open_own<'t, 'a, D: Disk>(
    disk: &mut D,
    place: FileArg<'t>,
    w: &mut Window,
    m: &mut Meter,
) -> Result<Own<'t, D::At>, Refusal<'t, BootCommandFault<'a>>>
    requires first { IsTrue D.models → (D.held disk.old).begun ≡ [] }
    ensures opens { OpensOne D.models result (path_of place.entry) (λ own. D.At.content own.source)
        (λ own. D.At.read_faults own.source) (D.held disk.old) (D.held disk.new) (D.world disk.old)
        (D.world disk.new) }
    ensures image { IsTrue D.At.models → IfOk result (λ own. IsOpened (D.At.content own.source) own.image) }
    ensures refused { IsTrue D.models → IfErr result (λ refusal. RefusesImage (path_of place.entry)
        (D.world disk.old) (λ cause. HasFailed cause (D.held disk.old) (D.held disk.new)) ⊥ refusal.fault) }
{
    let mut source = match disk.source(place) {
        Ok(source) => source,
        Err(refusal) => return Err(refusal.into()),
    };
    match open(&mut source, w, m) {
        Ok(image) => Ok(Own {
            image,
            source,
            place,
        }),
        Err(fault) => {
            disk.let_go_source(source);
            let sides = Sides::none().reading(place, None);
            Err(sides.refuse(BootCommandFault::Section(fault)))
        }
    }
}

/// This many bytes from a position on, to be read beside the image.
pub(crate) fn range_of<'t, D: Disk>(
    disk: &mut D,
    own: &Own<'t, D::At>,
    at: u64,
    size: u64,
) -> Result<PartSource<'t, D::At>, HostRefusal<'t>>
    requires lies { IsTrue D.At.models → 0 < size → at + size ≤ length (D.At.content own.now.source) }
    ensures opens { OpensAgain D.models result (λ x. x ≡ take size (drop at (D.At.content own.now.source)))
        ⟦<PartSource<'t, D::At> as Source>⟧.content
        ⟦<PartSource<'t, D::At> as Source>⟧.read_faults (D.held disk.old) (D.held disk.new)
        (D.world disk.old) (D.world disk.new) }
{
    if size == 0 {
        return Ok(PartSource::empty());
    }
    match disk.again(&own.source, own.place) {
        Ok(file) => Ok(PartSource::range(file, own.place, at, size)),
        Err(refusal) => Err(refusal),
    }
}

/// The part in this section, where there is such an image and it has one.
pub(crate) fn own_part<'t, D: Disk>(
    disk: &mut D,
    own: Option<&Own<'t, D::At>>,
    section: Section,
) -> Result<PartSource<'t, D::At>, HostRefusal<'t>>
    requires { IsTrue D.At.models → IsOpenOwn D.At.content own }
    ensures opens { OpensAgain D.models result (IsOwnPart D.At.content own.entry section)
        ⟦<PartSource<'t, D::At> as Source>⟧.content
        ⟦<PartSource<'t, D::At> as Source>⟧.read_faults (D.held disk.old) (D.held disk.new)
        (D.world disk.old) (D.world disk.new) }
{
    let Some(own) = own else {
        return Ok(PartSource::empty());
    };
    match place_of(&own.image, section) {
        Some(place) => range_of(disk, own, place.at, place.size as u64),
        None => Ok(PartSource::empty()),
    }
}

/// The bytes after the image, where they are kept.
pub fn trailing_of<'t, D: Disk>(
    disk: &mut D,
    own: &Own<'t, D::At>,
    is_kept: bool,
) -> Result<PartSource<'t, D::At>, HostRefusal<'t>>
    requires { IsTrue D.At.models → IsOpened (D.At.content own.now.source) own.now.image }
    ensures opens { OpensAgain D.models result (λ x. x ≡ kept_behind is_kept (D.At.content own.now.source)
        (view_of own.now.image.header))
        ⟦<PartSource<'t, D::At> as Source>⟧.content
        ⟦<PartSource<'t, D::At> as Source>⟧.read_faults (D.held disk.old) (D.held disk.new)
        (D.world disk.old) (D.world disk.new) }
{
    if !is_kept {
        return Ok(PartSource::empty());
    }
    let end = end_of(&own.image);
    range_of(disk, own, end, own.image.length.saturating_sub(end))
}
