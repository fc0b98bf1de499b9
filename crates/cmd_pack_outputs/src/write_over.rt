//! Writes an image over a regular file, so that no reader takes a partial image for a whole one.

ghost use Rattle.std.specs.Prelude.{◌≡◌, []};
ghost use Rattle.cmd_pack_outputs.specs.Contents.{faults_in, packed_image};
ghost use Rattle.cmd_pack_outputs.specs.Writing.{IsAccepted, IsAcceptedAlone, LaysBytes};

use crate::contents::ImageContents;
use crate::magic_last::MagicLast;
use crate::packing::{is_read_once, pack_contents, pack_once};
use abt_io::{Meter, Overwrite, Source, Window};
use abt_sections::SectionFault;
use cmd_common_boot::PartSource;
use sys_disk::Lasting;
use sys_report::{Carried, Progress};

/// Why an image is not written.
#[derive(Clone, Copy, Drop)]
pub(crate) enum LayFault {
    /// A fault of packing.
    Packing(SectionFault),
    /// The magic could not be written.
    Magic,
}

/// Writes an image over a file to which nothing was written. Returns the file, with the image's number of bytes. A
/// boot image with nothing after it is packed in one pass over its parts. In all others the magic is written last.
pub(crate) fn lay_image<'t, S: Source + Lasting + Drop, O: Overwrite>(
    contents: &mut ImageContents<'_, PartSource<'t, S>>,
    file: O,
    progress: &mut Progress,
    w: &mut Window,
    m: &mut Meter,
) -> (O, Result<u64, LayFault>)
    requires empty { O.written file ≡ [] }
    requires sources { IsAccepted ⟦<PartSource<'t, S> as Source>⟧.size contents.old }
    ensures lays { LaysBytes result.1 S.models (packed_image ⟦<PartSource<'t, S> as Source>⟧.content contents.old)
        (O.written result.0) (faults_in ⟦<PartSource<'t, S> as Source>⟧.read_faults contents.old)
        (faults_in ⟦<PartSource<'t, S> as Source>⟧.read_faults contents.new) (O.write_faults file)
        (O.write_faults result.0) }
    ensures frame { O.write_frame result.0 ≡ O.write_frame file }
{
    if is_read_once(contents) {
        lay_once(contents, file, progress, w, m)
    } else {
        lay_magic_last(contents, file, progress, w, m)
    }
}

// Each part in one pass.
fn lay_once<'t, S: Source + Lasting + Drop, O: Overwrite>(
    contents: &mut ImageContents<'_, PartSource<'t, S>>,
    file: O,
    progress: &mut Progress,
    w: &mut Window,
    m: &mut Meter,
) -> (O, Result<u64, LayFault>)
    requires empty { O.written file ≡ [] }
    requires sources { IsAcceptedAlone ⟦<PartSource<'t, S> as Source>⟧.size contents.old }
    ensures lays { LaysBytes result.1 S.models (packed_image ⟦<PartSource<'t, S> as Source>⟧.content contents.old)
        (O.written result.0) (faults_in ⟦<PartSource<'t, S> as Source>⟧.read_faults contents.old)
        (faults_in ⟦<PartSource<'t, S> as Source>⟧.read_faults contents.new) (O.write_faults file)
        (O.write_faults result.0) }
    ensures frame { O.write_frame result.0 ≡ O.write_frame file }
{
    let mut carried = Carried {
        device: file,
        progress,
    };
    let answer = pack_once(contents, &mut carried, w, m);
    let Carried { device: file, .. } = carried;
    match answer {
        Ok(bytes) => (file, Ok(bytes)),
        Err(fault) => (file, Err(LayFault::Packing(fault))),
    }
}

// The magic last.
fn lay_magic_last<'t, S: Source + Lasting + Drop, O: Overwrite>(
    contents: &mut ImageContents<'_, PartSource<'t, S>>,
    file: O,
    progress: &mut Progress,
    w: &mut Window,
    m: &mut Meter,
) -> (O, Result<u64, LayFault>)
    requires empty { O.written file ≡ [] }
    requires sources { IsAccepted ⟦<PartSource<'t, S> as Source>⟧.size contents.old }
    ensures lays { LaysBytes result.1 S.models (packed_image ⟦<PartSource<'t, S> as Source>⟧.content contents.old)
        (O.written result.0) (faults_in ⟦<PartSource<'t, S> as Source>⟧.read_faults contents.old)
        (faults_in ⟦<PartSource<'t, S> as Source>⟧.read_faults contents.new) (O.write_faults file)
        (O.write_faults result.0) }
    ensures frame { O.write_frame result.0 ≡ O.write_frame file }
{
    let mut carried = Carried {
        device: MagicLast::new(file),
        progress,
    };
    let answer = pack_contents(contents, &mut carried, w, m);
    let Carried { device: last, .. } = carried;
    match answer {
        Ok(bytes) => match last.finish(m) {
            (file, Ok(())) => (file, Ok(bytes)),
            (file, Err(_)) => (file, Err(LayFault::Magic)),
        },
        Err(fault) => (last.give_up(), Err(LayFault::Packing(fault))),
    }
}
