//! The command `expand` of several images, such as the pieces of a cut. Each overwrites those before it.

ghost use Rattle.std.specs.Prelude.{◌≡◌, ◌+◌, IsTrue, IfErr, OnOk, map};
ghost use Rattle.sys_refusals.specs.Paths.{path_of};
ghost use Rattle.sys_report.specs.Shows.{ShowsBeside, Unprinted};
ghost use Rattle.cmd_common_sparse.specs.ImagePath.{image_path};
ghost use Rattle.cmd_expand.specs.Overlaying.{LeavesOverlaid, MayOverlay, OverlaysFiles, RefusesOverlay, once_if_any};
ghost use Rattle.cmd_expand.specs.Steps.{whole_of_shape};

use crate::expand::printed;
use crate::open_images::{OpenedImages, Shape, open_all};
use crate::overlay_loop::lay_all;
use abt_chunks::Expanded;
use abt_io::{Meter, Window};
use cmd_common_sparse::SparseRefusal;
use std::alloc::Global;
use sys_disk::Disk;
use sys_refusals::FileArg;
use sys_report::Report;

/// Flashes images in their order to a file of zeros, each over those before it. Prints what the file has.
///
/// All images are read before OUT is created or emptied:
/// - Their shapes are compared.
/// - Where files have the names of pieces, such as `PREFIX.1`, the blocks that they write are compared. The blocks of
///   a piece come before those of the next; otherwise the next belongs to another cut.
#[inline(never)]
pub fn expand_several<'a, D: Disk>(
    disk: &mut D,
    report: &mut Report,
    inputs: &[&'a str],
    output: FileArg<'a>,
    alloc: Global,
    w: &mut Window,
    m: &mut Meter,
) -> Result<(), SparseRefusal<'a>>
    requires ready { IsTrue D.models → MayOverlay (D.held disk.old) }
    // OUT holds the images that the INs hold, each written over those before it; the printed line has their numbers
    ensures done { IsTrue D.models → OnOk result (OverlaysFiles (map (λ word. image_path word.now) inputs.now)
        (path_of output.entry) (D.world disk.old) (D.world disk.new) (ShowsBeside (D.on_output (path_of output.entry))
        report.old report.new)) }
    // where there is an IN, OUT was synced after its last byte
    ensures synced { IsTrue D.models → OnOk result ((D.held disk.new).syncs
        ≡ (D.held disk.old).syncs + once_if_any (map (λ word. image_path word.now) inputs.now)) }
    // whatever the outcome, only OUT may hold anything else, each IN holds what it held, and no file is left open;
    // the result is Ok only where nothing failed
    ensures leaves { IsTrue D.models → LeavesOverlaid result (map (λ word. image_path word.now) inputs.now)
        (path_of output.entry) (D.held disk.old) (D.held disk.new) (D.world disk.old) (D.world disk.new) }
    // it fails for what the INs hold, or where a device or the system failed
    ensures refused { IsTrue D.models → IfErr result (λ refusal. RefusesOverlay refusal.fault
        (map (λ word. image_path word.now) inputs.now) (path_of output.entry) (D.world disk.old) (D.world disk.new)
        (D.held disk.old) (D.held disk.new) (Unprinted report.old report.new)) }
{
    let all = match open_all(disk, &mut report.progress, inputs, alloc, w, m) {
        Ok(all) => all,
        Err(refusal) => return Err(refusal),
    };
    let OpenedImages { kept, shape, .. } = all;
    let Expanded { blocks, bytes } = whole_of(shape);
    let mut zeros = disk.zeros(output, bytes)?;
    let answer = lay_all(disk, &mut report.progress, kept, &mut zeros, output, w, m);
    let end = disk.close(zeros, output);
    match answer {
        Ok(()) => {}
        Err(refusal) => return Err(refusal),
    }
    let is_on_output = match end {
        Ok(is_on_output) => is_on_output,
        Err(refusal) => return Err(refusal.begun(output).into()),
    };
    match printed(Expanded { blocks, bytes }, is_on_output, report) {
        Ok(()) => Ok(()),
        Err(refusal) => Err(refusal.into()),
    }
}

// How long the images are that have this shape. Where there is none, they have no blocks.
fn whole_of(shape: Option<Shape>) -> Expanded
    ensures { result ≡ whole_of_shape shape }
{
    match shape {
        Some(shape) => Expanded {
            blocks: shape.blocks,
            bytes: shape.blocks as u64 * shape.block as u64,
        },
        None => Expanded {
            blocks: 0,
            bytes: 0,
        },
    }
}
