//! Writes the sparse image of a raw one to its file, and closes the file.

ghost use Rattle.std.specs.Prelude.{◌≡◌, [], IsTrue, IfErr, IfOk, OnErr};
ghost use Rattle.sys_disk.specs.Images.{OfImage, is_file};
ghost use Rattle.sys_disk.specs.World.{number_of};
ghost use Rattle.sys_refusals.specs.Blamed.{TellsOf, input_of};
ghost use Rattle.sys_refusals.specs.Paths.{path_out};
ghost use Rattle.cmd_common_sparse.specs.Fault.{side_of};
ghost use Rattle.cmd_cut.specs.Sparsing.{LeavesNoneOrSparse, ReadyRawImage, ReadyToWrite, WritesSparseImage};

use crate::engine_calls::{lay_image, write_image};
use crate::stopped_command::stopped;
use abt_io::{Meter, Window};
use abt_sparsify::Written;
use cmd_common_sparse::{Blocks, SparseRefusal};
use sys_disk::{Disk, ImageTo, Reasons, ended};
use sys_refusals::{FileArg, Sides};
use sys_report::{Carried, Progress};

// A pipe or a device gets each header before its data. The raw image is then read to count its chunks, to find each
// run whole, and to copy it. A regular file is overwritten, and the raw image is read once.
const PASSES: u64 = 3;

/// Writes the sparse image of a raw one to the open output, and closes it. Returns the image's numbers, and whether
/// the output is where standard output goes.
pub(crate) fn write_whole<'a, D: Disk>(
    disk: &mut D,
    source: D::At,
    blocks: Blocks,
    as_img2simg: bool,
    image: ImageTo<D::Image, D::Onto>,
    output: FileArg<'a>,
    sides: Sides<'a>,
    progress: &mut Progress,
    w: &mut Window,
    m: &mut Meter,
) -> Result<(Written, bool), SparseRefusal<'a>>
    requires ready { ReadyRawImage D.models as_img2simg blocks (D.At.size source) (D.At.read_faults source) }
    requires empty { OfImage (λ file. D.Image.Output.written file ≡ []) (λ onto. D.Onto.written onto ≡ []) image }
    requires clean { IsTrue D.models → OfImage (λ file. D.Image.Output.write_faults file ≡ 0)
        (λ onto. D.Onto.write_faults onto ≡ 0) image }
    requires this { IsTrue D.models → OfImage
        (λ file. (D.Image.Output.write_frame file).file ≡ number_of (D.held disk.old).output)
        (λ onto. (D.Onto.write_frame onto).file ≡ number_of (D.held disk.old).output) image }
    ensures writes { IsTrue D.models → WritesSparseImage result (λ refusal. refusal.fault) as_img2simg blocks.size
        (D.At.content source) (D.held disk.old) (D.held disk.new) (D.world disk.old) (D.world disk.new) }
    ensures stream { IsTrue D.models → IfOk result (λ end. end.1 ≡ D.on_output (path_out output.entry)) }
    ensures broken { IsTrue D.models → IsTrue (is_file image) → OnErr result (LeavesNoneOrSparse as_img2simg blocks.size
        (D.At.content source) (D.held disk.old).output (D.world disk.new)) }
    // a fault of what is read is told of IN, and one of what is written of OUT
    ensures told_of { IfErr result (λ refusal. TellsOf (side_of refusal.fault) refusal.about.place
        (input_of sides.entry) (Some output.entry)) }
{
    match image {
        ImageTo::File(file) => write_over(
            disk,
            source,
            blocks,
            as_img2simg,
            file,
            output,
            sides,
            progress,
            w,
            m,
        ),
        ImageTo::Stream(onto) => {
            progress.repeat(PASSES);
            write_through(
                disk,
                source,
                blocks,
                as_img2simg,
                onto,
                output,
                sides,
                progress,
                w,
                m,
            )
        }
    }
}

// The same to a file that is written over.
fn write_over<'a, D: Disk>(
    disk: &mut D,
    source: D::At,
    blocks: Blocks,
    as_img2simg: bool,
    image: D::Image,
    output: FileArg<'a>,
    sides: Sides<'a>,
    progress: &mut Progress,
    w: &mut Window,
    m: &mut Meter,
) -> Result<(Written, bool), SparseRefusal<'a>>
    requires ready { ReadyToWrite D.models as_img2simg blocks (D.At.size source) (D.At.read_faults source)
        D.Image.Output image (D.held disk.old).output }
    ensures writes { IsTrue D.models → WritesSparseImage result (λ refusal. refusal.fault) as_img2simg blocks.size
        (D.At.content source) (D.held disk.old) (D.held disk.new) (D.world disk.old) (D.world disk.new) }
    ensures stream { IsTrue D.models → IfOk result (λ end. end.1 ≡ D.on_output (path_out output.entry)) }
    ensures broken { IsTrue D.models → OnErr result (LeavesNoneOrSparse as_img2simg blocks.size (D.At.content source)
        (D.held disk.old).output (D.world disk.new)) }
    // a fault of what is read is told of IN, and one of what is written of OUT
    ensures told_of { IfErr result (λ refusal. TellsOf (side_of refusal.fault) refusal.about.place
        (input_of sides.entry) (Some output.entry)) }
{
    let mut carried = Carried {
        device: source,
        progress,
    };
    let mut image = image;
    let answer = lay_image(&mut carried, blocks, as_img2simg, &mut image, w, m);
    let Carried { device: source, .. } = carried;
    disk.let_go_source(source);
    match answer {
        Ok(written) => match disk.finish_image(image, output) {
            Ok(is_on_output) => Ok((written, is_on_output)),
            Err(refusal) => Err(refusal.into()),
        },
        Err(fault) => Err(stopped(disk, fault, image, output, sides)),
    }
}

// The same for an output that is written from its first byte on.
fn write_through<'a, D: Disk>(
    disk: &mut D,
    source: D::At,
    blocks: Blocks,
    as_img2simg: bool,
    onto: D::Onto,
    output: FileArg<'a>,
    sides: Sides<'a>,
    progress: &mut Progress,
    w: &mut Window,
    m: &mut Meter,
) -> Result<(Written, bool), SparseRefusal<'a>>
    requires ready { ReadyToWrite D.models as_img2simg blocks (D.At.size source) (D.At.read_faults source)
        D.Onto.Output onto (D.held disk.old).output }
    ensures writes { IsTrue D.models → WritesSparseImage result (λ refusal. refusal.fault) as_img2simg blocks.size
        (D.At.content source) (D.held disk.old) (D.held disk.new) (D.world disk.old) (D.world disk.new) }
    ensures stream { IsTrue D.models → IfOk result (λ end. end.1 ≡ D.on_output (path_out output.entry)) }
    // a fault of what is read is told of IN, and one of what is written of OUT
    ensures told_of { IfErr result (λ refusal. TellsOf (side_of refusal.fault) refusal.about.place
        (input_of sides.entry) (Some output.entry)) }
{
    let mut carried = Carried {
        device: source,
        progress,
    };
    let mut onto = onto;
    let answer = write_image(&mut carried, blocks, as_img2simg, &mut onto, w, m);
    let Carried { device: source, .. } = carried;
    disk.let_go_source(source);
    ended(disk, answer, onto, output, sides)
}
