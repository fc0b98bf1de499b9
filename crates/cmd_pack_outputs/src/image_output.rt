//! The file to which an image is written, from before it is opened until it is closed.

ghost use Rattle.std.specs.Prelude.{◌≡◌, ◌++◌, ◌∷◌, [], None, IsTrue, IfErr, OnOk, OnErr, false, true};
ghost use Rattle.sys_disk.specs.Counts.{writes};
ghost use Rattle.sys_disk.specs.DiskCalls.{LetsImageGo};
ghost use Rattle.sys_disk.specs.Images.{OfImage, is_file};
ghost use Rattle.sys_disk.specs.World.{number_of};
ghost use Rattle.sys_report.specs.Shows.{CannotPrint, ShowsBeside, Unprinted};
ghost use Rattle.sys_refusals.specs.Paths.{path_out};
ghost use Rattle.cmd_common_boot.specs.NotJudged.{IsOfPacking, OfFault};
ghost use Rattle.cmd_pack_outputs.specs.Contents.{faults_in, packed_image, packing_of, refusal_from, refusal_in};
ghost use Rattle.cmd_pack_outputs.specs.Lines.{image_line};
ghost use Rattle.cmd_pack_outputs.specs.Writing.{IsReady, LaysImage, LeavesOut, StopsWriting, WritesBytes};
ghost use Rattle.cmd_pack_outputs.specs.Writing.{lay_fault};

use crate::contents::ImageContents;
use crate::letting_go::{bytes_of, let_go, sides_of};
use crate::lines::ImageLine;
use crate::packing::{pack_contents, refusal_of};
use crate::write_over::{LayFault, lay_image};
use abt_io::{Meter, Source, Window};
use cmd_common_boot::{BootCommandFault, BootOutcome, NotJudged, PartSource};
use std::alloc::Global;
use sys_disk::{Disk, ImageTo, Lasting, Reasons, ended};
use sys_refusals::{FileArg, HostFault, HostRefusal, Refusal, Sides};
use sys_report::{Carried, Progress, Report};

/// Writes an image to a file, which is created or emptied, and prints how many bytes it has. `-` is standard output.
///
/// Faults of packing that depend on the fields and on the parts' sizes are returned before the file is opened.
pub fn write_image<'f, 't, 'a, D: Disk>(
    disk: &mut D,
    report: &mut Report,
    alloc: Global,
    contents: ImageContents<'f, PartSource<'t, D::At>>,
    output: FileArg<'t>,
    w: &mut Window,
    m: &mut Meter,
) -> BootOutcome<'t, 'a>
    requires one { IsTrue D.models → (D.held disk.old).output ≡ None }
    requires nothing { ⟦<PartSource<'t, D::At> as Source>⟧.size contents.nothing ≡ 0 }
    requires unread { IsTrue D.models → faults_in ⟦<PartSource<'t, D::At> as Source>⟧.read_faults contents ≡ 0 }
    // OUT is none of the files that are read, and holds the image; the printed line has its number of bytes, on
    // standard error where OUT is where standard output goes
    ensures done { IsTrue D.models → OnOk result (LaysImage (path_out output.entry) (D.held disk.old).read
        (packed_image ⟦<PartSource<'t, D::At> as Source>⟧.content contents.entry) (D.world disk.old) (D.world disk.new)
        (ShowsBeside (D.on_output (path_out output.entry)) report.old report.new)) }
    // whatever the outcome, only OUT may hold anything else, and its file has no part of an image; after an Ok no
    // call failed
    ensures left { IsTrue D.models → LeavesOut result (path_out output.entry) (D.is_over (path_out output.entry))
        (λ x. x ≡ packed_image ⟦<PartSource<'t, D::At> as Source>⟧.content contents.entry) (D.held disk.old)
        (D.held disk.new) (D.world disk.old) (D.world disk.new) }
    // it fails for a fault of packing, for that of a device or a call that has failed, or where only its line failed
    ensures refused { IsTrue D.models → IfErr result (λ refusal. StopsWriting
        (refusal_from contents.entry.kind (packing_of ⟦<PartSource<'t, D::At> as Source>⟧.content contents.entry))
        (D.held disk.old) (D.held disk.new)
        (D.world disk.old) (D.world disk.new) (LaysImage (path_out output.entry) (D.held disk.old).read
        (packed_image ⟦<PartSource<'t, D::At> as Source>⟧.content contents.entry) (D.world disk.old) (D.world disk.new)
        (Unprinted report.old report.new)) refusal.fault) }
{
    match judged(alloc, &contents, w, m) {
        Ok(()) => {}
        Err(why) => {
            let fault = why.counted(disk);
            return Err(sides_of(&contents).refuse(fault));
        }
    }
    report.progress.expect(bytes_of(&contents), 1);
    let image = match disk.image(output, false) {
        Ok(image) => image,
        Err(refusal) => return Err(refusal.into()),
    };
    let progress = &mut report.progress;
    let (bytes, is_on_output) = match write_to(disk, image, output, progress, contents, w, m) {
        Ok(end) => end,
        Err(refusal) => return Err(refusal),
    };
    match printed(bytes, is_on_output, report) {
        Ok(()) => Ok(()),
        Err(refusal) => Err(refusal.into()),
    }
}

// Its text takes more of the stack than all else here, and none of it while the image is written.
#[inline(never)]
fn printed<'a>(bytes: u64, is_on_output: bool, report: &mut Report) -> Result<(), HostRefusal<'a>>
    ensures shown { OnOk result (ShowsBeside is_on_output report.old report.new (image_line bytes ++ (10 ∷ []))) }
    ensures refused { OnErr result (CannotPrint report.old report.new) }
    ensures fault { IfErr result (λ refusal. refusal.fault ≡ HostFault.Write) }
{
    report.line_beside(is_on_output, ImageLine(bytes))
}

// The fault of packing an image.
fn judged<'t, 'a, S: Source + Lasting + Drop>(
    alloc: Global,
    contents: &ImageContents<'_, PartSource<'t, S>>,
    w: &mut Window,
    m: &mut Meter,
) -> Result<(), NotJudged<'a>>
    ensures accepted { OnOk result (refusal_in ⟦<PartSource<'t, S> as Source>⟧.size contents.now ≡ None) }
    ensures refused { IsTrue S.models → IfErr result (OfFault (IsOfPacking (refusal_from contents.now.kind
        (packing_of ⟦<PartSource<'t, S> as Source>⟧.content contents.now)))) }
{
    match refusal_of(alloc, contents, w, m) {
        Ok(None) => Ok(()),
        Ok(Some(fault)) => Err(NotJudged::Fault(BootCommandFault::Section(fault))),
        Err(refused) => Err(NotJudged::Memory(refused)),
    }
}

// A boot image with nothing after it is packed in one pass over its parts. In all others the magic is written last.
fn write_to<'f, 't, 'a, D: Disk>(
    disk: &mut D,
    image: ImageTo<D::Image, D::Onto>,
    output: FileArg<'t>,
    progress: &mut Progress,
    contents: ImageContents<'f, PartSource<'t, D::At>>,
    w: &mut Window,
    m: &mut Meter,
) -> Result<(u64, bool), Refusal<'t, BootCommandFault<'a>>>
    requires ready { OfImage (λ file. IsReady D.models ⟦<PartSource<'t, D::At> as Source>⟧.size
        ⟦<PartSource<'t, D::At> as Source>⟧.read_faults contents (D.Image.Output.written file)
        (D.Image.Output.write_faults file)) (λ onto. IsReady D.models ⟦<PartSource<'t, D::At> as Source>⟧.size
        ⟦<PartSource<'t, D::At> as Source>⟧.read_faults contents (D.Onto.written onto) (D.Onto.write_faults onto))
        image }
    requires this { IsTrue D.models → OfImage
        (λ file. (D.Image.Output.write_frame file).file ≡ number_of (D.held disk.old).output)
        (λ onto. (D.Onto.write_frame onto).file ≡ number_of (D.held disk.old).output) image }
    ensures writes { IsTrue D.models → WritesBytes result (λ refusal. refusal.fault) (is_file image)
        (D.on_output (path_out output.entry)) (packed_image ⟦<PartSource<'t, D::At> as Source>⟧.content contents.entry)
        (D.held disk.old) (D.held disk.new) (D.world disk.old) (D.world disk.new) }
{
    match image {
        ImageTo::Stream(onto) => write_through(disk, onto, output, progress, contents, w, m),
        ImageTo::File(file) => write_over(disk, file, output, progress, contents, w, m),
    }
}

// The same for an output that is written from its first byte on.
fn write_through<'f, 't, 'a, D: Disk>(
    disk: &mut D,
    onto: D::Onto,
    output: FileArg<'t>,
    progress: &mut Progress,
    contents: ImageContents<'f, PartSource<'t, D::At>>,
    w: &mut Window,
    m: &mut Meter,
) -> Result<(u64, bool), Refusal<'t, BootCommandFault<'a>>>
    requires ready { IsReady D.models ⟦<PartSource<'t, D::At> as Source>⟧.size
        ⟦<PartSource<'t, D::At> as Source>⟧.read_faults contents (D.Onto.written onto) (D.Onto.write_faults onto) }
    requires this { IsTrue D.models → (D.Onto.write_frame onto).file ≡ number_of (D.held disk.old).output }
    ensures writes { IsTrue D.models → WritesBytes result (λ refusal. refusal.fault) false
        (D.on_output (path_out output.entry)) (packed_image ⟦<PartSource<'t, D::At> as Source>⟧.content contents.entry)
        (D.held disk.old) (D.held disk.new) (D.world disk.old) (D.world disk.new) }
{
    let mut contents = contents;
    let mut carried = Carried {
        device: onto,
        progress,
    };
    let answer = pack_contents(&mut contents, &mut carried, w, m);
    let Carried { device: onto, .. } = carried;
    let sides = sides_of(&contents);
    let_go(disk, contents);
    ended(
        disk,
        BootCommandFault::of_bytes(answer),
        onto,
        output,
        sides,
    )
}

// To a file that is written over.
fn write_over<'f, 't, 'a, D: Disk>(
    disk: &mut D,
    file: D::Image,
    output: FileArg<'t>,
    progress: &mut Progress,
    contents: ImageContents<'f, PartSource<'t, D::At>>,
    w: &mut Window,
    m: &mut Meter,
) -> Result<(u64, bool), Refusal<'t, BootCommandFault<'a>>>
    requires ready { IsReady D.models ⟦<PartSource<'t, D::At> as Source>⟧.size
        ⟦<PartSource<'t, D::At> as Source>⟧.read_faults contents (D.Image.Output.written file)
        (D.Image.Output.write_faults file) }
    requires this { IsTrue D.models → (D.Image.Output.write_frame file).file
        ≡ number_of (D.held disk.old).output }
    ensures writes { IsTrue D.models → WritesBytes result (λ refusal. refusal.fault) true
        (D.on_output (path_out output.entry)) (packed_image ⟦<PartSource<'t, D::At> as Source>⟧.content contents.entry)
        (D.held disk.old) (D.held disk.new) (D.world disk.old) (D.world disk.new) }
{
    let mut contents = contents;
    let (file, answer) = lay_image(&mut contents, file, progress, w, m);
    let sides = sides_of(&contents);
    let_go(disk, contents);
    match answer {
        Ok(bytes) => match disk.finish_image(file, output) {
            Ok(is_on_output) => Ok((bytes, is_on_output)),
            Err(refusal) => Err(refusal.into()),
        },
        Err(fault) => Err(stopped(disk, fault, file, output, sides)),
    }
}

// Closes a file, and fails with this fault.
fn stopped<'t, 'a, D: Disk>(
    disk: &mut D,
    fault: LayFault,
    file: D::Image,
    output: FileArg<'t>,
    sides: Sides<'t>,
) -> Refusal<'t, BootCommandFault<'a>>
    requires this { IsTrue D.models → (D.Image.Output.write_frame file).file
        ≡ number_of (D.held disk.old).output }
    ensures gone { LetsImageGo D.models (D.Image.Output.written file) (writes (D.Image.Output.write_faults file))
        (D.held disk.old) (D.held disk.new) (D.world disk.old) (D.world disk.new) }
    ensures told { result.fault ≡ lay_fault fault }
{
    let why = file.why();
    disk.give_up_image(file);
    match fault {
        LayFault::Magic => {
            let refused = HostRefusal::at(HostFault::Write, output, why).begun(output);
            refused.into()
        }
        LayFault::Packing(fault) => {
            let sides = sides.begun(output, why);
            sides.refuse(BootCommandFault::Section(fault))
        }
    }
}
