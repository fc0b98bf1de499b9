//! Writes the parts of an image, each to the file of unpack_bootimg for it.

ghost use Rattle.std.specs.Prelude.{◌≡◌, ◌<◌, ◌+◌, ℕ, None, IsTrue, IfErr, OnOk, OnErr};
ghost use Rattle.sys_refusals.specs.Paths.{path_of};
ghost use Rattle.abt_sections.specs.Header.{view_of};
ghost use Rattle.abt_sections.specs.Open.{IsOpened};
ghost use Rattle.sys_disk.specs.Counts.{Counts};
ghost use Rattle.sys_disk.specs.World.{HasFailed, IsReading, MayWrite, counting};
ghost use Rattle.sys_disk.specs.Among.{OnlyAmong};
ghost use Rattle.sys_disk.specs.DiskCalls.{KeepsInput};
ghost use Rattle.cmd_common_boot.specs.ImageFaults.{SomeFailed};
ghost use Rattle.cmd_unpack.specs.Writing.{WritesParts};
ghost use Rattle.cmd_unpack_aosp.specs.AospFiles.{FilesDone, HasFreeFile, HaveFreeFiles, IsFileOf, IsFilePath};
ghost use Rattle.cmd_unpack_aosp.specs.AospFiles.{LooksAtFiles, RefusesName, RefusesPart};
ghost use Rattle.cmd_unpack_aosp.specs.AospFiles.{RefusesUnpack, UnpacksAsAosp, file_count};

use crate::names::{name_at, place_in};
use crate::write_part::write_file;
use abt_io::{Meter, Window};
use abt_sections::{Image, SectionFault, open};
use cmd_common_boot::{BootCommandFault, BootOutcome, part_count};
use sys_disk::Disk;
use sys_refusals::{FileArg, Refusal, Sides};
use sys_report::{Progress, Report};

/// Writes the parts of an image to files in a folder, each under its name in unpack_bootimg. It prints nothing.
///
/// Each file is opened when its turn comes. Where the image is one of the files to be written, no file is written.
pub fn unpack_as_aosp<'t, 'a, D: Disk>(
    disk: &mut D,
    report: &mut Report,
    input: FileArg<'t>,
    folder: &'t str,
    w: &mut Window,
    m: &mut Meter,
) -> BootOutcome<'t, 'a>
    requires first { IsTrue D.models → IsReading (D.held disk.old) }
    // each part of the image that IN holds is stored in the folder, in the tool's file for it
    ensures done { IsTrue D.models → OnOk result (UnpacksAsAosp (path_of input.entry) folder.now (D.world disk.old)
        (D.world disk.new)) }
    // whatever the outcome, only such files were created or changed, each at a path that may be written: it leads to no
    // device in use, unless such devices may be written
    ensures only { IsTrue D.models → OnlyAmong (λ path. IsFileOf (path_of input.entry) folder.now (D.world disk.old)
        path × MayWrite path (D.held disk.old)) (D.held disk.old).read (D.held disk.new).begun (D.world disk.old)
        (D.world disk.new) }
    // IN holds what it held; no call failed where all was done
    ensures keeps { KeepsInput D.models result (path_of input.entry) (D.held disk.old) (D.held disk.new)
        (D.world disk.old) (D.world disk.new) }
    // where the name of a part leads to IN's file, nothing was changed
    ensures looks { IsTrue D.models → LooksAtFiles (path_of input.entry) folder.now (D.world disk.old)
        (D.world disk.new) }
    // it fails for a fault of IN, or of what has failed: a device, or a call with this fault; or for a fragment without
    // a name
    ensures refused { IsTrue D.models → IfErr result (λ refusal. RefusesUnpack (path_of input.entry) (D.world disk.old)
        (λ cause. HasFailed cause (D.held disk.old) (D.held disk.new)) refusal.fault) }
    // nothing is printed: only the progress may be another
    ensures quiet { report.new ≡ record report.old { progress = report.new.progress } }
{
    let mut device = match disk.source(input) {
        Ok(device) => device,
        Err(refusal) => return Err(refusal.into()),
    };
    let image = match open(&mut device, w, m) {
        Ok(image) => image,
        Err(fault) => {
            disk.let_go_source(device);
            return Err(refused_in(input, fault));
        }
    };
    match refuse_taken(disk, &image, input, folder) {
        Ok(()) => {}
        Err(refusal) => {
            disk.let_go_source(device);
            return Err(refusal);
        }
    }
    let progress = &mut report.progress;
    match write_files(disk, &image, &mut device, input, folder, progress, w, m) {
        Ok(()) => {
            disk.let_go_source(device);
            Ok(())
        }
        Err(refusal) => {
            disk.let_go_source(device);
            Err(refusal)
        }
    }
}

// The fault of an image.
fn refused_in<'t, 'a>(input: FileArg<'t>, fault: SectionFault) -> Refusal<'t, BootCommandFault<'a>>
    ensures { result.fault ≡ BootCommandFault.Section fault }
{
    let sides = Sides::none().reading(input, None);
    sides.refuse(BootCommandFault::Section(fault))
}

// Fails where the image is one of the files to be written, or where a fragment has no name.
fn refuse_taken<'t, 'a, D: Disk>(
    disk: &mut D,
    image: &Image,
    input: FileArg<'t>,
    folder: &'t str,
) -> BootOutcome<'t, 'a>
    ensures free { IsTrue D.models → OnOk result (HaveFreeFiles folder.now (view_of image.now.header)
        (file_count (view_of image.now.header)) (D.held disk.old) (D.world disk.old)) }
    ensures held { IsTrue D.models → (n : Counts) × (D.held disk.new ≡ counting n (D.held disk.old)) }
    ensures clean { IsTrue D.models → OnOk result (D.held disk.new ≡ D.held disk.old) }
    ensures world { IsTrue D.models → D.world disk.new ≡ D.world disk.old }
    ensures refused { IsTrue D.models → IfErr result (λ refusal. RefusesName (view_of image.now.header)
        (λ cause. HasFailed cause (D.held disk.old) (D.held disk.new)) refusal.fault) }
{
    for i in 0..part_count(image, false) {
        match refuse_part(disk, image, i, input, folder) {
            Ok(()) => {}
            Err(refusal) => return Err(refusal),
        }
    }
    Ok(())
}

fn refuse_part<'t, 'a, D: Disk>(
    disk: &mut D,
    image: &Image,
    i: u64,
    input: FileArg<'t>,
    folder: &'t str,
) -> BootOutcome<'t, 'a>
    requires there { i < file_count (view_of image.now.header) }
    ensures free { IsTrue D.models → OnOk result (HasFreeFile folder.now (view_of image.now.header) (D.held disk.old)
        (D.world disk.old) i) }
    ensures held { IsTrue D.models → (n : Counts) × (D.held disk.new ≡ counting n (D.held disk.old)) }
    ensures clean { IsTrue D.models → OnOk result (D.held disk.new ≡ D.held disk.old) }
    ensures world { IsTrue D.models → D.world disk.new ≡ D.world disk.old }
    ensures refused { IsTrue D.models → IfErr result (λ refusal. RefusesName (view_of image.now.header)
        (λ cause. HasFailed cause (D.held disk.old) (D.held disk.new)) refusal.fault) }
{
    let name = match name_at(image, i) {
        Ok(Some(name)) => name,
        Ok(None) => return Ok(()),
        Err(fault) => return Err(refused_in(input, fault)),
    };
    match disk.refuse_taken(place_in(folder, name)) {
        Ok(()) => Ok(()),
        Err(refusal) => Err(refusal.into()),
    }
}

// Writes each part to its file.
fn write_files<'t, 'a, D: Disk>(
    disk: &mut D,
    image: &Image,
    source: &mut D::At,
    input: FileArg<'t>,
    folder: &'t str,
    progress: &mut Progress,
    w: &mut Window,
    m: &mut Meter,
) -> BootOutcome<'t, 'a>
    requires one { IsTrue D.models → (D.held disk.old).output ≡ None }
    ensures writes { IsTrue D.models → (n : ℕ) × WritesParts result n (IsFilePath folder.now (view_of image.now.header)
        (file_count (view_of image.now.header))) D.At.Source source.old source.new (D.held disk.old)
        (D.held disk.new) (D.world disk.old) (D.world disk.new) }
    ensures done { IsTrue D.models → OnOk result (FilesDone folder.now (view_of image.now.header)
        (D.At.content source.old) (file_count (view_of image.now.header)) (D.held disk.new) (D.world disk.new)) }
    ensures refused { IsTrue D.models → IsOpened (D.At.content source.old) image.now → IfErr result (λ refusal.
        RefusesPart (D.At.content source.old) (view_of image.now.header) (SomeFailed (D.held disk.old)
        (D.At.read_faults source.old) (D.held disk.new) (D.At.read_faults source.new)) refusal.fault) }
{
    for i in 0..part_count(image, false) {
        match write_file(disk, image, i, source, input, folder, progress, w, m) {
            Ok(()) => {}
            Err(refusal) => return Err(refusal),
        }
    }
    Ok(())
}
