//! The command `unpack`: writes each section and ramdisk fragment of an image to a file of its own.

ghost use Rattle.std.specs.Prelude.{◌≡◌, Some, IsTrue, IfErr, OnOk};
ghost use Rattle.sys_refusals.specs.Blamed.{TellsRead};
ghost use Rattle.sys_refusals.specs.Paths.{path_of};
ghost use Rattle.sys_disk.specs.Counts.{failure_of};
ghost use Rattle.sys_disk.specs.World.{HasFailed, IsReading, MayWrite};
ghost use Rattle.sys_disk.specs.Among.{OnlyAmong};
ghost use Rattle.sys_disk.specs.DiskCalls.{FailsOnly, KeepsInput};
ghost use Rattle.sys_report.specs.Shows.{CannotPrint};
ghost use Rattle.cmd_common_boot.specs.Fault.{boot_side_of};
ghost use Rattle.cmd_common_boot.specs.ImageFaults.{RefusesImage};
ghost use Rattle.cmd_unpack.specs.Lines.{ShowsEach};
ghost use Rattle.cmd_common_boot.specs.Unpacked.{part_count};
ghost use Rattle.abt_sections.specs.Header.{view_of};
ghost use Rattle.cmd_unpack.specs.Unpacking.{HaveFreeNames, IsPartOf, LeavesParts, LooksAtParts, PartsStand, SyncsParts};
ghost use Rattle.cmd_unpack.specs.Unpacking.{Unpacks, path_of_part};

use crate::names::place_of;
use crate::parts::write_parts;
use abt_io::{Meter, Window};
use abt_sections::{Image, SectionFault, open};
use cmd_common_boot::{BootCommandFault, BootOutcome, part_count, part_of};
use sys_disk::Disk;
use sys_refusals::{FileArg, HostRefusal, Refusal, Sides};
use sys_report::Report;

/// Writes each section, then each ramdisk fragment of an image to a file in a folder, and arguments to pack it again.
///
/// Each file is opened when its turn comes, and its line is printed when the file is complete. Where the image is one
/// of the files to be written, no file is written.
pub fn unpack_file<'t, 'a, D: Disk>(
    disk: &mut D,
    report: &mut Report,
    input: FileArg<'t>,
    folder: &'t str,
    with_words: bool,
    w: &mut Window,
    m: &mut Meter,
) -> BootOutcome<'t, 'a>
    requires first { IsTrue D.models → IsReading (D.held disk.old) }
    // each part of the image that IN holds is stored in the folder under its name; a line was printed of each, to
    // standard error once a part's file is where standard output goes
    ensures done { IsTrue D.models → OnOk result (Unpacks (path_of input.entry) folder.now with_words (D.world disk.old)
        (D.world disk.new) (λ told. ShowsEach (λ part. D.on_output (path_of_part folder.now part)) told report.old
        report.new)) }
    // each was synced, where that is requested
    ensures synced { IsTrue D.models → OnOk result (SyncsParts (path_of input.entry) with_words (D.world disk.old)
        (D.held disk.old) (D.held disk.new)) }
    // whatever the outcome, only such files were created or changed
    ensures only { IsTrue D.models → OnlyAmong (IsPartOf (path_of input.entry) folder.now with_words (D.world disk.old))
        (D.held disk.old).read (D.held disk.new).begun (D.world disk.old) (D.world disk.new) }
    // and each is at a path that may be written: it leads to no device in use, unless such devices may be written
    ensures guarded { IsTrue D.models → OnlyAmong (λ path. IsPartOf (path_of input.entry) folder.now with_words
        (D.world disk.old) path × MayWrite path (D.held disk.old)) (D.held disk.old).read (D.held disk.new).begun
        (D.world disk.old) (D.world disk.new) }
    // IN holds what it held; no call failed where all was done
    ensures keeps { KeepsInput D.models result (path_of input.entry) (D.held disk.old) (D.held disk.new)
        (D.world disk.old) (D.world disk.new) }
    // where the name of a part leads to IN's file, nothing was changed
    ensures looks { IsTrue D.models → LooksAtParts (path_of input.entry) folder.now with_words (D.world disk.old)
        (D.world disk.new) }
    // after an Err, the parts before the one at fault are stored, and no file but theirs and its own was changed; a
    // fault of what is written is told of its file
    ensures stands { IsTrue D.models → IfErr result (λ refusal. LeavesParts (path_of input.entry) folder.now
        refusal.fault refusal.about.place (D.held disk.old) (D.held disk.new) (D.world disk.old) (D.world disk.new)) }
    // and one of what is read is told of IN
    ensures told_of { IfErr result (λ refusal. TellsRead (boot_side_of refusal.fault) refusal.about.place
        (Some input.entry)) }
    // it fails for a fault of IN, or of what has failed: a device, or a call with this fault; or a part is written, but
    // its line could not be printed
    ensures refused { IsTrue D.models → IfErr result (λ refusal. RefusesImage (path_of input.entry) (D.world disk.old)
        (λ cause. HasFailed cause (D.held disk.old) (D.held disk.new)) (PartsStand (path_of input.entry) folder.now
        with_words (D.world disk.old) (D.held disk.new) (D.world disk.new) × CannotPrint report.old report.new)
        refusal.fault) }
{
    let mut device = match disk.source(input) {
        Ok(device) => device,
        Err(refusal) => return Err(refusal.into()),
    };
    let image = match open(&mut device, w, m) {
        Ok(image) => image,
        Err(fault) => {
            disk.let_go_source(device);
            return Err(not_opened(input, fault));
        }
    };
    match refuse_taken(disk, &image, folder, with_words) {
        Ok(()) => {}
        Err(refusal) => {
            disk.let_go_source(device);
            return Err(refusal.into());
        }
    }
    match write_parts(
        disk,
        &image,
        &mut device,
        input,
        folder,
        with_words,
        report,
        w,
        m,
    ) {
        Ok(()) => {
            disk.let_go_source(device);
            Ok(())
        }
        Err(refusal) => {
            disk.let_go_source(device);
            Err(refusal)
        }
    }
}

// The fault of a file that holds no image.
fn not_opened<'t, 'a>(input: FileArg<'t>, fault: SectionFault) -> Refusal<'t, BootCommandFault<'a>>
    ensures fault { result.fault ≡ BootCommandFault.Section fault }
    ensures told_of { TellsRead (boot_side_of result.fault) result.about.place (Some input.entry) }
{
    let sides = Sides::none().reading(input, None);
    sides.refuse(BootCommandFault::Section(fault))
}

// Fails where the image is one of the files to be written.
fn refuse_taken<'t, D: Disk>(
    disk: &mut D,
    image: &Image,
    folder: &'t str,
    with_words: bool,
) -> Result<(), HostRefusal<'t>>
    ensures free { IsTrue D.models → OnOk result (HaveFreeNames folder.now (view_of image.now.header)
        (part_count (view_of image.now.header) with_words) (D.held disk.old) (D.world disk.old)) }
    ensures fails { FailsOnly D.models (failure_of result) (D.held disk.old) (D.held disk.new) (D.world disk.old)
        (D.world disk.new) }
{
    for i in 0..part_count(image, with_words) {
        match disk.refuse_taken(place_of(part_of(image, i), folder)) {
            Ok(()) => {}
            Err(refusal) => return Err(refusal),
        }
    }
    Ok(())
}
