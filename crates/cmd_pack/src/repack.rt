//! The command `repack`: packs an image with other parts and fields, and keeps everything else.

ghost use Rattle.std.specs.Prelude.{◌≡◌, ◌+◌, ◌++◌, [], IsTrue, IfErr, IfOk, OnOk, map};
ghost use Rattle.sys_disk.specs.World.{HasFailed, IsReading};
ghost use Rattle.sys_report.specs.Shows.{ShowsBeside, Unprinted};
ghost use Rattle.sys_refusals.specs.Paths.{output_path, path_of};
ghost use Rattle.abt_sections.specs.Cause.{total};
ghost use Rattle.abt_sections.specs.Fields.{cmd_common_fields};
ghost use Rattle.abt_sections.specs.Header.{view_of};
ghost use Rattle.abt_sections.specs.Open.{IsOpened};
ghost use Rattle.cmd_common_boot.specs.ImageFaults.{NoMoreFailed, SomeFailed};
ghost use Rattle.cmd_common_fields.specs.Fields.{text_of};
ghost use Rattle.cmd_common_fields.specs.Kind.{kind_of, version_of};
ghost use Rattle.cmd_common_findings.specs.LeftOut.{cmdline_of};
ghost use Rattle.cmd_pack_outputs.specs.Contents.{packing_of};
ghost use Rattle.cmd_pack.specs.Filling.{FillsAll};
ghost use Rattle.cmd_pack_inputs.specs.Opening.{OpensEach};
ghost use Rattle.cmd_pack_inputs.specs.Own.{kept_behind};
ghost use Rattle.cmd_pack_inputs.specs.Parts.{IsFragmentInput, IsGivenPath};
ghost use Rattle.cmd_pack.specs.RefusingAgain.{RefusesAgain, RefusesRepack, StopsFillingAgain};
ghost use Rattle.cmd_pack.specs.Repacking.{AreAskedAgain, AreFragmentsAgain, IsAtHand, IsPackedAgain, IsRepackedOf};
ghost use Rattle.cmd_pack.specs.Repacking.{KeepsGivenAgain, KeepsRead, PacksAgain, RepacksFile, ShowsFirst};
ghost use Rattle.cmd_pack_outputs.specs.Writing.{LeavesOut};

use crate::filling::filled;
use crate::telling::tell_left_out;
use abt_io::{Meter, Source, Window};
use abt_sections::BootSpec;
use cmd_common_boot::{
    BootCommandFault, BootOutcome, PackCommand, PackTexts, PartSource, with_given,
};
use cmd_common_fields::ImageKind;
use cmd_common_findings::LeftOut;
use cmd_pack_inputs::{
    Own, OwnData, Ramdisks, judged, open_fragments, open_own, open_parts, output_at, own_fields,
    own_fragments, trailing_of,
};
use cmd_pack_outputs::{ImageContents, write_image};
use std::alloc::Global;
use sys_disk::Disk;
use sys_refusals::{FileArg, HostRefusal, Refusal, Sides};
use sys_report::Report;

/// Packs an image again, with the given parts and fields replaced, and prints how many bytes it has.
///
/// The image and the parts are open before OUT is created or emptied. Bytes of the image for which the packed image
/// has no place are counted on standard error.
pub fn repack_file<'t, 'a, D: Disk>(
    disk: &mut D,
    report: &mut Report,
    input: FileArg<'t>,
    command: &'t PackCommand<'a>,
    w: &mut Window,
    m: &mut Meter,
) -> BootOutcome<'t, 'a>
    requires first { IsTrue D.models → IsReading (D.held disk.old) }
    // OUT is another file than IN and the given ones, and holds the image that IN's image is packed to; the printed
    // line has its size, on standard error where OUT is where standard output goes
    ensures done { IsTrue D.models → OnOk result (RepacksFile (path_of input.entry) command.now (D.world disk.old)
        (D.world disk.new) (ShowsFirst (D.on_output (output_path command.now.output.now)) report.old report.new)) }
    // whatever the outcome, only OUT may hold anything else, IN and the given files hold what they held, and OUT's
    // file has no part of an image; after an Ok no call failed
    ensures left { IsTrue D.models → LeavesOut result (output_path command.now.output.now)
        (D.is_over (output_path command.now.output.now)) (IsRepackedOf (path_of input.entry) command.now
        (D.world disk.old)) (D.held disk.old) (D.held disk.new) (D.world disk.old) (D.world disk.new) }
    ensures inputs { IsTrue D.models → KeepsRead (path_of input.entry) command.now (D.world disk.old)
        (D.world disk.new) }
    // each fault has its cause: in IN's bytes, in the arguments or in what is packed, before OUT is opened; or a call
    // has failed; or everything was done and the line failed
    ensures refused { IsTrue D.models → IfErr result (λ refusal. RefusesRepack (path_of input.entry) command.now
        (D.world disk.old) (D.world disk.new) (D.held disk.old) (D.held disk.new) (RepacksFile (path_of input.entry)
        command.now (D.world disk.old) (D.world disk.new) (Unprinted report.old report.new)) refusal.fault) }
{
    let mut own = match open_own(disk, input, w, m) {
        Ok(own) => own,
        Err(refusal) => return Err(refusal),
    };
    let answer = pack_again(disk, report, &mut own, command, w, m);
    disk.let_go_source(own.source);
    match answer {
        Ok(left) => {
            tell_left_out(report, left);
            Ok(())
        }
        Err(refusal) => Err(refusal),
    }
}

// Packs the open image again, and returns what is left out of it.
fn pack_again<'t, 'a, D: Disk>(
    disk: &mut D,
    report: &mut Report,
    own: &mut Own<'t, D::At>,
    command: &'t PackCommand<'a>,
    w: &mut Window,
    m: &mut Meter,
) -> Result<LeftOut, Refusal<'t, BootCommandFault<'a>>>
    requires first { IsTrue D.models → IsReading (D.held disk.old) }
    requires opened { IsTrue D.At.models → IsOpened (D.At.content own.old.source) own.old.image }
    ensures done { IsTrue D.models → OnOk result (PacksAgain command.now (D.At.content own.old.source)
        (view_of own.old.image.header) (D.held disk.old).read (D.world disk.old) (D.world disk.new)
        (ShowsBeside (D.on_output (output_path command.now.output.now)) report.old report.new)) }
    ensures clean { IsTrue D.models → OnOk result (NoMoreFailed (D.held disk.old) (D.At.read_faults own.old.source)
        (D.held disk.new) (D.At.read_faults own.new.source)) }
    ensures left { IsTrue D.models → LeavesOut result (output_path command.now.output.now)
        (D.is_over (output_path command.now.output.now)) (IsPackedAgain command.now (D.At.content own.old.source)
        (view_of own.old.image.header) (D.world disk.old))
        (D.held disk.old) (D.held disk.new) (D.world disk.old) (D.world disk.new) }
    ensures given { IsTrue D.models → KeepsGivenAgain command.now (view_of own.old.image.header) (D.world disk.old)
        (D.world disk.new) }
    ensures refused { IsTrue D.models → IfErr result (λ refusal. RefusesAgain command.now (D.At.content own.old.source)
        (view_of own.old.image.header) (D.world disk.old) (D.world disk.new) (SomeFailed (D.held disk.old)
        (D.At.read_faults own.old.source) (D.held disk.new) (D.At.read_faults own.new.source)) (PacksAgain command.now
        (D.At.content own.old.source) (view_of own.old.image.header) (D.held disk.old).read (D.world disk.old)
        (D.world disk.new) (Unprinted report.old report.new)) refusal.fault) }
{
    let kind = ImageKind::of_header(&own.image.header);
    let kept = match judged(&own.image, &mut own.source, kind, command, w, m) {
        Ok(kept) => kept,
        Err(why) => {
            let fault = why.counted(disk);
            return Err(of_own(own.place, fault));
        }
    };
    match write_again(disk, report, own, kind, &kept, command, w, m) {
        Ok(()) => Ok(kept.left),
        Err(refusal) => Err(refusal),
    }
}

// A fault of the arguments, where the image is open.
fn of_own<'t, 'a>(
    input: FileArg<'t>,
    fault: BootCommandFault<'a>,
) -> Refusal<'t, BootCommandFault<'a>>
    ensures { result.fault ≡ fault.entry }
{
    Sides::none().reading(input, None).refuse(fault)
}

// Writes the image again, as the arguments describe it.
fn write_again<'t, 'a, D: Disk>(
    disk: &mut D,
    report: &mut Report,
    own: &Own<'t, D::At>,
    kind: ImageKind,
    kept: &OwnData,
    command: &'t PackCommand<'a>,
    w: &mut Window,
    m: &mut Meter,
) -> BootOutcome<'t, 'a>
    requires first { IsTrue D.models → IsReading (D.held disk.old) }
    requires own { IsAtHand D.At.models D.At.content own.now kept.now command.now.texts kind }
    requires cmdline { kept.now.cmdline.items ≡ text_of (cmdline_of (view_of own.now.image.header)) }
    ensures done { IsTrue D.models → OnOk result (PacksAgain command.now (D.At.content own.now.source)
        (view_of own.now.image.header) (D.held disk.old).read (D.world disk.old) (D.world disk.new)
        (ShowsBeside (D.on_output (output_path command.now.output.now)) report.old report.new)) }
    ensures left { IsTrue D.models → LeavesOut result (output_path command.now.output.now)
        (D.is_over (output_path command.now.output.now)) (IsPackedAgain command.now (D.At.content own.now.source)
        (view_of own.now.image.header) (D.world disk.old))
        (D.held disk.old) (D.held disk.new) (D.world disk.old) (D.world disk.new) }
    ensures given { IsTrue D.models → KeepsGivenAgain command.now (view_of own.now.image.header) (D.world disk.old)
        (D.world disk.new) }
    ensures refused { IsTrue D.models → IfErr result (λ refusal. RefusesAgain command.now (D.At.content own.now.source)
        (view_of own.now.image.header) (D.world disk.old) (D.world disk.new)
        (λ cause. HasFailed cause (D.held disk.old) (D.held disk.new)) (PacksAgain command.now
        (D.At.content own.now.source) (view_of own.now.image.header) (D.held disk.old).read (D.world disk.old)
        (D.world disk.new) (Unprinted report.old report.new)) refusal.fault) }
{
    let own_fields = own_fields(&own.image.header, kept.cmdline.as_slice());
    let fields = match with_given(own_fields, kind, command.page, &command.texts) {
        Ok(fields) => fields,
        Err(fault) => return Err(of_own(own.place, fault)),
    };
    let contents = match contents_of(disk, own, fields, kind, kept, command) {
        Ok(contents) => contents,
        Err(refusal) => return Err(refusal),
    };
    let output = output_at(&*command.output);
    match write_image(disk, report, command.alloc, contents, output, w, m) {
        Ok(()) => Ok(()),
        Err(refusal) => Err(refusal),
    }
}

// The data from which the image is written: what was given, and else the image's own.
fn contents_of<'t, 'f, 'a, D: Disk>(
    disk: &mut D,
    own: &Own<'t, D::At>,
    fields: BootSpec<'f>,
    kind: ImageKind,
    kept: &OwnData,
    command: &'t PackCommand<'a>,
) -> Result<ImageContents<'f, PartSource<'t, D::At>>, Refusal<'t, BootCommandFault<'a>>>
    requires versioned { fields.version ≡ version_of kind }
    requires first { IsTrue D.models → (D.held disk.old).begun ≡ [] }
    requires own { IsAtHand D.At.models D.At.content own.now kept.now command.now.texts kind }
    ensures asked { IsTrue D.models → IfOk result (λ contents. AreAskedAgain command.now (D.world disk.old)
        (D.At.content own.now.source) (view_of own.now.image.header) (cmd_common_fields fields.entry)
        (packing_of ⟦<PartSource<'t, D::At> as Source>⟧.content contents)) }
    ensures behind { IsTrue D.models → IfOk result (λ contents.
        ⟦<PartSource<'t, D::At> as Source>⟧.content contents.trailing ≡ kept_behind command.now.keeps_trailing
        (D.At.content own.now.source) (view_of own.now.image.header)) }
    ensures fills { FillsAll D.models result kind (IsGivenPath command.now.texts kind)
        ⟦<PartSource<'t, D::At> as Source>⟧.size ⟦<PartSource<'t, D::At> as Source>⟧.read_faults
        (D.held disk.old) (D.held disk.new) (D.world disk.old) (D.world disk.new) }
    ensures refused { IsTrue D.models → IfErr result (λ refusal. StopsFillingAgain command.now (D.world disk.old)
        (D.At.content own.now.source) (view_of own.now.image.header) (λ cause. HasFailed cause (D.held disk.old)
        (D.held disk.new)) refusal.fault) }
{
    let texts = &command.texts;
    let ramdisks = match ramdisks_of(disk, command.alloc, own, kept, texts) {
        Ok(ramdisks) => ramdisks,
        Err(refusal) => return Err(refusal.into()),
    };
    let parts = match open_parts(disk, command.alloc, kind, texts, Some(own)) {
        Ok(parts) => parts,
        Err(refusal) => return Err(refusal.into()),
    };
    let ramdisks = match ramdisks.with_board_ids(command.board_ids.as_slice()) {
        Ok(ramdisks) => ramdisks,
        Err(refusal) => return Err(refusal),
    };
    match trailing_of(disk, own, command.keeps_trailing) {
        Ok(trailing) => Ok(filled(kind, fields, texts, parts, ramdisks, trailing)),
        Err(refusal) => Err(refusal.into()),
    }
}

// The given fragments, or else the image's own.
fn ramdisks_of<'t, D: Disk>(
    disk: &mut D,
    alloc: Global,
    own: &Own<'t, D::At>,
    kept: &OwnData,
    texts: &'t PackTexts<'_>,
) -> Result<Ramdisks<'t, D::At>, HostRefusal<'t>>
    requires first { IsTrue D.models → (D.held disk.old).begun ≡ [] }
    requires own { IsAtHand D.At.models D.At.content own.now kept.now texts.now
        (kind_of (view_of own.now.image.header)) }
    ensures fragments { IsTrue D.models → IfOk result (λ all. AreFragmentsAgain (D.world disk.old)
        texts.now.fragments.items (D.At.content own.now.source) (view_of own.now.image.header) all.specs.items
        (map ⟦<PartSource<'t, D::At> as Source>⟧.content all.sources.items)) }
    ensures opens { OpensEach D.models result (IsFragmentInput texts.now.fragments.items)
        (λ all. total ⟦<PartSource<'t, D::At> as Source>⟧.read_faults all.sources.items) 0
        (D.held disk.old) (D.held disk.new) (D.world disk.old) (D.world disk.new) }
{
    if texts.fragments.as_slice().is_empty() {
        own_fragments(disk, alloc, own, kept.entries.as_slice())
    } else {
        open_fragments(disk, alloc, texts)
    }
}
