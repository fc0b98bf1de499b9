//! The command `pack`: makes a boot image or a vendor boot image from its parts.

ghost use Rattle.std.specs.Prelude.{◌≡◌, ◌+◌, [], IsTrue, IfErr, IfOk, OnOk, length};
ghost use Rattle.std.specs.List.{All};
ghost use Rattle.sys_refusals.specs.Paths.{output_path};
ghost use Rattle.sys_disk.specs.World.{IsReading};
ghost use Rattle.sys_report.specs.Shows.{ShowsBeside, Unprinted};
ghost use Rattle.abt_sections.specs.Fields.{cmd_common_fields};
ghost use Rattle.cmd_common_fields.specs.Kind.{version_of};
ghost use Rattle.cmd_common_boot.specs.Carried.{IsTaken};
ghost use Rattle.cmd_pack_outputs.specs.Contents.{packing_of};
ghost use Rattle.cmd_pack.specs.Filling.{FillsAll};
ghost use Rattle.cmd_pack.specs.Packing.{AreAskedFor, IsPackedBy, KeepsGiven, PacksFile, board_id_words, asked_kind};
ghost use Rattle.cmd_pack_inputs.specs.Parts.{IsGivenPath};
ghost use Rattle.cmd_pack.specs.Refusing.{RefusesPack, StopsFilling};
ghost use Rattle.cmd_pack_outputs.specs.Writing.{LeavesOut};

use crate::filling::filled;
use abt_io::{Meter, Source, Window};
use abt_sections::BootSpec;
use cmd_common_boot::{BootCommandFault, BootOutcome, PackCommand, PartSource, judge_words};
use cmd_common_fields::ImageKind;
use cmd_pack_inputs::{open_fragments, open_parts, output_at};
use cmd_pack_outputs::{ImageContents, write_image};
use sys_disk::Disk;
use sys_refusals::Refusal;
use sys_report::Report;

/// Packs the image that the arguments describe, and prints how many bytes it has.
///
/// The arguments are checked before any file is opened, and the parts are open before OUT is created or emptied.
pub fn pack_file<'t, 'a, D: Disk>(
    disk: &mut D,
    report: &mut Report,
    command: &'t PackCommand<'a>,
    w: &mut Window,
    m: &mut Meter,
) -> BootOutcome<'t, 'a>
    requires first { IsTrue D.models → IsReading (D.held disk.old) }
    // OUT is another file than the given ones, and holds the image that the arguments describe, of what these files
    // hold; the printed line has its size, on standard error where OUT is where standard output goes
    ensures done { IsTrue D.models → OnOk result (PacksFile command.now (D.world disk.old) (D.world disk.new)
        (ShowsBeside (D.on_output (output_path command.now.output.now)) report.old report.new)) }
    // whatever the outcome, only OUT may hold anything else, the given files hold what they held, and OUT's file has
    // no part of an image; after an Ok no call failed
    ensures left { IsTrue D.models → LeavesOut result (output_path command.now.output.now)
        (D.is_over (output_path command.now.output.now)) (IsPackedBy command.now (D.world disk.old))
        (D.held disk.old) (D.held disk.new) (D.world disk.old) (D.world disk.new) }
    ensures inputs { IsTrue D.models → KeepsGiven command.now (D.world disk.old) (D.world disk.new) }
    // each fault has its cause: in the arguments, before anything is opened; in what is packed, before OUT is; or a
    // call has failed; or everything was done and the line failed
    ensures refused { IsTrue D.models → IfErr result (λ refusal. RefusesPack command.now (D.world disk.old)
        (D.world disk.new) (D.held disk.old) (D.held disk.new) (PacksFile command.now (D.world disk.old)
        (D.world disk.new) (Unprinted report.old report.new)) refusal.fault) }
{
    let (kind, fields) = match judge_words(command) {
        Ok(judged) => judged,
        Err(fault) => return Err(Refusal::of(fault)),
    };
    let contents = match contents_of(disk, kind, fields, command) {
        Ok(contents) => contents,
        Err(refusal) => return Err(refusal),
    };
    let output = output_at(&*command.output);
    match write_image(disk, report, command.alloc, contents, output, w, m) {
        Ok(()) => Ok(()),
        Err(refusal) => Err(refusal),
    }
}

// All that the image is written from.
fn contents_of<'t, 'a, D: Disk>(
    disk: &mut D,
    kind: ImageKind,
    fields: BootSpec<'t>,
    command: &'t PackCommand<'a>,
) -> Result<ImageContents<'t, PartSource<'t, D::At>>, Refusal<'t, BootCommandFault<'a>>>
    requires first { IsTrue D.models → (D.held disk.old).begun ≡ [] }
    requires kind { kind ≡ asked_kind command.now }
    requires versioned { fields.version ≡ version_of kind }
    requires taken { All (IsTaken kind) command.now.texts.fragments.items }
    ensures asked { IsTrue D.models → IfOk result (λ contents. AreAskedFor command.now (D.world disk.old)
        (cmd_common_fields fields.entry) (packing_of ⟦<PartSource<'t, D::At> as Source>⟧.content contents)) }
    ensures alone { IfOk result (λ contents. ⟦<PartSource<'t, D::At> as Source>⟧.content contents.trailing ≡ []) }
    ensures fills { FillsAll D.models result kind (IsGivenPath command.now.texts kind)
        ⟦<PartSource<'t, D::At> as Source>⟧.size ⟦<PartSource<'t, D::At> as Source>⟧.read_faults
        (D.held disk.old) (D.held disk.new) (D.world disk.old) (D.world disk.new) }
    ensures refused { IsTrue D.models → IfErr result (λ refusal. StopsFilling (IsGivenPath command.now.texts kind)
        (board_id_words command.now) (length command.now.texts.fragments.items) (D.held disk.old) (D.held disk.new)
        refusal.fault) }
{
    let texts = &command.texts;
    let parts = match open_parts(disk, command.alloc, kind, texts, None) {
        Ok(parts) => parts,
        Err(refusal) => return Err(refusal.into()),
    };
    let ramdisks = match open_fragments(disk, command.alloc, texts) {
        Ok(ramdisks) => ramdisks,
        Err(refusal) => return Err(refusal.into()),
    };
    match ramdisks.with_board_ids(command.board_ids.as_slice()) {
        Ok(ramdisks) => Ok(filled(kind, fields, texts, parts, ramdisks, PartSource::empty())),
        Err(refusal) => Err(refusal),
    }
}
