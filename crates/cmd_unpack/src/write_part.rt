//! Writes one part of an image to a file of its own.

ghost use Rattle.std.specs.Prelude.{◌≡◌, ◌<◌, ◌≤◌, ◌+◌, None, Ok, Err, Bool, true, MatchResult, IsTrue, IsOk};
ghost use Rattle.std.specs.Prelude.{IfOk, IfErr, OnOk, Some, length, slice_index_or};
ghost use Rattle.abt_headers.specs.declared.sections.SectionPlace.{SectionPlace};
ghost use Rattle.sys_refusals.specs.Blamed.{TellsOf, TellsRead};
ghost use Rattle.cmd_common_boot.specs.Fault.{boot_side_of};
ghost use Rattle.sys_disk.specs.Counts.{Cause, Counts, of_writing, writes};
ghost use Rattle.sys_disk.specs.World.{Ends, ended, number_of};
ghost use Rattle.sys_report.specs.Shows.{CannotPrint, ShowsBeside, refusals};
ghost use Rattle.abt_sections.specs.Header.{fragment_count, fragment_of, places_of, view_of};
ghost use Rattle.abt_sections.specs.Open.{IsOpened};
ghost use Rattle.sys_disk.specs.Among.{IsMade};
ghost use Rattle.cmd_common_boot.specs.ImageFaults.{IsAnswerOf, IsRefusedOver, SomeFailed};
ghost use Rattle.cmd_unpack.specs.Lines.{ShowsLineOf, ShowsSection, told_fragment, told_part, told_text};
ghost use Rattle.sys_refusals.specs.Paths.{path_out};
ghost use Rattle.cmd_unpack.specs.Unpacking.{IsFragmentPath, IsSectionPath, SectionDone, TellsOfPart, WordsDone};
ghost use Rattle.cmd_unpack.specs.Unpacking.{path_of_part};
ghost use Rattle.cmd_unpack.specs.Writing.{EndsPart, WritesParts};
ghost use Rattle.cmd_common_boot.specs.declared.part_names.ImagePart.TheVariants as parts;
ghost use Rattle.cmd_common_texts.specs.Words.{image_words, words_text};

use crate::copying::{copy_fragment, copy_section, copy_words};
use crate::lines::PartLine;
use crate::names::place_of;
use abt_io::{Meter, Window};
use abt_sections::{Image, SectionFault, section};
use cmd_common_boot::{BootCommandFault, BootOutcome, ImagePart};
use sys_disk::{Disk, ended};
use sys_refusals::{FileArg, Sides};
use sys_report::Report;

/// Writes section `i` to its file.
pub(crate) fn write_section<'t, 'a, D: Disk>(
    disk: &mut D,
    image: &Image,
    i: usize,
    source: &mut D::At,
    input: FileArg<'t>,
    folder: &'t str,
    report: &mut Report,
    w: &mut Window,
    m: &mut Meter,
) -> BootOutcome<'t, 'a>
    requires there { i < length (places_of (view_of image.now.header)) }
    requires one { IsTrue D.models → (D.held disk.old).output ≡ None }
    ensures writes { IsTrue D.models → WritesParts result 1 (IsSectionPath folder.now (view_of image.now.header)
        (i + 1))
        D.At.Source source.old source.new (D.held disk.old) (D.held disk.new) (D.world disk.old) (D.world disk.new) }
    ensures done { IsTrue D.models → OnOk result (SectionDone folder.now (view_of image.now.header)
        (D.At.content source.old) i (D.held disk.new) (D.world disk.new)) }
    ensures shown { IsTrue D.models → OnOk result (ShowsSection (λ part. D.on_output (path_of_part folder.now part))
        (view_of image.now.header) i report.old report.new) }
    ensures rises { OnOk result (refusals report.old ≤ refusals report.new) }
    ensures refused { IsTrue D.models → IsOpened (D.At.content source.old) image.now → IfErr result (λ refusal.
        IsRefusedOver (D.At.content source.old) (SomeFailed (D.held disk.old) (D.At.read_faults source.old)
        (D.held disk.new) (D.At.read_faults source.new)) (SectionDone folder.now (view_of image.now.header)
        (D.At.content source.old) i (D.held disk.new) (D.world disk.new) × CannotPrint report.old report.new)
        refusal.fault) }
    ensures told_of { IfErr result (λ refusal. TellsRead (boot_side_of refusal.fault) refusal.about.place
        (Some input.entry)) }
    ensures told_of_part { IfErr result (λ refusal. (p : SectionPlace)
        → p ≡ slice_index_or (places_of (view_of image.now.header)) i p
        → TellsOfPart refusal.fault refusal.about.place folder.now (parts.Section p.kind)) }
{
    let part = ImagePart::Section(section(image, i).kind);
    let place = place_of(part, folder);
    let onto = match disk.plain(place) {
        Ok(onto) => onto,
        Err(refusal) => return Err(refusal.into()),
    };
    let progress = &mut report.progress;
    let (onto, answer) = copy_section(image, i, source, onto, progress, w, m);
    match finish(disk, answer, onto, place, input, part, report) {
        Ok(()) => Ok(()),
        Err(refusal) => Err(refusal),
    }
}

/// Writes fragment `index` to its file.
pub(crate) fn write_fragment<'t, 'a, D: Disk>(
    disk: &mut D,
    image: &Image,
    index: u32,
    source: &mut D::At,
    input: FileArg<'t>,
    folder: &'t str,
    report: &mut Report,
    w: &mut Window,
    m: &mut Meter,
) -> BootOutcome<'t, 'a>
    requires there { index < fragment_count (view_of image.now.header) }
    requires one { IsTrue D.models → (D.held disk.old).output ≡ None }
    ensures writes { IsTrue D.models → WritesParts result 1
        (IsFragmentPath folder.now (view_of image.now.header) (index + 1)) D.At.Source source.old source.new
        (D.held disk.old) (D.held disk.new) (D.world disk.old) (D.world disk.new) }
    ensures done { IsTrue D.models → OnOk result (IsMade (D.held disk.new) (D.world disk.new)
        (path_of_part folder.now (parts.Fragment index))
        (fragment_of (D.At.content source.old) (view_of image.now.header) index)) }
    ensures shown { IsTrue D.models → OnOk result (ShowsLineOf (λ part. D.on_output (path_of_part folder.now part))
        (told_fragment (D.At.content source.old) (view_of image.now.header) index) report.old report.new) }
    ensures rises { OnOk result (refusals report.old ≤ refusals report.new) }
    ensures refused { IsTrue D.models → IsOpened (D.At.content source.old) image.now → IfErr result (λ refusal.
        IsRefusedOver (D.At.content source.old) (SomeFailed (D.held disk.old) (D.At.read_faults source.old)
        (D.held disk.new) (D.At.read_faults source.new)) (IsMade (D.held disk.new) (D.world disk.new)
        (path_of_part folder.now (parts.Fragment index)) (fragment_of (D.At.content source.old)
        (view_of image.now.header) index) × CannotPrint report.old report.new) refusal.fault) }
    ensures told_of { IfErr result (λ refusal. TellsRead (boot_side_of refusal.fault) refusal.about.place
        (Some input.entry)) }
    ensures told_of_part { IfErr result (λ refusal. TellsOfPart refusal.fault refusal.about.place folder.now
        (parts.Fragment index)) }
{
    let part = ImagePart::Fragment(index);
    let place = place_of(part, folder);
    let onto = match disk.plain(place) {
        Ok(onto) => onto,
        Err(refusal) => return Err(refusal.into()),
    };
    let progress = &mut report.progress;
    let (onto, answer) = copy_fragment(image, index, source, onto, progress, w, m);
    match finish(disk, answer, onto, place, input, part, report) {
        Ok(()) => Ok(()),
        Err(refusal) => Err(refusal),
    }
}

/// Writes the arguments that pack the image again to their file.
pub(crate) fn write_pack_words<'t, 'a, D: Disk>(
    disk: &mut D,
    image: &Image,
    source: &mut D::At,
    input: FileArg<'t>,
    folder: &'t str,
    report: &mut Report,
    w: &mut Window,
    m: &mut Meter,
) -> BootOutcome<'t, 'a>
    requires one { IsTrue D.models → (D.held disk.old).output ≡ None }
    ensures writes { IsTrue D.models → WritesParts result 1 (λ path. path ≡ path_of_part folder.now parts.Words)
        D.At.Source source.old source.new (D.held disk.old) (D.held disk.new) (D.world disk.old) (D.world disk.new) }
    ensures done { IsTrue D.models → OnOk result (WordsDone folder.now (view_of image.now.header)
        (D.At.content source.old) (D.held disk.new) (D.world disk.new)) }
    ensures shown { IsTrue D.models → OnOk result (ShowsLineOf (λ part. D.on_output (path_of_part folder.now part))
        (told_text (words_text (image_words folder.now (D.At.content source.old) (view_of image.now.header))))
        report.old report.new) }
    ensures refused { IsTrue D.models → IsOpened (D.At.content source.old) image.now → IfErr result (λ refusal.
        IsRefusedOver (D.At.content source.old) (SomeFailed (D.held disk.old) (D.At.read_faults source.old)
        (D.held disk.new) (D.At.read_faults source.new)) (WordsDone folder.now (view_of image.now.header)
        (D.At.content source.old) (D.held disk.new) (D.world disk.new) × CannotPrint report.old report.new)
        refusal.fault) }
    ensures told_of { IfErr result (λ refusal. TellsRead (boot_side_of refusal.fault) refusal.about.place
        (Some input.entry)) }
    ensures told_of_part { IfErr result (λ refusal. TellsOfPart refusal.fault refusal.about.place folder.now
        parts.Words) }
{
    let place = place_of(ImagePart::Words, folder);
    let onto = match disk.plain(place) {
        Ok(onto) => onto,
        Err(refusal) => return Err(refusal.into()),
    };
    let progress = &mut report.progress;
    let (onto, answer) = copy_words(image, folder, source, onto, progress, w, m);
    match finish(disk, answer, onto, place, input, ImagePart::Words, report) {
        Ok(()) => Ok(()),
        Err(refusal) => Err(refusal),
    }
}

// The result of a call that copied a part, after its file was closed and its line printed.
fn finish<'t, 'a, D: Disk>(
    disk: &mut D,
    answer: Result<u64, SectionFault>,
    onto: D::Onto,
    place: FileArg<'t>,
    input: FileArg<'t>,
    part: ImagePart,
    report: &mut Report,
) -> BootOutcome<'t, 'a>
    requires this { IsTrue D.models → (D.Onto.write_frame onto).file ≡ number_of (D.held disk.old).output }
    ensures done { OnOk result (IsOk answer) }
    ensures ends { EndsPart D.models result (D.Onto.written onto) (D.held disk.old) (D.world disk.old)
        (D.world disk.new) }
    ensures closed { IsTrue D.models → (b : Bool) × (n : Counts) × (D.held disk.new ≡ ended b n (D.held disk.old)) }
    ensures clean { IsTrue D.models → OnOk result (D.held disk.new
        ≡ ended true (writes (D.Onto.write_faults onto)) (D.held disk.old)) }
    ensures counts { IsTrue D.models → (cause : Cause) → (D.held disk.old).counts.failed cause
        + of_writing (D.Onto.write_faults onto) cause ≤ (D.held disk.new).counts.failed cause }
    ensures shown { IsTrue D.models → OnOk result (IfOk answer (λ bytes. ShowsBeside (D.on_output (path_out
        place.entry)) report.old report.new (told_part part bytes))) }
    ensures rises { OnOk result (refusals report.old ≤ refusals report.new) }
    ensures told { IsTrue D.models → IfErr result (λ refusal. IsAnswerOf answer
        (λ cause. (D.held disk.old).counts.failed cause + of_writing (D.Onto.write_faults onto) cause
        < (D.held disk.new).counts.failed cause)
        (Ends (D.held disk.old).output (D.Onto.written onto) (D.world disk.old) (D.world disk.new)
        × CannotPrint report.old report.new) refusal.fault) }
    ensures told_of { IfErr result (λ refusal. TellsOf (boot_side_of refusal.fault) refusal.about.place (Some input.entry)
        (Some place.entry)) }
{
    let sides = Sides::none().reading(input, None);
    let (bytes, is_on_output) = match ended(disk, of_answer(answer), onto, place, sides) {
        Ok(end) => end,
        Err(refusal) => return Err(refusal),
    };
    match report.line_beside(is_on_output, PartLine { part, bytes }) {
        Ok(()) => Ok(()),
        Err(refusal) => Err(refusal.into()),
    }
}

// The fault of a section as one of a command.
fn of_answer<'a>(answer: Result<u64, SectionFault>) -> Result<u64, BootCommandFault<'a>>
    ensures { MatchResult answer (λ n. result ≡ Ok n) (λ f. result ≡ Err (BootCommandFault.Section f)) }
{
    match answer {
        Ok(bytes) => Ok(bytes),
        Err(fault) => Err(BootCommandFault::Section(fault)),
    }
}
