//! Writes all parts of an image, one after another.

ghost use Rattle.std.specs.Prelude.{◌≡◌, ◌<◌, ◌≤◌, ◌+◌, ℕ, None, Some, IsTrue, IfErr, OnOk, length, map};
ghost use Rattle.std.specs.Prelude.{slice_index_or};
ghost use Rattle.abt_headers.specs.declared.sections.SectionPlace.{SectionPlace};
ghost use Rattle.sys_refusals.specs.Blamed.{TellsRead};
ghost use Rattle.cmd_common_boot.specs.Fault.{boot_side_of};
ghost use Rattle.cmd_common_boot.specs.declared.part_names.ImagePart.TheVariants as parts;
ghost use Rattle.cmd_common_texts.specs.Words.{image_words, words_text};
ghost use Rattle.abt_sections.specs.Header.{fragment_count, places_of, view_of};
ghost use Rattle.abt_sections.specs.Open.{IsOpened};
ghost use Rattle.sys_disk.specs.Among.{GoesAmong};
ghost use Rattle.sys_report.specs.Shows.{CannotPrint, refusals};
ghost use Rattle.cmd_common_boot.specs.ImageFaults.{IsRefusedOver, SomeFailed};
ghost use Rattle.cmd_unpack.specs.Lines.{ShowsEach, told_fragments, told_parts, told_section};
ghost use Rattle.cmd_unpack.specs.Unpacking.{FragmentsDone, IsFragmentPath, IsPartPath, IsSectionPath, PartsBegun};
ghost use Rattle.cmd_unpack.specs.Unpacking.{PartsLeft, SectionsDone, TellsOfPart, WordsDone, part_total, path_of_part};
ghost use Rattle.cmd_unpack.specs.Writing.{WritesParts};

use crate::write_part::{write_fragment, write_pack_words, write_section};
use abt_io::{Meter, Window};
use abt_sections::{Image, fragments, sections};
use cmd_common_boot::BootOutcome;
use sys_disk::Disk;
use sys_refusals::FileArg;
use sys_report::Report;

/// Writes each section, each fragment, and maybe the arguments.
pub(crate) fn write_parts<'t, 'a, D: Disk>(
    disk: &mut D,
    image: &Image,
    source: &mut D::At,
    input: FileArg<'t>,
    folder: &'t str,
    with_words: bool,
    report: &mut Report,
    w: &mut Window,
    m: &mut Meter,
) -> BootOutcome<'t, 'a>
    requires one { IsTrue D.models → (D.held disk.old).output ≡ None }
    ensures writes { IsTrue D.models → WritesParts result (part_total with_words (view_of image.now.header))
        (IsPartPath folder.now with_words (view_of image.now.header)) D.At.Source source.old source.new
        (D.held disk.old) (D.held disk.new) (D.world disk.old) (D.world disk.new) }
    ensures sections { IsTrue D.models → OnOk result (SectionsDone folder.now (view_of image.now.header)
        (D.At.content source.old) (length (places_of (view_of image.now.header))) (D.held disk.new) (D.world
        disk.new)) }
    ensures fragments { IsTrue D.models → OnOk result (FragmentsDone folder.now (view_of image.now.header)
        (D.At.content source.old) (fragment_count (view_of image.now.header)) (D.held disk.new) (D.world
        disk.new)) }
    ensures words { IsTrue D.models → IsTrue with_words → OnOk result (WordsDone folder.now (view_of image.now.header)
        (D.At.content source.old) (D.held disk.new) (D.world disk.new)) }
    ensures stands { IsTrue D.models → IfErr result (λ refusal. PartsLeft folder.now (view_of image.now.header)
        (D.At.content source.old) (TellsOfPart refusal.fault refusal.about.place folder.now) (D.held disk.new)
        (D.world disk.new) (λ named. GoesAmong named (D.held disk.old) (D.held disk.new) (D.world disk.old)
        (D.world disk.new))) }
    ensures shown { IsTrue D.models → OnOk result (ShowsEach (λ part. D.on_output (path_of_part folder.now part))
        (told_parts (D.At.content source.old) (view_of image.now.header) with_words (words_text (image_words folder.now
        (D.At.content source.old) (view_of image.now.header)))) report.old report.new) }
    ensures refused { IsTrue D.models → IsOpened (D.At.content source.old) image.now → IfErr result (λ refusal.
        IsRefusedOver (D.At.content source.old) (SomeFailed (D.held disk.old) (D.At.read_faults source.old)
        (D.held disk.new) (D.At.read_faults source.new)) (PartsBegun folder.now with_words (view_of
        image.now.header) (D.At.content source.old) (D.held disk.new) (D.world disk.new)
        × CannotPrint report.old report.new) refusal.fault) }
    ensures told_of { IfErr result (λ refusal. TellsRead (boot_side_of refusal.fault) refusal.about.place
        (Some input.entry)) }
{
    match write_sections(disk, image, source, input, folder, report, w, m) {
        Ok(()) => {}
        Err(refusal) => return Err(refusal),
    }
    match write_fragments(disk, image, source, input, folder, report, w, m) {
        Ok(()) => {}
        Err(refusal) => return Err(refusal),
    }
    if !with_words {
        return Ok(());
    }
    match write_pack_words(disk, image, source, input, folder, report, w, m) {
        Ok(()) => Ok(()),
        Err(refusal) => Err(refusal),
    }
}

fn write_sections<'t, 'a, D: Disk>(
    disk: &mut D,
    image: &Image,
    source: &mut D::At,
    input: FileArg<'t>,
    folder: &'t str,
    report: &mut Report,
    w: &mut Window,
    m: &mut Meter,
) -> BootOutcome<'t, 'a>
    requires one { IsTrue D.models → (D.held disk.old).output ≡ None }
    ensures writes { IsTrue D.models → WritesParts result (length (places_of (view_of image.now.header)))
        (IsSectionPath folder.now (view_of image.now.header) (length (places_of (view_of image.now.header))))
        D.At.Source source.old source.new (D.held disk.old) (D.held disk.new) (D.world disk.old) (D.world disk.new) }
    ensures done { IsTrue D.models → OnOk result (SectionsDone folder.now (view_of image.now.header)
        (D.At.content source.old) (length (places_of (view_of image.now.header))) (D.held disk.new) (D.world
        disk.new)) }
    ensures stands { IsTrue D.models → IfErr result (λ refusal. (i : ℕ) × ((p : SectionPlace)
        → p ≡ slice_index_or (places_of (view_of image.now.header)) i p
        → TellsOfPart refusal.fault refusal.about.place folder.now (parts.Section p.kind))
        × SectionsDone folder.now (view_of image.now.header) (D.At.content source.old) i (D.held disk.new)
        (D.world disk.new) × GoesAmong (IsSectionPath folder.now (view_of image.now.header) (i + 1)) (D.held disk.old)
        (D.held disk.new) (D.world disk.old) (D.world disk.new)) }
    ensures shown { IsTrue D.models → OnOk result (ShowsEach (λ part. D.on_output (path_of_part folder.now part))
        (map told_section (places_of (view_of image.now.header))) report.old report.new) }
    ensures rises { OnOk result (refusals report.old ≤ refusals report.new) }
    ensures refused { IsTrue D.models → IsOpened (D.At.content source.old) image.now → IfErr result (λ refusal.
        IsRefusedOver (D.At.content source.old) (SomeFailed (D.held disk.old) (D.At.read_faults source.old)
        (D.held disk.new) (D.At.read_faults source.new)) ((i : ℕ) × (i < length (places_of (view_of
        image.now.header)))
        × SectionsDone folder.now (view_of image.now.header) (D.At.content source.old) (i + 1) (D.held disk.new)
        (D.world disk.new) × CannotPrint report.old report.new) refusal.fault) }
    ensures told_of { IfErr result (λ refusal. TellsRead (boot_side_of refusal.fault) refusal.about.place
        (Some input.entry)) }
{
    for i in 0..sections(image) {
        match write_section(disk, image, i, source, input, folder, report, w, m) {
            Ok(()) => {}
            Err(refusal) => return Err(refusal),
        }
    }
    Ok(())
}

fn write_fragments<'t, 'a, D: Disk>(
    disk: &mut D,
    image: &Image,
    source: &mut D::At,
    input: FileArg<'t>,
    folder: &'t str,
    report: &mut Report,
    w: &mut Window,
    m: &mut Meter,
) -> BootOutcome<'t, 'a>
    requires one { IsTrue D.models → (D.held disk.old).output ≡ None }
    ensures writes { IsTrue D.models → WritesParts result (fragment_count (view_of image.now.header))
        (IsFragmentPath folder.now (view_of image.now.header) (fragment_count (view_of image.now.header)))
        D.At.Source source.old source.new (D.held disk.old) (D.held disk.new) (D.world disk.old) (D.world disk.new) }
    ensures done { IsTrue D.models → OnOk result (FragmentsDone folder.now (view_of image.now.header)
        (D.At.content source.old) (fragment_count (view_of image.now.header)) (D.held disk.new) (D.world
        disk.new)) }
    ensures stands { IsTrue D.models → IfErr result (λ refusal. (i : ℕ)
        × TellsOfPart refusal.fault refusal.about.place folder.now (parts.Fragment i)
        × FragmentsDone folder.now (view_of image.now.header) (D.At.content source.old) i (D.held disk.new)
        (D.world disk.new) × GoesAmong (IsFragmentPath folder.now (view_of image.now.header) (i + 1)) (D.held disk.old)
        (D.held disk.new) (D.world disk.old) (D.world disk.new)) }
    ensures shown { IsTrue D.models → OnOk result (ShowsEach (λ part. D.on_output (path_of_part folder.now part))
        (told_fragments (D.At.content source.old) (view_of image.now.header) (fragment_count (view_of
        image.now.header))) report.old report.new) }
    ensures rises { IsTrue D.models → OnOk result (refusals report.old ≤ refusals report.new) }
    ensures refused { IsTrue D.models → IsOpened (D.At.content source.old) image.now → IfErr result (λ refusal.
        IsRefusedOver (D.At.content source.old) (SomeFailed (D.held disk.old) (D.At.read_faults source.old)
        (D.held disk.new) (D.At.read_faults source.new)) ((i : ℕ) × (i < fragment_count (view_of
        image.now.header))
        × FragmentsDone folder.now (view_of image.now.header) (D.At.content source.old) (i + 1)
        (D.held disk.new) (D.world disk.new) × CannotPrint report.old report.new) refusal.fault) }
    ensures told_of { IfErr result (λ refusal. TellsRead (boot_side_of refusal.fault) refusal.about.place
        (Some input.entry)) }
{
    for i in 0..fragments(image) {
        match write_fragment(disk, image, i, source, input, folder, report, w, m) {
            Ok(()) => {}
            Err(refusal) => return Err(refusal),
        }
    }
    Ok(())
}
