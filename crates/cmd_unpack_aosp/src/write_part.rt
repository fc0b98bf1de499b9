//! Writes one part of an image to a file of its own.

ghost use Rattle.std.specs.Prelude.{◌≡◌, ◌<◌, ◌≤◌, ◌+◌, ◌⊎◌, None, Bool, ℕ, true, IsTrue, IsOk, IfErr, OnOk, length};
ghost use Rattle.sys_disk.specs.Counts.{Cause, Counts, of_writing, writes};
ghost use Rattle.sys_disk.specs.World.{Ends, ended, number_of};
ghost use Rattle.abt_sections.specs.Header.{fragment_count, places_of, view_of};
ghost use Rattle.abt_sections.specs.Open.{IsOpened};
ghost use Rattle.cmd_common_boot.specs.ImageFaults.{IsAnswerOf, SomeFailed};
ghost use Rattle.cmd_unpack.specs.Writing.{EndsPart, WritesParts};
ghost use Rattle.cmd_unpack_aosp.specs.AospFiles.{FileDone, IsFilePath, RefusesPart, file_count};

use crate::names::place_in;
use abt_io::{Meter, Window};
use abt_sections::{Image, SectionFault, fragments, section, sections};
use cmd_common_boot::{BootCommandFault, BootOutcome};
use cmd_unpack::{copy_fragment, copy_section};
use cmd_unpack_aosp_texts::{fragment_file, has_table, section_file};
use sys_disk::{Disk, ended};
use sys_refusals::{FileArg, Refusal, Sides};
use sys_report::Progress;

/// Writes part `i` to its file, where it has one.
pub(crate) fn write_file<'t, 'a, D: Disk>(
    disk: &mut D,
    image: &Image,
    i: u64,
    source: &mut D::At,
    input: FileArg<'t>,
    folder: &'t str,
    progress: &mut Progress,
    w: &mut Window,
    m: &mut Meter,
) -> BootOutcome<'t, 'a>
    requires there { i < file_count (view_of image.now.header) }
    requires one { IsTrue D.models → (D.held disk.old).output ≡ None }
    ensures writes { IsTrue D.models → (n : ℕ) × WritesParts result n (IsFilePath folder.now (view_of image.now.header)
        (i + 1)) D.At.Source source.old source.new (D.held disk.old) (D.held disk.new) (D.world disk.old)
        (D.world disk.new) }
    ensures done { IsTrue D.models → OnOk result (FileDone folder.now (view_of image.now.header)
        (D.At.content source.old) i (D.held disk.new) (D.world disk.new)) }
    ensures refused { IsTrue D.models → IsOpened (D.At.content source.old) image.now → IfErr result (λ refusal.
        RefusesPart (D.At.content source.old) (view_of image.now.header) (SomeFailed (D.held disk.old)
        (D.At.read_faults source.old) (D.held disk.new) (D.At.read_faults source.new)) refusal.fault) }
{
    let sections = sections(image) as u64;
    let _fragments = fragments(image);
    if i < sections {
        write_section(
            disk, image, i as usize, source, input, folder, progress, w, m,
        )
    } else {
        let index = (i - sections) as u32;
        write_fragment(disk, image, i, index, source, input, folder, progress, w, m)
    }
}

// Writes section `i` to its file, where it has one.
fn write_section<'t, 'a, D: Disk>(
    disk: &mut D,
    image: &Image,
    i: usize,
    source: &mut D::At,
    input: FileArg<'t>,
    folder: &'t str,
    progress: &mut Progress,
    w: &mut Window,
    m: &mut Meter,
) -> BootOutcome<'t, 'a>
    requires there { i < length (places_of (view_of image.now.header)) }
    requires one { IsTrue D.models → (D.held disk.old).output ≡ None }
    ensures writes { IsTrue D.models → (n : ℕ) × WritesParts result n (IsFilePath folder.now (view_of image.now.header)
        (i + 1)) D.At.Source source.old source.new (D.held disk.old) (D.held disk.new) (D.world disk.old)
        (D.world disk.new) }
    ensures done { IsTrue D.models → OnOk result (FileDone folder.now (view_of image.now.header)
        (D.At.content source.old) i (D.held disk.new) (D.world disk.new)) }
    ensures refused { IsTrue D.models → IsOpened (D.At.content source.old) image.now → IfErr result (λ refusal.
        RefusesPart (D.At.content source.old) (view_of image.now.header) (SomeFailed (D.held disk.old)
        (D.At.read_faults source.old) (D.held disk.new) (D.At.read_faults source.new)) refusal.fault) }
{
    let name = match section_file(has_table(&image.header), section(image, i)) {
        Some(name) => name,
        None => return Ok(()),
    };
    let place = place_in(folder, name);
    let onto = match disk.plain(place) {
        Ok(onto) => onto,
        Err(refusal) => return Err(refusal.into()),
    };
    let (onto, answer) = copy_section(image, i, source, onto, progress, w, m);
    match finish(disk, answer, onto, place, input) {
        Ok(()) => Ok(()),
        Err(refusal) => Err(refusal),
    }
}

// Writes part `i`, which is ramdisk fragment `index`, to its file.
fn write_fragment<'t, 'a, D: Disk>(
    disk: &mut D,
    image: &Image,
    i: u64,
    index: u32,
    source: &mut D::At,
    input: FileArg<'t>,
    folder: &'t str,
    progress: &mut Progress,
    w: &mut Window,
    m: &mut Meter,
) -> BootOutcome<'t, 'a>
    requires there { index < fragment_count (view_of image.now.header) }
    requires behind { i ≡ length (places_of (view_of image.now.header)) + index }
    requires one { IsTrue D.models → (D.held disk.old).output ≡ None }
    ensures writes { IsTrue D.models → (n : ℕ) × WritesParts result n (IsFilePath folder.now (view_of image.now.header)
        (i + 1)) D.At.Source source.old source.new (D.held disk.old) (D.held disk.new) (D.world disk.old)
        (D.world disk.new) }
    ensures done { IsTrue D.models → OnOk result (FileDone folder.now (view_of image.now.header)
        (D.At.content source.old) i (D.held disk.new) (D.world disk.new)) }
    ensures refused { IsTrue D.models → IsOpened (D.At.content source.old) image.now → IfErr result (λ refusal.
        RefusesPart (D.At.content source.old) (view_of image.now.header) (SomeFailed (D.held disk.old)
        (D.At.read_faults source.old) (D.held disk.new) (D.At.read_faults source.new)) refusal.fault) }
{
    let name = match fragment_file(index) {
        Some(name) => name,
        None => return Err(Refusal::of(BootCommandFault::Section(SectionFault::Entry(index)))),
    };
    let place = place_in(folder, name);
    let onto = match disk.plain(place) {
        Ok(onto) => onto,
        Err(refusal) => return Err(refusal.into()),
    };
    let (onto, answer) = copy_fragment(image, index, source, onto, progress, w, m);
    match finish(disk, answer, onto, place, input) {
        Ok(()) => Ok(()),
        Err(refusal) => Err(refusal),
    }
}

// The result of a call that copied a part, after its file was closed.
fn finish<'t, 'a, D: Disk>(
    disk: &mut D,
    answer: Result<u64, SectionFault>,
    onto: D::Onto,
    place: FileArg<'t>,
    input: FileArg<'t>,
) -> BootOutcome<'t, 'a>
    requires this { IsTrue D.models → (D.Onto.write_frame onto).file ≡ number_of (D.held disk.old).output }
    ensures done { OnOk result (IsOk answer) }
    ensures ends { EndsPart D.models result (D.Onto.written onto) (D.held disk.old) (D.world disk.old)
        (D.world disk.new) }
    ensures closed { IsTrue D.models → (b : Bool) × (n : Counts) × (D.held disk.new ≡ ended b n (D.held disk.old)) }
    ensures clean { IsTrue D.models → OnOk result (D.held disk.new
        ≡ ended true (writes (D.Onto.write_faults onto)) (D.held disk.old)) }
    ensures counts { IsTrue D.models → (cause : Cause) → (D.held disk.old).counts.failed cause
        + of_writing (D.Onto.write_faults onto) cause ≤ (D.held disk.new).counts.failed cause }
    ensures told { IsTrue D.models → IfErr result (λ refusal. IsAnswerOf answer
        (λ cause. (D.held disk.old).counts.failed cause + of_writing (D.Onto.write_faults onto) cause
        < (D.held disk.new).counts.failed cause) ⊥ refusal.fault) }
{
    let sides = Sides::none().reading(input, None);
    match ended(disk, BootCommandFault::of_bytes(answer), onto, place, sides) {
        Ok(_end) => Ok(()),
        Err(refusal) => Err(refusal),
    }
}
