//! Unpacking an image as unpack_bootimg does, and the exit status.
//!
//! The image is opened once for each of the steps, on a disk of its own, so that each step has the stack for itself:
//!
//! - the image is examined for what it needs;
//! - its folder is made;
//! - its parts are written;
//! - links are made to its ramdisk fragments;
//! - its text is printed.

ghost use Rattle.std.specs.Prelude.{◌≡◌, [], IfErr, IsTrue, OnOk};
ghost use Rattle.sys_refusals.specs.Paths.{path_of};
ghost use Rattle.sys_disk.specs.World.{IsReading};
ghost use Rattle.sys_host.specs.Answering.{PrintsNothing};
ghost use Rattle.abootimg.specs.Stored.{NothingFails, stored};
ghost use Rattle.abootimg.specs.UnpackEnds.{PartsEnd, PartsOn, PrintsText, StepStays, TextCause, TextStep};
ghost use Rattle.abootimg.specs.UnpackEnds.{UnpackEnds, text_wanted};

use crate::outcome::told_at_most;
use crate::storage::Storage;
use crate::unpack_links::{Link, find_links, make_links, spare_input};
use crate::unpack_steps::{make_folder, refused_image, refused_step};
use abt_io::{Meter, Source, Window};
use abt_sections::{SectionFault, open};
use cmd_common_boot::BootCommandFault;
use cmd_unpack_aosp::unpack_as_aosp;
use cmd_unpack_aosp_texts::{AospText, Ending, write_aosp_text};
use sys_disk::Disk;
use sys_host::{DONE, REFUSED, Telling};
use sys_refusals::{FileArg, Refusal, Sides};
use sys_report::Report;
use words_tools::{UnpackImage, UnpackText};

/// Unpacks an image, prints its text, and returns the exit status. If it fails before its text nothing was printed.
#[inline(never)]
pub(crate) fn unpack_image<S: Storage>(
    rt: HostRuntime,
    image: UnpackImage<'_>,
    how: Telling,
    storage: &mut S,
    report: &mut Report,
    w: &mut Window,
    m: &mut Meter,
) -> u8
    ensures { IsTrue S.Disk.models → UnpackEnds image.entry (S.its storage.old) report.old (S.its storage.new)
        report.new result }
{
    let mut links = None;
    let looked = look_at(rt, image, &mut links, how, storage, report, w, m);
    if looked != DONE {
        return looked;
    }
    let made = make_folder(rt, image.folder, how, storage, report);
    if made != DONE {
        return made;
    }
    let written = write_parts(rt, image, how, storage, report, w, m);
    if written != DONE {
        return written;
    }
    let linked = make_links(rt, image.folder, &links, how, storage, report);
    if linked != DONE {
        return linked;
    }
    print_text(rt, image, how, storage, report, w, m)
}

fn input_of<'a>(image: &UnpackImage<'a>) -> FileArg<'a>
    ensures { path_of result ≡ image.now.input.now }
{
    FileArg {
        role: "boot_img",
        folder: None,
        name: image.input,
        number: None,
    }
}

// ---- the image is looked at

// Finds the links that the image needs. Fails if it is no image, or if it is one of the files.
#[inline(never)]
#[tactic(auto, using(crate::proofs::Unpacks::step_from))]
fn look_at<S: Storage>(
    rt: HostRuntime,
    image: UnpackImage<'_>,
    links: &mut Option<Vec<Link>>,
    how: Telling,
    storage: &mut S,
    report: &mut Report,
    w: &mut Window,
    m: &mut Meter,
) -> u8
    ensures { IsTrue S.Disk.models → StepStays (S.its storage.old) report.old (S.its storage.new) report.new
        result }
{
    let mut disk = storage.disk();
    let status = look_on(rt, image, links, how, &mut disk, report, w, m);
    storage.give_back(disk);
    status
}

fn look_on<D: Disk>(
    rt: HostRuntime,
    image: UnpackImage<'_>,
    links: &mut Option<Vec<Link>>,
    how: Telling,
    disk: &mut D,
    report: &mut Report,
    w: &mut Window,
    m: &mut Meter,
) -> u8
    requires first { IsTrue D.models → (D.held disk.old).begun ≡ [] }
    ensures { IsTrue D.models → StepStays (stored (D.world disk.old) (D.held disk.old)) report.old
        (stored (D.world disk.new) (D.held disk.new)) report.new result }
{
    let mut device = match disk.source(input_of(&image)) {
        Ok(device) => device,
        Err(refusal) => return refused_step(rt, refusal, how, report),
    };
    let status = look_into(rt, image, links, how, disk, &mut device, report, w, m);
    disk.let_go_source(device);
    status
}

fn look_into<D: Disk>(
    rt: HostRuntime,
    image: UnpackImage<'_>,
    links: &mut Option<Vec<Link>>,
    how: Telling,
    disk: &mut D,
    source: &mut D::At,
    report: &mut Report,
    w: &mut Window,
    m: &mut Meter,
) -> u8
    ensures stays { IsTrue D.models → StepStays (stored (D.world disk.old) (D.held disk.old)) report.old
        (stored (D.world disk.new) (D.held disk.new)) report.new result }
    ensures read { result ≡ 0 → D.At.read_faults source.new ≡ D.At.read_faults source.old }
{
    match find_links(rt.alloc(), &image, source, w, m) {
        Ok(found) => {
            let status = spare_input(rt, disk, &found, how, report);
            *links = found;
            status
        }
        Err(fault) => refused_image(rt, refusal_in(input_of(&image), fault), how, report),
    }
}

// The fault is in the content of the image.
fn refusal_in<'t>(
    place: FileArg<'t>,
    fault: BootCommandFault<'static>,
) -> Refusal<'t, BootCommandFault<'static>> {
    Sides::none().reading(place, None).refuse(fault)
}

// ---- its parts are written

// Writes the parts to their files.
#[inline(never)]
#[tactic(auto, using(crate::proofs::Unpacks::parts_from, crate::proofs::Unpacks::clean_parts))]
fn write_parts<S: Storage>(
    rt: HostRuntime,
    image: UnpackImage<'_>,
    how: Telling,
    storage: &mut S,
    report: &mut Report,
    w: &mut Window,
    m: &mut Meter,
) -> u8
    ensures parts { IsTrue S.Disk.models → PartsEnd image.entry (S.its storage.old) (S.its storage.new) result }
    ensures quiet { result ≡ 0 → PrintsNothing report.old report.new }
    ensures clean { IsTrue S.Disk.models → result ≡ 0 → NothingFails (S.its storage.old) (S.its storage.new) }
{
    let mut disk = storage.disk();
    let status = parts_on(rt, image, how, &mut disk, report, w, m);
    storage.give_back(disk);
    status
}

fn parts_on<D: Disk>(
    rt: HostRuntime,
    image: UnpackImage<'_>,
    how: Telling,
    disk: &mut D,
    report: &mut Report,
    w: &mut Window,
    m: &mut Meter,
) -> u8
    requires first { IsTrue D.models → IsReading (D.held disk.old) }
    ensures parts { IsTrue D.models → PartsOn image.entry (D.world disk.old) (D.held disk.old) (D.world disk.new)
        (D.held disk.new) result }
    ensures quiet { result ≡ 0 → PrintsNothing report.old report.new }
{
    let outcome = unpack_as_aosp(disk, report, input_of(&image), image.folder, w, m);
    told_at_most(outcome, REFUSED, how, rt, report)
}

// ---- its text is printed

// Prints what is asked for.
#[inline(never)]
fn print_text<S: Storage>(
    rt: HostRuntime,
    image: UnpackImage<'_>,
    how: Telling,
    storage: &mut S,
    report: &mut Report,
    w: &mut Window,
    m: &mut Meter,
) -> u8
    ensures { IsTrue S.Disk.models → TextStep image.entry (S.its storage.old) report.old (S.its storage.new)
        report.new result }
{
    let mut disk = storage.disk();
    let status = print_on(rt, image, how, &mut disk, report, w, m);
    storage.give_back(disk);
    status
}

fn print_on<D: Disk>(
    rt: HostRuntime,
    image: UnpackImage<'_>,
    how: Telling,
    disk: &mut D,
    report: &mut Report,
    w: &mut Window,
    m: &mut Meter,
) -> u8
    requires first { IsTrue D.models → (D.held disk.old).begun ≡ [] }
    ensures { IsTrue D.models → TextStep image.entry (stored (D.world disk.old) (D.held disk.old)) report.old
        (stored (D.world disk.new) (D.held disk.new)) report.new result }
{
    let place = input_of(&image);
    let mut device = match disk.source(place) {
        Ok(device) => device,
        Err(refusal) => return refused_step(rt, refusal, how, report),
    };
    match write_text(&image, &mut device, report, w, m) {
        Ok(()) => {
            disk.let_go_source(device);
            report.progress.erase();
            DONE
        }
        Err(fault) => {
            disk.let_go_source(device);
            let refusal = not_printed(place, report.out.writer.why, fault);
            refused_image(rt, refusal, how, report)
        }
    }
}

// The fault is of the image, or of standard output, for this reason.
fn not_printed<'t>(
    place: FileArg<'t>,
    why: Option<i32>,
    fault: SectionFault,
) -> Refusal<'t, BootCommandFault<'static>> {
    let sides = Sides::none().reading(place, None).printing(why);
    sides.refuse(BootCommandFault::Section(fault))
}

fn write_text<S: Source>(
    image: &UnpackImage<'_>,
    source: &mut S,
    report: &mut Report,
    w: &mut Window,
    m: &mut Meter,
) -> Result<(), SectionFault>
    ensures printed { IsTrue S.models → OnOk result (PrintsText image.now (S.content source.old) report.old
        report.new) }
    ensures clean { OnOk result (S.read_faults source.new ≡ S.read_faults source.old) }
    // it fails if the source holds no image, or a device fails
    ensures refused { IsTrue S.models → IfErr result (λ f. TextCause f (S.content source.old)
        (S.read_faults source.old) (S.read_faults source.new) report.old report.new) }
{
    let opened = match open(source, w, m) {
        Ok(opened) => opened,
        Err(fault) => return Err(fault),
    };
    let which = text_wanted(image.text);
    match write_aosp_text(&opened, which, image.folder, source, &mut report.out, w, m) {
        Ok(()) => Ok(()),
        Err(fault) => Err(fault),
    }
}

fn text_wanted(text: UnpackText) -> AospText
    ensures { result ≡ text_wanted text }
{
    match text {
        UnpackText::Info => AospText::Info,
        UnpackText::Words => AospText::Words(Ending::Blank),
        UnpackText::ZeroWords => AospText::Words(Ending::Zero),
    }
}
