//! The links that unpack_bootimg makes to the ramdisk fragments of an image.

ghost use Rattle.std.specs.Prelude.{◌≡◌, ◌≢◌, ◌<◌, IsTrue, OnErr, OnOk};
ghost use Rattle.abt_sections.specs.Header.{fragment_count, view_of};
ghost use Rattle.abootimg.specs.Stored.{KeepsStored, NothingFails, SomeFails, stored};
ghost use Rattle.abootimg.specs.UnpackEnds.{StepStays};

use crate::storage::Storage;
use crate::unpack_steps::{cannot_make, make_folder_at, refused_step};
use abt_io::{Meter, Source, Window};
use abt_sections::{Image, SectionFault, fragment, fragments, open};
use cmd_common_boot::BootCommandFault;
use cmd_common_fields::front_text;
use cmd_unpack_aosp_texts::{fragment_file, has_table};
use std::alloc::{AllocError, Global};
use sys_disk::Disk;
use sys_host::{DONE, Telling};
use sys_refusals::{FileArg, HostFault, HostRefusal};
use sys_report::Report;
use words_tools::UnpackImage;

// The folder of the links, in that of the parts.
const BY_NAME: &str = "vendor-ramdisk-by-name";

/// A link to a ramdisk fragment.
#[derive(Drop)]
pub(crate) struct Link {
    path: String,
    target: String,
}

fn memory() -> BootCommandFault<'static> {
    BootCommandFault::Host(HostFault::Memory)
}

/// The links of an image with a table of fragments.
pub(crate) fn find_links<S: Source>(
    alloc: Global,
    image: &UnpackImage<'_>,
    source: &mut S,
    w: &mut Window,
    m: &mut Meter,
) -> Result<Option<Vec<Link>>, BootCommandFault<'static>>
    ensures { OnOk result (S.read_faults source.new ≡ S.read_faults source.old) }
{
    let opened = match open(source, w, m) {
        Ok(opened) => opened,
        Err(fault) => return Err(BootCommandFault::Section(fault)),
    };
    if !has_table(&opened.header) {
        return Ok(None);
    }
    let mut links = Vec::new(alloc);
    for i in 0..fragments(&opened) {
        let link = link_to(alloc, &opened, i, image.folder, source, w, m)?;
        if links.push(link).is_err() {
            return Err(memory());
        }
    }
    Ok(Some(links))
}

// The link to a fragment by its name, which is a name of a file.
fn link_to<S: Source>(
    alloc: Global,
    image: &Image,
    index: u32,
    folder: &str,
    source: &mut S,
    w: &mut Window,
    m: &mut Meter,
) -> Result<Link, BootCommandFault<'static>>
    requires { index < fragment_count (view_of image.now.header) }
    ensures { OnOk result (S.read_faults source.new ≡ S.read_faults source.old) }
{
    let entry = match fragment(image, index, source, w, m) {
        Ok(entry) => entry,
        Err(fault) => return Err(BootCommandFault::Section(fault)),
    };
    let unnamed = BootCommandFault::Section(SectionFault::Entry(index));
    let Ok(name) = str::from_utf8(front_text(&entry.name)) else {
        return Err(unnamed);
    };
    let Some(file) = fragment_file(index) else {
        return Err(unnamed);
    };
    if name.contains('/') {
        return Err(unnamed);
    }
    match link_of(alloc, folder, name, file) {
        Ok(link) => Ok(link),
        Err(_) => Err(memory()),
    }
}

fn link_of(alloc: Global, folder: &str, name: &str, file: &str) -> Result<Link, AllocError> {
    Ok(Link {
        path: format!(in alloc; "{folder}/{BY_NAME}/ramdisk_{name}")?,
        target: format!(in alloc; "../{file}")?,
    })
}

/// Fails if a link would replace the image.
#[tactic(auto, using(crate::proofs::Unpacks::kept_none, crate::proofs::Unpacks::clean_none, crate::proofs::Unpacks::step_done, crate::proofs::Unpacks::step_refused))]
pub(crate) fn spare_input<D: Disk>(
    rt: HostRuntime,
    disk: &mut D,
    links: &Option<Vec<Link>>,
    how: Telling,
    report: &mut Report,
) -> u8
    ensures { IsTrue D.models → StepStays (stored (D.world disk.old) (D.held disk.old)) report.old
        (stored (D.world disk.new) (D.held disk.new)) report.new result }
{
    let Some(links) = links else {
        return DONE;
    };
    match refuse_links(disk, links.as_slice()) {
        Ok(()) => DONE,
        Err(refusal) => refused_step(rt, refusal, how, report),
    }
}

fn refuse_links<'a, D: Disk>(disk: &mut D, links: &'a [Link]) -> Result<(), HostRefusal<'a>>
    ensures kept { IsTrue D.models → KeepsStored (stored (D.world disk.old) (D.held disk.old))
        (stored (D.world disk.new) (D.held disk.new)) }
    ensures clean { IsTrue D.models → OnOk result (NothingFails (stored (D.world disk.old) (D.held disk.old))
        (stored (D.world disk.new) (D.held disk.new))) }
{
    for link in links {
        match disk.refuse_taken(FileArg::new("LINK", link.path.as_str())) {
            Ok(()) => {}
            Err(refusal) => return Err(refusal),
        }
    }
    Ok(())
}

/// Makes each link, replacing one that exists, in a folder of their own.
#[inline(never)]
#[tactic(auto, using(crate::proofs::Unpacks::kept_none, crate::proofs::Unpacks::clean_none, crate::proofs::Unpacks::step_done, crate::proofs::Unpacks::step_refused))]
pub(crate) fn make_links<S: Storage>(
    rt: HostRuntime,
    folder: &str,
    links: &Option<Vec<Link>>,
    how: Telling,
    storage: &mut S,
    report: &mut Report,
) -> u8
    ensures stays { IsTrue S.Disk.models → StepStays (S.its storage.old) report.old (S.its storage.new) report.new
        result }
    // it fails since a call fails
    ensures refused { IsTrue S.Disk.models → result ≢ 0 → SomeFails (S.its storage.old) (S.its storage.new) }
{
    let Some(links) = links else {
        return DONE;
    };
    let by_name = match storage.path_in(folder, BY_NAME) {
        Ok(by_name) => by_name,
        Err(_) => return refused_step(rt, HostRefusal::memory(), how, report),
    };
    let made = make_folder_at(rt, by_name.as_str(), how, storage, report);
    if made != DONE {
        return made;
    }
    match replace_links(storage, links.as_slice()) {
        Ok(()) => DONE,
        Err(refusal) => refused_step(rt, refusal, how, report),
    }
}

fn replace_links<'a, S: Storage>(storage: &mut S, links: &'a [Link]) -> Result<(), HostRefusal<'a>>
    ensures kept { IsTrue S.Disk.models → KeepsStored (S.its storage.old) (S.its storage.new) }
    ensures clean { IsTrue S.Disk.models → OnOk result (NothingFails (S.its storage.old) (S.its storage.new)) }
    ensures refused { IsTrue S.Disk.models → OnErr result (SomeFails (S.its storage.old) (S.its storage.new)) }
{
    for link in links {
        match storage.replace_link(link.target.as_str(), link.path.as_str()) {
            Ok(()) => {}
            Err(error) => {
                return Err(cannot_make(link.path.as_str(), error.raw_os_error()));
            }
        }
    }
    Ok(())
}
