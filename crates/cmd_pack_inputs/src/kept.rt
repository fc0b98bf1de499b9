//! What an image that is packed again keeps beside its sections, and what is left out of it.

ghost use Rattle.std.specs.Prelude.{◌≡◌, ◌<◌, [], IsTrue, IfErr, IfOk, OnOk, false, if◌then◌else◌};
ghost use Rattle.std.specs.List.{All};
ghost use Rattle.abt_io.specs.Lent.{OnlyReads};
ghost use Rattle.abt_sections.specs.Header.{fragment_count, view_of};
ghost use Rattle.abt_sections.specs.Open.{IsOpened};
ghost use Rattle.cmd_common_fields.specs.Fields.{text_of};
ghost use Rattle.cmd_common_fields.specs.Kind.{kind_of};
ghost use Rattle.cmd_common_findings.specs.LeftOut.{cmdline_of};
ghost use Rattle.cmd_common_boot.specs.Carried.{IsTaken};
ghost use Rattle.cmd_pack_inputs.specs.Own.{entries_to};
ghost use Rattle.cmd_pack_inputs.specs.Judging.{IsUnread, ReadsOpened, StopsJudging};

use crate::fields::own_cmdline;
use crate::fragment_gaps::in_no_fragment;
use crate::given_parts::anew_of;
use abt_headers::{RamdiskEntry, Section};
use abt_io::{Meter, Source, Window};
use abt_sections::{Image, fragment, fragments};
use cmd_common_boot::{BootCommandFault, NotJudged, PackCommand, PackTexts};
use cmd_common_fields::ImageKind;
use cmd_common_findings::{LeftOut, count_left_out, place_of};
use std::alloc::Global;
use sys_disk::push;

/// The own data of an image that is packed again, beside its sections.
#[derive(Drop)]
pub struct OwnData {
    /// The entries of its table, where its fragments are kept.
    pub entries: Vec<RamdiskEntry>,
    pub cmdline: Vec<u8>,
    pub left: LeftOut,
}

/// Checks the arguments for the image's kind, and counts what is left out of it.
pub fn judged<'a, S: Source>(
    image: &Image,
    source: &mut S,
    kind: ImageKind,
    command: &PackCommand<'a>,
    w: &mut Window,
    m: &mut Meter,
) -> Result<OwnData, NotJudged<'a>>
    requires { kind ≡ kind_of (view_of image.now.header) }
    ensures reads { OnlyReads result S.Source source.old source.new }
    ensures taken { OnOk result (All (IsTaken kind) command.now.texts.fragments.items) }
    ensures cmdline { IfOk result (λ kept. kept.cmdline.items ≡ text_of (cmdline_of (view_of image.now.header))) }
    ensures entries { IsTrue S.models → IfOk result (λ kept. command.now.texts.fragments.items ≡ [] →
        kept.entries.items ≡ entries_to (S.content source.old) (view_of image.now.header)
        (fragment_count (view_of image.now.header))) }
    ensures refused { IsTrue S.models → IsOpened (S.content source.old) image.now → IfErr result
        (StopsJudging command.now kind (S.read_faults source.old < S.read_faults source.new)) }
{
    let alloc = command.alloc;
    match command.texts.check(kind) {
        Ok(()) => {}
        Err(fault) => return Err(NotJudged::Fault(fault)),
    }
    let keeps = keeps_fragments(kind, &command.texts);
    let entries = match entries_kept(alloc, image, source, keeps, w, m) {
        Ok(entries) => entries,
        Err(why) => return Err(why),
    };
    let left = match left_out(image, source, command, keeps, entries.as_slice(), w, m) {
        Ok(left) => left,
        Err(why) => return Err(why),
    };
    match own_cmdline(alloc, &image.header) {
        Ok(cmdline) => Ok(OwnData {
            entries,
            cmdline,
            left,
        }),
        Err(refused) => Err(NotJudged::Memory(refused)),
    }
}

// Whether an image of this kind has fragments, and keeps its own.
fn keeps_fragments(kind: ImageKind, texts: &PackTexts<'_>) -> bool
    ensures { texts.now.fragments.items ≡ [] → result ≡ false → kind ≡ ImageKind.Vendor 4 → ⊥ }
{
    kind == ImageKind::Vendor(4) && texts.fragments.as_slice().is_empty()
}

// The entries of its table, where its fragments are kept.
fn entries_kept<S: Source>(
    alloc: Global,
    image: &Image,
    source: &mut S,
    keeps: bool,
    w: &mut Window,
    m: &mut Meter,
) -> Result<Vec<RamdiskEntry>, NotJudged<'static>>
    ensures entries { IsTrue S.models → IfOk result (λ entries. entries.items ≡ entries_to (S.content source.old)
        (view_of image.now.header) (if keeps then fragment_count (view_of image.now.header) else 0)) }
    ensures reads { ReadsOpened result S.Source source.old source.new image.now }
{
    if keeps {
        entries_of(alloc, image, source, w, m)
    } else {
        Ok(Vec::new(alloc))
    }
}

// The entries of an image's table.
fn entries_of<S: Source>(
    alloc: Global,
    image: &Image,
    source: &mut S,
    w: &mut Window,
    m: &mut Meter,
) -> Result<Vec<RamdiskEntry>, NotJudged<'static>>
    ensures entries { IsTrue S.models → IfOk result (λ entries. entries.items ≡ entries_to (S.content source.old)
        (view_of image.now.header) (fragment_count (view_of image.now.header))) }
    ensures reads { ReadsOpened result S.Source source.old source.new image.now }
{
    let mut entries = Vec::new(alloc);
    for i in 0..fragments(image) {
        m.tick();
        let entry = match fragment(image, i, source, w, m) {
            Ok(entry) => entry,
            Err(fault) => return Err(NotJudged::Fault(BootCommandFault::Section(fault))),
        };
        match push(&mut entries, entry) {
            Ok(()) => {}
            Err(refused) => return Err(NotJudged::Memory(refused)),
        }
    }
    Ok(entries)
}

// How many bytes of the image packing again leaves out, of which these are the entries where its fragments are kept.
fn left_out<S: Source>(
    image: &Image,
    source: &mut S,
    command: &PackCommand<'_>,
    keeps: bool,
    entries: &[RamdiskEntry],
    w: &mut Window,
    m: &mut Meter,
) -> Result<LeftOut, NotJudged<'static>>
    ensures reads { OnlyReads result S.Source source.old source.new }
    ensures refused { IsTrue S.models → IfErr result
        (IsUnread (S.read_faults source.old < S.read_faults source.new)) }
{
    let gaps = gaps_kept(image, keeps, entries);
    let anew = anew_of(&command.texts, command.keeps_trailing);
    match count_left_out(image, anew, gaps, source, w, m) {
        Ok(left) => Ok(left),
        Err(fault) => Err(NotJudged::Fault(BootCommandFault::Section(fault))),
    }
}

// How many bytes of the vendor ramdisk lie in no fragment, where its fragments are kept.
fn gaps_kept(image: &Image, keeps: bool, entries: &[RamdiskEntry]) -> u64 {
    if !keeps {
        return 0;
    }
    match place_of(image, Section::VendorRamdisk) {
        Some(place) => in_no_fragment(entries, place.size),
        None => 0,
    }
}
