//! Why an answer of a check is no.

ghost use Rattle.std.specs.Prelude.{◌≡◌, ◌<◌, ◌+◌, ◌-◌, ◌^◌, ◌==◌, ◌&&◌, ◌↔◌, IfOk, IfErr, IsTrue, is_none};
ghost use Rattle.std.specs.Prelude.{option_map};
ghost use Rattle.abt_headers.specs.Page.{page_bytes};
ghost use Rattle.abt_sections.specs.Asked.{IsPageNumber};
ghost use Rattle.abt_io.specs.Lent.{OnlyReads};
ghost use Rattle.abt_sections.specs.BootCanon.{dtbo_offset as spec_offset};
ghost use Rattle.abt_sections.specs.Check.{IsVerdict, offset_holds};
ghost use Rattle.abt_sections.specs.Header.{view_of};
ghost use Rattle.abt_sections.specs.Layout.{padding};
ghost use Rattle.cmd_common_findings.specs.Finding as spec;
ghost use Rattle.cmd_common_findings.specs.Finding.{LooksFor};
ghost use Rattle.cmd_common_findings.specs.LeftOut.{end_of as end_of_view};
ghost use Rattle.cmd_common_findings.specs.Reasons.{ReasonCause, ReasonsAre};

use crate::section_places::end_of;
use crate::set_bytes::{first_set, zeros_in_front};
use abt_headers::{BootFront, BootHeader, DtboFields, ShortFront, VendorHeader, pages};
use abt_io::{Meter, Source, Window};
use abt_sections::{Image, ImageHeader, SectionFault, Verdict, dtbo_offset, section, sections};
use cmd_common_fields::{TextField, front_text, text_field_of};

// The offset of the id in a header that has one.
const ID_PLACE: u64 = 576;

/// A field that isn't a text with zeros after it.
#[derive(Clone, Copy, Drop)]
pub enum Unended {
    Name,
    Cmdline,
    Reserved,
}

/// An answer of the check.
#[derive(Clone, Copy, Drop)]
pub enum CheckAnswer {
    Canonical,
    Padding,
    Id,
    Offset,
}

/// What makes an answer no.
#[derive(Clone, Copy, Drop)]
pub enum Reason {
    /// The header's size, and the one that packing writes.
    Size { found: u64, packed: u64 },
    /// The place of the recovery DTBO, and the one that packing writes.
    Offset { found: u64, packed: u64 },
    /// The first byte that is not as packing writes it.
    Byte(u64),
    /// A text with bytes after its end, or without an end.
    Text(Unended),
    /// Fragments that do not lie end to end, in order, and fill the vendor ramdisk.
    Fragments,
}

/// The reason of each answer that is no, and how many bytes follow the image.
#[derive(Clone, Copy, Drop)]
pub struct Findings {
    pub canonical: Option<Reason>,
    pub padding: Option<Reason>,
    pub id: Option<Reason>,
    pub offset: Option<Reason>,
    pub trailing: u64,
}

impl Findings {
    /// Whether each answer that is no has a reason, and each that is yes has none.
    pub fn agree_with(&self, verdict: Verdict) -> bool
        ensures { IsTrue result ↔ ReasonsAre self.now verdict }
    {
        self.canonical.is_none() == verdict.canonical
            && self.padding.is_none() == verdict.padding
            && self.id.is_none() == verdict.id
            && self.offset.is_none() == verdict.offset
    }
}

/// Finds the reason of each answer that is no, and how many bytes follow the image.
///
/// The result must agree with the answers: fails with `SourceChanged` where it does not. This does not occur for a source
/// that models its content, and the answers of this content.
pub fn find_reasons<S: Source>(
    image: &Image,
    verdict: Verdict,
    source: &mut S,
    w: &mut Window,
    m: &mut Meter,
) -> Result<Findings, SectionFault>
    ensures agree { IfOk result (λ found. ReasonsAre found verdict) }
    ensures padding { IsTrue S.models → IfOk result (λ found. found.padding ≡
        option_map Reason.Byte (spec.first_unpadded (S.content source.old) (view_of image.now.header))) }
    ensures trailing { IfOk result (λ found. found.trailing ≡ image.now.length - end_of_view
        (view_of image.now.header)) }
    ensures reads { OnlyReads result S.Source source.old source.new }
    ensures cause { IfErr result (λ f. ReasonCause f (S.read_faults source.old) (S.read_faults source.new)
        (IsTrue S.models → IsVerdict (S.content source.old) (view_of image.now.header) verdict → ⊥)) }
{
    let padding = match first_unpadded(image, source, w, m) {
        Ok(place) => place.map(Reason::Byte),
        Err(fault) => return Err(fault),
    };
    let offset = offset_reason(&image.header);
    let id = id_reason(verdict.id);
    let found = Findings {
        canonical: canonical_reason(verdict.canonical, offset.or(padding).or(id), image),
        padding,
        id,
        offset,
        trailing: image.length.saturating_sub(end_of(image)),
    };
    if found.agree_with(verdict) {
        Ok(found)
    } else {
        Err(SectionFault::SourceChanged)
    }
}

fn id_reason(holds: bool) -> Option<Reason>
    ensures { is_none result ≡ holds }
{
    if holds {
        return None;
    }
    Some(Reason::Byte(ID_PLACE))
}

// Bytes are not those that packing writes: for the reason of another answer, for a text, or for the fragments.
fn canonical_reason(holds: bool, others: Option<Reason>, image: &Image) -> Option<Reason>
    ensures { is_none result ≡ holds }
{
    if holds {
        return None;
    }
    let text = text_reason(&image.header).unwrap_or(Reason::Fragments);
    Some(others.unwrap_or(text))
}

// ---- padding

// The first byte after the header or a section, up to a page boundary, that isn't there or isn't zero.
fn first_unpadded<S: Source>(
    image: &Image,
    source: &mut S,
    w: &mut Window,
    m: &mut Meter,
) -> Result<Option<u64>, SectionFault>
    ensures finds { LooksFor result S.Source source.old source.new
        (λ found. found ≡ spec.first_unpadded (S.content source.old) (view_of image.now.header)) }
{
    let page = image.header.page_size();
    match first_behind(image.header.size() as u64, 0, page, source, w, m) {
        Ok(None) => {}
        Ok(Some(place)) => return Ok(Some(place)),
        Err(fault) => return Err(fault),
    }
    for i in 0..sections(image) {
        m.tick();
        let place = section(image, i);
        match first_behind(place.size as u64, place.at, page, source, w, m) {
            Ok(None) => {}
            Ok(Some(place)) => return Ok(Some(place)),
            Err(fault) => return Err(fault),
        }
    }
    Ok(None)
}

// The first byte after so many at a place, up to a page boundary, that isn't there or isn't zero.
fn first_behind<S: Source>(
    size: u64,
    at: u64,
    page: u32,
    source: &mut S,
    w: &mut Window,
    m: &mut Meter,
) -> Result<Option<u64>, SectionFault>
    requires page { IsPageNumber page }
    requires low { at + size < 2 ^ 63 }
    ensures finds { LooksFor result S.Source source.old source.new
        (λ found. found ≡ spec.first_set_in (S.content source.old) (at + size) (padding size page)) }
{
    let free = pages(size, page) * page as u64 - size;
    first_set(source, at + size, free, w, m)
}

// ---- header_size and recovery_dtbo_offset

fn offset_reason(header: &ImageHeader) -> Option<Reason>
    ensures { is_none result ≡ offset_holds (view_of header.now) }
{
    match header {
        ImageHeader::Boot(BootHeader::V0(_)) => None,
        ImageHeader::Boot(BootHeader::V1(front, dtbo)) => dtbo_reason(front, dtbo, 1648),
        ImageHeader::Boot(BootHeader::V2(front, dtbo, _)) => dtbo_reason(front, dtbo, 1660),
        ImageHeader::Boot(BootHeader::V3(front)) => size_reason(front.header_size, 1580),
        ImageHeader::Boot(BootHeader::V4(front, _)) => size_reason(front.header_size, 1584),
        ImageHeader::Vendor(VendorHeader::V3(front)) => size_reason(front.header_size, 2112),
        ImageHeader::Vendor(VendorHeader::V4(front, _)) => size_reason(front.header_size, 2128),
    }
}

fn size_reason(found: u32, packed: u32) -> Option<Reason>
    ensures { is_none result ≡ (found == packed) }
{
    if found == packed {
        return None;
    }
    Some(Reason::Size {
        found: found as u64,
        packed: packed as u64,
    })
}

// The offset is the section's place, or 0 where it is empty.
fn dtbo_reason(front: &BootFront, dtbo: &DtboFields, size: u32) -> Option<Reason>
    ensures { is_none result ≡ ((dtbo.now.header_size == size) && (dtbo.now.recovery_dtbo_offset == spec_offset
        (page_bytes front.now.page_size) front.now.kernel_size front.now.ramdisk_size front.now.second_size
        dtbo.now.recovery_dtbo_size)) }
{
    let other = size_reason(dtbo.header_size, size);
    if other.is_some() {
        return other;
    }
    let found = dtbo.recovery_dtbo_offset;
    let packed = dtbo_offset(
        front.page_size.bytes(),
        front.kernel_size,
        front.ramdisk_size,
        front.second_size,
        dtbo.recovery_dtbo_size,
    );
    if found == packed {
        return None;
    }
    Some(Reason::Offset { found, packed })
}

// ---- texts

fn text_reason(header: &ImageHeader) -> Option<Reason> {
    if let Some(name) = text_field_of(header, TextField::Name) {
        if !is_text(name) {
            return Some(Reason::Text(Unended::Name));
        }
    }
    if let Some(front) = short_front(header) {
        if zeros_in_front(&front.reserved) < front.reserved.len() {
            return Some(Reason::Text(Unended::Reserved));
        }
    }
    let cmdline = text_field_of(header, TextField::Cmdline)?;
    let extra = text_field_of(header, TextField::Extra);
    if is_long_text(cmdline, extra) {
        return None;
    }
    Some(Reason::Text(Unended::Cmdline))
}

fn short_front(header: &ImageHeader) -> Option<&ShortFront> {
    match header {
        ImageHeader::Boot(BootHeader::V3(front)) => Some(front),
        ImageHeader::Boot(BootHeader::V4(front, _)) => Some(front),
        _ => None,
    }
}

// A text ends at its first zero byte, and zeros follow.
#[inline(never)]
fn is_text(field: &[u8]) -> bool {
    let end = front_text(field).len();
    end < field.len() && zeros_in_front(&field[end..]) == field.len() - end
}

// The same for a text that continues in a second field.
fn is_long_text(front: &[u8], back: Option<&[u8]>) -> bool {
    let Some(back) = back else {
        return is_text(front);
    };
    if front_text(front).len() < front.len() {
        is_text(front) && zeros_in_front(back) == back.len()
    } else {
        is_text(back)
    }
}
