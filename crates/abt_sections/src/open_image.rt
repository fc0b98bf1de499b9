//! Opens an image: tests its header, its sections against the source's length, and its table of ramdisk fragments.

ghost use Rattle.std.specs.Prelude.{◌≡◌, ◌<◌, ◌≤◌, ◌+◌, ◌*◌, ◌^◌, IsTrue, IfOk, MatchResult, Ok, Err};
ghost use Rattle.std.specs.Prelude.{length, take, drop, min};
ghost use Rattle.abt_sections.specs.Reads.{OpensUnless};
ghost use Rattle.abt_sections.specs.Header as header_spec;
ghost use Rattle.abt_sections.specs.Open.{beyond, ends_beyond, OpensAs, RefusedAs};

use crate::fault::SectionFault;
use crate::fragment_table::check_entries;
use crate::image::{Image, ImageHeader};
use crate::reading::read_front;
use abt_headers::{
    BootHeader, HeaderFault, Section, SectionPlace, Sections, VENDOR_MAGIC, VendorHeader,
    front_decides, vendor_front_decides,
};
use abt_io::{Meter, Source, Window};
use byteorder::{ByteOrder, LittleEndian};

/// How many bytes at the beginning of an image decide its header: the longest record has so many.
const RECORD: u64 = 2128;

/// Bytes begin with `VNDRBOOT`.
fn is_vendor(bytes: &[u8]) -> bool
    ensures { result ≡ header_spec.is_vendor bytes.now }
{
    bytes.len() >= 8 && LittleEndian::read_u64(bytes) == VENDOR_MAGIC
}

/// The header whose record is at the beginning, or the first fault.
fn decode_header(bytes: &[u8]) -> Result<ImageHeader, HeaderFault>
    ensures { MatchResult result (λ h. header_spec.image_header_at bytes.now ≡ Ok (header_spec.view_of h))
        (λ f. header_spec.image_header_at bytes.now ≡ Err f) }
{
    if is_vendor(bytes) {
        match VendorHeader::decode(bytes) {
            Ok(header) => Ok(ImageHeader::Vendor(header)),
            Err(fault) => Err(fault),
        }
    } else {
        match BootHeader::decode(bytes) {
            Ok(header) => Ok(ImageHeader::Boot(header)),
            Err(fault) => Err(fault),
        }
    }
}

/// A section isn't empty and ends past so many bytes.
fn ends_past(place: SectionPlace, length: u64) -> bool
    ensures { result ≡ ends_beyond place length }
{
    if place.size == 0 {
        return false;
    }
    if place.at > length {
        return true;
    }
    place.size as u64 > length - place.at
}

/// The first section that isn't empty and ends past so many bytes.
fn first_beyond(sections: &Sections, length: u64, m: &mut Meter) -> Option<Section>
    ensures { result ≡ beyond sections.now length }
{
    for i in 0..sections.count() {
        m.tick();
        let place = sections.place(i);
        if ends_past(place, length) {
            return Some(place.kind);
        }
    }
    None
}

/// How many bytes at the beginning of so many decide the header.
fn front_of(bytes: u64) -> usize
    ensures { result ≡ min bytes 2128 }
{
    bytes.min(RECORD) as usize
}

/// Reads the header of an image that has so many bytes.
fn read_header<S: Source>(
    source: &mut S,
    bytes: u64,
    w: &mut Window,
    m: &mut Meter,
) -> Result<ImageHeader, SectionFault>
    ensures reads { OpensUnless result S.Source source.old source.new
        (IsTrue S.models → bytes ≡ length (S.content source.old) → ⊥) }
    ensures found { IsTrue S.models → bytes ≡ length (S.content source.old) →
        MatchResult result (λ h. header_spec.image_header_at (S.content source.old) ≡ Ok (header_spec.view_of h))
        (λ f. RefusedAs (S.content source.old) f) }
{
    front_decides();
    vendor_front_decides();
    let n = front_of(bytes);
    match read_front(source, 0, n, w, m) {
        Ok(()) => {}
        Err(fault) => return Err(fault),
    }
    let header = decode_header(w.part(0, n));
    m.close_step(n as u32);
    match header {
        Ok(header) => Ok(header),
        Err(fault) => Err(SectionFault::Header(fault)),
    }
}

/// Opens the image at the beginning of a source: a vendor boot image where the magic says so, else a boot image.
///
/// Padding may be any bytes, and so may all that follows the image. The last section may lack its padding.
///
/// # Errors
/// `Read` and `SourceChanged` as they come. Then the first of these: `Header` with a fault of the record;
/// `SectionTruncated` with the first section that isn't empty and ends past the source; `Entry` with the first ramdisk
/// fragment that ends past the vendor ramdisk.
pub fn open<S: Source>(source: &mut S, w: &mut Window, m: &mut Meter) -> Result<Image, SectionFault>
    ensures reads { OpensUnless result S.Source source.old source.new (IsTrue S.models → ⊥) }
    ensures opens { IsTrue S.models → OpensAs (S.content source.old) result }
    ensures length { IfOk result (λ image. image.length ≡ S.size source.old) }
{
    let length = source.length();
    let header = match read_header(source, length, w, m) {
        Ok(header) => header,
        Err(fault) => return Err(fault),
    };
    if let Some(section) = first_beyond(&header.sections(), length, m) {
        return Err(SectionFault::SectionTruncated { section });
    }
    match check_entries(&header, source, w, m) {
        Ok(()) => Ok(Image { header, length }),
        Err(fault) => Err(fault),
    }
}
