//! Tests whether an image is what the packer would have written.

ghost use Rattle.std.specs.Prelude.{◌≡◌, ◌<◌, ◌≤◌, ◌+◌, ◌-◌, ◌^◌, ◌++◌, ◌↔◌, ◌&&◌, IsTrue, IfOk, Err};
ghost use Rattle.std.specs.Prelude.{None, length, take, drop, slice_range};
ghost use Rattle.abt_headers.specs.Places.{EachLow};
ghost use Rattle.abt_sections.specs.Reads.{FindsUnless, ReadsUnless};
ghost use Rattle.abt_sections.specs.Canonical.{StartsAsPacked};
ghost use Rattle.abt_sections.specs.Check as check_spec;
ghost use Rattle.abt_sections.specs.Header.{view_of, places_of};
ghost use Rattle.abt_sections.specs.Layout as layout;
ghost use Rattle.abt_sections.specs.Open.{IsOpened, beyond};

use crate::boot_header::dtbo_offset;
use crate::fault::SectionFault;
use crate::fragment_table::fragments_fill;
use crate::hashing::stored_id;
use crate::image::{Image, ImageHeader, is_as_long};
use crate::reading::{next_ask, read_front};
use crate::texts::no_zero;
use crate::write_padded::padding;
use abt_headers::{BootFront, BootHeader, Sections, ShortFront, VendorHeader};
use abt_io::{Meter, Source, Window};

/// What checking an image found.
#[derive(Clone, Copy, Debug, PartialEq, Eq)]
pub struct Verdict {
    /// All bytes from the end of the header and of each section to the next page boundary are there and zero.
    pub padding: bool,
    /// The id field is the id of the sections; true in versions without one.
    pub id: bool,
    /// `header_size` and `recovery_dtbo_offset` are what the packer writes, where the version has them.
    pub offset: bool,
    /// The bytes are those that the packer writes for these sections and fields.
    pub canonical: bool,
}

// ---- padding

fn all_zero(bytes: &[u8], m: &mut Meter) -> bool
    ensures { result ≡ check_spec.all_zero bytes.now }
{
    for byte in bytes {
        m.tick();
        if *byte != 0 {
            return false;
        }
    }
    true
}

/// The `n` bytes at a place are there and zero.
fn zeros_there<S: Source>(
    source: &mut S,
    at: u64,
    n: u64,
    w: &mut Window,
    m: &mut Meter,
) -> Result<bool, SectionFault>
    ensures found { FindsUnless result S.Source source.old source.new (IsTrue S.models → ⊥)
        (λ b. b ≡ check_spec.zeros_there (S.content source.old) at n) }
{
    if n == 0 {
        return Ok(true);
    }
    let length = source.length();
    if at > length || n > length - at {
        return Ok(false);
    }
    let mut done = 0;
    while done < n {
        m.tick();
        let ask = next_ask(n - done);
        match read_front(source, at + done, ask, w, m) {
            Ok(()) => {}
            Err(fault) => return Err(fault),
        }
        let zero = all_zero(w.part(0, ask), m);
        m.close_step(ask as u32);
        if !zero {
            return Ok(false);
        }
        done += ask as u64;
    }
    Ok(true)
}

/// Each section is padded.
fn places_padded<S: Source>(
    source: &mut S,
    sections: &Sections,
    page: u32,
    w: &mut Window,
    m: &mut Meter,
) -> Result<bool, SectionFault>
    requires some { 0 < page }
    requires low { EachLow sections.now }
    ensures found { FindsUnless result S.Source source.old source.new (IsTrue S.models → ⊥)
        (λ b. b ≡ check_spec.padded_places (S.content source.old) page sections.now) }
{
    for i in 0..sections.count() {
        m.tick();
        let place = sections.place(i);
        let free = padding(place.size as u64, page);
        match zeros_there(source, place.at + place.size as u64, free, w, m) {
            Ok(true) => {}
            Ok(false) => return Ok(false),
            Err(fault) => return Err(fault),
        }
    }
    Ok(true)
}

fn padding_holds<S: Source>(
    header: &ImageHeader,
    source: &mut S,
    w: &mut Window,
    m: &mut Meter,
) -> Result<bool, SectionFault>
    ensures found { FindsUnless result S.Source source.old source.new (IsTrue S.models → ⊥)
        (λ b. b ≡ check_spec.padding_holds (S.content source.old) (view_of header.now)) }
{
    let page = header.page_size();
    let size = header.size() as u64;
    match zeros_there(source, size, padding(size, page), w, m) {
        Ok(true) => {}
        Ok(false) => return Ok(false),
        Err(fault) => return Err(fault),
    }
    places_padded(source, &header.sections(), page, w, m)
}

// ---- id

fn id_holds<S: Source>(
    header: &ImageHeader,
    source: &mut S,
    w: &mut Window,
    m: &mut Meter,
) -> Result<bool, SectionFault>
    ensures reads { ReadsUnless result S.Source source.old source.new
        (IsTrue S.models → beyond (places_of (view_of header.now)) (length (S.content source.old)) ≡ None → ⊥) }
    ensures value { IsTrue S.models → IfOk result (λ b. IsTrue b ↔ check_spec.IdHolds (S.content source.old)
        (view_of header.now)) }
{
    let front = match header {
        ImageHeader::Boot(BootHeader::V0(front)) => front,
        ImageHeader::Boot(BootHeader::V1(front, _)) => front,
        ImageHeader::Boot(BootHeader::V2(front, ..)) => front,
        ImageHeader::Boot(BootHeader::V3(_)) => return Ok(true),
        ImageHeader::Boot(BootHeader::V4(..)) => return Ok(true),
        ImageHeader::Vendor(_) => return Ok(true),
    };
    match stored_id(source, &header.sections(), w, m) {
        Ok(id) => Ok(front.id == id),
        Err(fault) => Err(fault),
    }
}

// ---- offset

fn boot_offset_holds(header: &BootHeader) -> bool
    ensures { result ≡ check_spec.boot_offset_holds header.now }
{
    match header {
        BootHeader::V0(_) => true,
        BootHeader::V1(f, d) => d.header_size == 1648
            && d.recovery_dtbo_offset
                == dtbo_offset(
                    f.page_size.bytes(),
                    f.kernel_size,
                    f.ramdisk_size,
                    f.second_size,
                    d.recovery_dtbo_size,
                ),
        BootHeader::V2(f, d, _) => d.header_size == 1660
            && d.recovery_dtbo_offset
                == dtbo_offset(
                    f.page_size.bytes(),
                    f.kernel_size,
                    f.ramdisk_size,
                    f.second_size,
                    d.recovery_dtbo_size,
                ),
        BootHeader::V3(f) => f.header_size == 1580,
        BootHeader::V4(f, _) => f.header_size == 1584,
    }
}

fn offset_holds(header: &ImageHeader) -> bool
    ensures { result ≡ check_spec.offset_holds (view_of header.now) }
{
    match header {
        ImageHeader::Boot(header) => boot_offset_holds(header),
        ImageHeader::Vendor(VendorHeader::V3(front)) => front.header_size == 2112,
        ImageHeader::Vendor(VendorHeader::V4(front, _)) => front.header_size == 2128,
    }
}

// ---- texts

/// A field is zero from its first zero byte on, and its last byte is zero.
#[inline(never)]
fn text_field(field: &[u8], m: &mut Meter) -> bool
    ensures { result ≡ check_spec.text_field field.now }
{
    for i in 0..field.len() {
        m.tick();
        if field[i] == 0 {
            return all_zero(&field[i..], m);
        }
    }
    false
}

/// The same of two fields that hold one text.
fn long_text_field(front: &[u8], back: &[u8], m: &mut Meter) -> bool
    ensures { result ≡ check_spec.text_field (front.now ++ back.now) }
{
    if text_field(front, m) {
        return all_zero(back, m);
    }
    no_zero(front, m) && text_field(back, m)
}

fn front_texts(front: &BootFront, m: &mut Meter) -> bool
    ensures { result ≡ check_spec.front_texts front.now }
{
    text_field(&front.name, m) && long_text_field(&front.cmdline, &front.extra_cmdline, m)
}

fn short_texts(front: &ShortFront, m: &mut Meter) -> bool
    ensures { result ≡ check_spec.short_texts front.now }
{
    all_zero(&front.reserved, m) && text_field(&front.cmdline, m)
}

fn texts_hold(header: &ImageHeader, m: &mut Meter) -> bool
    ensures { result ≡ check_spec.texts_hold (view_of header.now) }
{
    match header {
        ImageHeader::Boot(BootHeader::V0(front)) => front_texts(front, m),
        ImageHeader::Boot(BootHeader::V1(front, _)) => front_texts(front, m),
        ImageHeader::Boot(BootHeader::V2(front, ..)) => front_texts(front, m),
        ImageHeader::Boot(BootHeader::V3(front)) => short_texts(front, m),
        ImageHeader::Boot(BootHeader::V4(front, _)) => short_texts(front, m),
        ImageHeader::Vendor(VendorHeader::V3(front)) => {
            text_field(&front.name, m) && text_field(&front.cmdline, m)
        }
        ImageHeader::Vendor(VendorHeader::V4(front, _)) => {
            text_field(&front.name, m) && text_field(&front.cmdline, m)
        }
    }
}

/// The verdict on an image, from the rules that hold of it.
fn verdict_of(padding: bool, id: bool, offset: bool, texts: bool, fill: bool) -> Verdict
    ensures padding { result.padding ≡ padding }
    ensures id { result.id ≡ id }
    ensures offset { result.offset ≡ offset }
    ensures canonical { result.canonical ≡ padding && id && offset && texts && fill }
{
    Verdict {
        padding,
        id,
        offset,
        canonical: padding && id && offset && texts && fill,
    }
}

/// Compares an image with what the packer writes, rule by rule.
fn compare<S: Source>(
    image: &Image,
    source: &mut S,
    w: &mut Window,
    m: &mut Meter,
) -> Result<Verdict, SectionFault>
    ensures found { FindsUnless result S.Source source.old source.new
        (IsTrue S.models → IsOpened (S.content source.old) image.now → ⊥)
        (check_spec.IsVerdict (S.content source.old) (view_of image.now.header)) }
    ensures offset { IfOk result (λ v. v.offset ≡ check_spec.offset_holds (view_of image.now.header)) }
    ensures changed { (S.size source.old ≡ image.now.length → ⊥) → (result ≡ Err SectionFault.SourceChanged) ×
        (source.new ≡ source.old) }
{
    if !is_as_long(image, source) {
        return Err(SectionFault::SourceChanged);
    }
    let header = &image.header;
    let padding = match padding_holds(header, source, w, m) {
        Ok(value) => value,
        Err(fault) => return Err(fault),
    };
    let id = match id_holds(header, source, w, m) {
        Ok(value) => value,
        Err(fault) => return Err(fault),
    };
    let fill = match fragments_fill(header, source, w, m) {
        Ok(value) => value,
        Err(fault) => return Err(fault),
    };
    Ok(verdict_of(
        padding,
        id,
        offset_holds(header),
        texts_hold(header, m),
        fill,
    ))
}

/// Checks an image against what the packer writes.
///
/// An opened image is canonical exactly where its bytes begin with an image that the packer writes of some fields and
/// parts that it takes.
///
/// # Errors
/// `Read`, and `SourceChanged` where the source isn't the opened one any more.
pub fn check<S: Source>(
    image: &Image,
    source: &mut S,
    w: &mut Window,
    m: &mut Meter,
) -> Result<Verdict, SectionFault>
    ensures reads { ReadsUnless result S.Source source.old source.new
        (IsTrue S.models → IsOpened (S.content source.old) image.now → ⊥) }
    ensures verdict { IsTrue S.models →
        IfOk result (check_spec.IsVerdict (S.content source.old) (view_of image.now.header)) }
    ensures offset { IfOk result (λ v. v.offset ≡ check_spec.offset_holds (view_of image.now.header)) }
    ensures packed { IsTrue S.models → IsOpened (S.content source.old) image.now →
        IfOk result (λ v. IsTrue v.canonical ↔ StartsAsPacked (S.content source.old)) }
    ensures changed { (S.size source.old ≡ image.now.length → ⊥) → (result ≡ Err SectionFault.SourceChanged) ×
        (source.new ≡ source.old) }
{
    compare(image, source, w, m)
}
