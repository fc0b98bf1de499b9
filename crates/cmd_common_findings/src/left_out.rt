//! What packing an image again leaves out.

ghost use Rattle.std.specs.Prelude.{◌≡◌, ◌<◌, ◌≤◌, ◌+◌, ◌++◌, ◌*◌, ◌^◌, Some, IfOk, length};
ghost use Rattle.abt_sections.specs.Header.{view_of};
ghost use Rattle.abt_sections.specs.Open.{IsOpened};
ghost use Rattle.cmd_common_findings.specs.Finding.{LooksFor};
ghost use Rattle.cmd_common_findings.specs.LeftOut as spec;

use crate::section_places::end_of;
use crate::set_bytes::{count_set, set_between};
use abt_headers::{BootHeader, pages};
use abt_io::{Meter, Source, Window};
use abt_sections::{Image, ImageHeader, SectionFault, section, sections};
use cmd_common_fields::{TextField, front_text, text_field_of};
use std::fmt;

/// How many bytes of an image are in no field and no part. Only bytes that are not zero count, except in `ramdisk`.
#[derive(Clone, Copy, Drop)]
pub struct LeftOut {
    /// Reserved bytes of the header.
    pub reserved: u64,
    /// Bytes after the end of a name or command line.
    pub texts: u64,
    /// Bytes between the sections.
    pub padding: u64,
    /// Bytes of the vendor ramdisk in no fragment, zeros among them.
    pub ramdisk: u64,
    /// Bytes after the image, such as an AVB footer.
    pub trailing: u64,
}

impl LeftOut {
    /// Whether nothing is left out.
    pub fn is_nothing(self) -> bool
        ensures { result ≡ spec.is_nothing self }
    {
        self.reserved == 0
            && self.texts == 0
            && self.padding == 0
            && self.ramdisk == 0
            && self.trailing == 0
    }
}

impl fmt::Display for LeftOut {
    ghost output = { λ left. Some (spec.left_out_text left) };

    fn fmt<W: fmt::Write>(&self, f: &mut fmt::Formatter<W>) -> fmt::Result {
        let reserved = self.reserved;
        let texts = self.texts;
        let padding = self.padding;
        let ramdisk = self.ramdisk;
        let trailing = self.trailing;
        write!(
            f,
            "left out bytes: reserved {reserved} texts {texts} padding {padding} ramdisk {ramdisk} trailing {trailing}"
        )
    }
}

/// What is replaced or kept as it is, and so leaves nothing out.
#[derive(Clone, Copy, Drop)]
pub struct Anew {
    pub name: bool,
    pub cmdline: bool,
    /// The bytes after the image.
    pub trailing: bool,
}

/// Counts what is left out of an image. `ramdisk` is the number of bytes of its vendor ramdisk in no fragment.
pub fn count_left_out<S: Source>(
    image: &Image,
    anew: Anew,
    ramdisk: u64,
    source: &mut S,
    w: &mut Window,
    m: &mut Meter,
) -> Result<LeftOut, SectionFault>
    ensures counts { LooksFor result S.Source source.old source.new (λ left. IsOpened (S.content source.old) image.now →
        left ≡ spec.left_out_of anew ramdisk (S.content source.old) (view_of image.now.header)) }
{
    let padding = match padding_left(image, source, w, m) {
        Ok(count) => count,
        Err(fault) => return Err(fault),
    };
    let trailing = match trailing_left(image, anew, source, w, m) {
        Ok(count) => count,
        Err(fault) => return Err(fault),
    };
    Ok(LeftOut {
        reserved: reserved_left(&image.header),
        texts: texts_left(&image.header, anew),
        padding,
        ramdisk,
        trailing,
    })
}

fn reserved_left(header: &ImageHeader) -> u64
    ensures { result ≡ spec.set_in (spec.reserved_of (view_of header.now)) }
{
    match header {
        ImageHeader::Boot(BootHeader::V0(_)) => 0,
        ImageHeader::Boot(BootHeader::V1(..)) => 0,
        ImageHeader::Boot(BootHeader::V2(..)) => 0,
        ImageHeader::Boot(BootHeader::V3(front)) => count_set(&front.reserved),
        ImageHeader::Boot(BootHeader::V4(front, _)) => count_set(&front.reserved),
        ImageHeader::Vendor(_) => 0,
    }
}

// ---- texts

fn texts_left(header: &ImageHeader, anew: Anew) -> u64
    ensures { result ≡ spec.texts_left anew (view_of header.now) }
{
    name_left(header, anew.name) + cmdline_left(header, anew.cmdline)
}

fn name_left(header: &ImageHeader, anew: bool) -> u64
    ensures value { result ≡ spec.text_left anew (spec.header_name (view_of header.now)) }
    ensures few { result ≤ 2048 }
{
    if anew {
        return 0;
    }
    behind_text(text_field_of(header, TextField::Name).unwrap_or(&[]), &[])
}

fn cmdline_left(header: &ImageHeader, anew: bool) -> u64
    ensures value { result ≡ spec.text_left anew (spec.cmdline_of (view_of header.now)) }
    ensures few { result ≤ 4096 }
{
    if anew {
        return 0;
    }
    let front = text_field_of(header, TextField::Cmdline).unwrap_or(&[]);
    let back = text_field_of(header, TextField::Extra).unwrap_or(&[]);
    behind_text(front, back)
}

// The number of bytes that are not zero after the first zero byte of the text that two fields hold together.
fn behind_text(front: &[u8], back: &[u8]) -> u64
    ensures value { result ≡ spec.set_in (spec.behind_text (front.now ++ back.now)) }
    ensures few { result ≤ length front.now + length back.now }
{
    let end = front_text(front).len();
    if end < front.len() {
        return count_set(&front[end..]) + count_set(back);
    }
    count_set(&back[front_text(back).len()..])
}

// ---- padding

fn padding_left<S: Source>(
    image: &Image,
    source: &mut S,
    w: &mut Window,
    m: &mut Meter,
) -> Result<u64, SectionFault>
    ensures { LooksFor result S.Source source.old source.new
        (λ n. n ≡ spec.padding_left (S.content source.old) (view_of image.now.header)) }
{
    let page = image.header.page_size();
    let mut count = match set_behind(source, image.header.size() as u64, page, w, m) {
        Ok(count) => count,
        Err(fault) => return Err(fault),
    };
    for i in 0..sections(image) {
        m.tick();
        let place = section(image, i);
        match set_behind(source, place.at + place.size as u64, page, w, m) {
            Ok(more) => count += more,
            Err(fault) => return Err(fault),
        }
    }
    Ok(count)
}

// How many bytes are not zero from a place up to a page boundary.
fn set_behind<S: Source>(
    source: &mut S,
    at: u64,
    page: u32,
    w: &mut Window,
    m: &mut Meter,
) -> Result<u64, SectionFault>
    requires low { at < 2 ^ 63 }
    requires some { 0 < page }
    ensures finds { LooksFor result S.Source source.old source.new
        (λ n. n ≡ spec.set_in_padding (S.content source.old) page at) }
    ensures few { IfOk result (λ n. n ≤ page) }
{
    set_between(source, at, pages(at, page) * page as u64, w, m)
}

// ---- after the image

fn trailing_left<S: Source>(
    image: &Image,
    anew: Anew,
    source: &mut S,
    w: &mut Window,
    m: &mut Meter,
) -> Result<u64, SectionFault>
    ensures { LooksFor result S.Source source.old source.new (λ n. IsOpened (S.content source.old) image.now →
        n ≡ spec.trailing_left anew (S.content source.old) (view_of image.now.header)) }
{
    if anew.trailing {
        return Ok(0);
    }
    set_between(source, end_of(image), image.length, w, m)
}
