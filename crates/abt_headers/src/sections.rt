//! The sections of an image: their names and their places.

ghost use Rattle.std.specs.Prelude.{◌≡◌, ◌+◌, ◌*◌, ◌≤◌, ◌<◌, ◌^◌, List, length, slice_index_or};
ghost use Rattle.abt_headers.specs.Page as of_page;
ghost use Rattle.abt_headers.specs.Places.{EachLow, MayLay, places_from, section_name, section_place};

use std::fmt;
use std::marker::Model;

/// What a section of an image holds.
#[derive(Clone, Copy, Debug, PartialEq, Eq)]
pub enum Section {
    /// The kernel of a boot image.
    Kernel,

    /// The ramdisk of a boot image.
    Ramdisk,

    /// The second-stage boot loader of a boot image of versions 0 to 2.
    Second,

    /// The DTBO or ACPIO of a recovery image, in versions 1 and 2.
    RecoveryDtbo,

    /// The device tree blobs of a boot image of version 2 or a vendor boot image.
    Dtb,

    /// The boot signature of a boot image of version 4.
    Signature,

    /// The ramdisk of a vendor boot image, all fragments end to end in version 4.
    VendorRamdisk,

    /// The table of ramdisk fragments of a vendor boot image of version 4.
    Table,

    /// The bootconfig of a vendor boot image of version 4.
    Bootconfig,
}

impl Section {
    /// The section's name in texts and file names.
    pub fn name(&self) -> &'static str
        ensures { result.now ≡ section_name self.now }
    {
        match self {
            Section::Kernel => "kernel",
            Section::Ramdisk => "ramdisk",
            Section::Second => "second",
            Section::RecoveryDtbo => "recovery_dtbo",
            Section::Dtb => "dtb",
            Section::Signature => "signature",
            Section::VendorRamdisk => "vendor_ramdisk",
            Section::Table => "table",
            Section::Bootconfig => "bootconfig",
        }
    }
}

/// Shows the name.
impl fmt::Display for Section {
    ghost use Rattle.std.specs.Prelude.{Some};
    ghost use Rattle.std.specs.Fmt.{padded};
    ghost use Rattle.abt_headers.specs.Places.{section_name};

    ghost output = { λ section. Some (section_name section) };

    ghost styled_output = { λ section spec. Some (padded spec (section_name section)) };

    fn fmt<W: fmt::Write>(&self, f: &mut fmt::Formatter<W>) -> fmt::Result {
        f.pad(self.name())
    }
}

/// Where a section is in an image.
#[derive(Clone, Copy, Debug, PartialEq, Eq)]
pub struct SectionPlace {
    /// What is stored there.
    pub kind: Section,

    /// The offset of its first byte in the image, a whole number of pages. It may be above 2^32.
    pub at: u64,

    /// How many bytes it has, without padding.
    pub size: u32,
}

/// The sections of an image in their order, empty ones too: at most five.
#[derive(Debug, Drop)]
pub struct Sections {
    places: [SectionPlace; 5],
    count: usize,
}

impl Model for Sections {
    ghost use Rattle.std.specs.Prelude.{◌≡◌, ◌≤◌, List, length, take};
    ghost use Rattle.abt_headers.specs.declared.sections.SectionPlace.{SectionPlace};

    ghost Value = { List SectionPlace };

    ghost view = { λ s. take s.count s.places };

    ghost invariant = { λ s. (s.count ≤ 5) × (length s.places ≡ 5) };
}

impl Sections {
    /// How many sections there are.
    pub fn count(&self) -> usize
        ensures { result ≡ length self.now }
    {
        self.count
    }

    /// Where section `i` is, counted from 0.
    pub fn place(&self, i: usize) -> SectionPlace
        requires { i < length self.now }
        ensures { result ≡ slice_index_or self.now i result }
    {
        let places = &self.places[..self.count];
        places[i]
    }
}

/// How many pages of `page` bytes hold `size` bytes: the least number that does.
pub fn pages(size: u64, page: u32) -> u64
    requires { 0 < page }
    ensures value { result ≡ of_page.pages size page }
    ensures enough { size ≤ result * page }
    ensures least { result * page < size + page }
{
    size.div_ceil(page as u64)
}

/// How many pages are before the section after one of this size, which itself follows `before` pages.
fn pages_before(page: u32, before: u64, size: u32) -> u64
    requires low { 2048 ≤ page }
    requires few { before ≤ 8388614 }
    ensures value { result ≡ before + of_page.pages size page }
    ensures few { result ≤ before + 2097153 }
{
    before + pages(size as u64, page)
}

/// Where a section is that follows so many pages.
fn place_behind(page: u32, before: u64, section: (Section, u32)) -> SectionPlace
    requires high { page ≤ 131072 }
    requires few { before ≤ 8388614 }
    ensures value { result ≡ section_place page before section }
    ensures low { result.at + result.size < 2 ^ 63 }
{
    SectionPlace {
        kind: section.0,
        at: page as u64 * before,
        size: section.1,
    }
}

/// The first five places of sections of these sizes, one after another, each from a page boundary on and the first
/// after `first` pages.
fn five_places(page: u32, first: u64, sections: &[(Section, u32); 5]) -> [SectionPlace; 5]
    requires { MayLay page first }
    ensures places { result ≡ places_from page first sections.now }
    ensures low { EachLow result }
{
    let second = pages_before(page, first, sections[0].1);
    let third = pages_before(page, second, sections[1].1);
    let fourth = pages_before(page, third, sections[2].1);
    let fifth = pages_before(page, fourth, sections[3].1);
    [
        place_behind(page, first, sections[0]),
        place_behind(page, second, sections[1]),
        place_behind(page, third, sections[2]),
        place_behind(page, fourth, sections[3]),
        place_behind(page, fifth, sections[4]),
    ]
}

/// Places sections of these sizes one after another, each from a page boundary on and the first
/// after `first` pages.
pub(crate) fn lay(page: u32, first: u64, sections: &[(Section, u32)]) -> Sections
    requires count { length sections.now ≤ 5 }
    requires may { MayLay page first }
    ensures places { result ≡ places_from page first sections.now }
    ensures low { EachLow result }
{
    let mut all = [(Section::Kernel, 0); 5];
    all[..sections.len()].copy_from_slice(sections);
    Sections {
        places: five_places(page, first, &all),
        count: sections.len(),
    }
}
