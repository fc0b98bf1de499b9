//! The names of the files that unpack_bootimg writes.

ghost use Rattle.std.specs.Prelude.{◌≡◌, ◌≤◌, MatchOption, length, map, option_map, true};
ghost use Rattle.abt_sections.specs.Header.{view_of};
ghost use Rattle.cmd_common_texts.specs.Words.{has_table};
ghost use Rattle.cmd_unpack_aosp_texts.specs.Files.{are_names, fragment_front, name_of_fragment, name_of_section};
ghost use Rattle.cmd_unpack_aosp_texts.specs.Files.{unless_empty};

use abt_headers::{Section, SectionPlace, VendorHeader};
use abt_sections::ImageHeader;

/// Whether the version has a table of ramdisk fragments.
pub fn has_table(header: &ImageHeader) -> bool
    ensures { result ≡ has_table (view_of header.now) }
{
    match header {
        ImageHeader::Boot(_) => false,
        ImageHeader::Vendor(VendorHeader::V3(_)) => false,
        ImageHeader::Vendor(VendorHeader::V4(..)) => true,
    }
}

/// The file of a section, where there is one. An empty section has one where the tool writes it all the same. A vendor
/// ramdisk with a table has the files of its fragments instead.
pub fn section_file(table: bool, place: SectionPlace) -> Option<&'static str>
    ensures { option_map (λ name. name.now) result ≡ name_of_section table place }
{
    match place.kind {
        Section::Kernel => Some("kernel"),
        Section::Ramdisk => Some("ramdisk"),
        Section::Second => unless_empty(place.size, "second"),
        Section::RecoveryDtbo => unless_empty(place.size, "recovery_dtbo"),
        Section::Dtb => unless_empty(place.size, "dtb"),
        Section::Signature => unless_empty(place.size, "boot_signature"),
        Section::VendorRamdisk => { if table { None } else { Some("vendor_ramdisk") } }
        Section::Table => None,
        Section::Bootconfig => Some("bootconfig"),
    }
}

fn unless_empty(size: u32, name: &'static str) -> Option<&'static str>
    ensures { option_map (λ name. name.now) result ≡ unless_empty size name.now }
{
    if size == 0 { None } else { Some(name) }
}

/// What the name of a fragment's file has before its number, which has two digits or more.
pub(crate) fn fragment_front(index: u32) -> &'static str
    ensures { result.now ≡ fragment_front index }
{
    if index < 10 {
        "vendor_ramdisk0"
    } else {
        "vendor_ramdisk"
    }
}

#[rattlefmt::skip]
static FRAGMENTS: [&str; 100] = [
    "vendor_ramdisk00", "vendor_ramdisk01", "vendor_ramdisk02", "vendor_ramdisk03",
    "vendor_ramdisk04", "vendor_ramdisk05", "vendor_ramdisk06", "vendor_ramdisk07",
    "vendor_ramdisk08", "vendor_ramdisk09", "vendor_ramdisk10", "vendor_ramdisk11",
    "vendor_ramdisk12", "vendor_ramdisk13", "vendor_ramdisk14", "vendor_ramdisk15",
    "vendor_ramdisk16", "vendor_ramdisk17", "vendor_ramdisk18", "vendor_ramdisk19",
    "vendor_ramdisk20", "vendor_ramdisk21", "vendor_ramdisk22", "vendor_ramdisk23",
    "vendor_ramdisk24", "vendor_ramdisk25", "vendor_ramdisk26", "vendor_ramdisk27",
    "vendor_ramdisk28", "vendor_ramdisk29", "vendor_ramdisk30", "vendor_ramdisk31",
    "vendor_ramdisk32", "vendor_ramdisk33", "vendor_ramdisk34", "vendor_ramdisk35",
    "vendor_ramdisk36", "vendor_ramdisk37", "vendor_ramdisk38", "vendor_ramdisk39",
    "vendor_ramdisk40", "vendor_ramdisk41", "vendor_ramdisk42", "vendor_ramdisk43",
    "vendor_ramdisk44", "vendor_ramdisk45", "vendor_ramdisk46", "vendor_ramdisk47",
    "vendor_ramdisk48", "vendor_ramdisk49", "vendor_ramdisk50", "vendor_ramdisk51",
    "vendor_ramdisk52", "vendor_ramdisk53", "vendor_ramdisk54", "vendor_ramdisk55",
    "vendor_ramdisk56", "vendor_ramdisk57", "vendor_ramdisk58", "vendor_ramdisk59",
    "vendor_ramdisk60", "vendor_ramdisk61", "vendor_ramdisk62", "vendor_ramdisk63",
    "vendor_ramdisk64", "vendor_ramdisk65", "vendor_ramdisk66", "vendor_ramdisk67",
    "vendor_ramdisk68", "vendor_ramdisk69", "vendor_ramdisk70", "vendor_ramdisk71",
    "vendor_ramdisk72", "vendor_ramdisk73", "vendor_ramdisk74", "vendor_ramdisk75",
    "vendor_ramdisk76", "vendor_ramdisk77", "vendor_ramdisk78", "vendor_ramdisk79",
    "vendor_ramdisk80", "vendor_ramdisk81", "vendor_ramdisk82", "vendor_ramdisk83",
    "vendor_ramdisk84", "vendor_ramdisk85", "vendor_ramdisk86", "vendor_ramdisk87",
    "vendor_ramdisk88", "vendor_ramdisk89", "vendor_ramdisk90", "vendor_ramdisk91",
    "vendor_ramdisk92", "vendor_ramdisk93", "vendor_ramdisk94", "vendor_ramdisk95",
    "vendor_ramdisk96", "vendor_ramdisk97", "vendor_ramdisk98", "vendor_ramdisk99",
];

/// The file of a ramdisk fragment, which the first hundred have.
#[inline(never)]
pub fn fragment_file(index: u32) -> Option<&'static str>
    ensures { MatchOption result (100 ≤ index) (λ name. name.now ≡ name_of_fragment index) }
{
    match listed().get(index as usize) {
        Some(name) => Some(*name),
        None => None,
    }
}

fn listed() -> &'static [&'static str]
    ensures names { are_names (map (λ name. name.now) result.now) 0 ≡ true }
    ensures count { length result.now ≡ 100 }
{
    &FRAGMENTS
}
