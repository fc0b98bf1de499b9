//! The sections of a boot image, reported to C.

ghost use Rattle.std.specs.Prelude.{◌≡◌, ◌≤◌, length};
ghost use Rattle.abt_headers.specs.Boot.{boot_at};
ghost use Rattle.abt_headers.specs.Vendor.{vendor_at, vendor_view};
ghost use Rattle.abt_c.specs.Told.{TellsFault, InfoIs, TellsSections, TellsBoot, TellsVendor, header_detail};
ghost use Rattle.abt_c.specs.Told.{section_at};
ghost use Rattle.abt_c.specs.Told.{section_number};

use crate::boot_told::{AbtBoot, AbtSection};
use abt_headers::{BootHeader, HeaderFault, Section, Sections, VendorHeader};

/// The number of a section.
fn number_of(kind: Section) -> u32
    ensures { result ≡ section_number kind }
{
    match kind {
        Section::Kernel => 1,
        Section::Ramdisk => 2,
        Section::Second => 3,
        Section::RecoveryDtbo => 4,
        Section::Dtb => 5,
        Section::Signature => 6,
        Section::VendorRamdisk => 7,
        Section::Table => 8,
        Section::Bootconfig => 9,
    }
}

/// Section `i`, and none after the last.
#[tactic(auto, using(crate::proofs::Sections::section_is, crate::proofs::Sections::section_past))]
fn section(places: &Sections, i: usize) -> AbtSection
    ensures { result ≡ section_at places.now i }
{
    if i >= places.count() {
        return AbtSection {
            kind: 0,
            size: 0,
            at: 0,
        };
    }
    let place = places.place(i);
    AbtSection {
        kind: number_of(place.kind),
        size: place.size,
        at: place.at,
    }
}

/// The sections of an image, and nothing else of it.
fn shown(places: &Sections) -> AbtBoot
    requires { length places.now ≤ 5 }
    ensures shows { TellsSections places.now result }
    ensures fault { result.fault ≡ 0 }
    ensures detail { result.detail ≡ 0 }
    ensures reserved { result.reserved ≡ 0 }
{
    AbtBoot {
        fault: 0,
        detail: 0,
        kind: 0,
        version: 0,
        page_size: 0,
        header_size: 0,
        count: places.count() as u32,
        reserved: 0,
        sections: [
            section(places, 0),
            section(places, 1),
            section(places, 2),
            section(places, 3),
            section(places, 4),
        ],
    }
}

/// What a boot header says.
#[tactic(auto, using(crate::proofs::Sections::boot_few))]
fn boot_told(header: &BootHeader) -> AbtBoot
    ensures { TellsBoot header.now result }
{
    let mut told = shown(&header.sections());
    told.kind = 1;
    told.version = header.version();
    told.page_size = header.page_size();
    told.header_size = header.size() as u32;
    told
}

/// What a vendor boot header says.
#[tactic(auto, using(crate::proofs::Sections::vendor_few))]
fn vendor_told(header: &VendorHeader) -> AbtBoot
    ensures { TellsVendor (vendor_view header.now) result }
{
    let mut told = shown(&header.sections());
    told.kind = 2;
    told.version = header.version();
    told.page_size = header.page_size();
    told.header_size = header.size() as u32;
    told
}

/// The detail of a fault beside its number.
pub fn detail(fault: HeaderFault) -> u32
    ensures { result ≡ header_detail fault }
{
    match fault {
        HeaderFault::Magic => 0,
        HeaderFault::Version(n) => n,
        HeaderFault::PageSize(n) => n,
        HeaderFault::Table => 0,
        HeaderFault::Short { need } => need,
        HeaderFault::Os => 0,
    }
}

/// A fault and nothing else.
fn refused(fault: HeaderFault) -> AbtBoot
    ensures { TellsFault fault result }
{
    let none = AbtSection {
        kind: 0,
        size: 0,
        at: 0,
    };
    AbtBoot {
        fault: fault.number(),
        detail: detail(fault),
        kind: 0,
        version: 0,
        page_size: 0,
        header_size: 0,
        count: 0,
        reserved: 0,
        sections: [none; 5],
    }
}

/// What these bytes say as a boot header and, where the magic is not its own, as a vendor boot header.
fn info(head: &[u8]) -> AbtBoot
    ensures { InfoIs (boot_at head.now) (vendor_at head.now) result }
{
    match BootHeader::decode(head) {
        Ok(header) => boot_told(&header),
        Err(HeaderFault::Magic) => match VendorHeader::decode(head) {
            Ok(header) => vendor_told(&header),
            Err(fault) => refused(fault),
        },
        Err(fault) => refused(fault),
    }
}

/// What the header at the beginning of these bytes says, of a boot image or a vendor boot image. 0, or the number of
/// the fault.
#[unsafe(no_mangle)]
pub extern "C" fn abt_boot_info(head: &[u8], out: &mut AbtBoot) -> u32
    ensures told { InfoIs (boot_at head.now) (vendor_at head.now) out.new }
    ensures fault { result ≡ out.new.fault }
{
    *out = info(head);
    out.fault
}
