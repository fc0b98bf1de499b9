//! The vendor boot header, versions 3 and 4: its parts, and its public calls.

ghost use Rattle.std.specs.Prelude.{◌≡◌, ◌+◌, ◌≤◌, ◌++◌, ℕ, List, IfOk, IfErr, MatchResult, Ok, Err, length, drop};
ghost use Rattle.std.specs.Prelude.{take};
ghost use Rattle.abt_headers.specs.Fault.{header_fault_number};
ghost use Rattle.abt_headers.specs.Page.{IsPage};
ghost use Rattle.abt_headers.specs.Places.{EachLow};
ghost use Rattle.abt_headers.specs.Vendor.{Vendor, vendor_at, vendor_page, vendor_places, vendor_record, vendor_size};
ghost use Rattle.abt_headers.specs.Vendor.{vendor_version, vendor_view};
ghost use Rattle.abt_headers.specs.VendorFits.{VendorFits};

use crate::fault::HeaderFault;
use crate::page::PageSize;
use crate::sections::{Section, Sections, lay, pages};
use crate::vendor_reading::read_vendor_header;
use crate::vendor_tail::VendorTail;
use crate::vendor_writing::{vendor_header_fits, write_vendor_header};

/// The magic `VNDRBOOT`, read as a little-endian number.
pub const VENDOR_MAGIC: u64 = 0x544f_4f42_5244_4e56;

/// What both versions begin with: `vendor_boot_img_hdr_v3` of `bootimg.h`, without `magic` and
/// `header_version`, which the variant of `VendorHeader` fixes. All sizes are in bytes, and all
/// addresses are physical load addresses.
#[derive(Clone, Copy, Debug, PartialEq, Eq)]
pub struct VendorFront {
    /// The page size of the flash, at whose boundaries the sections are.
    pub page_size: PageSize,

    /// The address at which the kernel is loaded.
    pub kernel_addr: u32,

    /// The address at which the ramdisk is loaded.
    pub ramdisk_addr: u32,

    /// The size of the vendor ramdisk, in version 4 of all its fragments together.
    pub vendor_ramdisk_size: u32,

    /// The vendor's part of the kernel's command line, which ends in a zero byte.
    pub cmdline: [u8; 2048],

    /// The address of the kernel's tags, where it needs them.
    pub tags_addr: u32,

    /// The product's name, a text that ends in a zero byte.
    pub name: [u8; 16],

    /// The size of this record as its maker gives it. It is kept as read.
    pub header_size: u32,

    /// The size of the device tree blobs.
    pub dtb_size: u32,

    /// The address at which the device tree blobs are loaded.
    pub dtb_addr: u64,
}

/// The header of a vendor boot image, by its version.
#[derive(Clone, Copy, Debug, PartialEq, Eq)]
pub enum VendorHeader {
    /// Version 3, of 2,112 bytes.
    V3(VendorFront),

    /// Version 4, of 2,128 bytes.
    V4(VendorFront, VendorTail),
}

impl VendorHeader {
    /// The header whose record is at the beginning of these bytes, whatever follows it.
    ///
    /// Else the first of these faults: 25 with need 8; 20 where the first eight bytes are not
    /// `VNDRBOOT`; 25 with need 12; 21 for a version other than 3 and 4; 25 with the record's
    /// size; 22 for a size that a page may not have; and in version 4 23 where an entry of the
    /// table has not 108 bytes, or the table not as many bytes as its entries together.
    pub fn decode(bytes: &[u8]) -> Result<VendorHeader, HeaderFault>
        ensures exact { MatchResult result (λ h. vendor_at bytes.now ≡ Ok (vendor_view h))
            (λ f. vendor_at bytes.now ≡ Err f) }
        ensures size { IfOk result (λ h. vendor_size (vendor_view h) ≤ length bytes.now) }
        ensures back { IfOk result
            (λ h. vendor_record (vendor_view h) ++ drop (vendor_size (vendor_view h)) bytes.now ≡ bytes.now) }
        ensures fault { IfErr result (λ f. header_fault_number f ≤ 25) }
        ensures found { (v : Vendor) (rest : List ℕ) → VendorFits v → bytes.now ≡ vendor_record v ++ rest →
            MatchResult result (λ h. vendor_view h ≡ v) (λ _. ⊥) }
    {
        read_vendor_header(bytes)
    }

    /// Writes the record to the beginning of `out`, leaves the bytes after it as they were, and
    /// returns the record's size.
    pub fn encode(&self, out: &mut [u8; 2128]) -> usize
        ensures size { result ≡ vendor_size (vendor_view self.now) }
        ensures long { length (vendor_record (vendor_view self.now)) ≡ vendor_size (vendor_view self.now) }
        ensures bytes { out.new
            ≡ vendor_record (vendor_view self.now) ++ drop (vendor_size (vendor_view self.now)) out.old }
        ensures again { (rest : List ℕ)
            → vendor_at (vendor_record (vendor_view self.now) ++ rest) ≡ Ok (vendor_view self.now) }
    {
        vendor_header_fits(self);
        write_vendor_header(self, out)
    }

    /// How many bytes the record has: 2,112 or 2,128, by the version alone.
    pub fn size(&self) -> usize
        ensures { result ≡ vendor_size (vendor_view self.now) }
    {
        match self {
            VendorHeader::V3(_) => 2112,
            VendorHeader::V4(..) => 2128,
        }
    }

    /// `header_version`, 3 or 4.
    pub fn version(&self) -> u32
        ensures { result ≡ vendor_version (vendor_view self.now) }
    {
        match self {
            VendorHeader::V3(_) => 3,
            VendorHeader::V4(..) => 4,
        }
    }

    /// How many bytes a page has.
    #[inline(never)]
    pub fn page_size(&self) -> u32
        ensures { IsPage result (vendor_page (vendor_view self.now)) }
    {
        match self {
            VendorHeader::V3(front) => front.page_size.bytes(),
            VendorHeader::V4(front, _) => front.page_size.bytes(),
        }
    }

    /// Where the sections after the header are, in order, empty ones too. At a page size of
    /// 2,048 the header takes two pages.
    pub fn sections(&self) -> Sections
        ensures value { result ≡ vendor_places (vendor_view self.now) }
        ensures low { EachLow (vendor_places (vendor_view self.now)) }
    {
        let page = self.page_size();
        let first = pages(self.size() as u64, page);
        match self {
            VendorHeader::V3(front) => lay(
                page,
                first,
                &[
                    (Section::VendorRamdisk, front.vendor_ramdisk_size),
                    (Section::Dtb, front.dtb_size),
                ],
            ),
            VendorHeader::V4(front, tail) => lay(
                page,
                first,
                &[
                    (Section::VendorRamdisk, front.vendor_ramdisk_size),
                    (Section::Dtb, front.dtb_size),
                    (Section::Table, tail.table_size),
                    (Section::Bootconfig, tail.bootconfig_size),
                ],
            ),
        }
    }
}

/// Every vendor boot header whose fields fit is read from the record that it is written as,
/// whatever follows.
pub fn vendor_again()
    ensures { (v : Vendor) (rest : List ℕ) → VendorFits v → vendor_at (vendor_record v ++ rest) ≡ Ok v }
{}

/// The record of a vendor boot header whose fields fit has the size of its version.
pub fn vendor_long()
    ensures { (v : Vendor) → VendorFits v → length (vendor_record v) ≡ vendor_size v }
{}

/// A vendor boot header is read from its first 2,128 bytes alone, so that a caller may read no
/// more.
pub fn vendor_front_decides()
    ensures { (m : ℕ) (x : List ℕ) → 2128 ≤ m → vendor_at (take m x) ≡ vendor_at x }
{}
