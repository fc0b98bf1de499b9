//! The boot header, versions 0 to 4: its parts by version, and its public calls.

ghost use Rattle.std.specs.Prelude.{◌≡◌, ◌+◌, ◌≤◌, ◌++◌, ◌↔◌, ℕ, List, IfOk, IfErr, Ok, length, drop, take};
ghost use Rattle.abt_headers.specs.Boot.{boot_at, boot_page, boot_places, boot_record, boot_size, boot_version};
ghost use Rattle.abt_headers.specs.Fault.{header_fault_number};
ghost use Rattle.abt_headers.specs.Fits.{BootFits};
ghost use Rattle.abt_headers.specs.Page.{IsPage};
ghost use Rattle.abt_headers.specs.Places.{EachLow};

use crate::boot_reading::read_boot_header;
use crate::boot_writing::{boot_header_fits, write_boot_header};
use crate::fault::HeaderFault;
use crate::os::OsVersion;
use crate::page::PageSize;
use crate::sections::{Section, Sections, lay, pages};

/// The magic `ANDROID!`, read as a little-endian number.
pub(crate) const BOOT_MAGIC: u64 = 0x2144_494f_5244_4e41;

/// What boot headers of versions 0 to 2 begin with: `boot_img_hdr_v0` of `bootimg.h`, without
/// `magic` and `header_version`, which the variant of `BootHeader` fixes. All sizes are in bytes,
/// and all addresses are physical load addresses.
#[derive(Clone, Copy, Debug, PartialEq, Eq)]
pub struct BootFront {
    /// The size of the kernel.
    pub kernel_size: u32,

    /// The address at which the kernel is loaded.
    pub kernel_addr: u32,

    /// The size of the ramdisk.
    pub ramdisk_size: u32,

    /// The address at which the ramdisk is loaded.
    pub ramdisk_addr: u32,

    /// The size of the second-stage boot loader.
    pub second_size: u32,

    /// The address at which the second-stage boot loader is loaded.
    pub second_addr: u32,

    /// The address of the kernel's tags, where it needs them.
    pub tags_addr: u32,

    /// The page size of the flash, at whose boundaries the sections are.
    pub page_size: PageSize,

    /// The OS version and patch level.
    pub os_version: OsVersion,

    /// The product's name, a text that ends in a zero byte.
    pub name: [u8; 16],

    /// The first 512 bytes of the kernel's command line.
    pub cmdline: [u8; 512],

    /// What identifies the image: `mkbootimg` writes the SHA-1 of its sections, and twelve zeros.
    pub id: [u8; 32],

    /// The rest of the command line, which ends in a zero byte.
    pub extra_cmdline: [u8; 1024],
}

/// What version 1 adds to version 0, as `boot_img_hdr_v1` does.
#[derive(Clone, Copy, Debug, PartialEq, Eq)]
pub struct DtboFields {
    /// The size of the recovery DTBO or ACPIO, in bytes.
    pub recovery_dtbo_size: u32,

    /// Its offset in the image. It is kept as read: the order of the sections decides where the
    /// recovery DTBO is.
    pub recovery_dtbo_offset: u64,

    /// The size of this record as its maker gives it. It is kept as read.
    pub header_size: u32,
}

/// What version 2 adds to version 1, as `boot_img_hdr_v2` does.
#[derive(Clone, Copy, Debug, PartialEq, Eq)]
pub struct DtbFields {
    /// The size of the device tree blobs, in bytes.
    pub dtb_size: u32,

    /// The address at which they are loaded.
    pub dtb_addr: u64,
}

/// What versions 3 and 4 begin with: `boot_img_hdr_v3`, without `magic` and `header_version`.
/// Their pages have 4,096 bytes.
#[derive(Clone, Copy, Debug, PartialEq, Eq)]
pub struct ShortFront {
    /// The size of the kernel, in bytes.
    pub kernel_size: u32,

    /// The size of the ramdisk, in bytes.
    pub ramdisk_size: u32,

    /// The OS version and patch level.
    pub os_version: OsVersion,

    /// The size of this record as its maker gives it. It is kept as read.
    pub header_size: u32,

    /// Four numbers without a meaning yet. They are kept as read.
    pub reserved: [u8; 16],

    /// The kernel's command line, which ends in a zero byte.
    pub cmdline: [u8; 1536],
}

/// The header of a boot image, by its version. `init_boot` images have version 4 and a kernel of
/// size 0.
#[derive(Clone, Copy, Debug, PartialEq, Eq)]
pub enum BootHeader {
    /// Version 0, of 1,632 bytes.
    V0(BootFront),

    /// Version 1, of 1,648 bytes.
    V1(BootFront, DtboFields),

    /// Version 2, of 1,660 bytes.
    V2(BootFront, DtboFields, DtbFields),

    /// Version 3, of 1,580 bytes.
    V3(ShortFront),

    /// Version 4, of 1,584 bytes, with the size of the boot signature, in bytes.
    V4(ShortFront, u32),
}

impl BootHeader {
    /// The header whose record is at the beginning of these bytes, whatever follows it.
    ///
    /// Else the first of these faults: 25 with need 8; 20 where the first eight bytes are not
    /// `ANDROID!`; 25 with need 44; 21 for a version above 4; 25 with the record's size; and in
    /// versions 0 to 2 22 for a size that a page may not have.
    pub fn decode(bytes: &[u8]) -> Result<BootHeader, HeaderFault>
        ensures exact { result ≡ boot_at bytes.now }
        ensures size { IfOk result (λ h. boot_size h ≤ length bytes.now) }
        ensures back { IfOk result (λ h. boot_record h ++ drop (boot_size h) bytes.now ≡ bytes.now) }
        ensures fault { IfErr result (λ f. header_fault_number f ≤ 25) }
        ensures found { (h : BootHeader) (rest : List ℕ) → BootFits h → bytes.now ≡ boot_record h ++ rest →
            result ≡ Ok h }
    {
        read_boot_header(bytes)
    }

    /// Writes the record to the beginning of `out`, leaves the bytes after it as they were, and
    /// returns the record's size.
    pub fn encode(&self, out: &mut [u8; 1660]) -> usize
        ensures size { result ≡ boot_size self.now }
        ensures long { length (boot_record self.now) ≡ boot_size self.now }
        ensures bytes { out.new ≡ boot_record self.now ++ drop (boot_size self.now) out.old }
        ensures again { (rest : List ℕ) → boot_at (boot_record self.now ++ rest) ≡ Ok self.now }
    {
        boot_header_fits(self);
        write_boot_header(self, out)
    }

    /// How many bytes the record has: 1,580 to 1,660, by the version alone.
    pub fn size(&self) -> usize
        ensures { result ≡ boot_size self.now }
    {
        match self {
            BootHeader::V0(_) => 1632,
            BootHeader::V1(..) => 1648,
            BootHeader::V2(..) => 1660,
            BootHeader::V3(_) => 1580,
            BootHeader::V4(..) => 1584,
        }
    }

    /// `header_version`, from 0 to 4.
    pub fn version(&self) -> u32
        ensures { result ≡ boot_version self.now }
    {
        match self {
            BootHeader::V0(_) => 0,
            BootHeader::V1(..) => 1,
            BootHeader::V2(..) => 2,
            BootHeader::V3(_) => 3,
            BootHeader::V4(..) => 4,
        }
    }

    /// How many bytes a page has: 4,096 from version 3 on.
    #[inline(never)]
    pub fn page_size(&self) -> u32
        ensures { IsPage result (boot_page self.now) }
    {
        match self {
            BootHeader::V0(front) => front.page_size.bytes(),
            BootHeader::V1(front, _) => front.page_size.bytes(),
            BootHeader::V2(front, ..) => front.page_size.bytes(),
            BootHeader::V3(_) => 4096,
            BootHeader::V4(..) => 4096,
        }
    }

    /// Where the sections after the header are, in order, empty ones too.
    pub fn sections(&self) -> Sections
        ensures value { result ≡ boot_places self.now }
        ensures low { EachLow (boot_places self.now) }
    {
        let page = self.page_size();
        let first = pages(self.size() as u64, page);
        match self {
            BootHeader::V0(front) => lay(
                page,
                first,
                &[
                    (Section::Kernel, front.kernel_size),
                    (Section::Ramdisk, front.ramdisk_size),
                    (Section::Second, front.second_size),
                ],
            ),
            BootHeader::V1(front, dtbo) => lay(
                page,
                first,
                &[
                    (Section::Kernel, front.kernel_size),
                    (Section::Ramdisk, front.ramdisk_size),
                    (Section::Second, front.second_size),
                    (Section::RecoveryDtbo, dtbo.recovery_dtbo_size),
                ],
            ),
            BootHeader::V2(front, dtbo, dtb) => lay(
                page,
                first,
                &[
                    (Section::Kernel, front.kernel_size),
                    (Section::Ramdisk, front.ramdisk_size),
                    (Section::Second, front.second_size),
                    (Section::RecoveryDtbo, dtbo.recovery_dtbo_size),
                    (Section::Dtb, dtb.dtb_size),
                ],
            ),
            BootHeader::V3(front) => lay(
                page,
                first,
                &[
                    (Section::Kernel, front.kernel_size),
                    (Section::Ramdisk, front.ramdisk_size),
                ],
            ),
            BootHeader::V4(front, signature_size) => lay(
                page,
                first,
                &[
                    (Section::Kernel, front.kernel_size),
                    (Section::Ramdisk, front.ramdisk_size),
                    (Section::Signature, *signature_size),
                ],
            ),
        }
    }
}

/// Every boot header whose fields fit is read from the record that it is written as, whatever
/// follows.
pub fn boot_again()
    ensures { (h : BootHeader) (rest : List ℕ) → BootFits h → boot_at (boot_record h ++ rest) ≡ Ok h }
{}

/// The record of a boot header whose fields fit has the size of its version.
pub fn boot_long()
    ensures { (h : BootHeader) → BootFits h → length (boot_record h) ≡ boot_size h }
{}

/// A boot header is read from its first 1,660 bytes alone, so that a caller may read no more.
pub fn front_decides()
    ensures { (m : ℕ) (x : List ℕ) → 1660 ≤ m → boot_at (take m x) ≡ boot_at x }
{}
