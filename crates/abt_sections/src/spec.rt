//! The fields that an image is packed from, beside the bytes of its parts.

use abt_headers::OsVersion;

/// The fields of a boot image that the caller chooses (`bootimg.h`, `mkbootimg`).
///
/// Fields that the version doesn't carry aren't looked at: `page`, `name` and every address in versions 3 and 4,
/// `dtb_addr` in all but version 2.
#[derive(Clone, Copy)]
pub struct BootSpec<'a> {
    /// The header version, 0 to 4.
    pub version: u32,
    /// Bytes in a page: a power of two from 2,048 to 131,072. Versions 3 and 4 always have 4,096.
    pub page: u32,
    pub kernel_addr: u32,
    pub ramdisk_addr: u32,
    pub second_addr: u32,
    pub tags_addr: u32,
    pub dtb_addr: u64,
    pub os: OsVersion,
    /// The product's name: at most 15 bytes, none of them zero.
    pub name: &'a [u8],
    /// The kernel's command line: at most 1,535 bytes, none of them zero.
    pub cmdline: &'a [u8],
    /// Whether a zero ends the first field of the command line in versions 0 to 2, also where it goes on in the second:
    /// then the first has at most 511 bytes of it, and else 512.
    pub is_front_ended: bool,
}

/// The fields of a vendor boot image that the caller chooses (`bootimg.h`, `mkbootimg`).
#[derive(Clone, Copy)]
pub struct VendorSpec<'a> {
    /// The header version, 3 or 4.
    pub version: u32,
    /// Bytes in a page: a power of two from 2,048 to 131,072.
    pub page: u32,
    pub kernel_addr: u32,
    pub ramdisk_addr: u32,
    pub tags_addr: u32,
    pub dtb_addr: u64,
    /// The product's name: at most 15 bytes, none of them zero.
    pub name: &'a [u8],
    /// The kernel's command line: at most 2,047 bytes, none of them zero.
    pub cmdline: &'a [u8],
}

/// What the table of a vendor boot image of version 4 says of a ramdisk fragment, beside its place and size.
#[derive(Clone, Copy, Debug, PartialEq, Eq)]
pub struct FragmentSpec {
    /// The type: 0 none, 1 platform, 2 recovery, 3 dlkm; any other number is kept.
    pub kind: u32,
    /// The name, as its bytes are in the table.
    pub name: [u8; 32],
    /// The board that the fragment is for.
    pub board_id: [u32; 16],
}

/// What packing returns.
#[derive(Clone, Copy, Debug, PartialEq, Eq)]
pub struct Packed {
    /// How many bytes the image has.
    pub bytes: u64,
}
