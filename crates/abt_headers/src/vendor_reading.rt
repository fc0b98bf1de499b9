//! Reads the fields of a vendor boot header from its bytes. All tests come first, so that no field of a refused
//! header is copied.

ghost use Rattle.std.specs.Prelude.{◌≡◌, ◌≤◌, length, MatchResult, Ok, Err};
ghost use Rattle.abt_headers.specs.Fault.{needing};
ghost use Rattle.abt_headers.specs.Page.{page_at};
ghost use Rattle.abt_headers.specs.Vendor.{tail_or_fault, tail_view, vendor_at, vendor_front_at, vendor_of};
ghost use Rattle.abt_headers.specs.Vendor.{vendor_view};

use crate::boot_reading::check_length;
use crate::fault::HeaderFault;
use crate::field::{bytes_at, u32_at, u64_at};
use crate::page::{PageSize, page_size_at};
use crate::vendor::{VENDOR_MAGIC, VendorFront, VendorHeader};
use crate::vendor_tail::VendorTail;

/// How many bytes an entry of the vendor ramdisk table has.
const ENTRY_SIZE: u32 = 108;

#[tactic(auto, unfolding(crate::specs::Vendor::vendor_front_at))]
fn front_from(bytes: &[u8], page_size: PageSize) -> VendorFront
    requires { 2112 ≤ length bytes.now }
    ensures { result ≡ vendor_front_at page_size bytes.now }
{
    VendorFront {
        page_size,
        kernel_addr: u32_at(bytes, 16),
        ramdisk_addr: u32_at(bytes, 20),
        vendor_ramdisk_size: u32_at(bytes, 24),
        cmdline: bytes_at(bytes, 28),
        tags_addr: u32_at(bytes, 2076),
        name: bytes_at(bytes, 2080),
        header_size: u32_at(bytes, 2096),
        dtb_size: u32_at(bytes, 2100),
        dtb_addr: u64_at(bytes, 2104),
    }
}

/// The page size, once the record is there.
fn checked_page(bytes: &[u8], need: u32) -> Result<PageSize, HeaderFault>
    requires { 16 ≤ need }
    ensures { result ≡ needing need bytes.now (page_at 12 bytes.now) }
{
    check_length(bytes, need)?;
    page_size_at(bytes, 12)
}

/// What version 4 adds, where the table consists of whole entries. The product of two fields may
/// be above 2^32.
#[tactic(auto, unfolding(crate::specs::Vendor::tail_at))]
fn checked_tail(bytes: &[u8]) -> Result<VendorTail, HeaderFault>
    requires { 2128 ≤ length bytes.now }
    ensures { MatchResult result (λ t. tail_or_fault bytes.now ≡ Ok (tail_view t))
        (λ f. tail_or_fault bytes.now ≡ Err f) }
{
    let table_size = u32_at(bytes, 2112);
    let entry_num = u32_at(bytes, 2116);
    let entry_size = u32_at(bytes, 2120);
    let bootconfig_size = u32_at(bytes, 2124);
    if entry_size != ENTRY_SIZE {
        return Err(HeaderFault::Table);
    }
    if table_size as u64 != ENTRY_SIZE as u64 * entry_num as u64 {
        return Err(HeaderFault::Table);
    }
    Ok(VendorTail {
        table_size,
        entry_num,
        entry_size,
        bootconfig_size,
    })
}

#[tactic(auto, unfolding(crate::specs::Vendor::vendor_of))]
fn read_version(bytes: &[u8], version: u32) -> Result<VendorHeader, HeaderFault>
    ensures { MatchResult result (λ h. vendor_of version bytes.now ≡ Ok (vendor_view h))
        (λ f. vendor_of version bytes.now
        ≡ Err f) }
{
    match version {
        3 => {
            let page_size = checked_page(bytes, 2112)?;
            Ok(VendorHeader::V3(front_from(bytes, page_size)))
        }
        4 => {
            let page_size = checked_page(bytes, 2128)?;
            let tail = checked_tail(bytes)?;
            Ok(VendorHeader::V4(front_from(bytes, page_size), tail))
        }
        _ => Err(HeaderFault::Version(version)),
    }
}

/// The vendor boot header at the beginning of these bytes, or the first fault.
#[tactic(auto, unfolding(crate::specs::Vendor::vendor_at))]
pub(crate) fn read_vendor_header(bytes: &[u8]) -> Result<VendorHeader, HeaderFault>
    ensures { MatchResult result (λ h. vendor_at bytes.now ≡ Ok (vendor_view h)) (λ f. vendor_at bytes.now ≡ Err f) }
{
    check_length(bytes, 8)?;
    if u64_at(bytes, 0) != VENDOR_MAGIC {
        return Err(HeaderFault::Magic);
    }
    check_length(bytes, 12)?;
    read_version(bytes, u32_at(bytes, 8))
}
