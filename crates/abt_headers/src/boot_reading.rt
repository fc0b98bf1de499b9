//! Reads the fields of a boot header from its bytes. All tests come first, so that no field of a refused header is
//! copied.

ghost use Rattle.std.specs.Prelude.{◌≡◌, ◌+◌, ◌≤◌, ◌<◌, length, MatchResult};
ghost use Rattle.abt_headers.specs.Boot.{boot_at, boot_of, dtb_at, dtbo_at, front_at, short_at};
ghost use Rattle.abt_headers.specs.Fault.{needing};
ghost use Rattle.abt_headers.specs.Page.{page_at};

use crate::boot::{BOOT_MAGIC, BootFront, BootHeader, DtbFields, DtboFields, ShortFront};
use crate::fault::HeaderFault;
use crate::field::{bytes_at, u32_at, u64_at};
use crate::os::OsVersion;
use crate::page::{PageSize, page_size_at};

#[tactic(auto, unfolding(crate::specs::Boot::front_at))]
fn front_from(bytes: &[u8], page_size: PageSize) -> BootFront
    requires { 1632 ≤ length bytes.now }
    ensures { result ≡ front_at page_size bytes.now }
{
    BootFront {
        kernel_size: u32_at(bytes, 8),
        kernel_addr: u32_at(bytes, 12),
        ramdisk_size: u32_at(bytes, 16),
        ramdisk_addr: u32_at(bytes, 20),
        second_size: u32_at(bytes, 24),
        second_addr: u32_at(bytes, 28),
        tags_addr: u32_at(bytes, 32),
        page_size,
        os_version: OsVersion::from_raw(u32_at(bytes, 44)),
        name: bytes_at(bytes, 48),
        cmdline: bytes_at(bytes, 64),
        id: bytes_at(bytes, 576),
        extra_cmdline: bytes_at(bytes, 608),
    }
}

#[tactic(auto, unfolding(crate::specs::Boot::dtbo_at))]
fn dtbo_from(bytes: &[u8]) -> DtboFields
    requires { 1648 ≤ length bytes.now }
    ensures { result ≡ dtbo_at bytes.now }
{
    DtboFields {
        recovery_dtbo_size: u32_at(bytes, 1632),
        recovery_dtbo_offset: u64_at(bytes, 1636),
        header_size: u32_at(bytes, 1644),
    }
}

#[tactic(auto, unfolding(crate::specs::Boot::dtb_at))]
fn dtb_from(bytes: &[u8]) -> DtbFields
    requires { 1660 ≤ length bytes.now }
    ensures { result ≡ dtb_at bytes.now }
{
    DtbFields {
        dtb_size: u32_at(bytes, 1648),
        dtb_addr: u64_at(bytes, 1652),
    }
}

#[tactic(auto, unfolding(crate::specs::Boot::short_at))]
fn short_from(bytes: &[u8]) -> ShortFront
    requires { 1580 ≤ length bytes.now }
    ensures { result ≡ short_at bytes.now }
{
    ShortFront {
        kernel_size: u32_at(bytes, 8),
        ramdisk_size: u32_at(bytes, 12),
        os_version: OsVersion::from_raw(u32_at(bytes, 16)),
        header_size: u32_at(bytes, 20),
        reserved: bytes_at(bytes, 24),
        cmdline: bytes_at(bytes, 44),
    }
}

/// Whether so many bytes are there.
pub(crate) fn check_length(bytes: &[u8], need: u32) -> Result<(), HeaderFault>
    ensures { MatchResult result (λ _. need ≤ length bytes.now) (λ fault. (length bytes.now < need) ×
        (fault ≡ HeaderFault.Short need)) }
{
    if bytes.len() < need as usize {
        return Err(HeaderFault::Short { need });
    }
    Ok(())
}

/// The page size of a header of versions 0 to 2, once its record is there.
fn checked_page(bytes: &[u8], need: u32) -> Result<PageSize, HeaderFault>
    requires { 40 ≤ need }
    ensures { result ≡ needing need bytes.now (page_at 36 bytes.now) }
{
    check_length(bytes, need)?;
    page_size_at(bytes, 36)
}

#[tactic(auto, unfolding(crate::specs::Boot::boot_of))]
fn read_version(bytes: &[u8], version: u32) -> Result<BootHeader, HeaderFault>
    ensures { result ≡ boot_of version bytes.now }
{
    match version {
        0 => {
            let page_size = checked_page(bytes, 1632)?;
            Ok(BootHeader::V0(front_from(bytes, page_size)))
        }
        1 => {
            let page_size = checked_page(bytes, 1648)?;
            Ok(BootHeader::V1(front_from(bytes, page_size), dtbo_from(bytes)))
        }
        2 => {
            let page_size = checked_page(bytes, 1660)?;
            Ok(BootHeader::V2(
                front_from(bytes, page_size),
                dtbo_from(bytes),
                dtb_from(bytes),
            ))
        }
        3 => {
            check_length(bytes, 1580)?;
            Ok(BootHeader::V3(short_from(bytes)))
        }
        4 => {
            check_length(bytes, 1584)?;
            Ok(BootHeader::V4(short_from(bytes), u32_at(bytes, 1580)))
        }
        _ => Err(HeaderFault::Version(version)),
    }
}

/// The boot header at the beginning of these bytes, or the first fault.
#[tactic(auto, unfolding(crate::specs::Boot::boot_at))]
pub(crate) fn read_boot_header(bytes: &[u8]) -> Result<BootHeader, HeaderFault>
    ensures { result ≡ boot_at bytes.now }
{
    check_length(bytes, 8)?;
    if u64_at(bytes, 0) != BOOT_MAGIC {
        return Err(HeaderFault::Magic);
    }
    check_length(bytes, 44)?;
    read_version(bytes, u32_at(bytes, 40))
}
