//! The header that is packed from a boot image's fields.

ghost use Rattle.std.specs.Prelude.{◌≡◌, ◌<◌, ◌≤◌, ◌^◌, OnOk, length};
ghost use Rattle.abt_headers.specs.Boot.{boot_page, boot_size};
ghost use Rattle.abt_headers.specs.Page.{page_bytes};
ghost use Rattle.abt_sections.specs.Fields.{cmd_common_fields};
ghost use Rattle.abt_sections.specs.Refusal.{RefusedBy, boot_refusal};
ghost use Rattle.abt_sections.specs.Asked.{IsPageNumber};
ghost use Rattle.abt_sections.specs.BootCanon as canon;

use crate::fault::SectionFault;
use crate::spec::BootSpec;
use crate::texts::{filled, filled_back, filled_front, is_text};
use abt_headers::{
    BootFront, BootHeader, DtbFields, DtboFields, HeaderFault, PageSize, ShortFront, pages,
};
use abt_io::Meter;

/// The page of the image, or what the fields are refused for.
#[tactic(auto, unfolding(crate::specs::Refusal::boot_refusal))]
#[inline(never)]
pub(crate) fn check_boot_spec(spec: &BootSpec, m: &mut Meter) -> Result<PageSize, SectionFault>
    ensures refused { RefusedBy result (boot_refusal (cmd_common_fields spec.now))
        (λ p. p ≡ canon.boot_page_for (cmd_common_fields spec.now)) }
    ensures version { OnOk result (spec.now.version ≤ 4) }
    ensures name { OnOk result (spec.now.version < 3 → length spec.now.name.now ≤ 15) }
    ensures cmdline { OnOk result (length spec.now.cmdline.now ≤ 1535) }
{
    if spec.version > 4 {
        return Err(SectionFault::Header(HeaderFault::Version(spec.version)));
    }
    let mut page = PageSize::Of4096;
    if spec.version < 3 {
        match PageSize::from_bytes(spec.page) {
            None => return Err(SectionFault::Header(HeaderFault::PageSize(spec.page))),
            Some(given) => page = given,
        }
        if !is_text(15, spec.name, m) {
            return Err(SectionFault::Name);
        }
    }
    if !is_text(1535, spec.cmdline, m) {
        return Err(SectionFault::CommandLine);
    }
    Ok(page)
}

fn front_for(spec: &BootSpec, page: PageSize, sizes: &[u32; 5], id: [u8; 32]) -> BootFront
    requires name { length spec.now.name.now ≤ 16 }
    requires cmdline { length spec.now.cmdline.now ≤ 1535 }
    ensures { result ≡ canon.front_with spec.now.is_front_ended (cmd_common_fields spec.now) page sizes.now id }
{
    let end = if spec.is_front_ended { 511 } else { 512 };
    BootFront {
        kernel_size: sizes[0],
        kernel_addr: spec.kernel_addr,
        ramdisk_size: sizes[1],
        ramdisk_addr: spec.ramdisk_addr,
        second_size: sizes[2],
        second_addr: spec.second_addr,
        tags_addr: spec.tags_addr,
        page_size: page,
        os_version: spec.os,
        name: filled(spec.name),
        cmdline: filled_front(spec.cmdline, end),
        id,
        extra_cmdline: filled_back(spec.cmdline, end),
    }
}

/// Where the recovery dtbo is in an image with parts of these sizes, or 0 where it is empty.
pub fn dtbo_offset(page: u32, kernel: u32, ramdisk: u32, second: u32, dtbo: u32) -> u64
    requires { IsPageNumber page }
    ensures { result ≡ canon.dtbo_offset page kernel ramdisk second dtbo }
{
    if dtbo == 0 {
        return 0;
    }
    page as u64
        * (1 + pages(kernel as u64, page)
            + pages(ramdisk as u64, page)
            + pages(second as u64, page))
}

fn dtbo_for(page: PageSize, sizes: &[u32; 5], header_size: u32) -> DtboFields
    ensures { result ≡ canon.dtbo_for page sizes.now header_size }
{
    DtboFields {
        recovery_dtbo_size: sizes[3],
        recovery_dtbo_offset: dtbo_offset(page.bytes(), sizes[0], sizes[1], sizes[2], sizes[3]),
        header_size,
    }
}

fn short_for(spec: &BootSpec, sizes: &[u32; 5], header_size: u32) -> ShortFront
    requires cmdline { length spec.now.cmdline.now ≤ 1536 }
    ensures { result ≡ canon.short_for (cmd_common_fields spec.now) sizes.now header_size }
{
    ShortFront {
        kernel_size: sizes[0],
        ramdisk_size: sizes[1],
        os_version: spec.os,
        header_size,
        reserved: [0; 16],
        cmdline: filled(spec.cmdline),
    }
}

/// The header of an image with parts of these sizes and this id.
#[tactic(auto, unfolding(crate::specs::BootCanon::boot_header_with))]
pub(crate) fn boot_header_for(
    spec: &BootSpec,
    page: PageSize,
    sizes: &[u32; 5],
    id: [u8; 32],
) -> BootHeader
    requires name { spec.now.version < 3 → length spec.now.name.now ≤ 16 }
    requires cmdline { length spec.now.cmdline.now ≤ 1535 }
    ensures { result ≡ canon.boot_header_with spec.now.is_front_ended (cmd_common_fields spec.now) page sizes.now id }
{
    match spec.version {
        0 => BootHeader::V0(front_for(spec, page, sizes, id)),
        1 => BootHeader::V1(
            front_for(spec, page, sizes, id),
            dtbo_for(page, sizes, 1648),
        ),
        2 => BootHeader::V2(
            front_for(spec, page, sizes, id),
            dtbo_for(page, sizes, 1660),
            DtbFields {
                dtb_size: sizes[4],
                dtb_addr: spec.dtb_addr,
            },
        ),
        3 => BootHeader::V3(short_for(spec, sizes, 1580)),
        _ => BootHeader::V4(short_for(spec, sizes, 1584), sizes[2]),
    }
}
