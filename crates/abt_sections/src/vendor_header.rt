//! The header that is packed from a vendor boot image's fields.

ghost use Rattle.std.specs.Prelude.{◌≡◌, ◌<◌, ◌≤◌, ◌*◌, ◌^◌, OnOk, length, slice_index};
ghost use Rattle.abt_headers.specs.Vendor.{vendor_view, tail_view};
ghost use Rattle.abt_sections.specs.Fields.{vendor_fields};
ghost use Rattle.abt_sections.specs.Refusal.{RefusedBy, vendor_refusal};
ghost use Rattle.abt_sections.specs.VendorCanon as canon;

use crate::fault::SectionFault;
use crate::spec::VendorSpec;
use crate::texts::{filled, is_text};
use abt_headers::{HeaderFault, PageSize, VendorFront, VendorHeader, VendorTail};
use abt_io::Meter;

/// The page of the image, or what the fields are refused for.
#[tactic(auto, unfolding(crate::specs::Refusal::vendor_refusal))]
#[inline(never)]
pub(crate) fn check_vendor_spec(spec: &VendorSpec, m: &mut Meter) -> Result<PageSize, SectionFault>
    ensures refused { RefusedBy result (vendor_refusal (vendor_fields spec.now))
        (λ p. p ≡ canon.vendor_page_for (vendor_fields spec.now)) }
    ensures low { OnOk result (3 ≤ spec.now.version) }
    ensures high { OnOk result (spec.now.version ≤ 4) }
    ensures name { OnOk result (length spec.now.name.now ≤ 15) }
    ensures cmdline { OnOk result (length spec.now.cmdline.now ≤ 2047) }
{
    if spec.version < 3 || spec.version > 4 {
        return Err(SectionFault::Header(HeaderFault::Version(spec.version)));
    }
    let page = match PageSize::from_bytes(spec.page) {
        None => return Err(SectionFault::Header(HeaderFault::PageSize(spec.page))),
        Some(page) => page,
    };
    if !is_text(15, spec.name, m) {
        return Err(SectionFault::Name);
    }
    if !is_text(2047, spec.cmdline, m) {
        return Err(SectionFault::CommandLine);
    }
    Ok(page)
}

fn vendor_front_for(
    spec: &VendorSpec,
    page: PageSize,
    sizes: &[u32; 4],
    header_size: u32,
) -> VendorFront
    requires name { length spec.now.name.now ≤ 16 }
    requires cmdline { length spec.now.cmdline.now ≤ 2048 }
    ensures { result ≡ canon.vendor_front_for (vendor_fields spec.now) page sizes.now header_size }
{
    VendorFront {
        page_size: page,
        kernel_addr: spec.kernel_addr,
        ramdisk_addr: spec.ramdisk_addr,
        vendor_ramdisk_size: sizes[0],
        cmdline: filled(spec.cmdline),
        tags_addr: spec.tags_addr,
        name: filled(spec.name),
        header_size,
        dtb_size: sizes[1],
        dtb_addr: spec.dtb_addr,
    }
}

fn tail_for(sizes: &[u32; 4], count: u32) -> VendorTail
    requires { slice_index sizes.now 2 ≡ 108 * count }
    ensures { tail_view result ≡ canon.tail_for sizes.now count }
{
    VendorTail {
        table_size: sizes[2],
        entry_num: count,
        entry_size: 108,
        bootconfig_size: sizes[3],
    }
}

/// The header of an image whose sections have these sizes, with so many fragments.
#[inline(never)]
pub(crate) fn vendor_header_for(
    spec: &VendorSpec,
    page: PageSize,
    sizes: &[u32; 4],
    count: u32,
) -> VendorHeader
    requires name { length spec.now.name.now ≤ 16 }
    requires cmdline { length spec.now.cmdline.now ≤ 2048 }
    requires table { slice_index sizes.now 2 ≡ 108 * count }
    ensures { vendor_view result ≡ canon.vendor_header_for (vendor_fields spec.now) page sizes.now count }
{
    if spec.version == 3 {
        VendorHeader::V3(vendor_front_for(spec, page, sizes, 2112))
    } else {
        VendorHeader::V4(
            vendor_front_for(spec, page, sizes, 2128),
            tail_for(sizes, count),
        )
    }
}
