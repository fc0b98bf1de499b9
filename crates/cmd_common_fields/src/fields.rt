//! The fields of an image's header, of every kind and version.

ghost use Rattle.std.specs.Prelude.{◌≡◌, ◌≤◌, ◌<◌, ◌^◌, Some, None, IfSome, MatchOption, length};
ghost use Rattle.abt_sections.specs.Header.{view_of};
ghost use Rattle.cmd_common_fields.specs.Fields as spec;
ghost use Rattle.cmd_common_fields.specs.Loading.{most_address};

use abt_headers::{BootFront, BootHeader, OsVersion, VendorFront, VendorHeader};
use abt_sections::ImageHeader;

/// An address that a header may have.
#[derive(Clone, Copy)]
pub enum Address {
    Kernel,
    Ramdisk,
    Second,
    Tags,
    Dtb,
}

impl Address {
    /// Its name in texts.
    pub fn name(self) -> &'static str
        ensures { result.now ≡ spec.address_name self }
    {
        match self {
            Address::Kernel => "kernel",
            Address::Ramdisk => "ramdisk",
            Address::Second => "second",
            Address::Tags => "tags",
            Address::Dtb => "dtb",
        }
    }
}

/// A field that holds a text, which a header may have.
#[derive(Clone, Copy)]
pub enum TextField {
    /// The product's name.
    Name,
    /// The kernel's command line, or its first part.
    Cmdline,
    /// The rest of the command line, in versions 0 to 2 of a boot image.
    Extra,
}

impl TextField {
    /// Its name in texts.
    pub fn name(self) -> &'static str
        ensures { result.now ≡ spec.field_name self }
    {
        match self {
            TextField::Name => "name",
            TextField::Cmdline => "cmdline",
            TextField::Extra => "extra",
        }
    }
}

/// An address, where the header has it.
#[inline(never)]
pub fn address_of(header: &ImageHeader, which: Address) -> Option<u64>
    ensures value { result ≡ spec.address_of (view_of header.now) which }
    ensures low { most_address which ≡ 0xffffffff → IfSome result (λ address. address < 2 ^ 32) }
{
    match header {
        ImageHeader::Boot(BootHeader::V0(front)) => front_address(front, which),
        ImageHeader::Boot(BootHeader::V1(front, _)) => front_address(front, which),
        ImageHeader::Boot(BootHeader::V2(front, _, dtb)) => match which {
            Address::Dtb => Some(dtb.dtb_addr),
            _ => front_address(front, which),
        },
        ImageHeader::Boot(BootHeader::V3(_)) => None,
        ImageHeader::Boot(BootHeader::V4(..)) => None,
        ImageHeader::Vendor(VendorHeader::V3(front)) => vendor_address(front, which),
        ImageHeader::Vendor(VendorHeader::V4(front, _)) => vendor_address(front, which),
    }
}

fn front_address(front: &BootFront, which: Address) -> Option<u64>
    ensures value { result ≡ spec.front_address front.now which }
    ensures low { most_address which ≡ 0xffffffff → IfSome result (λ address. address < 2 ^ 32) }
{
    match which {
        Address::Kernel => Some(front.kernel_addr as u64),
        Address::Ramdisk => Some(front.ramdisk_addr as u64),
        Address::Second => Some(front.second_addr as u64),
        Address::Tags => Some(front.tags_addr as u64),
        Address::Dtb => None,
    }
}

fn vendor_address(front: &VendorFront, which: Address) -> Option<u64>
    ensures value { result ≡ spec.vendor_address front.now which }
    ensures low { most_address which ≡ 0xffffffff → IfSome result (λ address. address < 2 ^ 32) }
{
    match which {
        Address::Kernel => Some(front.kernel_addr as u64),
        Address::Ramdisk => Some(front.ramdisk_addr as u64),
        Address::Second => None,
        Address::Tags => Some(front.tags_addr as u64),
        Address::Dtb => Some(front.dtb_addr),
    }
}

/// The OS version and patch level, which every boot image has.
#[inline(never)]
pub fn os_version_of(header: &ImageHeader) -> Option<OsVersion>
    ensures { MatchOption result (spec.os_number_of (view_of header.now) ≡ None)
        (λ os. spec.os_number_of (view_of header.now) ≡ Some os.number) }
{
    match header {
        ImageHeader::Boot(BootHeader::V0(front)) => Some(front.os_version),
        ImageHeader::Boot(BootHeader::V1(front, _)) => Some(front.os_version),
        ImageHeader::Boot(BootHeader::V2(front, ..)) => Some(front.os_version),
        ImageHeader::Boot(BootHeader::V3(front)) => Some(front.os_version),
        ImageHeader::Boot(BootHeader::V4(front, _)) => Some(front.os_version),
        ImageHeader::Vendor(_) => None,
    }
}

/// The bytes of a text field, where the header has it.
#[inline(never)]
pub fn text_field_of(header: &ImageHeader, which: TextField) -> Option<&[u8]>
    ensures short { IfSome result (λ field. length field.now ≤ 2048) }
    ensures value { MatchOption result (spec.field_of (view_of header.now) which ≡ None)
        (λ field. spec.field_of (view_of header.now) which ≡ Some field.now) }
{
    match header {
        ImageHeader::Boot(BootHeader::V0(front)) => Some(front_field(front, which)),
        ImageHeader::Boot(BootHeader::V1(front, _)) => Some(front_field(front, which)),
        ImageHeader::Boot(BootHeader::V2(front, ..)) => Some(front_field(front, which)),
        ImageHeader::Boot(BootHeader::V3(front)) => cmdline_alone(&front.cmdline, which),
        ImageHeader::Boot(BootHeader::V4(front, _)) => cmdline_alone(&front.cmdline, which),
        ImageHeader::Vendor(VendorHeader::V3(front)) => vendor_field(front, which),
        ImageHeader::Vendor(VendorHeader::V4(front, _)) => vendor_field(front, which),
    }
}

fn front_field(front: &BootFront, which: TextField) -> &[u8]
    ensures short { length result.now ≤ 1024 }
    ensures value { spec.front_field front.now which ≡ Some result.now }
{
    match which {
        TextField::Name => &front.name,
        TextField::Cmdline => &front.cmdline,
        TextField::Extra => &front.extra_cmdline,
    }
}

fn cmdline_alone(cmdline: &[u8], which: TextField) -> Option<&[u8]>
    ensures short { IfSome result (λ field. length field.now ≤ length cmdline.now) }
    ensures value { MatchOption result (spec.cmdline_alone cmdline.now which ≡ None)
        (λ field. spec.cmdline_alone cmdline.now which ≡ Some field.now) }
{
    match which {
        TextField::Name => None,
        TextField::Cmdline => Some(cmdline),
        TextField::Extra => None,
    }
}

fn vendor_field(front: &VendorFront, which: TextField) -> Option<&[u8]>
    ensures short { IfSome result (λ field. length field.now ≤ 2048) }
    ensures value { MatchOption result (spec.vendor_field front.now which ≡ None) (λ field. spec.vendor_field front.now which
        ≡ Some field.now) }
{
    match which {
        TextField::Name => Some(&front.name),
        TextField::Cmdline => Some(&front.cmdline),
        TextField::Extra => None,
    }
}

/// The id, which boot images of versions 0 to 2 have.
pub fn id_of(header: &ImageHeader) -> Option<[u8; 32]>
    ensures { result ≡ spec.id_field_of (view_of header.now) }
{
    match header {
        ImageHeader::Boot(BootHeader::V0(front)) => Some(front.id),
        ImageHeader::Boot(BootHeader::V1(front, _)) => Some(front.id),
        ImageHeader::Boot(BootHeader::V2(front, ..)) => Some(front.id),
        ImageHeader::Boot(BootHeader::V3(_)) => None,
        ImageHeader::Boot(BootHeader::V4(..)) => None,
        ImageHeader::Vendor(_) => None,
    }
}

/// The bytes of a field up to the first zero byte.
#[inline(never)]
pub fn front_text(field: &[u8]) -> &[u8]
    ensures { result.now ≡ spec.text_of field.now }
{
    for i in 0..field.len() {
        if field[i] == 0 {
            return &field[..i];
        }
    }
    field
}
