//! The own fields of an image that is packed again.

ghost use Rattle.std.specs.Prelude.{◌≡◌, IfOk};
ghost use Rattle.abt_sections.specs.Fields.{cmd_common_fields};
ghost use Rattle.abt_sections.specs.Header.{view_of};
ghost use Rattle.cmd_common_fields.specs.Fields.{address_of, os_number_of, text_of};
ghost use Rattle.cmd_common_fields.specs.Loading.{most_address};
ghost use Rattle.cmd_common_findings.specs.LeftOut.{cmdline_of};
ghost use Rattle.cmd_pack_inputs.specs.Own.{or_zero, own_fields};

use abt_headers::OsVersion;
use abt_sections::{BootSpec, ImageHeader};
use cmd_common_fields::{Address, TextField, address_of, front_text, os_version_of, text_field_of};
use std::alloc::Global;
use sys_disk::{NoMemory, append};

/// The fields that a header has, with the command line that it has; the others are empty.
pub fn own_fields<'t>(header: &'t ImageHeader, cmdline: &'t [u8]) -> BootSpec<'t>
    requires { cmdline.now ≡ text_of (cmdline_of (view_of header.now)) }
    ensures { cmd_common_fields result ≡ own_fields (view_of header.now) }
{
    BootSpec {
        version: 0,
        page: header.page_size(),
        kernel_addr: short_address(header, Address::Kernel),
        ramdisk_addr: short_address(header, Address::Ramdisk),
        second_addr: short_address(header, Address::Second),
        tags_addr: short_address(header, Address::Tags),
        dtb_addr: address_of(header, Address::Dtb).unwrap_or(0),
        os: own_os(header),
        name: front_text(text_field_of(header, TextField::Name).unwrap_or(&[])),
        cmdline,
        is_front_ended: false,
    }
}

// The OS version and patch level, or 0.
fn own_os(header: &ImageHeader) -> OsVersion
    ensures { result.number ≡ or_zero (os_number_of (view_of header.now)) }
{
    match os_version_of(header) {
        Some(os) => os,
        None => OsVersion::from_raw(0),
    }
}

// An address of 32 bits.
fn short_address(header: &ImageHeader, which: Address) -> u32
    requires { most_address which ≡ 0xffffffff }
    ensures { result ≡ or_zero (address_of (view_of header.now) which) }
{
    match address_of(header, which) {
        Some(address) => u32::try_from(address).unwrap_or(0),
        None => 0,
    }
}

/// The command line of a header, which may go on in a second field.
pub(crate) fn own_cmdline(alloc: Global, header: &ImageHeader) -> Result<Vec<u8>, NoMemory>
    ensures { IfOk result (λ text. text.items ≡ text_of (cmdline_of (view_of header.now))) }
{
    let front = text_field_of(header, TextField::Cmdline).unwrap_or(&[]);
    let back = text_field_of(header, TextField::Extra).unwrap_or(&[]);
    let mut text = Vec::new(alloc);
    append(&mut text, front)?;
    append(&mut text, back)?;
    let end = front_text(text.as_slice()).len();
    text.truncate(end);
    Ok(text)
}
