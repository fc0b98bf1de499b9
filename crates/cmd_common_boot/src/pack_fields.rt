//! The fields of an image that is packed: the given ones, and for the others those of another image, or empty ones.

ghost use Rattle.std.specs.Prelude.{◌≡◌, ◌≤◌, ◌^◌, ℕ, IfOk, IfErr, OnErr};
ghost use Rattle.abt_sections.specs.Fields.{cmd_common_fields};
ghost use Rattle.abt_sections.specs.Fields as vendor;
ghost use Rattle.cmd_common_boot.specs.Fault.{of_os_word};
ghost use Rattle.cmd_common_boot.specs.Given.{AreGiven, IsOsGiven, OsWordSays, no_fields};
ghost use Rattle.cmd_common_boot.specs.Refused.{vendor_fields_asked};
ghost use Rattle.cmd_common_boot.specs.Wrong.{IsWrong, IsWrongOs};

use crate::fault::BootCommandFault;
use crate::loads::addresses_of;
use crate::pack_texts::{OptionText, PackTexts};
use abt_headers::OsVersion;
use abt_sections::{BootSpec, VendorSpec};
use cmd_common_fields::{ImageKind, os_from_word};

/// The fields of `pack` where nothing is given.
pub fn no_fields() -> BootSpec<'static>
    ensures { cmd_common_fields result ≡ no_fields }
{
    BootSpec {
        version: 0,
        page: 4096,
        kernel_addr: 0,
        ramdisk_addr: 0,
        second_addr: 0,
        tags_addr: 0,
        dtb_addr: 0,
        os: OsVersion::from_raw(0),
        name: &[],
        cmdline: &[],
        is_front_ended: false,
    }
}

/// These fields, each replaced where one is given.
pub fn with_given<'a, 't>(
    own: BootSpec<'t>,
    kind: ImageKind,
    page: Option<u32>,
    texts: &'t PackTexts<'a>,
) -> Result<BootSpec<'t>, BootCommandFault<'a>>
    ensures given { IfOk result (λ fields.
        AreGiven (cmd_common_fields own.entry) kind page texts.now.options.items (cmd_common_fields fields)) }
    ensures wrong { IfErr result (IsWrong (cmd_common_fields own.entry) kind texts.now.options.items
        texts.now.fragments.items) }
{
    let addresses = match addresses_of(texts, &own) {
        Ok(addresses) => addresses,
        Err(word) => return Err(BootCommandFault::BadNumber(word)),
    };
    let os = match os_of(texts, own.os) {
        Ok(os) => os,
        Err(fault) => return Err(fault),
    };
    Ok(BootSpec {
        version: kind.version(),
        page: page.unwrap_or(own.page),
        kernel_addr: addresses.kernel,
        ramdisk_addr: addresses.ramdisk,
        second_addr: addresses.second,
        tags_addr: addresses.tags,
        dtb_addr: addresses.dtb,
        os,
        name: texts.bytes_or("name", own.name),
        cmdline: texts.bytes_or("cmdline", own.cmdline),
        is_front_ended: own.is_front_ended,
    })
}

// The given OS version and patch level, or else the image's own.
fn os_of<'a>(texts: &PackTexts<'a>, own: OsVersion) -> Result<OsVersion, BootCommandFault<'a>>
    ensures given { IfOk result (λ os. IsOsGiven texts.now.options.items own.number os.number) }
    ensures wrong { IfErr result (IsWrongOs texts.now.options.items) }
{
    if let Some(option) = texts.find("os-number") {
        return of_number(option);
    }
    match texts.find("os") {
        Some(option) => of_word(option.word),
        None => Ok(own),
    }
}

// The OS version that a number encodes, where it fits 32 bits.
fn of_number<'a>(option: &OptionText<'a>) -> Result<OsVersion, BootCommandFault<'a>>
    ensures number { IfOk result (λ os. os.number ≡ option.now.number) }
    ensures wrong { OnErr result (2 ^ 32 ≤ option.now.number) }
    ensures told { IfErr result (λ fault. fault ≡ BootCommandFault.BadNumber option.now.word) }
{
    match u32::try_from(option.number) {
        Ok(number) => Ok(OsVersion::from_raw(number)),
        Err(_) => Err(BootCommandFault::BadNumber(option.word)),
    }
}

// The OS version that an argument encodes.
fn of_word(word: &str) -> Result<OsVersion, BootCommandFault<'static>>
    ensures says { IfOk result (λ os. OsWordSays word.now os.number) }
    ensures none { OnErr result ((os : ℕ) → OsWordSays word.now os → ⊥) }
    ensures told { IfErr result (λ fault. fault ≡ of_os_word) }
{
    match os_from_word(word) {
        Ok(os) => Ok(os),
        Err(fault) => Err(BootCommandFault::of_header(fault)),
    }
}

/// The fields of a vendor boot image.
#[inline(never)]
pub fn vendor_fields<'t>(fields: &BootSpec<'t>) -> VendorSpec<'t>
    ensures { vendor.vendor_fields result ≡ vendor_fields_asked fields.now }
{
    VendorSpec {
        version: fields.version,
        page: fields.page,
        kernel_addr: fields.kernel_addr,
        ramdisk_addr: fields.ramdisk_addr,
        tags_addr: fields.tags_addr,
        dtb_addr: fields.dtb_addr,
        name: fields.name,
        cmdline: fields.cmdline,
    }
}
