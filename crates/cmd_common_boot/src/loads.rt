//! The load addresses of the parts of an image, as the arguments of `pack` and `repack` set them.

ghost use Rattle.std.specs.Prelude.{◌≡◌, ◌≤◌, None, Some, IfOk, IfErr};
ghost use Rattle.abt_sections.specs.Fields.{cmd_common_fields};
ghost use Rattle.cmd_common_fields.specs.Loading as loading;
ghost use Rattle.cmd_common_fields.specs.declared.fields.Address.TheVariants as addresses;
ghost use Rattle.cmd_common_boot.specs.Given.{address_for, has_offset, words_for};
ghost use Rattle.cmd_common_boot.specs.Wrong.{IsBadAddress, SaysAddress, told_word};

use crate::pack_texts::PackTexts;
use abt_sections::BootSpec;
use cmd_common_fields::{Address, AddressWords, base_of, is_sum, load_address};

/// The addresses of the parts of an image.
#[derive(Clone, Copy)]
pub(crate) struct Addresses {
    pub kernel: u32,
    pub ramdisk: u32,
    pub second: u32,
    pub tags: u32,
    pub dtb: u64,
}

/// The addresses that the arguments set. Each other address is the image's own. Fails with the argument of the first
/// address that exceeds its field.
pub(crate) fn addresses_of<'a>(
    texts: &PackTexts<'a>,
    own: &BootSpec<'_>,
) -> Result<Addresses, &'a str>
    ensures kernel { IfOk result (λ given. address_for texts.now.options.items addresses.Kernel own.now.kernel_addr
        ≡ Some given.kernel) }
    ensures ramdisk { IfOk result (λ given. address_for texts.now.options.items addresses.Ramdisk own.now.ramdisk_addr
        ≡ Some given.ramdisk) }
    ensures second { IfOk result (λ given. address_for texts.now.options.items addresses.Second own.now.second_addr
        ≡ Some given.second) }
    ensures tags { IfOk result (λ given. address_for texts.now.options.items addresses.Tags own.now.tags_addr
        ≡ Some given.tags) }
    ensures dtb { IfOk result (λ given. address_for texts.now.options.items addresses.Dtb own.now.dtb_addr
        ≡ Some given.dtb) }
    ensures wrong { IfErr result (λ word. IsBadAddress (cmd_common_fields own.now) texts.now.options.items word.now) }
{
    let kernel = short_address(texts, Address::Kernel, own.kernel_addr)?;
    let ramdisk = short_address(texts, Address::Ramdisk, own.ramdisk_addr)?;
    let second = short_address(texts, Address::Second, own.second_addr)?;
    let tags = short_address(texts, Address::Tags, own.tags_addr)?;
    let dtb = match long_address(texts, Address::Dtb, own.dtb_addr) {
        Ok(dtb) => dtb,
        Err(word) => return Err(word),
    };
    Ok(Addresses {
        kernel,
        ramdisk,
        second,
        tags,
        dtb,
    })
}

// An address that a header has 32 bits for.
fn short_address<'a>(texts: &PackTexts<'a>, which: Address, own: u32) -> Result<u32, &'a str>
    requires short { loading.most_address which ≡ 4294967295 }
    ensures { SaysAddress result (λ word. word.now) texts.now.options.items which own }
{
    match long_address(texts, which, own as u64) {
        Ok(address) => Ok(address as u32),
        Err(word) => Err(word),
    }
}

// The address that the arguments set, or else the image's own. Fails with the argument of one that exceeds its field.
fn long_address<'a>(texts: &PackTexts<'a>, which: Address, own: u64) -> Result<u64, &'a str>
    ensures says { SaysAddress result (λ word. word.now) texts.now.options.items which own }
    ensures room { IfOk result (λ address. address ≤ loading.most_address which) }
{
    match load_address(words_of(texts, which), which.usual_offset(), own) {
        Some(address) if address <= which.most() => Ok(address),
        _ => Err(told_word(texts, which)),
    }
}

/// Whether the arguments give the ramdisk an address that is counted from a base.
pub fn counts_ramdisk(texts: &PackTexts<'_>) -> bool
    ensures { result ≡ loading.is_sum (words_for texts.now.options.items addresses.Ramdisk) }
{
    is_sum(words_of(texts, Address::Ramdisk))
}

/// The same for the second stage.
pub fn counts_second(texts: &PackTexts<'_>) -> bool
    ensures { result ≡ loading.is_sum (words_for texts.now.options.items addresses.Second) }
{
    is_sum(words_of(texts, Address::Second))
}

// What the arguments set of an address.
fn words_of(texts: &PackTexts<'_>, which: Address) -> AddressWords
    ensures { result ≡ words_for texts.now.options.items which }
{
    AddressWords {
        address: texts.number(which.option()),
        base: base_of(texts.number("base"), has_offset(texts)),
        offset: texts.number(which.offset_option()),
    }
}

// Whether any offset is given, so that a base is used.
fn has_offset(texts: &PackTexts<'_>) -> bool
    ensures { result ≡ has_offset texts.now.options.items }
{
    texts.has("kernel-offset")
        || texts.has("ramdisk-offset")
        || texts.has("second-offset")
        || texts.has("tags-offset")
        || texts.has("dtb-offset")
}

// The argument that exceeds its field: the address, the offset or the base.
fn told_word<'a>(texts: &PackTexts<'a>, which: Address) -> &'a str
    ensures { result.now ≡ told_word texts.now.options.items which }
{
    if let Some(text) = texts.find(which.option()) {
        return text.word;
    }
    if let Some(text) = texts.find(which.offset_option()) {
        return text.word;
    }
    match texts.find("base") {
        Some(text) => text.word,
        None => "",
    }
}
