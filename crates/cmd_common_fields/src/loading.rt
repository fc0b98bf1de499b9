//! The load addresses of the parts of a boot image.

ghost use Rattle.std.specs.Prelude.{◌≡◌, ◌<◌, ◌^◌, if◌then◌else◌, Some, None};
ghost use Rattle.cmd_common_fields.specs.Loading as spec;
ghost use Rattle.cmd_common_fields.specs.Options.{address_option, offset_option};

use crate::fields::Address;

/// The base of mkbootimg, which is used where an offset is given and no base.
pub const BASE: u64 = 0x1000_0000;

impl Address {
    /// The option that sets it.
    pub fn option(self) -> &'static str
        ensures { result.now ≡ address_option self }
    {
        match self {
            Address::Kernel => "kernel-addr",
            Address::Ramdisk => "ramdisk-addr",
            Address::Second => "second-addr",
            Address::Tags => "tags-addr",
            Address::Dtb => "dtb-addr",
        }
    }

    /// The option that sets its offset from the base.
    pub fn offset_option(self) -> &'static str
        ensures { result.now ≡ offset_option self }
    {
        match self {
            Address::Kernel => "kernel-offset",
            Address::Ramdisk => "ramdisk-offset",
            Address::Second => "second-offset",
            Address::Tags => "tags-offset",
            Address::Dtb => "dtb-offset",
        }
    }

    /// Mkbootimg's offset from the base.
    pub fn usual_offset(self) -> u64
        ensures { result ≡ spec.usual_offset self }
    {
        match self {
            Address::Kernel => 0x8000,
            Address::Ramdisk => 0x0100_0000,
            Address::Second => 0x00f0_0000,
            Address::Tags => 0x100,
            Address::Dtb => 0x01f0_0000,
        }
    }

    /// The greatest one that a header has room for.
    pub fn most(self) -> u64
        ensures { result ≡ spec.most_address self }
    {
        match self {
            Address::Kernel => u32::MAX as u64,
            Address::Ramdisk => u32::MAX as u64,
            Address::Second => u32::MAX as u64,
            Address::Tags => u32::MAX as u64,
            Address::Dtb => u64::MAX,
        }
    }
}

/// What the arguments set of an address.
#[derive(Clone, Copy, Drop)]
pub struct AddressWords {
    /// The address itself.
    pub address: Option<u64>,
    /// The base of all addresses.
    pub base: Option<u64>,
    /// What is added to the base.
    pub offset: Option<u64>,
}

/// The base of all addresses: the given base; otherwise mkbootimg's where any offset is given; otherwise none.
pub fn base_of(given: Option<u64>, has_offset: bool) -> Option<u64>
    ensures { result ≡ spec.base_for given has_offset }
{
    match given {
        Some(base) => Some(base),
        None if has_offset => Some(BASE),
        None => None,
    }
}

/// Whether an address is the sum of a base and an offset: there is a base, and the address itself isn't given.
pub fn is_sum(words: AddressWords) -> bool
    ensures { result ≡ spec.is_sum words }
{
    words.address.is_none() && words.base.is_some()
}

/// The given address; else, where there is a base, its sum with the given offset, or with mkbootimg's where none is
/// given; else the image's own address. Returns `None` where the sum exceeds 64 bits.
pub fn load_address(words: AddressWords, usual_offset: u64, own: u64) -> Option<u64>
    ensures { result ≡ spec.load_at words usual_offset own }
{
    match (words.address, words.base) {
        (Some(address), _) => Some(address),
        (None, Some(base)) => base.checked_add(words.offset.unwrap_or(usual_offset)),
        (None, None) => Some(own),
    }
}
