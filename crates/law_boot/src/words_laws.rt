//! Laws about the words that pack an image again: they say what the image has, and packing what they say makes the
//! image again. No function does anything.

ghost use Rattle.std.specs.Prelude.{◌≡◌, ◌<◌, ◌^◌, ℕ, List, Some};
ghost use Rattle.abt_io.specs.Bytes.{AreBytes};
ghost use Rattle.abt_sections.specs.Check.{IsCanonical};
ghost use Rattle.abt_sections.specs.Header.{Header, view_of};
ghost use Rattle.abt_sections.specs.Open.{HasImage, IsOpened};
ghost use Rattle.cmd_common_fields.specs.Fields as fields;
ghost use Rattle.law_boot.specs.Said.{IsHeld, SaysHeader};
ghost use Rattle.law_boot.specs.WayBack.{PacksFromParts, SaysImage};
ghost use Rattle.cmd_common_texts.specs.Words.{image_words};

use abt_io::are_bytes;
use abt_sections::{Image, ImageHeader};
use cmd_common_fields::{Address, TextField, address_of, os_version_of, text_field_of};
use law_sections::{canonical_is_packed, image_is_whole, packed_holds_parts};

/// If the fields of a header hold what fields can, its words say each field as it is: numbers, the OS version and its
/// patch level, and texts up to their first zero byte.
pub fn words_say_the_header()
    ensures { (folder x : List ℕ) (h : Header) → IsHeld h → SaysHeader (image_words folder x h) h }
{}

/// The fields of a header hold what fields can.
pub fn header_is_held(header: &ImageHeader)
    ensures { IsHeld (view_of header.now) }
{
    address_fits(header, Address::Kernel);
    address_fits(header, Address::Ramdisk);
    address_fits(header, Address::Second);
    address_fits(header, Address::Tags);
    address_fits(header, Address::Dtb);
    os_fits(header);
    text_is_bytes(header, TextField::Name);
    text_is_bytes(header, TextField::Cmdline);
    text_is_bytes(header, TextField::Extra);
}

/// The fields of the header that an image begins with hold what fields can.
pub fn image_is_held()
    ensures { (x : List ℕ) (h : Header) → AreBytes x → HasImage x h → IsHeld h }
{
    image_is_whole();
}

/// A canonical image is packed again: packing takes the fields of its header with the parts that unpacking writes, and
/// the image that it packs of them is the original one, byte for byte.
pub fn canonical_packs_again()
    ensures { (x : List ℕ) (h : Header) → AreBytes x → HasImage x h → IsCanonical x h → PacksFromParts x h }
{
    canonical_is_packed();
    packed_holds_parts();
}

/// The words of a canonical image say what packs it again: that bytes are escaped, its kind and its fields, the file of
/// each part, and each ramdisk fragment.
pub fn canonical_is_said()
    ensures { (folder x : List ℕ) (h : Header) → AreBytes folder → AreBytes x → HasImage x h → IsCanonical x h →
        SaysImage (image_words folder x h) folder x h }
{
    words_say_the_header();
    image_is_held();
    canonical_packs_again();
}

/// The words of an opened canonical image say what packs it again, so packing what they say makes the image again.
pub fn words_pack_again(image: &Image)
    ensures says { (folder x : List ℕ) → AreBytes folder → AreBytes x → IsOpened x image.now →
        IsCanonical x (view_of image.now.header) →
        SaysImage (image_words folder x (view_of image.now.header)) folder x (view_of image.now.header) }
    ensures packs { (x : List ℕ) → AreBytes x → IsOpened x image.now → IsCanonical x (view_of image.now.header) →
        PacksFromParts x (view_of image.now.header) }
{
    words_say_the_header();
    header_is_held(&image.header);
    canonical_packs_again();
}

fn address_fits(header: &ImageHeader, which: Address)
    ensures { (n : ℕ) → fields.address_of (view_of header.now) which ≡ Some n → n < 2 ^ 64 }
{
    let _address = address_of(header, which);
}

fn os_fits(header: &ImageHeader)
    ensures { (n : ℕ) → fields.os_number_of (view_of header.now) ≡ Some n → n < 2 ^ 32 }
{
    if let Some(os) = os_version_of(header) {
        let _number = os.raw();
    }
}

fn text_is_bytes(header: &ImageHeader, which: TextField)
    ensures { (field : List ℕ) → fields.field_of (view_of header.now) which ≡ Some field → AreBytes field }
{
    if let Some(field) = text_field_of(header, which) {
        are_bytes(field);
    }
}
