//! The arguments that pack an image again: the values of its header and its table, each as an option of `pack`.

ghost use Rattle.std.specs.Prelude.{◌≡◌, ◌++◌, ◌∷◌, [], ℕ, List, Some, None, MatchOption, IsTrue, IfErr, OnOk};
ghost use Rattle.std.specs.List.{flat_map};
ghost use Rattle.abt_sections.specs.Check.{all_zero};
ghost use Rattle.abt_sections.specs.Open.{IsOpened};
ghost use Rattle.abt_sections.specs.Header.{fragment_count, places_of, view_of};
ghost use Rattle.cmd_common_texts.specs.Info as info;
ghost use Rattle.sys_text.specs.Printed.{Prints};
ghost use Rattle.cmd_common_texts.specs.Words as words;

use crate::word_lines::{
    put_board_word, put_flag_word, put_fragment_word, put_number_word, put_os_word, put_part_word,
    put_text_word,
};
use abt_headers::{RamdiskEntry, Section, SectionPlace, VendorHeader};
use abt_io::{Meter, Output, Source, Window};
use abt_sections::{Image, ImageHeader, SectionFault, fragment, fragments, section, sections};
use cmd_common_fields::{Address, TextField, address_of, front_text, os_version_of, text_field_of};
use sys_text::Text;

/// Writes the arguments, one a line, with which `pack` makes this image again from the files of `unpack` in a folder.
///
/// A failed write is `Write`. Where the source fails, the arguments before stay written. It allocates no memory.
pub fn write_words<S: Source, O: Output>(
    image: &Image,
    folder: &str,
    source: &mut S,
    out: &mut O,
    w: &mut Window,
    m: &mut Meter,
) -> Result<(), SectionFault>
    ensures leaves { info.WritesImage result S.Source source.old source.new O.Output out.old out.new }
    ensures written { IsTrue S.models →
        OnOk result (O.written out.new ≡ O.written out.old ++ words.words_text
        (words.image_words folder.now (S.content source.old) (view_of image.now.header))) }
    ensures grown { (more : List ℕ) × (O.written out.new ≡ O.written out.old ++ more) }
    ensures refused { IsTrue S.models → IsOpened (S.content source.old) image.now →
        IfErr result (λ f. info.PrintCause f (S.read_faults source.old) (S.read_faults source.new)) }
{
    let mut text = Text::new(out);
    let told = image_words(image, folder, source, &mut text, w, m);
    match (text.finish(), told) {
        (Ok(()), Ok(())) => Ok(()),
        (Ok(()), Err(fault)) => Err(fault),
        (Err(fault), _) => Err(SectionFault::Write(fault)),
    }
}

fn image_words<S: Source, O: Output>(
    image: &Image,
    folder: &str,
    source: &mut S,
    text: &mut Text<'_, O>,
    w: &mut Window,
    m: &mut Meter,
) -> Result<(), SectionFault>
    ensures leaves { info.PrintsImage result S.Source source.old source.new O.Output text.old text.new image.now }
    ensures lines { IsTrue S.models →
        OnOk
        result (Prints O.written O.write_faults text.old text.new
        (words.words_text (words.image_words folder.now (S.content source.old) (view_of image.now.header)))) }
{
    header_words(image, folder, text, m);
    fragment_words(image, folder, source, text, w, m)
}

// The arguments of everything but the fragments.
fn header_words<O: Output>(image: &Image, folder: &str, text: &mut Text<'_, O>, m: &mut Meter)
    ensures { Prints O.written O.write_faults text.old text.new
        (words.words_text (words.header_words folder.now (view_of image.now.header))) }
{
    let header = &image.header;
    kind_words(header, text);
    section_words(image, folder, text, m);
    address_words(header, text);
    name_words(header, text);
    cmdline_word(header, text);
    os_words(header, text);
}

fn kind_words<O: Output>(header: &ImageHeader, text: &mut Text<'_, O>)
    ensures { Prints
        O.written O.write_faults text.old text.new (words.words_text (words.kind_words (view_of header.now))) }
{
    put_flag_word("escaped", text);
    match header {
        ImageHeader::Boot(header) => {
            put_number_word("version", header.version() as u64, text);
            put_number_word("page", header.page_size() as u64, text);
        }
        ImageHeader::Vendor(header) => {
            put_flag_word("vendor", text);
            put_number_word("version", header.version() as u64, text);
            put_number_word("page", header.page_size() as u64, text);
        }
    }
}

fn section_words<O: Output>(image: &Image, folder: &str, text: &mut Text<'_, O>, m: &mut Meter)
    ensures { Prints O.written O.write_faults text.old text.new
        (words.words_text (flat_map (words.section_words folder.now (words.has_table (view_of image.now.header)))
        (places_of (view_of image.now.header)))) }
{
    let table = has_table(&image.header);
    for i in 0..sections(image) {
        m.tick();
        section_word(section(image, i), folder, table, text);
    }
}

fn section_word<O: Output>(place: SectionPlace, folder: &str, table: bool, text: &mut Text<'_, O>)
    ensures { Prints
        O.written O.write_faults text.old text.new (words.words_text (words.section_words folder.now table place)) }
{
    match section_option(table, place.kind) {
        Some(name) => put_part_word(name, folder, place.kind.name(), text),
        None => {}
    }
}

// The version has a table of fragments.
fn has_table(header: &ImageHeader) -> bool
    ensures { result ≡ words.has_table (view_of header.now) }
{
    match header {
        ImageHeader::Boot(_) => false,
        ImageHeader::Vendor(VendorHeader::V3(_)) => false,
        ImageHeader::Vendor(VendorHeader::V4(..)) => true,
    }
}

// The option that sets a section, if any. A vendor ramdisk with a table, and the table, are set by its fragments.
fn section_option(table: bool, section: Section) -> Option<&'static str>
    ensures { MatchOption result (words.section_option table section ≡ None) (λ name. words.section_option table section
        ≡ Some name.now) }
{
    match section {
        Section::Kernel => Some("kernel"),
        Section::Ramdisk => Some("ramdisk"),
        Section::Second => Some("second"),
        Section::RecoveryDtbo => Some("recovery-dtbo"),
        Section::Dtb => Some("dtb"),
        Section::Signature => Some("signature"),
        Section::VendorRamdisk => { if table { None } else { Some("ramdisk") } }
        Section::Table => None,
        Section::Bootconfig => Some("bootconfig"),
    }
}

fn address_words<O: Output>(header: &ImageHeader, text: &mut Text<'_, O>)
    ensures { Prints
        O.written O.write_faults text.old text.new (words.words_text (words.address_words (view_of header.now))) }
{
    address_word(header, Address::Kernel, text);
    address_word(header, Address::Ramdisk, text);
    address_word(header, Address::Second, text);
    address_word(header, Address::Tags, text);
    address_word(header, Address::Dtb, text);
}

#[inline(never)]
fn address_word<O: Output>(header: &ImageHeader, which: Address, text: &mut Text<'_, O>)
    ensures { Prints
        O.written O.write_faults text.old text.new (words.words_text (words.address_word (view_of header.now) which)) }
{
    match address_of(header, which) {
        Some(address) => put_number_word(which.option(), address, text),
        None => {}
    }
}

fn name_words<O: Output>(header: &ImageHeader, text: &mut Text<'_, O>)
    ensures { Prints
        O.written O.write_faults text.old text.new (words.words_text (words.name_words (view_of header.now))) }
{
    match text_field_of(header, TextField::Name) {
        Some(name) => put_text_word("name", name, &[], text),
        None => {}
    }
}

fn cmdline_word<O: Output>(header: &ImageHeader, text: &mut Text<'_, O>)
    ensures { Prints
        O.written O.write_faults text.old text.new (words.words_text (words.cmdline_word (view_of header.now) ∷ [])) }
{
    let front = text_field_of(header, TextField::Cmdline).unwrap_or(&[]);
    let back = text_field_of(header, TextField::Extra).unwrap_or(&[]);
    put_text_word("cmdline", front, back, text);
}

fn os_words<O: Output>(header: &ImageHeader, text: &mut Text<'_, O>)
    ensures { Prints O.written O.write_faults text.old text.new
        (words.words_text (words.os_words (view_of header.now))) }
{
    match os_version_of(header) {
        Some(os) => put_os_word(os, text),
        None => {}
    }
}

fn fragment_words<S: Source, O: Output>(
    image: &Image,
    folder: &str,
    source: &mut S,
    text: &mut Text<'_, O>,
    w: &mut Window,
    m: &mut Meter,
) -> Result<(), SectionFault>
    ensures leaves { info.PrintsImage result S.Source source.old source.new O.Output text.old text.new image.now }
    ensures lines { IsTrue S.models →
        OnOk
        result (Prints O.written O.write_faults text.old text.new
        (words.words_text (words.fragment_words folder.now (S.content source.old) (view_of image.now.header)
        (fragment_count (view_of image.now.header))))) }
{
    for i in 0..fragments(image) {
        m.tick();
        match text.is_whole() {
            Ok(()) => {}
            Err(fault) => return Err(SectionFault::Write(fault)),
        }
        let entry = match fragment(image, i, source, w, m) {
            Ok(entry) => entry,
            Err(fault) => return Err(fault),
        };
        entry_words(i, &entry, folder, text, m);
    }
    Ok(())
}

fn entry_words<O: Output>(
    index: u32,
    entry: &RamdiskEntry,
    folder: &str,
    text: &mut Text<'_, O>,
    m: &mut Meter,
)
    ensures { Prints
        O.written O.write_faults text.old text.new (words.words_text (words.entry_words folder.now index entry.now)) }
{
    let name = name_bytes(&entry.name);
    put_fragment_word(index, entry.ramdisk_type, name, folder, text);
    board_words(index, &entry.board_id, text, m);
}

// A name up to its first zero byte, or all of it where it is no text.
fn name_bytes(name: &[u8; 32]) -> &[u8]
    ensures { result.now ≡ words.name_bytes name.now }
{
    let text = front_text(name);
    if is_zero(&name[text.len()..]) {
        text
    } else {
        name
    }
}

fn is_zero(bytes: &[u8]) -> bool
    ensures { result ≡ all_zero bytes.now }
{
    for byte in bytes {
        if *byte != 0 {
            return false;
        }
    }
    true
}

fn board_words<O: Output>(
    fragment: u32,
    board_id: &[u32; 16],
    text: &mut Text<'_, O>,
    m: &mut Meter,
)
    ensures { Prints
        O.written O.write_faults text.old text.new (words.words_text (words.board_words fragment 0 board_id.now)) }
{
    for place in 0..16 {
        m.tick();
        board_word(fragment, place, board_id[place as usize], text);
    }
}

fn board_word<O: Output>(fragment: u32, place: u32, number: u32, text: &mut Text<'_, O>)
    ensures { Prints
        O.written O.write_faults text.old text.new (words.words_text (words.board_word fragment place number)) }
{
    if number == 0 {
        return;
    }
    put_board_word(fragment, place, number, text);
}
