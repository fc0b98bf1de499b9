//! A text of an image, as unpack_bootimg prints it.

ghost use Rattle.std.specs.Prelude.{◌≡◌, ◌++◌, IsTrue, IfErr, OnOk};
ghost use Rattle.abt_sections.specs.Header.{fragment_count, view_of};
ghost use Rattle.abt_sections.specs.Open.{IsOpened};
ghost use Rattle.sys_text.specs.Printed.{Prints};
ghost use Rattle.cmd_common_texts.specs.Info as info;
ghost use Rattle.cmd_unpack_aosp_texts.specs.Texts as spec;

use crate::info::{board_cell, boot_rows, entry_end, entry_rows, vendor_end, vendor_rows};
use crate::options::{Ending, end_words};
use crate::words::{board_word, boot_words, entry_file, entry_words, vendor_words};
use abt_headers::RamdiskEntry;
use abt_io::{Meter, Output, Source, Window};
use abt_sections::{Image, ImageHeader, SectionFault, fragment, fragments};
use sys_text::Text;

/// What is printed of an image.
#[derive(Clone, Copy)]
pub enum AospText {
    /// The values of its header, a line for each field.
    Info,
    /// The arguments of mkbootimg that make it again from parts in a folder.
    Words(Ending),
}

/// Writes a text of an image.
///
/// A failed write is `Write`. Where the source fails, everything before stays written. It allocates no memory.
pub fn write_aosp_text<S: Source, O: Output>(
    image: &Image,
    which: AospText,
    folder: &str,
    source: &mut S,
    out: &mut O,
    w: &mut Window,
    m: &mut Meter,
) -> Result<(), SectionFault>
    ensures leaves { info.WritesImage result S.Source source.old source.new O.Output out.old out.new }
    // exactly the text of the image's header and of its fragments was written
    ensures written { IsTrue S.models → OnOk result (O.written out.new ≡ O.written out.old ++ spec.aosp_text which
        folder.now (S.content source.old) (view_of image.now.header)) }
    // it fails since a device failed
    ensures refused { IsTrue S.models → IsOpened (S.content source.old) image.now →
        IfErr result (λ f. info.PrintCause f (S.read_faults source.old) (S.read_faults source.new)) }
{
    let mut text = Text::new(out);
    let told = image_text(image, which, folder, source, &mut text, w, m);
    match (text.finish(), told) {
        (Ok(()), Ok(())) => Ok(()),
        (Ok(()), Err(fault)) => Err(fault),
        (Err(fault), _) => Err(SectionFault::Write(fault)),
    }
}

fn image_text<S: Source, O: Output>(
    image: &Image,
    which: AospText,
    folder: &str,
    source: &mut S,
    text: &mut Text<'_, O>,
    w: &mut Window,
    m: &mut Meter,
) -> Result<(), SectionFault>
    ensures leaves { info.PrintsImage result S.Source source.old source.new O.Output text.old text.new image.now }
    ensures lines { IsTrue S.models → OnOk result (Prints O.written O.write_faults text.old text.new
        (spec.aosp_text which folder.now (S.content source.old) (view_of image.now.header))) }
{
    put_front(&image.header, which, folder, text);
    match put_fragments(image, which, folder, source, text, w, m) {
        Ok(()) => {}
        Err(fault) => return Err(fault),
    }
    put_end(&image.header, which, text);
    Ok(())
}

// What is before the fragments.
fn put_front<O: Output>(header: &ImageHeader, which: AospText, folder: &str, text: &mut Text<'_, O>)
    ensures { Prints O.written O.write_faults text.old text.new
        (spec.front_text which folder.now (view_of header.now)) }
{
    match (which, header) {
        (AospText::Info, ImageHeader::Boot(header)) => boot_rows(header, text),
        (AospText::Info, ImageHeader::Vendor(header)) => vendor_rows(header, text),
        (AospText::Words(ending), ImageHeader::Boot(header)) => {
            boot_words(header, folder, ending, text);
        }
        (AospText::Words(ending), ImageHeader::Vendor(header)) => {
            vendor_words(header, folder, ending, text);
        }
    }
}

// The text after the fragments.
fn put_end<O: Output>(header: &ImageHeader, which: AospText, text: &mut Text<'_, O>)
    ensures { Prints O.written O.write_faults text.old text.new (spec.end_text which (view_of header.now)) }
{
    match (which, header) {
        (AospText::Info, ImageHeader::Boot(_)) => {}
        (AospText::Info, ImageHeader::Vendor(header)) => vendor_end(header, text),
        (AospText::Words(ending), _) => end_words(ending, text),
    }
}

fn put_fragments<S: Source, O: Output>(
    image: &Image,
    which: AospText,
    folder: &str,
    source: &mut S,
    text: &mut Text<'_, O>,
    w: &mut Window,
    m: &mut Meter,
) -> Result<(), SectionFault>
    ensures leaves { info.PrintsImage result S.Source source.old source.new O.Output text.old text.new image.now }
    ensures lines { IsTrue S.models → OnOk result (Prints O.written O.write_faults text.old text.new
        (spec.fragment_texts which folder.now (S.content source.old) (view_of image.now.header)
        (fragment_count (view_of image.now.header)))) }
{
    for i in 0..fragments(image) {
        m.tick();
        match text.is_whole() {
            Ok(()) => {}
            Err(fault) => return Err(SectionFault::Write(fault)),
        }
        let entry = match fragment(image, i, source, w, m) {
            Ok(entry) => entry,
            Err(fault) => return Err(fault),
        };
        put_entry(i, &entry, which, folder, text, m);
    }
    Ok(())
}

fn put_entry<O: Output>(
    index: u32,
    entry: &RamdiskEntry,
    which: AospText,
    folder: &str,
    text: &mut Text<'_, O>,
    m: &mut Meter,
)
    ensures { Prints O.written O.write_faults text.old text.new (spec.fragment_part which folder.now index entry.now) }
{
    match which {
        AospText::Info => put_info_entry(index, entry, text, m),
        AospText::Words(ending) => put_words_entry(index, entry, folder, ending, text, m),
    }
}

fn put_info_entry<O: Output>(
    index: u32,
    entry: &RamdiskEntry,
    text: &mut Text<'_, O>,
    m: &mut Meter,
)
    ensures { Prints O.written O.write_faults text.old text.new (spec.info_entry index entry.now) }
{
    entry_rows(index, entry, text);
    put_board_id(&entry.board_id, AospText::Info, text, m);
    entry_end(text);
}

fn put_words_entry<O: Output>(
    index: u32,
    entry: &RamdiskEntry,
    folder: &str,
    ending: Ending,
    text: &mut Text<'_, O>,
    m: &mut Meter,
)
    ensures { Prints O.written O.write_faults text.old text.new (spec.words_entry ending folder.now index entry.now) }
{
    entry_words(entry, ending, text);
    put_board_id(&entry.board_id, AospText::Words(ending), text, m);
    entry_file(index, folder, ending, text);
}

fn put_board_id<O: Output>(
    board_id: &[u32; 16],
    which: AospText,
    text: &mut Text<'_, O>,
    m: &mut Meter,
)
    ensures { Prints O.written O.write_faults text.old text.new (spec.board_text which 0 board_id.now) }
{
    for place in 0..16 {
        m.tick();
        put_board_number(place, board_id[place as usize], which, text);
    }
}

fn put_board_number<O: Output>(place: u32, number: u32, which: AospText, text: &mut Text<'_, O>)
    ensures { Prints O.written O.write_faults text.old text.new (spec.board_number_text which place number) }
{
    match which {
        AospText::Info => board_cell(place, number, text),
        AospText::Words(ending) => board_word(place, number, ending, text),
    }
}
