//! The text of `info`: the values of a boot image's header, and whether the image is what the packer writes.

ghost use Rattle.std.specs.Prelude.{◌≡◌, IsTrue, IfErr, IfOk, OnOk, flat_map};
ghost use Rattle.abt_sections.specs.Check.{IsVerdict};
ghost use Rattle.abt_sections.specs.Grown.{AppendsFront};
ghost use Rattle.abt_sections.specs.Open.{HasImage, IsOpened};
ghost use Rattle.abt_sections.specs.Header.{Header, fragment_count, places_of, view_of};
ghost use Rattle.cmd_common_texts.specs.Info as spec;
ghost use Rattle.sys_text.specs.Printed.{Prints, PrintsFront};

use crate::info_lines::{
    Notation, put_address, put_check, put_field, put_fragment, put_id, put_kind, put_os,
    put_section,
};
use abt_io::{Meter, Output, Source, Window};
use abt_sections::{
    Image, ImageHeader, SectionFault, Verdict, check, fragment, fragments, open, section, sections,
};
use cmd_common_fields::{Address, TextField, address_of, id_of, os_version_of, text_field_of};
use sys_text::Text;

/// What was printed of an image.
#[derive(Clone, Copy)]
pub struct InfoReport {
    pub image: Image,
    /// What checking it found.
    pub verdict: Verdict,
}

/// Prints a line for each field of the header of the image at the beginning of a source, and the result of the check.
///
/// An image that doesn't open prints nothing. Where the source fails later, the lines of everything before stay
/// printed. A failed write is `Write`. It allocates no memory.
pub fn report_info<S: Source, O: Output>(
    source: &mut S,
    notation: Notation,
    out: &mut O,
    w: &mut Window,
    m: &mut Meter,
) -> Result<InfoReport, SectionFault>
    ensures leaves { spec.WritesImage result S.Source source.old source.new O.Output out.old out.new }
    ensures reported { IsTrue S.models → IfOk result (λ r. IsOpened (S.content source.old) r.image ×
        IsVerdict (S.content source.old) (view_of r.image.header) r.verdict) }
    ensures printed { IsTrue S.models →
        OnOk result (spec.Reports notation (S.content source.old) (O.written out.old) (O.written out.new)) }
    ensures refused { IsTrue S.models →
        IfErr result (λ f. spec.InfoCause f (S.content source.old) (S.read_faults source.old) (S.read_faults source.new)
        (O.written out.new ≡ O.written out.old)) }
    ensures begun { IsTrue S.models → (h : Header) → HasImage (S.content source.old) h → (v : Verdict) →
        IsVerdict (S.content source.old) h v →
        AppendsFront (O.written out.old) (O.written out.new) (spec.info_text notation (S.content source.old) h v) }
{
    let image = match open(source, w, m) {
        Ok(image) => image,
        Err(fault) => return Err(fault),
    };
    let mut text = Text::new(out);
    let told = image_lines(&image, source, notation, &mut text, w, m);
    match (text.finish(), told) {
        (Ok(()), Ok(verdict)) => Ok(InfoReport { image, verdict }),
        (Ok(()), Err(fault)) => Err(fault),
        (Err(fault), _) => Err(SectionFault::Write(fault)),
    }
}

fn image_lines<S: Source, O: Output>(
    image: &Image,
    source: &mut S,
    notation: Notation,
    text: &mut Text<'_, O>,
    w: &mut Window,
    m: &mut Meter,
) -> Result<Verdict, SectionFault>
    ensures leaves { spec.PrintsImage result S.Source source.old source.new O.Output text.old text.new image.now }
    ensures verdict { IsTrue S.models → IfOk result (IsVerdict (S.content source.old) (view_of image.now.header)) }
    ensures lines { IsTrue S.models →
        OnOk result (spec.Checked notation (S.content source.old) (view_of image.now.header)
        (Prints O.written O.write_faults text.old text.new)) }
    ensures begun { IsTrue S.models → (v : Verdict) →
        IsVerdict (S.content source.old) (view_of image.now.header) v →
        PrintsFront O.written O.write_faults text.old text.new
        (spec.info_text notation (S.content source.old) (view_of image.now.header) v) }
{
    put_kind(&image.header, notation, text);
    section_lines(image, notation, text, m);
    match fragment_lines(image, source, notation, text, w, m) {
        Ok(()) => {}
        Err(fault) => return Err(fault),
    }
    header_lines(&image.header, notation, text);
    let verdict = match check(image, source, w, m) {
        Ok(verdict) => verdict,
        Err(fault) => return Err(fault),
    };
    put_check(verdict, text);
    Ok(verdict)
}

fn section_lines<O: Output>(
    image: &Image,
    notation: Notation,
    text: &mut Text<'_, O>,
    m: &mut Meter,
)
    ensures { Prints
        O.written O.write_faults text.old text.new
        (flat_map (spec.section_line notation) (places_of (view_of image.now.header))) }
{
    for i in 0..sections(image) {
        m.tick();
        put_section(section(image, i), notation, text);
    }
}

fn fragment_lines<S: Source, O: Output>(
    image: &Image,
    source: &mut S,
    notation: Notation,
    text: &mut Text<'_, O>,
    w: &mut Window,
    m: &mut Meter,
) -> Result<(), SectionFault>
    ensures leaves { spec.PrintsImage result S.Source source.old source.new O.Output text.old text.new image.now }
    ensures lines { IsTrue S.models →
        OnOk
        result (Prints O.written O.write_faults text.old text.new
        (spec.fragment_lines notation (S.content source.old) (view_of image.now.header)
        (fragment_count (view_of image.now.header)))) }
    ensures begun { IsTrue S.models → PrintsFront O.written O.write_faults text.old text.new
        (spec.fragment_lines notation (S.content source.old) (view_of image.now.header)
        (fragment_count (view_of image.now.header))) }
{
    for i in 0..fragments(image) {
        m.tick();
        let entry = match fragment(image, i, source, w, m) {
            Ok(entry) => entry,
            Err(fault) => return Err(fault),
        };
        put_fragment(i, &entry, notation, text);
        match text.is_whole() {
            Ok(()) => {}
            Err(fault) => return Err(SectionFault::Write(fault)),
        }
    }
    Ok(())
}

// The lines of the fields that this header has.
fn header_lines<O: Output>(header: &ImageHeader, notation: Notation, text: &mut Text<'_, O>)
    ensures { Prints O.written O.write_faults text.old text.new (spec.header_lines notation (view_of header.now)) }
{
    address_lines(header, notation, text);
    os_line(header, notation, text);
    text_line(header, TextField::Name, text);
    text_line(header, TextField::Cmdline, text);
    text_line(header, TextField::Extra, text);
    id_line(header, text);
}

fn address_lines<O: Output>(header: &ImageHeader, notation: Notation, text: &mut Text<'_, O>)
    ensures { Prints O.written O.write_faults text.old text.new (spec.address_lines notation (view_of header.now)) }
{
    address_line(header, Address::Kernel, notation, text);
    address_line(header, Address::Ramdisk, notation, text);
    address_line(header, Address::Second, notation, text);
    address_line(header, Address::Tags, notation, text);
    address_line(header, Address::Dtb, notation, text);
}

fn address_line<O: Output>(
    header: &ImageHeader,
    which: Address,
    notation: Notation,
    text: &mut Text<'_, O>,
)
    ensures { Prints O.written O.write_faults text.old text.new
        (spec.address_line notation (view_of header.now) which) }
{
    match address_of(header, which) {
        Some(address) => put_address(which, address, notation, text),
        None => {}
    }
}

fn os_line<O: Output>(header: &ImageHeader, notation: Notation, text: &mut Text<'_, O>)
    ensures { Prints O.written O.write_faults text.old text.new (spec.os_line notation (view_of header.now)) }
{
    match os_version_of(header) {
        Some(os) => put_os(os, notation, text),
        None => {}
    }
}

fn text_line<O: Output>(header: &ImageHeader, which: TextField, text: &mut Text<'_, O>)
    ensures { Prints O.written O.write_faults text.old text.new (spec.field_line (view_of header.now) which) }
{
    match text_field_of(header, which) {
        Some(field) => put_field(which, field, text),
        None => {}
    }
}

fn id_line<O: Output>(header: &ImageHeader, text: &mut Text<'_, O>)
    ensures { Prints O.written O.write_faults text.old text.new (spec.id_line (view_of header.now)) }
{
    match id_of(header) {
        Some(id) => put_id(&id, text),
        None => {}
    }
}
