//! Takes sections and ramdisk fragments out of an image.

ghost use Rattle.std.specs.Prelude.{◌≡◌, ◌<◌, ◌≤◌, ◌+◌, ◌-◌, ◌^◌, ◌++◌, IsTrue, OnOk, Err, length, take, drop};
ghost use Rattle.std.specs.Prelude.{slice_index_or};
ghost use Rattle.abt_headers.specs.declared.sections.SectionPlace.{SectionPlace};
ghost use Rattle.abt_sections.specs.Grown.{AddsUpTo, AppendsFront};
ghost use Rattle.abt_sections.specs.Header as header_spec;
ghost use Rattle.abt_sections.specs.Layout.{part_of};
ghost use Rattle.abt_sections.specs.Moves.{MovesUnless};
ghost use Rattle.abt_sections.specs.Open.{IsOpened};

use crate::fault::SectionFault;
use crate::fragment_table::{fragment, table_of};
use crate::image::{Image, ImageHeader, is_as_long, section};
use crate::write_padded::of_copy;
use abt_headers::RamdiskEntry;
use abt_io::{Meter, Output, Source, Window, copy_range};

/// Copies the bytes of a part from a place on, where it has some.
fn copy_part<S: Source, O: Output>(
    source: &mut S,
    at: u64,
    size: u32,
    output: &mut O,
    w: &mut Window,
    m: &mut Meter,
) -> Result<(), SectionFault>
    requires { at < 2 ^ 63 }
    ensures moves { MovesUnless result S.Source source.old source.new O.Output output.old output.new
        (IsTrue S.models → (0 < size → at + size ≤ length (S.content source.old)) → ⊥) }
    ensures written { IsTrue S.models → OnOk result (O.written output.new ≡ O.written output.old
        ++ take size (drop at (S.content source.old))) }
    ensures front { IsTrue S.models → AppendsFront (O.written output.old) (O.written output.new)
        (take size (drop at (S.content source.old))) }
    ensures bytes { AddsUpTo result (O.written output.old) (O.written output.new) size }
{
    if size == 0 {
        return Ok(());
    }
    match copy_range(source, at, size as u64, output, w, m) {
        Ok(()) => Ok(()),
        Err(fault) => Err(of_copy(fault)),
    }
}

/// Writes section `i` of an image.
///
/// # Errors
/// `Read` and `Write` as they come, and `SourceChanged` where the source isn't the opened one any more. After these
/// the output holds a beginning of the section.
pub fn unpack<S: Source, O: Output>(
    image: &Image,
    i: usize,
    source: &mut S,
    output: &mut O,
    w: &mut Window,
    m: &mut Meter,
) -> Result<(), SectionFault>
    requires { i < length (header_spec.places_of (header_spec.view_of image.now.header)) }
    ensures moves { MovesUnless result S.Source source.old source.new O.Output output.old output.new
        (IsTrue S.models → IsOpened (S.content source.old) image.now → ⊥) }
    ensures written { (p : SectionPlace) → p ≡ slice_index_or
        (header_spec.places_of (header_spec.view_of image.now.header)) i
        p → IsTrue S.models → OnOk result (O.written output.new ≡ O.written output.old
        ++ part_of (S.content source.old) p) }
    ensures front { (p : SectionPlace) → p ≡ slice_index_or (header_spec.places_of
        (header_spec.view_of image.now.header)) i
        p → IsTrue S.models → AppendsFront (O.written output.old) (O.written output.new)
        (part_of (S.content source.old) p) }
    ensures bytes { (p : SectionPlace) → p ≡ slice_index_or (header_spec.places_of
        (header_spec.view_of image.now.header)) i
        p → AddsUpTo result (O.written output.old) (O.written output.new) p.size }
    ensures changed { (S.size source.old ≡ image.now.length → ⊥) → (result ≡ Err SectionFault.SourceChanged) ×
        (source.new ≡ source.old) × (output.new ≡ output.old) }
{
    let place = section(image, i);
    if !is_as_long(image, source) {
        return Err(SectionFault::SourceChanged);
    }
    copy_part(source, place.at, place.size, output, w, m)
}

/// Where the fragment of an entry is in the image.
fn fragment_at(header: &ImageHeader, entry: &RamdiskEntry) -> u64
    ensures value { result ≡ header_spec.ramdisk_at (header_spec.view_of header.now) + entry.now.ramdisk_offset }
    ensures near { result < 2 ^ 63 }
{
    table_of(header).ramdisk_at + entry.ramdisk_offset as u64
}

/// Writes ramdisk fragment `i` of a vendor boot image.
///
/// # Errors
/// As `unpack`; `SourceChanged` also where the table's entry now ends past the vendor ramdisk.
pub fn unpack_fragment<S: Source, O: Output>(
    image: &Image,
    i: u32,
    source: &mut S,
    output: &mut O,
    w: &mut Window,
    m: &mut Meter,
) -> Result<(), SectionFault>
    requires { i < header_spec.fragment_count (header_spec.view_of image.now.header) }
    ensures moves { MovesUnless result S.Source source.old source.new O.Output output.old output.new
        (IsTrue S.models → IsOpened (S.content source.old) image.now → ⊥) }
    ensures written { IsTrue S.models → OnOk result (O.written output.new ≡ O.written output.old
        ++ header_spec.fragment_of (S.content source.old) (header_spec.view_of image.now.header) i) }
    ensures front { IsTrue S.models → AppendsFront (O.written output.old) (O.written output.new)
        (header_spec.fragment_of (S.content source.old) (header_spec.view_of image.now.header) i) }
    ensures most { length (O.written output.new) ≤ length (O.written output.old) + header_spec.ramdisk_size
        (header_spec.view_of image.now.header) }
    ensures within { IsTrue S.models → OnOk result (header_spec.IsWithin (header_spec.view_of image.now.header)
        (header_spec.entry_of (S.content source.old) (header_spec.view_of image.now.header) i)) }
    ensures part { IsTrue S.models → OnOk result (header_spec.fragment_of (S.content source.old)
        (header_spec.view_of image.now.header) i ≡ header_spec.ramdisk_part (S.content source.old)
        (header_spec.view_of image.now.header) (header_spec.entry_of (S.content source.old)
        (header_spec.view_of image.now.header) i)) }
    ensures all { IsTrue S.models → OnOk result (length (O.written output.new)
        ≡ length (O.written output.old) + (header_spec.entry_of (S.content source.old)
        (header_spec.view_of image.now.header) i).ramdisk_size) }
    ensures changed { (S.size source.old ≡ image.now.length → ⊥) → (result ≡ Err SectionFault.SourceChanged) ×
        (source.new ≡ source.old) × (output.new ≡ output.old) }
{
    let entry = match fragment(image, i, source, w, m) {
        Ok(entry) => entry,
        Err(fault) => return Err(fault),
    };
    let at = fragment_at(&image.header, &entry);
    copy_part(source, at, entry.ramdisk_size, output, w, m)
}
