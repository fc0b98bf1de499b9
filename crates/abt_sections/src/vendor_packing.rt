//! Packs a vendor boot image.

ghost use Rattle.std.specs.Prelude.{◌≡◌, ◌<◌, ◌≤◌, ◌+◌, ◌-◌, ◌*◌, ◌++◌, ◌∷◌, [], IsTrue, IfOk, IfErr, OnOk, Err};
ghost use Rattle.std.specs.Prelude.{length, map, take, drop, slice_index};
ghost use Rattle.std.specs.List.{concat};
ghost use Rattle.abt_io.specs.Lent.{OnlyReads, OnlyReadsAll, OnlyWrites};
ghost use Rattle.abt_headers.specs.Page as of_page;
ghost use Rattle.abt_headers.specs.Vendor.{vendor_view, vendor_page, vendor_record, vendor_size};
ghost use Rattle.abt_sections.specs.VendorCanon as canon;
ghost use Rattle.abt_sections.specs.Cause.{PackCause, total, full_handed};
ghost use Rattle.abt_sections.specs.Fields.{vendor_fields};
ghost use Rattle.abt_sections.specs.Grown.{AppendsFront, AddsUpTo};
ghost use Rattle.abt_sections.specs.Layout as layout;
ghost use Rattle.abt_sections.specs.Moves.{Appends, MovesMoreUnless, MovesRamdisks, MovesUnless};
ghost use Rattle.abt_sections.specs.Refusal.{pack_vendor_refusal, IfRefused};

use crate::fault::SectionFault;
use crate::sizes::{image_bytes, vendor_sizes};
use crate::spec::{FragmentSpec, Packed, VendorSpec};
use crate::vendor_header::{check_vendor_spec, vendor_header_for};
use crate::write_padded::{padding, write_bytes, write_padding, write_part, write_record};
use abt_headers::{RamdiskEntry, VendorHeader};
use abt_io::{Meter, Output, Source, Window, write_out};

/// Writes a vendor header's record, and zeros up to a page boundary.
#[inline(never)]
fn write_vendor_header<O: Output>(
    header: &VendorHeader,
    output: &mut O,
    w: &mut Window,
    m: &mut Meter,
) -> Result<(), SectionFault>
    ensures appends { Appends result O.Output output.old output.new
        (layout.padded (vendor_page (vendor_view header.now)) (vendor_record (vendor_view header.now))) }
    ensures bytes { AddsUpTo result (O.written output.old) (O.written output.new)
        (of_page.pages (vendor_size (vendor_view header.now)) (vendor_page (vendor_view header.now)) * vendor_page
        (vendor_view header.now)) }
{
    let mut record = [0u8; 2128];
    let size = header.encode(&mut record);
    write_record(&record[..size], header.page_size(), output, w, m)
}

/// Copies ramdisks one after another, each of which must still have its length then.
fn write_ramdisks<S: Source, O: Output>(
    ramdisks: &mut [S],
    output: &mut O,
    w: &mut Window,
    m: &mut Meter,
) -> Result<(), SectionFault>
    ensures ramdisks { MovesRamdisks result S.Source ramdisks.old ramdisks.new O.Output output.old output.new
        (concat (map S.content ramdisks.old)) }
    ensures bytes { AddsUpTo result (O.written output.old) (O.written output.new) (total S.size ramdisks.old) }
{
    for i in 0..ramdisks.len() {
        m.tick();
        let ramdisk = &mut ramdisks[i];
        let size = ramdisk.length();
        match write_bytes(ramdisk, size, output, w, m) {
            Ok(()) => {}
            Err(fault) => return Err(fault),
        }
    }
    Ok(())
}

/// The entry of a fragment of so many bytes at a place of the vendor ramdisk.
fn entry_for(fragment: &FragmentSpec, size: u32, offset: u32) -> RamdiskEntry
    ensures { result ≡ canon.entry_for fragment.now size offset }
{
    RamdiskEntry {
        ramdisk_size: size,
        ramdisk_offset: offset,
        ramdisk_type: fragment.kind,
        name: fragment.name,
        board_id: fragment.board_id,
    }
}

/// Writes the table: an entry for each fragment, which lie end to end.
#[inline(never)]
fn write_table<S: Source, O: Output>(
    fragments: &[FragmentSpec],
    ramdisks: &[S],
    output: &mut O,
    m: &mut Meter,
) -> Result<(), SectionFault>
    requires count { length fragments.now ≡ length ramdisks.now }
    requires small { total S.size ramdisks.now ≤ 4294967295 }
    ensures appends { Appends result O.Output output.old output.new
        (canon.table_for fragments.now (map S.size ramdisks.now) 0) }
    ensures bytes { AddsUpTo result (O.written output.old) (O.written output.new) (108 * length fragments.now) }
{
    let mut offset = 0u32;
    for i in 0..ramdisks.len() {
        m.tick();
        let size = ramdisks[i].length() as u32;
        let entry = entry_for(&fragments[i], size, offset);
        match write_out(output, &entry.encode(), m) {
            Ok(()) => {}
            Err(fault) => return Err(SectionFault::Write(fault)),
        }
        offset += size;
    }
    Ok(())
}

/// Writes the vendor ramdisk, which is the ramdisks end to end, and zeros up to a page boundary.
#[inline(never)]
fn write_vendor_ramdisk<S: Source, O: Output>(
    ramdisks: &mut [S],
    size: u32,
    page: u32,
    output: &mut O,
    w: &mut Window,
    m: &mut Meter,
) -> Result<(), SectionFault>
    requires some { 0 < page }
    requires sized { total S.size ramdisks.old ≡ size }
    ensures ramdisks { MovesRamdisks result S.Source ramdisks.old ramdisks.new O.Output output.old output.new
        (layout.padded page (concat (map S.content ramdisks.old))) }
    ensures bytes { AddsUpTo result (O.written output.old) (O.written output.new) (of_page.pages size page * page) }
{
    let _free = padding(size as u64, page);
    match write_ramdisks(ramdisks, output, w, m) {
        Ok(()) => {}
        Err(fault) => return Err(fault),
    }
    write_padding(size as u64, page, output, w, m)
}

/// Writes the table and the bootconfig, each with zeros up to a page boundary.
#[inline(never)]
fn write_table_and_bootconfig<S: Source, O: Output>(
    fragments: &[FragmentSpec],
    ramdisks: &[S],
    bootconfig: &mut S,
    sizes: &[u32; 4],
    page: u32,
    output: &mut O,
    w: &mut Window,
    m: &mut Meter,
) -> Result<(), SectionFault>
    requires some { 0 < page }
    requires count { length fragments.now ≡ length ramdisks.now }
    requires ramdisk { total S.size ramdisks.now ≡ slice_index sizes.now 0 }
    requires table { slice_index sizes.now 2 ≡ 108 * length fragments.now }
    ensures moves { MovesUnless result S.Source bootconfig.old bootconfig.new O.Output output.old output.new
        (IsTrue S.models → S.size bootconfig.old ≡ slice_index sizes.now 3 → ⊥) }
    ensures lasting { OnOk result ((S.size bootconfig.old ≡ slice_index sizes.now 3) ×
        (S.size bootconfig.new ≡ slice_index sizes.now 3)) }
    ensures written { IsTrue S.models → OnOk result (O.written output.new ≡ O.written output.old
        ++ layout.laid page (canon.table_for fragments.now (map S.size ramdisks.now) 0 ∷ S.content
        bootconfig.old ∷ [])) }
    ensures front { IsTrue S.models → AppendsFront (O.written output.old) (O.written output.new)
        (layout.laid page (canon.table_for fragments.now (map S.size ramdisks.now) 0 ∷ S.content bootconfig.old ∷ [])) }
    ensures table { OnOk result (take (108 * length fragments.now) (drop (length (O.written output.old))
        (O.written output.new)) ≡ canon.table_for fragments.now (map S.size ramdisks.now) 0) }
    ensures bytes { AddsUpTo result (O.written output.old) (O.written output.new)
        (layout.laid_size page (drop 2 sizes.now)) }
{
    match write_table(fragments, ramdisks, output, m) {
        Ok(()) => {}
        Err(fault) => return Err(fault),
    }
    match write_padding(sizes[2] as u64, page, output, w, m) {
        Ok(()) => {}
        Err(fault) => return Err(fault),
    }
    write_part(bootconfig, sizes[3], page, output, w, m)
}

/// Writes the record, the vendor ramdisk and the dtb, each with zeros up to a page boundary.
#[inline(never)]
fn write_first_sections<S: Source, O: Output>(
    header: &VendorHeader,
    ramdisks: &mut [S],
    dtb: &mut S,
    sizes: &[u32; 4],
    output: &mut O,
    w: &mut Window,
    m: &mut Meter,
) -> Result<(), SectionFault>
    requires ramdisk { total S.size ramdisks.old ≡ slice_index sizes.now 0 }
    ensures moves { MovesMoreUnless result S.Source ramdisks.old ramdisks.new dtb.old dtb.new O.Output output.old
        output.new (IsTrue S.models → S.size dtb.old ≡ slice_index sizes.now 1 → ⊥) }
    ensures lasting { OnOk result ((map S.size ramdisks.new ≡ map S.size ramdisks.old) ×
        (S.size dtb.old ≡ slice_index sizes.now 1) × (S.size dtb.new ≡ slice_index sizes.now 1)) }
    ensures written { IsTrue S.models → OnOk result (O.written output.new ≡ O.written output.old
        ++ canon.first_sections (vendor_view header.now) (concat (map S.content ramdisks.old)) (S.content dtb.old)) }
    ensures front { IsTrue S.models → AppendsFront (O.written output.old) (O.written output.new)
        (canon.first_sections (vendor_view header.now) (concat (map S.content ramdisks.old)) (S.content dtb.old)) }
    ensures bytes { AddsUpTo result (O.written output.old) (O.written output.new)
        (canon.first_size (vendor_view header.now) (slice_index sizes.now 0) (slice_index sizes.now 1)) }
{
    let page = header.page_size();
    match write_vendor_header(header, output, w, m) {
        Ok(()) => {}
        Err(fault) => return Err(fault),
    }
    match write_vendor_ramdisk(ramdisks, sizes[0], page, output, w, m) {
        Ok(()) => {}
        Err(fault) => return Err(fault),
    }
    write_part(dtb, sizes[1], page, output, w, m)
}

/// Packs a vendor boot image from these fields, fragments and parts: the bytes of `bootimg.h`, in the layout of
/// `mkbootimg`, with the fragments end to end in the order of the table.
///
/// Version 3 has one ramdisk, no fragment and an empty bootconfig; version 4 a fragment for each ramdisk. An absent
/// part has length 0.
///
/// # Errors
/// Before anything is written, the first of: `Header(Version)`, `Header(PageSize)`, `Name`, `CommandLine`,
/// `SectionTooLarge`. Then `Read`, `Write` and `SourceChanged` as they come, the last also where a part's length is no
/// longer the first that it reported. After these faults the output holds a beginning of the image.
pub fn pack_vendor<S: Source, O: Output>(
    spec: &VendorSpec,
    fragments: &[FragmentSpec],
    ramdisks: &mut [S],
    dtb: &mut S,
    bootconfig: &mut S,
    output: &mut O,
    w: &mut Window,
    m: &mut Meter,
) -> Result<Packed, SectionFault>
    requires three { spec.now.version ≡ 3 → (length fragments.now ≡ 0) × (length ramdisks.old ≡ 1) ×
        (S.size bootconfig.old ≡ 0) }
    requires four { spec.now.version ≡ 4 → length fragments.now ≡ length ramdisks.old }
    ensures reads { OnlyReadsAll result S.Source ramdisks.old ramdisks.new }
    ensures dtb { OnlyReads result S.Source dtb.old dtb.new }
    ensures bootconfig { OnlyReads result S.Source bootconfig.old bootconfig.new }
    ensures writes { OnlyWrites result (full_handed result) O.Output output.old output.new }
    ensures refused { IfRefused (pack_vendor_refusal (vendor_fields spec.now)
        (canon.vendor_sizes_for (total S.size ramdisks.old) (S.size dtb.old) (length fragments.now)
        (S.size bootconfig.old))) (λ f. (result ≡ Err f) × (output.new ≡ output.old)) }
    ensures written { IsTrue S.models → OnOk result (O.written output.new ≡ O.written output.old
        ++ canon.vendor_canon (vendor_fields spec.now) (canon.vendor_parts fragments.now (map S.content ramdisks.old)
        (S.content dtb.old) (S.content bootconfig.old))) }
    ensures front { IsTrue S.models → AppendsFront (O.written output.old) (O.written output.new)
        (canon.vendor_canon (vendor_fields spec.now) (canon.vendor_parts fragments.now (map S.content ramdisks.old)
        (S.content dtb.old) (S.content bootconfig.old))) }
    ensures table { spec.now.version ≡ 4 → OnOk result (take (108 * length fragments.now)
        (drop (length (O.written output.old) + canon.table_place (vendor_fields spec.now)
        (canon.vendor_sizes_for (total S.size ramdisks.old) (S.size dtb.old) (length fragments.now)
        (S.size bootconfig.old))) (O.written output.new)) ≡ canon.table_for fragments.now (map S.size ramdisks.old) 0) }
    ensures most { length (O.written output.new) ≤ length (O.written output.old) + canon.vendor_image_size
        (vendor_fields spec.now) (canon.vendor_sizes_for (total S.size ramdisks.old) (S.size dtb.old)
        (length fragments.now) (S.size bootconfig.old)) }
    ensures packed { IfOk result (λ p. (p.bytes ≡ canon.vendor_image_size (vendor_fields spec.now)
        (canon.vendor_sizes_for (total S.size ramdisks.old) (S.size dtb.old) (length fragments.now)
        (S.size bootconfig.old))) × (length (O.written output.new) ≡ length (O.written output.old) + p.bytes)) }
    ensures lasting { OnOk result ((map S.size ramdisks.new ≡ map S.size ramdisks.old) ×
        (S.size dtb.new ≡ S.size dtb.old) × (S.size bootconfig.new ≡ S.size bootconfig.old)) }
    ensures cause { IfErr result (λ e. PackCause (pack_vendor_refusal (vendor_fields spec.now)
        (canon.vendor_sizes_for (total S.size ramdisks.old) (S.size dtb.old) (length fragments.now)
        (S.size bootconfig.old))) e (total S.read_faults ramdisks.old + S.read_faults dtb.old + S.read_faults
        bootconfig.old) (total S.read_faults ramdisks.new + S.read_faults dtb.new + S.read_faults bootconfig.new)
        (O.write_faults output.old) (O.write_faults output.new) (IsTrue S.models → ⊥)) }
{
    let page = check_vendor_spec(spec, m)?;
    let sizes = vendor_sizes(fragments.len(), ramdisks, dtb, bootconfig, m)?;
    let header = vendor_header_for(spec, page, &sizes, fragments.len() as u32);
    let bytes = page.bytes();
    write_first_sections(&header, ramdisks, dtb, &sizes, output, w, m)?;
    if spec.version == 3 {
        return Ok(Packed {
            bytes: image_bytes(bytes, 2112, &sizes, 2, m),
        });
    }
    match write_table_and_bootconfig(fragments, ramdisks, bootconfig, &sizes, bytes, output, w, m) {
        Ok(()) => {}
        Err(fault) => return Err(fault),
    }
    Ok(Packed {
        bytes: image_bytes(bytes, 2128, &sizes, 4, m),
    })
}
