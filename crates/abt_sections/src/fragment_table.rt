//! The table of ramdisk fragments in a vendor boot image of version 4.

ghost use Rattle.std.specs.Prelude.{◌≡◌, ◌<◌, ◌≤◌, ◌+◌, ◌-◌, ◌*◌, ◌^◌, ℕ, IsTrue, IfOk, OnOk, MatchBool};
ghost use Rattle.std.specs.Prelude.{MatchResult, ◌↔◌, Err, None, length, take, drop};
ghost use Rattle.abt_headers.specs.Entry.{entry_at};
ghost use Rattle.abt_sections.specs.Reads.{FindsUnless, OpensUnless, ReadsUnless};
ghost use Rattle.abt_sections.specs.Asked.{MayAskEntry};
ghost use Rattle.abt_sections.specs.Entries.{EntriesStand, HoldsEntry};
ghost use Rattle.abt_sections.specs.Header as header_spec;
ghost use Rattle.abt_sections.specs.Open.{IsOpened, EntryRefusedAs, beyond};
ghost use Rattle.abt_sections.specs.Check.{FragmentsFill, HasTable};

use crate::fault::SectionFault;
use crate::image::{Image, ImageHeader, is_as_long};
use crate::reading::read_front;
use abt_headers::{RamdiskEntry, VendorHeader, pages};
use abt_io::{Meter, Source, Window};

/// How many entries fit the window.
const WINDOW_ENTRIES: u32 = 606;

/// The table of an image, as its header gives it.
#[derive(Clone, Copy)]
pub(crate) struct Table {
    /// Where the table begins.
    pub(crate) at: u64,
    /// How many entries it has.
    pub(crate) count: u32,
    /// Where the vendor ramdisk begins, and how many bytes it has.
    pub(crate) ramdisk_at: u64,
    pub(crate) ramdisk_size: u32,
}

/// The table of an image; one without entries where the version has none.
#[inline(never)]
pub(crate) fn table_of(header: &ImageHeader) -> Table
    ensures at { result.at ≡ header_spec.table_at (header_spec.view_of header.now) }
    ensures count { result.count ≡ header_spec.fragment_count (header_spec.view_of header.now) }
    ensures ramdisk_at { result.ramdisk_at ≡ header_spec.ramdisk_at (header_spec.view_of header.now) }
    ensures ramdisk_size { result.ramdisk_size ≡ header_spec.ramdisk_size (header_spec.view_of header.now) }
    ensures whole { header_spec.HasWholeTable (header_spec.view_of header.now) }
    ensures near { result.at < 2 ^ 62 }
    ensures ramdisk_near { result.ramdisk_at < 2 ^ 62 }
{
    let front = match header {
        ImageHeader::Boot(_) => {
            return Table {
                at: 0,
                count: 0,
                ramdisk_at: 0,
                ramdisk_size: 0,
            };
        }
        ImageHeader::Vendor(VendorHeader::V3(front)) => front,
        ImageHeader::Vendor(VendorHeader::V4(front, _)) => front,
    };
    let page = header.page_size();
    let first = pages(header.size() as u64, page);
    let ramdisk = pages(front.vendor_ramdisk_size as u64, page);
    let dtb = pages(front.dtb_size as u64, page);
    Table {
        at: page as u64 * (first + ramdisk + dtb),
        count: entry_count(header),
        ramdisk_at: page as u64 * first,
        ramdisk_size: front.vendor_ramdisk_size,
    }
}

/// How many entries the table has.
pub(crate) fn entry_count(header: &ImageHeader) -> u32
    ensures { result ≡ header_spec.fragment_count (header_spec.view_of header.now) }
{
    match header {
        ImageHeader::Vendor(VendorHeader::V4(_, tail)) => tail.entry_num,
        _ => 0,
    }
}

/// Where entry `i` of a table is.
fn place_of_entry(table: &Table, i: u32) -> u64
    requires { table.now.at < 2 ^ 62 }
    ensures { result ≡ table.now.at + 108 * i }
{
    table.at + 108 * i as u64
}

/// One step: reads entry `i` of a table.
fn read_entry<S: Source>(
    table: &Table,
    i: u32,
    source: &mut S,
    w: &mut Window,
    m: &mut Meter,
) -> Result<RamdiskEntry, SectionFault>
    requires { table.now.at < 2 ^ 62 }
    ensures reads { ReadsUnless result S.Source source.old source.new
        (IsTrue S.models → table.now.at + 108 * i + 108 ≤ length (S.content source.old) → ⊥) }
    ensures entry { IsTrue S.models → IfOk result (λ e. e ≡ entry_at (take 108
        (drop (table.now.at + 108 * i) (S.content source.old)))) }
{
    match read_front(source, place_of_entry(table, i), 108, w, m) {
        Ok(()) => {}
        Err(fault) => return Err(fault),
    }
    let entry = entry_in(w, 0);
    m.close_step(108);
    Ok(entry)
}

/// The entries of a table at the beginning of the window: from `first` up to `end`. The step that read them ends once
/// they are used.
#[derive(Clone, Copy)]
struct LoadedEntries {
    first: u32,
    end: u32,
}

/// Ends the step that read the entries at the window's beginning.
fn end_held(held: LoadedEntries, m: &mut Meter)
    requires from { held.first ≤ held.end }
    requires few { held.end ≤ held.first + 606 }
{
    if held.first < held.end {
        m.close_step(108 * (held.end - held.first));
    }
}

/// Where entry `i` is not among the entries at the window's beginning: ends their step, and begins one that reads the
/// entry there, and after it as many as there are and fit.
fn hold_entry<S: Source>(
    table: &Table,
    i: u32,
    held: LoadedEntries,
    source: &mut S,
    w: &mut Window,
    m: &mut Meter,
) -> Result<LoadedEntries, SectionFault>
    requires entry { MayAskEntry table.now.at held.first held.end i table.now.count }
    requires stand { IsTrue S.models → EntriesStand w.old.bytes (S.content source.old) table.now.at held.first
        held.end }
    ensures reads { ReadsUnless result S.Source source.old source.new
        (IsTrue S.models → table.now.at + 108 * table.now.count ≤ length (S.content source.old) → ⊥) }
    ensures stand { IsTrue S.models → IfOk result (λ h. EntriesStand w.new.bytes
        (S.content source.old) table.now.at h.first h.end) }
    ensures held { IfOk result (λ h. HoldsEntry h.first h.end i table.now.count) }
{
    if i < held.end {
        return Ok(held);
    }
    end_held(held, m);
    let n = (table.count - i).min(WINDOW_ENTRIES);
    match read_front(source, place_of_entry(table, i), 108 * n as usize, w, m) {
        Ok(()) => {}
        Err(fault) => return Err(fault),
    }
    Ok(LoadedEntries {
        first: i,
        end: i + n,
    })
}

/// Entry `j` of those at the window's beginning.
fn entry_in(w: &Window, j: u32) -> RamdiskEntry
    requires { j < 606 }
    ensures { result ≡ entry_at (take 108 (drop (108 * j) w.now.bytes)) }
{
    let from = 108 * j as usize;
    let mut record = [0u8; 108];
    record.copy_from_slice(w.part(from, from + 108));
    RamdiskEntry::decode(&record)
}

/// Entry `i` of a table whose entries are asked for in their order, a window of them at a time.
fn next_entry<S: Source>(
    table: &Table,
    i: u32,
    held: &mut LoadedEntries,
    source: &mut S,
    w: &mut Window,
    m: &mut Meter,
) -> Result<RamdiskEntry, SectionFault>
    requires entry { MayAskEntry table.now.at held.old.first held.old.end i table.now.count }
    requires stand { IsTrue S.models → EntriesStand w.old.bytes (S.content source.old) table.now.at held.old.first
        held.old.end }
    ensures found { FindsUnless result S.Source source.old source.new
        (IsTrue S.models → table.now.at + 108 * table.now.count ≤ length (S.content source.old) → ⊥)
        (λ e. e ≡ entry_at (take 108 (drop (table.now.at + 108 * i) (S.content source.old)))) }
    ensures stand { IsTrue S.models → OnOk result (EntriesStand w.new.bytes
        (S.content source.old) table.now.at held.new.first held.new.end) }
    ensures held { OnOk result (HoldsEntry held.new.first held.new.end i table.now.count) }
{
    match hold_entry(table, i, *held, source, w, m) {
        Ok(now) => *held = now,
        Err(fault) => return Err(fault),
    }
    Ok(entry_in(w, i - held.first))
}

/// A fragment ends within a vendor ramdisk of so many bytes.
fn is_within(entry: &RamdiskEntry, ramdisk_size: u32) -> bool
    ensures { IsTrue result ↔ (entry.now.ramdisk_offset + entry.now.ramdisk_size ≤ ramdisk_size) }
{
    entry.ramdisk_offset as u64 + entry.ramdisk_size as u64 <= ramdisk_size as u64
}

/// Tests that each fragment ends within the vendor ramdisk, of an image whose sections are there.
pub(crate) fn check_entries<S: Source>(
    header: &ImageHeader,
    source: &mut S,
    w: &mut Window,
    m: &mut Meter,
) -> Result<(), SectionFault>
    ensures reads { OpensUnless result S.Source source.old source.new
        (IsTrue S.models → beyond (header_spec.places_of (header_spec.view_of header.now))
        (length (S.content source.old)) ≡ None → ⊥) }
    ensures found { IsTrue S.models → beyond (header_spec.places_of (header_spec.view_of header.now))
        (length (S.content source.old)) ≡ None → MatchResult result (λ _. header_spec.EachWithin (S.content source.old)
        (header_spec.view_of header.now)) (λ f. EntryRefusedAs (S.content source.old)
        (header_spec.view_of header.now) f) }
{
    let table = table_of(header);
    let mut held = LoadedEntries { first: 0, end: 0 };
    for i in 0..table.count {
        m.tick();
        let entry = match next_entry(&table, i, &mut held, source, w, m) {
            Ok(entry) => entry,
            Err(fault) => return Err(fault),
        };
        if !is_within(&entry, table.ramdisk_size) {
            end_held(held, m);
            return Err(SectionFault::Entry(i));
        }
    }
    end_held(held, m);
    Ok(())
}

/// How many ramdisk fragments the table has: none but in a vendor boot image of version 4.
#[inline(never)]
pub fn fragments(image: &Image) -> u32
    ensures { result ≡ header_spec.fragment_count (header_spec.view_of image.now.header) }
{
    entry_count(&image.header)
}

/// Entry `i` of the table.
///
/// # Errors
/// `Read`, and `SourceChanged` where the source isn't the opened one any more, or the entry's fragment now ends past
/// the vendor ramdisk.
pub fn fragment<S: Source>(
    image: &Image,
    i: u32,
    source: &mut S,
    w: &mut Window,
    m: &mut Meter,
) -> Result<RamdiskEntry, SectionFault>
    requires { i < header_spec.fragment_count (header_spec.view_of image.now.header) }
    ensures reads { ReadsUnless result S.Source source.old source.new
        (IsTrue S.models → IsOpened (S.content source.old) image.now → ⊥) }
    ensures entry { IsTrue S.models → IfOk result (λ e. e ≡ header_spec.entry_of (S.content source.old)
        (header_spec.view_of image.now.header) i) }
    ensures within { IfOk result (λ e. header_spec.IsWithin (header_spec.view_of image.now.header) e) }
    ensures changed { (S.size source.old ≡ image.now.length → ⊥) → (result ≡ Err SectionFault.SourceChanged) ×
        (source.new ≡ source.old) }
{
    if !is_as_long(image, source) {
        return Err(SectionFault::SourceChanged);
    }
    let table = table_of(&image.header);
    let entry = match read_entry(&table, i, source, w, m) {
        Ok(entry) => entry,
        Err(fault) => return Err(fault),
    };
    if !is_within(&entry, table.ramdisk_size) {
        return Err(SectionFault::SourceChanged);
    }
    Ok(entry)
}

/// Whether the fragments lie end to end from 0 in table order and fill the vendor ramdisk, where there is a table.
pub(crate) fn fragments_fill<S: Source>(
    header: &ImageHeader,
    source: &mut S,
    w: &mut Window,
    m: &mut Meter,
) -> Result<bool, SectionFault>
    ensures reads { ReadsUnless result S.Source source.old source.new
        (IsTrue S.models → beyond (header_spec.places_of (header_spec.view_of header.now))
        (length (S.content source.old)) ≡ None → ⊥) }
    ensures value { IsTrue S.models → IfOk result (λ b. IsTrue b ↔ FragmentsFill (S.content source.old)
        (header_spec.view_of header.now)) }
{
    if !has_table(header) {
        return Ok(true);
    }
    let table = table_of(header);
    let mut held = LoadedEntries { first: 0, end: 0 };
    let mut next = 0u64;
    for i in 0..table.count {
        m.tick();
        let entry = match next_entry(&table, i, &mut held, source, w, m) {
            Ok(entry) => entry,
            Err(fault) => return Err(fault),
        };
        if entry.ramdisk_offset as u64 != next {
            end_held(held, m);
            return Ok(false);
        }
        next += entry.ramdisk_size as u64;
    }
    end_held(held, m);
    Ok(next == table.ramdisk_size as u64)
}

/// The version has a table of ramdisk fragments.
fn has_table(header: &ImageHeader) -> bool
    ensures { MatchBool result (HasTable (header_spec.view_of header.now))
        (HasTable (header_spec.view_of header.now) → ⊥) }
{
    match header {
        ImageHeader::Vendor(VendorHeader::V4(..)) => true,
        _ => false,
    }
}
