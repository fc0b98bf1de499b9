//! The own ramdisk fragments of an image, each open for reading.

ghost use Rattle.std.specs.Prelude.{◌≡◌, ◌+◌, ◌++◌, ◌∷◌, ◌<◌, ◌≤◌, ◌^◌, [], IsTrue, IfOk, length, map};
ghost use Rattle.std.specs.Prelude.{take, drop};
ghost use Rattle.abt_sections.specs.Cause.{total};
ghost use Rattle.abt_sections.specs.Header.{fragment_count, ramdisk_at, view_of};
ghost use Rattle.abt_sections.specs.Open.{IsOpened};
ghost use Rattle.cmd_pack_inputs.specs.Opening.{OpensOwn};
ghost use Rattle.cmd_pack_inputs.specs.Own.{AllEndBehind, EndsBehind, bytes_behind, fragment_bytes, entries_to};
ghost use Rattle.cmd_pack_inputs.specs.Own.{said_of};

use crate::own::{Own, range_of};
use crate::ramdisks::Ramdisks;
use abt_headers::{RamdiskEntry, Section};
use abt_io::Source;
use abt_sections::FragmentSpec;
use cmd_common_boot::PartSource;
use cmd_common_findings::place_of;
use std::alloc::Global;
use sys_disk::Disk;
use sys_refusals::HostRefusal;

/// Those of an image, of which these are the entries of its table.
pub fn own_fragments<'a, D: Disk>(
    disk: &mut D,
    alloc: Global,
    own: &Own<'a, D::At>,
    entries: &[RamdiskEntry],
) -> Result<Ramdisks<'a, D::At>, HostRefusal<'a>>
    requires opened { IsTrue D.At.models → IsOpened (D.At.content own.now.source) own.now.image }
    requires entries { IsTrue D.At.models → entries.now ≡ entries_to (D.At.content own.now.source)
        (view_of own.now.image.header) (fragment_count (view_of own.now.image.header)) }
    ensures specs { IsTrue D.models → IfOk result (λ all. all.specs.items ≡ map said_of entries.now) }
    ensures bytes { IsTrue D.models → IfOk result (λ all. map ⟦<PartSource<'a, D::At> as Source>⟧.content
        all.sources.items ≡ map
        (fragment_bytes (D.At.content own.now.source) (view_of own.now.image.header)) entries.now) }
    ensures opens { OpensOwn D.models result (λ all.
        total ⟦<PartSource<'a, D::At> as Source>⟧.read_faults all.sources.items) 0 (D.held disk.old)
        (D.held disk.new) (D.world disk.old) (D.world disk.new) }
{
    match place_of(&own.image, Section::VendorRamdisk) {
        Some(place) => with_entries(disk, alloc, own, place.at, entries),
        None => Ok(Ramdisks::new(alloc)),
    }
}

// The fragments of an image whose vendor ramdisk begins here.
fn with_entries<'a, D: Disk>(
    disk: &mut D,
    alloc: Global,
    own: &Own<'a, D::At>,
    front: u64,
    entries: &[RamdiskEntry],
) -> Result<Ramdisks<'a, D::At>, HostRefusal<'a>>
    requires low { front < 2 ^ 63 }
    requires there { IsTrue D.At.models → AllEndBehind front (length (D.At.content own.now.source)) entries.now }
    ensures specs { IfOk result (λ all. all.specs.items ≡ map said_of entries.now) }
    ensures bytes { IsTrue D.models → IfOk result (λ all. map ⟦<PartSource<'a, D::At> as Source>⟧.content
        all.sources.items ≡ map (bytes_behind (D.At.content own.now.source) front) entries.now) }
    ensures opens { OpensOwn D.models result (λ all.
        total ⟦<PartSource<'a, D::At> as Source>⟧.read_faults all.sources.items) 0 (D.held disk.old)
        (D.held disk.new) (D.world disk.old) (D.world disk.new) }
{
    let mut ramdisks = Ramdisks::new(alloc);
    for entry in entries {
        ramdisks = match with_entry(disk, ramdisks, own, front, entry) {
            Ok(more) => more,
            Err(refusal) => return Err(refusal),
        };
    }
    Ok(ramdisks)
}

// These and the one of an entry.
fn with_entry<'a, D: Disk>(
    disk: &mut D,
    ramdisks: Ramdisks<'a, D::At>,
    own: &Own<'a, D::At>,
    front: u64,
    entry: &RamdiskEntry,
) -> Result<Ramdisks<'a, D::At>, HostRefusal<'a>>
    requires low { front < 2 ^ 63 }
    requires there { IsTrue D.At.models → EndsBehind front (length (D.At.content own.now.source)) entry.now }
    ensures specs { IfOk result (λ more. more.specs.items
        ≡ ramdisks.entry.specs.items ++ (said_of entry.now ∷ [])) }
    ensures bytes { IsTrue D.models → IfOk result (λ more. map ⟦<PartSource<'a, D::At> as Source>⟧.content
        more.sources.items ≡ map ⟦<PartSource<'a, D::At> as Source>⟧.content ramdisks.entry.sources.items
        ++ (bytes_behind (D.At.content own.now.source) front entry.now ∷ [])) }
    ensures opens { OpensOwn D.models result (λ more.
        total ⟦<PartSource<'a, D::At> as Source>⟧.read_faults more.sources.items)
        (total ⟦<PartSource<'a, D::At> as Source>⟧.read_faults ramdisks.entry.sources.items)
        (D.held disk.old) (D.held disk.new) (D.world disk.old) (D.world disk.new) }
{
    let at = front.saturating_add(entry.ramdisk_offset as u64);
    let source = match range_of(disk, own, at, entry.ramdisk_size as u64) {
        Ok(source) => source,
        Err(refusal) => return Err(refusal),
    };
    match ramdisks.with(spec_of(entry), source) {
        Ok(more) => Ok(more),
        Err(refused) => {
            disk.no_memory(refused);
            Err(HostRefusal::memory())
        }
    }
}

// What is packed of the fragment of an entry.
fn spec_of(entry: &RamdiskEntry) -> FragmentSpec
    ensures { result ≡ said_of entry.now }
{
    FragmentSpec {
        kind: entry.ramdisk_type,
        name: entry.name,
        board_id: entry.board_id,
    }
}
