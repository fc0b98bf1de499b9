//! Packs a boot image to an output whose written bytes can be overwritten. Each part is read once.
//!
//! The id is hashed from the parts as they are written, so the header comes last. Its page is filled with zeros until
//! all else is written, and its magic comes last of all. So bytes that were broken off open as no image, whatever
//! follows them.

ghost use Rattle.std.specs.Prelude.{◌≡◌, ◌<◌, ◌≤◌, ◌+◌, ◌-◌, ◌++◌, ℕ, List, IsTrue, IfOk, OnOk, OnErr};
ghost use Rattle.std.specs.Prelude.{length, map, take, drop, replicate, sum};
ghost use Rattle.sha1.specs.Sha1.{Holds, sha1};
ghost use Rattle.abt_headers.specs.Boot.{boot_record, boot_size};
ghost use Rattle.abt_sections.specs.BootCanon as canon;
ghost use Rattle.abt_sections.specs.Broken.{IsBrokenOff};
ghost use Rattle.abt_sections.specs.Cause.{total};
ghost use Rattle.abt_sections.specs.Fields.{cmd_common_fields};
ghost use Rattle.abt_sections.specs.Grown.{Grows, GrowsBy};
ghost use Rattle.abt_sections.specs.Layout as layout;
ghost use Rattle.abt_sections.specs.Moves.{LaysRecord, MovesParts, WritesAlone};
ghost use Rattle.abt_sections.specs.Packs.{AppendsBoot};
ghost use Rattle.abt_sections.specs.Refusal.{boot_names};

use crate::boot_header::{boot_header_for, check_boot_spec};
use crate::fault::SectionFault;
use crate::hashing::id_field;
use crate::moving::move_parts;
use crate::sizes::{boot_sizes, image_bytes};
use crate::spec::{BootSpec, Packed};
use abt_headers::BootHeader;
use abt_io::{Meter, Output, Overwrite, Source, Window, write_over_all, write_zeros};
use sha1::Sha1;

/// Writes zeros for a page.
fn write_zero_page<O: Output>(
    page: u32,
    output: &mut O,
    w: &mut Window,
    m: &mut Meter,
) -> Result<(), SectionFault>
    ensures written { OnOk result (O.written output.new ≡ O.written output.old ++ replicate page 0) }
    ensures broken { OnErr result (IsBrokenOff (O.written output.old) (O.written output.new)) }
    ensures bytes { GrowsBy result (O.written output.old) (O.written output.new) page }
    ensures writes { WritesAlone result O.Output output.old output.new }
{
    match write_zeros(output, page as u64, w, m) {
        Ok(()) => Ok(()),
        Err(fault) => Err(SectionFault::Write(fault)),
    }
}

/// The digest of what was hashed, as the header's field holds it; zeros where no id is wanted.
fn id_of_hashed(id: bool, hasher: Sha1) -> [u8; 32]
    ensures wanted { IsTrue id → (t : List ℕ) → Holds hasher t → result ≡ sha1 t ++ replicate 12 0 }
    ensures unwanted { (IsTrue id → ⊥) → result ≡ replicate 32 0 }
{
    if id {
        id_field(&hasher.finalize())
    } else {
        [0; 32]
    }
}

/// Writes zeros for the header's page, and after it the parts, which must have these sizes; returns the id of the
/// versions that have one, else zeros.
fn write_behind<S: Source, O: Output>(
    version: u32,
    parts: &mut [S],
    sizes: &[u32; 5],
    page: u32,
    output: &mut O,
    w: &mut Window,
    m: &mut Meter,
) -> Result<[u8; 32], SectionFault>
    requires some { 8 ≤ page }
    requires few { length parts.old ≤ 5 }
    ensures parts { MovesParts result S.Source parts.old parts.new O.Output output.old output.new sizes.now
        ((O.written output.old ++ replicate page 0) ++ layout.laid page (map S.content parts.old)) }
    ensures once { total S.given parts.new ≤ total S.given parts.old + sum (take (length parts.old) sizes.now) }
    ensures id { IsTrue S.models → IfOk result (λ d. d ≡ canon.id_for version (map S.content parts.old)) }
    ensures zeros { OnOk result (Grows (O.written output.old ++ replicate page 0) (O.written output.new)) }
    ensures broken { OnErr result (IsBrokenOff (O.written output.old) (O.written output.new)) }
    ensures bytes { GrowsBy result (O.written output.old) (O.written output.new)
        (page + layout.laid_size page (take (length parts.old) sizes.now)) }
{
    match write_zero_page(page, output, w, m) {
        Ok(()) => {}
        Err(fault) => return Err(fault),
    }
    let id = version < 3;
    let mut hasher = Sha1::new();
    match move_parts(parts, sizes, page, id, &mut hasher, output, w, m) {
        Ok(()) => Ok(id_of_hashed(id, hasher)),
        Err(fault) => Err(fault),
    }
}

/// Overwrites the zeros in the place of a record with that record, its magic last of all.
fn lay_record<O: Overwrite>(
    bytes: &[u8],
    at: u64,
    output: &mut O,
    m: &mut Meter,
) -> Result<(), SectionFault>
    requires some { 8 ≤ length bytes.now }
    requires room { length bytes.now ≤ 65536 }
    requires stands { at + length bytes.now ≤ length (O.written output.old) }
    requires zeros { take 8 (drop at (O.written output.old)) ≡ replicate 8 0 }
    ensures lays { LaysRecord result O.Output output.old output.new at bytes.now }
{
    let _end = output.position();
    match write_over_all(output, at + 8, &bytes[8..], m) {
        Ok(()) => {}
        Err(fault) => return Err(SectionFault::Write(fault)),
    }
    match write_over_all(output, at, &bytes[..8], m) {
        Ok(()) => Ok(()),
        Err(fault) => Err(SectionFault::Write(fault)),
    }
}

/// Overwrites the zeros in the place of a header's record with that record, its magic last of all.
fn lay_header<O: Overwrite>(
    header: &BootHeader,
    at: u64,
    output: &mut O,
    m: &mut Meter,
) -> Result<(), SectionFault>
    requires stands { at + 2048 ≤ length (O.written output.old) }
    requires zeros { take 8 (drop at (O.written output.old)) ≡ replicate 8 0 }
    ensures lays { LaysRecord result O.Output output.old output.new at (boot_record header.now) }
    ensures size { length (boot_record header.now) ≡ boot_size header.now }
{
    let mut record = [0u8; 1660];
    let size = header.encode(&mut record);
    lay_record(&record[..size], at, output, m)
}

/// Packs a boot image from these fields and parts as `pack_boot` does, to an output whose written bytes can be
/// overwritten. Each part is read once, and the header's magic is written last of all.
///
/// # Errors
/// Those of `pack_boot`. Then what follows the earlier bytes of the output is nothing, or opens as no image, whatever
/// comes after it.
pub fn pack_boot_once<S: Source, O: Overwrite>(
    spec: &BootSpec,
    parts: &mut [S],
    output: &mut O,
    w: &mut Window,
    m: &mut Meter,
) -> Result<Packed, SectionFault>
    requires { spec.now.version ≤ 4 → length parts.old ≡ length (boot_names spec.now.version) }
    ensures packs { AppendsBoot result S.Source parts.old parts.new O.Output output.old output.new
        spec.now.is_front_ended (cmd_common_fields spec.now) }
    ensures once { total S.given parts.new ≤ total S.given parts.old + total S.size parts.old }
    ensures broken { OnErr result (IsBrokenOff (O.written output.old) (O.written output.new)) }
    ensures grown { Grows (O.written output.old) (O.written output.new) }
{
    let page = check_boot_spec(spec, m)?;
    let sizes = boot_sizes(spec.version, parts, m)?;
    let at = output.position();
    let id = write_behind(spec.version, parts, &sizes, page.bytes(), output, w, m)?;
    let header = boot_header_for(spec, page, &sizes, id);
    lay_header(&header, at, output, m)?;
    Ok(Packed {
        bytes: image_bytes(header.page_size(), header.size(), &sizes, parts.len(), m),
    })
}
