//! Packs a boot image.

ghost use Rattle.std.specs.Prelude.{◌≡◌, ◌<◌, ◌≤◌, ◌+◌, ◌-◌, ◌*◌, ◌++◌, IsTrue, IfOk, length, map, take};
ghost use Rattle.abt_headers.specs.Boot.{boot_page, boot_record, boot_size};
ghost use Rattle.abt_headers.specs.Page as of_page;
ghost use Rattle.abt_sections.specs.BootCanon as canon;
ghost use Rattle.abt_sections.specs.Fields.{cmd_common_fields, filled};
ghost use Rattle.abt_sections.specs.Grown.{AppendsFront, AddsUpTo};
ghost use Rattle.abt_sections.specs.Layout as layout;
ghost use Rattle.abt_sections.specs.Moves.{Appends, MovesParts, ReadsAllUnless};
ghost use Rattle.abt_sections.specs.Packs.{AppendsBoot};
ghost use Rattle.abt_sections.specs.Refusal.{boot_names};

use crate::boot_header::{boot_header_for, check_boot_spec};
use crate::fault::SectionFault;
use crate::hashing::hash_parts;
use crate::sizes::{boot_sizes, image_bytes};
use crate::spec::{BootSpec, Packed};
use crate::write_padded::{write_parts, write_record};
use abt_headers::BootHeader;
use abt_io::{Meter, Output, Source, Window};

/// The id of the versions that have one, else zeros.
fn id_for<S: Source>(
    version: u32,
    parts: &mut [S],
    sizes: &[u32; 5],
    w: &mut Window,
    m: &mut Meter,
) -> Result<[u8; 32], SectionFault>
    requires { length parts.old ≤ 5 }
    ensures reads { ReadsAllUnless result S.Source parts.old parts.new
        (IsTrue S.models → sizes.now ≡ filled 5 (map S.size parts.old) → ⊥) }
    ensures id { IsTrue S.models → IfOk result (λ d. d ≡ canon.id_for version (map S.content parts.old)) }
{
    if version < 3 {
        hash_parts(parts, sizes, w, m)
    } else {
        Ok([0; 32])
    }
}

/// Writes a boot header's record, and zeros up to a page boundary.
fn write_header<O: Output>(
    header: &BootHeader,
    output: &mut O,
    w: &mut Window,
    m: &mut Meter,
) -> Result<(), SectionFault>
    ensures appends { Appends result O.Output output.old output.new
        (layout.padded (boot_page header.now) (boot_record header.now)) }
    ensures bytes { AddsUpTo result (O.written output.old) (O.written output.new)
        (of_page.pages (boot_size header.now) (boot_page header.now) * boot_page header.now) }
{
    let mut record = [0u8; 1660];
    let size = header.encode(&mut record);
    write_record(&record[..size], header.page_size(), output, w, m)
}

/// Writes the image of a header and parts that must have these sizes.
fn write_image<S: Source, O: Output>(
    header: &BootHeader,
    parts: &mut [S],
    sizes: &[u32; 5],
    output: &mut O,
    w: &mut Window,
    m: &mut Meter,
) -> Result<(), SectionFault>
    requires { length parts.old ≤ 5 }
    ensures parts { MovesParts result S.Source parts.old parts.new O.Output output.old output.new sizes.now
        (O.written output.old ++ canon.boot_image header.now (map S.content parts.old)) }
    ensures front { IsTrue S.models → AppendsFront (O.written output.old) (O.written output.new)
        (canon.boot_image header.now (map S.content parts.old)) }
    ensures bytes { AddsUpTo result (O.written output.old) (O.written output.new)
        (canon.image_size (boot_page header.now) (boot_size header.now) (take (length parts.old) sizes.now)) }
{
    match write_header(header, output, w, m) {
        Ok(()) => {}
        Err(fault) => return Err(fault),
    }
    write_parts(parts, sizes, header.page_size(), output, w, m)
}

/// Packs a boot image from these fields and parts: the bytes of `bootimg.h`, in the layout of `mkbootimg`.
///
/// The parts are in the order of the version's sections: kernel and ramdisk; then in versions 0 to 2 the second
/// stage, from version 1 the recovery dtbo, in version 2 the dtb; in version 4 the signature. An absent part has length
/// 0. Versions 0 to 2 read each part twice: for the id, and for its bytes.
///
/// # Errors
/// Before anything is written, the first of: `Header(Version)`, `Header(PageSize)`, `Name`, `CommandLine`,
/// `SectionTooLarge`. Then `Read`, `Write` and `SourceChanged` as they come, the last also where a part's length is no
/// longer the first that it reported. After these faults the output holds a beginning of the image.
pub fn pack_boot<S: Source, O: Output>(
    spec: &BootSpec,
    parts: &mut [S],
    output: &mut O,
    w: &mut Window,
    m: &mut Meter,
) -> Result<Packed, SectionFault>
    requires { spec.now.version ≤ 4 → length parts.old ≡ length (boot_names spec.now.version) }
    ensures packs { AppendsBoot result S.Source parts.old parts.new O.Output output.old output.new
        spec.now.is_front_ended (cmd_common_fields spec.now) }
    ensures front { IsTrue S.models → AppendsFront (O.written output.old) (O.written output.new)
        (canon.boot_image_with spec.now.is_front_ended (cmd_common_fields spec.now) (map S.content parts.old)) }
{
    let page = check_boot_spec(spec, m)?;
    let sizes = boot_sizes(spec.version, parts, m)?;
    let id = id_for(spec.version, parts, &sizes, w, m)?;
    let header = boot_header_for(spec, page, &sizes, id);
    write_image(&header, parts, &sizes, output, w, m)?;
    Ok(Packed {
        bytes: image_bytes(header.page_size(), header.size(), &sizes, parts.len(), m),
    })
}
