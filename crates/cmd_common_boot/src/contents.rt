//! Packing the parts of an image of either kind, and the faults of packing.

ghost use Rattle.std.specs.Prelude.{◌≡◌, ◌<◌, ◌+◌, ◌++◌, [], None, Some, Ok, Err, IsTrue, IfOk, IfErr, OnOk};
ghost use Rattle.std.specs.Prelude.{length, map};
ghost use Rattle.abt_sections.specs.Cause.{total};
ghost use Rattle.abt_sections.specs.Refusal.{IfRefused, pack_vendor_refusal};
ghost use Rattle.abt_sections.specs.VendorCanon as canon;
ghost use Rattle.cmd_common_boot.specs.Refused.{FitsKind, IsOfMoving, IsRefusalOrMove, PacksParts, packed, refusal_of};
ghost use Rattle.cmd_common_boot.specs.Refused.{vendor_fields_asked, vendor_parts_asked, vendor_sizes};

use crate::measure::Measure;
use crate::pack_fields::vendor_fields;
use abt_io::{Meter, Output, SliceOutput, Source, Window};
use abt_sections::{
    BootSpec, FragmentSpec, Packed, SectionFault, VendorSpec, pack_boot, pack_boot_once,
    pack_vendor,
};
use cmd_common_fields::ImageKind;
use std::alloc::Global;
use sys_disk::{NoMemory, push};

/// The fault of packing parts of these sizes, if there is one. It calls the packer itself, with no bytes to read and
/// no room to write to.
pub fn judge<P: Source>(
    alloc: Global,
    kind: ImageKind,
    fields: &BootSpec<'_>,
    parts: &[P],
    specs: &[FragmentSpec],
    sources: &[P],
    w: &mut Window,
    m: &mut Meter,
) -> Result<Option<SectionFault>, NoMemory>
    requires fits { FitsKind kind fields.now (length parts.now) (length specs.now) (length sources.now) }
    ensures { IfOk result (λ refusal. refusal ≡ refusal_of kind fields.now (map P.size parts.now)
        (map P.size sources.now)) }
{
    let mut part_sizes = measures(alloc, parts)?;
    let mut sizes = measures(alloc, sources)?;
    let measured = part_sizes.as_mut_slice();
    let fragments = sizes.as_mut_slice();
    match refused_of(kind, fields, measured, specs, fragments, w, m) {
        Ok(()) => Ok(None),
        Err(fault) => Ok(Some(fault)),
    }
}

// The sizes of these parts.
fn measures<P: Source>(alloc: Global, parts: &[P]) -> Result<Vec<Measure>, NoMemory>
    ensures { IfOk result (λ sizes. map (λ s. s.size) sizes.items ≡ map P.size parts.now) }
{
    let mut sizes = Vec::new(alloc);
    for part in parts {
        push(&mut sizes, Measure::new(part.length()))?;
    }
    Ok(sizes)
}

// The packer's fault for parts of these sizes.
fn refused_of(
    kind: ImageKind,
    fields: &BootSpec<'_>,
    parts: &mut [Measure],
    specs: &[FragmentSpec],
    sources: &mut [Measure],
    w: &mut Window,
    m: &mut Meter,
) -> Result<(), SectionFault>
    requires fits { FitsKind kind fields.now (length parts.old) (length specs.now) (length sources.old) }
    ensures accepted { OnOk result (refusal_of kind fields.now (map (λ s. s.size) parts.old)
        (map (λ s. s.size) sources.old) ≡ None) }
    ensures refused { IfErr result (λ f. refusal_of kind fields.now (map (λ s. s.size) parts.old)
        (map (λ s. s.size) sources.old) ≡ Some f) }
{
    judged(without_room(kind, fields, parts, specs, sources, w, m))
}

// What the packer returns when it has no room to write to.
fn without_room(
    kind: ImageKind,
    fields: &BootSpec<'_>,
    parts: &mut [Measure],
    specs: &[FragmentSpec],
    sources: &mut [Measure],
    w: &mut Window,
    m: &mut Meter,
) -> Result<Packed, SectionFault>
    requires fits { FitsKind kind fields.now (length parts.old) (length specs.now) (length sources.old) }
    ensures refused { IfRefused (refusal_of kind fields.now (map (λ s. s.size) parts.old)
        (map (λ s. s.size) sources.old)) (λ f. result ≡ Err f) }
    ensures only { IfErr result (IsRefusalOrMove (refusal_of kind fields.now (map (λ s. s.size) parts.old)
        (map (λ s. s.size) sources.old))) }
{
    let mut room = [0u8; 0];
    let mut nowhere = SliceOutput::new(&mut room);
    match kind {
        ImageKind::Boot(_) => pack_boot_once(fields, parts, &mut nowhere, w, m),
        ImageKind::Vendor(_) => {
            let mut empty = Measure::new(0);
            pack_vendor_parts(
                fields,
                parts,
                specs,
                sources,
                &mut empty,
                &mut nowhere,
                w,
                m,
            )
        }
    }
}

// Without a fault of moving bytes, of which there are none.
fn judged(answer: Result<Packed, SectionFault>) -> Result<(), SectionFault>
    ensures same { IfErr result (λ fault. answer ≡ Err fault) }
    ensures fixed { IfErr result (λ fault. IsOfMoving fault → ⊥) }
    ensures moving { OnOk result (IfErr answer IsOfMoving) }
{
    match answer {
        Ok(_) => Ok(()),
        Err(SectionFault::Read(_)) => Ok(()),
        Err(SectionFault::Write(_)) => Ok(()),
        Err(SectionFault::SourceChanged) => Ok(()),
        Err(SectionFault::Header(fault)) => Err(SectionFault::Header(fault)),
        Err(SectionFault::Entry(index)) => Err(SectionFault::Entry(index)),
        Err(SectionFault::Name) => Err(SectionFault::Name),
        Err(SectionFault::CommandLine) => Err(SectionFault::CommandLine),
        Err(SectionFault::SectionTruncated { section }) => Err(SectionFault::SectionTruncated {
            section,
        }),
        Err(SectionFault::SectionTooLarge { section }) => Err(SectionFault::SectionTooLarge {
            section,
        }),
    }
}

/// Packs an image of either kind, and returns how many bytes it has. `empty` is a source without bytes.
pub fn pack_image<P: Source, O: Output>(
    kind: ImageKind,
    fields: &BootSpec<'_>,
    parts: &mut [P],
    specs: &[FragmentSpec],
    sources: &mut [P],
    empty: &mut P,
    output: &mut O,
    w: &mut Window,
    m: &mut Meter,
) -> Result<u64, SectionFault>
    requires fits { FitsKind kind fields.now (length parts.old) (length specs.now) (length sources.old) }
    requires empty { P.size empty.old ≡ 0 }
    ensures written { IsTrue P.models → OnOk result (O.written output.new ≡ O.written output.old
        ++ packed kind fields.now (map P.content parts.old) specs.now (map P.content sources.old)) }
    ensures bytes { IfOk result (λ bytes. length (O.written output.new) ≡ length (O.written output.old) + bytes) }
    ensures packs { PacksParts result (refusal_of kind fields.now (map P.size parts.old) (map P.size sources.old))
        P.Source (total P.read_faults parts.old + total P.read_faults sources.old + P.read_faults empty.old)
        (total P.read_faults parts.new + total P.read_faults sources.new + P.read_faults empty.new)
        O.Output output.old output.new }
{
    let answer = match kind {
        ImageKind::Boot(_) => pack_boot(fields, parts, output, w, m),
        ImageKind::Vendor(_) => pack_vendor_parts(
            fields, parts, specs, sources, empty, output, w, m,
        ),
    };
    match answer {
        Ok(packed) => Ok(packed.bytes),
        Err(fault) => Err(fault),
    }
}

// Packs the parts of a vendor boot image, beside its ramdisk fragments. Version 3 has the ramdisk and the dtb,
// version 4 has the dtb and the bootconfig.
#[inline(never)]
fn pack_vendor_parts<P: Source, O: Output>(
    fields: &BootSpec<'_>,
    parts: &mut [P],
    specs: &[FragmentSpec],
    sources: &mut [P],
    empty: &mut P,
    output: &mut O,
    w: &mut Window,
    m: &mut Meter,
) -> Result<Packed, SectionFault>
    requires counted { length parts.old ≡ 2 }
    requires paired { length specs.now ≡ length sources.old }
    requires empty { P.size empty.old ≡ 0 }
    ensures refused { IfRefused (pack_vendor_refusal (vendor_fields_asked fields.now) (vendor_sizes fields.now.version
        (map P.size parts.old) (map P.size sources.old))) (λ fault. result ≡ Err fault) }
    ensures written { IsTrue P.models → OnOk result (O.written output.new ≡ O.written output.old
        ++ canon.vendor_canon (vendor_fields_asked fields.now) (vendor_parts_asked fields.now.version
        (map P.content parts.old) specs.now (map P.content sources.old))) }
    ensures bytes { IfOk result (λ p. length (O.written output.new) ≡ length (O.written output.old) + p.bytes) }
    ensures packs { PacksParts result (pack_vendor_refusal (vendor_fields_asked fields.now)
        (vendor_sizes fields.now.version (map P.size parts.old) (map P.size sources.old)))
        P.Source (total P.read_faults parts.old + total P.read_faults sources.old + P.read_faults empty.old)
        (total P.read_faults parts.new + total P.read_faults sources.new + P.read_faults empty.new)
        O.Output output.old output.new }
{
    let spec = vendor_fields(fields);
    let (first, second) = parts.split_at_mut(1);
    if spec.version == 3 {
        pack_vendor(&spec, &[], first, &mut second[0], empty, output, w, m)
    } else {
        pack_vendor(
            &spec,
            specs,
            sources,
            &mut first[0],
            &mut second[0],
            output,
            w,
            m,
        )
    }
}
