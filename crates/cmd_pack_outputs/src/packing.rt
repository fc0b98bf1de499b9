//! Packs an image from its contents, and copies the bytes after it.

ghost use Rattle.std.specs.Prelude.{◌≡◌, ◌++◌, IsTrue, IfOk, IfErr, OnOk, OnErr, length, map};
ghost use Rattle.abt_sections.specs.Broken.{IsBrokenOff};
ghost use Rattle.abt_sections.specs.Cause.{MoveCause};
ghost use Rattle.cmd_common_boot.specs.Parts.{IsBoot};
ghost use Rattle.cmd_pack_outputs.specs.Contents.{faults_in, image_from, packed_image, packing_of, refusal_from};
ghost use Rattle.cmd_pack_outputs.specs.Contents.{refusal_in};
ghost use Rattle.cmd_pack_outputs.specs.Writing.{IsAccepted, IsAcceptedAlone, PacksBytes};

use crate::contents::ImageContents;
use abt_io::{CopyFault, Meter, Output, Overwrite, Source, Window, copy_range};
use abt_sections::{SectionFault, pack_boot_once};
use cmd_common_boot::{judge, pack_image};
use cmd_common_fields::ImageKind;
use std::alloc::Global;
use sys_disk::NoMemory;

/// Whether it is a boot image with nothing after it: its parts are read once, where the file is overwritten.
pub(crate) fn is_read_once<P: Source + Drop>(contents: &ImageContents<'_, P>) -> bool
    ensures boot { IsTrue result → IsBoot contents.now.kind }
    ensures alone { IsTrue result → P.size contents.now.trailing ≡ 0 }
{
    match contents.kind {
        ImageKind::Boot(_) => contents.trailing.length() == 0,
        ImageKind::Vendor(_) => false,
    }
}

/// The fault of packing, if there is one.
pub(crate) fn refusal_of<P: Source + Drop>(
    alloc: Global,
    contents: &ImageContents<'_, P>,
    w: &mut Window,
    m: &mut Meter,
) -> Result<Option<SectionFault>, NoMemory>
    ensures by_sizes { IfOk result (λ refusal. refusal ≡ refusal_in P.size contents.now) }
    ensures by_bytes { IsTrue P.models → IfOk result (λ refusal. refusal
        ≡ refusal_from contents.now.kind (packing_of P.content contents.now)) }
{
    let fields = &contents.fields;
    let parts = contents.parts.as_slice();
    let specs = contents.specs.as_slice();
    let sources = contents.sources.as_slice();
    match judge(alloc, contents.kind, fields, parts, specs, sources, w, m) {
        Ok(refusal) => Ok(refusal),
        Err(refused) => Err(refused),
    }
}

/// Packs a boot image whose parts are read once, and returns how many bytes it has.
pub(crate) fn pack_once<P: Source + Drop, O: Overwrite>(
    contents: &mut ImageContents<'_, P>,
    output: &mut O,
    w: &mut Window,
    m: &mut Meter,
) -> Result<u64, SectionFault>
    requires sources { IsAcceptedAlone P.size contents.old }
    ensures packs { PacksBytes result MoveCause P.models (packed_image P.content contents.old) (O.written output.old)
        (O.written output.new) (faults_in P.read_faults contents.old) (faults_in P.read_faults contents.new)
        (O.write_faults output.old) (O.write_faults output.new) }
    ensures frame { O.write_frame output.new ≡ O.write_frame output.old }
    ensures broken { OnErr result (IsBrokenOff (O.written output.old) (O.written output.new)) }
{
    let parts = contents.parts.as_mut_slice();
    match pack_boot_once(&contents.fields, parts, output, w, m) {
        Ok(packed) => Ok(packed.bytes),
        Err(fault) => Err(fault),
    }
}

/// Writes the image and the bytes after it, and returns how many bytes these are.
pub(crate) fn pack_contents<P: Source + Drop, O: Output>(
    contents: &mut ImageContents<'_, P>,
    output: &mut O,
    w: &mut Window,
    m: &mut Meter,
) -> Result<u64, SectionFault>
    requires sources { IsAccepted P.size contents.old }
    ensures packs { PacksBytes result MoveCause P.models (packed_image P.content contents.old) (O.written output.old)
        (O.written output.new) (faults_in P.read_faults contents.old) (faults_in P.read_faults contents.new)
        (O.write_faults output.old) (O.write_faults output.new) }
    ensures frame { O.write_frame output.new ≡ O.write_frame output.old }
{
    let bytes = match pack_parts(contents, output, w, m) {
        Ok(bytes) => bytes,
        Err(fault) => return Err(fault),
    };
    match copy_behind(&mut contents.trailing, output, w, m) {
        Ok(behind) => Ok(bytes.saturating_add(behind)),
        Err(fault) => Err(fault),
    }
}

// The image alone.
fn pack_parts<P: Source + Drop, O: Output>(
    contents: &mut ImageContents<'_, P>,
    output: &mut O,
    w: &mut Window,
    m: &mut Meter,
) -> Result<u64, SectionFault>
    requires sources { IsAccepted P.size contents.old }
    ensures trailing { contents.new.trailing ≡ contents.old.trailing }
    ensures written { IsTrue P.models → OnOk result (O.written output.new ≡ O.written output.old
        ++ image_from contents.old.kind (packing_of P.content contents.old)) }
    ensures counted { IsTrue P.models → IfOk result (λ bytes. bytes
        ≡ length (image_from contents.old.kind (packing_of P.content contents.old))) }
    ensures clean { OnOk result ((faults_in P.read_faults contents.new ≡ faults_in P.read_faults contents.old)
        × (O.write_faults output.new ≡ O.write_faults output.old)) }
    ensures cause { IfErr result (λ fault. MoveCause fault (faults_in P.read_faults contents.old)
        (faults_in P.read_faults contents.new) (O.write_faults output.old) (O.write_faults output.new)
        (IsTrue P.models → ⊥)) }
    ensures frame { O.write_frame output.new ≡ O.write_frame output.old }
{
    let parts = contents.parts.as_mut_slice();
    let specs = contents.specs.as_slice();
    let sources = contents.sources.as_mut_slice();
    let nothing = &mut contents.nothing;
    let fields = &contents.fields;
    let kind = contents.kind;
    pack_image(kind, fields, parts, specs, sources, nothing, output, w, m)
}

// Copies the bytes after the image.
fn copy_behind<P: Source, O: Output>(
    trailing: &mut P,
    output: &mut O,
    w: &mut Window,
    m: &mut Meter,
) -> Result<u64, SectionFault>
    ensures written { IsTrue P.models → OnOk result (O.written output.new ≡ O.written output.old
        ++ P.content trailing.old) }
    ensures counted { IsTrue P.models → IfOk result (λ bytes. bytes ≡ length (P.content trailing.old)) }
    ensures clean { OnOk result ((P.read_faults trailing.new ≡ P.read_faults trailing.old)
        × (O.write_faults output.new ≡ O.write_faults output.old)) }
    ensures cause { IfErr result (λ fault. MoveCause fault (P.read_faults trailing.old) (P.read_faults trailing.new)
        (O.write_faults output.old) (O.write_faults output.new) (IsTrue P.models → ⊥)) }
    ensures frame { O.write_frame output.new ≡ O.write_frame output.old }
{
    let behind = trailing.length();
    match copy_range(trailing, 0, behind, output, w, m) {
        Ok(()) => Ok(behind),
        Err(CopyFault::Read(fault)) => Err(SectionFault::Read(fault)),
        Err(CopyFault::Write(fault)) => Err(SectionFault::Write(fault)),
        Err(CopyFault::Changed) => Err(SectionFault::SourceChanged),
    }
}
