//! Fields and parts that tests pack, and the calls that tests make, each within its precondition.
//!
//! Except for `boot` and `vendor` they have no clauses: the result of a call is tested and not proved. For a number
//! that violates a precondition they return `Err(SectionFault::Name)`, which no test expects.

ghost use Rattle.std.specs.Prelude.{◌≡◌, length};
ghost use Rattle.abt_sections.specs.Refusal.{boot_names};

use abt_headers::{OsVersion, RamdiskEntry};
use abt_io::{Meter, Output, SliceOutput, SliceSource, Source, Window};
use abt_sections::{
    BootSpec, FragmentSpec, Image, Packed, SectionFault, VendorSpec, Verdict, check, fragment,
    fragments, open, pack_boot, pack_vendor, section, sections, unpack_fragment,
};

pub(crate) fn boot<'a>(version: u32, page: u32, name: &'a [u8], cmdline: &'a [u8]) -> BootSpec<'a>
    ensures { result.version ≡ version }
{
    BootSpec {
        version,
        page,
        kernel_addr: 0,
        ramdisk_addr: 0,
        second_addr: 0,
        tags_addr: 0,
        dtb_addr: 0,
        os: OsVersion::from_raw(0),
        name,
        cmdline,
        is_front_ended: false,
    }
}

pub(crate) fn vendor(version: u32, page: u32) -> VendorSpec<'static>
    ensures { result.version ≡ version }
{
    VendorSpec {
        version,
        page,
        kernel_addr: 0,
        ramdisk_addr: 0,
        tags_addr: 0,
        dtb_addr: 0,
        name: &[],
        cmdline: &[],
    }
}

pub(crate) const PLAIN: FragmentSpec = FragmentSpec {
    kind: 1,
    name: [0; 32],
    board_id: [0; 16],
};

/// The first `n` bytes.
pub(crate) fn front(bytes: &[u8], n: usize) -> &[u8] {
    bytes.get(..n).unwrap_or(bytes)
}

/// The numbers from 0 to 250, again and again.
pub(crate) fn numbers() -> [u8; 3000] {
    let mut bytes = [0u8; 3000];
    for i in 0..3000 {
        bytes[i] = (i % 251) as u8;
    }
    bytes
}

/// The lengths of the parts of the image of version 2, each the first bytes of `numbers`.
pub(crate) const FIVE: [usize; 5] = [3000, 1, 0, 5, 2049];

/// How many parts an image of this version has.
pub(crate) fn parts_of(version: u32) -> usize
    ensures { result ≡ length (boot_names version) }
{
    match version {
        0 => 3,
        1 => 4,
        2 => 5,
        3 => 2,
        _ => 3,
    }
}

/// Packs a boot image of these parts.
pub(crate) fn pack<S: Source, O: Output>(
    spec: &BootSpec,
    parts: &mut [S],
    output: &mut O,
) -> Result<Packed, SectionFault> {
    if parts.len() != parts_of(spec.version) {
        return Err(SectionFault::Name);
    }
    let (mut w, mut m) = (Window::new(), Meter::new());
    pack_boot(spec, parts, output, &mut w, &mut m)
}

/// Packs the image of version 2 of these parts, with pages of 2,048 bytes: 14,336 bytes.
pub(crate) fn pack_five(room: &mut [u8]) -> Result<Packed, SectionFault> {
    let bytes = numbers();
    let mut parts = [
        SliceSource::new(&bytes),
        SliceSource::new(front(&bytes, 1)),
        SliceSource::new(&[]),
        SliceSource::new(front(&bytes, 5)),
        SliceSource::new(front(&bytes, 2049)),
    ];
    let spec = boot(2, 2048, &[], &[]);
    pack(&spec, &mut parts, &mut SliceOutput::new(room))
}

/// Packs a vendor image of version 4 of these fragments, at most two, a dtb and a bootconfig.
pub(crate) fn pack_parts<S: Source, O: Output>(
    page: u32,
    ramdisks: &mut [S],
    dtb: &mut S,
    bootconfig: &mut S,
    output: &mut O,
) -> Result<Packed, SectionFault> {
    let fragments = [PLAIN, PLAIN];
    if ramdisks.len() > 2 {
        return Err(SectionFault::Name);
    }
    let fragments = &fragments[..ramdisks.len()];
    let spec = vendor(4, page);
    let (mut w, mut m) = (Window::new(), Meter::new());
    pack_vendor(
        &spec, fragments, ramdisks, dtb, bootconfig, output, &mut w, &mut m,
    )
}

/// Packs a vendor image of version 4: fragments of 5 and 7 bytes, a dtb of 1 and a bootconfig of 2 bytes.
pub(crate) fn pack_four(page: u32, room: &mut [u8]) -> Result<Packed, SectionFault> {
    let mut ramdisks = [SliceSource::new(b"first"), SliceSource::new(b"second!")];
    let mut dtb = SliceSource::new(b"d");
    let mut bootconfig = SliceSource::new(b"bc");
    let mut output = SliceOutput::new(room);
    pack_parts(page, &mut ramdisks, &mut dtb, &mut bootconfig, &mut output)
}

/// Opens the image at the beginning of a source.
pub(crate) fn opened<S: Source>(source: &mut S) -> Result<Image, SectionFault> {
    open(source, &mut Window::new(), &mut Meter::new())
}

/// The result of checking an image.
pub(crate) fn checked<S: Source>(image: &Image, source: &mut S) -> Result<Verdict, SectionFault> {
    check(image, source, &mut Window::new(), &mut Meter::new())
}

/// Entry `i` of an image's table.
pub(crate) fn entry<S: Source>(
    image: &Image,
    i: u32,
    source: &mut S,
) -> Result<RamdiskEntry, SectionFault> {
    if i >= fragments(image) {
        return Err(SectionFault::Name);
    }
    fragment(image, i, source, &mut Window::new(), &mut Meter::new())
}

/// Writes fragment `i` of an image.
pub(crate) fn unpack_entry<S: Source, O: Output>(
    image: &Image,
    i: u32,
    source: &mut S,
    output: &mut O,
) -> Result<(), SectionFault> {
    if i >= fragments(image) {
        return Err(SectionFault::Name);
    }
    let (mut w, mut m) = (Window::new(), Meter::new());
    unpack_fragment(image, i, source, output, &mut w, &mut m)
}

/// The positions of the sections of an image, and 0 after the last.
fn places(image: &Image) -> [u64; 5] {
    let mut places = [0; 5];
    for i in 0..5 {
        if i < sections(image) {
            places[i] = section(image, i).at;
        }
    }
    places
}

/// Opens and checks an image: how many sections it has, their positions, and the result of the check.
pub(crate) fn found(bytes: &[u8]) -> Result<(usize, [u64; 5], Verdict), SectionFault> {
    let mut source = SliceSource::new(bytes);
    let image = opened(&mut source)?;
    let verdict = checked(&image, &mut source)?;
    Ok((sections(&image), places(&image), verdict))
}

/// The check's result for an image that is canonical.
pub(crate) const CANONICAL: Verdict = Verdict {
    padding: true,
    id: true,
    offset: true,
    canonical: true,
};
