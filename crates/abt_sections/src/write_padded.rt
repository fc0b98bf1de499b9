//! Writes records and parts, each with zeros up to a page boundary.
//!
//! Each call states what the output holds after `Ok` (`written`), and that after any result it holds a beginning of
//! that (`front`). For every source, no more bytes are written than the record or part has (`bytes`).

ghost use Rattle.std.specs.Prelude.{◌≡◌, ◌<◌, ◌≤◌, ◌+◌, ◌-◌, ◌*◌, ◌^◌, ◌++◌, IsTrue, OnOk, length, map, take};
ghost use Rattle.abt_headers.specs.Page as of_page;
ghost use Rattle.abt_sections.specs.Asked.{FewOnPages, MayPad};
ghost use Rattle.abt_sections.specs.Cause.{copy_fault};
ghost use Rattle.abt_sections.specs.Grown.{AppendsFront, AddsUpTo};
ghost use Rattle.abt_sections.specs.Layout as layout;
ghost use Rattle.abt_sections.specs.Moves.{Appends, MovesPart, MovesParts};

use crate::fault::SectionFault;
use abt_headers::pages;
use abt_io::{CopyFault, Meter, Output, Source, Window, copy_range, write_out, write_zeros};

/// The fault of a copy, as packing and unpacking hand it on.
pub(crate) fn of_copy(fault: CopyFault) -> SectionFault
    ensures { result ≡ copy_fault fault }
{
    match fault {
        CopyFault::Read(fault) => SectionFault::Read(fault),
        CopyFault::Write(fault) => SectionFault::Write(fault),
        CopyFault::Changed => SectionFault::SourceChanged,
    }
}

/// How many bytes of the last page `n` bytes leave free.
#[inline(never)]
pub(crate) fn padding(n: u64, page: u32) -> u64
    requires { MayPad n page }
    ensures value { result ≡ layout.padding n page }
    ensures sum { n + result ≡ of_page.pages n page * page }
{
    pages(n, page) * page as u64 - n
}

/// Writes zeros after `n` bytes, up to a page boundary.
pub(crate) fn write_padding<O: Output>(
    n: u64,
    page: u32,
    output: &mut O,
    w: &mut Window,
    m: &mut Meter,
) -> Result<(), SectionFault>
    requires { MayPad n page }
    ensures appends { Appends result O.Output output.old output.new (layout.zeros_behind n page) }
    ensures most { n + length (O.written output.new) ≤ length (O.written output.old) + of_page.pages n page * page }
    ensures all { OnOk result (n + length (O.written output.new) ≡ length
        (O.written output.old) + of_page.pages n page * page) }
{
    match write_zeros(output, padding(n, page), w, m) {
        Ok(()) => Ok(()),
        Err(fault) => Err(SectionFault::Write(fault)),
    }
}

/// Writes a record, and zeros up to a page boundary.
#[inline(never)]
pub(crate) fn write_record<O: Output>(
    bytes: &[u8],
    page: u32,
    output: &mut O,
    w: &mut Window,
    m: &mut Meter,
) -> Result<(), SectionFault>
    requires some { 0 < page }
    requires room { length bytes.now ≤ 65536 }
    ensures appends { Appends result O.Output output.old output.new (layout.padded page bytes.now) }
    ensures bytes { AddsUpTo result (O.written output.old) (O.written output.new)
        (of_page.pages (length bytes.now) page * page) }
{
    let n = bytes.len() as u64;
    match write_out(output, bytes, m) {
        Ok(()) => {}
        Err(fault) => return Err(SectionFault::Write(fault)),
    }
    write_padding(n, page, output, w, m)
}

/// Copies a part that must have this size, and must still have it then.
pub(crate) fn write_bytes<S: Source, O: Output>(
    part: &mut S,
    size: u64,
    output: &mut O,
    w: &mut Window,
    m: &mut Meter,
) -> Result<(), SectionFault>
    ensures part { MovesPart result S.Source part.old part.new O.Output output.old output.new size
        (S.content part.old) size }
    ensures front { IsTrue S.models → AppendsFront (O.written output.old) (O.written output.new) (S.content part.old) }
    ensures sized { IsTrue S.models → OnOk result (length (S.content part.old) ≡ size) }
{
    if part.length() != size {
        return Err(SectionFault::SourceChanged);
    }
    match copy_range(part, 0, size, output, w, m) {
        Ok(()) => {}
        Err(fault) => return Err(of_copy(fault)),
    }
    let last = part.length();
    if last != size {
        return Err(SectionFault::SourceChanged);
    }
    Ok(())
}

/// Writes a part that must have this size, and zeros up to a page boundary.
#[inline(never)]
pub(crate) fn write_part<S: Source, O: Output>(
    part: &mut S,
    size: u32,
    page: u32,
    output: &mut O,
    w: &mut Window,
    m: &mut Meter,
) -> Result<(), SectionFault>
    requires { 0 < page }
    ensures part { MovesPart result S.Source part.old part.new O.Output output.old output.new size
        (layout.padded page (S.content part.old)) (of_page.pages size page * page) }
    ensures front { IsTrue S.models → AppendsFront (O.written output.old) (O.written output.new)
        (layout.padded page (S.content part.old)) }
{
    let _free = padding(size as u64, page);
    match write_bytes(part, size as u64, output, w, m) {
        Ok(()) => {}
        Err(fault) => return Err(fault),
    }
    write_padding(size as u64, page, output, w, m)
}

/// Writes parts that must have these sizes, each with zeros up to a page boundary.
pub(crate) fn write_parts<S: Source, O: Output>(
    parts: &mut [S],
    sizes: &[u32; 5],
    page: u32,
    output: &mut O,
    w: &mut Window,
    m: &mut Meter,
) -> Result<(), SectionFault>
    requires { FewOnPages page parts.old }
    ensures parts { MovesParts result S.Source parts.old parts.new O.Output output.old output.new sizes.now
        (O.written output.old ++ layout.laid page (map S.content parts.old)) }
    ensures front { IsTrue S.models → AppendsFront (O.written output.old) (O.written output.new)
        (layout.laid page (map S.content parts.old)) }
    ensures bytes { AddsUpTo result (O.written output.old) (O.written output.new)
        (layout.laid_size page (take (length parts.old) sizes.now)) }
{
    for i in 0..parts.len() {
        m.tick();
        let part = &mut parts[i];
        match write_part(part, sizes[i], page, output, w, m) {
            Ok(()) => {}
            Err(fault) => return Err(fault),
        }
    }
    Ok(())
}
