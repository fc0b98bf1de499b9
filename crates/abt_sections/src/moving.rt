//! Moves parts to an output. Each byte is read once, hashed where an id is wanted, and written in the same step.
//!
//! Where a call here fails, its contract says no more of the output than that the earlier bytes are kept (`grown`).
//! Its caller has zeros in the place of the header.

ghost use Rattle.std.specs.Prelude.{◌≡◌, ◌<◌, ◌≤◌, ◌+◌, ◌*◌, ◌^◌, ◌++◌, ◌∷◌, [], ℕ, List, IsTrue, OnOk, length, map};
ghost use Rattle.std.specs.Prelude.{take, drop, sum};
ghost use Rattle.sha1.specs.Sha1.{Holds};
ghost use Rattle.abt_headers.specs.Page as of_page;
ghost use Rattle.abt_sections.specs.Asked.{FewOnPages, MayAsk};
ghost use Rattle.abt_sections.specs.Cause.{total};
ghost use Rattle.abt_sections.specs.Grown.{GrowsBy};
ghost use Rattle.abt_sections.specs.Id.{sized_parts};
ghost use Rattle.abt_sections.specs.Layout as layout;
ghost use Rattle.abt_sections.specs.Moves.{MovesUnless, MovesPart, MovesParts};

use crate::fault::SectionFault;
use crate::reading::{next_ask, read_front};
use crate::write_padded::{padding, write_padding};
use abt_io::{Meter, Output, Source, Window, write_out};
use sha1::Sha1;

/// Hashes bytes where an id is wanted.
fn hash_wanted(id: bool, bytes: &[u8], hasher: &mut Sha1)
    ensures { IsTrue id → (t : List ℕ) → Holds hasher.old t → Holds hasher.new (t ++ bytes.now) }
{
    if id {
        hasher.update(bytes);
    }
}

/// One step: reads the `ask` bytes from a place on, hashes them where an id is wanted, and writes them.
fn move_step<S: Source, O: Output>(
    source: &mut S,
    at: u64,
    ask: usize,
    id: bool,
    hasher: &mut Sha1,
    output: &mut O,
    w: &mut Window,
    m: &mut Meter,
) -> Result<(), SectionFault>
    requires { MayAsk at ask }
    ensures moves { MovesUnless result S.Source source.old source.new O.Output output.old output.new
        (IsTrue S.models → (0 < ask → at + ask ≤ length (S.content source.old)) → ⊥) }
    ensures once { S.given source.new ≤ S.given source.old + ask }
    ensures present { IsTrue S.models → OnOk result (0 < ask → at + ask ≤ length (S.content source.old)) }
    ensures written { IsTrue S.models → OnOk result (O.written output.new ≡ O.written output.old
        ++ take ask (drop at (S.content source.old))) }
    ensures hashed { IsTrue id → IsTrue S.models → OnOk result ((t : List ℕ) → Holds hasher.old t →
        Holds hasher.new (t ++ take ask (drop at (S.content source.old)))) }
    ensures bytes { GrowsBy result (O.written output.old) (O.written output.new) ask }
{
    match read_front(source, at, ask, w, m) {
        Ok(()) => {}
        Err(fault) => return Err(fault),
    }
    hash_wanted(id, w.part(0, ask), hasher);
    let done = write_out(output, w.part(0, ask), m);
    m.close_step(ask as u32);
    match done {
        Ok(()) => Ok(()),
        Err(fault) => Err(SectionFault::Write(fault)),
    }
}

/// Moves the `n` bytes at the beginning of a source, in steps of at most a window.
fn move_bytes<S: Source, O: Output>(
    part: &mut S,
    n: u64,
    id: bool,
    hasher: &mut Sha1,
    output: &mut O,
    w: &mut Window,
    m: &mut Meter,
) -> Result<(), SectionFault>
    ensures moves { MovesUnless result S.Source part.old part.new O.Output output.old output.new
        (IsTrue S.models → n ≤ length (S.content part.old) → ⊥) }
    ensures once { S.given part.new ≤ S.given part.old + n }
    ensures written { IsTrue S.models → OnOk result (O.written output.new ≡ O.written output.old
        ++ take n (S.content part.old)) }
    ensures hashed { IsTrue id → IsTrue S.models → OnOk result ((t : List ℕ) → Holds hasher.old t →
        Holds hasher.new (t ++ take n (S.content part.old))) }
    ensures bytes { GrowsBy result (O.written output.old) (O.written output.new) n }
{
    let mut at = 0;
    while at < n {
        m.tick();
        let ask = next_ask(n - at);
        match move_step(part, at, ask, id, hasher, output, w, m) {
            Ok(()) => {}
            Err(fault) => return Err(fault),
        }
        at += ask as u64;
    }
    Ok(())
}

/// Moves a part that must have this size, and must still have it then; hashes its size, and writes zeros up to a page
/// boundary.
fn move_part<S: Source, O: Output>(
    part: &mut S,
    size: u32,
    page: u32,
    id: bool,
    hasher: &mut Sha1,
    output: &mut O,
    w: &mut Window,
    m: &mut Meter,
) -> Result<(), SectionFault>
    requires { 0 < page }
    ensures part { MovesPart result S.Source part.old part.new O.Output output.old output.new size
        (layout.padded page (S.content part.old)) (of_page.pages size page * page) }
    ensures once { S.given part.new ≤ S.given part.old + size }
    ensures hashed { IsTrue id → IsTrue S.models → OnOk result ((parts : List (List ℕ)) →
        Holds hasher.old (sized_parts parts) → Holds hasher.new (sized_parts (parts ++ (S.content part.old ∷ [])))) }
{
    let _free = padding(size as u64, page);
    if part.length() != size as u64 {
        return Err(SectionFault::SourceChanged);
    }
    match move_bytes(part, size as u64, id, hasher, output, w, m) {
        Ok(()) => {}
        Err(fault) => return Err(fault),
    }
    let last = part.length();
    if last != size as u64 {
        return Err(SectionFault::SourceChanged);
    }
    hash_wanted(id, &size.to_le_bytes(), hasher);
    write_padding(size as u64, page, output, w, m)
}

/// Moves parts that must have these sizes, each with its size and with zeros up to a page boundary.
pub(crate) fn move_parts<S: Source, O: Output>(
    parts: &mut [S],
    sizes: &[u32; 5],
    page: u32,
    id: bool,
    hasher: &mut Sha1,
    output: &mut O,
    w: &mut Window,
    m: &mut Meter,
) -> Result<(), SectionFault>
    requires { FewOnPages page parts.old }
    ensures parts { MovesParts result S.Source parts.old parts.new O.Output output.old output.new sizes.now
        (O.written output.old ++ layout.laid page (map S.content parts.old)) }
    ensures once { total S.given parts.new ≤ total S.given parts.old + sum (take (length parts.old) sizes.now) }
    ensures hashed { IsTrue id → IsTrue S.models → OnOk result (Holds hasher.old [] →
        Holds hasher.new (sized_parts (map S.content parts.old))) }
    ensures bytes { GrowsBy result (O.written output.old) (O.written output.new)
        (layout.laid_size page (take (length parts.old) sizes.now)) }
{
    for i in 0..parts.len() {
        m.tick();
        let part = &mut parts[i];
        match move_part(part, sizes[i], page, id, hasher, output, w, m) {
            Ok(()) => {}
            Err(fault) => return Err(fault),
        }
    }
    Ok(())
}
