//! The text of `list`: one line for the header and one for each chunk of a sparse image.

ghost use Rattle.std.specs.Prelude.{◌≡◌, ◌++◌, ◌≤◌, IsSome, IsTrue, IfErr, OnOk, Ok, Err, List, ℕ, flat_map, length};
ghost use Rattle.abt_chunks.specs.Expanding.{IsGoing, UnlessExpandingDevice};
ghost use Rattle.abt_chunks.specs.Listing.{listing_of};
ghost use Rattle.abt_chunks.specs.ListingAhead.{upcoming};
ghost use Rattle.sys_text.specs.Grown.{Begins};
ghost use Rattle.cmd_common_listing.specs.Listed.{IsWrite, Listed, ReadTold, ListingRefuses, WriteTold, chunk_line};
ghost use Rattle.cmd_common_listing.specs.Listed.{listing_text};
ghost use Rattle.sys_text.specs.Printed.{Prints, PrintsFront};

use crate::lines::{put_chunk, put_header};
use abt_chunks::{Chunks, SparseFault};
use abt_io::{Input, Meter, Output, Window};
use sys_text::Text;

/// Prints the header and each chunk of the sparse image at the beginning of the input.
///
/// A chunk is printed after its data was read. After a fault, the output therefore holds the lines of everything
/// before the fault. A failed write is `Write`. Where the reader of the output waits for each line, as on a terminal,
/// each line is sent before the data after it is read.
pub fn report_list<I: Input, O: Output>(
    input: &mut I,
    out: &mut O,
    is_awaited: bool,
    w: &mut Window,
    m: &mut Meter,
) -> Result<(), SparseFault>
    ensures printed { IsTrue I.models →
        OnOk result (Listed (I.remaining input.old) (I.remaining input.new)
        (λ text. O.written out.new ≡ O.written out.old ++ text)) }
    ensures begun { IsTrue I.models →
        Begins (O.written out.old) (O.written out.new) (listing_text (listing_of (I.remaining input.old))) }
    // An image that fails does so with its own fault, after the lines of everything before that fault.
    ensures refused { IsTrue I.models →
        IfErr result (λ f. UnlessExpandingDevice f (ListingRefuses (listing_of (I.remaining input.old)) f
        (λ text. O.written out.new ≡ O.written out.old ++ text))) }
    ensures reads { ReadTold result (I.read_faults input.old) (I.read_faults input.new) }
    ensures failed { IfErr result (λ f. WriteTold f (O.write_faults out.old) (O.write_faults out.new)) }
    ensures clean { OnOk result (O.write_faults out.new ≡ O.write_faults out.old) }
{
    let mut text = Text::new(out);
    send_each_line_if(is_awaited, &mut text);
    let listed = lines(input, &mut text, w, m);
    match text.finish() {
        Ok(()) => listed,
        Err(fault) => Err(SparseFault::Write(fault)),
    }
}

// Who waits for the lines gets each as it ends.
fn send_each_line_if<O: Output>(is_awaited: bool, text: &mut Text<'_, O>)
    ensures { text.new ≡ record text.old { enough = text.new.enough } }
{
    if is_awaited {
        text.send_each_line();
    }
}

fn lines<I: Input, O: Output>(
    input: &mut I,
    text: &mut Text<'_, O>,
    w: &mut Window,
    m: &mut Meter,
) -> Result<(), SparseFault>
    ensures listed { IsTrue I.models →
        OnOk result (Listed (I.remaining input.old) (I.remaining input.new)
        (Prints O.written O.write_faults text.old text.new)) }
    ensures begun { IsTrue I.models →
        PrintsFront O.written O.write_faults text.old text.new (listing_text (listing_of (I.remaining input.old))) }
    ensures prints { (done : List ℕ) × Prints O.written O.write_faults text.old text.new done }
    ensures refused { IsTrue I.models →
        IfErr result (λ f. UnlessExpandingDevice f (ListingRefuses (listing_of (I.remaining input.old)) f
        (Prints O.written O.write_faults text.old text.new))) }
    ensures reads { ReadTold result (I.read_faults input.old) (I.read_faults input.new) }
    ensures told { IfErr result (λ f. IsWrite f → IsSome text.new.fault) }
{
    let mut chunks = match Chunks::open(input, w, m) {
        Ok(chunks) => chunks,
        Err(fault) => return Err(fault),
    };
    let header = chunks.header();
    put_header(header, text);
    chunk_lines(&mut chunks, header.total_chunks, input, text, w, m)
}

// The lines of the remaining chunks, of which there are at most this many.
fn chunk_lines<I: Input, O: Output>(
    chunks: &mut Chunks,
    most: u32,
    input: &mut I,
    text: &mut Text<'_, O>,
    w: &mut Window,
    m: &mut Meter,
) -> Result<(), SparseFault>
    ensures listed { IsTrue I.models → length (upcoming chunks.old.walk (I.remaining input.old)).shown ≤ most →
        OnOk result (((upcoming chunks.old.walk (I.remaining input.old)).ending ≡ Ok (I.remaining input.new)) ×
        Prints O.written O.write_faults text.old text.new
        (flat_map chunk_line (upcoming chunks.old.walk (I.remaining input.old)).shown)) }
    ensures begun { IsTrue I.models →
        PrintsFront O.written O.write_faults text.old text.new
        (flat_map chunk_line (upcoming chunks.old.walk (I.remaining input.old)).shown) }
    ensures prints { (done : List ℕ) × Prints O.written O.write_faults text.old text.new done }
    ensures refused { IsTrue I.models →
        IfErr result (λ f. UnlessExpandingDevice f
        (((upcoming chunks.old.walk (I.remaining input.old)).ending ≡ Err f) ×
        Prints O.written O.write_faults text.old text.new
        (flat_map chunk_line (upcoming chunks.old.walk (I.remaining input.old)).shown))) }
    ensures reads { IsGoing chunks.old.walk.phase →
        ReadTold result (I.read_faults input.old) (I.read_faults input.new) }
    ensures told { IsGoing chunks.old.walk.phase → IfErr result (λ f. IsWrite f → IsSome text.new.fault) }
{
    for _listed in 0..most as u64 + 1 {
        m.tick();
        let next = match chunks.next(input, w, m) {
            Ok(next) => next,
            Err(fault) => return Err(fault),
        };
        match next {
            Some(chunk) => put_chunk(chunk, text),
            None => return Ok(()),
        }
        match text.is_whole() {
            Ok(()) => {}
            Err(fault) => return Err(SparseFault::Write(fault)),
        }
    }
    Ok(())
}
