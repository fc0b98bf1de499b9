//! Writes the chunks of a sparse image that was counted, in steps.
ghost use Rattle.std.specs.Prelude.{◌≡◌, ◌≤◌, ◌+◌, ◌-◌, ◌*◌, ◌++◌, IsTrue, OnOk, length, take};
ghost use Rattle.abt_runs.specs.Tail.{raw_list};
ghost use Rattle.abt_pieces.specs.Image.{Appended, AreChunks};
ghost use Rattle.abt_pieces.specs.Write.{bytes_of};
ghost use Rattle.abt_sparsify.specs.Sparsify.{writer_at_start, CountsOf, ReadyRuns, MovesImage, ChunkCosts};

use crate::count::Written;
use abt_io::{Meter, Output, Source, Window};
use abt_pieces::{Gatherer, PieceFault, Writer};
use abt_runs::{BlockRuns, Cursor, TailRuns};

/// Before the first chunk of a counted image of so many blocks.
fn writer_of(counted: Written, count: u32, most: u32, start: Cursor) -> Writer
    ensures { result ≡ writer_at_start count most start counted }
{
    Writer {
        first: 0,
        past: count,
        most,
        gatherer: Gatherer::begin(start),
        copying: None,
        chunks: counted.chunks,
        bytes: counted.bytes.saturating_sub(28),
    }
}

/// Writes all chunks of a sparse image that was counted, raw runs cut every `most` blocks.
pub fn write_runs<S: Source, O: Output>(
    counted: Written,
    runs: &TailRuns,
    source: &mut S,
    most: u32,
    output: &mut O,
    w: &mut Window,
    m: &mut Meter,
) -> Result<(), PieceFault>
    requires ready { ReadyRuns S.models most runs.now.raw.size runs.now.raw.length (S.content source.old) }
    requires least { 28 ≤ counted.bytes }
    requires counts { IsTrue S.models →
        CountsOf most runs.now.raw.size
        (raw_list runs.now.is_tail_raw runs.now.raw.size (S.content source.old)) counted }
    ensures moves { MovesImage result S.Source O.Output source.old source.new output.old output.new }
    ensures within { length (O.written output.new) + 28 ≤ length (O.written output.old) + counted.bytes }
    ensures long { OnOk result (length (O.written output.new) + 28 ≡ length (O.written output.old) + counted.bytes) }
    ensures front { IsTrue S.models → O.written output.new ≡ O.written output.old ++ take
        (length (O.written output.new) - length (O.written output.old))
        (bytes_of most (raw_list runs.now.is_tail_raw runs.now.raw.size (S.content source.old))) }
    ensures whole { IsTrue S.models →
        OnOk result (O.written output.new ≡ O.written output.old ++ bytes_of most
        (raw_list runs.now.is_tail_raw runs.now.raw.size (S.content source.old))) }
    ensures image { OnOk result (Appended (AreChunks runs.now.raw.size counted.chunks runs.now.raw.blocks)
        (O.written output.old) (O.written output.new)) }
    ensures economy { IsTrue S.models → OnOk result (S.given source.new ≤ S.given source.old
        + 5 * runs.now.raw.length) }
    ensures costs { ChunkCosts runs.now.raw.size S.Source O.Output source.old source.new output.old output.new m.old
        m.new }
{
    let count = runs.blocks();
    let mut writer = writer_of(counted, count, most, runs.start());
    while !writer.step(runs, source, output, w, m)? {
        m.tick();
    }
    Ok(())
}
