//! Writes a raw image as a sparse image.
ghost use Rattle.std.specs.Prelude.{◌<◌, ◌≤◌, ◌+◌, ◌*◌, ◌^◌, IsTrue, IfOk, length};
ghost use Rattle.abt_runs.specs.Tail.{raw_list};
ghost use Rattle.abt_pieces.specs.Calls.{CallCosts, devices};
ghost use Rattle.abt_sparsify.specs.Sparsify.{MovesImage, WritesSparse, ReadyRuns, Sparsified, ToldImage};

use crate::count::{Written, count_runs};
use crate::write::write_runs;
use abt_io::{Meter, Output, Source, Window};
use abt_pieces::{PieceFault, run_fault, write_header};
use abt_runs::{BlockRuns, RawRuns, TailRuns};

/// Writes an opened raw image as a sparse one.
fn write_image<S: Source, O: Output>(
    runs: &TailRuns,
    source: &mut S,
    most: u32,
    output: &mut O,
    w: &mut Window,
    m: &mut Meter,
) -> Result<Written, PieceFault>
    requires ready { ReadyRuns S.models most runs.now.raw.size runs.now.raw.length (S.content source.old) }
    ensures moves { MovesImage result S.Source O.Output source.old source.new output.old output.new }
    ensures told { IsTrue S.models → ToldImage result runs.now.raw.size most
        (raw_list runs.now.is_tail_raw runs.now.raw.size (S.content source.old)) (O.written output.old)
        (O.written output.new) (length (S.content source.old)) (S.given source.old) (S.given source.new) }
    ensures sparse { IfOk result (Sparsified runs.now.raw.size runs.now.raw.length (O.written output.old)
        (O.written output.new)) }
    ensures within { length (O.written output.new)
        ≤ length (O.written output.old) + (28 + runs.now.raw.blocks * (runs.now.raw.size + 16)) }
    ensures costs { CallCosts runs.now.raw.size (devices S.Source O.Output source.old output.old)
        (devices S.Source O.Output source.new output.new) m.old m.new }
{
    let counted = match count_runs(runs, source, most, w, m) {
        Ok(counted) => counted,
        Err(fault) => return Err(fault),
    };
    let _chunks = counted.chunks;
    m.close_step(0);
    let size = runs.block_size();
    if let Err(fault) = write_header(output, size, counted.blocks, counted.chunks, m) {
        return Err(PieceFault::Write(fault));
    }
    match write_runs(counted, runs, source, most, output, w, m) {
        Ok(()) => Ok(counted),
        Err(fault) => Err(fault),
    }
}

/// Writes a raw image as a sparse image (`sparse_format.h`): its bytes, filled up with zeros to a whole block, in
/// blocks of `block_size` bytes. A block whose words are all equal is fill, every other block is raw. With
/// `is_tail_raw` a block that was filled up is raw, whatever its bytes are. Each maximal run is one chunk; a raw run is
/// cut into chunks of at most `most` blocks. The call reads the source in two passes. In the first it counts the
/// numbers of the header.
///
/// - It fails with `BadBlock` exactly where `block_size` is no multiple of 4 from 4 to 65,536.
/// - Otherwise it fails with `TooLarge` exactly where there are more than 2^32 - 1 blocks. Both come before anything
///   is written.
/// - `Read` and `Write` come only where that device has failed. Then the output has a beginning of the image.
/// - `SourceChanged` comes only of a source that does not model its content.
/// - Where it returns Ok, what was written is a sparse image of so many blocks with nothing after it, whatever the
///   source gave.
pub fn sparsify<S: Source, O: Output>(
    source: &mut S,
    block_size: u32,
    is_tail_raw: bool,
    most: u32,
    output: &mut O,
    w: &mut Window,
    m: &mut Meter,
) -> Result<Written, PieceFault>
    requires some { 1 ≤ most }
    requires small { 12 + most * block_size < 2 ^ 32 }
    ensures does { WritesSparse result block_size S.Source O.Output source.old source.new output.old output.new m.old
        m.new }
    ensures told { IsTrue S.models → ToldImage result block_size most
        (raw_list is_tail_raw block_size (S.content source.old)) (O.written output.old) (O.written output.new)
        (length (S.content source.old)) (S.given source.old) (S.given source.new) }
    ensures sparse { IfOk result (Sparsified block_size (S.size source.old) (O.written output.old)
        (O.written output.new)) }
{
    let raw = match RawRuns::open(source, block_size) {
        Ok(raw) => raw,
        Err(fault) => return Err(run_fault(fault)),
    };
    let runs = TailRuns { raw, is_tail_raw };
    write_image(&runs, source, most, output, w, m)
}
