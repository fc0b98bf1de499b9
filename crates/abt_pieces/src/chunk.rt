//! What comes before a chunk's blocks: its header, and the word of a fill.
ghost use Rattle.std.specs.Prelude.{◌≡◌, ◌<◌, ◌%◌, ◌++◌, take};
ghost use Rattle.abt_sparse.specs.Chunk.{header_record, plain_header};
ghost use Rattle.abt_pieces.specs.Contents.{head_len as length_of_head};
ghost use Rattle.abt_pieces.specs.Write.{front_bytes};
ghost use Rattle.abt_pieces.specs.WriterStep.{WrittenFront};

use crate::contents::head_len;
use abt_io::{DeviceFault, Meter, Output, write_out};
use abt_runs::RunKind;
use abt_sparse::{ChunkHeader, ChunkKind, SparseHeader};

#[inline(always)]
fn side_by_side(header: [u8; 12], word: [u8; 4]) -> [u8; 16]
    ensures { result ≡ header ++ word }
{
    let mut out = [0; 16];
    out[..12].copy_from_slice(&header);
    out[12..].copy_from_slice(&word);
    out
}

/// The header of a chunk, and after it the word of a fill.
#[inline(always)]
pub fn chunk_front(kind: RunKind, blocks: u32, total: u32) -> [u8; 16]
    ensures { take (length_of_head kind) result ≡ front_bytes kind blocks total }
{
    let (kind, word) = match kind {
        RunKind::Raw => (ChunkKind::Raw, [0; 4]),
        RunKind::Fill(word) => (ChunkKind::Fill, word),
        RunKind::Skip | RunKind::End => (ChunkKind::Skip, [0; 4]),
    };
    let header = ChunkHeader {
        kind,
        blocks,
        total,
    };
    side_by_side(header.encode(), word)
}

/// Writes what comes before a chunk's blocks: its header (`chunk_header_t`), and the word of a fill.
#[inline(always)]
pub fn write_front<O: Output>(
    output: &mut O,
    kind: RunKind,
    blocks: u32,
    total: u32,
    m: &mut Meter,
) -> Result<(), DeviceFault>
    ensures put { WrittenFront result (length_of_head kind) (front_bytes kind blocks total) O.Output output.old output.new
        m.old m.new }
{
    let bytes = chunk_front(kind, blocks, total);
    write_out(output, &bytes[..head_len(kind) as usize], m)
}

/// The header of an image (`sparse_header_t`).
pub fn image_header(size: u32, count: u32, chunks: u32) -> [u8; 28]
    requires some { 0 < size }
    requires words { size % 4 ≡ 0 }
    ensures { result ≡ header_record (plain_header size count chunks) }
{
    let header = SparseHeader {
        minor: 0,
        file_hdr_sz: 28,
        chunk_hdr_sz: 12,
        blk_sz: size,
        total_blks: count,
        total_chunks: chunks,
        image_checksum: 0,
    };
    header.encode()
}

/// Writes the header of a piece (`sparse_header_t`).
pub fn write_header<O: Output>(
    output: &mut O,
    size: u32,
    count: u32,
    chunks: u32,
    m: &mut Meter,
) -> Result<(), DeviceFault>
    requires some { 0 < size }
    requires words { size % 4 ≡ 0 }
    ensures put { WrittenFront result 28 (header_record (plain_header size count chunks)) O.Output output.old output.new
        m.old m.new }
{
    write_out(output, &image_header(size, count, chunks), m)
}
