//! The lines of a listing.

ghost use Rattle.std.specs.Prelude.{◌≡◌};
ghost use Rattle.hex.specs.Hex.{encode_lower};
ghost use Rattle.abt_sparse.specs.View.{view};
ghost use Rattle.cmd_common_listing.specs.Listed.{chunk_line, header_line};
ghost use Rattle.cmd_common_listing.specs.Listing.{kind_text};
ghost use Rattle.sys_text.specs.Printed.{Prints};

use abt_chunks::{ChunkInfo, ChunkKind};
use abt_io::Output;
use abt_sparse::SparseHeader;
use sys_text::Text;

/// Adds the line of a header.
pub fn put_header<O: Output>(header: SparseHeader, text: &mut Text<'_, O>)
    ensures { Prints O.written O.write_faults text.old text.new (header_line (view header)) }
{
    text.word("sparse 1.");
    text.number(header.minor as u64);
    text.word(" header ");
    text.number(header.file_hdr_sz as u64);
    text.word(" chunk ");
    text.number(header.chunk_hdr_sz as u64);
    text.word(" block ");
    text.number(header.blk_sz as u64);
    text.word(" blocks ");
    text.number(header.total_blks as u64);
    text.word(" chunks ");
    text.number(header.total_chunks as u64);
    text.word(" checksum ");
    text.put(&digits_of(header.image_checksum.to_be_bytes()));
    text.end_line();
}

/// Adds the line of a chunk.
pub fn put_chunk<O: Output>(chunk: ChunkInfo, text: &mut Text<'_, O>)
    ensures { Prints O.written O.write_faults text.old text.new (chunk_line chunk) }
{
    text.number(chunk.index as u64);
    put_kind(chunk.kind, chunk.blocks, chunk.word, text);
    text.end_line();
}

// Adds what a chunk is, with its blocks or its word.
fn put_kind<O: Output>(kind: ChunkKind, blocks: u32, word: [u8; 4], text: &mut Text<'_, O>)
    ensures { Prints O.written O.write_faults text.old text.new (kind_text kind blocks word) }
{
    match kind {
        ChunkKind::Raw => {
            text.word(" raw ");
            text.number(blocks as u64);
        }
        ChunkKind::Fill => {
            text.word(" fill ");
            text.number(blocks as u64);
            text.word(" ");
            text.put(&digits_of(word));
        }
        ChunkKind::Skip => {
            text.word(" skip ");
            text.number(blocks as u64);
        }
        ChunkKind::Crc => {
            let [a, b, c, d] = word;
            text.word(" crc32 ");
            text.put(&digits_of([d, c, b, a]));
        }
    }
}

// Four bytes in their order, as eight hexadecimal digits.
fn digits_of(word: [u8; 4]) -> [u8; 8]
    ensures { result ≡ encode_lower word }
{
    let mut digits = [0u8; 8];
    let _ = hex::encode_to_slice(word.as_slice(), &mut digits);
    digits
}
