//! The fields of the headers of a sparse image, as far as they have been read.

ghost use Rattle.std.specs.Prelude.{◌≡◌, ◌<◌};
ghost use Rattle.abt_sparse.specs.Reading.{kind_at};
ghost use Rattle.abt_c.specs.Standing.{KeptFault, kind_or};
ghost use Rattle.abt_c.specs.Headers.{chunk_kind, chunk_told, header_told, no_chunk, no_header};

use crate::sparse::fault_of;
use crate::state::AbtSparse;
use abt_chunks::ChunkKind;

/// What the header of a sparse image says beside its size.
#[repr(C)]
#[derive(Clone, Copy, Drop)]
pub struct AbtHeader {
    pub major: u32,
    pub minor: u32,
    /// How many bytes the image's header has.
    pub header_size: u32,
    /// How many bytes a chunk's header has.
    pub chunk_header_size: u32,
    /// The image's checksum, which is not checked.
    pub checksum: u32,
}

/// The chunk whose header was read last.
#[repr(C)]
#[derive(Clone, Copy, Drop)]
pub struct AbtChunk {
    /// How many raw bytes of it are still to come.
    pub left: u64,
    /// How many headers of chunks have been read.
    pub headers: u32,
    /// How many blocks these chunks have.
    pub blocks: u32,
    /// 1 raw, 2 fill, 3 skip, 7 checksum.
    pub kind: u32,
    /// Whether its word is still to be read: 0 or 1.
    pub due: u32,
    /// How many bytes of its header are still to be passed over.
    pub extra: u32,
    /// The word of a fill or of a checksum, once it has been read.
    pub word: [u8; 4],
}

/// The number of a chunk's kind.
fn number_of(code: u16) -> u32
    ensures { result ≡ chunk_kind (kind_or (kind_at code)) }
{
    match ChunkKind::from_code(code) {
        Some(ChunkKind::Raw) => 1,
        Some(ChunkKind::Fill) => 2,
        Some(ChunkKind::Skip) => 3,
        Some(ChunkKind::Crc) => 7,
        None => 3,
    }
}

/// What the image's header says, once it has been read; before that all numbers are 0. 0, or the number of the fault
/// that the state keeps.
#[unsafe(no_mangle)]
pub extern "C" fn abt_sparse_header(state: &AbtSparse, out: &mut AbtHeader) -> u32
    ensures kept { KeptFault result state.now }
    ensures refused { (result ≡ 0 → ⊥) → out.new ≡ no_header }
    ensures unread { state.now.phase ≡ 0 → out.new ≡ no_header }
    ensures told { 0 < state.now.phase → result ≡ 0 → out.new ≡ header_told state.now }
{
    *out = AbtHeader {
        major: 0,
        minor: 0,
        header_size: 0,
        chunk_header_size: 0,
        checksum: 0,
    };
    let fault = fault_of(state);
    if fault == 0 && state.phase > 0 {
        *out = AbtHeader {
            major: 1,
            minor: u32::from(state.minor),
            header_size: u32::from(state.file_hdr_sz),
            chunk_header_size: u32::from(state.chunk_hdr_sz),
            checksum: state.image_checksum,
        };
    }
    fault
}

/// The chunk whose header was read last, and all numbers 0 before the first. 0, or the number of the fault that the
/// state keeps.
#[unsafe(no_mangle)]
pub extern "C" fn abt_sparse_chunk(state: &AbtSparse, out: &mut AbtChunk) -> u32
    ensures kept { KeptFault result state.now }
    ensures refused { (result ≡ 0 → ⊥) → out.new ≡ no_chunk }
    ensures unread { state.now.index ≡ 0 → out.new ≡ no_chunk }
    ensures told { 0 < state.now.index → result ≡ 0 → out.new ≡ chunk_told state.now }
{
    *out = AbtChunk {
        left: 0,
        headers: 0,
        blocks: 0,
        kind: 0,
        due: 0,
        extra: 0,
        word: [0; 4],
    };
    let fault = fault_of(state);
    if fault == 0 && state.index > 0 {
        *out = AbtChunk {
            left: state.raw,
            headers: state.index,
            blocks: state.have,
            kind: number_of(state.kind),
            due: state.due,
            extra: state.extra,
            word: state.word,
        };
    }
    fault
}
