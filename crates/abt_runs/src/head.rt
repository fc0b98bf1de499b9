//! The twelve bytes of a chunk's header.
ghost use Rattle.std.specs.Prelude.{◌≡◌, length};
ghost use Rattle.abt_runs.specs.Head.{chunk_header_of};

use abt_sparse::{ChunkHeader, ChunkKind, u16_at, u32_at};

/// How long a chunk's header is, but for extra bytes.
pub const CHUNK_HEADER: usize = 12;

/// The fields, or nothing where the type is unknown.
#[inline(always)]
pub fn head_at(bytes: &[u8]) -> Option<ChunkHeader>
    requires { length bytes.now ≡ 12 }
    ensures { result ≡ chunk_header_of bytes.now }
{
    match ChunkKind::from_code(u16_at(bytes, 0)) {
        Some(kind) => Some(ChunkHeader {
            kind,
            blocks: u32_at(bytes, 4),
            total: u32_at(bytes, 8),
        }),
        None => None,
    }
}
