//! The header of a chunk: decoding and encoding.

ghost use Rattle.std.specs.Prelude.{◌≡◌, ◌<◌, ◌^◌, IfOk, IfErr, Ok};
ghost use Rattle.abt_sparse.specs.declared.kind.ChunkKind.{ChunkKind};
ghost use Rattle.abt_sparse.specs.Chunk.{code};
ghost use Rattle.abt_sparse.specs.Reading.{number_at};
ghost use Rattle.abt_sparse.specs.ChunkHead.{chunk_header_at, chunk_record};

use crate::kind::ChunkKind;
use crate::numbers::{u16_at, u32_at};
use byteorder::{ByteOrder, LittleEndian};

/// The header of a chunk, `chunk_header_t` without `reserved1`. Whether the three fields agree is not checked here:
/// that needs the header of the image.
#[derive(Clone, Copy, Debug, PartialEq, Eq, Drop)]
pub struct ChunkHeader {
    /// `chunk_type`.
    pub kind: ChunkKind,
    /// `chunk_sz`: the number of blocks in the expanded image. A checksum has none, whatever number this is.
    pub blocks: u32,
    /// `total_sz`: the length of the chunk in bytes, header and data.
    pub total: u32,
}

impl ChunkHeader {
    /// The header in these twelve bytes, with any reserved field, or the `chunk_type` that the format does not know.
    pub fn decode(bytes: &[u8; 12]) -> Result<ChunkHeader, u16>
        ensures exact { result ≡ chunk_header_at bytes.now }
        ensures back { IfOk result (λ h. chunk_record h (number_at 2 2 bytes.now) ≡ bytes.now) }
        ensures cause { IfErr result (λ n. (n ≡ number_at 0 2 bytes.now) × ((k : ChunkKind) → n ≡ code k → ⊥)) }
    {
        let code = u16_at(bytes, 0);
        match ChunkKind::from_code(code) {
            Some(kind) => Ok(ChunkHeader {
                kind,
                blocks: u32_at(bytes, 4),
                total: u32_at(bytes, 8),
            }),
            None => Err(code),
        }
    }

    /// The twelve bytes of the header, with 0 in the reserved field.
    #[inline(always)]
    pub fn encode(&self) -> [u8; 12]
        ensures bytes { result ≡ chunk_record self.now 0 }
        ensures again { chunk_header_at result ≡ Ok self.now }
    {
        in_range(*self);
        self.record()
    }

    #[inline(always)]
    fn record(&self) -> [u8; 12]
        ensures { result ≡ chunk_record self.now 0 }
    {
        let mut out = [0u8; 12];
        LittleEndian::write_u16(&mut out, self.kind.code());
        LittleEndian::write_u32(&mut out[4..], self.blocks);
        LittleEndian::write_u32(&mut out[8..], self.total);
        out
    }
}

/// The fields of a header fit their bytes.
fn in_range(header: ChunkHeader)
    ensures blocks { header.blocks < 2 ^ 32 }
    ensures total { header.total < 2 ^ 32 }
{
    let _header = header;
}
