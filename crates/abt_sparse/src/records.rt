//! The header of a sparse image: decoding and encoding.

ghost use Rattle.std.specs.Prelude.{◌≡◌, ◌≤◌, length, MatchResult, IfOk, IfErr, Ok, Err};
ghost use Rattle.abt_sparse.specs.Chunk.{IsHeader, header_record};
ghost use Rattle.abt_sparse.specs.Reading.{checked_header};
ghost use Rattle.abt_sparse.specs.Fails.{HeaderFails};
ghost use Rattle.abt_sparse.specs.View.{view};

use crate::fault::SparseFault;
use crate::header::SparseHeader;
use crate::numbers::{u16_at, u32_at};
use byteorder::{ByteOrder, LittleEndian};

impl SparseHeader {
    /// The header in 28 bytes, or the first check that fails: 1 the magic number, 2 the major version, 3
    /// `file_hdr_sz` below 28, 4 `chunk_hdr_sz` below 12, 5 `blk_sz` 0 or no multiple of 4.
    pub fn decode(bytes: &[u8; 28]) -> Result<SparseHeader, SparseFault>
        ensures exact { MatchResult result (λ h. checked_header bytes.now ≡ Ok (view h)) (λ f. checked_header bytes.now
            ≡ Err f) }
        ensures back { IfOk result (λ h. header_record (view h) ≡ bytes.now) }
        ensures cause { IfErr result (λ f. HeaderFails bytes.now f) }
    {
        header_of(bytes)
    }

    /// The 28 bytes of the header.
    pub fn encode(&self) -> [u8; 28]
        ensures bytes { result ≡ header_record (view self.now) }
        ensures again { checked_header result ≡ Ok (view self.now) }
    {
        fits(*self);
        record_of(self)
    }
}

/// The header in the first 28 bytes, or the first check that fails.
#[tactic(auto, unfolding(crate::specs::Reading::checked_header, crate::specs::Reading::header_at))]
pub fn header_of(bytes: &[u8]) -> Result<SparseHeader, SparseFault>
    requires { 28 ≤ length bytes.now }
    ensures { MatchResult result (λ h. checked_header bytes.now ≡ Ok (view h)) (λ f. checked_header bytes.now ≡ Err f) }
{
    let magic = u32_at(bytes, 0);
    if magic != 0xED26_FF3A {
        return Err(SparseFault::Magic);
    }
    let major = u16_at(bytes, 4);
    if major != 1 {
        return Err(SparseFault::Major(major));
    }
    let minor = u16_at(bytes, 6);
    let file_hdr_sz = u16_at(bytes, 8);
    if file_hdr_sz < 28 {
        return Err(SparseFault::FileHeaderSize(file_hdr_sz));
    }
    let chunk_hdr_sz = u16_at(bytes, 10);
    if chunk_hdr_sz < 12 {
        return Err(SparseFault::ChunkHeaderSize(chunk_hdr_sz));
    }
    let blk_sz = u32_at(bytes, 12);
    if blk_sz == 0 || blk_sz % 4 != 0 {
        return Err(SparseFault::BlockSize(blk_sz));
    }
    let total_blks = u32_at(bytes, 16);
    let total_chunks = u32_at(bytes, 20);
    let image_checksum = u32_at(bytes, 24);
    Ok(SparseHeader {
        minor,
        file_hdr_sz,
        chunk_hdr_sz,
        blk_sz,
        total_blks,
        total_chunks,
        image_checksum,
    })
}

/// A header's fields are in range.
fn fits(header: SparseHeader)
    ensures { IsHeader (view header) }
{
    let _header = header;
}

fn record_of(header: &SparseHeader) -> [u8; 28]
    ensures { result ≡ header_record (view header.now) }
{
    let mut out = [0u8; 28];
    LittleEndian::write_u32(&mut out, 0xED26_FF3A);
    LittleEndian::write_u16(&mut out[4..], 1);
    LittleEndian::write_u16(&mut out[6..], header.minor);
    LittleEndian::write_u16(&mut out[8..], header.file_hdr_sz);
    LittleEndian::write_u16(&mut out[10..], header.chunk_hdr_sz);
    LittleEndian::write_u32(&mut out[12..], header.blk_sz);
    LittleEndian::write_u32(&mut out[16..], header.total_blks);
    LittleEndian::write_u32(&mut out[20..], header.total_chunks);
    LittleEndian::write_u32(&mut out[24..], header.image_checksum);
    out
}
