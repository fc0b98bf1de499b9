//! From the numbers that C keeps to the reading machine, with all its conditions checked, and back.

ghost use Rattle.std.specs.Prelude.{◌≡◌, ◌≤◌, ◌<◌, ◌+◌, ◌*◌, ◌^◌, IfSome, IsNone, if◌then◌else◌, true, false};
ghost use Rattle.abt_sparse.specs.Number.{number_of};
ghost use Rattle.abt_sparse.specs.View.{view};
ghost use Rattle.abt_chunks.specs.Ahead.{left_of};
ghost use Rattle.abt_chunks.specs.declared.feed.Puller.{Puller as FedWalk};
ghost use Rattle.abt_sparse.specs.declared.header.SparseHeader.{SparseHeader as ReadHeader};
ghost use Rattle.abt_c.specs.Standing.{CanKeep, StandsWhole, StandsFor, details, header_of, kept_detail, kept_fault};
ghost use Rattle.abt_c.specs.Standing.{phase_number};
ghost use Rattle.abt_c.specs.Telling.{detail_of};

use crate::state::AbtSparse;
use crate::told::detail;
use abt_chunks::{ChunkKind, Phase, Puller, SparseFault, SparseHeader, Walk};

/// The header in a state, where its numbers are those of a header.
fn header_in(s: &AbtSparse) -> Option<SparseHeader>
    ensures some { IfSome result (λ h. header_of s.now ≡ view h) }
    ensures none { IsNone result → (h : ReadHeader) → header_of s.now ≡ view h → ⊥ }
{
    if s.file_hdr_sz < 28 || s.chunk_hdr_sz < 12 || s.blk_sz == 0 || s.blk_sz % 4 != 0 {
        return None;
    }
    Some(SparseHeader {
        minor: s.minor,
        file_hdr_sz: s.file_hdr_sz,
        chunk_hdr_sz: s.chunk_hdr_sz,
        blk_sz: s.blk_sz,
        total_blks: s.total_blks,
        total_chunks: s.total_chunks,
        image_checksum: s.image_checksum,
    })
}

/// A number of 16 bits.
fn short_in(n: u64) -> Option<u16>
    ensures some { IfSome result (λ m. m ≡ n) }
    ensures none { IsNone result → 2 ^ 16 ≤ n }
{
    if n > 65535 {
        return None;
    }
    Some(n as u16)
}

/// A number of 32 bits.
fn long_in(n: u64) -> Option<u32>
    ensures some { IfSome result (λ m. m ≡ n) }
    ensures none { IsNone result → 2 ^ 32 ≤ n }
{
    if n > 4294967295 {
        return None;
    }
    Some(n as u32)
}

/// The fault of an image that has this number and this detail.
fn fault_in(number: u32, detail: u64) -> Option<SparseFault>
    ensures number { IfSome result (λ f. number ≡ number_of f) }
    ensures detail { IfSome result (λ f. detail ≡ detail_of f) }
    ensures own { IfSome result (λ f. number ≤ 10) }
    ensures bits { IfSome result (λ f. detail < details number) }
    ensures none { IsNone result → 0 < number → number ≤ 10 → detail < details number → ⊥ }
{
    match number {
        1 => {
            if detail > 0 {
                return None;
            }
            Some(SparseFault::Magic)
        }
        2 => Some(SparseFault::Major(short_in(detail)?)),
        3 => Some(SparseFault::FileHeaderSize(short_in(detail)?)),
        4 => Some(SparseFault::ChunkHeaderSize(short_in(detail)?)),
        5 => Some(SparseFault::BlockSize(long_in(detail)?)),
        6 => Some(SparseFault::ChunkType {
            chunk: (detail % 0x1_0000_0000) as u32,
            kind: short_in(detail / 0x1_0000_0000)?,
        }),
        7 => Some(SparseFault::ChunkLength {
            chunk: long_in(detail)?,
        }),
        8 => Some(SparseFault::TooManyBlocks {
            chunk: long_in(detail)?,
        }),
        9 => Some(SparseFault::TooFewBlocks {
            have: long_in(detail)?,
        }),
        10 => Some(SparseFault::Truncated { at: detail }),
        _ => None,
    }
}

/// The phase of this number that keeps this fault, or none of number 0 where the walk has not failed.
fn phase_in(phase: u32, fault: u32, detail: u64) -> Option<Phase>
    ensures phase { IfSome result (λ p. phase ≡ phase_number p) }
    ensures fault { IfSome result (λ p. fault ≡ kept_fault p) }
    ensures detail { IfSome result (λ p. detail ≡ kept_detail p) }
    ensures own { IfSome result (λ p. fault ≤ 10) }
    ensures bits { IfSome result (λ p. detail < details fault) }
    ensures none { IsNone result → CanKeep phase fault detail → ⊥ }
{
    if phase == 3 {
        return Some(Phase::Failed(fault_in(fault, detail)?));
    }
    if fault > 0 || detail > 0 {
        return None;
    }
    match phase {
        0 => Some(Phase::Header),
        1 => Some(Phase::Body),
        2 => Some(Phase::Done),
        _ => None,
    }
}

/// Whether a word is due.
fn is_due(due: u32) -> bool
    requires { due ≤ 1 }
    ensures { due ≡ (if result then 1 else 0) }
{
    due == 1
}

/// Whether so much may be left of chunks that have so many bytes of blocks.
fn is_laid(kind: ChunkKind, raw: u64, words: u64, upto: u64) -> bool
    ensures laid { result ≡ true → left_of kind raw words ≤ upto }
    ensures more { result ≡ false → upto < left_of kind raw words }
{
    match kind {
        ChunkKind::Raw => raw <= upto,
        ChunkKind::Fill => words <= upto / 4,
        ChunkKind::Skip => words <= upto / 4,
        ChunkKind::Crc => true,
    }
}

/// Whether a reader may have come so far.
fn is_placed(position: u64, extra: u32, raw: u64, due: bool, index: u32) -> bool
    ensures placed { result ≡ true → position + extra + raw + (if due then 4 else 0) ≤ 65535 + 4294967295 * index }
    ensures more { result ≡ false → 65535 + 4294967295 * index < position + extra + raw + (if due then 4 else 0) }
{
    let most = 65535 + 4294967295 * u64::from(index);
    let lacking = u64::from(extra) + if due { 4 } else { 0 };
    if position > most {
        return false;
    }
    if raw > most - position {
        return false;
    }
    lacking <= most - position - raw
}

/// The machine in a state, where its numbers are those of one.
pub fn puller_in(s: &AbtSparse) -> Option<Puller>
    ensures some { IfSome result (λ p. StandsWhole s.now p) }
    ensures none { IsNone result → (p : FedWalk) → StandsWhole s.now p → ⊥ }
{
    let phase = match phase_in(s.phase, s.fault, s.detail) {
        Some(phase) => phase,
        None => return None,
    };
    let kind = match ChunkKind::from_code(s.kind) {
        Some(kind) => kind,
        None => return None,
    };
    let header = match header_in(s) {
        Some(header) => header,
        None => return None,
    };
    if s.index > header.total_chunks || s.have > header.total_blks || s.count > 28 || s.due > 1 {
        return None;
    }
    if u64::from(s.have) > 4294967295 * u64::from(s.index) {
        return None;
    }
    let due = is_due(s.due);
    let upto = u64::from(s.have) * u64::from(header.blk_sz);
    if !is_laid(kind, s.raw, s.words, upto) {
        return None;
    }
    if !is_placed(s.position, s.extra, s.raw, due, s.index) {
        return None;
    }
    let walk = Walk {
        phase,
        header,
        kind,
        blocks: s.blocks,
        due,
        word: s.word,
        index: s.index,
        have: s.have,
        extra: s.extra,
        raw: s.raw,
        words: s.words,
        position: s.position,
    };
    if s.count as usize > walk.whole().saturating_sub(1) {
        return None;
    }
    Some(Puller {
        walk,
        held: s.held,
        count: s.count as usize,
    })
}

/// The numbers of a machine.
pub fn state_of(p: &Puller) -> AbtSparse
    ensures stands { StandsFor result p.now }
    ensures fault { result.fault ≡ kept_fault p.now.walk.phase }
    ensures detail { result.detail ≡ kept_detail p.now.walk.phase }
    ensures bits { result.detail < details result.fault }
{
    let w = p.walk;
    let (phase, fault, detail) = match w.phase {
        Phase::Header => (0, 0, 0),
        Phase::Body => (1, 0, 0),
        Phase::Done => (2, 0, 0),
        Phase::Failed(fault) => (3, fault.number(), detail(fault)),
    };
    AbtSparse {
        position: w.position,
        raw: w.raw,
        words: w.words,
        detail,
        phase,
        fault,
        blk_sz: w.header.blk_sz,
        total_blks: w.header.total_blks,
        total_chunks: w.header.total_chunks,
        image_checksum: w.header.image_checksum,
        blocks: w.blocks,
        index: w.index,
        have: w.have,
        extra: w.extra,
        minor: w.header.minor,
        file_hdr_sz: w.header.file_hdr_sz,
        chunk_hdr_sz: w.header.chunk_hdr_sz,
        kind: w.kind.code(),
        due: if w.due { 1 } else { 0 },
        count: p.count as u32,
        word: w.word,
        held: p.held,
    }
}
