//! A part of an image as numbers.

ghost use Rattle.std.specs.Prelude.{◌≡◌, ◌<◌, ◌≤◌, ◌+◌, ◌*◌, ◌^◌};
ghost use Rattle.abt_sparse.specs.Number.{number_of};
ghost use Rattle.abt_chunks.specs.Pulling.{pulled_by};
ghost use Rattle.abt_c.specs.Standing.{details};
ghost use Rattle.abt_c.specs.Telling.{IsBare, PartIs, detail_of};

use crate::state::AbtPart;
use abt_chunks::{Part, Pull, SparseFault};

pub const NEED: u32 = 0;

pub const RAW: u32 = 1;

pub const FILL: u32 = 2;

pub const SKIP: u32 = 3;

pub const NOTHING: u32 = 4;

pub const END: u32 = 5;

pub const FAULT: u32 = 6;

/// The fault of a state that no call left.
pub const STATE: u32 = 90;

/// The detail of a fault beside its number: of a chunk of unknown type its index, and the type above the low 32 bits.
pub fn detail(fault: SparseFault) -> u64
    ensures value { result ≡ detail_of fault }
    ensures bits { result < details (number_of fault) }
{
    match fault {
        SparseFault::Magic => 0,
        SparseFault::Major(n) => u64::from(n),
        SparseFault::FileHeaderSize(n) => u64::from(n),
        SparseFault::ChunkHeaderSize(n) => u64::from(n),
        SparseFault::BlockSize(n) => u64::from(n),
        SparseFault::ChunkType { chunk, kind } => u64::from(chunk)
            + 0x1_0000_0000 * u64::from(kind),
        SparseFault::ChunkLength { chunk } => u64::from(chunk),
        SparseFault::TooManyBlocks { chunk } => u64::from(chunk),
        SparseFault::TooFewBlocks { have } => u64::from(have),
        SparseFault::Truncated { at } => at,
        SparseFault::Read(_) => 0,
        SparseFault::Write(_) => 0,
    }
}

/// A fault and nothing else.
pub fn refused(fault: u32, detail: u64) -> AbtPart
    ensures bare { IsBare result }
    ensures fault { result.fault ≡ fault }
    ensures detail { result.detail ≡ detail }
{
    AbtPart {
        position: 0,
        length: 0,
        used: 0,
        offset: 0,
        detail,
        kind: FAULT,
        fault,
        word: [0; 4],
    }
}

/// The part that a pull gave at this place.
pub fn part_of(pull: Pull, used: usize, place: u64) -> AbtPart
    requires room { place + pulled_by pull < 2 ^ 64 }
    ensures used { result.used ≡ used }
    ensures place { result.position ≡ place }
    ensures offset { result.offset ≡ 0 }
    ensures is { PartIs pull result }
{
    let mut out = refused(0, 0);
    out.kind = NEED;
    out.used = used;
    out.position = place;
    match pull {
        Pull::Need => {}
        Pull::Gives(part) => match part {
            Part::Raw(n) => {
                out.kind = RAW;
                out.length = n as u64;
            }
            Part::Words(word, n) => {
                out.kind = FILL;
                out.word = word;
                out.length = 4 * n;
            }
            Part::Skip(n) => {
                out.kind = SKIP;
                out.length = 4 * n;
            }
            Part::Nothing => out.kind = NOTHING,
            Part::End => out.kind = END,
            Part::Fault(fault) => {
                out.kind = FAULT;
                out.fault = fault.number();
                out.detail = detail(fault);
            }
        },
    }
    out
}
