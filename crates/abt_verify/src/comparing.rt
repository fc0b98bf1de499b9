//! Compares a part of an image with its place on a partition.

ghost use Rattle.std.specs.Prelude.{◌≡◌, ◌≤◌, ◌<◌, ◌+◌, ◌*◌, ◌^◌, IfNone, take};
ghost use Rattle.abt_chunks.specs.Ahead.{somes};
ghost use Rattle.abt_chunks.specs.Costs.{TurnsOnly};
ghost use Rattle.abt_chunks.specs.Expanding.{cells_by};
ghost use Rattle.abt_chunks.specs.Places.{from_place};
ghost use Rattle.abt_verify.specs.Comparing.{FitsHalf, PartCompared, ReadsBytes, ReadsNothing, compared_len};

use crate::alike::alike;
use crate::fault::VerifyFault;
use abt_chunks::Part;
use abt_io::{Meter, Source, Window, lay_word, read_full_at};

/// How many bytes of the window are the image's, from its beginning, and how many after them the partition's.
pub(crate) const HALF: usize = 32_768;

/// How many words of four bytes that are.
pub(crate) const HALF_WORDS: u64 = 8_192;

/// What comparing a part returns.
#[derive(Clone, Copy, Debug, PartialEq, Eq, Drop)]
pub(crate) struct Compared {
    /// How many bytes were read of the partition.
    pub received: u32,
    /// Why the partition does not hold the part, if it doesn't.
    pub fault: Option<VerifyFault>,
}

/// Compares the first n bytes of the window with those of the partition from a place on, which are read into its other
/// half. Where the partition ends before them, the first byte that is missing differs.
#[inline(always)]
pub(crate) fn compare_at<P: Source>(
    n: usize,
    at: u64,
    partition: &mut P,
    w: &mut Window,
    m: &mut Meter,
) -> Compared
    requires half { n ≤ 32768 }
    requires below { at + n < 2 ^ 64 }
    ensures partition_bytes { ReadsBytes result.received n P.Source partition.old partition.new }
    ensures all { IfNone result.fault (result.received ≡ n) }
    ensures compares { PartCompared P.Source result.fault (from_place at (somes (take n w.old.bytes)))
        partition.old partition.new }
    ensures few { IfNone result.fault (m.new.turns.number ≤ m.old.turns.number + 2 * result.received + 1) }
    ensures meter { TurnsOnly (2 * result.received + 2) m.old m.new }
{
    w.is_whole();
    let got = read_full_at(partition, at, w.part_mut(HALF, HALF + n), m);
    let received = got.count as u32;
    match got.fault {
        Some(fault) => {
            return Compared {
                received,
                fault: Some(VerifyFault::PartitionRead(fault)),
            };
        }
        None => {}
    }
    let same = alike(w.part(0, n), w.part(HALF, HALF + got.count), m);
    if same < n {
        return Compared {
            received,
            fault: Some(VerifyFault::Differs {
                at: at + same as u64,
            }),
        };
    }
    Compared {
        received,
        fault: None,
    }
}

/// Compares what a part gives with what is stored from a place on; of a gap nothing. Raw bytes are at the beginning of
/// the window, and a word is written there.
#[inline(always)]
pub(crate) fn compare_part<P: Source>(
    part: Part,
    at: u64,
    partition: &mut P,
    w: &mut Window,
    m: &mut Meter,
) -> Compared
    requires half { FitsHalf part }
    requires below { at + compared_len part < 2 ^ 64 }
    ensures partition_bytes { ReadsBytes result.received (compared_len part) P.Source partition.old partition.new }
    ensures all { IfNone result.fault (result.received ≡ compared_len part) }
    ensures compares { PartCompared P.Source result.fault (from_place at (cells_by part w.old.bytes))
        partition.old partition.new }
    ensures still { ReadsNothing part → (result.fault ≡ None) × (partition.new ≡ partition.old) }
    ensures few { IfNone result.fault (m.new.turns.number ≤ m.old.turns.number + 3 * result.received) }
    ensures meter { TurnsOnly (2 * result.received + 17) m.old m.new }
{
    match part {
        Part::Raw(n) => compare_at(n, at, partition, w, m),
        Part::Words(word, n) => {
            lay_word(w, word, n as usize, m);
            compare_at(4 * n as usize, at, partition, w, m)
        }
        Part::Skip(_) => nothing(),
        Part::Nothing => nothing(),
        Part::End => nothing(),
        Part::Fault(_) => nothing(),
    }
}

/// Nothing is compared.
#[inline(always)]
fn nothing() -> Compared
    ensures { result ≡ record { received = 0; fault = None } }
{
    Compared {
        received: 0,
        fault: None,
    }
}
