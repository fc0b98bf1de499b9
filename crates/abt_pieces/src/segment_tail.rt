//! The end of a segment that is being weighed, and what further blocks add to its weight.
ghost use Rattle.std.specs.Prelude.{◌≡◌, ◌<◌, ◌≤◌, ◌+◌, ◌-◌, ◌*◌, ◌^◌};
ghost use Rattle.abt_pieces.specs.Plan.{head_of, fill_gain_of, skip_tail, cap_of, gain_of, tail_after, last_kind};

use abt_runs::RunKind;

/// What is at the end of a segment so far: nothing but skipped blocks, or this after others.
#[derive(Clone, Copy, Drop)]
pub enum Tail {
    Fresh,
    Skip,
    Raw,
    Fill([u8; 4]),
}

/// What a chunk header of raw blocks adds after this.
pub fn head(tail: &Tail) -> u64
    ensures { result ≡ head_of tail.now }
{
    match tail {
        Tail::Fresh | Tail::Fill(_) => 12,
        Tail::Skip => 24,
        Tail::Raw => 0,
    }
}

/// What blocks of this word add after this.
pub fn fill_gain(tail: &Tail, word: [u8; 4]) -> u64
    ensures { result ≡ fill_gain_of tail.now word }
{
    match tail {
        Tail::Fresh | Tail::Raw => 16,
        Tail::Skip => 28,
        Tail::Fill(last) => {
            if last.as_slice() == word.as_slice() {
                0
            } else {
                16
            }
        }
    }
}

/// What is at the end after skipped blocks.
pub fn after_skip(tail: &Tail) -> Tail
    ensures { result ≡ skip_tail tail.now }
{
    match tail {
        Tail::Fresh => Tail::Fresh,
        _ => Tail::Skip,
    }
}

/// How many raw blocks may go after this where there is so much room, but at least one.
pub fn raw_cap(tail: &Tail, room: u64, size: u32) -> u32
    requires some { 4 ≤ size }
    requires room { room < 2 ^ 32 }
    ensures { result ≡ cap_of tail.now room size }
{
    let rest = room.saturating_sub(head(tail));
    if rest < size as u64 {
        1
    } else {
        (rest / size as u64) as u32
    }
}

/// What blocks of one class add after this, and what is at the end then.
pub fn added(tail: &Tail, kind: RunKind, blocks: u32, size: u32) -> (u64, Tail)
    ensures gain { result.0 ≡ gain_of tail.now kind blocks size }
    ensures tail { result.1 ≡ tail_after tail.now kind }
{
    match kind {
        RunKind::Raw => (head(tail) + blocks as u64 * size as u64, Tail::Raw),
        RunKind::Fill(word) => (fill_gain(tail, word), Tail::Fill(word)),
        RunKind::Skip | RunKind::End => (0, after_skip(tail)),
    }
}

/// The class of the block before `block` in the piece: blocks before the segment are skipped.
pub fn last(tail: &Tail, block: u32) -> RunKind
    ensures { result ≡ last_kind tail.now block }
{
    match tail {
        Tail::Fresh => match block {
            0 => RunKind::End,
            _ => RunKind::Skip,
        },
        Tail::Skip => RunKind::Skip,
        Tail::Raw => RunKind::Raw,
        Tail::Fill(word) => RunKind::Fill(*word),
    }
}
