//! Counts the leading bytes that are the same in two slices.

ghost use Rattle.std.specs.Prelude.{◌≡◌, ◌≤◌, ◌<◌, ◌+◌, length, take, min, slice_get};
ghost use Rattle.abt_chunks.specs.Costs.{TurnsOnly};

use abt_io::Meter;

/// How many leading bytes are the same. Where all are, as mostly, they are compared at once, and not one by one.
pub(crate) fn alike(a: &[u8], b: &[u8], m: &mut Meter) -> usize
    ensures within { result ≤ min (length a.now) (length b.now) }
    ensures same { take result a.now ≡ take result b.now }
    ensures other { result < min (length a.now) (length b.now) → slice_get a.now result ≡ slice_get b.now result → ⊥ }
    ensures few { result ≡ min (length a.now) (length b.now) → m.new.turns.number ≤ m.old.turns.number + result }
    ensures meter { TurnsOnly (result + 1) m.old m.new }
{
    let n = a.len().min(b.len());
    if a[..n] == b[..n] {
        return n;
    }
    let mut at = 0;
    while at < n {
        m.tick();
        if a[at] != b[at] {
            return at;
        }
        at += 1;
    }
    at
}
