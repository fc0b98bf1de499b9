//! Fills the window with one word, or with one byte.

ghost use Rattle.std.specs.Prelude.{◌≡◌, ◌<◌, ◌≤◌, ◌+◌, ◌*◌, length, take, replicate};
ghost use Rattle.std.specs.List.{concat};
ghost use Rattle.abt_io.specs.Lent.{NoStep};

use crate::{Meter, Window};

/// How many words of four bytes the window holds.
pub const WORDS: usize = 16_384;

/// Fills the first `n` words of the window with one word, by doubling the filled part, in at most 14 turns.
pub fn lay_word(w: &mut Window, word: [u8; 4], n: usize, m: &mut Meter)
    requires some { 0 < n }
    requires room { n ≤ 16384 }
    ensures laid { take (4 * n) w.new.bytes ≡ concat (replicate n word) }
    ensures few { m.new.turns.number ≤ m.old.turns.number + 14 }
    ensures turns { m.new.turns.number ≤ m.old.turns.number + n }
    ensures no_step { NoStep m.old m.new }
{
    w.bytes[..4].copy_from_slice(&word);
    let mut done = 1;
    while done < n {
        m.tick();
        let more = done.min(n - done);
        let (front, back) = w.bytes.split_at_mut(4 * done);
        back[..4 * more].copy_from_slice(&front[..4 * more]);
        done += more;
    }
}

/// Fills the first `n` bytes of the window with one byte.
pub fn lay_byte(w: &mut Window, n: usize, byte: u8)
    requires { n ≤ 65536 }
    ensures { take n w.new.bytes ≡ replicate n byte }
{
    w.part_mut(0, n).fill(byte);
}
