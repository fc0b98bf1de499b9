//! Tests whether all words of a block are equal.
ghost use Rattle.std.specs.Prelude.{◌≡◌, ◌<◌, ◌≤◌, ◌+◌, ◌%◌, ◌^◌, length, take, drop, bytes_eq, replicate};
ghost use Rattle.std.specs.List.{concat};
ghost use Rattle.abt_runs.specs.Words.{word_of, all_words};

use std::simd::u8x32;

/// Eight times the word.
fn lanes_of(word: [u8; 4]) -> u8x32
    ensures { result ≡ concat (replicate 8 word) }
{
    let [a, b, c, d] = word;
    u8x32::from_array([
        a, b, c, d, a, b, c, d, a, b, c, d, a, b, c, d, a, b, c, d, a, b, c, d, a, b, c, d, a, b,
        c, d,
    ])
}

/// Whether the 32 bytes from a place on are these.
#[inline(always)]
fn are_lanes(block: &[u8], at: usize, pattern: u8x32) -> bool
    requires { at + 32 ≤ length block.now }
    ensures { result ≡ bytes_eq (take 32 (drop at block.now)) pattern }
{
    u8x32::from_slice(&block[at..]) == pattern
}

/// The word that all words of the block are, if they are one.
pub fn equal_word(block: &[u8]) -> Option<[u8; 4]>
    requires some { 4 ≤ length block.now }
    requires words { length block.now % 4 ≡ 0 }
    ensures { result ≡ word_of block.now }
{
    let word = [block[0], block[1], block[2], block[3]];
    let pattern = lanes_of(word);
    let mut at = 0;
    while at + 128 <= block.len() {
        let same = are_lanes(block, at, pattern)
            & are_lanes(block, at + 32, pattern)
            & are_lanes(block, at + 64, pattern)
            & are_lanes(block, at + 96, pattern);
        if !same {
            return None;
        }
        at += 128;
    }
    while at < block.len() {
        if block[at..at + 4] != word[..] {
            return None;
        }
        at += 4;
    }
    Some(word)
}
