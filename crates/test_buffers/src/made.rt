//! The bytes and the numbers of the calls, the same in each run.

use std::alloc::Global;

/// Generates numbers that are as good as random.
#[derive(Drop)]
pub(crate) struct Random {
    state: u64,
}

impl Random {
    pub(crate) fn new(seed: u64) -> Random {
        Random { state: seed }
    }

    fn next(&mut self) -> u64 {
        self.state = self.state.wrapping_add(0x9e37_79b9_7f4a_7c15);
        let mut word = self.state;
        word = (word ^ (word >> 30)).wrapping_mul(0xbf58_476d_1ce4_e5b9);
        word = (word ^ (word >> 27)).wrapping_mul(0x94d0_49bb_1331_11eb);
        word ^ (word >> 31)
    }

    /// A number from 0 to this one.
    pub(crate) fn to(&mut self, most: u64) -> u64 {
        self.next() % most.saturating_add(1).max(1)
    }

    /// One of these.
    pub(crate) fn of(&mut self, some: &[usize]) -> usize {
        let i = self.to(some.len().saturating_sub(1) as u64) as usize;
        some.get(i).copied().unwrap_or(0)
    }
}

/// This many bytes, or as many as there is memory for.
pub(crate) fn bytes(alloc: Global, count: usize) -> Vec<u8> {
    let mut made = Vec::new(alloc);
    let mut random = Random::new(count as u64);
    for _ in 0..count {
        if made.push((random.next() % 256) as u8).is_err() {
            return made;
        }
    }
    made
}

/// This many bytes of these from a position on, as far as they go.
pub(crate) fn part(bytes: &[u8], from: u64, count: usize) -> &[u8] {
    let from = from.min(bytes.len() as u64) as usize;
    let count = count.min(bytes.len() - from);
    &bytes[from..from + count]
}
