//! A digest of bytes by their offsets.

/// The sum of all words of four bytes, and the sum of each word times its place: the same however the bytes are cut.
#[derive(Clone, Copy, Drop)]
pub struct Digest {
    pub sum: u64,
    pub placed: u64,
}

impl Digest {
    pub fn new() -> Digest {
        Digest { sum: 0, placed: 0 }
    }

    /// Adds the bytes at an offset.
    pub fn put(&mut self, at: u64, bytes: &[u8]) {
        let (pairs, rest) = bytes.as_chunks::<8>();
        if at % 4 != 0 {
            return self.put_bytes(at, bytes);
        }
        self.put_pairs(at / 4, pairs);
        self.put_bytes(at.wrapping_add(8 * pairs.len() as u64), rest);
    }

    /// Adds a number that was returned.
    pub fn note(&mut self, number: u64) {
        self.sum = self.sum.rotate_left(9).wrapping_add(number);
        self.placed = self.placed.rotate_left(5) ^ self.sum;
    }

    /// Adds all of another digest, as a result.
    pub fn join(&mut self, other: &Digest) {
        self.note(other.sum);
        self.note(other.placed);
    }

    // The first and the second word of a pair are summed separately, so that four sums proceed side by side: each word,
    // and for each word how many pairs there are from it on.
    fn put_pairs(&mut self, place: u64, pairs: &[[u8; 8]]) {
        let mut first = 0u64;
        let mut second = 0u64;
        let mut first_behind = 0u64;
        let mut second_behind = 0u64;
        for pair in pairs.iter() {
            let words = u64::from_le_bytes(*pair);
            first = first.wrapping_add(words & 0xffff_ffff);
            second = second.wrapping_add(words >> 32);
            first_behind = first_behind.wrapping_add(first);
            second_behind = second_behind.wrapping_add(second);
        }
        let count = pairs.len() as u64;
        let both = first.wrapping_add(second);
        let behind = first_behind.wrapping_add(second_behind);
        let before = count.wrapping_mul(both).wrapping_sub(behind);
        self.sum = self.sum.wrapping_add(both);
        self.placed = self
            .placed
            .wrapping_add(place.wrapping_mul(both))
            .wrapping_add(before.wrapping_mul(2))
            .wrapping_add(second);
    }

    fn put_bytes(&mut self, at: u64, bytes: &[u8]) {
        let mut place = at;
        for byte in bytes.iter() {
            let part = u64::from(*byte) << (8 * (place % 4));
            self.sum = self.sum.wrapping_add(part);
            self.placed = self.placed.wrapping_add((place / 4).wrapping_mul(part));
            place = place.wrapping_add(1);
        }
    }
}
