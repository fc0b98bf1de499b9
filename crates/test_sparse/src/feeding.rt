//! A walk that is fed its input in pieces.

use abt_chunks::{Part, Pull, Puller};
use abt_sparse::SparseFault;
use abt_sparse::SparseFault::{TooManyBlocks, Truncated};
use mem_test_data::vectors::{LONG_HEADERS, THREE_KINDS, TOO_MANY, WITH_CHECKSUM};

/// An image, how many of its bytes come at most, the fault that ends it, how many bytes are used, and what it expands
/// to.
type Row = (
    &'static [u8],
    usize,
    Option<SparseFault>,
    usize,
    &'static [u8],
);

#[rattlefmt::skip]
const ROWS: [Row; 9] = [
    (&THREE_KINDS, 72, None, 72, b"ABCD\x04\x03\x02\x01\0\0\0\0"),
    (&WITH_CHECKSUM, 88, None, 88, b"ABCD\x04\x03\x02\x01\0\0\0\0"),
    (&LONG_HEADERS, 48, None, 48, b"\0\0\0\0"),
    (&WITH_CHECKSUM, 0, Some(Truncated { at: 0 }), 0, b""),
    (&WITH_CHECKSUM, 27, Some(Truncated { at: 27 }), 27, b""),
    (&WITH_CHECKSUM, 42, Some(Truncated { at: 42 }), 42, b"AB"),
    (&WITH_CHECKSUM, 59, Some(Truncated { at: 59 }), 59, b"ABCD"),
    (&WITH_CHECKSUM, 87, Some(Truncated { at: 87 }), 87, b"ABCD\x04\x03\x02\x01\0\0\0\0"),
    (&TOO_MANY, 56, Some(TooManyBlocks { chunk: 1 }), 56, b"ABCD"),
];

/// What the parts of an image expanded to so far, with dots for the rest.
#[derive(Drop)]
struct Laid {
    room: [u8; 14],
    count: usize,
}

impl Laid {
    fn push(&mut self, byte: u8) {
        if let Some(place) = self.room.get_mut(self.count) {
            *place = byte;
        }
        self.count = self.count.saturating_add(1);
    }

    fn words(&mut self, word: [u8; 4], n: u64) {
        for _ in 0..n {
            for byte in word {
                self.push(byte);
            }
        }
    }
}

/// Feeds an image in pieces of at most `most` bytes: the fault that ended it, how many bytes were used, and what came.
fn fed(image: &[u8], most: usize) -> (Option<SparseFault>, usize, Laid) {
    let mut laid = Laid {
        room: [b'.'; 14],
        count: 0,
    };
    let mut walk = Puller::new();
    let mut rest = image;
    for _ in 0..400 {
        let piece = rest.get(..most).unwrap_or(rest);
        let pulled = walk.pull(piece);
        rest = rest.get(pulled.used..).unwrap_or(&[]);
        let part = match pulled.pull {
            Pull::Gives(part) => part,
            Pull::Need if rest.is_empty() => walk.last(),
            Pull::Need => Part::Nothing,
        };
        match part {
            Part::Raw(n) => {
                for byte in piece.get(..n).unwrap_or(&[]) {
                    laid.push(*byte);
                }
            }
            Part::Words(word, n) => laid.words(word, n),
            Part::Skip(n) => laid.words([0; 4], n),
            Part::Nothing => {}
            Part::End => return (None, image.len().saturating_sub(rest.len()), laid),
            Part::Fault(fault) => {
                return (Some(fault), image.len().saturating_sub(rest.len()), laid);
            }
        }
    }
    (Some(SparseFault::Magic), 0, laid)
}

fn is_right(row: &Row, most: usize) -> bool {
    let (image, came, fault, used, gives) = *row;
    let image = image.get(..came).unwrap_or(image);
    let (ended, taken, laid) = fed(image, most);
    ended == fault && taken == used && laid.count == gives.len() && laid.room.starts_with(gives)
}

#[test]
fn pieces_of_any_length_give_the_same_bytes(rt: HostRuntime) {
    for (i, row) in ROWS.iter().enumerate() {
        for most in [1, 2, 3, 5, 13, 28, 29, 40, 100] {
            assert!(rt; is_right(row, most), "row {i} in pieces of {most}");
        }
    }
}
