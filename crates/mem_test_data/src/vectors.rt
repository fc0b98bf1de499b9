//! Sparse images, byte for byte. Their blocks have 4 bytes, except where a name says otherwise.

/// Raw `ABCD`, fill 04030201 (1), don't care (1).
#[rattlefmt::skip]
pub const THREE_KINDS: [u8; 72] = [
    0x3a, 0xff, 0x26, 0xed, 1, 0, 0, 0, 28, 0, 12, 0, 4, 0, 0, 0, 3, 0, 0, 0, 3, 0, 0, 0, 0, 0, 0, 0,
    0xc1, 0xca, 0, 0, 1, 0, 0, 0, 16, 0, 0, 0, b'A', b'B', b'C', b'D',
    0xc2, 0xca, 0, 0, 1, 0, 0, 0, 16, 0, 0, 0, 4, 3, 2, 1,
    0xc3, 0xca, 0, 0, 1, 0, 0, 0, 12, 0, 0, 0,
];

/// Raw `ABCD`, fill 04030201 (1), don't care (1), and a CRC32 chunk with 12345678.
#[rattlefmt::skip]
pub const WITH_CHECKSUM: [u8; 88] = [
    0x3a, 0xff, 0x26, 0xed, 1, 0, 0, 0, 28, 0, 12, 0, 4, 0, 0, 0, 3, 0, 0, 0, 4, 0, 0, 0, 0, 0, 0, 0,
    0xc1, 0xca, 0, 0, 1, 0, 0, 0, 16, 0, 0, 0, b'A', b'B', b'C', b'D',
    0xc2, 0xca, 0, 0, 1, 0, 0, 0, 16, 0, 0, 0, 4, 3, 2, 1,
    0xc3, 0xca, 0, 0, 1, 0, 0, 0, 12, 0, 0, 0,
    0xc4, 0xca, 0, 0, 0, 0, 0, 0, 16, 0, 0, 0, 0x78, 0x56, 0x34, 0x12,
];

/// Raw `ABCD`, fill 04030201 (1), raw `WXYZ`.
#[rattlefmt::skip]
pub const NO_GAP: [u8; 76] = [
    0x3a, 0xff, 0x26, 0xed, 1, 0, 0, 0, 28, 0, 12, 0, 4, 0, 0, 0, 3, 0, 0, 0, 3, 0, 0, 0, 0, 0, 0, 0,
    0xc1, 0xca, 0, 0, 1, 0, 0, 0, 16, 0, 0, 0, b'A', b'B', b'C', b'D',
    0xc2, 0xca, 0, 0, 1, 0, 0, 0, 16, 0, 0, 0, 4, 3, 2, 1,
    0xc1, 0xca, 0, 0, 1, 0, 0, 0, 16, 0, 0, 0, b'W', b'X', b'Y', b'Z',
];

/// Raw `ABCD`, don't care (1), raw `WXYZ`.
#[rattlefmt::skip]
pub const GAP_BETWEEN: [u8; 72] = [
    0x3a, 0xff, 0x26, 0xed, 1, 0, 0, 0, 28, 0, 12, 0, 4, 0, 0, 0, 3, 0, 0, 0, 3, 0, 0, 0, 0, 0, 0, 0,
    0xc1, 0xca, 0, 0, 1, 0, 0, 0, 16, 0, 0, 0, b'A', b'B', b'C', b'D',
    0xc3, 0xca, 0, 0, 1, 0, 0, 0, 12, 0, 0, 0,
    0xc1, 0xca, 0, 0, 1, 0, 0, 0, 16, 0, 0, 0, b'W', b'X', b'Y', b'Z',
];

/// The piece of three blocks that has the first: raw `ABCD`, don't care (2).
#[rattlefmt::skip]
pub const FIRST_OF_THREE: [u8; 56] = [
    0x3a, 0xff, 0x26, 0xed, 1, 0, 0, 0, 28, 0, 12, 0, 4, 0, 0, 0, 3, 0, 0, 0, 2, 0, 0, 0, 0, 0, 0, 0,
    0xc1, 0xca, 0, 0, 1, 0, 0, 0, 16, 0, 0, 0, b'A', b'B', b'C', b'D',
    0xc3, 0xca, 0, 0, 2, 0, 0, 0, 12, 0, 0, 0,
];

/// The piece of three blocks that has the second: don't care (1), fill 04030201 (1), don't care (1).
#[rattlefmt::skip]
pub const SECOND_OF_THREE: [u8; 68] = [
    0x3a, 0xff, 0x26, 0xed, 1, 0, 0, 0, 28, 0, 12, 0, 4, 0, 0, 0, 3, 0, 0, 0, 3, 0, 0, 0, 0, 0, 0, 0,
    0xc3, 0xca, 0, 0, 1, 0, 0, 0, 12, 0, 0, 0,
    0xc2, 0xca, 0, 0, 1, 0, 0, 0, 16, 0, 0, 0, 4, 3, 2, 1,
    0xc3, 0xca, 0, 0, 1, 0, 0, 0, 12, 0, 0, 0,
];

/// The piece of three blocks that has the third: don't care (2), raw `WXYZ`.
#[rattlefmt::skip]
pub const THIRD_OF_THREE: [u8; 56] = [
    0x3a, 0xff, 0x26, 0xed, 1, 0, 0, 0, 28, 0, 12, 0, 4, 0, 0, 0, 3, 0, 0, 0, 2, 0, 0, 0, 0, 0, 0, 0,
    0xc3, 0xca, 0, 0, 2, 0, 0, 0, 12, 0, 0, 0,
    0xc1, 0xca, 0, 0, 1, 0, 0, 0, 16, 0, 0, 0, b'W', b'X', b'Y', b'Z',
];

/// No block and no chunk.
#[rattlefmt::skip]
pub const EMPTY: [u8; 28] = [
    0x3a, 0xff, 0x26, 0xed, 1, 0, 0, 0, 28, 0, 12, 0, 4, 0, 0, 0, 0, 0, 0, 0, 0, 0, 0, 0, 0, 0, 0, 0,
];

/// The header of an image without blocks in 10,000 chunks.
#[rattlefmt::skip]
pub const HEADER_OF_MANY: [u8; 28] = [
    0x3a, 0xff, 0x26, 0xed, 1, 0, 0, 0, 28, 0, 12, 0, 4, 0, 0, 0, 0, 0, 0, 0, 0x10, 0x27, 0, 0, 0, 0, 0, 0,
];

/// A raw chunk without blocks.
pub const NO_BLOCKS: [u8; 12] = [0xc1, 0xca, 0, 0, 0, 0, 0, 0, 12, 0, 0, 0];

/// Don't care (2), raw (0), don't care (2), don't care (1).
#[rattlefmt::skip]
pub const GAPS: [u8; 76] = [
    0x3a, 0xff, 0x26, 0xed, 1, 0, 0, 0, 28, 0, 12, 0, 4, 0, 0, 0, 5, 0, 0, 0, 4, 0, 0, 0, 0, 0, 0, 0,
    0xc3, 0xca, 0, 0, 2, 0, 0, 0, 12, 0, 0, 0,
    0xc1, 0xca, 0, 0, 0, 0, 0, 0, 12, 0, 0, 0,
    0xc3, 0xca, 0, 0, 2, 0, 0, 0, 12, 0, 0, 0,
    0xc3, 0xca, 0, 0, 1, 0, 0, 0, 12, 0, 0, 0,
];

/// Don't care (5).
#[rattlefmt::skip]
pub const ONE_GAP: [u8; 40] = [
    0x3a, 0xff, 0x26, 0xed, 1, 0, 0, 0, 28, 0, 12, 0, 4, 0, 0, 0, 5, 0, 0, 0, 1, 0, 0, 0, 0, 0, 0, 0,
    0xc3, 0xca, 0, 0, 5, 0, 0, 0, 12, 0, 0, 0,
];

/// Headers of 32 and 16 bytes, don't care (1).
#[rattlefmt::skip]
pub const LONG_HEADERS: [u8; 48] = [
    0x3a, 0xff, 0x26, 0xed, 1, 0, 0, 0, 32, 0, 16, 0, 4, 0, 0, 0, 1, 0, 0, 0, 1, 0, 0, 0, 0, 0, 0, 0,
    0xaa, 0xbb, 0xcc, 0xdd,
    0xc3, 0xca, 0, 0, 1, 0, 0, 0, 16, 0, 0, 0, 0xee, 0xee, 0xee, 0xee,
];

/// Don't care (1).
#[rattlefmt::skip]
pub const SHORT_HEADERS: [u8; 40] = [
    0x3a, 0xff, 0x26, 0xed, 1, 0, 0, 0, 28, 0, 12, 0, 4, 0, 0, 0, 1, 0, 0, 0, 1, 0, 0, 0, 0, 0, 0, 0,
    0xc3, 0xca, 0, 0, 1, 0, 0, 0, 12, 0, 0, 0,
];

/// Don't care (4,294,967,295), the most that there can be.
#[rattlefmt::skip]
pub const MOST_BLOCKS: [u8; 40] = [
    0x3a, 0xff, 0x26, 0xed, 1, 0, 0, 0, 28, 0, 12, 0, 4, 0, 0, 0, 0xff, 0xff, 0xff, 0xff, 1, 0, 0, 0, 0, 0, 0, 0,
    0xc3, 0xca, 0, 0, 0xff, 0xff, 0xff, 0xff, 12, 0, 0, 0,
];

/// Fill 04030201 (1), in blocks of 4,294,967,292 bytes, the largest that there are.
#[rattlefmt::skip]
pub const LARGEST_BLOCK: [u8; 44] = [
    0x3a, 0xff, 0x26, 0xed, 1, 0, 0, 0, 28, 0, 12, 0, 0xfc, 0xff, 0xff, 0xff, 1, 0, 0, 0, 1, 0, 0, 0, 0, 0, 0, 0,
    0xc2, 0xca, 0, 0, 1, 0, 0, 0, 16, 0, 0, 0, 4, 3, 2, 1,
];

/// The header and the chunk header of 16,385 raw blocks, whose data is longer than a window.
#[rattlefmt::skip]
pub const FRONT_OF_LONG_CHUNK: [u8; 40] = [
    0x3a, 0xff, 0x26, 0xed, 1, 0, 0, 0, 28, 0, 12, 0, 4, 0, 0, 0, 1, 0x40, 0, 0, 1, 0, 0, 0, 0, 0, 0, 0,
    0xc1, 0xca, 0, 0, 1, 0x40, 0, 0, 0x10, 0, 1, 0,
];

/// The header of an image of 1,000 raw chunks of one block each.
#[rattlefmt::skip]
pub const HEADER_OF_THOUSAND: [u8; 28] = [
    0x3a, 0xff, 0x26, 0xed, 1, 0, 0, 0, 28, 0, 12, 0, 4, 0, 0, 0, 0xe8, 0x03, 0, 0, 0xe8, 0x03, 0, 0, 0, 0, 0, 0,
];

/// The header of a raw chunk of one block.
pub const ONE_RAW_BLOCK: [u8; 12] = [0xc1, 0xca, 0, 0, 1, 0, 0, 0, 16, 0, 0, 0];

/// Two blocks, of which the chunks have three: raw `ABCD`, don't care (2).
#[rattlefmt::skip]
pub const TOO_MANY: [u8; 56] = [
    0x3a, 0xff, 0x26, 0xed, 1, 0, 0, 0, 28, 0, 12, 0, 4, 0, 0, 0, 2, 0, 0, 0, 2, 0, 0, 0, 0, 0, 0, 0,
    0xc1, 0xca, 0, 0, 1, 0, 0, 0, 16, 0, 0, 0, b'A', b'B', b'C', b'D',
    0xc3, 0xca, 0, 0, 2, 0, 0, 0, 12, 0, 0, 0,
];

/// Twice don't care (2,147,483,648), where the header counts 4,294,967,295 blocks.
#[rattlefmt::skip]
pub const TWO_HALVES: [u8; 52] = [
    0x3a, 0xff, 0x26, 0xed, 1, 0, 0, 0, 28, 0, 12, 0, 4, 0, 0, 0, 0xff, 0xff, 0xff, 0xff, 2, 0, 0, 0, 0, 0, 0, 0,
    0xc3, 0xca, 0, 0, 0, 0, 0, 0x80, 12, 0, 0, 0,
    0xc3, 0xca, 0, 0, 0, 0, 0, 0x80, 12, 0, 0, 0,
];

/// Raw bytes: in blocks of 4 two of one word, and two bytes.
pub const WORDS: [u8; 10] = *b"AAAAAAAAAB";

/// Their sparse image in blocks of 4: fill 41414141 (2), fill 41420000 (1).
#[rattlefmt::skip]
pub const WORDS_IMAGE: [u8; 60] = [
    0x3a, 0xff, 0x26, 0xed, 1, 0, 0, 0, 28, 0, 12, 0, 4, 0, 0, 0, 3, 0, 0, 0, 2, 0, 0, 0, 0, 0, 0, 0,
    0xc2, 0xca, 0, 0, 2, 0, 0, 0, 16, 0, 0, 0, b'A', b'A', b'A', b'A',
    0xc2, 0xca, 0, 0, 1, 0, 0, 0, 16, 0, 0, 0, b'A', b'B', 0, 0,
];

/// Raw bytes: in blocks of 8 one of one word, one raw, and two bytes.
pub const MIXED: [u8; 18] = *b"AAAAAAAAABCDEFGHIJ";

/// What they leave on a partition in blocks of 8.
pub const OVER_MIXED: [u8; 24] = *b"AAAAAAAAABCDEFGHIJ\0\0\0\0\0\0";

/// Their sparse image in blocks of 8: fill 41414141 (1), raw (2).
#[rattlefmt::skip]
pub const MIXED_IMAGE: [u8; 72] = [
    0x3a, 0xff, 0x26, 0xed, 1, 0, 0, 0, 28, 0, 12, 0, 8, 0, 0, 0, 3, 0, 0, 0, 2, 0, 0, 0, 0, 0, 0, 0,
    0xc2, 0xca, 0, 0, 1, 0, 0, 0, 16, 0, 0, 0, b'A', b'A', b'A', b'A',
    0xc1, 0xca, 0, 0, 2, 0, 0, 0, 28, 0, 0, 0, b'A', b'B', b'C', b'D', b'E', b'F', b'G', b'H', b'I', b'J', 0, 0, 0, 0, 0, 0,
];

/// The piece of it that has the first two blocks: fill 41414141 (1), raw (1), don't care (1).
#[rattlefmt::skip]
pub const MIXED_FIRST: [u8; 76] = [
    0x3a, 0xff, 0x26, 0xed, 1, 0, 0, 0, 28, 0, 12, 0, 8, 0, 0, 0, 3, 0, 0, 0, 3, 0, 0, 0, 0, 0, 0, 0,
    0xc2, 0xca, 0, 0, 1, 0, 0, 0, 16, 0, 0, 0, b'A', b'A', b'A', b'A',
    0xc1, 0xca, 0, 0, 1, 0, 0, 0, 20, 0, 0, 0, b'A', b'B', b'C', b'D', b'E', b'F', b'G', b'H',
    0xc3, 0xca, 0, 0, 1, 0, 0, 0, 12, 0, 0, 0,
];

/// The piece of it that has the third: don't care (2), raw (1).
#[rattlefmt::skip]
pub const MIXED_SECOND: [u8; 60] = [
    0x3a, 0xff, 0x26, 0xed, 1, 0, 0, 0, 28, 0, 12, 0, 8, 0, 0, 0, 3, 0, 0, 0, 2, 0, 0, 0, 0, 0, 0, 0,
    0xc3, 0xca, 0, 0, 2, 0, 0, 0, 12, 0, 0, 0,
    0xc1, 0xca, 0, 0, 1, 0, 0, 0, 20, 0, 0, 0, b'I', b'J', 0, 0, 0, 0, 0, 0,
];

/// Raw bytes: five raw blocks of 8.
pub const LETTERS: [u8; 40] = *b"abcdefghijklmnopqrstuvwxyzABCDEFGHIJKLMN";

/// Their sparse image in chunks of at most two blocks.
pub const LETTERS_IMAGE: [u8; 104] =
    *b"\x3a\xff\x26\xed\x01\0\0\0\x1c\0\x0c\0\x08\0\0\0\x05\0\0\0\x03\0\0\0\0\0\0\0\xc1\xca\0\0\x02\0\0\0\x1c\0\0\0abcdefghijklmnop\xc1\xca\0\0\x02\0\0\0\x1c\0\0\0qrstuvwxyzABCDEF\xc1\xca\0\0\x01\0\0\0\x14\0\0\0GHIJKLMN";
