//! Parts that are longer than what a step compares: 65,536 raw bytes, as many of a fill, and a gap.

use abt_io::{Forward, Meter, SliceSource, Window};
use abt_verify::{Verified, VerifyFault, verify, verify_raw};

/// The header, and that of a raw chunk of one block of 65,536 bytes.
#[rattlefmt::skip]
const FRONT: [u8; 40] = [
    0x3a, 0xff, 0x26, 0xed, 1, 0, 0, 0, 28, 0, 12, 0, 0, 0, 1, 0, 3, 0, 0, 0, 3, 0, 0, 0, 0, 0, 0, 0,
    0xc1, 0xca, 0, 0, 1, 0, 0, 0, 12, 0, 1, 0,
];

/// A block that is filled with `abcd`, and one that does not matter.
#[rattlefmt::skip]
const REST: [u8; 28] = [
    0xc2, 0xca, 0, 0, 1, 0, 0, 0, 16, 0, 0, 0, b'a', b'b', b'c', b'd',
    0xc3, 0xca, 0, 0, 1, 0, 0, 0, 12, 0, 0, 0,
];

/// What the image leaves, where byte `other` differs.
fn room(other: usize) -> [u8; 131_072] {
    let mut room = [7u8; 131_072];
    for i in 65_536..131_072 {
        room[i] = b"abcd"[i % 4];
    }
    if other < 131_072 {
        room[other] = 0;
    }
    room
}

fn answer(other: usize, blocks: u64) -> Result<Verified, VerifyFault> {
    if other < 131_072 {
        Err(VerifyFault::Differs { at: other as u64 })
    } else {
        Ok(Verified { blocks })
    }
}

#[test]
fn each_step_counts_from_the_front(rt: HostRuntime) {
    let mut image = [7u8; 65_604];
    image[..40].copy_from_slice(&FRONT);
    for i in 0..28 {
        image[65_576 + i] = REST[i];
    }
    let mut w = Window::new();
    let mut m = Meter::new();
    for other in [0, 32_767, 32_768, 65_535, 65_536, 98_304, 131_071, 131_072] {
        let mut input = Forward::new(SliceSource::new(&image));
        let room = room(other);
        let mut partition = SliceSource::new(&room);
        let found = verify(&mut input, &mut partition, &mut w, &mut m);
        assert!(rt; found == answer(other, 2), "byte {other}");
    }
}

#[test]
fn each_step_over_a_raw_image_counts_from_the_front(rt: HostRuntime) {
    let image = room(131_072);
    let mut w = Window::new();
    let mut m = Meter::new();
    for other in [0, 32_767, 32_768, 131_071, 131_072] {
        let mut source = SliceSource::new(&image);
        let room = room(other);
        let mut partition = SliceSource::new(&room);
        let found = verify_raw(&mut source, 4096, &mut partition, &mut w, &mut m);
        assert!(rt; found == answer(other, 32), "byte {other}");
    }
}
