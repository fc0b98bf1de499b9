//! The file of an image that is gathered has the bytes of one that is not.

use crate::made::{Random, bytes, part};
use crate::spools::same;
use abt_io::{DeviceFault, Output, Overwrite, WINDOW};
use sys_disk::{ImageTo, Late};
use sys_finish::{ImageFile, OutputFile};
use sys_host::{Reading, Writing};
use sys_refusals::FileArg;
use sys_std::{OsFile, OsSystem};

// How many bytes a call writes: of a fragmented image, of one with headers alone, and of one in long runs.
const MIXES: [[usize; 8]; 3] = [
    [1, 4, 12, 28, 100, 4096, 8192, 12_288],
    [1, 4, 4, 12, 12, 12, 16, 28],
    [12, 4095, 4097, 16_383, 16_384, 32_768, 65_524, 65_536],
];

// How many calls are made at most.
const TURNS: [u64; 3] = [400, 3000, 30];

// How many bytes are written over: a header mostly.
const HEADERS: [usize; 6] = [12, 12, 12, 12, 4, 28];

/// The file of an image.
fn file(output: ImageTo<ImageFile<OsFile>, OutputFile<OsFile>>) -> Option<ImageFile<OsFile>> {
    match output {
        ImageTo::File(image) => Some(image),
        ImageTo::Stream(_) => None,
    }
}

/// Writes these bytes at the end, or over others at a position. Full, where that does not fit.
fn put<O: Overwrite>(output: &mut O, at: Option<u64>, bytes: &[u8]) -> Result<usize, DeviceFault> {
    if bytes.len() > WINDOW {
        return Err(DeviceFault::Full);
    }
    let Some(at) = at else {
        return output.write(bytes);
    };
    let position = output.position();
    if at > position || bytes.len() as u64 > position - at {
        return Err(DeviceFault::Full);
    }
    output.write_over(at, bytes)
}

/// Where the next bytes overwrite others, if they do: near the end, or for every second image also at the beginning
/// and anywhere.
fn place(random: &mut Random, position: u64, is_near: bool) -> Option<u64> {
    match random.to(19) {
        0 if !is_near => Some(random.to(40)),
        1 if !is_near => Some(random.to(position)),
        2..=9 => Some(position.saturating_sub(random.to(5000))),
        _ => None,
    }
}

/// The same calls of both: whether they returned the same.
fn written(
    one: &mut ImageFile<OsFile>,
    other: &mut ImageFile<OsFile>,
    text: &[u8],
    image: u64,
    random: &mut Random,
) -> bool {
    let kind = image as usize % 3;
    let mix = MIXES.get(kind).unwrap_or(&[1; 8]);
    let turns = random.to(TURNS.get(kind).copied().unwrap_or(1));
    for _ in 0..turns {
        let at = place(random, one.position(), image % 2 == 0);
        let count = match at {
            Some(_) => random.of(&HEADERS),
            None => random.of(mix),
        };
        let some = part(text, random.to(30_000), count);
        if put(one, at, some) != put(other, at, some) || one.position() != other.position() {
            return false;
        }
    }
    true
}

fn writing(rt: HostRuntime) -> Writing<OsSystem> {
    Reading::new(OsSystem { rt }).all_open()
}

#[test]
fn a_gathered_image_has_the_bytes_of_one_that_is_not(rt: HostRuntime) {
    let text = bytes(rt.alloc(), 100_000);
    for image in 0..36u64 {
        let mut random = Random::new(image);
        let mut writing = writing(rt);
        let alone = FileArg::new("OUT", "alone.tmp");
        let together = FileArg::new("OUT", "together.tmp");
        let one = writing.image(alone, false).ok();
        let other = writing.image(together, true).ok();
        let mut one = file(one.expect(&rt, "opens")).expect(&rt, "is a file");
        let mut other = file(other.expect(&rt, "opens")).expect(&rt, "is a file");
        let text = text.as_slice();
        assert!(rt;
            written(&mut one, &mut other, text, image, &mut random),
            "image {image}"
        );
        if random.to(3) == 0 {
            let _ = one.give_up();
            let _ = other.give_up();
        } else {
            assert!(rt; other.settle() == Ok(()));
            assert!(rt; one.finish(alone).is_ok());
            assert!(rt; other.finish(together).is_ok());
        }
        assert!(rt; same(&rt, "alone.tmp", "together.tmp"), "image {image}");
    }
}
