//! One failing call at each position: what is returned, and what is written.

use crate::samples::{
    FIVE, boot, checked, entry, front, numbers, opened, pack, pack_five, pack_four, pack_parts,
    unpack_entry,
};
use abt_io::{DeviceFault, Meter, Output, SliceOutput, SliceSource, Source, Window};
use abt_sections::{Image, Packed, SectionFault, sections, unpack};
use mem_devices::{Cut, Faulty};
use std::process::Abort;

/// A source that returns at most 1,000 bytes a call, and whose call `n` fails.
pub(crate) fn part(bytes: &[u8], n: u64) -> Faulty<Cut<SliceSource<'_>>> {
    Faulty::new(Cut::new(SliceSource::new(bytes), 1000), n)
}

/// Which call of a device fails, where call `n` of one does.
fn at(device: usize, failing: usize, n: u64) -> u64 {
    if device == failing { n } else { 0 }
}

/// Packs the image of version 2. Call `n` of part `failing` fails, or of the output where `failing` is 5; at 0 none
/// does. What was written is a prefix of the image. Returns the result, and how many calls that device had.
fn packed<R: Abort>(
    rt: &R,
    failing: usize,
    n: u64,
    whole: &[u8; 14336],
) -> (Result<Packed, SectionFault>, u64) {
    let bytes = numbers();
    let mut parts = [
        part(&bytes, at(0, failing, n)),
        part(front(&bytes, 1), at(1, failing, n)),
        part(&[], at(2, failing, n)),
        part(front(&bytes, 5), at(3, failing, n)),
        part(front(&bytes, 2049), at(4, failing, n)),
    ];
    let mut room = [1u8; 14336];
    let mut output = Faulty::new(SliceOutput::new(&mut room), at(5, failing, n));
    let answer = pack(&boot(2, 2048, &[], &[]), &mut parts, &mut output);
    assert!(rt; whole.starts_with(output.device.written()));
    if failing < 5 {
        return (answer, parts[failing].seen);
    }
    (answer, output.seen)
}

#[test]
fn each_call_of_packing_fails_and_a_beginning_of_the_image_stands(rt: HostRuntime) {
    let mut whole = [1u8; 14336];
    assert!(rt; pack_five(&mut whole) == Ok(Packed { bytes: 14336 }));
    // Reads of 1,000 bytes, for the id and for the bytes; each of the second ones is written, and the record, and padding.
    for (failing, calls) in [(0, 6u64), (1, 2), (2, 0), (3, 2), (4, 6), (5, 14)] {
        let failed = if failing == 5 {
            SectionFault::Write(DeviceFault::Failed)
        } else {
            SectionFault::Read(DeviceFault::Failed)
        };
        for n in 0..calls.saturating_add(2) {
            let (answer, seen) = packed(&rt, failing, n, &whole);
            let is_whole = n == 0 || n > calls;
            let want = if is_whole {
                Ok(Packed { bytes: 14336 })
            } else {
                Err(failed)
            };
            assert!(rt; answer == want, "device {failing}, call {n}");
            assert!(rt;
                seen == (if is_whole { calls } else { n }),
                "device {failing}, call {n}"
            );
        }
    }
}

/// Writes section `i` of an image.
fn unpack_section<S: Source, O: Output>(
    image: &Image,
    i: usize,
    source: &mut S,
    output: &mut O,
) -> Result<(), SectionFault> {
    if i >= sections(image) {
        return Err(SectionFault::Name);
    }
    let (mut w, mut m) = (Window::new(), Meter::new());
    unpack(image, i, source, output, &mut w, &mut m)
}

/// Unpacks section `i` where a call of each device fails, at 0 none. Each moves few bytes in a call. What was written
/// is a prefix of the part. Returns the result, and how many calls each device had.
fn unpacked<R: Abort>(
    rt: &R,
    image: &Image,
    i: usize,
    bytes: &[u8; 14336],
    read: u64,
    write: u64,
) -> (Result<(), SectionFault>, u64, u64) {
    let part = numbers();
    let mut room = [1u8; 3001];
    let mut source = Faulty::new(Cut::new(SliceSource::new(bytes), 1000), read);
    let mut output = Faulty::new(Cut::new(SliceOutput::new(&mut room), 700), write);
    let answer = unpack_section(image, i, &mut source, &mut output);
    let written = output.device.device.written();
    let size = FIVE.get(i).copied().unwrap_or(0);
    assert!(rt; front(&part, size).starts_with(written));
    assert!(rt; answer.is_err() || written.len() == size);
    (answer, source.seen, output.seen)
}

#[test]
fn each_call_of_unpacking_each_section_fails_and_a_beginning_of_it_stands(rt: HostRuntime) {
    let mut bytes = [1u8; 14336];
    assert!(rt; pack_five(&mut bytes) == Ok(Packed { bytes: 14336 }));
    let image = opened(&mut SliceSource::new(&bytes)).expect(&rt, "opens");
    // Reads of 1,000 bytes, each written by 700.
    for (i, reads, writes) in [(0, 3u64, 6u64), (1, 1, 1), (2, 0, 0), (3, 1, 1), (4, 3, 5)] {
        for n in 1..reads.saturating_add(2) {
            let (answer, seen, _) = unpacked(&rt, &image, i, &bytes, n, 0);
            let failed = Err(SectionFault::Read(DeviceFault::Failed));
            assert!(rt;
                answer == (if n > reads { Ok(()) } else { failed }),
                "section {i}"
            );
            assert!(rt; seen == n.min(reads), "section {i}");
        }
        for n in 1..writes.saturating_add(2) {
            let (answer, _, seen) = unpacked(&rt, &image, i, &bytes, 0, n);
            let failed = Err(SectionFault::Write(DeviceFault::Failed));
            assert!(rt;
                answer == (if n > writes { Ok(()) } else { failed }),
                "section {i}"
            );
            assert!(rt; seen == n.min(writes), "section {i}");
        }
    }
}

/// Packs the vendor image of version 4 with two fragments where a read of the second fails, or a write of the output;
/// at 0 none does.
fn vendor_packed(read: u64, write: u64, room: &mut [u8]) -> Result<Packed, SectionFault> {
    let mut ramdisks = [part(b"first", 0), part(b"second!", read)];
    let mut dtb = part(b"d", 0);
    let mut bootconfig = part(b"bc", 0);
    let mut output = Faulty::new(SliceOutput::new(room), write);
    pack_parts(4096, &mut ramdisks, &mut dtb, &mut bootconfig, &mut output)
}

#[test]
fn a_call_of_packing_a_vendor_image_fails(rt: HostRuntime) {
    let mut room = [1u8; 20480];
    let read = Err(SectionFault::Read(DeviceFault::Failed));
    let write = Err(SectionFault::Write(DeviceFault::Failed));
    for (n, k, want) in [
        (0, 0, Ok(Packed { bytes: 20480 })),
        (1, 0, read),
        (0, 4, write),
    ] {
        assert!(rt; vendor_packed(n, k, &mut room) == want);
    }
}

/// What fails where call `n` of the source fails: opening, checking, the second fragment's entry, and its bytes.
fn reading_fails(image: &Image, bytes: &[u8; 20480], n: u64) -> [Option<SectionFault>; 4] {
    let mut room = [1u8; 8];
    let mut output = SliceOutput::new(&mut room);
    let opening = opened(&mut part(bytes, n)).err();
    let checking = checked(image, &mut part(bytes, n)).err();
    let reading = entry(image, 1, &mut part(bytes, n)).err();
    let unpacking = unpack_entry(image, 1, &mut part(bytes, n), &mut output);
    [opening, checking, reading, unpacking.err()]
}

#[test]
fn a_read_of_opening_checking_and_a_fragment_fails(rt: HostRuntime) {
    let mut bytes = [1u8; 20480];
    assert!(rt; pack_four(4096, &mut bytes).is_ok());
    let image = opened(&mut SliceSource::new(&bytes)).expect(&rt, "opens");
    let failed = Some(SectionFault::Read(DeviceFault::Failed));
    // An entry is read in one call, and a fragment in one more.
    assert!(rt; reading_fails(&image, &bytes, 1) == [failed; 4]);
    assert!(rt; reading_fails(&image, &bytes, 2) == [failed, failed, None, failed]);
    assert!(rt; reading_fails(&image, &bytes, 0) == [None; 4]);
}
