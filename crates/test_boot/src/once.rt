//! Packing that reads each part once: it writes the bytes that `pack_boot` writes. Also what is left where a call
//! fails.

use crate::failing::part;
use crate::samples::{boot, found, front, numbers, pack_five, parts_of};
use abt_io::{DeviceFault, Meter, Overwrite, SliceOutput, Source, Window};
use abt_sections::{BootSpec, Packed, SectionFault, pack_boot_once};
use mem_devices::{Cut, Faulty};

/// Packs a boot image of these parts, as `pack` does.
fn pack_once<S: Source, O: Overwrite>(
    spec: &BootSpec,
    parts: &mut [S],
    output: &mut O,
) -> Result<Packed, SectionFault> {
    if parts.len() != parts_of(spec.version) {
        return Err(SectionFault::Name);
    }
    let (mut w, mut m) = (Window::new(), Meter::new());
    pack_boot_once(spec, parts, output, &mut w, &mut m)
}

/// Packs the image of version 2 over what is in `room`. Call `read` of the kernel or call `write` of the output
/// fails; at 0 none does. The output takes at most 700 bytes a call. Returns the result, and how many calls both had.
fn packed(read: u64, write: u64, room: &mut [u8]) -> (Result<Packed, SectionFault>, u64, u64) {
    let bytes = numbers();
    let mut parts = [
        part(&bytes, read),
        part(front(&bytes, 1), 0),
        part(&[], 0),
        part(front(&bytes, 5), 0),
        part(front(&bytes, 2049), 0),
    ];
    let mut output = Faulty::new(Cut::new(SliceOutput::new(room), 700), write);
    let answer = pack_once(&boot(2, 2048, &[], &[]), &mut parts, &mut output);
    (answer, parts[0].seen, output.seen)
}

#[test]
fn the_image_is_that_of_the_call_that_reads_twice(rt: HostRuntime) {
    let mut whole = [1u8; 14336];
    let mut room = [1u8; 14336];
    assert!(rt; pack_five(&mut whole) == Ok(Packed { bytes: 14336 }));
    let (answer, reads, _) = packed(0, 0, &mut room);
    assert!(rt; answer == Ok(Packed { bytes: 14336 }));
    // 3,000 bytes in reads of 1,000, once.
    assert!(rt; reads == 3);
    assert!(rt; room == whole);
}

/// The image is packed over itself, so the rest of the true image follows what was written.
#[test]
fn each_call_fails_and_no_image_stands(rt: HostRuntime) {
    let mut whole = [1u8; 14336];
    assert!(rt; pack_five(&mut whole) == Ok(Packed { bytes: 14336 }));
    let (_, reads, writes) = packed(0, 0, &mut [1u8; 14336]);
    for n in 1..reads.saturating_add(1) {
        let mut room = whole;
        let (answer, seen, _) = packed(n, 0, &mut room);
        assert!(rt; answer == Err(SectionFault::Read(DeviceFault::Failed)));
        assert!(rt; seen == n);
        assert!(rt; found(&room).is_err());
    }
    for n in 2..writes.saturating_add(1) {
        let mut room = whole;
        let (answer, _, seen) = packed(0, n, &mut room);
        assert!(rt; answer == Err(SectionFault::Write(DeviceFault::Failed)));
        assert!(rt; seen == n);
        assert!(rt; found(&room).is_err());
    }
}
