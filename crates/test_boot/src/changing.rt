//! Sources whose bytes change after some of their calls.

use crate::samples::{boot, checked, entry, opened, pack, pack_four, pack_parts, unpack_entry};
use abt_io::{SliceOutput, SliceSource};
use abt_sections::{Packed, SectionFault, fragments};
use mem_devices::SwitchSource;

/// An image that was accepted changes: first its source has another length, and then an entry is another.
#[test]
fn an_image_that_is_no_longer_accepted_has_changed(rt: HostRuntime) {
    let mut bytes = [1u8; 20480];
    assert!(rt; pack_four(4096, &mut bytes).is_ok());
    let image = opened(&mut SliceSource::new(&bytes)).expect(&rt, "opens");
    assert!(rt; fragments(&image) == 2);
    let shorter = checked(&image, &mut SliceSource::new(&bytes[1..]));
    assert!(rt; shorter == Err(SectionFault::SourceChanged));
    // The second fragment has one byte more than the vendor ramdisk.
    bytes[12396] = 8;
    let mut room = [1u8; 16];
    let mut source = SliceSource::new(&bytes);
    let mut output = SliceOutput::new(&mut room);
    let second = entry(&image, 1, &mut source);
    assert!(rt; second == Err(SectionFault::SourceChanged));
    let done = unpack_entry(&image, 1, &mut source, &mut output);
    assert!(rt; done == Err(SectionFault::SourceChanged));
    // The first is as it was.
    let done = unpack_entry(&image, 0, &mut source, &mut output);
    assert!(rt; done == Ok(()));
    assert!(rt; output.written() == b"first".as_slice());
}

/// Packs the kernel `K` alone, which is these bytes from its second call on.
fn packed(then: &[u8], room: &mut [u8]) -> Result<Packed, SectionFault> {
    let mut parts = [
        SwitchSource::new(b"K", then, 1),
        SwitchSource::new(&[], &[], 0),
        SwitchSource::new(&[], &[], 0),
    ];
    let spec = boot(0, 2048, &[], &[]);
    pack(&spec, &mut parts, &mut SliceOutput::new(room))
}

/// The part is read for the id and for its bytes. Other bytes of the same length contradict nothing: the id is that
/// of the first ones.
#[test]
fn a_part_that_changes_between_two_reads(rt: HostRuntime) {
    let mut room = [1u8; 4096];
    assert!(rt; packed(b"L", &mut room) == Ok(Packed { bytes: 4096 }));
    assert!(rt; room[2048] == b'L');
    // The SHA-1 of 4b 01000000 00000000 00000000 begins so.
    assert!(rt; &room[576..580] == [0x1f, 0x5b, 0xc5, 0xcf].as_slice());
    assert!(rt; packed(b"", &mut room) == Err(SectionFault::SourceChanged));
}

/// Fragments of 5 and 7 bytes that become 6 and 6 after they are read: the table would not match what was written.
#[test]
fn fragments_whose_lengths_change_while_their_sum_stays_have_changed(rt: HostRuntime) {
    let mut ramdisks = [
        SwitchSource::new(b"first", b"first!", 1),
        SwitchSource::new(b"second!", b"second", 1),
    ];
    let mut dtb = SwitchSource::new(b"d", b"d", 0);
    let mut bootconfig = SwitchSource::new(b"bc", b"bc", 0);
    let mut room = [1u8; 20480];
    let mut output = SliceOutput::new(&mut room);
    let packed = pack_parts(4096, &mut ramdisks, &mut dtb, &mut bootconfig, &mut output);
    assert!(rt; packed == Err(SectionFault::SourceChanged));
}
