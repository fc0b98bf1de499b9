//! Whole vendor boot images: packed, opened, checked and unpacked, against values from another source.

use crate::samples::{
    CANONICAL, entry, found, front, opened, pack_four, pack_parts, unpack_entry, vendor,
};
use abt_headers::{HeaderFault, Section};
use abt_io::{Meter, SliceOutput, SliceSource, Window};
use abt_sections::{Packed, SectionFault, fragments, pack_vendor};
use law_sections::vendor_input;

#[test]
fn an_image_of_version_3_is_packed_and_checked(rt: HostRuntime) {
    let mut m = Meter::new();
    let mut ramdisks = [SliceSource::new(b"0123456789")];
    let mut dtb = SliceSource::new(b"dtb");
    let mut none = SliceSource::new(&[]);
    let mut room = [1u8; 8192];
    let mut output = SliceOutput::new(&mut room);
    let spec = vendor(3, 2048);
    vendor_input(&spec, &[], &ramdisks, &dtb, &none, &mut m);
    let packed = pack_vendor(
        &spec,
        &[],
        &mut ramdisks,
        &mut dtb,
        &mut none,
        &mut output,
        &mut Window::new(),
        &mut m,
    );
    assert!(rt; packed == Ok(Packed { bytes: 8192 }));
    assert!(rt; found(&room) == Ok((2, [4096, 6144, 0, 0, 0], CANONICAL)));
}

#[test]
fn an_image_of_version_4_stands_at_page_boundaries(rt: HostRuntime) {
    let mut room = [1u8; 20480];
    assert!(rt; pack_four(4096, &mut room) == Ok(Packed { bytes: 20480 }));
    assert!(rt; found(&room) == Ok((4, [4096, 8192, 12288, 16384, 0], CANONICAL)));
    // The length of the table.
    assert!(rt; &room[2112..2116] == [216, 0, 0, 0].as_slice());
    let mut room = [1u8; 12288];
    assert!(rt; pack_four(2048, &mut room) == Ok(Packed { bytes: 12288 }));
    assert!(rt; found(&room) == Ok((4, [4096, 6144, 8192, 10240, 0], CANONICAL)));
}

#[test]
fn an_image_of_empty_parts_is_one_page(rt: HostRuntime) {
    let mut ramdisks: [SliceSource; 0] = [];
    let mut dtb = SliceSource::new(&[]);
    let mut bootconfig = SliceSource::new(&[]);
    let mut room = [1u8; 4096];
    let mut output = SliceOutput::new(&mut room);
    let packed = pack_parts(4096, &mut ramdisks, &mut dtb, &mut bootconfig, &mut output);
    assert!(rt; packed == Ok(Packed { bytes: 4096 }));
    assert!(rt; found(&room) == Ok((4, [4096, 4096, 4096, 4096, 0], CANONICAL)));
}

/// The entry of the second fragment is read, and its bytes are unpacked.
#[test]
fn the_second_of_two_fragments_is_read_and_unpacked(rt: HostRuntime) {
    let mut room = [1u8; 20480];
    assert!(rt; pack_four(4096, &mut room).is_ok());
    let mut source = SliceSource::new(&room);
    let mut out = [b'.'; 16];
    let mut output = SliceOutput::new(&mut out);
    let image = opened(&mut source).expect(&rt, "opens");
    assert!(rt; fragments(&image) == 2);
    let entry = entry(&image, 1, &mut source).expect(&rt, "reads");
    let numbers = (entry.ramdisk_offset, entry.ramdisk_size, entry.ramdisk_type);
    assert!(rt; numbers == (5, 7, 1));
    assert!(rt; unpack_entry(&image, 1, &mut source, &mut output) == Ok(()));
    assert!(rt; output.written() == b"second!".as_slice());
}

#[test]
fn a_bad_table_is_refused(rt: HostRuntime) {
    let mut room = [1u8; 20480];
    assert!(rt; pack_four(4096, &mut room).is_ok());
    let section = Section::Bootconfig;
    assert!(rt; found(front(&room, 16385)) == Err(SectionFault::SectionTruncated { section }));
    // The second entry's length, the length of an entry, and that of the table.
    for (place, byte, fault) in [
        (12396, 8, SectionFault::Entry(1)),
        (2120, 107, SectionFault::Header(HeaderFault::Table)),
        (2112, 215, SectionFault::Header(HeaderFault::Table)),
    ] {
        let mut other = room;
        other[place] = byte;
        assert!(rt; found(&other) == Err(fault), "at {place}");
    }
}
