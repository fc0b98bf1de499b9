//! Whole boot images: packed, opened, checked and unpacked, against values from another source.

use crate::samples::{CANONICAL, boot, found, front, pack, pack_five};
use abt_headers::{HeaderFault, Section};
use abt_io::{Meter, SliceOutput, SliceSource, Window};
use abt_sections::{BootSpec, Packed, SectionFault, Verdict, image_id};
use law_sections::boot_input;
use mem_devices::Long;

/// Packs the kernel byte `K` alone.
fn packed(spec: &BootSpec, room: &mut [u8]) -> Result<Packed, SectionFault> {
    let mut parts = [
        SliceSource::new(b"K"),
        SliceSource::new(&[]),
        SliceSource::new(&[]),
    ];
    pack(spec, &mut parts, &mut SliceOutput::new(room))
}

/// The SHA-1 of 4b 01000000 00000000 00000000, as `sha1sum` prints it, and twelve zeros.
const ID: [u8; 32] =
    *b"\x1f\x5b\xc5\xcf\x07\x1f\xa7\xfb\x8e\x44\xb3\x35\x90\xae\xa1\xa0\x64\x5f\xa5\x09\0\0\0\0\0\0\0\0\0\0\0\0";

const PLACES: [u64; 5] = [2048, 4096, 4096, 0, 0];

#[test]
fn one_kernel_byte_is_packed_and_checked(rt: HostRuntime) {
    let mut room = [1u8; 4096];
    assert!(rt; packed(&boot(0, 2048, &[], &[]), &mut room) == Ok(Packed { bytes: 4096 }));
    assert!(rt; room[2048] == b'K');
    assert!(rt; &room[576..608] == ID.as_slice());
    assert!(rt; found(&room) == Ok((3, PLACES, CANONICAL)));
    room[576] = 0;
    let other = Verdict {
        canonical: false,
        id: false,
        ..CANONICAL
    };
    assert!(rt; found(&room) == Ok((3, PLACES, other)));
}

#[test]
fn the_last_page_may_be_cut_short_and_no_part(rt: HostRuntime) {
    let mut room = [1u8; 4096];
    assert!(rt; packed(&boot(0, 2048, &[], &[]), &mut room).is_ok());
    let cut = Verdict {
        canonical: false,
        padding: false,
        ..CANONICAL
    };
    assert!(rt; found(front(&room, 2049)) == Ok((3, PLACES, cut)));
    let section = Section::Kernel;
    assert!(rt; found(front(&room, 2048)) == Err(SectionFault::SectionTruncated { section }));
}

#[test]
fn the_id_of_parts_is_that_of_their_image(rt: HostRuntime) {
    let mut parts = [
        SliceSource::new(b"K"),
        SliceSource::new(&[]),
        SliceSource::new(&[]),
    ];
    let id = image_id(0, &mut parts, &mut Window::new(), &mut Meter::new());
    assert!(rt; id == Ok(ID));
}

#[test]
fn five_parts_stand_at_page_boundaries(rt: HostRuntime) {
    let mut room = [1u8; 14336];
    assert!(rt; pack_five(&mut room) == Ok(Packed { bytes: 14336 }));
    let places = [2048, 6144, 8192, 8192, 10240];
    assert!(rt; found(&room) == Ok((5, places, CANONICAL)));
    // The offset of the recovery dtbo.
    assert!(rt; &room[1636..1644] == [0, 32, 0, 0, 0, 0, 0, 0].as_slice());
    room[1637] = 0;
    let other = Verdict {
        canonical: false,
        offset: false,
        ..CANONICAL
    };
    assert!(rt; found(&room) == Ok((5, places, other)));
}

#[test]
fn an_init_boot_has_an_empty_kernel(rt: HostRuntime) {
    let mut parts = [
        SliceSource::new(&[]),
        SliceSource::new(b"12345"),
        SliceSource::new(b"sig"),
    ];
    let mut room = [1u8; 12288];
    let spec = boot(4, 2048, &[], &[]);
    boot_input(&spec, &parts);
    let packed = pack(&spec, &mut parts, &mut SliceOutput::new(&mut room));
    assert!(rt; packed == Ok(Packed { bytes: 12288 }));
    assert!(rt; found(&room) == Ok((3, [4096, 4096, 8192, 0, 0], CANONICAL)));
}

#[test]
fn a_command_line_is_laid_over_two_fields(rt: HostRuntime) {
    let line = [b'x'; 1535];
    let mut room = [1u8; 4096];
    assert!(rt; packed(&boot(0, 2048, &[], &line), &mut room).is_ok());
    assert!(rt; &room[64..576] == &line[..512]);
    assert!(rt; &room[608..1631] == &line[..1023]);
    assert!(rt; room[1631] == 0);
}

#[test]
fn packing_refuses_in_order_before_any_write(rt: HostRuntime) {
    let line = [b'x'; 1536];
    let mut room = [1u8; 16];
    let newer = packed(&boot(9, 3000, &[], &[]), &mut room);
    assert!(rt; newer == Err(SectionFault::Header(HeaderFault::Version(9))));
    let paged = packed(&boot(0, 3000, &line, &line), &mut room);
    assert!(rt; paged == Err(SectionFault::Header(HeaderFault::PageSize(3000))));
    let named = packed(&boot(0, 2048, front(&line, 16), &line), &mut room);
    assert!(rt; named == Err(SectionFault::Name));
    let long = packed(&boot(0, 2048, &[], &line), &mut room);
    assert!(rt; long == Err(SectionFault::CommandLine));
    assert!(rt; room == [1u8; 16]);
}

#[test]
fn a_part_of_four_gibibytes_is_too_large(rt: HostRuntime) {
    let mut parts = [
        Long::new(SliceSource::new(b"K"), 4_294_967_296),
        Long::new(SliceSource::new(&[]), 0),
        Long::new(SliceSource::new(&[]), 0),
    ];
    let mut room = [1u8; 16];
    let mut output = SliceOutput::new(&mut room);
    let spec = boot(0, 2048, &[], &[]);
    let large = pack(&spec, &mut parts, &mut output);
    let section = Section::Kernel;
    assert!(rt; large == Err(SectionFault::SectionTooLarge { section }));
    assert!(rt; output.written().is_empty());
}
