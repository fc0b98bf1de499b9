//! A boot image on its whole way: packed, sparsed, delivered, opened and unpacked.

use abt_flash::{Delivered, deliver};
use abt_flash_faults::FlashFault;
use abt_flash_faults::FlashFault::LimitTooSmall;
use abt_headers::OsVersion;
use abt_io::{Meter, SliceOutput, SliceSource, Window};
use abt_sections::{BootSpec, open, pack_boot, sections, unpack};
use abt_sparsify::sparsify;
use mem_devices::{SlicePartition, SliceSpool};

/// Packs the image of version 0 with the one kernel byte `K`: how many bytes it has.
fn packed(room: &mut [u8]) -> u64 {
    let spec = BootSpec {
        version: 0,
        page: 2048,
        kernel_addr: 0,
        ramdisk_addr: 0,
        second_addr: 0,
        tags_addr: 0,
        dtb_addr: 0,
        os: OsVersion::from_raw(0),
        name: &[],
        cmdline: &[],
        is_front_ended: false,
    };
    let mut parts = [
        SliceSource::new(b"K"),
        SliceSource::new(&[]),
        SliceSource::new(&[]),
    ];
    let mut output = SliceOutput::new(room);
    let mut w = Window::new();
    let mut m = Meter::new();
    pack_boot(&spec, &mut parts, &mut output, &mut w, &mut m).map_or(0, |packed| packed.bytes)
}

/// Sparses an image in blocks of 4,096 bytes, and delivers that in pieces of at most `limit` bytes.
fn delivered(image: &[u8], limit: u32, cells: &mut [u8]) -> (u64, Result<Delivered, FlashFault>) {
    let mut sparse = [0u8; 5000];
    let mut room = [0u8; 4160];
    let mut w = Window::new();
    let mut m = Meter::new();
    let mut output = SliceOutput::new(&mut sparse);
    let written = sparsify(
        &mut SliceSource::new(image),
        4096,
        false,
        1,
        &mut output,
        &mut w,
        &mut m,
    );
    let mut source = SliceSource::new(output.written());
    let mut spool = SliceSpool::new(&mut room);
    let mut partition = SlicePartition::new(cells);
    let limit = limit.min(4160);
    let answer = deliver(
        &mut source,
        limit,
        &mut spool,
        &mut partition,
        &mut w,
        &mut m,
    );
    (written.map_or(0, |written| written.bytes), answer)
}

/// Unpacks the kernel of the boot image at the beginning of a partition: whether that succeeds.
fn unpacks(cells: &[u8], room: &mut [u8]) -> bool {
    let mut source = SliceSource::new(cells);
    let mut output = SliceOutput::new(room);
    let mut w = Window::new();
    let mut m = Meter::new();
    match open(&mut source, &mut w, &mut m) {
        Ok(image) => {
            0 < sections(&image)
                && unpack(&image, 0, &mut source, &mut output, &mut w, &mut m).is_ok()
        }
        Err(_) => false,
    }
}

#[test]
fn one_kernel_byte_goes_the_whole_way_round(rt: HostRuntime) {
    let mut image = [1u8; 4096];
    assert!(rt; packed(&mut image) == 4096);
    let mut cells = [255u8; 5000];
    let (_, refused) = delivered(&image, 4159, &mut cells);
    assert!(rt; refused == Err(LimitTooSmall { least: 4160 }));
    assert!(rt; cells == [255u8; 5000]);
    assert!(rt; delivered(&image, 4160, &mut cells) == (4136, Ok(Delivered { pieces: 1 })));
    assert!(rt; cells.starts_with(&image));
    assert!(rt; cells.ends_with(&[255u8; 904]));
    let mut room = *b"....";
    assert!(rt; unpacks(&cells, &mut room));
    assert!(rt; room == *b"K...");
}
