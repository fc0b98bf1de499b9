//! What a delivery of a thousand chunks, or of a raw image, reads and writes.

use abt_flash::{Delivered, deliver, deliver_raw, deliver_raw_at};
use abt_io::{Meter, SliceSource, Window};
use mem_devices::{SlicePartition, SliceSpool};
use mem_test_data::counting::Counting;
use mem_test_data::vectors::{HEADER_OF_THOUSAND, ONE_RAW_BLOCK};

/// A thousand raw chunks of one block of four bytes each: block i, from 0, is the number i. Also these blocks,
/// followed by two bytes FF.
fn thousand() -> ([u8; 16_028], [u8; 4_002]) {
    let mut image = [0u8; 16_028];
    let mut cells = [255u8; 4_002];
    image[..28].copy_from_slice(&HEADER_OF_THOUSAND);
    for i in 0..1_000usize {
        let block = (i as u32).to_le_bytes();
        image[28 + 16 * i..40 + 16 * i].copy_from_slice(&ONE_RAW_BLOCK);
        image[40 + 16 * i..44 + 16 * i].copy_from_slice(&block);
        cells[4 * i..4 * i + 4].copy_from_slice(&block);
    }
    (image, cells)
}

#[test]
fn a_thousand_chunks_are_delivered_in_112_pieces(rt: HostRuntime) {
    let (image, blocks) = thousand();
    let mut source = Counting::new(SliceSource::new(&image));
    let mut room = [0u8; 100];
    let mut cells = [255u8; 4_002];
    let mut spool = Counting::new(SliceSpool::new(&mut room));
    let mut partition = SlicePartition::new(&mut cells);
    let mut w = Window::new();
    let mut m = Meter::new();
    let answer = deliver(&mut source, 100, &mut spool, &mut partition, &mut w, &mut m);
    assert!(rt; answer == Ok(Delivered { pieces: 112 }));
    // One of 88 bytes, 110 of 100, one of 56, and each is read back once.
    assert!(rt; (spool.taken, spool.handed) == (11_144, 11_144));
    // Eight times the image, and 128 bytes for each piece and once more.
    assert!(rt; source.handed <= 142_688);
    assert!(rt; cells == blocks);
}

#[test]
fn a_raw_image_is_read_once_and_a_window_a_piece(rt: HostRuntime) {
    let (_, blocks) = thousand();
    let raw = &blocks[..4_000];
    for is_once in [false, true] {
        let mut source = Counting::new(SliceSource::new(raw));
        let mut room = [0u8; 2_100];
        let mut cells = [255u8; 4_002];
        let mut spool = Counting::new(SliceSpool::new(&mut room));
        let mut partition = SlicePartition::new(&mut cells);
        let mut w = Window::new();
        let mut m = Meter::new();
        let answer = if is_once {
            deliver_raw_at(
                &mut source,
                100,
                2_100,
                &mut spool,
                &mut partition,
                &mut w,
                &mut m,
            )
        } else {
            deliver_raw(
                &mut source,
                100,
                2_100,
                &mut spool,
                &mut partition,
                &mut w,
                &mut m,
            )
        };
        assert!(rt; answer == Ok(Delivered { pieces: 2 }));
        assert!(rt; spool.handed == 4_104);
        assert!(rt; cells == blocks);
        // The second piece reads what the window of the first held after it.
        assert!(rt; is_once == (source.handed == 6_000));
        assert!(rt; is_once == (source.handed < 8_000));
    }
}
