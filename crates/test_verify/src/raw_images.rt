//! Raw images, compared with what a partition holds.

use abt_io::{Meter, SliceSource, Window};
use abt_verify::VerifyFault::{BadBlock, Differs, SourceChanged};
use abt_verify::{Verified, VerifyFault, verify_raw};
use mem_devices::{Cut, Faulty, SwitchSource};
use mem_test_data::vectors::MIXED;

type Answer = Result<Verified, VerifyFault>;

/// How many bytes of the image there are, how many from the second read on, its block size, what the partition holds,
/// and the expected result.
type Row = (usize, usize, u32, &'static [u8], Answer);

#[rattlefmt::skip]
const ROWS: [Row; 16] = [
    (18, 18, 4, b"AAAAAAAAABCDEFGHIJ", Ok(Verified { blocks: 5 })),
    (18, 18, 8, b"AAAAAAAAABCDEFGHIJ....", Ok(Verified { blocks: 3 })),
    (16, 16, 8, b"AAAAAAAAABCDEFGH", Ok(Verified { blocks: 2 })),
    (17, 17, 65_536, b"AAAAAAAAABCDEFGHIJ", Ok(Verified { blocks: 1 })),
    (0, 0, 4, b"", Ok(Verified { blocks: 0 })),
    (18, 18, 4, b"aAAAAAAAABCDEFGHIJ", Err(Differs { at: 0 })),
    (18, 18, 4, b"AAAAAAAAABCDEFGHIj", Err(Differs { at: 17 })),
    (18, 18, 8, b"AAAAAAAAABcDEFgHIJ", Err(Differs { at: 10 })),
    (18, 18, 4, b"", Err(Differs { at: 0 })),
    (18, 18, 4, b"AAAAAAAAABCDEFGHI", Err(Differs { at: 17 })),
    (17, 17, 4, b"AAAAAAAAABCDEFGHI", Ok(Verified { blocks: 5 })),
    (18, 18, 0, b"", Err(BadBlock(0))),
    (18, 18, 6, b"", Err(BadBlock(6))),
    (18, 18, 65_540, b"", Err(BadBlock(65_540))),
    (18, 18, 4_294_967_292, b"", Err(BadBlock(4_294_967_292))),
    // A source that returns fewer bytes than it claims has changed.
    (18, 17, 4, b"AAAAAAAAABCDEFGHIJ", Err(SourceChanged)),
];

/// Verifies these bytes of `MIXED` where each device returns a few bytes in a call, and read `n` of the partition
/// fails, at 0 none: the result, and how many reads of the partition there were.
pub(crate) fn verified(long: usize, then: usize, block: u32, n: u64, room: &[u8]) -> (Answer, u64) {
    let first = &MIXED[..long.min(18)];
    let second = &MIXED[..then.min(18)];
    let mut source = Cut::new(SwitchSource::new(first, second, 1), 7);
    let mut partition = Faulty::new(Cut::new(SliceSource::new(room), 5), n);
    let mut w = Window::new();
    let mut m = Meter::new();
    let answer = verify_raw(&mut source, block, &mut partition, &mut w, &mut m);
    (answer, partition.seen)
}

fn is_right(row: &Row) -> bool {
    let (long, then, block, room, want) = *row;
    let (answer, _) = verified(long, then, block, 0, room);
    answer == want
}

#[test]
fn each_row_is_answered_as_it_says(rt: HostRuntime) {
    for (i, row) in ROWS.iter().enumerate() {
        assert!(rt; is_right(row), "row {i}");
    }
}
