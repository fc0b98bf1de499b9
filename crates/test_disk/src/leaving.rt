//! What each command leaves, of valid files and of invalid ones.

use crate::commands::run;
use crate::made::holds;
use mem_disk::Faults;
use mem_test_commands::{Before, Command};
use mem_test_data::vectors::{
    FIRST_OF_THREE, NO_GAP, SECOND_OF_THREE, THIRD_OF_THREE, THREE_KINDS, WORDS,
};

// What OUT or a partition held before, and what a partition holds after `THREE_KINDS` is flashed.
const DOTS: &[u8] = b"..............";

const FLASHED: &[u8] = b"ABCD\x04\x03\x02\x01......";

// The same of `NO_GAP`, and of it from its second piece on.
const FLASHED_ALL: &[u8] = b"ABCD\x04\x03\x02\x01WXYZ..";

const FLASHED_REST: &[u8] = b"....\x04\x03\x02\x01WXYZ..";

// What `THREE_KINDS` expands to, and what it does with `GAP_BETWEEN` over it.
const EXPANDED: &[u8] = b"ABCD\x04\x03\x02\x01\0\0\0\0";

const OVERLAID: &[u8] = b"ABCD\x04\x03\x02\x01WXYZ";

// A raw image, and what a partition holds after it is flashed in blocks of 4 bytes.
const RAW: &[u8] = b"a raw one";

const FLASHED_RAW: &[u8] = b"a raw one\0\0\0..";

/// A command, what both files hold before it, whether it returns Ok, and what the second holds after it.
type Row = (Command, Before, bool, &'static [u8]);

const ROWS: [Row; 23] = [
    (Command::Expand, (&THREE_KINDS, DOTS), true, EXPANDED),
    (Command::Expand, (RAW, DOTS), false, b""),
    (Command::ExpandSeveral, (&THREE_KINDS, DOTS), true, OVERLAID),
    (Command::ExpandSeveral, (RAW, DOTS), false, DOTS),
    (Command::Cut, (&NO_GAP, DOTS), true, DOTS),
    (Command::Cut, (RAW, DOTS), false, DOTS),
    (Command::CutRaw, (RAW, DOTS), true, DOTS),
    (Command::Flash, (&THREE_KINDS, DOTS), true, FLASHED),
    (Command::Flash, (RAW, DOTS), false, DOTS),
    (
        Command::Flash,
        (&THREE_KINDS, b"........"),
        false,
        b"........",
    ),
    (Command::FlashRaw, (RAW, DOTS), true, FLASHED_RAW),
    (Command::FlashRaw, (RAW, b"........."), false, b"........."),
    (Command::FlashFrom(1), (&NO_GAP, DOTS), true, FLASHED_ALL),
    (Command::FlashFrom(1), (RAW, DOTS), false, DOTS),
    (
        Command::FlashFrom(1),
        (&NO_GAP, b"........."),
        false,
        b".........",
    ),
    (Command::FlashFrom(2), (&NO_GAP, DOTS), true, FLASHED_REST),
    (Command::FlashRawFrom(1), (RAW, DOTS), true, FLASHED_RAW),
    (Command::Verify, (&THREE_KINDS, FLASHED), true, FLASHED),
    (Command::Verify, (&THREE_KINDS, DOTS), false, DOTS),
    (Command::VerifyRaw, (RAW, FLASHED_RAW), true, FLASHED_RAW),
    (Command::VerifyRaw, (RAW, DOTS), false, DOTS),
    (Command::List, (&THREE_KINDS, DOTS), true, DOTS),
    (Command::List, (RAW, DOTS), false, DOTS),
];

#[test]
fn each_command_leaves_what_it_should(rt: HostRuntime) {
    for (n, (command, before, is_done, after)) in ROWS.iter().enumerate() {
        let (answer, disk) = run(rt, *command, "out", *before, Faults::none()).expect(
            &rt,
            "has memory",
        );
        assert!(rt; answer == *is_done, "row {n}");
        assert!(rt; holds(&disk, "in", before.0), "row {n}");
        assert!(rt; holds(&disk, "out", after), "row {n}");
        assert!(rt; holds(&disk, "out.4", b"older"), "row {n}");
        assert!(rt; disk.failed == 0, "row {n}");
    }
}

/// The pieces, by their paths.
const PIECES: [(&str, &[u8]); 3] = [
    ("out.1", &FIRST_OF_THREE),
    ("out.2", &SECOND_OF_THREE),
    ("out.3", &THIRD_OF_THREE),
];

#[test]
fn each_piece_stands_under_its_number(rt: HostRuntime) {
    let before = (NO_GAP.as_slice(), DOTS);
    let (is_done, disk) = run(rt, Command::Cut, "out", before, Faults::none()).expect(
        &rt,
        "has memory",
    );
    assert!(rt; is_done);
    for (path, bytes) in PIECES.iter() {
        assert!(rt; holds(&disk, path, bytes), "{path}");
    }
}

#[test]
fn the_spool_holds_the_last_piece(rt: HostRuntime) {
    let before = (NO_GAP.as_slice(), DOTS);
    let (is_done, disk) = run(rt, Command::FlashFrom(1), "out", before, Faults::none()).expect(
        &rt,
        "has memory",
    );
    assert!(rt; is_done);
    assert!(rt; holds(&disk, "spool", &THIRD_OF_THREE));
}

#[test]
fn images_of_other_sizes_are_not_laid_over_one_another(rt: HostRuntime) {
    let before = (WORDS.as_slice(), DOTS);
    let (is_done, disk) = run(rt, Command::ExpandSeveral, "out", before, Faults::none()).expect(
        &rt,
        "has memory",
    );
    assert!(rt; !is_done);
    assert!(rt; holds(&disk, "out", DOTS));
}
