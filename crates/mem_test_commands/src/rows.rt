//! Each command, and what its files hold.

use crate::commands::{Before, Command};
use mem_test_data::vectors::{NO_GAP, THREE_KINDS};

const DOTS: &[u8] = b"..............";

const FLASHED: &[u8] = b"ABCD\x04\x03\x02\x01......";

const RAW: &[u8] = b"a raw one";

const FLASHED_RAW: &[u8] = b"a raw one\0\0\0..";

/// A command, and files that suit it.
pub type CommandRow = (Command, Before);

/// Each command.
pub const ROWS: [CommandRow; 13] = [
    (Command::Expand, (&THREE_KINDS, DOTS)),
    (Command::ExpandSeveral, (&THREE_KINDS, DOTS)),
    (Command::Sparse, (b"a raw 12", DOTS)),
    (Command::Cut, (&NO_GAP, DOTS)),
    (Command::CutRaw, (RAW, DOTS)),
    (Command::Flash, (&THREE_KINDS, DOTS)),
    (Command::FlashRaw, (RAW, DOTS)),
    (Command::FlashFrom(1), (&NO_GAP, DOTS)),
    (Command::FlashFrom(2), (&NO_GAP, DOTS)),
    (Command::FlashRawFrom(1), (RAW, DOTS)),
    (Command::Verify, (&THREE_KINDS, FLASHED)),
    (Command::VerifyRaw, (RAW, FLASHED_RAW)),
    (Command::List, (&THREE_KINDS, DOTS)),
];
