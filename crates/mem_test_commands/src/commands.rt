//! The commands over any disk, as one call.

ghost use Rattle.std.specs.Prelude.{◌≡◌, None, IsTrue};
ghost use Rattle.sys_disk.specs.World.{IsReading};

use abt_io::{Meter, Window};
use cmd_common_sparse::PieceNaming;
use cmd_cut::{Cutting, cut_file, sparse_file};
use cmd_expand::{expand_one, expand_several};
use cmd_flash::{
    flash_file, flash_pieces_file, flash_raw_file, list_file, verify_file, verify_raw_file,
};
use mem_test_data::vectors::GAP_BETWEEN;
use std::alloc::Global;
use sys_disk::Disk;
use sys_refusals::FileArg;
use sys_report::Report;

/// The commands. A raw image has blocks of 4 bytes, and `sparse` makes such ones. A piece has at most 68 bytes, which is one block.
#[derive(Clone, Copy, Drop)]
pub enum Command {
    Expand,
    ExpandSeveral,
    Sparse,
    Cut,
    CutRaw,
    Flash,
    FlashRaw,
    /// In pieces, from the one of this number on.
    FlashFrom(u32),
    FlashRawFrom(u32),
    Verify,
    VerifyRaw,
    List,
}

/// What the files hold before a command: IN, and OUT or PARTITION.
pub type Before = (&'static [u8], &'static [u8]);

/// A path, and the number of the file that it leads to.
pub type Listed = (&'static str, u64);

/// The paths. Three lead to the file of IN, one of which has the name of a piece. Two lead to the file of OUT, one of
/// which is a device in use.
pub const PATHS: [Listed; 8] = [
    ("in", 0),
    ("link", 0),
    ("link.1", 0),
    ("out", 1),
    ("/dev/in-use", 1),
    ("more", 2),
    ("spool", 3),
    ("out.4", 4),
];

// How many bytes a piece has at most.
const LIMIT: u32 = 68;

/// Whether a command that writes a file or pieces of this name returns Ok.
fn is_written<D: Disk>(
    command: Command,
    output: &str,
    alloc: Global,
    disk: &mut D,
    report: &mut Report,
    w: &mut Window,
    m: &mut Meter,
) -> bool
    requires first { IsTrue D.models → IsReading (D.held disk.old) }
    requires one { IsTrue D.models → (D.held disk.old).part ≡ None }
{
    let input = FileArg::new("IN", "in");
    let place = FileArg::new("OUT", output);
    let cutting = Cutting {
        input,
        limit: LIMIT,
        names: PieceNaming {
            prefix: output,
            is_from_zero: false,
        },
        raw: None,
    };
    let raw = Cutting {
        raw: Some(4),
        ..cutting
    };
    match command {
        Command::Expand => expand_one(disk, report, input, place, w, m).is_ok(),
        Command::ExpandSeveral => {
            expand_several(disk, report, &["in", "more"], place, alloc, w, m).is_ok()
        }
        Command::Sparse => sparse_file(disk, report, input, place, 4, false, w, m).is_ok(),
        Command::Cut => cut_file(disk, report, cutting, w, m).is_ok(),
        Command::CutRaw => cut_file(disk, report, raw, w, m).is_ok(),
        _ => false,
    }
}

/// Whether a command with a partition of this name returns Ok.
pub fn is_done<D: Disk>(
    command: Command,
    output: &str,
    alloc: Global,
    disk: &mut D,
    report: &mut Report,
    w: &mut Window,
    m: &mut Meter,
) -> bool
    requires first { IsTrue D.models → IsReading (D.held disk.old) }
    requires one { IsTrue D.models → (D.held disk.old).part ≡ None }
    requires through { IsTrue D.models → (D.held disk.old).spool ≡ None }
{
    let input = FileArg::new("IN", "in");
    let part = FileArg::new("PARTITION", output);
    let spool = FileArg::new("SPOOL", "spool");
    match command {
        Command::Flash => flash_file(disk, report, input, part, w, m).is_ok(),
        Command::FlashRaw => flash_raw_file(disk, report, input, part, 4, w, m).is_ok(),
        Command::FlashFrom(from) => {
            flash_pieces_file(disk, report, input, part, None, LIMIT, spool, from, w, m).is_ok()
        }
        Command::FlashRawFrom(from) => {
            flash_pieces_file(disk, report, input, part, Some(4), LIMIT, spool, from, w, m).is_ok()
        }
        Command::Verify => verify_file(disk, report, input, part, w, m).is_ok(),
        Command::VerifyRaw => verify_raw_file(disk, report, input, part, 4, w, m).is_ok(),
        Command::List => list_file(disk, report, input, w, m).is_ok(),
        _ => is_written(command, output, alloc, disk, report, w, m),
    }
}

/// What the files hold, by their number.
pub fn files(before: Before) -> [&'static [u8]; 5] {
    [before.0, before.1, &GAP_BETWEEN, b"spool", b"older"]
}
