//! What each command leaves where something fails, and where its output is IN's file.

use crate::commands::run;
use crate::made::holds;
use mem_disk::{Countdown, Faults};
use mem_test_commands::{Command, CommandRow, ROWS};

/// Which of the calls fails.
#[derive(Clone, Copy, Drop)]
enum Kind {
    Call,
    Read,
    Write,
}

fn faults(kind: Kind, number: u64) -> Faults {
    let at = Countdown::at(number);
    match kind {
        Kind::Call => Faults {
            calls: at,
            ..Faults::none()
        },
        Kind::Read => Faults {
            reads: at,
            ..Faults::none()
        },
        Kind::Write => Faults {
            writes: at,
            ..Faults::none()
        },
    }
}

// More than any command makes.
const CALLS: u64 = 200;

/// Fails each call, read or write of a command, each in a run of its own, and returns how many there are. Each such
/// run fails, and its disk has counted a failure. Returns `None` where a run fails without a cause, succeeds after a
/// failure, or changes IN.
fn counted(rt: HostRuntime, row: CommandRow, kind: Kind) -> Option<u64> {
    for number in 1..CALLS {
        let Ok((is_done, disk)) = run(rt, row.0, "out", row.1, faults(kind, number)) else {
            return None;
        };
        let has_failed = disk.failed != 0;
        if is_done == has_failed
            || !holds(&disk, "in", row.1.0)
            || !holds(&disk, "out.4", b"older")
        {
            return None;
        }
        if is_done {
            return Some(number - 1);
        }
    }
    None
}

#[test]
fn each_call_that_fails_is_told(rt: HostRuntime) {
    for (n, row) in ROWS.iter().enumerate() {
        let calls = counted(rt, *row, Kind::Call);
        assert!(rt; calls > Some(0), "row {n}");
    }
}

#[test]
fn each_read_that_fails_is_told(rt: HostRuntime) {
    for (n, row) in ROWS.iter().enumerate() {
        let reads = counted(rt, *row, Kind::Read);
        assert!(rt; reads > Some(0), "row {n}");
    }
}

#[test]
fn each_write_that_fails_is_told(rt: HostRuntime) {
    for (n, row) in ROWS.iter().enumerate() {
        let writes = counted(rt, *row, Kind::Write);
        assert!(rt; writes.is_some(), "row {n}");
    }
}

/// Whether a command only reads.
fn is_reading(command: Command) -> bool {
    match command {
        Command::VerifyRaw => true,
        Command::Verify => true,
        Command::List => true,
        _ => false,
    }
}

/// Whether a command writes files under other names, those of pieces.
fn is_cutting(command: Command) -> bool {
    match command {
        Command::Cut => true,
        Command::CutRaw => true,
        _ => false,
    }
}

#[test]
fn a_device_in_use_is_not_written(rt: HostRuntime) {
    for (n, (command, before)) in ROWS.iter().enumerate() {
        let (is_done, disk) = run(rt, *command, "/dev/in-use", *before, Faults::none()).expect(
            &rt,
            "has memory",
        );
        let is_refused = !is_reading(*command) && !is_cutting(*command);
        assert!(rt; is_done != is_refused, "row {n}");
        assert!(rt; (disk.failed == 1) == is_refused, "row {n}");
        assert!(rt; holds(&disk, "out", before.1), "row {n}");
    }
}

#[test]
fn a_file_that_is_read_is_not_written(rt: HostRuntime) {
    for (n, (command, before)) in ROWS.iter().enumerate() {
        let (is_done, disk) = run(rt, *command, "link", *before, Faults::none()).expect(
            &rt,
            "has memory",
        );
        if !is_reading(*command) {
            assert!(rt; !is_done, "row {n}");
            assert!(rt; disk.failed == 1, "row {n}");
        }
        assert!(rt; holds(&disk, "in", before.0), "row {n}");
        assert!(rt; holds(&disk, "out", before.1), "row {n}");
    }
}
