//! Each command fails exactly where something has failed.

use crate::commands::is_done;
use crate::made::{disk, is_kept};
use mem_disk::{Countdown, Faults};
use mem_test_boot_commands::{BootCall, EACH};

/// Which of the calls fails.
#[derive(Clone, Copy, Drop)]
enum Kind {
    Call,
    Read,
    Write,
}

fn faults(kind: Kind, number: u64) -> Faults {
    let at = Countdown::at(number);
    match kind {
        Kind::Call => Faults {
            calls: at,
            ..Faults::none()
        },
        Kind::Read => Faults {
            reads: at,
            ..Faults::none()
        },
        Kind::Write => Faults {
            writes: at,
            ..Faults::none()
        },
    }
}

// More than any command makes.
const CALLS: u64 = 200;

/// Fails each call, read or write of a command, each in a run of its own, and returns how many there are. Each such
/// run fails, and its disk has counted a failure. Returns `None` where a run fails without a cause, succeeds
/// after a failure, or changes IN.
fn counted(rt: HostRuntime, command: BootCall, kind: Kind) -> Option<u64> {
    for number in 1..CALLS {
        let Ok(made) = disk(rt.alloc(), &[], faults(kind, number)) else {
            return None;
        };
        let mut disk = made;
        let is_done = is_done(rt, command, &mut disk) == Ok(true);
        let has_failed = disk.failed != 0;
        if is_done == has_failed || is_kept(rt.alloc(), &disk) != Ok(true) {
            return None;
        }
        if is_done {
            return Some(number - 1);
        }
    }
    None
}

#[test]
fn each_call_that_fails_is_told(rt: HostRuntime) {
    for (n, command) in EACH.iter().enumerate() {
        let calls = counted(rt, *command, Kind::Call);
        assert!(rt; calls > Some(0), "row {n}");
    }
}

#[test]
fn each_read_that_fails_is_told(rt: HostRuntime) {
    for (n, command) in EACH.iter().enumerate() {
        let reads = counted(rt, *command, Kind::Read);
        assert!(rt; reads > Some(0), "row {n}");
    }
}

#[test]
fn each_write_that_fails_is_told(rt: HostRuntime) {
    for (n, command) in EACH.iter().enumerate() {
        let writes = counted(rt, *command, Kind::Write);
        assert!(rt; writes.is_some(), "row {n}");
    }
}
