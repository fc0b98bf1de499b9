//! What each command leaves where a call of the system fails.

use crate::commands::{Left, STREAMED, Task, run};
use crate::stopping::is_none_or_whole;
use mem_system::{Crash, Way};
use mem_test_boot_commands::EACH;
use mem_test_commands::ROWS;

// More calls than any command makes.
const CALLS: u64 = 2000;

// Whether a run has not written the files that it only reads: a crash would leave other bytes in what was written.
fn is_kept(left: &mut Left, task: Task) -> bool {
    let all = left.calls.as_ref().journal.len();
    for path in task.read() {
        let (Some(before), Some(bytes)) = (
            left.before(path),
            left.stopped(path, all, Crash::Marred),
        ) else {
            return false;
        };
        if bytes.as_slice() != before.as_slice() {
            return false;
        }
    }
    true
}

/// Fails each call of a command, each in a run of its own, and returns how many there are. Returns `None` if such a run
/// returns Ok and has left anything else than the run where none fails, changes a file that it reads, or would leave a
/// part of an image wherever it stopped.
fn counted(rt: HostRuntime, task: Task, is_synced: bool, way: Way) -> Option<u64> {
    let mut whole = run(rt, task, &[], is_synced, Way::PLAIN).ok()?;
    for failing in 1..CALLS {
        let way = Way { failing, ..way };
        let mut left = run(rt, task, &[], is_synced, way).ok()?;
        if !is_kept(&mut left, task) || !is_none_or_whole(&mut left, &mut whole, task) {
            return None;
        }
        if left.is_done && !left.is_same(&mut whole, task.written()) {
            return None;
        }
        if !left.has_failed {
            return if left.is_done {
                Some(failing - 1)
            } else {
                None
            };
        }
    }
    None
}

// A write that fails has written nothing, or half of its bytes; or reads and writes move few bytes.
const WAYS: [Way; 3] = [
    Way::PLAIN,
    Way {
        is_torn: true,
        ..Way::PLAIN
    },
    Way {
        most: 16,
        ..Way::PLAIN
    },
];

#[test]
fn no_call_that_fails_is_taken_for_done(rt: HostRuntime) {
    for way in WAYS.iter() {
        for (n, (command, before)) in ROWS.iter().enumerate() {
            let task = Task::Sparse(*command, "out", *before);
            let calls = counted(rt, task, true, *way);
            assert!(rt; calls > Some(0), "row {n}");
        }
    }
}

#[test]
fn nor_is_one_of_standard_output(rt: HostRuntime) {
    for way in WAYS.iter() {
        for (n, (command, before)) in STREAMED.iter().enumerate() {
            let calls = counted(rt, Task::Sparse(*command, "-", *before), false, *way);
            assert!(rt; calls > Some(0), "row {n}");
        }
    }
}

/// Where few bytes are moved there are too many calls.
#[test]
fn nor_is_one_of_a_command_over_boot_images(rt: HostRuntime) {
    for way in (&WAYS[..2]).iter() {
        for (n, command) in EACH.iter().enumerate() {
            let calls = counted(rt, Task::Boot(*command), true, *way);
            assert!(rt; calls > Some(0), "row {n}");
        }
    }
}
