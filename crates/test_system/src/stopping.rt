//! What each command leaves where it stops between two calls.

use crate::commands::{Left, Task, run};
use mem_system::{Crash, Way};
use mem_test_boot_commands::{BootCall, EACH};
use mem_test_commands::{Before, Command, ROWS};
use std::alloc::AllocError;

const MAGICS: [&[u8]; 3] = [b"\x3a\xff\x26\xed", b"ANDROID!", b"VNDRBOOT"];

const CRASHES: [Crash; 5] = [
    Crash::Kept,
    Crash::Lost,
    Crash::Odd,
    Crash::Even,
    Crash::Marred,
];

// Whether these bytes begin as an image does.
fn has_magic(bytes: &[u8]) -> bool {
    for magic in MAGICS.iter() {
        if bytes.starts_with(magic) {
            return true;
        }
    }
    false
}

// The images that a command writes.
fn images(task: Task) -> &'static [&'static str] {
    match task {
        Task::Sparse(Command::Sparse, _, _) => &["out"],
        Task::Sparse(Command::Cut, _, _) => &["out.1", "out.2", "out.3"],
        Task::Sparse(Command::CutRaw, _, _) => &["out.1", "out.2", "out.3"],
        Task::Boot(BootCall::Pack(_)) => &["out"],
        Task::Boot(BootCall::Repack) => &["out"],
        _ => &[],
    }
}

/// Whether each image that is written is none, or is the whole one or the one from before, wherever the run stops.
pub(crate) fn is_none_or_whole(left: &mut Left, whole: &mut Left, task: Task) -> bool {
    let all = left.calls.as_ref().journal.len();
    for path in images(task) {
        let (Some(before), Some(end)) = (left.before(path), whole.copy_at(path)) else {
            // it was not created
            continue;
        };
        for calls in 0..=all {
            let Some(bytes) = left.stopped(path, calls, Crash::Kept) else {
                return false;
            };
            let bytes = bytes.as_slice();
            if has_magic(bytes) && bytes != end.as_slice() && bytes != before.as_slice() {
                return false;
            }
        }
    }
    true
}

/// Whether nothing of these files is lost by a crash after the run.
fn is_settled(left: &mut Left, paths: &[&str]) -> bool {
    let all = left.calls.as_ref().journal.len();
    for path in paths {
        let Some(end) = left.copy_at(path) else {
            continue;
        };
        match left.stopped(path, all, Crash::Marred) {
            Some(bytes) if bytes.as_slice() == end.as_slice() => {}
            _ => return false,
        }
    }
    true
}

/// Whether a flash that stops between any two calls is completed by another, whatever of the bytes that were not synced
/// is lost: in pieces by one from the piece on that it was in, which follows the pieces that were synced.
fn is_completed(rt: HostRuntime, command: Command, before: Before) -> Result<bool, AllocError> {
    let mut whole = run(
        rt,
        Task::Sparse(command, "out", before),
        &[],
        false,
        Way::PLAIN,
    )?;
    let Some(end) = whole.copy_at("out") else {
        return Err(AllocError);
    };
    for calls in 0..=whole.calls.as_ref().journal.len() {
        let rest = match command {
            Command::FlashFrom(from) => Command::FlashFrom(from.saturating_add(whole.syncs(
                "out", calls,
            ))),
            Command::FlashRawFrom(from) => Command::FlashRawFrom(from.saturating_add(whole.syncs(
                "out", calls,
            ))),
            other => other,
        };
        for crash in CRASHES.iter() {
            let (Some(part), Some(spool)) = (
                whole.stopped("out", calls, *crash),
                whole.stopped("spool", calls, *crash),
            ) else {
                return Err(AllocError);
            };
            if part.as_slice() == end.as_slice() {
                continue;
            }
            let others = [("out", part.as_slice()), ("spool", spool.as_slice())];
            let task = Task::Sparse(rest, "out", before);
            let mut left = run(rt, task, &others, false, Way::PLAIN)?;
            if !left.is_done || !left.holds("out", end.as_slice()) {
                return Ok(false);
            }
        }
    }
    Ok(is_settled(&mut whole, &["out"]))
}

#[test]
fn a_flash_that_stopped_is_completed(rt: HostRuntime) {
    for (n, (command, before)) in ROWS.iter().enumerate() {
        let is_flash = match command {
            Command::Flash => true,
            Command::FlashRaw => true,
            Command::FlashFrom(_) => true,
            Command::FlashRawFrom(_) => true,
            _ => false,
        };
        if is_flash {
            assert!(rt; is_completed(rt, *command, *before) == Ok(true), "row {n}");
        }
    }
}

#[test]
fn what_was_done_with_syncs_is_not_lost(rt: HostRuntime) {
    for (n, (command, before)) in ROWS.iter().enumerate() {
        let task = Task::Sparse(*command, "out", *before);
        let mut left = run(rt, task, &[], true, Way::PLAIN).expect(&rt, "has memory");
        let outputs = ["out", "out.1", "out.2", "out.3", "out.4"];
        assert!(rt; left.is_done && is_settled(&mut left, &outputs), "row {n}");
    }
}

#[test]
fn nor_is_it_of_a_boot_image(rt: HostRuntime) {
    for (n, command) in EACH.iter().enumerate() {
        let task = Task::Boot(*command);
        let mut left = run(rt, task, &[], true, Way::PLAIN).expect(&rt, "has memory");
        assert!(rt;
            left.is_done && is_settled(&mut left, task.written()),
            "row {n}"
        );
    }
}
