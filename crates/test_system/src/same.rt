//! What each command leaves where no call fails: also if reads and writes move few bytes, or are interrupted.

use crate::commands::{STREAMED, Task, run};
use mem_system::Way;
use mem_test_boot_commands::EACH;
use mem_test_commands::ROWS;

// IN has two more names, of which one is that of a piece.
const UNTOUCHED: [&str; 3] = ["in", "link", "link.1"];

const WAYS: [Way; 5] = [
    Way {
        most: 1,
        ..Way::PLAIN
    },
    Way {
        most: 7,
        ..Way::PLAIN
    },
    Way {
        interrupted: 2,
        ..Way::PLAIN
    },
    Way {
        interrupted: 3,
        ..Way::PLAIN
    },
    Way {
        most: 5,
        interrupted: 2,
        ..Way::PLAIN
    },
];

#[test]
fn each_command_is_done(rt: HostRuntime) {
    for (n, (command, before)) in ROWS.iter().enumerate() {
        let task = Task::Sparse(*command, "out", *before);
        let mut left = run(rt, task, &[], true, Way::PLAIN).expect(&rt, "has memory");
        assert!(rt; left.is_done, "row {n}");
        for path in UNTOUCHED.iter() {
            assert!(rt; left.holds(path, before.0), "row {n}");
        }
    }
}

/// Whether a command leaves the same in each way.
fn is_same(rt: HostRuntime, task: Task) -> Option<bool> {
    let mut whole = run(rt, task, &[], true, Way::PLAIN).ok()?;
    for way in WAYS.iter() {
        let mut left = run(rt, task, &[], true, *way).ok()?;
        if left.is_done != whole.is_done || !left.is_same(&mut whole, task.written()) {
            return Some(false);
        }
    }
    Some(true)
}

#[test]
fn few_bytes_and_signals_change_nothing(rt: HostRuntime) {
    for (n, (command, before)) in ROWS.iter().enumerate() {
        let task = Task::Sparse(*command, "out", *before);
        assert!(rt; is_same(rt, task) == Some(true), "row {n}");
    }
}

#[test]
fn nor_where_images_are_boot_images(rt: HostRuntime) {
    for (n, command) in EACH.iter().enumerate() {
        assert!(rt; is_same(rt, Task::Boot(*command)) == Some(true), "row {n}");
    }
}

#[test]
fn standard_output_gets_what_a_file_gets(rt: HostRuntime) {
    for (n, (command, before)) in STREAMED.iter().enumerate() {
        let task = Task::Sparse(*command, "out", *before);
        let mut file = run(rt, task, &[], false, Way::PLAIN).expect(&rt, "has memory");
        let bytes = file.copy_at("out").expect(&rt, "has memory");
        for way in WAYS.iter() {
            let task = Task::Sparse(*command, "-", *before);
            let mut stream = run(rt, task, &[], false, *way).expect(&rt, "has memory");
            assert!(rt; stream.is_done, "row {n}");
            assert!(rt; stream.holds("/dev/stdout", bytes.as_slice()), "row {n}");
        }
    }
}
