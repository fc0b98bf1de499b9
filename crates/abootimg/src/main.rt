//! The program `abootimg`: a toolkit for Android sparse images and boot images on the command line.
//!
//! | file | has |
//! |---|---|
//! | `main.rt` | the standard streams, the window, and the words |
//! | `running.rt` | doing what the words ask for, and the exit status |
//! | `beginning.rt` | the settings of all outputs, before a command begins |
//! | `tool.rt` | the same under the name of one of AOSP's tools |
//! | `turns.rt` | the orders of a tool, one after the other |
//! | `storage.rt` | where the files of a run are |
//! | `image_id.rt` | printing the id of a boot image |
//! | `unpack_image.rt` | unpacking an image as unpack_bootimg does |
//! | `unpack_links.rt`, `unpack_steps.rt` | its links, and what its steps share |
//! | `sparse_task.rt`, `boot_task.rt` | doing a task, over any disk |
//! | `outcome.rt` | the exit status and message of a command's result |
#![tactic(auto)]

mod beginning;
mod boot_task;
mod image_id;
mod outcome;
mod running;
mod sparse_task;
mod storage;
mod tool;
mod turns;
mod unpack_image;
mod unpack_links;
mod unpack_steps;

use abt_io::{Meter, Window};
use running::{demonstrate, run};
use std::fs::{File, OpenOptions};
use std::os::fd::{AsRawFd, IntoRawFd};
use std::process::ExitCode;
use std::{env, io};
use sys_host::{REFUSED, USAGE};
use sys_report::Report;
use tool::run_tool;
use words_tools::called;

fn main(rt: HostRuntime) -> ExitCode {
    hold_standard_streams(rt);
    ExitCode::from(start(rt))
}

// Opens each standard stream that is closed on the null device, so that no file of the user's takes its place.
fn hold_standard_streams(rt: HostRuntime) {
    for _stream in 0..3 {
        let Ok(file) = null_device(rt) else {
            return;
        };
        if file.as_raw_fd() > 2 {
            return;
        }
        let _ = file.into_raw_fd();
    }
}

fn null_device(rt: HostRuntime) -> io::Result<File> {
    let mut how = OpenOptions::new();
    how.read(true).write(true).open(&rt, "/dev/null")
}

// Puts the window on the heap once, and does what the words ask for: as a tool of AOSP if they call one, or without
// words the demonstration.
fn start(rt: HostRuntime) -> u8 {
    let mut report = Report::new(rt);
    let Ok(mut window) = Box::new(rt.alloc(), Window::new()) else {
        return no_memory(&mut report);
    };
    let w = &mut *window;
    let mut m = Meter::new();
    let args = match env::args(&rt) {
        Ok(args) => args,
        Err(error) => return unread(&error, &mut report),
    };
    let Ok(words) = args.collect::<Vec<String>>(rt.alloc()) else {
        return no_memory(&mut report);
    };
    let words = words.as_slice();
    match called(words) {
        Some((tool, words)) => run_tool(rt, tool, words, &mut report, w, &mut m),
        None if words.len() < 2 => demonstrate(rt, &mut report, w, &mut m),
        None => run(rt, words, &mut report, w, &mut m),
    }
}

// The words can't be read: an allocation failed, or one of them isn't text.
fn unread(error: &io::Error, report: &mut Report) -> u8 {
    if error.kind() == io::ErrorKind::OutOfMemory {
        return no_memory(report);
    }
    report.note("abootimg: a word of the command line is not valid UTF-8");
    USAGE
}

fn no_memory(report: &mut Report) -> u8 {
    report.note("abootimg: memory");
    REFUSED
}
