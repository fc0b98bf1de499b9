//! The files that were opened to be read, as they were then: whether one of them has changed, or is an output by now.

use crate::descriptors::INPUT;
use crate::identity::{Found, Identity, found_at, found_of};
use std::alloc::{AllocError, Global};
use sys_file::System;
use sys_refusals::FileArg;

// No file is open under this descriptor.
const CLOSED: i32 = -1;

/// A file that was opened to be read.
#[derive(Clone, Copy, Drop)]
struct ReadFile {
    descriptor: i32,
    /// The word that named it, and its path.
    place: FileArg<'static>,
    /// Whether that path leads to it: standard input has none.
    has_path: bool,
    /// What it was when it was opened.
    found: Found,
}

impl ReadFile {
    // Whether a regular file that is open is not as it was when it was opened, as far as the system reports it.
    fn is_changed<S: System>(&self, system: &S) -> bool {
        if self.descriptor == CLOSED || !self.found.is_file() {
            return false;
        }
        let was = self.found;
        match self.found_now(system) {
            Some(now) if now.identity == was.identity => {
                now.length != was.length || now.modified != was.modified
            }
            _ => false,
        }
    }

    // What is open now, or if the system does not show that, what its path leads to.
    fn found_now<S: System>(&self, system: &S) -> Option<Found> {
        match found_of(system, self.descriptor) {
            Ok(now) => Some(now),
            Err(_) if self.has_path => found_at(system, self.place.name).ok(),
            Err(_) => None,
        }
    }

    // Whether it is this file by now, which is open under a descriptor of its own.
    fn is_now<S: System>(&self, system: &S, identity: Identity, own: i32) -> bool {
        self.is_open_as(system, identity, own) || self.is_named_as(system, identity)
    }

    fn is_open_as<S: System>(&self, system: &S, identity: Identity, own: i32) -> bool {
        if self.descriptor == CLOSED || self.descriptor == own {
            return false;
        }
        match found_of(system, self.descriptor) {
            Ok(now) => now.identity == identity,
            Err(_) => false,
        }
    }

    fn is_named_as<S: System>(&self, system: &S, identity: Identity) -> bool {
        if !self.has_path {
            return false;
        }
        match found_at(system, self.place.name) {
            Ok(now) => now.identity == identity,
            Err(_) => false,
        }
    }
}

/// All files that were opened to be read.
#[derive(Drop)]
pub struct ReadFiles {
    alloc: Global,
    files: Vec<ReadFile>,
    // A file that had changed when it was closed.
    changed: Option<FileArg<'static>>,
}

impl ReadFiles {
    /// None.
    pub fn new(alloc: Global) -> ReadFiles {
        ReadFiles {
            alloc,
            files: Vec::new(alloc),
            changed: None,
        }
    }

    /// One more, which is open under this descriptor.
    pub fn add(
        &mut self,
        descriptor: i32,
        place: FileArg<'_>,
        found: Found,
    ) -> Result<(), AllocError> {
        self.forget(descriptor);
        let kept = kept_place(self.alloc, place)?;
        self.push(ReadFile {
            descriptor,
            place: kept,
            has_path: descriptor != INPUT,
            found,
        })
    }

    /// The same file is open under one more descriptor.
    pub fn add_again(&mut self, first: i32, second: i32) -> Result<(), AllocError> {
        self.forget(second);
        match self.under(first) {
            Some(file) => self.push(ReadFile {
                descriptor: second,
                ..file
            }),
            None => Ok(()),
        }
    }

    // What is open under this descriptor.
    fn under(&self, descriptor: i32) -> Option<ReadFile> {
        for file in self.files.iter() {
            if file.descriptor == descriptor {
                return Some(*file);
            }
        }
        None
    }

    fn push(&mut self, file: ReadFile) -> Result<(), AllocError> {
        match self.files.push(file) {
            Ok(()) => Ok(()),
            Err(_) => Err(AllocError),
        }
    }

    // The file that was open under this descriptor is not open any more.
    fn forget(&mut self, descriptor: i32) {
        for file in self.files.iter_mut() {
            if file.descriptor == descriptor {
                file.descriptor = CLOSED;
            }
        }
    }

    /// Examines again the file that is open under this descriptor, which is going to be closed.
    pub fn let_go<S: System>(&mut self, system: &S, descriptor: i32) {
        if let Some(file) = self.under(descriptor)
            && file.is_changed(system)
        {
            self.changed = Some(file.place);
        }
        self.forget(descriptor);
    }

    /// A file that has changed since it was opened: it had changed when it was closed, or is open and has changed by
    /// now.
    pub fn changed<S: System>(&self, system: &S) -> Option<FileArg<'static>> {
        if self.changed.is_some() {
            return self.changed;
        }
        for file in self.files.iter() {
            if file.is_changed(system) {
                return Some(file.place);
            }
        }
        None
    }

    /// Whether one of them is this file by now, which is open under a descriptor of its own: opening it to be written
    /// may have changed it.
    pub fn is_one_now<S: System>(&self, system: &S, identity: Identity, own: i32) -> bool {
        for file in self.files.iter() {
            if file.is_now(system, identity, own) {
                return true;
            }
        }
        false
    }
}

// A place that lasts as long as the program does, for a message at the end of the work.
fn kept_place(alloc: Global, place: FileArg<'_>) -> Result<FileArg<'static>, AllocError> {
    let role = String::from_str(alloc, place.role)?;
    let path = place.path(alloc)?;
    Ok(FileArg {
        role: kept(role),
        folder: None,
        name: kept(path),
        number: None,
    })
}

fn kept(text: String) -> &'static str {
    let bytes: &'static mut [u8] = text.into_bytes().leak();
    match str::from_utf8(bytes) {
        Ok(text) => text,
        Err(_) => "",
    }
}
