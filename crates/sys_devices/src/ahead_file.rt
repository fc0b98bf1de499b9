//! A file that is read ahead, and the check that it still has what was given of it from memory.

ghost use Rattle.std.specs.Prelude.{◌≡◌, IsTrue, IfSome, length};
ghost use Rattle.sys_file.specs.File.{file_bytes};

use crate::FileSource;
use std::cell::Cell;
use sys_file::{Stamp, SystemFile};

/// A file or a block device whose small reads are served from earlier reads. The file may no longer hold what it gave
/// so. Therefore it is checked once for each piece, at the piece's end, by `shorter` or by `is_changed`.
#[derive(Drop)]
pub struct AheadFile<F: SystemFile + Drop> {
    pub source: FileSource<F>,
    // As it was opened, if it is a regular file.
    opened: Option<Stamp>,
    // The end of the bytes that were given from memory.
    reached: Cell<u64>,
    // What is buffered is not to be given any more.
    is_old: Cell<bool>,
}

impl<F: SystemFile + Drop> AheadFile<F> {
    /// Nothing of it is buffered.
    pub fn new(source: FileSource<F>) -> AheadFile<F>
        ensures { result.source ≡ source }
    {
        let opened = stamp_of(&source);
        AheadFile {
            source,
            opened,
            reached: Cell::new(0),
            is_old: Cell::new(false),
        }
    }

    /// A piece begins: what is buffered of the file is read again before it is given.
    pub fn forget(&self) {
        self.is_old.set(true);
        self.reached.set(0);
    }

    /// The file's present length, if that is less than what was given of it from memory since the piece began.
    pub fn shorter(&self) -> Option<u64>
        ensures { IsTrue F.models → IfSome result (λ n. n ≡ length (file_bytes F.stands self.now.source.file)) }
    {
        let reached = self.reached.get();
        if reached == 0 {
            return None;
        }
        match stamp_of(&self.source) {
            Some(now) if now.length < reached => Some(now.length),
            _ => None,
        }
    }

    /// Whether a regular file is not as it was when it was opened: it has another length, or another time of
    /// modification.
    pub fn is_changed(&self) -> bool {
        match (self.opened, stamp_of(&self.source)) {
            (Some(opened), Some(now)) => {
                now.length != opened.length
                    || now.second != opened.second
                    || now.nanosecond != opened.nanosecond
            }
            _ => false,
        }
    }

    // Bytes up to this place were given from memory.
    pub(crate) fn gave(&self, end: u64) {
        if end > self.reached.get() {
            self.reached.set(end);
        }
    }

    // Whether what is held is to be forgotten.
    pub(crate) fn is_old(&self) -> bool {
        self.is_old.replace(false)
    }
}

// As the file is now, if it is a regular file.
fn stamp_of<F: SystemFile + Drop>(source: &FileSource<F>) -> Option<Stamp>
    ensures { IsTrue F.models → IfSome result (λ s. s.length ≡ length (file_bytes F.stands source.now.file)) }
{
    match &source.file {
        Some(file) => file.stamp(),
        None => None,
    }
}
