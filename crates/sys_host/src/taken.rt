//! The files that no output may be.

ghost use Rattle.std.specs.Prelude.{◌≡◌, ◌≤◌, ◌↔◌, [], IsTrue, IfOk, OnOk, OnErr, Contains, length};
ghost use Rattle.sys_devices.specs.Writes.{LeavesNoMagic};
ghost use Rattle.sys_file.specs.declared.stat.Kind.{Kind};
ghost use Rattle.sys_host.specs.Taken.{Forbidden, Adds};

use std::alloc::{AllocError, Global};
use std::io;
use sys_file::{SystemFile, write_all};
use sys_identity::{Found, Identity};

/// The inputs, and the outputs so far: no further output may be one of them.
#[derive(Drop)]
pub struct Taken {
    pub files: Vec<Identity>,
}

impl Taken {
    pub fn new(alloc: Global) -> Taken
        ensures { result.files.items ≡ [] }
    {
        Taken {
            files: Vec::new(alloc),
        }
    }

    /// Whether an output must not be this file: it holds data, and is one of these.
    pub fn forbids(&self, identity: Identity) -> bool
        ensures { IsTrue result ↔ Forbidden self.now identity }
    {
        identity.holds_data && self.files.as_slice().contains(&identity)
    }

    /// No further output may be this file.
    pub fn take(&mut self, identity: Identity) -> Result<(), AllocError>
        ensures taken { OnOk result (Adds self.old self.new identity) }
        ensures kept { OnErr result (self.new.files.items ≡ self.old.files.items) }
    {
        match self.files.push(identity) {
            Ok(()) => Ok(()),
            Err(_) => Err(AllocError),
        }
    }

    /// Empties a file that is one of these; for a pipe and a device there is nothing to do.
    pub(crate) fn empty<F: SystemFile>(&self, file: &mut F, found: Found) -> io::Result<()>
        requires taken { Contains self.now.files.items found.identity }
        requires long { IsTrue F.models → found.kind ≡ Kind.File → found.length ≡ length (F.stands file.old) }
        requires blank { IsTrue F.models → ¬ (found.kind ≡ Kind.File) → F.stands file.old ≡ [] }
        ensures empty { OnOk result (IsTrue F.models → F.stands file.new ≡ []) }
        ensures place { IsTrue F.models → F.place file.new ≡ F.place file.old }
        ensures past { IsTrue F.models → F.past file.new ≡ F.past file.old }
    {
        if found.is_file() && found.length > 0 {
            file.set_len(0)
        } else {
            Ok(())
        }
    }

    /// Writes zeros over the first four bytes of a file that is one of these, so that it is no image, and returns the
    /// file's length. A file with fewer bytes, or with more than `most`, or that does not take the zeros, is emptied.
    pub(crate) fn blank<F: SystemFile>(
        &self,
        file: &mut F,
        found: Found,
        most: u64,
    ) -> io::Result<u64>
        requires taken { Contains self.now.files.items found.identity }
        requires long { IsTrue F.models → found.kind ≡ Kind.File → found.length ≡ length (F.stands file.old) }
        requires blank { IsTrue F.models → ¬ (found.kind ≡ Kind.File) → F.stands file.old ≡ [] }
        ensures most { IfOk result (λ stands. stands ≤ most) }
        ensures long { IsTrue F.models → IfOk result (λ stands. length (F.stands file.new) ≤ stands) }
        ensures no_magic { IsTrue F.models → OnOk result (LeavesNoMagic (F.stands file.new)) }
    {
        if !found.is_file() || found.length < 4 || found.length > most {
            self.empty(file, found)?;
            return Ok(0);
        }
        file.set_len(found.length)?;
        if write_all(file, 0, &[0; 4]).is_ok() {
            return Ok(found.length);
        }
        file.set_len(0)?;
        Ok(0)
    }
}
