//! The files of a system in memory: which file a path leads to, and what each file holds.

ghost use Rattle.std.specs.Prelude.{
  ◌≡◌,
  ◌<◌,
  ◌++◌,
  ◌∷◌,
  [],
  None,
  Some,
  IfOk,
  IfSome,
  OnOk,
  OnErr,
  length,
  string_bytes,
};
ghost use Rattle.sys_file.specs.System.{ClosesFile, HasStreams};
ghost use Rattle.mem_files.specs.Stored.{leads};
ghost use Rattle.mem_system.specs.Table.{MayLead, stored_in};

use mem_files::{MemoryFile, MemoryPath, file_at};
use std::alloc::{AllocError, Global};

/// The numbers of the files that standard input and standard output are.
pub const INPUT: u64 = 0;

pub const OUTPUT: u64 = 1;

// How many files there are. Those that no path leads to are empty.
const FILES: usize = 64;

/// Paths and files.
#[derive(Drop)]
pub struct Table {
    pub(crate) alloc: Global,
    pub paths: Vec<MemoryPath>,
    pub files: Vec<MemoryFile>,
    // How many files paths lead to.
    used: u64,
    pub ghost streams: { HasStreams 0 1 (leads paths.items) },
    pub ghost room: { length files.items ≡ 64 },
    // Nothing is ever written to standard input.
    pub ghost quiet: { stored_in files.items 0 ≡ [] },
}

impl Table {
    /// Two empty files, at the paths of standard input and standard output.
    pub fn new(alloc: Global) -> Option<Table> {
        let mut files = Vec::new(alloc);
        for _ in 0..FILES {
            let bytes = Vec::new(alloc);
            files.push(MemoryFile { bytes }).ok()?;
        }
        Some(Table {
            alloc,
            paths: streams(alloc).ok()?,
            files,
            used: 2,
        })
    }

    /// The file that this path leads to.
    pub fn number_at(&self, path: &str) -> Option<u64>
        ensures { result ≡ leads self.now.paths.items path.now }
    {
        file_at(self.paths.as_slice(), path)
    }

    /// The content of a file. None, if there is no memory for a copy, or no such file.
    pub fn copy_of(&self, file: u64) -> Option<Vec<u8>>
        ensures bytes { IfSome result (λ bytes. bytes.items ≡ stored_in self.now.files.items file) }
        ensures below { IfSome result (λ _. file < 64) }
    {
        let stored = self.files.as_slice().get(file as usize)?;
        Vec::from_slice(self.alloc, stored.bytes.as_slice()).ok()
    }

    /// How many bytes a file holds.
    pub fn length_of(&self, file: u64) -> u64 {
        match self.files.as_slice().get(file as usize) {
            Some(stored) => stored.bytes.len() as u64,
            None => 0,
        }
    }

    /// The number that a file gets which is created. None, if there are as many files as there can be.
    pub fn next_number(&self) -> Option<u64> {
        if self.used < self.files.len() as u64 {
            return Some(self.used);
        }
        None
    }

    /// A path leads to a file that holds these bytes. Files are counted from 0, the streams left out. Two paths with one
    /// number lead to one file. Fails if the path leads to a file already, or if there are as many files as there can be.
    pub fn add(&mut self, path: &str, number: u64, bytes: &[u8]) -> Result<(), AllocError> {
        let bytes = Vec::from_slice(self.alloc, bytes)?;
        let file = number.saturating_add(2);
        if file >= FILES as u64 || self.number_at(path).is_some() {
            return Err(AllocError);
        }
        self.lead(path, file)?;
        self.store(file, bytes);
        Ok(())
    }

    /// A path that led nowhere leads to this file.
    pub fn lead(&mut self, path: &str, file: u64) -> Result<(), AllocError>
        requires { leads self.old.paths.items path.now ≡ None }
        ensures there { OnOk result (leads self.new.paths.items path.now ≡ Some file) }
        ensures others { MayLead (leads self.old.paths.items) (leads self.new.paths.items) }
        ensures kept { OnErr result (leads self.new.paths.items ≡ leads self.old.paths.items) }
        ensures files { self.new.files ≡ self.old.files }
    {
        let Ok(name) = String::from_str(self.alloc, path) else {
            return Err(AllocError);
        };
        self.used = self.used.max(file.saturating_add(1));
        push(&mut self.paths, name, file)
    }

    /// A file holds these bytes from now on.
    pub fn store(&mut self, file: u64, bytes: Vec<u8>)
        requires below { file < 64 }
        requires quiet { file ≡ 0 → bytes.items ≡ [] }
        ensures { ClosesFile file bytes.items (leads self.old.paths.items) (leads self.new.paths.items)
            (stored_in self.old.files.items) (stored_in self.new.files.items) }
    {
        self.files[file as usize] = MemoryFile { bytes };
    }
}

// The paths of standard input and standard output.
fn streams(alloc: Global) -> Result<Vec<MemoryPath>, AllocError>
    ensures { IfOk result (λ paths. HasStreams 0 1 (leads paths.items)) }
{
    let mut paths = Vec::new(alloc);
    let input = String::from_str(alloc, "/dev/stdin")?;
    push(&mut paths, input, INPUT)?;
    let output = String::from_str(alloc, "/dev/stdout")?;
    push(&mut paths, output, OUTPUT)?;
    Ok(paths)
}

// A path more.
fn push(paths: &mut Vec<MemoryPath>, name: String, file: u64) -> Result<(), AllocError>
    ensures more { OnOk result (paths.new.items ≡ paths.old.items ++ (record { name = name; file = file } ∷ [])) }
    ensures kept { OnErr result (paths.new.items ≡ paths.old.items) }
    ensures others { MayLead (leads paths.old.items) (leads paths.new.items) }
    ensures there { leads paths.old.items (string_bytes name) ≡ None → OnOk result (leads paths.new.items
        (string_bytes name) ≡ Some file) }
{
    let Ok(()) = paths.push(MemoryPath { name, file }) else {
        return Err(AllocError);
    };
    Ok(())
}
