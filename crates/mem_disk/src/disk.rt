//! A disk in memory, which models its files.

ghost use Rattle.std.specs.Prelude.{◌≡◌, ◌<◌, ℕ, [], Some, None, length};

use crate::{Counted, Faults};
use abt_io::Tally;
use mem_files::{MemoryFile, MemoryPath};
use std::alloc::Global;

/// Files in memory, and the paths that lead to them.
#[derive(Drop)]
pub struct MemoryDisk {
    pub(crate) alloc: Global,
    pub paths: Vec<MemoryPath>,
    pub files: Vec<MemoryFile>,
    pub(crate) faults: Faults,
    pub(crate) read: Vec<u64>,
    pub(crate) begun: Vec<u64>,
    pub(crate) output: Option<u64>,
    pub(crate) part: Option<u64>,
    pub(crate) spool: Option<u64>,
    pub(crate) keeps: bool,
    pub(crate) is_synced: bool,
    pub(crate) syncs: Tally,
    /// Whether the device at `/dev/in-use` may be written.
    pub allows_mounted: bool,
    /// What contracts count.
    pub(crate) counted: Counted,
    /// How often a call failed, or a device failed that was given back, as far as the number goes.
    pub failed: u64,
    /// The open output is a file.
    ghost there: { (file : ℕ) → output ≡ Some file → file < length files.items },
    /// What is open in place is one.
    ghost in_place: { (file : ℕ) → part ≡ Some file → file < length files.items },
}

impl MemoryDisk {
    /// No file is open.
    pub fn new(
        alloc: Global,
        paths: Vec<MemoryPath>,
        files: Vec<MemoryFile>,
        is_synced: bool,
        faults: Faults,
    ) -> MemoryDisk
        ensures read { result.read.items ≡ [] }
        ensures begun { result.begun.items ≡ [] }
        ensures output { result.output ≡ None }
        ensures part { result.part ≡ None }
        ensures spool { result.spool ≡ None }
        ensures paths { result.paths ≡ paths }
        ensures files { result.files ≡ files }
    {
        MemoryDisk {
            alloc,
            paths,
            files,
            faults,
            read: Vec::new(alloc),
            begun: Vec::new(alloc),
            output: None,
            part: None,
            spool: None,
            keeps: false,
            is_synced,
            syncs: Tally::new(),
            allows_mounted: false,
            counted: Counted::new(),
            failed: 0,
        }
    }
}
