//! A file or a block device that is read at any offset. Each call makes one read of the file, without a buffer.

ghost use Rattle.std.specs.Prelude.{◌≡◌, ◌<◌, ◌^◌, [], IsTrue, IfOk, IsSome, length};
ghost use Rattle.sys_file.specs.File.{ReadsAt, are_bytes_of, file_bytes};

use abt_io::{DeviceFault, Source, Tally};
use std::io;
use sys_file::{SystemFile, read_at};

/// A file or a block device to read from, or nothing at all.
#[derive(Drop)]
pub struct FileSource<F: SystemFile + Drop> {
    pub file: Option<F>,
    pub size: u64,
    pub reads: Tally,
    pub given: Tally,
    pub faults: Tally,
    pub ghost sized: { IsTrue F.models → size ≡ length (file_bytes F.stands file) },
}

impl<F: SystemFile + Drop> FileSource<F> {
    /// Takes the file's length, once. On an error the file is dropped.
    pub fn new(file: F) -> Result<FileSource<F>, DeviceFault>
        ensures begins { IfOk result (λ s. (s.reads.number ≡ 0) × (s.given.number ≡ 0) × (s.faults.number ≡ 0)) }
        ensures kept { IfOk result (λ s. IsSome s.file) }
        ensures bytes { IfOk result (λ s. file_bytes F.stands s.file ≡ F.stands file) }
    {
        match file.length() {
            Ok(size) => Ok(FileSource {
                file: Some(file),
                size,
                reads: Tally::new(),
                given: Tally::new(),
                faults: Tally::new(),
            }),
            Err(_) => Err(DeviceFault::Failed),
        }
    }

    /// A source of length 0 without a file.
    pub fn empty() -> FileSource<F>
        ensures size { result.size ≡ 0 }
        ensures bytes { file_bytes F.stands result.file ≡ [] }
    {
        FileSource {
            file: None,
            size: 0,
            reads: Tally::new(),
            given: Tally::new(),
            faults: Tally::new(),
        }
    }
}

impl<F: SystemFile + Drop> Source for FileSource<F> {
    ghost models = { F.models };

    ghost content = { λ s. file_bytes F.stands s.file };

    ghost size = { λ s. s.size };

    ghost reads = { λ s. s.reads.number };

    ghost given = { λ s. s.given.number };

    ghost read_faults = { λ s. s.faults.number };

    ghost sized = { λ s t. s.sized t };

    ghost are_bytes = { λ s t. are_bytes_of F.stands F.are_bytes s.file t };

    fn length(&self) -> u64 {
        self.size
    }

    fn read_at(&mut self, at: u64, out: &mut [u8]) -> Result<usize, DeviceFault> {
        self.reads.add(1);
        match read_of(&self.file, self.size, at, out) {
            Ok(n) => {
                self.given.add(n as u64);
                Ok(n)
            }
            Err(_) => {
                self.faults.add(1);
                Err(DeviceFault::Failed)
            }
        }
    }
}

// One read of a file of this length; nothing is read where there is none.
fn read_of<F: SystemFile>(
    file: &Option<F>,
    _size: u64,
    at: u64,
    out: &mut [u8],
) -> io::Result<usize>
    requires { IsTrue F.models → _size ≡ length (file_bytes F.stands file.now) }
    ensures reads { ReadsAt F.models (file_bytes F.stands file.now) result at out.new }
    ensures told { IsTrue F.models → length (file_bytes F.stands file.now) < 2 ^ 64 }
{
    match file {
        Some(file) => read_at(file, at, out),
        None => Ok(0),
    }
}
