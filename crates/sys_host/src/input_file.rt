//! An input that is read forward: a file, or standard input.

ghost use Rattle.std.specs.Io.Buffered.{reader_buffer, reader_capacity, reader_inner, reader_remaining};
ghost use Rattle.std.specs.Prelude.{◌≡◌, ◌<◌, ◌≤◌, false, length, take, drop, IsTrue, is_some, IfOk};
ghost use Rattle.abt_io.specs.Bytes.{AreBytes};
ghost use Rattle.sys_host.specs.Forward.{bytes_of_known, ReaderGoesPast};
ghost use Rattle.sys_host.specs.Left.{left_of, Remains};
ghost use Rattle.sys_host.specs.Opens.{WasOpened};

use crate::open_file::{OpenedFile, not_opened};
use crate::origin::Origin;
use abt_io::{DeviceFault, Input, Tally};
use std::alloc::Global;
use std::io::{BufRead, BufReader, Read};
use sys_disk::{Measured, Reasons};
use sys_file::SystemFile;
use sys_refusals::{FileArg, HostRefusal};

/// A file or standard input. It is read through a buffer, so that one call serves many small reads, such as those of
/// chunk headers. A read of at least the buffer's size, such as those of raw data, bypasses the buffer once it is
/// empty. Skipped bytes are not read: a file that has a position moves it past them.
#[derive(Drop)]
pub struct InputFile<F: SystemFile + Drop> {
    reader: BufReader<Origin<F>>,
    /// The length of a regular file.
    length: Option<u64>,
    calls: Tally,
    count: Tally,
    faults: Tally,
    ghost told: { IsTrue F.models → IsTrue (is_some (reader_remaining (left_of F.models F.stands F.place) reader)) },
    ghost bytes: { IsTrue F.models → AreBytes (bytes_of_known
        (reader_remaining (left_of F.models F.stands F.place) reader)) },
}

impl<F: SystemFile + Drop> InputFile<F> {
    pub(crate) fn standard<'a>(alloc: Global, file: F) -> Result<InputFile<F>, HostRefusal<'a>>
        ensures { IsTrue F.models → IfOk result (λ input. Remains F.models F.stands F.place input.reader
            (drop (F.place file) (F.stands file))) }
    {
        InputFile::buffered(alloc, Origin::stream(file), None)
    }

    pub(crate) fn of_file<'a>(
        alloc: Global,
        opened: OpenedFile<F>,
        place: FileArg<'a>,
    ) -> Result<InputFile<F>, HostRefusal<'a>>
        requires { WasOpened F.models F.stands F.place F.past false opened }
        ensures { IsTrue F.models → IfOk result (λ input. Remains F.models F.stands F.place input.reader
            (F.stands opened.file)) }
    {
        let length = if opened.found.is_file() {
            Some(opened.found.length)
        } else {
            None
        };
        match Origin::of_opened(opened) {
            Ok(origin) => InputFile::buffered(alloc, origin, length),
            Err(error) => Err(not_opened(&error, place)),
        }
    }

    fn buffered<'a>(
        alloc: Global,
        origin: Origin<F>,
        length: Option<u64>,
    ) -> Result<InputFile<F>, HostRefusal<'a>>
        ensures { IsTrue F.models → IfOk result (λ input. Remains F.models F.stands F.place input.reader
            (drop (F.place origin.file) (F.stands origin.file))) }
    {
        match BufReader::new(alloc, origin) {
            Ok(reader) => Ok(InputFile {
                reader,
                length,
                calls: Tally::new(),
                count: Tally::new(),
                faults: Tally::new(),
            }),
            Err(_) => Err(HostRefusal::memory()),
        }
    }

    /// Its bytes, to be read as any others.
    pub(crate) fn into_reader(self) -> BufReader<Origin<F>>
        ensures { result ≡ self.reader }
    {
        self.reader
    }

    /// The file that is read.
    pub fn file(&self) -> &F {
        &self.reader.get_ref().file
    }

    /// Why its last call failed, where one did.
    pub fn why(&self) -> Option<i32> {
        self.reader.get_ref().why
    }
}

impl<F: SystemFile + Drop> Input for InputFile<F> {
    ghost models = { F.models };

    ghost remaining = { λ s. bytes_of_known (reader_remaining (left_of F.models F.stands F.place) s.reader) };

    ghost reads = { λ s. s.calls.number };

    ghost given = { λ s. s.count.number };

    ghost read_faults = { λ s. s.faults.number };

    ghost are_bytes = { λ s t. s.bytes t };

    fn read(&mut self, out: &mut [u8]) -> Result<usize, DeviceFault> {
        self.calls.add(1);
        if take_held(&mut self.reader, out) {
            self.count.add(out.len() as u64);
            return Ok(out.len());
        }
        match self.reader.read(out) {
            Ok(n) => {
                self.count.add(n as u64);
                Ok(n)
            }
            Err(_) => {
                self.faults.add(1);
                Err(DeviceFault::Failed)
            }
        }
    }

    fn pass(&mut self, room: &mut [u8]) -> Result<usize, DeviceFault> {
        let n = passed(&mut self.reader, room.len());
        if n == 0 {
            return self.read(room);
        }
        self.calls.add(1);
        self.count.add(n as u64);
        Ok(n)
    }
}

impl<F: SystemFile + Drop> Reasons for InputFile<F> {
    fn why(&self) -> Option<i32> {
        self.reader.get_ref().why
    }
}

impl<F: SystemFile + Drop> Measured for InputFile<F> {
    fn known_length(&self) -> Option<u64> {
        self.length
    }
}

// Gives the requested bytes if the buffer holds all of them, as it does of most headers: what a read of the reader
// would give.
fn take_held<F: SystemFile + Drop>(reader: &mut BufReader<Origin<F>>, out: &mut [u8]) -> bool
    ensures found { IsTrue result → (0 < length out.old) × (length out.old ≤ length (reader_buffer reader.old)) }
    ensures bytes { IsTrue result → out.new ≡ take (length out.old) (reader_buffer reader.old) }
    ensures rest { IsTrue result → reader_buffer reader.new ≡ drop (length out.old) (reader_buffer reader.old) }
    ensures inner { reader_inner reader.new ≡ reader_inner reader.old }
    ensures capacity { reader_capacity reader.new ≡ reader_capacity reader.old }
    ensures kept { result ≡ false → (out.new ≡ out.old) × (reader.new ≡ reader.old) }
    ensures length { length out.new ≡ length out.old }
{
    let n = out.len();
    if n == 0 {
        return false;
    }
    match reader.buffer().get(..n) {
        Some(held) => out.copy_from_slice(held),
        None => return false,
    }
    reader.consume(n);
    true
}

// Skips bytes that the buffer holds, or if it holds none those that come next: at most this many.
fn passed<F: SystemFile + Drop>(reader: &mut BufReader<Origin<F>>, most: usize) -> usize
    ensures { ReaderGoesPast F.models result most (reader_buffer reader.old) (reader_buffer reader.new)
        (reader_capacity reader.old) (reader_capacity reader.new) (F.stands (reader_inner reader.old).file)
        (F.stands (reader_inner reader.new).file) (F.place (reader_inner reader.old).file)
        (F.place (reader_inner reader.new).file) }
{
    let n = reader.buffer().len().min(most);
    if n == 0 {
        return reader.get_mut().pass(most);
    }
    reader.consume(n);
    n
}
