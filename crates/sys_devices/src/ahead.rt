//! A source that is read ahead: one call of the system serves many small reads, such as those of headers.

ghost use Rattle.std.specs.Prelude.{◌≡◌, ◌<◌, ◌^◌, ℕ, List, IsTrue, IfOk, IfSome, length, take, drop};
ghost use Rattle.std.proofs.Props.{props};
ghost use Rattle.sys_devices.specs.Ahead.{HoldsPart, HoldsBoth, HoldsAny};
ghost use Rattle.sys_devices.specs.Places.{FoundAt};
ghost use Rattle.sys_file.specs.File.{file_bytes, are_bytes_of, ReadsAt};

use crate::held::CachedBytes;
use crate::kept::Kept;
use crate::{AheadFile, FileSource};
use abt_io::{DeviceFault, Source, Tally};
use std::alloc::{AllocError, Global};
use std::io;
use std::rc::Rc;
use sys_file::{SystemFile, read_at};

/// The number of bytes read at once where reads follow one another.
const ROOM: usize = 4096;

/// The number of bytes read ahead at a new offset. It is small, because data that bypasses this buffer may follow.
const FEW: usize = 256;

/// A read of more bytes goes to the file and bypasses the buffer.
const MOST: usize = 256;

/// Two parts of a file that were read ahead. The part before the last one is kept, because whoever copies the data of a
/// chunk has read the header after it already.
#[derive(Drop)]
pub(crate) struct Ahead {
    one: CachedBytes,
    other: CachedBytes,
    /// Which of them was read last.
    is_other_last: bool,
}

impl Ahead {
    /// Nothing is buffered. `None` where there is no memory for the buffer: then each read is made as it is asked for.
    pub(crate) fn new(alloc: Global) -> Option<Ahead>
        ensures { (c : List ℕ) → HoldsAny c result }
    {
        match (CachedBytes::new(alloc, ROOM), CachedBytes::new(alloc, ROOM)) {
            (Ok(one), Ok(other)) => Some(Ahead {
                one,
                other,
                is_other_last: false,
            }),
            _ => None,
        }
    }

    /// Empties the buffer, because the file was written, or may have been.
    pub(crate) fn forget(&mut self)
        ensures { (c : List ℕ) → HoldsBoth c self.new }
    {
        self.one.forget();
        self.other.forget();
    }

    /// Returns the bytes at an offset, if all that are asked for are buffered or can be read ahead. If not, the caller
    /// makes a read of just these bytes: only that read reports a fault, and the end of the file.
    pub(crate) fn give<F: SystemFile>(&mut self, file: &F, at: u64, out: &mut [u8]) -> bool
        requires { IsTrue F.models → HoldsBoth (F.stands file.now) self.old }
        ensures holds { IsTrue F.models → HoldsBoth (F.stands file.now) self.new }
        ensures given { IsTrue F.models → IsTrue result → FoundAt (F.stands file.now) at out.new }
    {
        if out.is_empty() || out.len() > MOST {
            return false;
        }
        if self.one.give(at, out) || self.other.give(at, out) {
            return true;
        }
        self.fill(file, at);
        if self.is_other_last {
            self.other.give(at, out)
        } else {
            self.one.give(at, out)
        }
    }

    /// Reads ahead at an offset, over the part that was read first.
    fn fill<F: SystemFile>(&mut self, file: &F, at: u64)
        ensures { IsTrue F.models → HoldsBoth (F.stands file.now) self.old → HoldsBoth (F.stands file.now) self.new }
    {
        let is_next = if self.is_other_last {
            self.other.leads_to(at)
        } else {
            self.one.leads_to(at)
        };
        let room = if is_next { ROOM } else { FEW };
        self.is_other_last = !self.is_other_last;
        if self.is_other_last {
            self.other.fill(file, at, room);
        } else {
            self.one.fill(file, at, room);
        }
    }
}

/// A file or a block device whose bytes are given unchanged. A read of at most 256 bytes asks for up to 4 KiB, and the
/// buffered rest serves later reads. The bytes that longer reads gave last are kept, so that a raw image is read once,
/// however small its pieces are.
#[derive(Drop)]
pub struct AheadSource<F: SystemFile + Drop> {
    from: Rc<AheadFile<F>>,
    alloc: Global,
    // The buffer, once a read may be served from it.
    ahead: Option<Ahead>,
    kept: Kept,
    reads: Tally,
    given: Tally,
    faults: Tally,
    ghost held: { IsTrue F.models → HoldsAny (file_bytes F.stands from.value.source.file) ahead } by { Prim.hlevel props },
    ghost keeps: { IsTrue F.models → HoldsPart (file_bytes F.stands from.value.source.file) kept.held },
}

impl<F: SystemFile + Drop> AheadSource<F> {
    /// Nothing is buffered.
    pub fn new(alloc: Global, file: FileSource<F>) -> Result<AheadSource<F>, AllocError>
        ensures file { IfOk result (λ source. source.from.value.source ≡ file) }
        ensures clean { IfOk result (λ source. source.faults.number ≡ 0) }
    {
        match Rc::new(alloc, AheadFile::new(file)) {
            Ok(from) => Ok(AheadSource {
                from,
                alloc,
                ahead: None,
                kept: Kept::new(alloc),
                reads: Tally::new(),
                given: Tally::new(),
                faults: Tally::new(),
            }),
            Err(_) => Err(AllocError),
        }
    }

    /// Its file.
    pub fn file(&self) -> &AheadFile<F>
        ensures { result.now ≡ self.now.from.value }
    {
        self.from.as_ref()
    }

    /// The file, for what goes through a spool.
    pub fn shared(&self) -> Result<Rc<AheadFile<F>>, AllocError>
        ensures { IfOk result (λ file. file.value ≡ self.now.from.value) }
    {
        self.from.clone()
    }

    /// A piece begins: what is buffered for small reads is read again before it is given. What is kept of longer reads
    /// is given in the next piece too, so that each byte is read once.
    pub fn forget(&self) {
        self.file().forget();
    }

    /// Restores the initial state: nothing is buffered, and the buffer has no memory until the source is read again.
    pub fn rest(&mut self)
        ensures file { self.new.from.value ≡ self.old.from.value }
        ensures reads { self.new.reads ≡ self.old.reads }
        ensures given { self.new.given ≡ self.old.given }
        ensures faults { self.new.faults ≡ self.old.faults }
    {
        self.ahead = None;
        self.kept = Kept::new(self.alloc);
        self.forget();
    }

    /// The file's present length, if one of these holds: the file is not as it was when it was opened, or it has fewer
    /// bytes than were given of it from memory since the piece began.
    pub fn shorter(&self) -> Option<u64>
        ensures { IsTrue F.models → IfSome result (λ n. n ≡ length
            (file_bytes F.stands self.now.from.value.source.file)) }
    {
        self.file().shorter()
    }
}

impl<F: SystemFile + Drop> Source for AheadSource<F> {
    ghost models = { F.models };

    ghost content = { λ s. file_bytes F.stands s.from.value.source.file };

    ghost size = { λ s. s.from.value.source.size };

    ghost reads = { λ s. s.reads.number };

    ghost given = { λ s. s.given.number };

    ghost read_faults = { λ s. s.faults.number };

    ghost sized = { λ s t. s.from.value.source.sized t };

    ghost are_bytes = { λ s t. are_bytes_of F.stands F.are_bytes s.from.value.source.file t };

    fn length(&self) -> u64 {
        self.file().source.length()
    }

    fn read_at(&mut self, at: u64, out: &mut [u8]) -> Result<usize, DeviceFault> {
        self.reads.add(1);
        match read_of(
            &mut self.ahead,
            &mut self.kept,
            self.alloc,
            self.from.as_ref(),
            at,
            out,
        ) {
            Ok(n) => {
                self.given.add(n as u64);
                Ok(n)
            }
            Err(_) => {
                self.faults.add(1);
                Err(DeviceFault::Failed)
            }
        }
    }
}

// One read of the file, or of what is buffered or kept of it.
fn read_of<F: SystemFile + Drop>(
    ahead: &mut Option<Ahead>,
    kept: &mut Kept,
    alloc: Global,
    from: &AheadFile<F>,
    at: u64,
    out: &mut [u8],
) -> io::Result<usize>
    requires holds { IsTrue F.models → HoldsAny (file_bytes F.stands from.now.source.file) ahead.old }
    requires keeps { IsTrue F.models → HoldsPart (file_bytes F.stands from.now.source.file) kept.old.held }
    ensures holds { IsTrue F.models → HoldsAny (file_bytes F.stands from.now.source.file) ahead.new }
    ensures keeps { IsTrue F.models → HoldsPart (file_bytes F.stands from.now.source.file) kept.new.held }
    ensures reads { ReadsAt F.models (file_bytes F.stands from.now.source.file) result at out.new }
    ensures told { IsTrue F.models → length (file_bytes F.stands from.now.source.file) < 2 ^ 64 }
{
    let _size = from.source.size;
    let Some(file) = &from.source.file else {
        return Ok(0);
    };
    if given_of(ahead, alloc, from, file, at, out) {
        return Ok(out.len());
    }
    match kept.give(alloc, file, at, out) {
        Ok(0) => read_at(file, at, out),
        Ok(n) => {
            from.gave(at.saturating_add(n as u64));
            Ok(n)
        }
        Err(error) => Err(error),
    }
}

// Gives the bytes at an offset from the buffer, if it has all of them. The first small read allocates the buffer. Where
// there is no memory for it, each read is made as it is asked for.
fn given_of<F: SystemFile + Drop>(
    ahead: &mut Option<Ahead>,
    alloc: Global,
    from: &AheadFile<F>,
    file: &F,
    at: u64,
    out: &mut [u8],
) -> bool
    requires { IsTrue F.models → HoldsAny (F.stands file.now) ahead.old }
    ensures holds { IsTrue F.models → HoldsAny (F.stands file.now) ahead.new }
    ensures given { IsTrue F.models → IsTrue result → FoundAt (F.stands file.now) at out.new }
{
    if out.is_empty() || out.len() > MOST {
        return false;
    }
    if ahead.is_none() {
        *ahead = Ahead::new(alloc);
    }
    let Some(ahead) = ahead else {
        return false;
    };
    if from.is_old() {
        ahead.forget();
    }
    if !ahead.give(file, at, out) {
        return false;
    }
    from.gave(at.saturating_add(out.len() as u64));
    true
}

/// One read of a file, or of what is buffered of it.
pub(crate) fn read_ahead<F: SystemFile>(
    ahead: &mut Option<Ahead>,
    file: &F,
    at: u64,
    out: &mut [u8],
) -> io::Result<usize>
    requires { IsTrue F.models → HoldsAny (F.stands file.now) ahead.old }
    ensures holds { IsTrue F.models → HoldsAny (F.stands file.now) ahead.new }
    ensures reads { ReadsAt F.models (F.stands file.now) result at out.new }
{
    if let Some(ahead) = ahead
        && ahead.give(file, at, out)
    {
        return Ok(out.len());
    }
    read_at(file, at, out)
}

/// The bytes that were read ahead are no longer valid.
pub(crate) fn forget(ahead: &mut Option<Ahead>)
    ensures { (c : List ℕ) → HoldsAny c ahead.new }
{
    if let Some(ahead) = ahead {
        ahead.forget();
    }
}
