//! The targets of writes: an output that is written from its beginning on, a file with holes for its zeros, or a file
//! with a buffer.

ghost use Rattle.std.specs.Prelude.{◌≡◌, ◌≤◌, ◌++◌, ℕ, List, IsTrue, false, replicate, IfOk, IfErr, OnOk};
ghost use Rattle.sys_file.specs.File.{Begins};
ghost use Rattle.sys_finish.specs.Ends.{EndsWith};
ghost use Rattle.sys_finish.specs.Follows.{Follows, HoldsNothing, PutsFront, PutsBelow, is_marred};
ghost use Rattle.sys_outputs.specs.Given.{LetsFileGo};

use abt_io::Log;
use std::io;
use sys_file::SystemFile;
use sys_outputs::{HeldFile, HoleFile, StreamFile};

// A hole has at least this many bytes.
const PAGE: u64 = 4096;

#[derive(Drop)]
pub(crate) enum Target<F: SystemFile + Drop> {
    /// A file, a pipe or a device, which is given all bytes.
    Stream(StreamFile<F>),
    /// A regular file that was just created or emptied. Zeros are a hole, which takes no room and no time. After every
    /// call that did not fail it holds exactly what was written.
    Holes(HoleFile<F>),
    /// A regular file that was just created or emptied. What it was given last is buffered.
    Held(HeldFile<F>),
}

/// A finished output.
#[derive(Drop)]
pub struct Ended<F> {
    /// All that it was given.
    pub sent: Log,
    /// The file that holds it.
    pub file: F,
}

impl<F: SystemFile + Drop> Target<F> {
    /// One write, which is repeated when a signal interrupts it.
    pub(crate) fn put(&mut self, bytes: &[u8]) -> io::Result<usize>
        ensures { PutsFront result bytes.now self.old self.new }
    {
        match self {
            Target::Stream(stream) => stream.put(bytes),
            Target::Holes(holes) => holes.put(bytes),
            Target::Held(held) => held.put(bytes),
        }
    }

    /// One write over the bytes at an offset. On a failure it returns the number of the system's error.
    pub(crate) fn put_over(&mut self, at: u64, bytes: &[u8]) -> Result<usize, Option<i32>>
        ensures { PutsBelow result at bytes.now self.old self.new }
    {
        match self {
            Target::Stream(stream) => stream.put_over(at, bytes),
            Target::Holes(holes) => holes.put_over(at, bytes),
            Target::Held(held) => held.put_over(at, bytes),
        }
    }

    /// Whether this many zeros may be a hole.
    pub(crate) fn takes_hole(&self, n: u64) -> bool {
        match self {
            Target::Holes(_) => n >= PAGE,
            Target::Stream(_) => false,
            Target::Held(_) => false,
        }
    }

    /// Extends the file by a hole of at most this many zeros, and returns how many: 0 if that fails.
    pub(crate) fn lay_hole(&mut self, n: u64) -> u64
        ensures within { result ≤ n }
        ensures laid { (given : List ℕ) → Follows self.old given → Follows self.new (given ++ replicate result 0) }
        ensures still { is_marred self.new ≡ is_marred self.old }
    {
        match self {
            Target::Holes(holes) => holes.lay_hole(n),
            Target::Stream(_) => 0,
            Target::Held(_) => 0,
        }
    }

    /// Writes all that is buffered.
    pub(crate) fn settle(&mut self) -> io::Result<()>
        ensures none { OnOk result (HoldsNothing self.new) }
        ensures kept { (given : List ℕ) → Follows self.old given → Follows self.new given }
        ensures still { is_marred self.new ≡ is_marred self.old }
    {
        match self {
            Target::Stream(_) => Ok(()),
            Target::Holes(_) => Ok(()),
            Target::Held(held) => held.settle(),
        }
    }

    /// The file as it is, and whether it holds all that it was given.
    pub(crate) fn let_go(self) -> (F, bool)
        ensures { (given : List ℕ) → Follows self given → LetsFileGo F.models (F.stands result.0) result.1 (is_marred self)
            given }
    {
        match self {
            Target::Stream(stream) => stream.let_go(),
            Target::Holes(holes) => holes.let_go(),
            Target::Held(held) => held.let_go(),
        }
    }

    /// Writes all that is buffered, and syncs it if that is wanted. Returns all that it was given, which is this log,
    /// and its file. On a failure it returns the file as it is.
    pub(crate) fn end(self, given: Log, is_synced: bool) -> Result<Ended<F>, (F, io::Error)>
        requires { Follows self given.state.bytes }
        ensures ends { IfOk result (EndsWith F.models F.stands F.past is_synced given.state.bytes) }
        ensures front { IsTrue F.models → is_marred self ≡ false → IfErr result (λ refused. Begins given.state.bytes
            (F.stands refused.0)) }
    {
        match self {
            Target::Stream(stream) => match stream.end() {
                Ok(file) => end_file(file, given, is_synced),
                Err(refused) => Err(refused),
            },
            Target::Held(held) => match held.end() {
                Ok(file) => end_file(file, given, is_synced),
                Err(refused) => Err(refused),
            },
            Target::Holes(holes) => match holes.end() {
                Ok(file) => end_file(file, given, is_synced),
                Err(refused) => Err(refused),
            },
        }
    }
}

// The end of a file that holds what was given.
#[inline(never)]
fn end_file<F: SystemFile + Drop>(
    file: F,
    given: Log,
    is_synced: bool,
) -> Result<Ended<F>, (F, io::Error)>
    requires { IsTrue F.models → F.stands file ≡ given.state.bytes }
    ensures ends { IfOk result (EndsWith F.models F.stands F.past is_synced given.state.bytes) }
    ensures same { IsTrue F.models → IfErr result (λ refused. F.stands refused.0 ≡ given.state.bytes) }
{
    let mut file = file;
    if is_synced && let Err(error) = file.sync() {
        return Err((file, error));
    }
    Ok(Ended { sent: given, file })
}
