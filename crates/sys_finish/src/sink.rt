//! Where bytes go, and a log of all that was given.

ghost use Rattle.std.specs.Prelude.{◌≡◌, ◌≤◌, [], IsTrue, false, length, take, IfOk, IfErr, OnErr};
ghost use Rattle.abt_io.specs.Frame.{nothing_logged};
ghost use Rattle.abt_io.specs.Over.{and_put};
ghost use Rattle.sys_finish.specs.Ends.{EndsWith};
ghost use Rattle.sys_file.specs.File.{Begins};
ghost use Rattle.sys_finish.specs.Follows.{Follows, SettlesTarget, StartsAt, WritesOrFails, is_marred};
ghost use Rattle.sys_finish.specs.Gives.{GivesFront, GivesMost};
ghost use Rattle.sys_outputs.specs.Given.{LaysHole, LetsFileGo};

use crate::target::{Ended, Target};
use abt_io::{DeviceFault, Log};
use std::alloc::Global;
use std::io;
use std::io::ErrorKind;
use sys_file::SystemFile;
use sys_outputs::{HeldFile, HoleFile, Room, StreamFile};

/// A writer that keeps all that it was given, and the reason of its last failure. The system took all of that, except
/// for what a gathered file buffers until its end.
#[derive(Drop)]
pub struct Sink<F: SystemFile + Drop> {
    target: Target<F>,
    pub why: Option<i32>,
    pub log: Log,
    ghost follows: { Follows target log.state.bytes },
}

impl<F: SystemFile + Drop> Sink<F> {
    /// A file, a pipe or a device, which is given all bytes.
    pub fn stream(file: F) -> Sink<F>
        requires empty { IsTrue F.models → F.stands file ≡ [] }
        requires front { IsTrue F.models → F.place file ≡ 0 }
        ensures given { result.log.state ≡ nothing_logged }
        ensures front { is_marred result.target ≡ false }
    {
        Sink::of(Target::Stream(StreamFile::new(file)))
    }

    /// An empty regular file, in which zeros may be holes.
    pub fn holes(file: F) -> Sink<F>
        requires { IsTrue F.models → F.stands file ≡ [] }
        ensures given { result.log.state ≡ nothing_logged }
        ensures front { is_marred result.target ≡ false }
    {
        Sink::of(Target::Holes(HoleFile::new(file)))
    }

    /// An empty regular file. It buffers up to 64 KiB of what it was given last, and writes headers in the buffer.
    /// Where there is no memory for that, each write goes to the file at once.
    pub fn gathered(alloc: Global, file: F) -> Sink<F>
        requires { IsTrue F.models → F.stands file ≡ [] }
        ensures { result.log.state ≡ nothing_logged }
    {
        Sink::of(Target::Held(HeldFile::new(file, Room::new(alloc))))
    }

    fn of(target: Target<F>) -> Sink<F>
        requires { Follows target [] }
        ensures { StartsAt target result.target result.log.state }
    {
        Sink {
            target,
            why: None,
            log: Log::new(),
        }
    }

    /// Takes some of these bytes, by one write.
    pub(crate) fn put(&mut self, bytes: &[u8]) -> io::Result<usize>
        ensures { GivesFront result bytes.now self.old.log.state self.new.log.state (is_marred self.old.target)
            (is_marred self.new.target) }
    {
        match self.target.put(bytes) {
            Ok(n) => {
                self.log.append(&bytes[..n]);
                Ok(n)
            }
            Err(error) => {
                self.why = error.raw_os_error();
                Err(error)
            }
        }
    }

    /// Takes all of these bytes, by as many writes as that needs. Returns how many it took.
    pub(crate) fn put_all(&mut self, bytes: &[u8]) -> (usize, io::Result<()>)
        ensures { GivesMost result.0 result.1 bytes.now self.old.log.state self.new.log.state
            (is_marred self.old.target) (is_marred self.new.target) }
    {
        let mut done = 0;
        while done < bytes.len() {
            match self.put(&bytes[done..]) {
                Ok(0) => return (done, Err(io::Error::from(ErrorKind::WriteZero))),
                Ok(n) => done += n,
                Err(error) => return (done, Err(error)),
            }
        }
        (done, Ok(()))
    }

    /// Overwrites the bytes at an offset of a file with a prefix of these bytes.
    pub(crate) fn put_at(&mut self, at: u64, bytes: &[u8]) -> Result<usize, DeviceFault>
        ensures writes { WritesOrFails result bytes.now }
        ensures taken { IfOk result (λ n. self.new.log.state ≡ and_put self.old.log.state at (take n bytes.now)) }
        ensures kept { OnErr result (self.new.log.state ≡ self.old.log.state) }
    {
        let answer = self.target.put_over(at, bytes);
        match answer {
            Ok(n) => {
                self.log.put(&bytes[..n], at);
                Ok(n)
            }
            Err(why) => {
                self.why = why;
                Err(DeviceFault::Failed)
            }
        }
    }

    /// Whether this many zeros may be a hole.
    pub(crate) fn takes_hole(&self, n: u64) -> bool {
        self.target.takes_hole(n)
    }

    /// Extends the file by a hole of at most this many zeros, and returns how many: 0 if that fails.
    pub(crate) fn lay_hole(&mut self, n: u64) -> u64
        ensures lays { LaysHole n result self.old.log.state self.new.log.state }
        ensures still { is_marred self.new.target ≡ is_marred self.old.target }
    {
        let laid = self.target.lay_hole(n);
        self.log.append_zeros(laid);
        laid
    }

    /// Writes all that is buffered.
    pub(crate) fn settle(&mut self) -> Result<(), DeviceFault>
        ensures settles { SettlesTarget result self.new.target self.old.log.state self.new.log.state }
        ensures still { is_marred self.new.target ≡ is_marred self.old.target }
    {
        match self.target.settle() {
            Ok(()) => Ok(()),
            Err(error) => {
                self.why = error.raw_os_error();
                Err(DeviceFault::Failed)
            }
        }
    }

    /// The file as it is, and whether it holds all that was given.
    pub(crate) fn let_go(self) -> (F, bool)
        ensures { LetsFileGo F.models (F.stands result.0) result.1 (is_marred self.target) self.log.state.bytes }
    {
        self.target.let_go()
    }

    /// Writes all that is buffered, and syncs it if that is wanted. Returns all that it was given, and its file. On a
    /// failure it returns the file as it is, and the number of the system's error.
    pub(crate) fn end(self, is_synced: bool) -> Result<Ended<F>, (F, Option<i32>)>
        ensures ends { IfOk result (EndsWith F.models F.stands F.past is_synced self.log.state.bytes) }
        ensures front { IsTrue F.models → is_marred self.target ≡ false → IfErr result (λ refused. Begins
            self.log.state.bytes (F.stands refused.0)) }
    {
        match self.target.end(self.log, is_synced) {
            Ok(ended) => Ok(ended),
            Err((file, error)) => Err((file, error.raw_os_error())),
        }
    }
}
