//! An output that collects small writes. What it was given is what the system took, followed by what is collected.

ghost use Rattle.std.specs.Prelude.{◌≡◌, ◌<◌, ◌+◌, false, IsTrue, IfOk, IfErr, OnErr, length, take, replicate};
ghost use Rattle.abt_io.specs.Calls.{HasWritten};
ghost use Rattle.abt_io.specs.Count.{count_of};
ghost use Rattle.abt_io.specs.Frame.{writes_alone};
ghost use Rattle.sys_disk.specs.World.{HasMost};
ghost use Rattle.sys_finish.specs.Ends.{EndsWith, LetsMostGo};
ghost use Rattle.sys_finish.specs.Follows.{is_marred};
ghost use Rattle.sys_finish.specs.Given.{given_by_writer, PutsOver, SettlesWriter, LaysZeros};

use crate::collecting::Collecting;
use crate::target::Ended;
use abt_io::{DeviceFault, Tally};
use sys_file::SystemFile;

/// A file, a pipe, a device or standard output, which is written from its beginning on.
#[derive(Drop)]
pub struct Gathered<F: SystemFile + Drop> {
    pub writer: Collecting<F>,
    pub calls: Tally,
    pub faults: Tally,
}

impl<F: SystemFile + Drop> Gathered<F> {
    pub(crate) fn new(writer: Collecting<F>) -> Gathered<F>
        ensures { result.writer ≡ writer }
    {
        Gathered {
            writer,
            calls: Tally::new(),
            faults: Tally::new(),
        }
    }

    /// Why its last call failed, where one did.
    pub fn why(&self) -> Option<i32> {
        self.writer.sink.why
    }

    /// Takes a prefix of these bytes, as an output does.
    #[inline(never)]
    pub(crate) fn take(&mut self, bytes: &[u8]) -> Result<usize, DeviceFault>
        ensures wrote { HasWritten (λ o. given_by_writer o.writer) (λ _. false) (λ o. o.calls.number)
            (λ o. o.faults.number) (λ _. 0) (λ _. writes_alone) result self.old self.new (length bytes.now)
            (take (count_of result) bytes.now) }
        ensures still { is_marred self.new.writer.sink.target ≡ is_marred self.old.writer.sink.target }
    {
        self.calls.add(1);
        match self.writer.write(bytes) {
            Ok(n) if n > 0 || bytes.is_empty() => Ok(n),
            _ => {
                self.faults.add(1);
                Err(DeviceFault::Failed)
            }
        }
    }

    /// Takes at most `n` zeros, as an output does. Many of them may be a hole.
    pub(crate) fn take_zeros(&mut self, n: u64, zeros: &[u8]) -> Result<u64, DeviceFault>
        requires some { 0 < length zeros.now }
        requires zeros { zeros.now ≡ replicate (length zeros.now) 0 }
        ensures wrote { HasWritten (λ o. given_by_writer o.writer) (λ _. false) (λ o. o.calls.number)
            (λ o. o.faults.number) (λ _. 0) (λ _. writes_alone) result self.old self.new n
            (replicate (count_of result) 0) }
        ensures still { is_marred self.new.writer.sink.target ≡ is_marred self.old.writer.sink.target }
    {
        if self.writer.sink.takes_hole(n) {
            match lay_through(&mut self.writer, n) {
                Ok(laid) => {
                    if laid > 0 {
                        self.calls.add(1);
                        return Ok(laid);
                    }
                }
                Err(fault) => {
                    self.calls.add(1);
                    self.faults.add(1);
                    return Err(fault);
                }
            }
        }
        let some = n.min(zeros.len() as u64) as usize;
        match self.take(&zeros[..some]) {
            Ok(k) => Ok(k as u64),
            Err(fault) => Err(fault),
        }
    }

    /// Sends what is collected, and overwrites the bytes at an offset with a prefix of these. All of these have to fit
    /// there.
    pub(crate) fn put(&mut self, at: u64, bytes: &[u8]) -> Result<usize, DeviceFault>
        ensures puts { PutsOver result at bytes.now self.old.writer self.new.writer }
        ensures calls { self.new.calls.number ≡ self.old.calls.number + 1 }
        ensures clean { IfOk result (λ _. self.new.faults.number ≡ self.old.faults.number) }
        ensures cause { OnErr result (self.new.faults.number ≡ self.old.faults.number + 1) }
    {
        self.calls.add(1);
        match put_through(&mut self.writer, at, bytes) {
            Ok(n) => Ok(n),
            Err(fault) => {
                self.faults.add(1);
                Err(fault)
            }
        }
    }

    /// Writes all that was sent to the sink.
    pub(crate) fn settle(&mut self) -> Result<(), DeviceFault>
        ensures settles { SettlesWriter result self.old.writer self.new.writer }
        ensures faults { self.new.faults ≡ self.old.faults }
    {
        self.writer.sink.settle()
    }

    /// Sends what is collected, after the work before has failed. Returns its file, and whether that holds all that was
    /// given.
    pub(crate) fn give_up(self) -> (F, bool)
        ensures { LetsMostGo F.models (F.stands result.0) result.1 (is_marred self.writer.sink.target)
            (given_by_writer self.writer) }
    {
        given_up(self.writer)
    }

    /// Sends what is collected, and syncs the output if that is wanted. Returns all that it was given, and the file
    /// that holds that. On a failure what is collected is sent as far as possible. Then it returns the file as it is,
    /// and the number of the system's error.
    pub(crate) fn finish(self, is_synced: bool) -> Result<Ended<F>, (F, Option<i32>)>
        ensures ends { IfOk result (EndsWith F.models F.stands F.past is_synced (given_by_writer self.writer)) }
        ensures most { IsTrue F.models → is_marred self.writer.sink.target ≡ false → IfErr result (λ refused.
            HasMost (given_by_writer self.writer) (F.stands refused.0)) }
    {
        let mut writer = self.writer;
        if writer.send().is_err() {
            let why = writer.sink.why;
            let (file, _) = given_up(writer);
            return Err((file, why));
        }
        let Collecting { sink, .. } = writer;
        sink.end(is_synced)
    }
}

// Sends what is collected, as far as possible. What could not be sent is tried once more. Returns its file, and whether
// that holds all that was given.
fn given_up<F: SystemFile + Drop>(writer: Collecting<F>) -> (F, bool)
    ensures { LetsMostGo F.models (F.stands result.0) result.1 (is_marred writer.sink.target) (given_by_writer writer) }
{
    let mut writer = writer;
    let _ = writer.send();
    let _ = writer.sink.settle();
    let is_sent = writer.send().is_ok();
    let Collecting { sink, .. } = writer;
    let (file, is_whole) = sink.let_go();
    (file, is_sent && is_whole)
}

// Sends what is collected, and writes at an offset.
fn put_through<F: SystemFile + Drop>(
    writer: &mut Collecting<F>,
    at: u64,
    bytes: &[u8],
) -> Result<usize, DeviceFault>
    ensures { PutsOver result at bytes.now writer.old writer.new }
{
    if writer.send().is_err() {
        return Err(DeviceFault::Failed);
    }
    writer.sink.put_at(at, bytes)
}

// Sends what is collected, and extends the file by a hole. Returns how many zeros that gave it.
fn lay_through<F: SystemFile + Drop>(writer: &mut Collecting<F>, n: u64) -> Result<u64, DeviceFault>
    ensures { LaysZeros result n writer.old writer.new }
{
    if writer.send().is_err() {
        return Err(DeviceFault::Failed);
    }
    Ok(writer.sink.lay_hole(n))
}
