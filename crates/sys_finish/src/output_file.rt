//! An output that is written from its beginning on, and how it is finished.

ghost use Rattle.std.specs.Prelude.{◌≡◌, [], false, IsTrue, IfOk, IfErr};
ghost use Rattle.sys_disk.specs.World.{HasMost};
ghost use Rattle.sys_finish.specs.Ends.{EndsWith, LetsMostGo};
ghost use Rattle.sys_finish.specs.Follows.{is_marred};
ghost use Rattle.sys_finish.specs.Given.{given_by_writer};
ghost use Rattle.abt_io.specs.Frame.{nothing_logged};

use crate::collecting::Collecting;
use crate::gathered::Gathered;
use crate::sink::Sink;
use crate::target::Ended;
use abt_io::{DeviceFault, Output};
use std::alloc::Global;
use sys_disk::Reasons;
use sys_file::SystemFile;
use sys_refusals::{FileArg, HostFault, HostRefusal};

/// A file, a pipe, a device or standard output, which collects small writes. Nothing is written over what it was given.
/// So its file always begins with what the system took.
#[derive(Drop)]
pub struct OutputFile<F: SystemFile + Drop> {
    pub to: Gathered<F>,
    /// Whether it is synced at its end.
    pub is_synced: bool,
    // Whether data goes to where standard output goes.
    is_data_on_output: bool,
    ghost front: { is_marred to.writer.sink.target ≡ false },
}

/// A finished output.
#[derive(Drop)]
pub struct Finished<F> {
    /// All that it was given, and its file.
    pub ended: Ended<F>,
    is_data_on_output: bool,
}

impl<F: Drop> Finished<F> {
    /// Whether data went to where standard output goes.
    pub fn is_data_on_output(&self) -> bool {
        self.is_data_on_output
    }
}

impl<F: SystemFile + Drop> OutputFile<F> {
    /// An output that collects small writes, and is synced at its end if that is wanted.
    pub fn new<'a>(
        alloc: Global,
        place: FileArg<'a>,
        sink: Sink<F>,
        is_synced: bool,
        is_data_on_output: bool,
    ) -> Result<OutputFile<F>, HostRefusal<'a>>
        requires given { sink.log.state ≡ nothing_logged }
        requires front { is_marred sink.target ≡ false }
        ensures empty { IfOk result (λ output. given_by_writer output.to.writer ≡ []) }
        ensures data { IfOk result (λ output. output.is_data_on_output ≡ is_data_on_output) }
        ensures synced { IfOk result (λ output. output.is_synced ≡ is_synced) }
    {
        match gathered_in(alloc, place, sink) {
            Ok(to) => Ok(OutputFile {
                to,
                is_synced,
                is_data_on_output,
            }),
            Err(refusal) => Err(refusal),
        }
    }

    /// Why its last call failed, where one did.
    pub fn why(&self) -> Option<i32> {
        self.to.why()
    }

    /// Finishes it: what is collected is sent, and the output is synced, if that is wanted. On a failure it returns the
    /// file as it is.
    pub fn finish<'a>(self, place: FileArg<'a>) -> Result<Finished<F>, (F, HostRefusal<'a>)>
        ensures ends { IfOk result (λ finished. EndsWith F.models F.stands F.past self.is_synced
            (given_by_writer self.to.writer) finished.ended) }
        ensures most { IsTrue F.models → IfErr result (λ refused. HasMost (given_by_writer self.to.writer)
            (F.stands refused.0)) }
    {
        end_of(self.to, self.is_synced, self.is_data_on_output, place)
    }

    /// Sends what is collected, after the work before has failed. Returns its file, and whether that holds all that was
    /// given.
    pub fn give_up(self) -> (F, bool)
        ensures { LetsMostGo F.models (F.stands result.0) result.1 false (given_by_writer self.to.writer) }
    {
        self.to.give_up()
    }
}

// A sink that nothing was given to, whose small writes are collected.
pub(crate) fn gathered_in<'a, F: SystemFile + Drop>(
    alloc: Global,
    place: FileArg<'a>,
    sink: Sink<F>,
) -> Result<Gathered<F>, HostRefusal<'a>>
    requires { sink.log.state ≡ nothing_logged }
    ensures sink { IfOk result (λ to. to.writer.sink ≡ sink) }
    ensures empty { IfOk result (λ to. given_by_writer to.writer ≡ []) }
{
    match Collecting::new(alloc, sink) {
        Ok(writer) => Ok(Gathered::new(writer)),
        Err(_) => Err(HostRefusal::memory().begun(place)),
    }
}

// The end of an output, or of an image.
pub(crate) fn end_of<'a, F: SystemFile + Drop>(
    to: Gathered<F>,
    is_synced: bool,
    is_data_on_output: bool,
    place: FileArg<'a>,
) -> Result<Finished<F>, (F, HostRefusal<'a>)>
    ensures ends { IfOk result (λ finished. EndsWith F.models F.stands F.past is_synced (given_by_writer to.writer)
        finished.ended) }
    ensures most { IsTrue F.models → is_marred to.writer.sink.target ≡ false → IfErr result (λ refused. HasMost
        (given_by_writer to.writer) (F.stands refused.0)) }
{
    match to.finish(is_synced) {
        Ok(ended) => Ok(Finished {
            ended,
            is_data_on_output,
        }),
        Err((file, why)) => Err((
            file,
            HostRefusal::at(HostFault::Write, place, why).begun(place),
        )),
    }
}

impl<F: SystemFile + Drop> Output for OutputFile<F> {
    ghost written = { λ o. given_by_writer o.to.writer };

    ghost is_full = { λ _. false };

    ghost writes = { λ o. o.to.calls.number };

    ghost write_faults = { λ o. o.to.faults.number };

    ghost full_faults = { λ _. 0 };

    fn write(&mut self, bytes: &[u8]) -> Result<usize, DeviceFault> {
        self.to.take(bytes)
    }

    fn write_zeros(&mut self, n: u64, zeros: &[u8]) -> Result<u64, DeviceFault> {
        self.to.take_zeros(n, zeros)
    }
}

impl<F: SystemFile + Drop> Reasons for OutputFile<F> {
    fn why(&self) -> Option<i32> {
        self.to.why()
    }
}
