//! The file of an image that has a magic. It collects small writes, such as those of chunk headers, and can be
//! overwritten.

ghost use Rattle.std.specs.Prelude.{◌≡◌, [], false, length, IfOk};
ghost use Rattle.sys_finish.specs.Ends.{EndsWith, LetsMostGo};
ghost use Rattle.sys_finish.specs.Follows.{is_marred};
ghost use Rattle.sys_finish.specs.Given.{given_by_writer};
ghost use Rattle.abt_io.specs.Frame.{nothing_logged};

use crate::gathered::Gathered;
use crate::output_file::{Finished, end_of, gathered_in};
use crate::sink::Sink;
use abt_io::{DeviceFault, Output, Overwrite};
use std::alloc::Global;
use sys_disk::{Late, Reasons};
use sys_file::SystemFile;
use sys_refusals::{FileArg, HostRefusal};

/// A regular file that is written from its beginning on, and can be overwritten.
#[derive(Drop)]
pub struct ImageFile<F: SystemFile + Drop> {
    pub to: Gathered<F>,
    /// Whether it is synced at its end.
    pub is_synced: bool,
    // Whether data goes to where standard output goes.
    is_data_on_output: bool,
    used: u64,
    ghost long: { used ≡ length (given_by_writer to.writer) },
}

impl<F: SystemFile + Drop> ImageFile<F> {
    /// Begins at offset 0 of an empty file. It is synced at its end if that is wanted.
    pub fn new<'a>(
        alloc: Global,
        place: FileArg<'a>,
        sink: Sink<F>,
        is_synced: bool,
        is_data_on_output: bool,
    ) -> Result<ImageFile<F>, HostRefusal<'a>>
        requires { sink.log.state ≡ nothing_logged }
        ensures empty { IfOk result (λ image. given_by_writer image.to.writer ≡ []) }
        ensures data { IfOk result (λ image. image.is_data_on_output ≡ is_data_on_output) }
        ensures synced { IfOk result (λ image. image.is_synced ≡ is_synced) }
    {
        match gathered_in(alloc, place, sink) {
            Ok(to) => Ok(ImageFile {
                to,
                is_synced,
                is_data_on_output,
                used: 0,
            }),
            Err(refusal) => Err(refusal),
        }
    }

    /// Why its last call failed, where one did.
    pub fn why(&self) -> Option<i32> {
        self.to.why()
    }

    /// Finishes it. On a failure it returns the file as it is.
    pub fn finish<'a>(self, place: FileArg<'a>) -> Result<Finished<F>, (F, HostRefusal<'a>)>
        ensures { IfOk result (λ finished. EndsWith F.models F.stands F.past self.is_synced
            (given_by_writer self.to.writer) finished.ended) }
    {
        end_of(self.to, self.is_synced, self.is_data_on_output, place)
    }

    /// Sends what is collected, after the work before has failed. Returns its file, and whether that holds all that was
    /// given.
    pub fn give_up(self) -> (F, bool)
        ensures { LetsMostGo F.models (F.stands result.0) result.1 (is_marred self.to.writer.sink.target)
            (given_by_writer self.to.writer) }
    {
        self.to.give_up()
    }
}

impl<F: SystemFile + Drop> Output for ImageFile<F> {
    ghost written = { λ o. given_by_writer o.to.writer };

    ghost is_full = { λ _. false };

    ghost writes = { λ o. o.to.calls.number };

    ghost write_faults = { λ o. o.to.faults.number };

    ghost full_faults = { λ _. 0 };

    #[inline(never)]
    fn write(&mut self, bytes: &[u8]) -> Result<usize, DeviceFault> {
        let used = self.used;
        if bytes.len() as u64 > u64::MAX - used {
            self.to.calls.add(1);
            self.to.faults.add(1);
            return Err(DeviceFault::Failed);
        }
        match self.to.take(bytes) {
            Ok(n) => {
                self.used = used + n as u64;
                Ok(n)
            }
            Err(fault) => Err(fault),
        }
    }
}

impl<F: SystemFile + Drop> Overwrite for ImageFile<F> {
    fn position(&self) -> u64 {
        self.used
    }

    fn write_over(&mut self, at: u64, bytes: &[u8]) -> Result<usize, DeviceFault> {
        self.to.put(at, bytes)
    }
}

impl<F: SystemFile + Drop> Late for ImageFile<F> {
    fn settle(&mut self) -> Result<(), DeviceFault> {
        match self.to.settle() {
            Ok(()) => Ok(()),
            Err(fault) => {
                self.to.faults.add(1);
                Err(fault)
            }
        }
    }
}

impl<F: SystemFile + Drop> Reasons for ImageFile<F> {
    fn why(&self) -> Option<i32> {
        self.to.why()
    }
}
