//! The end of what was written: it is finished, and closed.

ghost use Rattle.std.specs.Prelude.{◌≡◌, IsTrue, OnOk, OnErr};
ghost use Rattle.sys_disk.specs.World.{HasMost};
ghost use Rattle.sys_file.specs.System.{ClosesFile};
ghost use Rattle.sys_finish.specs.Given.{given_by_writer};
ghost use Rattle.sys_host.specs.Ends.{ClosesSo, ClosesWith};

use crate::open_outputs::Writing;
use sys_devices::FilePartition;
use sys_file::System;
use sys_finish::{Finished, ImageFile, OutputFile};
use sys_refusals::{FileArg, HostRefusal};

impl<S: System + Drop> Writing<S> {
    /// Finishes an output: all that it was given is in its file, which is synced if that is wanted, and closed. Returns
    /// whether data went to where standard output goes. If that fails, its file is closed all the same, and begins with
    /// most of what it was given.
    pub fn finish<'a>(
        &mut self,
        onto: OutputFile<S::File>,
        place: FileArg<'a>,
    ) -> Result<bool, HostRefusal<'a>>
        ensures ended { IsTrue S.File.models → OnOk result (ClosesWith S.which S.File.stands S.File.past onto.is_synced
            (given_by_writer onto.to.writer) (S.at self.old.reading.system) (S.at self.new.reading.system)
            (S.holds self.old.reading.system) (S.holds self.new.reading.system)) }
        ensures most { IsTrue S.File.models → OnErr result (ClosesSo S.which S.File.stands
            (HasMost (given_by_writer onto.to.writer)) (S.at self.old.reading.system) (S.at self.new.reading.system)
            (S.holds self.old.reading.system) (S.holds self.new.reading.system)) }
    {
        match onto.finish(place) {
            Ok(finished) => self.close_finished(finished, place),
            Err((not_written, why)) => {
                self.reading.system.close(not_written);
                Err(why)
            }
        }
    }

    /// The same for an image.
    pub fn finish_image<'a>(
        &mut self,
        image: ImageFile<S::File>,
        place: FileArg<'a>,
    ) -> Result<bool, HostRefusal<'a>>
        ensures { IsTrue S.File.models → OnOk result (ClosesWith S.which S.File.stands S.File.past image.is_synced
            (given_by_writer image.to.writer) (S.at self.old.reading.system) (S.at self.new.reading.system)
            (S.holds self.old.reading.system) (S.holds self.new.reading.system)) }
    {
        match image.finish(place) {
            Ok(finished) => self.close_finished(finished, place),
            Err((file, refusal)) => {
                self.reading.system.close(file);
                Err(refusal)
            }
        }
    }

    // Closes the file of a finished output.
    fn close_finished<'a>(
        &mut self,
        finished: Finished<S::File>,
        place: FileArg<'a>,
    ) -> Result<bool, HostRefusal<'a>>
        ensures { IsTrue S.File.models → ClosesFile (S.which finished.ended.file) (S.File.stands finished.ended.file)
            (S.at self.old.reading.system) (S.at self.new.reading.system) (S.holds self.old.reading.system)
            (S.holds self.new.reading.system) }
    {
        let is_data_on_output = finished.is_data_on_output();
        let Finished { ended, .. } = finished;
        self.reading.system.close(ended.file);
        match self.end_output(place) {
            Ok(()) => Ok(is_data_on_output),
            Err(refusal) => Err(refusal),
        }
    }

    /// Closes what was written in place, by a call that synced it at its end. If outputs are synced and it was created,
    /// its folder is synced, so that its name is stored there.
    pub fn close<'a>(
        &mut self,
        part: FilePartition<S::File>,
        place: FileArg<'a>,
    ) -> Result<(), HostRefusal<'a>>
        ensures { IsTrue S.File.models → ClosesFile (S.which part.file) (S.File.stands part.file)
            (S.at self.old.reading.system) (S.at self.new.reading.system) (S.holds self.old.reading.system)
            (S.holds self.new.reading.system) }
    {
        self.reading.system.close(part.file);
        self.end_part(place)
    }
}
