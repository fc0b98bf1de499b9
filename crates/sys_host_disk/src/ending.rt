//! The end of an output after the work before has failed.

ghost use Rattle.std.specs.Prelude.{◌≡◌, ◌+◌, IsTrue, false};
ghost use Rattle.sys_disk.specs.Images.{HasNoFront};
ghost use Rattle.sys_disk.specs.World.{HasMost};
ghost use Rattle.sys_file.specs.System.{ClosesFile};
ghost use Rattle.sys_finish.specs.Given.{given_by_writer};
ghost use Rattle.sys_host_disk.specs.Ends.{ClosesGivenUp, IsAnything};
ghost use Rattle.sys_host_disk.specs.Files.{system_of};

use crate::host::Host;
use abt_io::Overwrite;
use sys_file::{System, SystemFile};
use sys_finish::{ImageFile, OutputFile};

// The most bytes of the magic of an image.
const MAGIC: usize = 8;

impl<S: System + Drop> Host<S> {
    // Closes an output. Its file holds what the output took, unless a write failed, and always begins with most of that.
    pub(crate) fn give_up_output(&mut self, onto: OutputFile<S::File>)
        ensures { IsTrue S.File.models → ClosesGivenUp S.which S.File.stands self.old.lost self.new.lost
            (λ bytes. bytes ≡ given_by_writer onto.to.writer) (HasMost (given_by_writer onto.to.writer))
            (S.at (system_of self.old)) (S.at (system_of self.new)) (S.holds (system_of self.old))
            (S.holds (system_of self.new)) }
    {
        let (file, is_whole) = onto.give_up();
        self.close_file(file, is_whole);
    }

    // The same for an image.
    pub(crate) fn give_up_whole(&mut self, image: ImageFile<S::File>)
        ensures { IsTrue S.File.models → ClosesGivenUp S.which S.File.stands self.old.lost self.new.lost
            (λ bytes. bytes ≡ given_by_writer image.to.writer) IsAnything (S.at (system_of self.old))
            (S.at (system_of self.new)) (S.holds (system_of self.old)) (S.holds (system_of self.new)) }
    {
        let (file, is_whole) = image.give_up();
        self.close_file(file, is_whole);
    }

    // Closes an image that must not be taken for one: zeros are written over its magic. Its file has no magic, unless a
    // write failed.
    pub(crate) fn give_up_blank(&mut self, image: ImageFile<S::File>)
        ensures { IsTrue S.File.models → ClosesGivenUp S.which S.File.stands self.old.lost self.new.lost HasNoFront IsAnything
            (S.at (system_of self.old)) (S.at (system_of self.new)) (S.holds (system_of self.old))
            (S.holds (system_of self.new)) }
    {
        let mut image = image;
        let is_blank = blank_front(&mut image);
        let (file, is_whole) = image.give_up();
        self.close_file(file, is_blank && is_whole);
    }

    // Closes a file, and counts if it is not whole.
    fn close_file(&mut self, file: S::File, is_whole: bool)
        ensures closes { IsTrue S.File.models → ClosesFile (S.which file) (S.File.stands file)
            (S.at (system_of self.old)) (S.at (system_of self.new)) (S.holds (system_of self.old))
            (S.holds (system_of self.new)) }
        ensures counts { is_whole ≡ false → self.new.lost.number ≡ self.old.lost.number + 1 }
    {
        if !is_whole {
            self.lost.add(1);
        }
        self.writing.reading.system.close(file);
    }
}

// Writes zeros over the magic of an image. Returns whether it has none now.
fn blank_front<F: SystemFile + Drop>(image: &mut ImageFile<F>) -> bool
    ensures { IsTrue result → HasNoFront (given_by_writer image.new.to.writer) }
{
    let front = image.position().min(MAGIC as u64) as usize;
    let zeros = [0u8; MAGIC];
    image.write_over(0, &zeros[..front]).is_ok()
}
