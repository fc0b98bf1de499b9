//! Standard input that is a file or a block device. It is read at any offset, counted from its position.

ghost use Rattle.std.specs.Prelude.{◌≡◌, ◌-◌, codes, drop, IsTrue, IfOk};
ghost use Rattle.abt_io.specs.BytesLaws.{bytes_of_drop};
ghost use Rattle.sys_file.specs.File.{are_bytes_of, file_bytes};
ghost use Rattle.sys_file.specs.System.{KeepsFiles};
ghost use Rattle.sys_identity.specs.Behind.{long_behind};
ghost use Rattle.sys_refusals.specs.Paths.{path_of};

use crate::descriptors::{INPUT, open_again, place_of_input};
use crate::identity::Found;
use abt_io::{DeviceFault, Source};
use std::io;
use sys_devices::FileSource;
use sys_file::{Opening, System, SystemFile};
use sys_refusals::FileArg;

/// Standard input. The byte at its position is the first.
#[derive(Drop)]
pub struct StandardSource<F: SystemFile + Drop> {
    pub source: FileSource<F>,
    // Its position.
    base: u64,
}

/// Standard input from its position on, if it has a length.
pub fn standard_source<S: System>(
    system: &mut S,
    found: Found,
) -> io::Result<StandardSource<S::File>>
    ensures content { IsTrue S.File.models → IfOk result (λ s. drop s.base (file_bytes S.File.stands s.source.file)
        ≡ S.holds system.new S.stdin) }
    ensures keeps { IsTrue S.File.models → KeepsFiles S.at S.holds system.old system.new }
{
    if !found.is_file() && !found.is_block() {
        return Err(io::Error::from(io::ErrorKind::InvalidInput));
    }
    let file = open_again(system, INPUT, Opening::Read)?;
    StandardSource::new(file, place_of_input(system))
}

/// The same once more, to be read beside this one.
pub fn standard_source_again<S: System>(
    system: &S,
    source: &StandardSource<S::File>,
) -> io::Result<StandardSource<S::File>>
    ensures { IsTrue S.File.models → IfOk result (λ s. drop s.base (file_bytes S.File.stands s.source.file)
        ≡ drop source.now.base (file_bytes S.File.stands source.now.source.file)) }
{
    match &source.source.file {
        Some(file) => StandardSource::new(system.again(file)?, source.base),
        None => Err(io::Error::from(io::ErrorKind::InvalidInput)),
    }
}

impl<F: SystemFile + Drop> StandardSource<F> {
    // A file from an offset on.
    fn new(file: F, base: u64) -> io::Result<StandardSource<F>>
        ensures base { IfOk result (λ s. s.base ≡ base) }
        ensures content { IfOk result (λ s. file_bytes F.stands s.source.file ≡ F.stands file) }
        ensures clean { IfOk result (λ s. s.source.faults.number ≡ 0) }
    {
        let Ok(source) = FileSource::new(file) else {
            return Err(io::Error::from(io::ErrorKind::InvalidInput));
        };
        Ok(StandardSource { source, base })
    }

    /// The present length, or the one that it had, if the system fails to return it.
    pub fn length_now(&self) -> u64
        ensures { IsTrue F.models → result ≡ self.now.source.size - self.now.base }
    {
        match &self.source.file {
            Some(file) => file
                .length()
                .unwrap_or(self.source.size)
                .saturating_sub(self.base),
            None => 0,
        }
    }
}

/// Whether this is standard input, which is read at any offset.
pub fn is_standard_input(place: &FileArg<'_>) -> bool
    ensures { IsTrue result → path_of place.now ≡ codes "/dev/stdin" }
{
    let is_path = match place.folder {
        Some(folder) => folder == "/dev" && place.name == "stdin",
        None => place.name == "/dev/stdin",
    };
    is_path && place.number.is_none()
}

impl<F: SystemFile + Drop> Source for StandardSource<F> {
    ghost models = { F.models };

    ghost content = { λ s. drop s.base (file_bytes F.stands s.source.file) };

    ghost size = { λ s. s.source.size - s.base };

    ghost reads = { λ s. s.source.reads.number };

    ghost given = { λ s. s.source.given.number };

    ghost read_faults = { λ s. s.source.faults.number };

    ghost sized = { λ s t. long_behind s.base s.source.size _ (s.source.sized t) };

    ghost are_bytes = { λ s t. bytes_of_drop s.base _ (are_bytes_of F.stands F.are_bytes s.source.file t) };

    fn length(&self) -> u64 {
        self.source.size.saturating_sub(self.base)
    }

    fn read_at(&mut self, at: u64, out: &mut [u8]) -> Result<usize, DeviceFault> {
        self.source.read_at(self.base.saturating_add(at), out)
    }
}
