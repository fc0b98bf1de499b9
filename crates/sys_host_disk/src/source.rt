//! An input that is read at any offset: a file or a block device.

ghost use Rattle.std.specs.Prelude.{◌≡◌, IsTrue, IfOk, length, option_map};
ghost use Rattle.abt_io.specs.Bytes.{AreBytes};
ghost use Rattle.abt_io.specs.BytesLaws.{bytes_of_drop};
ghost use Rattle.sys_file.specs.File.{are_bytes_of};
ghost use Rattle.sys_identity.specs.Behind.{long_behind};
ghost use Rattle.sys_host_disk.specs.Sources.{bytes_of_source, number_of_source, of_each_source, shared_by};

use abt_io::{DeviceFault, Source};
use std::alloc::{AllocError, Global};
use std::rc::Rc;
use sys_devices::{AheadFile, AheadSource, FileSource};
use sys_disk::Lasting;
use sys_file::SystemFile;
use sys_identity::StandardSource;

/// A file or a block device.
#[derive(Drop)]
pub enum HostSource<F: SystemFile + Drop> {
    /// Each read is made as it is asked for.
    Plain(FileSource<F>),
    /// Small reads are served from earlier reads.
    Ahead(AheadSource<F>),
    /// Standard input, from its position on.
    Standard(StandardSource<F>),
}

impl<F: SystemFile + Drop> HostSource<F> {
    /// The same, with small reads served from earlier reads.
    pub(crate) fn ahead(alloc: Global, source: FileSource<F>) -> Result<HostSource<F>, AllocError>
        ensures { IfOk result (λ s. ⟦<HostSource<F> as Source>⟧.content s ≡ ⟦<FileSource<F> as Source>⟧.content source) }
    {
        match AheadSource::new(alloc, source) {
            Ok(source) => Ok(HostSource::Ahead(source)),
            Err(error) => Err(error),
        }
    }

    /// Whether it is standard input.
    pub(crate) fn is_standard(&self) -> bool {
        match self {
            HostSource::Plain(_) => false,
            HostSource::Ahead(_) => false,
            HostSource::Standard(_) => true,
        }
    }

    /// The file, if it has one of its own: standard input has not, and neither has an empty source.
    pub(crate) fn file(&self) -> Option<&F> {
        match self {
            HostSource::Plain(source) => source.file.as_ref(),
            HostSource::Ahead(source) => source.file().source.file.as_ref(),
            HostSource::Standard(_) => None,
        }
    }

    /// The file that is read ahead, if it is, for what goes through a spool.
    pub(crate) fn shared(&self) -> Result<Option<Rc<AheadFile<F>>>, AllocError>
        ensures { IfOk result (λ shared. option_map (λ file. file.value) shared ≡ shared_by self.now) }
    {
        match self {
            HostSource::Plain(_) => Ok(None),
            HostSource::Standard(_) => Ok(None),
            HostSource::Ahead(source) => match source.shared() {
                Ok(file) => Ok(Some(file)),
                Err(error) => Err(error),
            },
        }
    }
}

impl<F: SystemFile + Drop> Source for HostSource<F> {
    ghost models = { F.models };

    ghost content = { λ s. bytes_of_source ⟦<FileSource<F> as Source>⟧.content ⟦<AheadSource<F> as Source>⟧.content
        ⟦<StandardSource<F> as Source>⟧.content s };

    ghost size = { λ s. number_of_source ⟦<FileSource<F> as Source>⟧.size ⟦<AheadSource<F> as Source>⟧.size
        ⟦<StandardSource<F> as Source>⟧.size s };

    ghost reads = { λ s. number_of_source ⟦<FileSource<F> as Source>⟧.reads ⟦<AheadSource<F> as Source>⟧.reads
        ⟦<StandardSource<F> as Source>⟧.reads s };

    ghost given = { λ s. number_of_source ⟦<FileSource<F> as Source>⟧.given ⟦<AheadSource<F> as Source>⟧.given
        ⟦<StandardSource<F> as Source>⟧.given s };

    ghost read_faults = { λ s. number_of_source ⟦<FileSource<F> as Source>⟧.read_faults
        ⟦<AheadSource<F> as Source>⟧.read_faults
        ⟦<StandardSource<F> as Source>⟧.read_faults s };

    ghost sized = { λ s t. of_each_source (λ s. number_of_source ⟦<FileSource<F> as Source>⟧.size
        ⟦<AheadSource<F> as Source>⟧.size ⟦<StandardSource<F> as Source>⟧.size s
        ≡ length (bytes_of_source ⟦<FileSource<F> as Source>⟧.content ⟦<AheadSource<F> as Source>⟧.content
        ⟦<StandardSource<F> as Source>⟧.content s)) (λ s. s.sized t)
        (λ s. s.from.value.source.sized t) (λ s. long_behind s.base s.source.size _ (s.source.sized t)) s };

    ghost are_bytes = { λ s t. of_each_source (λ s. AreBytes (bytes_of_source ⟦<FileSource<F> as Source>⟧.content
        ⟦<AheadSource<F> as Source>⟧.content ⟦<StandardSource<F> as Source>⟧.content s))
        (λ s. are_bytes_of F.stands F.are_bytes s.file t)
        (λ s. are_bytes_of F.stands F.are_bytes s.from.value.source.file t)
        (λ s. bytes_of_drop s.base _ (are_bytes_of F.stands F.are_bytes s.source.file t)) s };

    fn length(&self) -> u64 {
        match self {
            HostSource::Plain(source) => source.length(),
            HostSource::Ahead(source) => source.length(),
            HostSource::Standard(source) => source.length(),
        }
    }

    fn read_at(&mut self, at: u64, out: &mut [u8]) -> Result<usize, DeviceFault> {
        match self {
            HostSource::Plain(source) => source.read_at(at, out),
            HostSource::Ahead(source) => source.read_at(at, out),
            HostSource::Standard(source) => source.read_at(at, out),
        }
    }
}

impl<F: SystemFile + Drop> Lasting for HostSource<F> {
    fn forget(&mut self) {
        match self {
            HostSource::Plain(_) => {}
            HostSource::Standard(_) => {}
            HostSource::Ahead(source) => source.forget(),
        }
    }

    fn rest(&mut self) {
        match self {
            HostSource::Plain(_) => {}
            HostSource::Standard(_) => {}
            HostSource::Ahead(source) => source.rest(),
        }
    }

    fn shorter(&self) -> Option<u64> {
        match self {
            HostSource::Plain(_) => None,
            HostSource::Standard(_) => None,
            HostSource::Ahead(source) => match source.shorter() {
                Some(now) if now < source.length() => Some(now),
                _ => None,
            },
        }
    }

    fn length_now(&mut self) -> u64 {
        end_of(self)
    }
}

// The present length, or the one that it had, if the system fails to return it.
fn end_of<F: SystemFile + Drop>(source: &HostSource<F>) -> u64
    ensures { IsTrue F.models → result ≡ ⟦<HostSource<F> as Source>⟧.size source.now }
{
    match source {
        HostSource::Plain(source) => end_of_file(source),
        HostSource::Ahead(source) => end_of_file(&source.file().source),
        HostSource::Standard(source) => source.length_now(),
    }
}

fn end_of_file<F: SystemFile + Drop>(source: &FileSource<F>) -> u64
    ensures { IsTrue F.models → result ≡ source.now.size }
{
    match &source.file {
        Some(file) => file.length().unwrap_or(source.size),
        None => 0,
    }
}
