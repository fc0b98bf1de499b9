//! The inputs of a command, which are open before it writes.

ghost use Rattle.std.specs.Prelude.{◌≡◌, ◌≤◌, ◌^◌, [], false, true, IsTrue, length, string_bytes, OnOk, IfOk, IfErr};
ghost use Rattle.std.specs.Prelude.{codes, drop};
ghost use Rattle.sys_file.specs.File.{file_bytes};
ghost use Rattle.sys_file.specs.System.{KeepsFiles};
ghost use Rattle.sys_identity.specs.Identity.{IsIdentityOf};
ghost use Rattle.sys_refusals.specs.Paths.{path_in, path_of};
ghost use Rattle.sys_host.specs.Access.{may_write, may_create};
ghost use Rattle.sys_host.specs.Opens.{WasOpened, OpensPlace};
ghost use Rattle.sys_host.specs.Places.{ReadsPlace};
ghost use Rattle.sys_host.specs.Streams.{Reported};
ghost use Rattle.sys_host.specs.Taken.{Adds, ReadsOne};

use crate::input_file::InputFile;
use crate::open_file::{Access, OpenedFile, not_opened, open_file};
use crate::open_outputs::Writing;
use crate::streams::Streams;
use crate::taken::Taken;
use abt_io::{Input, Source};
use std::alloc::Global;
use std::io;
use std::io::Read;
use sys_devices::FileSource;
use sys_file::{System, SystemFile};
use sys_identity::{
    Found, INPUT, Identity, ReadFiles, StandardSource, found_of, identity_of_stream, is_shown,
    standard_source,
};
use sys_refusals::{FileArg, HostFault, HostRefusal};

// The most bytes of a file of words.
const TEXT: u64 = 1 << 20;

// The system's error number of 'Too many open files'.
const TOO_MANY: i32 = 24;

/// Opens the inputs. No output may be one of these files, and no report may be written into one.
#[derive(Drop)]
pub struct Reading<S: System + Drop> {
    pub system: S,
    pub alloc: Global,
    pub(crate) taken: Taken,
    pub(crate) streams: Streams,
    /// What was opened to be read, as it was then.
    pub(crate) read: ReadFiles,
    // Whether standard input is read, and the system does not show what it is.
    pub(crate) is_input_unknown: bool,
    // Whether block devices that are in use may be written.
    pub(crate) is_mounted_allowed: bool,
    // Whether each output is synced at its end.
    pub(crate) is_synced: bool,
}

impl<S: System + Drop> Reading<S> {
    /// Nothing is open.
    #[inline(never)]
    pub fn new(system: S) -> Reading<S>
        ensures none { result.taken.files.items ≡ [] }
        ensures out { IsTrue S.File.models → IsIdentityOf S.number S.known S.stdout result.streams.out }
    {
        let alloc = system.alloc();
        let streams = Streams::of_system(&system);
        Reading {
            system,
            alloc,
            taken: Taken::new(alloc),
            streams,
            read: ReadFiles::new(alloc),
            is_input_unknown: false,
            is_mounted_allowed: false,
            is_synced: false,
        }
    }

    /// Each output that is a file or a block device is going to be synced at its end.
    pub fn sync_outputs(&mut self)
        ensures { self.new ≡ record self.old { is_synced = true } }
    {
        self.is_synced = true;
    }

    /// Block devices that are in use may be written: mounted, or swap.
    pub fn allow_mounted(&mut self)
        ensures { self.new ≡ record self.old { is_mounted_allowed = true } }
    {
        self.is_mounted_allowed = true;
    }

    /// Examines again what is open under this descriptor, which is going to be closed.
    pub fn let_go(&mut self, descriptor: i32)
        ensures { self.new ≡ record self.old { read = self.new.read } }
    {
        self.read.let_go(&self.system, descriptor);
    }

    /// Fails if a file that was opened to be read has changed since, as far as the system reports it.
    #[inline(never)]
    pub fn unchanged<'a>(&self) -> Result<(), HostRefusal<'a>>
        ensures { IfErr result (λ refusal. refusal.fault ≡ HostFault.Changed) }
    {
        match self.read.changed(&self.system) {
            Some(place) => Err(HostRefusal::at(HostFault::Changed, place, None)),
            None => Ok(()),
        }
    }

    /// Opens what is read forward: `-` is standard input, which is no file of ours.
    pub fn input<'a>(&mut self, place: FileArg<'a>) -> Result<InputFile<S::File>, HostRefusal<'a>>
        ensures reads { OnOk result (ReadsOne self.old.streams self.old.taken self.new.taken) }
        ensures place { IsTrue S.File.models → IfOk result (λ input. ReadsPlace S.number S.known (path_in place.entry)
            (⟦<InputFile<S::File> as Input>⟧.remaining input) (S.at self.old.system) (S.holds self.old.system)
            self.old.taken self.new.taken) }
        ensures keeps { IsTrue S.File.models → KeepsFiles S.at S.holds self.old.system self.new.system }
    {
        if place.is_standard() {
            return self.standard(place);
        }
        match self.opened(place, Access::Forward) {
            Ok(opened) => InputFile::of_file(self.alloc, opened, place),
            Err(refusal) => Err(refusal),
        }
    }

    fn standard<'a>(&mut self, place: FileArg<'a>) -> Result<InputFile<S::File>, HostRefusal<'a>>
        ensures reads { OnOk result (ReadsOne self.old.streams self.old.taken self.new.taken) }
        ensures place { IsTrue S.File.models → IfOk result (λ input. ReadsPlace S.number S.known (codes "/dev/stdin")
            (⟦<InputFile<S::File> as Input>⟧.remaining input) (S.at self.old.system) (S.holds self.old.system)
            self.old.taken self.new.taken) }
        ensures system { self.new.system ≡ self.old.system }
    {
        let identity = identity_of_stream(&self.system, INPUT);
        self.take(identity, place)?;
        match found_of(&self.system, INPUT) {
            Ok(found) => self.keep(INPUT, found, place)?,
            Err(_) => self.is_input_unknown = !is_shown(&self.system),
        }
        InputFile::standard(self.alloc, self.system.input())
    }

    /// Opens what is read at any offset. Fails for what is neither a file nor a block device, and so has no length.
    pub fn source<'a>(&mut self, place: FileArg<'a>) -> Result<FileSource<S::File>, HostRefusal<'a>>
        ensures reads { OnOk result (ReadsOne self.old.streams self.old.taken self.new.taken) }
        ensures place { IsTrue S.File.models → IfOk result (λ source. ReadsPlace S.number S.known (path_of place.entry)
            (file_bytes S.File.stands source.file) (S.at self.old.system) (S.holds self.old.system) self.old.taken
            self.new.taken) }
        ensures keeps { IsTrue S.File.models → KeepsFiles S.at S.holds self.old.system self.new.system }
    {
        let OpenedFile { file, .. } = self.opened(place, Access::AnyPlace)?;
        source_of(file, place)
    }

    /// Standard input from its position on, to be read at any offset. Fails if it is neither a file nor a block device,
    /// and so has no length.
    pub fn standard_source<'a>(
        &mut self,
        place: FileArg<'a>,
    ) -> Result<StandardSource<S::File>, HostRefusal<'a>>
        ensures reads { OnOk result (ReadsOne self.old.streams self.old.taken self.new.taken) }
        ensures place { IsTrue S.File.models → IfOk result (λ source. ReadsPlace S.number S.known (codes "/dev/stdin")
            (⟦<StandardSource<S::File> as Source>⟧.content source) (S.at self.old.system) (S.holds self.old.system)
            self.old.taken self.new.taken) }
        ensures keeps { IsTrue S.File.models → KeepsFiles S.at S.holds self.old.system self.new.system }
    {
        let found = match found_of(&self.system, INPUT) {
            Ok(found) => found,
            Err(error) => return Err(not_opened(&error, place)),
        };
        self.take(found.identity, place)?;
        self.keep(INPUT, found, place)?;
        match standard_source(&mut self.system, found) {
            Ok(source) => Ok(source),
            Err(error) => Err(not_opened(&error, place)),
        }
    }

    /// A source that is open, to be read a second time beside the first.
    pub fn again<'a>(
        &mut self,
        source: &FileSource<S::File>,
        place: FileArg<'a>,
    ) -> Result<FileSource<S::File>, HostRefusal<'a>>
        ensures content { IsTrue S.File.models → IfOk result (λ again. file_bytes S.File.stands again.file
            ≡ file_bytes S.File.stands source.now.file) }
        ensures kept { self.new ≡ record self.old { read = self.new.read } }
    {
        let Some(file) = &source.file else {
            return Ok(FileSource::empty());
        };
        let second = match self.system.again(file) {
            Ok(second) => second,
            Err(error) => return Err(not_opened(&error, place)),
        };
        let first = self.system.descriptor(file);
        match self.read.add_again(first, self.system.descriptor(&second)) {
            Ok(()) => source_of(second, place),
            Err(_) => Err(HostRefusal::memory()),
        }
    }

    /// The text of a file, which is UTF-8 and at most 1 MiB.
    pub fn text<'a>(&mut self, place: FileArg<'a>) -> Result<String, HostRefusal<'a>>
        ensures reads { OnOk result (ReadsOne self.old.streams self.old.taken self.new.taken) }
        ensures length { IfOk result (λ text. length (string_bytes text) ≤ 2 ^ 20) }
        ensures keeps { IsTrue S.File.models → KeepsFiles S.at S.holds self.old.system self.new.system }
    {
        let input = self.input(place)?;
        match text_of(&self.system, &mut self.read, input) {
            Ok(text) => Ok(text),
            Err((HostFault::Memory, _)) => Err(HostRefusal::memory()),
            Err((fault, why)) => Err(HostRefusal::at(fault, place, why)),
        }
    }

    /// All that is read is open.
    pub fn all_open(self) -> Writing<S>
        ensures { result.reading ≡ self }
    {
        Writing::new(self)
    }

    // Opens a file that is read.
    fn opened<'a>(
        &mut self,
        place: FileArg<'a>,
        access: Access,
    ) -> Result<OpenedFile<S::File>, HostRefusal<'a>>
        requires { may_write access ≡ false }
        ensures spared { IfOk result (λ opened. ¬ Reported self.old.streams opened.found.identity) }
        ensures taken { IfOk result (λ opened. Adds self.old.taken self.new.taken opened.found.identity) }
        ensures opens { IfOk result (WasOpened S.File.models S.File.stands S.File.place S.File.past
            (may_create access)) }
        ensures place { IsTrue S.File.models → OpensPlace S.number S.known S.which S.File.stands false
            (path_of place.entry) result (S.at self.old.system) (S.at self.new.system) (S.holds self.old.system)
            (S.holds self.new.system) }
    {
        let opened = match open_file(&mut self.system, place, access) {
            Ok(opened) => opened,
            Err(refusal) => return Err(if_too_many(refusal)),
        };
        self.take(opened.found.identity, place)?;
        let descriptor = self.system.descriptor(&opened.file);
        self.keep(descriptor, opened.found, place)?;
        Ok(opened)
    }

    // Records how a file was when it was opened to be read.
    fn keep<'a>(
        &mut self,
        descriptor: i32,
        found: Found,
        place: FileArg<'a>,
    ) -> Result<(), HostRefusal<'a>>
        ensures { self.new ≡ record self.old { read = self.new.read } }
    {
        match self.read.add(descriptor, place, found) {
            Ok(()) => Ok(()),
            Err(_) => Err(HostRefusal::memory()),
        }
    }

    // No report may be written into this file, and no output may be it.
    fn take<'a>(&mut self, identity: Identity, place: FileArg<'a>) -> Result<(), HostRefusal<'a>>
        ensures spared { OnOk result (¬ Reported self.old.streams identity) }
        ensures taken { OnOk result (Adds self.old.taken self.new.taken identity) }
        ensures refused { IfErr result (λ refusal. refusal.fault ≡ HostFault.SameFile
            → Reported self.old.streams identity) }
        ensures kept { self.new ≡ record self.old { taken = self.new.taken } }
    {
        self.streams.spare(identity, place)?;
        match self.taken.take(identity) {
            Ok(()) => Ok(()),
            Err(_) => Err(HostRefusal::memory()),
        }
    }
}

// For too many open files the message says no more than that.
fn if_too_many(refusal: HostRefusal<'_>) -> HostRefusal<'_>
    ensures { result.fault ≡ refusal.entry.fault }
{
    if refusal.about.why == Some(TOO_MANY) {
        return refusal.advised(
            "Too many open files; allow more (ulimit -n), or join fewer at once",
        );
    }
    refusal
}

fn source_of<'a, F: SystemFile + Drop>(
    file: F,
    place: FileArg<'a>,
) -> Result<FileSource<F>, HostRefusal<'a>>
    ensures { IfOk result (λ source. file_bytes F.stands source.file ≡ F.stands file) }
{
    match FileSource::new(file) {
        Ok(source) => Ok(source),
        Err(_) => Err(HostRefusal::at(HostFault::CannotOpen, place, None)),
    }
}

// All bytes of a file, as a text of at most this many.
fn text_of<S: System + Drop>(
    system: &S,
    read: &mut ReadFiles,
    input: InputFile<S::File>,
) -> Result<String, (HostFault, Option<i32>)>
    ensures { IfOk result (λ text. length (string_bytes text) ≤ 2 ^ 20) }
{
    let mut bytes = Vec::new(system.alloc());
    let descriptor = system.descriptor(input.file());
    let mut front = input.into_reader().take(TEXT + 1);
    let end = front.read_to_end(&mut bytes);
    read.let_go(system, descriptor);
    if let Err(error) = end {
        return Err(match error.kind() {
            io::ErrorKind::OutOfMemory => (HostFault::Memory, None),
            _ => (HostFault::Read, error.raw_os_error()),
        });
    }
    if bytes.len() as u64 > TEXT {
        return Err((HostFault::TooLong, None));
    }
    match String::from_utf8(bytes) {
        Ok(text) => Ok(text),
        Err(_) => Err((HostFault::NotText, None)),
    }
}
