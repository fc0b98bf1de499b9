//! The outputs of a command, which are opened once all its inputs are open.

ghost use Rattle.std.specs.Prelude.{◌≡◌, ◌↔◌, ◌⊎◌, ◌≤◌, [], true, false, IsTrue, OnOk, OnErr, IfOk, IfErr, length, replicate};
ghost use Rattle.std.specs.Prelude.{codes, is_some, ◌&&◌};
ghost use Rattle.sys_finish.specs.Follows.{is_marred};
ghost use Rattle.sys_finish.specs.Given.{given_by_writer};
ghost use Rattle.abt_io.specs.Frame.{nothing_logged};
ghost use Rattle.sys_file.specs.System.{KeepsFiles};
ghost use Rattle.sys_identity.specs.Identity.{IsIdentityOf};
ghost use Rattle.sys_host.specs.Access.{may_write, may_create};
ghost use Rattle.sys_host.specs.Opens.{WasOpened, OpensEmpty, OpensPlace};
ghost use Rattle.sys_host.specs.Places.{WritesPlace, WritesOver, KeepsPaths, IsAtPlace, IsFreeAt};
ghost use Rattle.sys_refusals.specs.Paths.{path_of, path_out};
ghost use Rattle.sys_host.specs.Begins.{BeginsOutput, BeginsImage, BeginsKeptSpool, Admits};
ghost use Rattle.sys_host.specs.Streams.{Mixed};
ghost use Rattle.sys_host.specs.Taken.{Forbidden, Adds, WritesOne};
ghost use Rattle.sys_devices.specs.Writes.{LeavesNoMagic};

use crate::open_file::{Access, OpenedFile, not_opened, open_file};
use crate::reading::Reading;
use std::alloc::Global;
use std::{io, mem};
use sys_devices::FilePartition;
use sys_disk::ImageTo;
use sys_file::{Opening, System, SystemFile};
use sys_finish::{ImageFile, OutputFile, Sink};
use sys_identity::{
    Found, Identity, OUTPUT, found_of, identity_at, is_in_use, is_shared, is_shown, open_again,
};
use sys_refusals::{FileArg, HostFault, HostRefusal};

// The system's error number of 'Invalid argument'.
const INVALID: i32 = 22;

// The advice where standard input is unknown, so that an output may be the same file.
const NOT_KNOWN: &str =
    "what standard input is can't be known here, without /dev and /proc; name IN by its path";

// Why standard output is not synced where its identity is not known.
const NOT_SYNCED: &str = "it can't be synced here, without /dev and /proc";

// The advice where an output is one that is written already.
const WRITTEN: &str = "it is written already; name another file";

/// Opens and creates the outputs. Each file is checked, by device and inode, before it is emptied: none is one that is
/// read, or that is written already.
#[derive(Drop)]
pub struct Writing<S: System + Drop> {
    pub alloc: Global,
    pub reading: Reading<S>,
    // Data goes to where standard output goes: then no report does.
    is_data_on_output: bool,
    // The outputs, open or closed.
    written: Vec<Identity>,
    // Whether the open output was created, and what is open to be written in place.
    is_output_new: bool,
    is_part_new: bool,
}

impl<S: System + Drop> Writing<S> {
    pub(crate) fn new(reading: Reading<S>) -> Writing<S>
        ensures { result.reading ≡ reading }
    {
        Writing {
            alloc: reading.alloc,
            written: Vec::new(reading.alloc),
            reading,
            is_data_on_output: false,
            is_output_new: false,
            is_part_new: false,
        }
    }

    /// Opens what is written in place, which must exist.
    pub fn partition<'a>(
        &mut self,
        place: FileArg<'a>,
    ) -> Result<FilePartition<S::File>, HostRefusal<'a>>
        ensures writes { OnOk result (WritesOne self.old.reading.streams self.old.reading.taken
            self.new.reading.taken) }
        ensures place { IsTrue S.File.models → IfOk result (λ part. WritesOver S.number S.known (path_of place.entry)
            (S.File.stands part.file) (S.at self.new.reading.system) (S.holds self.old.reading.system)
            self.old.reading.taken self.new.reading.taken) }
        ensures keeps { IsTrue S.File.models → KeepsFiles S.at S.holds self.old.reading.system self.new.reading.system }
    {
        let opened = self.admitted(place, Access::InPlace)?;
        self.is_part_new = false;
        match FilePartition::new(opened.file) {
            Ok(partition) => Ok(partition),
            Err(_) => Err(HostRefusal::at(HostFault::CannotOpen, place, None)),
        }
    }

    /// Creates or empties the file of a raw image, in which zeros may be holes. `-` is standard output.
    pub fn raw<'a>(&mut self, place: FileArg<'a>) -> Result<OutputFile<S::File>, HostRefusal<'a>>
        ensures begins { BeginsOutput result self.old.reading.streams self.old.reading.taken
            self.new.reading.taken }
        ensures place { IsTrue S.File.models → IsIdentityOf S.number S.known S.stdout self.old.reading.streams.out
            → OnOk result (WritesPlace S.number S.known (path_out place.entry) (S.at self.new.reading.system)
            self.old.reading.taken self.new.reading.taken) }
        ensures kept { IsTrue S.File.models → KeepsPaths S.at S.holds self.old.reading.system self.new.reading.system }
    {
        if place.is_standard() {
            return self.standard(place);
        }
        let OpenedFile { file, found, .. } = self.created(place, Access::Create)?;
        let sink = if found.is_file() {
            Sink::holes(file)
        } else {
            Sink::stream(file)
        };
        self.buffered(place, sink, found.identity.holds_data)
    }

    /// Creates or empties the file of an image that has a magic. `-` is standard output. Where it is gathered, a
    /// regular file buffers up to 64 KiB of what it took, which are written together when the buffer is full and at its
    /// end: that is for outputs that nobody waits for meanwhile.
    pub fn image<'a>(
        &mut self,
        place: FileArg<'a>,
        is_gathered: bool,
    ) -> Result<ImageTo<ImageFile<S::File>, OutputFile<S::File>>, HostRefusal<'a>>
        ensures begins { BeginsImage result self.old.reading.streams self.old.reading.taken
            self.new.reading.taken }
        ensures place { IsTrue S.File.models → IsIdentityOf S.number S.known S.stdout self.old.reading.streams.out
            → OnOk result (WritesPlace S.number S.known (path_out place.entry) (S.at self.new.reading.system)
            self.old.reading.taken self.new.reading.taken) }
        ensures kept { IsTrue S.File.models → KeepsPaths S.at S.holds self.old.reading.system self.new.reading.system }
    {
        if place.is_standard() {
            return Ok(ImageTo::Stream(self.standard(place)?));
        }
        let OpenedFile { file, found, .. } = self.created(place, Access::Create)?;
        if !found.is_file() {
            let output = self.buffered(place, Sink::stream(file), found.identity.holds_data)?;
            return Ok(ImageTo::Stream(output));
        }
        let sink = if is_gathered {
            Sink::gathered(self.alloc, file)
        } else {
            Sink::stream(file)
        };
        let is_synced = self.reading.is_synced && found.identity.holds_data;
        let is_on_output = self.is_data_on_output;
        match ImageFile::new(self.alloc, place, sink, is_synced, is_on_output) {
            Ok(image) => Ok(ImageTo::File(image)),
            Err(refusal) => Err(refusal),
        }
    }

    /// Creates or empties a file.
    pub fn plain<'a>(&mut self, place: FileArg<'a>) -> Result<OutputFile<S::File>, HostRefusal<'a>>
        ensures begins { BeginsOutput result self.old.reading.streams self.old.reading.taken
            self.new.reading.taken }
        ensures place { IsTrue S.File.models → OnOk result (WritesPlace S.number S.known (path_of place.entry)
            (S.at self.new.reading.system) self.old.reading.taken self.new.reading.taken) }
        ensures kept { IsTrue S.File.models → KeepsPaths S.at S.holds self.old.reading.system self.new.reading.system }
    {
        let OpenedFile { file, found, .. } = self.created(place, Access::Create)?;
        self.buffered(place, Sink::stream(file), found.identity.holds_data)
    }

    /// Creates or empties a regular file, and makes it this many zeros, to be written in place. Fails for any other
    /// kind of file.
    pub fn zeros<'a>(
        &mut self,
        place: FileArg<'a>,
        bytes: u64,
    ) -> Result<FilePartition<S::File>, HostRefusal<'a>>
        ensures writes { OnOk result (WritesOne self.old.reading.streams self.old.reading.taken
            self.new.reading.taken) }
        ensures zeros { IsTrue S.File.models → IfOk result (λ part. S.File.stands part.file ≡ replicate bytes 0) }
        ensures place { IsTrue S.File.models → OnOk result (WritesPlace S.number S.known (path_of place.entry)
            (S.at self.new.reading.system) self.old.reading.taken self.new.reading.taken) }
        ensures kept { IsTrue S.File.models → KeepsPaths S.at S.holds self.old.reading.system self.new.reading.system }
    {
        if place.is_standard() {
            return Err(HostRefusal::at(HostFault::CannotOpen, place, None));
        }
        let created = self.created(place, Access::CreateFile)?;
        match zeros_in(created.file, bytes) {
            Ok(partition) => Ok(partition),
            Err(why) => Err(HostRefusal::at(HostFault::Write, place, why).begun(place)),
        }
    }

    /// Creates or empties the file that pieces go through, which is read again.
    pub fn spool<'a>(&mut self, place: FileArg<'a>) -> Result<S::File, HostRefusal<'a>>
        ensures writes { OnOk result (WritesOne self.old.reading.streams self.old.reading.taken
            self.new.reading.taken) }
        ensures empty { IsTrue S.File.models → IfOk result (λ file. S.File.stands file ≡ []) }
        ensures place { IsTrue S.File.models → OnOk result (WritesPlace S.number S.known (path_of place.entry)
            (S.at self.new.reading.system) self.old.reading.taken self.new.reading.taken) }
        ensures kept { IsTrue S.File.models → KeepsPaths S.at S.holds self.old.reading.system self.new.reading.system }
    {
        let created = self.created(place, Access::Spool)?;
        Ok(created.file)
    }

    /// The same, but a file that is no longer than a piece keeps its pages. Then its first four bytes are zeros, and
    /// its length is returned too. So this is for callers that truncate what they do not overwrite.
    pub fn kept_spool<'a>(
        &mut self,
        place: FileArg<'a>,
        limit: u32,
    ) -> Result<(S::File, u64), HostRefusal<'a>>
        ensures begins { BeginsKeptSpool limit result self.old.reading.streams self.old.reading.taken
            self.new.reading.taken }
        ensures long { IsTrue S.File.models → IfOk result (λ kept. length (S.File.stands kept.0) ≤ kept.1) }
        ensures blank { IsTrue S.File.models → IfOk result (λ kept. LeavesNoMagic (S.File.stands kept.0)) }
        ensures place { IsTrue S.File.models → OnOk result (WritesPlace S.number S.known (path_of place.entry)
            (S.at self.new.reading.system) self.old.reading.taken self.new.reading.taken) }
        ensures kept { IsTrue S.File.models → KeepsPaths S.at S.holds self.old.reading.system self.new.reading.system }
    {
        let OpenedFile {
            mut file,
            found,
            ..
        } = self.admitted(place, Access::Spool)?;
        match self.reading.taken.blank(&mut file, found, limit as u64) {
            Ok(stands) => Ok((file, stands)),
            Err(error) => Err(HostRefusal::at(HostFault::CannotOpen, place, error.raw_os_error())),
        }
    }

    /// Whether data goes to where standard output goes.
    pub fn is_data_on_output(&self) -> bool {
        self.is_data_on_output
    }

    // The last step for what was written in place, and was closed: if outputs are synced and it was created, its folder is
    // synced, so that its name is stored there.
    pub(crate) fn end_part<'a>(&mut self, place: FileArg<'a>) -> Result<(), HostRefusal<'a>>
        ensures { IsTrue S.File.models → KeepsFiles S.at S.holds self.old.reading.system self.new.reading.system }
    {
        let is_new = mem::replace(&mut self.is_part_new, false);
        self.sync_folder_if(is_new, place)
    }

    // The same for an output that was closed.
    pub(crate) fn end_output<'a>(&mut self, place: FileArg<'a>) -> Result<(), HostRefusal<'a>>
        ensures { IsTrue S.File.models → KeepsFiles S.at S.holds self.old.reading.system self.new.reading.system }
    {
        let is_new = mem::replace(&mut self.is_output_new, false);
        self.sync_folder_if(is_new, place)
    }

    fn sync_folder_if<'a>(
        &mut self,
        is_new: bool,
        place: FileArg<'a>,
    ) -> Result<(), HostRefusal<'a>>
        ensures { IsTrue S.File.models → KeepsFiles S.at S.holds self.old.reading.system self.new.reading.system }
    {
        if !is_new || !self.reading.is_synced {
            return Ok(());
        }
        let Ok(path) = place.path(self.alloc) else {
            return Err(HostRefusal::memory());
        };
        match sync_folder_of(&mut self.reading.system, path.as_str()) {
            Ok(()) => Ok(()),
            Err(error) => {
                Err(HostRefusal::at(HostFault::Write, place, error.raw_os_error()).begun(place))
            }
        }
    }

    /// Fails if a path that is going to be written is a file that is read, or written already.
    pub fn refuse_taken<'a>(&self, place: FileArg<'a>) -> Result<(), HostRefusal<'a>>
        ensures { IsTrue S.File.models → OnOk result (IsFreeAt S.number S.known (path_of place.entry)
            (S.at self.now.reading.system) self.now.reading.taken) }
    {
        let Ok(path) = place.path(self.alloc) else {
            return Err(HostRefusal::memory());
        };
        match identity_at(&self.reading.system, path.as_str()) {
            Some(identity) if self.is_refused(identity) => Err(self.same_file(identity, place)),
            Some(identity) => self.refuse_shared(identity, place),
            None => Ok(()),
        }
    }

    /// Whether something is at this path.
    pub fn is_there<'a>(&self, place: FileArg<'a>) -> Result<bool, HostRefusal<'a>>
        ensures there { IsTrue S.File.models → IfOk result (λ is. is ≡ is_some (S.at self.now.reading.system
            (path_of place.entry))) }
        ensures memory { IfErr result (λ refusal. refusal.fault ≡ HostFault.Memory) }
    {
        match place.path(self.alloc) {
            Ok(path) => Ok(identity_at(&self.reading.system, path.as_str()).is_some()),
            Err(_) => Err(HostRefusal::memory()),
        }
    }

    // Data goes to standard output.
    fn standard<'a>(&mut self, place: FileArg<'a>) -> Result<OutputFile<S::File>, HostRefusal<'a>>
        ensures begins { BeginsOutput result self.old.reading.streams self.old.reading.taken
            self.new.reading.taken }
        ensures place { IsTrue S.File.models → IsIdentityOf S.number S.known S.stdout self.old.reading.streams.out
            → OnOk result (WritesPlace S.number S.known (codes "/dev/stdout") (S.at self.new.reading.system)
            self.old.reading.taken self.new.reading.taken) }
        ensures kept { IsTrue S.File.models → KeepsPaths S.at S.holds self.old.reading.system self.new.reading.system }
    {
        let identity = self.reading.streams.out;
        self.refuse_shared(identity, place)?;
        self.admit(identity, place)?;
        self.look_again(identity, OUTPUT, place)?;
        self.is_data_on_output = true;
        self.is_output_new = false;
        match self.to_sync(identity, place) {
            Ok(file) => {
                let sink = Sink::stream(self.reading.system.output(file));
                self.buffered(place, sink, identity.holds_data)
            }
            Err(refusal) => Err(refusal),
        }
    }

    // A second handle of the file that standard output is, if it is synced at its end.
    fn to_sync<'a>(
        &mut self,
        output: Identity,
        place: FileArg<'a>,
    ) -> Result<Option<S::File>, HostRefusal<'a>>
        ensures data { self.new.is_data_on_output ≡ self.old.is_data_on_output }
        ensures taken { self.new.reading.taken ≡ self.old.reading.taken }
        ensures kept { IsTrue S.File.models → KeepsPaths S.at S.holds self.old.reading.system self.new.reading.system }
    {
        if !self.reading.is_synced {
            return Ok(None);
        }
        if !output.holds_data {
            return self.none_to_sync(place);
        }
        match opened_output(&mut self.reading.system) {
            Ok(file) => Ok(Some(file)),
            Err(error) => Err(not_opened(&error, place)),
        }
    }

    // If standard output is not a file there is nothing to sync. If its identity is not known, it can't be synced.
    fn none_to_sync<'a>(&self, place: FileArg<'a>) -> Result<Option<S::File>, HostRefusal<'a>> {
        let system = &self.reading.system;
        if is_shown(system) || found_of(system, OUTPUT).is_ok() {
            return Ok(None);
        }
        Err(HostRefusal::at(HostFault::CannotOpen, place, None).advised(NOT_SYNCED))
    }

    // An output that collects small writes.
    fn buffered<'a>(
        &self,
        place: FileArg<'a>,
        sink: Sink<S::File>,
        holds_data: bool,
    ) -> Result<OutputFile<S::File>, HostRefusal<'a>>
        requires given { sink.log.state ≡ nothing_logged }
        requires front { is_marred sink.target ≡ false }
        ensures empty { IfOk result (λ output. given_by_writer output.to.writer ≡ []) }
        ensures data { IfOk result (λ output. output.is_data_on_output ≡ self.now.is_data_on_output) }
        ensures synced { IfOk result (λ output. output.is_synced ≡ (self.now.reading.is_synced && holds_data)) }
    {
        let is_synced = self.reading.is_synced && holds_data;
        OutputFile::new(self.alloc, place, sink, is_synced, self.is_data_on_output)
    }

    // Opens an output as it is, and empties it once it is known that it is no other file of this run.
    fn created<'a>(
        &mut self,
        place: FileArg<'a>,
        access: Access,
    ) -> Result<OpenedFile<S::File>, HostRefusal<'a>>
        requires { may_create access ≡ true }
        ensures admits { Admits result self.old.reading.streams self.old.reading.taken
            self.new.reading.taken }
        ensures empty { IfOk result (λ opened. OpensEmpty S.File.models S.File.stands S.File.place S.File.past
            opened.file) }
        ensures place { IsTrue S.File.models → IsAtPlace S.number S.known (path_of place.entry) result
            (S.at self.new.reading.system) }
        ensures kept { IsTrue S.File.models → KeepsPaths S.at S.holds self.old.reading.system self.new.reading.system }
    {
        let mut opened = self.admitted(place, access)?;
        match access {
            Access::Create => self.is_output_new = !opened.was_there,
            Access::CreateFile => self.is_part_new = !opened.was_there,
            _ => {}
        }
        match self.reading.taken.empty(&mut opened.file, opened.found) {
            Ok(()) => Ok(opened),
            Err(error) => Err(HostRefusal::at(HostFault::CannotOpen, place, error.raw_os_error())),
        }
    }

    // Opens an output as it is.
    fn admitted<'a>(
        &mut self,
        place: FileArg<'a>,
        access: Access,
    ) -> Result<OpenedFile<S::File>, HostRefusal<'a>>
        requires { may_write access ≡ true }
        ensures admits { Admits result self.old.reading.streams self.old.reading.taken
            self.new.reading.taken }
        ensures opens { IfOk result (WasOpened S.File.models S.File.stands S.File.place S.File.past
            (may_create access)) }
        ensures place { IsTrue S.File.models → OpensPlace S.number S.known S.which S.File.stands (may_create access)
            (path_of place.entry) result (S.at self.old.reading.system) (S.at self.new.reading.system)
            (S.holds self.old.reading.system) (S.holds self.new.reading.system) }
    {
        let opened = open_file(&mut self.reading.system, place, access)?;
        let descriptor = self.reading.system.descriptor(&opened.file);
        self.refuse_shared(opened.found.identity, place)?;
        self.admit(opened.found.identity, place)?;
        self.look_again(opened.found.identity, descriptor, place)?;
        self.refuse_if_unknown(opened.found, place)?;
        Ok(opened)
    }

    // Fails for a file that holds something if it may be the one that is read as standard input.
    fn refuse_if_unknown<'a>(
        &self,
        found: Found,
        place: FileArg<'a>,
    ) -> Result<(), HostRefusal<'a>> {
        if self.reading.is_input_unknown && found.is_file() && found.length > 0 {
            return Err(HostRefusal::at(HostFault::SameFile, place, None).advised(NOT_KNOWN));
        }
        Ok(())
    }

    // Fails for an output that is open under this descriptor if opening it has made a file that is read this one, and
    // for a block device that is in use.
    fn look_again<'a>(
        &self,
        identity: Identity,
        descriptor: i32,
        place: FileArg<'a>,
    ) -> Result<(), HostRefusal<'a>> {
        let system = &self.reading.system;
        if identity.holds_data && self.reading.read.is_one_now(system, identity, descriptor) {
            return Err(HostRefusal::at(HostFault::SameFile, place, None));
        }
        let Some(device) = identity.block() else {
            return Ok(());
        };
        if self.reading.is_mounted_allowed {
            return Ok(());
        }
        match is_in_use(system, device) {
            Ok(false) => Ok(()),
            Ok(true) => Err(HostRefusal::at(HostFault::Mounted, place, None)),
            Err(_) => Err(HostRefusal::memory()),
        }
    }

    // Fails for a file that is read, or that is written already; no further output may be this one.
    fn admit<'a>(&mut self, identity: Identity, place: FileArg<'a>) -> Result<(), HostRefusal<'a>>
        ensures free { OnOk result (¬ Forbidden self.old.reading.taken identity) }
        ensures apart { OnOk result (¬ Mixed self.old.reading.streams identity) }
        ensures taken { OnOk result (Adds self.old.reading.taken self.new.reading.taken identity) }
        ensures refused { IfErr result (λ refusal.
            (refusal.fault ≡ HostFault.SameFile) ↔ (Forbidden self.old.reading.taken identity
            ⊎ Mixed self.old.reading.streams identity)) }
        ensures untold { IfErr result (λ refusal. Mixed self.old.reading.streams identity
            → IsTrue refusal.about.is_untold) }
        ensures faults { IfErr result (λ refusal.
            (refusal.fault ≡ HostFault.SameFile) ⊎ (refusal.fault ≡ HostFault.Memory)) }
        ensures kept { OnErr result (self.new.reading.taken.files.items ≡ self.old.reading.taken.files.items) }
        ensures on_output { OnOk result (self.old.reading.streams.out ≡ identity → IsTrue self.new.is_data_on_output) }
        ensures system { self.new.reading ≡ record self.old.reading { taken = self.new.reading.taken } }
    {
        if self.is_refused(identity) {
            return Err(self.same_file(identity, place));
        }
        if self.reading.streams.out == identity {
            self.is_data_on_output = true;
        }
        if self.written.push(identity).is_err() {
            return Err(HostRefusal::memory());
        }
        match self.reading.taken.take(identity) {
            Ok(()) => Ok(()),
            Err(_) => Err(HostRefusal::memory()),
        }
    }

    // Whether a file is one of this run, or one in which a message would be mixed with data.
    fn is_refused(&self, identity: Identity) -> bool
        ensures { IsTrue result ↔ (Forbidden self.now.reading.taken identity
            ⊎ Mixed self.now.reading.streams identity) }
    {
        self.reading.taken.forbids(identity) || self.reading.streams.mixes_with(identity)
    }

    // The error for such a file. No message is printed if it would be mixed with data.
    fn same_file<'a>(&self, identity: Identity, place: FileArg<'a>) -> HostRefusal<'a>
        ensures fault { result.fault ≡ HostFault.SameFile }
        ensures untold { IsTrue result.about.is_untold ↔ Mixed self.now.reading.streams identity }
    {
        let is_untold = self.reading.streams.mixes_with(identity);
        let refusal = HostRefusal::at(HostFault::SameFile, place, None);
        let refusal = if self.written.as_slice().contains(&identity) {
            refusal.advised(WRITTEN)
        } else {
            refusal
        };
        refusal.untold_if(is_untold)
    }

    // Fails for a file that shares its storage, under another name, with a file of this run.
    fn refuse_shared<'a>(
        &self,
        identity: Identity,
        place: FileArg<'a>,
    ) -> Result<(), HostRefusal<'a>> {
        let is_untold = self.reading.streams.mixes_with(identity);
        let refusal = HostRefusal::at(HostFault::SameFile, place, None).untold_if(is_untold);
        let files = self.reading.taken.files.as_slice();
        let system = &self.reading.system;
        match is_shared(system, identity, self.written.as_slice()) {
            Ok(true) => return Err(refusal.advised(WRITTEN)),
            Ok(false) => {}
            Err(_) => return Err(HostRefusal::memory()),
        }
        match is_shared(system, identity, files) {
            Ok(true) => Err(refusal),
            Ok(false) => Ok(()),
            Err(_) => Err(HostRefusal::memory()),
        }
    }
}

// Opens standard output once more: to write, or if that is denied to read.
fn opened_output<S: System>(system: &mut S) -> io::Result<S::File>
    ensures { IsTrue S.File.models → KeepsFiles S.at S.holds system.old system.new }
{
    match open_again(system, OUTPUT, Opening::Write) {
        Ok(file) => Ok(file),
        Err(error) if error.kind() == io::ErrorKind::PermissionDenied => {
            open_again(system, OUTPUT, Opening::Read)
        }
        Err(error) => Err(error),
    }
}

// Syncs the folder of a file. Some file systems sync no folders.
fn sync_folder_of<S: System>(system: &mut S, path: &str) -> io::Result<()>
    ensures { IsTrue S.File.models → KeepsFiles S.at S.holds system.old system.new }
{
    let whole = system.whole_path(path)?;
    let Some((folder, _)) = whole.as_str().rsplit_once('/') else {
        return Ok(());
    };
    let folder = if folder.is_empty() { "/" } else { folder };
    let mut folder = system.open(folder, Opening::Read)?;
    match folder.sync() {
        Err(error) if error.raw_os_error() == Some(INVALID) => Ok(()),
        answer => answer,
    }
}

// Makes an empty file this many zeros. On a failure it returns the number of the system's error.
fn zeros_in<F: SystemFile + Drop>(file: F, bytes: u64) -> Result<FilePartition<F>, Option<i32>>
    requires { OpensEmpty F.models F.stands F.place F.past file }
    ensures { IsTrue F.models → IfOk result (λ part. F.stands part.file ≡ replicate bytes 0) }
{
    let mut file = file;
    if let Err(error) = file.set_len(bytes) {
        return Err(error.raw_os_error());
    }
    match FilePartition::new(file) {
        Ok(partition) => Ok(partition),
        Err(_) => Err(None),
    }
}
