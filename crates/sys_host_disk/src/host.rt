//! The files of the system as a disk.

ghost use Rattle.std.specs.Prelude.{◌≡◌, ◌⊎◌, [], None, false, IsTrue, IfOk, IfErr, OnOk, OnErr, codes, is_some, replicate};
ghost use Rattle.std.specs.Prelude.{option_map, IsOk};
ghost use Rattle.abt_io.specs.Frame.{nothing_logged};
ghost use Rattle.std.proofs.lemmas.Bool.{false≢true};
ghost use Rattle.sys_devices.specs.Writes.{LeavesNoMagic, since_cut};
ghost use Rattle.sys_disk.specs.Counts.{no_counts};
ghost use Rattle.sys_disk.specs.Images.{HasNoFront, OfImage};
ghost use Rattle.sys_disk.specs.World.{HasMost};
ghost use Rattle.sys_disk.specs.LeftOver.{IsNextLeft, path_with};
ghost use Rattle.sys_file.specs.System.{ClosesFile, KeepsFiles};
ghost use Rattle.sys_finish.specs.Given.{given_by_writer};
ghost use Rattle.sys_host.specs.Ends.{ClosesSo, ClosesWith};
ghost use Rattle.sys_host.specs.Places.{IsFreeAt, KeepsPaths, ReadsPlace, WritesOver, WritesPlace};
ghost use Rattle.sys_host_disk.specs.Ends.{ClosesGivenUp, ClosesOne, IsAnything};
ghost use Rattle.sys_host_disk.specs.Files.{streams_of, system_of, taken_of};
ghost use Rattle.sys_host_disk.specs.Sources.{shared_by};
ghost use Rattle.sys_identity.specs.Identity.{IsIdentityOf};
ghost use Rattle.sys_refusals.specs.Paths.{path_in, path_of, path_out};

use crate::source::HostSource;
use abt_io::{Input, Source, Tally};
use std::alloc::AllocError;
use sys_devices::{FilePartition, GatheringSpool};
use sys_disk::{Disk, ImageTo, NoMemory};
use sys_file::System;
use sys_finish::{ImageFile, OutputFile};
use sys_host::{InputFile, Reading, Writing, not_opened};
use sys_identity::{INPUT, is_standard_input, standard_source_again};
use sys_numbered_names::next_number;
use sys_refusals::{FileArg, HostFault, HostRefusal};

/// The file calls of a run. It models nothing.
#[derive(Drop)]
pub struct Host<S: System + Drop> {
    pub(crate) writing: Writing<S>,
    // How often an output that was given up did not take all that it was given.
    pub(crate) lost: Tally,
    // What goes through a spool is checked at the end of each piece: a change after the last one does no harm.
    is_looked_at: bool,
}

impl<S: System + Drop> Host<S> {
    /// Begins with the inputs that are open, if there are any.
    pub fn new(reading: Reading<S>) -> Host<S> {
        Host {
            writing: reading.all_open(),
            lost: Tally::new(),
            is_looked_at: false,
        }
    }

    /// The system that opens its files.
    pub fn system(&mut self) -> &mut S {
        &mut self.writing.reading.system
    }

    /// Each output that is a file or a block device is going to be synced at its end.
    pub fn sync_all(&mut self) {
        self.writing.reading.sync_outputs();
    }

    /// Block devices that are in use may be written: mounted, or swap.
    pub fn allow_all(&mut self) {
        self.writing.reading.allow_mounted();
    }

    // Fails if a file that is read has changed, and is not one that is checked at the end of each piece.
    fn unchanged_at_end<'a>(&self) -> Result<(), HostRefusal<'a>>
        ensures { IsTrue self.now.is_looked_at → IsOk result }
    {
        if self.is_looked_at {
            return Ok(());
        }
        self.writing.reading.unchanged()
    }

    // Reads standard input at any offset.
    fn standard<'a>(&mut self, place: FileArg<'a>) -> Result<HostSource<S::File>, HostRefusal<'a>>
        ensures place { IsTrue S.File.models → IfOk result (λ it. ReadsPlace S.number S.known (codes "/dev/stdin")
            (⟦<HostSource<S::File> as Source>⟧.content it) (S.at (system_of self.old)) (S.holds (system_of self.old))
            (taken_of self.old) (taken_of self.new)) }
        ensures keeps { IsTrue S.File.models → KeepsFiles S.at S.holds (system_of self.old) (system_of self.new) }
    {
        match self.writing.reading.standard_source(place) {
            Ok(source) => Ok(HostSource::Standard(source)),
            Err(refusal) => Err(refusal),
        }
    }
}

impl<S: System + Drop> Disk for Host<S> {
    type From = InputFile<S::File>;

    type Onto = OutputFile<S::File>;

    type At = HostSource<S::File>;

    type InPlace = FilePartition<S::File>;

    type Image = ImageFile<S::File>;

    type Through = GatheringSpool<S::File>;

    ghost models = { false };

    ghost world = { λ _. record { at = λ _. None; holds = λ _. [] } };

    ghost held = { λ _. record {
      read = [];
      begun = [];
      output = None;
      part = None;
      spool = None;
      keeps = false;
      is_synced = false;
      syncs = 0;
      in_use = λ _. false;
      allows_mounted = false;
      counts = no_counts;
    } };

    ghost is_over = { λ _. false };

    ghost on_output = { λ _. false };

    ghost told = { λ t. absurd (false≢true t) };

    ghost source_told = { λ t. absurd (false≢true t) };

    ghost part_told = { λ t. absurd (false≢true t) };

    ghost through_told = { λ t. absurd (false≢true t) };

    fn input<'a>(&mut self, place: FileArg<'a>) -> Result<InputFile<S::File>, HostRefusal<'a>>
        ensures place { IsTrue S.File.models → IfOk result (λ it. ReadsPlace S.number S.known (path_in place.entry)
            (⟦<InputFile<S::File> as Input>⟧.remaining it) (S.at (system_of self.old)) (S.holds (system_of self.old))
            (taken_of self.old) (taken_of self.new)) }
        ensures keeps { IsTrue S.File.models → KeepsFiles S.at S.holds (system_of self.old) (system_of self.new) }
    {
        self.writing.reading.input(place)
    }

    fn source<'a>(&mut self, place: FileArg<'a>) -> Result<HostSource<S::File>, HostRefusal<'a>>
        ensures place { IsTrue S.File.models → IfOk result (λ it. ReadsPlace S.number S.known (path_of place.entry)
            (⟦<HostSource<S::File> as Source>⟧.content it) (S.at (system_of self.old)) (S.holds (system_of self.old))
            (taken_of self.old) (taken_of self.new)) }
        ensures keeps { IsTrue S.File.models → KeepsFiles S.at S.holds (system_of self.old) (system_of self.new) }
    {
        if is_standard_input(&place) {
            return self.standard(place);
        }
        match self.writing.reading.source(place) {
            Ok(source) => Ok(HostSource::Plain(source)),
            Err(refusal) => Err(refusal),
        }
    }

    fn ahead<'a>(&mut self, place: FileArg<'a>) -> Result<HostSource<S::File>, HostRefusal<'a>>
        ensures place { IsTrue S.File.models → IfOk result (λ it. ReadsPlace S.number S.known (path_of place.entry)
            (⟦<HostSource<S::File> as Source>⟧.content it) (S.at (system_of self.old)) (S.holds (system_of self.old))
            (taken_of self.old) (taken_of self.new)) }
        ensures keeps { IsTrue S.File.models → KeepsFiles S.at S.holds (system_of self.old) (system_of self.new) }
    {
        if is_standard_input(&place) {
            return self.standard(place);
        }
        let source = self.writing.reading.source(place)?;
        match HostSource::ahead(self.writing.alloc, source) {
            Ok(source) => Ok(source),
            Err(_) => Err(HostRefusal::memory()),
        }
    }

    fn again<'a>(
        &mut self,
        at: &HostSource<S::File>,
        place: FileArg<'a>,
    ) -> Result<HostSource<S::File>, HostRefusal<'a>>
        ensures content { IsTrue S.File.models → IfOk result (λ again. ⟦<HostSource<S::File> as Source>⟧.content again
            ≡ ⟦<HostSource<S::File> as Source>⟧.content at.now) }
        ensures system { system_of self.new ≡ system_of self.old }
    {
        let source = match at {
            HostSource::Plain(source) => source,
            HostSource::Ahead(source) => &source.file().source,
            HostSource::Standard(source) => {
                return match standard_source_again(&self.writing.reading.system, source) {
                    Ok(source) => Ok(HostSource::Standard(source)),
                    Err(error) => Err(not_opened(&error, place)),
                };
            }
        };
        match self.writing.reading.again(source, place) {
            Ok(source) => Ok(HostSource::Plain(source)),
            Err(refusal) => Err(refusal),
        }
    }

    fn text<'a>(&mut self, place: FileArg<'a>) -> Result<String, HostRefusal<'a>>
        ensures keeps { IsTrue S.File.models → KeepsFiles S.at S.holds (system_of self.old) (system_of self.new) }
    {
        self.writing.reading.text(place)
    }

    fn let_go(&mut self, from: InputFile<S::File>) {
        let descriptor = self.writing.reading.system.descriptor(from.file());
        self.writing.reading.let_go(descriptor);
    }

    fn let_go_source(&mut self, at: HostSource<S::File>) {
        if at.is_standard() {
            self.writing.reading.let_go(INPUT);
        } else if let Some(file) = at.file() {
            let descriptor = self.writing.reading.system.descriptor(file);
            self.writing.reading.let_go(descriptor);
        }
    }

    fn unchanged<'a>(&mut self) -> Result<(), HostRefusal<'a>> {
        self.writing.reading.unchanged()
    }

    fn partition<'a>(
        &mut self,
        place: FileArg<'a>,
    ) -> Result<FilePartition<S::File>, HostRefusal<'a>>
        ensures place { IsTrue S.File.models → IfOk result (λ part. WritesOver S.number S.known (path_of place.entry)
            (S.File.stands part.file) (S.at (system_of self.new)) (S.holds (system_of self.old)) (taken_of self.old)
            (taken_of self.new)) }
        ensures keeps { IsTrue S.File.models → KeepsFiles S.at S.holds (system_of self.old) (system_of self.new) }
    {
        self.writing.partition(place)
    }

    fn why_of_part(&self, part: &FilePartition<S::File>) -> Option<i32> {
        part.why()
    }

    fn why_of_spool(&self, through: &GatheringSpool<S::File>) -> Option<i32> {
        through.why()
    }

    fn close<'a>(
        &mut self,
        part: FilePartition<S::File>,
        place: FileArg<'a>,
    ) -> Result<bool, HostRefusal<'a>>
        ensures { IsTrue S.File.models → ClosesFile (S.which part.file) (S.File.stands part.file)
            (S.at (system_of self.old)) (S.at (system_of self.new)) (S.holds (system_of self.old))
            (S.holds (system_of self.new)) }
    {
        let looked = self.unchanged_at_end();
        self.writing.close(part, place)?;
        match looked {
            Ok(()) => Ok(self.writing.is_data_on_output()),
            Err(refusal) => Err(refusal),
        }
    }

    fn zeros<'a>(
        &mut self,
        place: FileArg<'a>,
        bytes: u64,
    ) -> Result<FilePartition<S::File>, HostRefusal<'a>>
        ensures zeros { IsTrue S.File.models → IfOk result (λ part. S.File.stands part.file ≡ replicate bytes 0) }
        ensures place { IsTrue S.File.models → OnOk result (WritesPlace S.number S.known (path_of place.entry)
            (S.at (system_of self.new)) (taken_of self.old) (taken_of self.new)) }
        ensures kept { IsTrue S.File.models → KeepsPaths S.at S.holds (system_of self.old) (system_of self.new) }
    {
        self.writing.zeros(place, bytes)
    }

    fn spool<'a>(
        &mut self,
        place: FileArg<'a>,
        limit: u32,
        keeping: bool,
        from: &HostSource<S::File>,
    ) -> Result<GatheringSpool<S::File>, HostRefusal<'a>>
        ensures capacity { IfOk result (λ through. through.capacity ≡ limit) }
        ensures keeping { IfOk result (λ through. through.is_keeping ≡ keeping) }
        ensures nothing { IfOk result (λ through. through.log.state ≡ nothing_logged) }
        ensures source { IfOk result (λ through. option_map (λ file. file.value) through.from ≡ shared_by from.now) }
        ensures empty { IsTrue S.File.models → keeping ≡ false → IfOk result (λ through.
            S.File.stands through.behind.file ≡ []) }
        ensures blank { IsTrue S.File.models → IfOk result (λ through. LeavesNoMagic
            (S.File.stands through.behind.file)) }
        ensures place { IsTrue S.File.models → OnOk result (WritesPlace S.number S.known (path_of place.entry)
            (S.at (system_of self.new)) (taken_of self.old) (taken_of self.new)) }
        ensures kept { IsTrue S.File.models → KeepsPaths S.at S.holds (system_of self.old) (system_of self.new) }
        ensures looked { IfOk result (λ through. self.new.is_looked_at ≡ is_some through.from) }
    {
        let Ok(from) = from.shared() else {
            return Err(HostRefusal::memory());
        };
        self.is_looked_at = from.is_some();
        let alloc = self.writing.alloc;
        if !keeping {
            let file = self.writing.spool(place)?;
            return Ok(GatheringSpool::new(alloc, file, limit as u64, from, 0));
        }
        let (file, stands) = self.writing.kept_spool(place, limit)?;
        Ok(GatheringSpool::keeping(alloc, file, limit as u64, from, stands))
    }

    fn close_spool<'a>(
        &mut self,
        through: GatheringSpool<S::File>,
        place: FileArg<'a>,
    ) -> Result<bool, HostRefusal<'a>>
        ensures whole { IsTrue S.File.models → OnOk result (ClosesWith S.which S.File.stands S.File.past false
            (since_cut through.log.state) (S.at (system_of self.old)) (S.at (system_of self.new))
            (S.holds (system_of self.old)) (S.holds (system_of self.new))) }
        ensures closes { IsTrue S.File.models → ClosesOne S.which S.File.stands (S.at (system_of self.old))
            (S.at (system_of self.new)) (S.holds (system_of self.old)) (S.holds (system_of self.new)) }
        ensures short { IfOk result (λ is_changed. IsTrue through.is_from_short → IsTrue is_changed) }
        ensures looked { IsTrue self.old.is_looked_at → IfOk result (λ is_changed. is_changed
            ≡ through.is_from_short) }
        ensures fault { IfErr result (λ refusal. refusal.fault ≡ HostFault.Write) }
    {
        let mut through = through;
        let settled = through.settle();
        let is_changed = settled.is_ok() && self.unchanged_at_end().is_err();
        let is_from_short = through.is_from_short();
        self.writing.reading.system.close(through.into_file());
        match settled {
            Ok(()) => Ok(is_from_short || is_changed),
            Err(_) => Err(HostRefusal::at(HostFault::Write, place, None)),
        }
    }

    fn is_there<'a>(&mut self, place: FileArg<'a>) -> Result<bool, HostRefusal<'a>>
        ensures there { IsTrue S.File.models → IfOk result (λ is. is ≡ is_some (S.at (system_of self.old)
            (path_of place.entry))) }
        ensures memory { IfErr result (λ refusal. refusal.fault ≡ HostFault.Memory) }
    {
        self.writing.is_there(place)
    }

    fn left_over(&mut self, place: FileArg<'_>, behind: u32) -> Result<Option<u32>, AllocError>
        ensures left { IsTrue S.File.models → IfOk result (IsNextLeft (λ n. S.at (system_of self.old)
            (path_with place.entry n)) behind) }
        ensures same { self.new ≡ self.old }
    {
        let prefix = FileArg {
            number: None,
            ..place
        };
        let prefix = prefix.path(self.writing.alloc)?;
        next_number(&self.writing.reading.system, prefix.as_str(), behind)
    }

    fn no_memory(&mut self, _refused: NoMemory)
        ensures { self.new ≡ self.old }
    {}

    fn refuse_taken<'a>(&mut self, place: FileArg<'a>) -> Result<(), HostRefusal<'a>>
        ensures { IsTrue S.File.models → OnOk result (IsFreeAt S.number S.known (path_of place.entry)
            (S.at (system_of self.old)) (taken_of self.old)) }
    {
        self.writing.refuse_taken(place)
    }

    fn plain<'a>(&mut self, place: FileArg<'a>) -> Result<OutputFile<S::File>, HostRefusal<'a>>
        ensures empty { IfOk result (λ output. given_by_writer output.to.writer ≡ []) }
        ensures place { IsTrue S.File.models → OnOk result (WritesPlace S.number S.known (path_of place.entry)
            (S.at (system_of self.new)) (taken_of self.old) (taken_of self.new)) }
        ensures kept { IsTrue S.File.models → KeepsPaths S.at S.holds (system_of self.old) (system_of self.new) }
    {
        self.writing.plain(place)
    }

    fn raw<'a>(&mut self, place: FileArg<'a>) -> Result<OutputFile<S::File>, HostRefusal<'a>>
        ensures empty { IfOk result (λ output. given_by_writer output.to.writer ≡ []) }
        ensures place { IsTrue S.File.models → IsIdentityOf S.number S.known S.stdout (streams_of self.old).out
            → OnOk result (WritesPlace S.number S.known (path_out place.entry)
            (S.at (system_of self.new)) (taken_of self.old) (taken_of self.new)) }
        ensures kept { IsTrue S.File.models → KeepsPaths S.at S.holds (system_of self.old) (system_of self.new) }
    {
        self.writing.raw(place)
    }

    fn finish<'a>(
        &mut self,
        onto: OutputFile<S::File>,
        place: FileArg<'a>,
    ) -> Result<bool, HostRefusal<'a>>
        ensures ended { IsTrue S.File.models → OnOk result (ClosesWith S.which S.File.stands S.File.past onto.is_synced
            (given_by_writer onto.to.writer) (S.at (system_of self.old)) (S.at (system_of self.new))
            (S.holds (system_of self.old)) (S.holds (system_of self.new))) }
        ensures most { IsTrue S.File.models → OnErr result (ClosesSo S.which S.File.stands
            (HasMost (given_by_writer onto.to.writer)) (S.at (system_of self.old)) (S.at (system_of self.new))
            (S.holds (system_of self.old)) (S.holds (system_of self.new))) }
    {
        if let Err(refusal) = self.writing.reading.unchanged() {
            self.give_up_output(onto);
            return Err(refusal.begun(place));
        }
        self.writing.finish(onto, place)
    }

    fn give_up(&mut self, onto: OutputFile<S::File>)
        ensures { IsTrue S.File.models → ClosesGivenUp S.which S.File.stands self.old.lost self.new.lost
            (λ bytes. bytes ≡ given_by_writer onto.to.writer) (HasMost (given_by_writer onto.to.writer))
            (S.at (system_of self.old)) (S.at (system_of self.new)) (S.holds (system_of self.old))
            (S.holds (system_of self.new)) }
    {
        self.give_up_output(onto)
    }

    fn image<'a>(
        &mut self,
        place: FileArg<'a>,
        is_gathered: bool,
    ) -> Result<ImageTo<ImageFile<S::File>, OutputFile<S::File>>, HostRefusal<'a>>
        ensures empty { IfOk result (OfImage (λ image. given_by_writer image.to.writer ≡ [])
            (λ output. given_by_writer output.to.writer ≡ [])) }
        ensures place { IsTrue S.File.models → IsIdentityOf S.number S.known S.stdout (streams_of self.old).out
            → OnOk result (WritesPlace S.number S.known (path_out place.entry)
            (S.at (system_of self.new)) (taken_of self.old) (taken_of self.new)) }
        ensures kept { IsTrue S.File.models → KeepsPaths S.at S.holds (system_of self.old) (system_of self.new) }
    {
        self.writing.image(place, is_gathered)
    }

    fn finish_image<'a>(
        &mut self,
        image: ImageFile<S::File>,
        place: FileArg<'a>,
    ) -> Result<bool, HostRefusal<'a>>
        ensures { IsTrue S.File.models → OnOk result (ClosesWith S.which S.File.stands S.File.past image.is_synced
            (given_by_writer image.to.writer) (S.at (system_of self.old)) (S.at (system_of self.new))
            (S.holds (system_of self.old)) (S.holds (system_of self.new))) }
    {
        if let Err(refusal) = self.writing.reading.unchanged() {
            self.give_up_blank(image);
            return Err(refusal.begun(place));
        }
        self.writing.finish_image(image, place)
    }

    fn give_up_image(&mut self, image: ImageFile<S::File>)
        ensures { IsTrue S.File.models → ClosesGivenUp S.which S.File.stands self.old.lost self.new.lost
            (λ bytes. (bytes ≡ given_by_writer image.to.writer) ⊎ HasNoFront bytes) IsAnything
            (S.at (system_of self.old)) (S.at (system_of self.new)) (S.holds (system_of self.old))
            (S.holds (system_of self.new)) }
    {
        if self.writing.reading.unchanged().is_err() {
            self.give_up_blank(image);
        } else {
            self.give_up_whole(image);
        }
    }
}
