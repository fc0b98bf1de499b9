//! The calls of a disk, which a command makes, and what contracts know of its files.

ghost use Rattle.std.specs.Prelude.{◌≡◌, ◌+◌, ℕ, List, [], None, Bool, IsTrue, IfOk, IfErr, OnOk, OnErr, is_ok};
ghost use Rattle.std.specs.Prelude.{is_some, string_bytes, false};
ghost use Rattle.sys_refusals.specs.Paths.{path_in, path_of, path_out};
ghost use Rattle.sys_disk.specs.DiskCalls.{OpensToRead, FailsOnly, RefusesTaken, OpensInPlace, MakesPart, OpensThrough};
ghost use Rattle.sys_disk.specs.DiskCalls.{CreatesOutput, FinishesOutput, LetsGo, LetsImageGo};
ghost use Rattle.sys_disk.specs.Images.{is_file, OfImage, Leaves, EmptiesAt};
ghost use Rattle.sys_disk.specs.InPlace.{closed_part};
ghost use Rattle.sys_disk.specs.LeftOver.{IsNextLeft, path_with};
ghost use Rattle.sys_disk.specs.Spools.{closed_spool, behind_clear};
ghost use Rattle.sys_disk.specs.World.{World, OpenFiles, OpensFile, Creates, OnlyAt, Ends, SparesRest, ended};
ghost use Rattle.sys_disk.specs.Counts.{added, call_of, failure_of, faults_through, memory_of, reads, writes};
ghost use Rattle.sys_disk.specs.World.{KeepsBegun, SparesInUse, counting, number_of};

use crate::{ImageTo, Lasting, Late, NoMemory};
use abt_io::{Input, Output, Overwrite, Partition, Source, Spool};
use std::alloc::AllocError;
use sys_refusals::{FileArg, HostFault, HostRefusal};

/// A device that has the reason why its last call failed.
pub trait Reasons {
    /// The number of the system's error, if the last call failed.
    fn why(&self) -> Option<i32>;
}

/// An input whose length may be known.
pub trait Measured {
    /// The number of bytes from its beginning on, if that is known before they are read.
    fn known_length(&self) -> Option<u64>;
}

/// The files of a run. All inputs are opened before anything is written, and at most one output is open.
///
/// A clause under `IsTrue models` is about the content of files, and binds only a disk that models it. What was opened
/// is given back: an output by `finish` or `give_up`, an input by `let_go` or `let_go_source`. So a disk counts the
/// failures: each of its calls that failed, each fault of a device, and each refusal of memory. What is written has the
/// number of its file, in its frame or its past. So what is given back is what is open.
///
/// What is opened to be written is no block device that is in use, unless the run may write these. Otherwise the call
/// fails, and changes no file.
pub trait Disk {
    /// What is read forward.
    type From: Input + Reasons + Measured + Drop;

    /// What is written from its beginning on.
    type Onto: Output + Reasons + Drop;

    /// What is read at any offset.
    type At: Source + Lasting + Drop;

    /// What is written in place.
    type InPlace: Partition + Drop;

    /// A regular file for an image, which can be overwritten.
    type Image: Late + Reasons + Drop;

    /// What pieces go through.
    type Through: Spool + Overwrite + Drop;

    /// Whether it models the content of its files.
    ghost models: { Bool };

    /// Its files.
    ghost world: { Self → World };

    /// What was opened.
    ghost held: { Self → OpenFiles };

    /// Which paths lead to regular files. There an image can be overwritten.
    ghost is_over: { List ℕ → Bool };

    /// Which paths lead to where standard output goes.
    ghost on_output: { List ℕ → Bool };

    /// Opens what is read forward. `-` is standard input.
    fn input<'a>(&mut self, place: FileArg<'a>) -> Result<Self::From, HostRefusal<'a>>
        requires first { IsTrue models → (held self.old).begun ≡ [] }
        ensures { OpensToRead models result (path_in place.entry) Self.From.remaining Self.From.given
            Self.From.read_faults (held self.old) (held self.new) (world self.old) (world self.new) };

    /// Opens what is read at any offset. `-` is a file of that name.
    fn source<'a>(&mut self, place: FileArg<'a>) -> Result<Self::At, HostRefusal<'a>>
        requires first { IsTrue models → (held self.old).begun ≡ [] }
        ensures { OpensToRead models result (path_of place.entry) Self.At.content Self.At.given Self.At.read_faults
            (held self.old) (held self.new) (world self.old) (world self.new) };

    /// Opens the same. Small reads may be served from earlier reads, so the caller must ask whether the file has become
    /// shorter.
    fn ahead<'a>(&mut self, place: FileArg<'a>) -> Result<Self::At, HostRefusal<'a>>
        requires first { IsTrue models → (held self.old).begun ≡ [] }
        ensures { OpensToRead models result (path_of place.entry) Self.At.content Self.At.given Self.At.read_faults
            (held self.old) (held self.new) (world self.old) (world self.new) };

    /// Opens a source once more, to be read beside the first.
    fn again<'a>(&mut self, at: &Self::At, place: FileArg<'a>) -> Result<Self::At, HostRefusal<'a>>
        ensures content { IsTrue Self.At.models → IfOk result
            (λ again. Self.At.content again ≡ Self.At.content at.now) }
        ensures clean { IsTrue models → IfOk result (λ again. Self.At.read_faults again ≡ 0) }
        ensures held { IsTrue models → held self.new ≡ counting (failure_of result) (held self.old) }
        ensures world { IsTrue models → world self.new ≡ world self.old };

    /// The text of a file, which is UTF-8 and at most 1 MiB. `-` is standard input.
    fn text<'a>(&mut self, place: FileArg<'a>) -> Result<String, HostRefusal<'a>>
        requires first { IsTrue models → (held self.old).begun ≡ [] }
        ensures opened { IsTrue models → IfOk result (λ text. OpensFile (world self.old) (path_in place.entry)
            (string_bytes text) (held self.old) (held self.new)) }
        ensures kept { IsTrue models → IfErr result (λ refusal. held self.new ≡ counting (call_of refusal.fault)
            (held self.old)) }
        ensures world { IsTrue models → world self.new ≡ world self.old };

    /// Closes what was read forward. What it gave and how often it failed is counted.
    fn let_go(&mut self, from: Self::From)
        ensures { FailsOnly models (reads (Self.From.given from) (Self.From.read_faults from)) (held self.old)
            (held self.new) (world self.old) (world self.new) };

    /// Closes what was read at any offset. The same is counted.
    fn let_go_source(&mut self, at: Self::At)
        ensures { FailsOnly models (reads (Self.At.given at) (Self.At.read_faults at)) (held self.old)
            (held self.new) (world self.old) (world self.new) };

    /// Opens an existing file, to be written in place.
    fn partition<'a>(&mut self, place: FileArg<'a>) -> Result<Self::InPlace, HostRefusal<'a>>
        requires one { IsTrue models → (held self.old).part ≡ None }
        ensures { OpensInPlace models result (path_of place.entry) Self.InPlace.content Self.InPlace.past
            Self.InPlace.put_faults (held self.old) (held self.new) (world self.old) (world self.new) };

    /// The number of the system's error, if the last call of what is written in place failed.
    fn why_of_part(&self, part: &Self::InPlace) -> Option<i32>;

    /// The same for the file that pieces go through.
    fn why_of_spool(&self, through: &Self::Through) -> Option<i32>;

    /// Fails if a file that is read is not as it was when it was opened, as far as the system reports it: it has
    /// another length, or another time of modification. Work that writes nothing asks this at its end. What closes or
    /// finishes an output asks it too.
    fn unchanged<'a>(&mut self) -> Result<(), HostRefusal<'a>>
        ensures { FailsOnly models (failure_of result) (held self.old) (held self.new) (world self.old)
            (world self.new) };

    /// Closes the file that is open in place. It holds what the partition holds, and is as long as it was. Returns
    /// whether it is where standard output goes. Fails if the system fails to close it, or if an input has changed.
    fn close<'a>(
        &mut self,
        part: Self::InPlace,
        place: FileArg<'a>,
    ) -> Result<bool, HostRefusal<'a>>
        requires this { IsTrue models → (Self.InPlace.past part).file ≡ number_of (held self.old).part }
        ensures ended { IsTrue models → Ends (held self.old).part (Self.InPlace.content part) (world self.old)
            (world self.new) }
        ensures paths { IsTrue models → (world self.new).at ≡ (world self.old).at }
        ensures closed { IsTrue models → held self.new ≡ counting (failure_of result) (closed_part
            (Self.InPlace.past part) (writes (Self.InPlace.put_faults part)) (held self.old)) }
        ensures rest { IsTrue models → SparesRest (held self.old).part (world self.old) (world self.new) }
        ensures stream { IsTrue models → IfOk result (λ is. is ≡ on_output (path_of place.entry)) };

    /// Creates or empties a regular file, and makes it this many zeros, to be written in place. Fails for any other
    /// kind of file.
    fn zeros<'a>(
        &mut self,
        place: FileArg<'a>,
        bytes: u64,
    ) -> Result<Self::InPlace, HostRefusal<'a>>
        requires one { IsTrue models → (held self.old).part ≡ None }
        ensures { MakesPart models result bytes (path_of place.entry) Self.InPlace.content Self.InPlace.past
            Self.InPlace.put_faults (held self.old) (held self.new) (world self.old) (world self.new) };

    /// Creates or empties the file that pieces of this many bytes go through, which is read again. All bytes in it come
    /// from a source: they are not given back if that has become shorter. Where the file is `keeping` its pages, it
    /// begins with four zeros and may have anything after them, until the first byte is read. What was asked for is
    /// recorded.
    fn spool<'a>(
        &mut self,
        place: FileArg<'a>,
        limit: u32,
        keeping: bool,
        from: &Self::At,
    ) -> Result<Self::Through, HostRefusal<'a>>
        requires one { IsTrue models → (held self.old).spool ≡ None }
        ensures { OpensThrough models result limit keeping (path_of place.entry) Self.Through.Spool.size
            Self.Through.Output.written Self.Through.Spool.cuts (λ through. Self.Through.Output.write_faults through
            + (Self.Through.Input.read_faults through + Self.Through.Spool.clear_faults through))
            (held self.old) (held self.new) (world self.old) (world self.new) };

    /// Closes the file that pieces went through, which holds what it took since the last clear. Fails if a byte of that
    /// could not be written. Returns whether bytes were not given back because its source had changed.
    fn close_spool<'a>(
        &mut self,
        through: Self::Through,
        place: FileArg<'a>,
    ) -> Result<bool, HostRefusal<'a>>
        ensures long { IsTrue models → IfOk result (λ is_changed. is_changed ≡ false) }
        ensures fault { IfErr result (λ refusal. refusal.fault ≡ HostFault.Write) }
        ensures ended { IsTrue models → OnOk result (Ends (held self.old).spool (behind_clear
            (Self.Through.Spool.cuts through) (Self.Through.Output.written through)) (world self.old)
            (world self.new)) }
        ensures closed { IsTrue models → held self.new ≡ closed_spool (added (failure_of result) (faults_through
            (Self.Through.Input.read_faults through) (Self.Through.Output.write_faults through)
            (Self.Through.Spool.clear_faults through))) (held self.old) }
        ensures rest { IsTrue models → SparesRest (held self.old).spool (world self.old) (world self.new) };

    /// Whether a file exists.
    fn is_there<'a>(&mut self, place: FileArg<'a>) -> Result<bool, HostRefusal<'a>>
        ensures there { IsTrue models → IfOk result (λ is. is ≡ is_some ((world self.old).at (path_of place.entry))) }
        ensures memory { IfErr result (λ refusal. refusal.fault ≡ HostFault.Memory) }
        ensures fails { FailsOnly models (failure_of result) (held self.old) (held self.new) (world self.old)
            (world self.new) };

    /// The least number above this one at which a file exists, with that number after the name of this place. A system
    /// that does not list a folder may answer as if only the next number existed.
    fn left_over(&mut self, place: FileArg<'_>, behind: u32) -> Result<Option<u32>, AllocError>
        ensures left { IsTrue models → IfOk result (IsNextLeft (λ n. (world self.old).at (path_with place.entry n))
            behind) }
        ensures fails { FailsOnly models (memory_of result) (held self.old) (held self.new) (world self.old)
            (world self.new) };

    /// Counts a refusal of memory, as the failure of a call.
    fn no_memory(&mut self, refused: NoMemory)
        ensures { FailsOnly models (call_of HostFault.Memory) (held self.old) (held self.new) (world self.old)
            (world self.new) };

    /// Fails if a path that is going to be written leads to a file that is read, or that was begun.
    fn refuse_taken<'a>(&mut self, place: FileArg<'a>) -> Result<(), HostRefusal<'a>>
        ensures { RefusesTaken models result (path_of place.entry) (held self.old) (held self.new) (world self.old)
            (world self.new) };

    /// Creates or empties a file. `-` is a file of that name.
    fn plain<'a>(&mut self, place: FileArg<'a>) -> Result<Self::Onto, HostRefusal<'a>>
        requires one { IsTrue models → (held self.old).output ≡ None }
        ensures { CreatesOutput models result (path_of place.entry) Self.Onto.written
            (λ onto. (Self.Onto.write_frame onto).file) Self.Onto.write_faults (held self.old) (held self.new)
            (world self.old) (world self.new) };

    /// Creates or empties the file of a raw image. `-` is standard output.
    fn raw<'a>(&mut self, place: FileArg<'a>) -> Result<Self::Onto, HostRefusal<'a>>
        requires one { IsTrue models → (held self.old).output ≡ None }
        ensures { CreatesOutput models result (path_out place.entry) Self.Onto.written
            (λ onto. (Self.Onto.write_frame onto).file) Self.Onto.write_faults (held self.old) (held self.new)
            (world self.old) (world self.new) };

    /// Creates or empties the file of an image that has a magic. `-` is standard output. Where it is gathered, much of
    /// what it took may be buffered until its end. So that is for outputs that nobody waits for meanwhile.
    fn image<'a>(
        &mut self,
        place: FileArg<'a>,
        is_gathered: bool,
    ) -> Result<ImageTo<Self::Image, Self::Onto>, HostRefusal<'a>>
        requires one { IsTrue models → (held self.old).output ≡ None }
        ensures empty { IfOk result (OfImage (λ file. Self.Image.Output.written file ≡ [])
            (λ onto. Self.Onto.written onto ≡ [])) }
        ensures clean { IsTrue models → IfOk result (OfImage (λ file. Self.Image.Output.write_faults file ≡ 0)
            (λ onto. Self.Onto.write_faults onto ≡ 0)) }
        ensures this { IsTrue models → IfOk result (OfImage
            (λ file. (Self.Image.Output.write_frame file).file ≡ number_of (held self.new).output)
            (λ onto. (Self.Onto.write_frame onto).file ≡ number_of (held self.new).output)) }
        ensures kind { IsTrue models → IfOk result (λ image. IsTrue (is_over (path_out place.entry))
            → IsTrue (is_file image)) }
        ensures created { IsTrue models → OnOk result (Creates (path_out place.entry) (held self.old) (held self.new)
            (world self.old) (world self.new)) }
        ensures kept { IsTrue models → IfErr result (λ refusal. held self.new ≡ counting (call_of refusal.fault)
            (held self.old)) }
        ensures only { IsTrue models → OnErr result (OnlyAt (held self.old).read (path_out place.entry)
            (world self.old) (world self.new)) }
        ensures begun { IsTrue models → OnErr result (KeepsBegun (held self.old).begun (world self.old)
            (world self.new)) }
        ensures empties { IsTrue models → OnErr result (EmptiesAt (path_out place.entry) (world self.old)
            (world self.new)) }
        ensures guarded { IsTrue models → OnErr result (SparesInUse (path_out place.entry) (held self.old)
            (world self.old) (world self.new)) };

    /// Finishes the open output: all that it took is in its file, and synced if that is wanted. Returns whether it is
    /// where standard output goes. If that fails, its file begins with what it took, but for less than 65,536 bytes at
    /// the end of that.
    fn finish<'a>(&mut self, onto: Self::Onto, place: FileArg<'a>) -> Result<bool, HostRefusal<'a>>
        requires this { IsTrue models → (Self.Onto.write_frame onto).file ≡ number_of (held self.old).output }
        ensures { FinishesOutput models result (on_output (path_out place.entry)) (Self.Onto.written onto)
            (writes (Self.Onto.write_faults onto)) (held self.old) (held self.new) (world self.old) (world self.new) };

    /// Closes the open output after the work before has failed. Its file holds what it took, unless a write failed, or
    /// the close did. Also then its file begins with what it took, but for less than 65,536 bytes at the end of that.
    fn give_up(&mut self, onto: Self::Onto)
        requires this { IsTrue models → (Self.Onto.write_frame onto).file ≡ number_of (held self.old).output }
        ensures { IsTrue models → LetsGo (Self.Onto.written onto) (writes (Self.Onto.write_faults onto)) (held self.old)
            (held self.new) (world self.old) (world self.new) };

    /// Finishes the open image, as `finish` does. If that fails, its file holds all of it anyway, or has no magic at
    /// its beginning.
    fn finish_image<'a>(
        &mut self,
        image: Self::Image,
        place: FileArg<'a>,
    ) -> Result<bool, HostRefusal<'a>>
        requires this { IsTrue models → (Self.Image.Output.write_frame image).file
            ≡ number_of (held self.old).output }
        ensures ended { IsTrue models → OnOk result (Ends (held self.old).output (Self.Image.Output.written image)
            (world self.old) (world self.new)) }
        ensures left { IsTrue models → OnErr result (Leaves (held self.old).output (Self.Image.Output.written image)
            (world self.new)) }
        ensures closed { IsTrue models → held self.new ≡ ended (is_ok result)
            (added (failure_of result) (writes (Self.Image.Output.write_faults image))) (held self.old) }
        ensures rest { IsTrue models → SparesRest (held self.old).output (world self.old) (world self.new) }
        ensures stream { IsTrue models → IfOk result (λ is. is ≡ on_output (path_out place.entry)) };

    /// Closes the open image after the work before has failed. Its file holds what was written, or has no magic at its
    /// beginning.
    fn give_up_image(&mut self, image: Self::Image)
        requires this { IsTrue models → (Self.Image.Output.write_frame image).file
            ≡ number_of (held self.old).output }
        ensures { LetsImageGo models (Self.Image.Output.written image) (writes (Self.Image.Output.write_faults image))
            (held self.old) (held self.new) (world self.old) (world self.new) };

    /// The inputs that it opens model their content.
    ghost told: { IsTrue models → IsTrue Self.From.models };

    ghost source_told: { IsTrue models → IsTrue Self.At.models };

    /// What it opens to be written in place models its content.
    ghost part_told: { IsTrue models → IsTrue Self.InPlace.models };

    /// And so does what pieces go through.
    ghost through_told: { IsTrue models → IsTrue Self.Through.Input.models };
}
