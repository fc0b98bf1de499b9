//! Writes one piece of an image to a file of its own.

ghost use Rattle.std.specs.Prelude.{◌≡◌, [], None, IsTrue, IfErr, IfOk, OnOk, OnErr};
ghost use Rattle.sys_refusals.specs.Blamed.{TellsOf, input_of};
ghost use Rattle.sys_refusals.specs.Paths.{path_out};
ghost use Rattle.cmd_common_sparse.specs.Fault.{side_of};
ghost use Rattle.cmd_cut.specs.Cutting.{AddsNone, AddsPiece, CutsPiece, OnlyLeaves, PutsPiece, ReadyPiece};
ghost use Rattle.cmd_cut.specs.Cutting.{FailsBeside, IsOutsideCut, NoneFailsBeside, NumbersOfPiece, cut_into};
ghost use Rattle.cmd_cut.specs.Leaving.{HoldsNoneOrPiece, KeepsOrHolds};
ghost use Rattle.cmd_cut.specs.Sparsing.{GivesUp, ReadyOutput};
ghost use Rattle.sys_disk.specs.Images.{Leaves};
ghost use Rattle.sys_disk.specs.World.{MayWrite, number_of};

use crate::next_piece::{LaysPieces, write_next};
use crate::stopped_command::stopped;
use abt_io::{Meter, Window};
use abt_pieces::Piece;
use abt_runs::BlockRuns;
use cmd_common_sparse::{PiecesOf, SparseCommandFault, SparseRefusal};
use sys_disk::{Disk, ImageTo, Lasting, Reasons, ended};
use sys_refusals::{FileArg, HostFault, HostRefusal, Sides};
use sys_report::{Carried, Progress};

/// Writes the next piece to a file, which is created or emptied, and closes that file. Returns the piece, and whether
/// its file is where standard output goes. For a pipe or a device the image is read `passes` times.
pub(crate) fn put_piece<'a, D: Disk, B: BlockRuns + LaysPieces + Drop>(
    disk: &mut D,
    pieces: &mut PiecesOf<B>,
    source: &mut Carried<'_, D::At>,
    place: FileArg<'a>,
    sides: Sides<'a>,
    passes: u64,
    w: &mut Window,
    m: &mut Meter,
) -> Result<(Piece, bool), SparseRefusal<'a>>
    requires one { IsTrue D.models → (D.held disk.old).output ≡ None }
    requires ready { ReadyPiece B.BlockRuns D.At.Source pieces.old.cutter.runs source.old.device
        pieces.old.cutter.limit pieces.old.cutter.made pieces.old.cutter.start pieces.old.cutter.stage }
    // its file is a new one, and holds it
    ensures adds { IsTrue D.models → OnOk result (AddsPiece (cut_into pieces.old.cutter.limit
        (B.size pieces.old.cutter.runs) (B.list pieces.old.cutter.runs (D.At.content source.old.device)))
        pieces.old.cutter.made (path_out place.entry) (D.held disk.old) (D.held disk.new) (D.world disk.old)
        (D.world disk.new)) }
    ensures keeps { IsTrue D.models → OnErr result (AddsNone (D.held disk.old) (D.held disk.new) (D.world disk.old)
        (D.world disk.new)) }
    // where its file can be overwritten, it has no part of the piece
    ensures broken { IsTrue D.models → IsTrue (D.is_over (path_out place.entry)) → OnErr result (KeepsOrHolds
        (cut_into pieces.old.cutter.limit (B.size pieces.old.cutter.runs) (B.list pieces.old.cutter.runs
        (D.At.content source.old.device))) pieces.old.cutter.made (path_out place.entry) (D.world disk.old)
        (D.world disk.new)) }
    // whatever the outcome, no other file was changed, nor this one where it is in use and that is not allowed, and
    // none is open
    ensures left { IsTrue D.models → OnlyLeaves (λ path. (path ≡ path_out place.entry)
        × MayWrite path (D.held disk.old)) (D.held disk.old) (D.held disk.new) (D.world disk.old) (D.world disk.new) }
    ensures told { IsTrue D.models → IfOk result (λ end. NumbersOfPiece pieces.old.cutter.limit
        (B.size pieces.old.cutter.runs) (B.list pieces.old.cutter.runs (D.At.content source.old.device))
        pieces.old.cutter.made end.0) }
    ensures stream { IsTrue D.models → IfOk result (λ end. end.1 ≡ D.on_output (path_out place.entry)) }
    ensures cuts { CutsPiece result (λ end. end.0) B.BlockRuns D.At.Source pieces.old.cutter.runs
        pieces.new.cutter.runs source.old.device source.new.device pieces.old.cutter.limit pieces.new.cutter.limit
        pieces.old.cutter.made pieces.new.cutter.made pieces.old.cutter.start pieces.new.cutter.start
        pieces.new.cutter.stage }
    // it fails where the device has failed that the fault is of, or a call of the disk has returned it
    ensures clean { IsTrue D.models → OnOk result (NoneFailsBeside (D.At.read_faults source.old.device)
        (D.At.read_faults source.new.device) (D.held disk.old) (D.held disk.new)) }
    ensures outside { IsTrue D.models → IfErr result (λ refusal. IsOutsideCut (FailsBeside
        (D.At.read_faults source.old.device) (D.At.read_faults source.new.device) (D.held disk.old)
        (D.held disk.new)) refusal.fault) }
    // a fault of what is read is told of IN, and one of what is written of this file
    ensures told_of { IfErr result (λ refusal. TellsOf (side_of refusal.fault) refusal.about.place
        (input_of sides.entry) (Some place.entry)) }
{
    let image = disk.image(place, true)?;
    repeat_first(source.progress, pieces.cutter.made, times(&image, passes));
    source.device.forget();
    match image {
        ImageTo::File(file) => put_in_file(disk, pieces, source, file, place, sides, w, m),
        ImageTo::Stream(onto) => put_in_stream(disk, pieces, source, onto, place, sides, w, m),
    }
}

// Before the first piece, the progress learns how often the image is read. One read counts up to its last position.
fn repeat_first(progress: &mut Progress, made: u64, times: u64) {
    if made == 0 {
        progress.repeat(times);
        if times == 1 {
            progress.follow();
        }
    }
}

// How often the image is read.
fn times<F, S>(image: &ImageTo<F, S>, passes: u64) -> u64 {
    match image {
        ImageTo::File(_) => 1,
        ImageTo::Stream(_) => passes,
    }
}

// Writes the next piece to a file that is written over.
fn put_in_file<'a, D: Disk, B: BlockRuns + LaysPieces + Drop>(
    disk: &mut D,
    pieces: &mut PiecesOf<B>,
    source: &mut Carried<'_, D::At>,
    image: D::Image,
    place: FileArg<'a>,
    sides: Sides<'a>,
    w: &mut Window,
    m: &mut Meter,
) -> Result<(Piece, bool), SparseRefusal<'a>>
    requires output { ReadyOutput D.models D.Image.Output image (D.held disk.old).output }
    requires ready { ReadyPiece B.BlockRuns D.At.Source pieces.old.cutter.runs source.old.device
        pieces.old.cutter.limit pieces.old.cutter.made pieces.old.cutter.start pieces.old.cutter.stage }
    ensures puts { IsTrue D.models → PutsPiece result (λ refusal. refusal.fault) (cut_into pieces.old.cutter.limit
        (B.size pieces.old.cutter.runs) (B.list pieces.old.cutter.runs (D.At.content source.old.device)))
        pieces.old.cutter.made (D.At.read_faults source.old.device) (D.At.read_faults source.new.device)
        (D.held disk.old) (D.held disk.new) (D.world disk.old) (D.world disk.new) }
    ensures told { IsTrue D.models → IfOk result (λ end. NumbersOfPiece pieces.old.cutter.limit
        (B.size pieces.old.cutter.runs) (B.list pieces.old.cutter.runs (D.At.content source.old.device))
        pieces.old.cutter.made end.0) }
    ensures stream { IsTrue D.models → IfOk result (λ end. end.1 ≡ D.on_output (path_out place.entry)) }
    ensures cuts { CutsPiece result (λ end. end.0) B.BlockRuns D.At.Source pieces.old.cutter.runs
        pieces.new.cutter.runs source.old.device source.new.device pieces.old.cutter.limit pieces.new.cutter.limit
        pieces.old.cutter.made pieces.new.cutter.made pieces.old.cutter.start pieces.new.cutter.start
        pieces.new.cutter.stage }
    ensures broken { IsTrue D.models → OnErr result (HoldsNoneOrPiece (cut_into pieces.old.cutter.limit
        (B.size pieces.old.cutter.runs) (B.list pieces.old.cutter.runs (D.At.content source.old.device)))
        pieces.old.cutter.made (D.held disk.old).output (D.world disk.new)) }
    // a fault of what is read is told of IN, and one of what is written of this file
    ensures told_of { IfErr result (λ refusal. TellsOf (side_of refusal.fault) refusal.about.place
        (input_of sides.entry) (Some place.entry)) }
{
    let (image, answer) = B::lay_next(&mut pieces.cutter, source, image, w, m);
    match answer {
        Ok(piece) => match disk.finish_image(image, place) {
            Ok(is_on_output) => Ok((piece, is_on_output)),
            Err(refusal) => Err(refusal.into()),
        },
        Err(SparseCommandFault::Host(_)) => Err(unended(disk, image, place)),
        Err(fault) => Err(stopped(disk, fault, image, place, sides)),
    }
}

// The same for an output that is written from its first byte on.
fn put_in_stream<'a, D: Disk, B: BlockRuns + LaysPieces + Drop>(
    disk: &mut D,
    pieces: &mut PiecesOf<B>,
    source: &mut Carried<'_, D::At>,
    onto: D::Onto,
    place: FileArg<'a>,
    sides: Sides<'a>,
    w: &mut Window,
    m: &mut Meter,
) -> Result<(Piece, bool), SparseRefusal<'a>>
    requires output { ReadyOutput D.models D.Onto.Output onto (D.held disk.old).output }
    requires ready { ReadyPiece B.BlockRuns D.At.Source pieces.old.cutter.runs source.old.device
        pieces.old.cutter.limit pieces.old.cutter.made pieces.old.cutter.start pieces.old.cutter.stage }
    ensures puts { IsTrue D.models → PutsPiece result (λ refusal. refusal.fault) (cut_into pieces.old.cutter.limit
        (B.size pieces.old.cutter.runs) (B.list pieces.old.cutter.runs (D.At.content source.old.device)))
        pieces.old.cutter.made (D.At.read_faults source.old.device) (D.At.read_faults source.new.device)
        (D.held disk.old) (D.held disk.new) (D.world disk.old) (D.world disk.new) }
    ensures told { IsTrue D.models → IfOk result (λ end. NumbersOfPiece pieces.old.cutter.limit
        (B.size pieces.old.cutter.runs) (B.list pieces.old.cutter.runs (D.At.content source.old.device))
        pieces.old.cutter.made end.0) }
    ensures stream { IsTrue D.models → IfOk result (λ end. end.1 ≡ D.on_output (path_out place.entry)) }
    ensures cuts { CutsPiece result (λ end. end.0) B.BlockRuns D.At.Source pieces.old.cutter.runs
        pieces.new.cutter.runs source.old.device source.new.device pieces.old.cutter.limit pieces.new.cutter.limit
        pieces.old.cutter.made pieces.new.cutter.made pieces.old.cutter.start pieces.new.cutter.start
        pieces.new.cutter.stage }
    // a fault of what is read is told of IN, and one of what is written of this file
    ensures told_of { IfErr result (λ refusal. TellsOf (side_of refusal.fault) refusal.about.place
        (input_of sides.entry) (Some place.entry)) }
{
    let mut onto = onto;
    let answer = write_next(&mut pieces.cutter, source, &mut onto, w, m);
    ended(disk, answer, onto, place, sides)
}

// Closes an image whose magic could not be written.
fn unended<'a, D: Disk>(disk: &mut D, image: D::Image, place: FileArg<'a>) -> SparseRefusal<'a>
    requires this { IsTrue D.models → (D.Image.Output.write_frame image).file ≡ number_of (D.held disk.old).output }
    ensures holds { IsTrue D.models → Leaves (D.held disk.old).output (D.Image.Output.written image) (D.world disk.new) }
    ensures closed { IsTrue D.models → GivesUp (D.Image.Output.write_faults image) (D.held disk.old) (D.held disk.new)
        (D.world disk.old) (D.world disk.new) }
    ensures host { result.fault ≡ SparseCommandFault.Host HostFault.Write }
{
    let refused = HostRefusal::at(HostFault::Write, place, image.why()).begun(place);
    disk.give_up_image(image);
    refused.into()
}
