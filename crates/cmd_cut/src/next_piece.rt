//! The engine's calls that write the next piece of an image, with the progress of the command.

ghost use Rattle.std.specs.Prelude.{◌≡◌, [], None, Some, IsTrue, IfErr, IfOk, IfSome, OnErr, OnOk};
ghost use Rattle.abt_pieces.specs.Turn.{HasAt};
ghost use Rattle.abt_sparse.specs.Pieces.{pieces};
ghost use Rattle.cmd_cut.specs.Cutting.{CutsPiece, IsOutsideCut, ReadyPiece, NumbersOfPiece};
ghost use Rattle.cmd_cut.specs.Sparsing.{DevicesFail, HoldsNoSparse, OnlyDevicesFail};

use crate::zero_first::ZeroFirst;
use abt_io::{Meter, Output, Overwrite, Window};
use abt_pieces::{Cutter, Piece, PieceFault};
use abt_placed::next_piece_at;
use abt_runs::{BlockRuns, RawRuns, SparseRuns};
use cmd_common_sparse::SparseCommandFault;
use sys_disk::Lasting;
use sys_refusals::HostFault;
use sys_report::Carried;

/// Writes the next piece from its first byte on. Fails where its source is now shorter than what was read of it.
#[inline(never)]
pub(crate) fn write_next<B: BlockRuns + Drop, S: Lasting, O: Output>(
    cutter: &mut Cutter<B>,
    source: &mut Carried<'_, S>,
    output: &mut O,
    w: &mut Window,
    m: &mut Meter,
) -> Result<Piece, SparseCommandFault>
    requires ready { ReadyPiece B.BlockRuns S.Source cutter.old.runs source.old.device cutter.old.limit cutter.old.made
        cutter.old.start cutter.old.stage }
    requires empty { O.written output.old ≡ [] }
    // it is the piece after those that are made
    ensures laid { IsTrue S.models → IfOk result (λ p. HasAt (pieces cutter.old.limit (B.size cutter.old.runs)
        (B.list cutter.old.runs (S.content source.old.device))) cutter.old.made (O.written output.new)) }
    ensures told { IsTrue S.models → IfOk result (NumbersOfPiece cutter.old.limit (B.size cutter.old.runs)
        (B.list cutter.old.runs (S.content source.old.device)) cutter.old.made) }
    ensures cuts { CutsPiece result (λ p. p) B.BlockRuns S.Source cutter.old.runs cutter.new.runs source.old.device
        source.new.device cutter.old.limit cutter.new.limit cutter.old.made cutter.new.made cutter.old.start
        cutter.new.start cutter.new.stage }
    // it fails where the device has failed that the fault is of
    ensures fails { OnlyDevicesFail result S.models (S.read_faults source.old.device) (S.read_faults source.new.device)
        (O.write_faults output.old) (O.write_faults output.new) }
    ensures frame { O.write_frame output.new ≡ O.write_frame output.old }
{
    let answer = cutter.next_piece(source, output, w, m);
    match changed(source.device.shorter()) {
        Some(fault) => match answer {
            Ok(_) => Err(fault),
            Err(fault) => Err(SparseCommandFault::Piece(fault)),
        },
        None => match answer {
            Ok(Some(piece)) => Ok(piece),
            Ok(None) => unreachable!(),
            Err(fault) => Err(SparseCommandFault::Piece(fault)),
        },
    }
}

// The fault after a piece was written. `now` is the length of IN, if that is less than what was read of it.
fn changed(now: Option<u64>) -> Option<SparseCommandFault>
    ensures shorter { IfSome now (λ _. result ≡ Some (SparseCommandFault.Piece PieceFault.SourceChanged)) }
    ensures whole { now ≡ None → result ≡ None }
{
    match now {
        Some(_) => Some(SparseCommandFault::Piece(PieceFault::SourceChanged)),
        None => None,
    }
}

/// An image whose pieces are written in place to files, the magic of each last.
pub(crate) trait LaysPieces: BlockRuns + Drop {
    /// Writes the next piece to an empty file, and returns it. A fault of files is that its magic can't be written.
    fn lay_next<S: Lasting, O: Overwrite + Drop>(
        cutter: &mut Cutter<Self>,
        source: &mut Carried<'_, S>,
        image: O,
        w: &mut Window,
        m: &mut Meter,
    ) -> (O, Result<Piece, SparseCommandFault>)
        requires ready { ReadyPiece Self.BlockRuns S.Source cutter.old.runs source.old.device cutter.old.limit cutter.old.made
            cutter.old.start cutter.old.stage }
        requires empty { O.written image ≡ [] }
        // it is the piece after those that are made
        ensures laid { IsTrue S.models → IfOk result.1 (λ p. HasAt (pieces cutter.old.limit (Self.size cutter.old.runs)
            (Self.list cutter.old.runs (S.content source.old.device))) cutter.old.made (O.written result.0)) }
        ensures told { IsTrue S.models → IfOk result.1 (NumbersOfPiece cutter.old.limit (Self.size cutter.old.runs)
            (Self.list cutter.old.runs (S.content source.old.device)) cutter.old.made) }
        ensures cuts { CutsPiece result.1 (λ p. p) Self.BlockRuns S.Source cutter.old.runs cutter.new.runs
            source.old.device source.new.device cutter.old.limit cutter.new.limit cutter.old.made cutter.new.made
            cutter.old.start cutter.new.start cutter.new.stage }
        // it fails where the device has failed that the fault is of
        ensures clean { OnOk result.1 ((S.read_faults source.new.device ≡ S.read_faults source.old.device)
            × (O.write_faults result.0 ≡ O.write_faults image)) }
        ensures cause { IsTrue S.models → IfErr result.1 (IsOutsideCut (DevicesFail (S.read_faults source.old.device)
            (S.read_faults source.new.device) (O.write_faults image) (O.write_faults result.0))) }
        ensures frame { O.write_frame result.0 ≡ O.write_frame image }
        // then what was written is no image
        ensures broken { IsTrue S.models → OnErr result.1 (HoldsNoSparse (O.written result.0)) };
}

/// The pieces of a sparse image are written from their first byte on.
impl LaysPieces for SparseRuns {
    fn lay_next<S: Lasting, O: Overwrite + Drop>(
        cutter: &mut Cutter<SparseRuns>,
        source: &mut Carried<'_, S>,
        image: O,
        w: &mut Window,
        m: &mut Meter,
    ) -> (O, Result<Piece, SparseCommandFault>) {
        let mut front = ZeroFirst::new(image);
        match write_next(cutter, source, &mut front, w, m) {
            Ok(piece) => {
                let (image, answer) = front.finish(m);
                match answer {
                    Ok(()) => (image, Ok(piece)),
                    Err(_) => (image, Err(SparseCommandFault::Host(HostFault::Write))),
                }
            }
            Err(fault) => (front.output, Err(fault)),
        }
    }
}

/// The pieces of a raw image are written in one pass over it.
impl LaysPieces for RawRuns {
    fn lay_next<S: Lasting, O: Overwrite + Drop>(
        cutter: &mut Cutter<RawRuns>,
        source: &mut Carried<'_, S>,
        image: O,
        w: &mut Window,
        m: &mut Meter,
    ) -> (O, Result<Piece, SparseCommandFault>) {
        let mut image = image;
        let answer = next_piece_at(cutter, source, &mut image, w, m);
        match changed(source.device.shorter()) {
            Some(fault) => match answer {
                Ok(_) => (image, Err(fault)),
                Err(fault) => (image, Err(SparseCommandFault::Piece(fault))),
            },
            None => match answer {
                Ok(Some(piece)) => (image, Ok(piece)),
                Ok(None) => unreachable!(),
                Err(fault) => (image, Err(SparseCommandFault::Piece(fault))),
            },
        }
    }
}
