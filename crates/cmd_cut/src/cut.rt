//! The command `cut`: cuts an image into pieces for a download limit, each in a file of its own.

ghost use Rattle.std.specs.Prelude.{◌≡◌, ◌<◌, ◌≤◌, ◌+◌, [], None, Some, IsTrue, IfOk, IfErr, OnOk};
ghost use Rattle.sys_disk.specs.World.{HasFailed, IsReading};
ghost use Rattle.abt_io.specs.Lent.{OnlyReads};
ghost use Rattle.abt_pieces.specs.Cutter.{ToldCutter};
ghost use Rattle.abt_pieces.specs.declared.stage.CutterStage.{CutterStage};
ghost use Rattle.sys_refusals.specs.Blamed.{TellsRead};
ghost use Rattle.sys_refusals.specs.Paths.{path_of};
ghost use Rattle.sys_refusals.specs.declared.told.Side.{Side};
ghost use Rattle.sys_report.specs.Shows.{CannotPrint};
ghost use Rattle.abt_runs.specs.Sparse.{SparseOpened, SparsePlace, blocks_together, sparse_list};
ghost use Rattle.abt_sparse.specs.View.{view};
ghost use Rattle.cmd_cut.specs.Cutting.{CutsFile, CutsImage, CutsSoFar, IsUnbegun, IsUncutSparse};
ghost use Rattle.cmd_cut.specs.Cutting.{LeavesCut, LeavesPieces, MayWritePiece, RefusesCut, ShowsCut, StopsImage};
ghost use Rattle.cmd_cut.specs.Cutting.{TellsOfImage, TellsOfPiece};
ghost use Rattle.cmd_cut.specs.Leaving.{BeginsCut, SparesImage};
ghost use Rattle.cmd_common_sparse.specs.Fault.{side_of};
ghost use Rattle.cmd_common_sparse.specs.PieceNames.{naming_of};

use crate::cut_loop::cut_pieces;
use abt_io::{Meter, Source, Window};
use abt_runs::{RunFault, SparseRuns};
use abt_sparse::SparseFault;
use cmd_common_sparse::{PieceNaming, PiecesOf, SparseCommandFault, SparseRefusal, raw_pieces};
use sys_disk::{Disk, Lasting};
use sys_refusals::{FileArg, Sides};
use sys_report::Report;

// How often a raw image is read whose pieces go to a pipe or a device. There each header is written before its data.
// The image is read to plan a piece, to find each run whole, and to copy it.
const RAW_PASSES: u64 = 3;

/// What to cut, and into which files.
#[derive(Clone, Copy, Drop)]
pub struct Cutting<'a> {
    /// The image.
    pub input: FileArg<'a>,
    /// How many bytes a piece has at most.
    pub limit: u32,
    /// How the files of the pieces are named.
    pub names: PieceNaming<'a>,
    /// How many bytes a block of a raw image has; `None` for a sparse image.
    pub raw: Option<u32>,
}

/// Writes each piece of an image to a file of its own, and prints the pieces.
///
/// - A piece's file is opened when its turn comes. Its line is printed when the whole piece is in the file.
/// - Pieces and lines before a fault stay.
/// - Where the image is one of the existing files with the name of a piece, nothing is written.
/// - The next piece of an older cut is named, since it is no piece of this one.
#[inline(never)]
pub fn cut_file<'a, D: Disk>(
    disk: &mut D,
    report: &mut Report,
    order: Cutting<'a>,
    w: &mut Window,
    m: &mut Meter,
) -> Result<(), SparseRefusal<'a>>
    requires first { IsTrue D.models → IsReading (D.held disk.old) }
    // each piece of the image that IN holds is stored under its name, in a file of its own
    ensures done { IsTrue D.models → OnOk result (CutsFile order.entry.raw order.entry.limit (path_of order.entry.input)
        (naming_of order.entry.names) (D.held disk.old) (D.held disk.new) (D.world disk.old) (D.world disk.new)
        (ShowsCut D.on_output (naming_of order.entry.names) order.entry.limit (D.world disk.new) report.old
        report.new)) }
    // whatever the outcome, only such files were created or changed, and none where it is in use and that is not
    // allowed, IN holds what it held, and no output is open; after an Ok nothing has failed
    ensures leaves { IsTrue D.models → LeavesCut result (path_of order.entry.input) order.entry.names.prefix.now
        (D.held disk.old) (D.held disk.new) (D.world disk.old) (D.world disk.new) }
    // nothing was changed where an existing file with the name of a piece is IN's; no file that can be overwritten has
    // a part of a piece
    ensures spares { IsTrue D.models → SparesImage order.entry.raw order.entry.limit D.is_over
        (naming_of order.entry.names) order.entry.input.name.now (path_of order.entry.input) (D.world disk.old)
        (D.world disk.new) }
    // it fails for what IN holds, for the limit, or for a fault of a call or a device that has failed
    ensures refused { IsTrue D.models → IfErr result (λ refusal. RefusesCut order.entry.raw order.entry.limit
        (path_of order.entry.input) (naming_of order.entry.names) refusal.fault (D.held disk.old) (D.held disk.new)
        (D.world disk.old) (D.world disk.new) (CannotPrint report.old report.new)) }
    // a fault of what is read is told of IN
    ensures told_of { IfErr result (λ refusal. TellsRead (side_of refusal.fault) refusal.about.place
        (Some order.entry.input)) }
    // and one of what is written of the piece after those that are stored
    ensures told_of_piece { IsTrue D.models → IfErr result (λ refusal. side_of refusal.fault ≡ Side.Output
        → TellsOfPiece order.entry.raw order.entry.limit (path_of order.entry.input) (naming_of order.entry.names)
        refusal.about.place (D.held disk.old) (D.held disk.new) (D.world disk.old) (D.world disk.new)) }
{
    let source = match disk.ahead(order.input) {
        Ok(source) => source,
        Err(refusal) => return Err(refusal.into()),
    };
    report.progress.expect(source.length(), 1);
    match order.raw {
        Some(size) => cut_raw(disk, report, source, order, size, w, m),
        None => cut_sparse(disk, report, source, order, w, m),
    }
}

// The same for an open raw image, in blocks of this many bytes.
fn cut_raw<'a, D: Disk>(
    disk: &mut D,
    report: &mut Report,
    source: D::At,
    order: Cutting<'a>,
    size: u32,
    w: &mut Window,
    m: &mut Meter,
) -> Result<(), SparseRefusal<'a>>
    requires fresh { IsTrue D.models → IsUnbegun (D.held disk.old) (D.At.read_faults source) }
    ensures done { IsTrue D.models → OnOk result (CutsImage (Some size) order.entry.limit (naming_of order.entry.names)
        (D.At.content source)
        (D.held disk.old) (D.held disk.new) (D.world disk.old) (D.world disk.new)
        (ShowsCut D.on_output (naming_of order.entry.names) order.entry.limit (D.world disk.new) report.old
        report.new)) }
    ensures leaves { IsTrue D.models → LeavesPieces result (MayWritePiece order.entry.names.prefix.now
        (D.held disk.old)) (D.held disk.old) (D.held disk.new) (D.world disk.old) (D.world disk.new) }
    ensures begins { IsTrue D.models → BeginsCut (Some size) order.entry.limit D.is_over (naming_of order.entry.names)
        order.entry.input.name.now (D.At.content source) (D.held disk.old) (D.world disk.old) (D.world disk.new) }
    ensures refused { IsTrue D.models → IfErr result (λ refusal. StopsImage (Some size) order.entry.limit
        (D.At.content source) refusal.fault (λ cause. HasFailed cause (D.held disk.old) (D.held disk.new))
        (CannotPrint report.old report.new) (D.world disk.new ≡ D.world disk.old)
        (λ ps n m. CutsSoFar (naming_of order.entry.names) ps n m (D.held disk.old) (D.held disk.new) (D.world disk.old)
        (D.world disk.new))) }
    ensures told_of { IfErr result (λ refusal. TellsRead (side_of refusal.fault) refusal.about.place
        (Some order.entry.input)) }
    ensures told_of_piece { IsTrue D.models → IfErr result (λ refusal. side_of refusal.fault ≡ Side.Output
        → TellsOfImage (Some size) order.entry.limit (naming_of order.entry.names) (D.At.content source) refusal.about.place
        (λ ps n m. CutsSoFar (naming_of order.entry.names) ps n m (D.held disk.old) (D.held disk.new)
        (D.world disk.old) (D.world disk.new))) }
{
    match raw_pieces(&source, size, order.limit) {
        Ok(pieces) => cut_pieces(
            disk,
            report,
            source,
            pieces,
            order.input,
            order.names,
            RAW_PASSES,
            w,
            m,
        ),
        Err(fault) => Err(Sides::none().reading(order.input, None).refuse(fault)),
    }
}

// The same for an open sparse image.
fn cut_sparse<'a, D: Disk>(
    disk: &mut D,
    report: &mut Report,
    source: D::At,
    order: Cutting<'a>,
    w: &mut Window,
    m: &mut Meter,
) -> Result<(), SparseRefusal<'a>>
    requires fresh { IsTrue D.models → IsUnbegun (D.held disk.old) (D.At.read_faults source) }
    ensures done { IsTrue D.models → OnOk result (CutsImage None order.entry.limit (naming_of order.entry.names)
        (D.At.content source) (D.held disk.old) (D.held disk.new) (D.world disk.old) (D.world disk.new)
        (ShowsCut D.on_output (naming_of order.entry.names) order.entry.limit (D.world disk.new) report.old
        report.new)) }
    ensures leaves { IsTrue D.models → LeavesPieces result (MayWritePiece order.entry.names.prefix.now
        (D.held disk.old)) (D.held disk.old) (D.held disk.new) (D.world disk.old) (D.world disk.new) }
    ensures begins { IsTrue D.models → BeginsCut None order.entry.limit D.is_over (naming_of order.entry.names)
        order.entry.input.name.now (D.At.content source) (D.held disk.old) (D.world disk.old) (D.world disk.new) }
    ensures refused { IsTrue D.models → IfErr result (λ refusal. StopsImage None order.entry.limit (D.At.content source)
        refusal.fault (λ cause. HasFailed cause (D.held disk.old) (D.held disk.new))
        (CannotPrint report.old report.new) (D.world disk.new ≡ D.world disk.old)
        (λ ps n m. CutsSoFar (naming_of order.entry.names) ps n m (D.held disk.old) (D.held disk.new) (D.world disk.old)
        (D.world disk.new))) }
    ensures told_of { IfErr result (λ refusal. TellsRead (side_of refusal.fault) refusal.about.place
        (Some order.entry.input)) }
    ensures told_of_piece { IsTrue D.models → IfErr result (λ refusal. side_of refusal.fault ≡ Side.Output
        → TellsOfImage None order.entry.limit (naming_of order.entry.names) (D.At.content source) refusal.about.place
        (λ ps n m. CutsSoFar (naming_of order.entry.names) ps n m (D.held disk.old) (D.held disk.new)
        (D.world disk.old) (D.world disk.new))) }
{
    let mut source = source;
    match sparse_pieces(&mut source, order.limit, w, m) {
        Ok(pieces) => cut_pieces(
            disk,
            report,
            source,
            pieces,
            order.input,
            order.names,
            1,
            w,
            m,
        ),
        Err(fault) => {
            disk.let_go_source(source);
            Err(Sides::none().reading(order.input, None).refuse(fault))
        }
    }
}

// The pieces of a sparse image whose chunks are all checked. Fails because the image ends too soon, where its file is
// now shorter than what was read of it.
fn sparse_pieces<S: Lasting>(
    source: &mut S,
    limit: u32,
    w: &mut Window,
    m: &mut Meter,
) -> Result<PiecesOf<SparseRuns>, SparseCommandFault>
    ensures reads { OnlyReads result S.Source source.old source.new }
    ensures begins { IfOk result (λ pieces. (pieces.cutter.made ≡ 0) × (pieces.cutter.stage ≡ CutterStage.Between)) }
    ensures limit { IfOk result (λ pieces. pieces.cutter.limit ≡ limit) }
    ensures granted { IfOk result (λ pieces. 64 + pieces.cutter.runs.header.blk_sz ≤ limit) }
    ensures opened { IsTrue S.models → IfOk result (λ pieces. SparseOpened (view pieces.cutter.runs.header)
        pieces.cutter.runs.length pieces.cutter.runs.image (S.content source.old)) }
    ensures told { IsTrue S.models → IfOk result (λ pieces. ToldCutter (SparsePlace (view pieces.cutter.runs.header)
        (S.content source.old)) (blocks_together (view pieces.cutter.runs.header) (S.content source.old))
        pieces.cutter.runs.header.blk_sz (sparse_list (S.content source.old)) pieces.cutter.limit pieces.cutter.made
        pieces.cutter.start pieces.cutter.stage) }
    ensures refused { IsTrue S.models → IfErr result (λ fault. IsUncutSparse fault limit (S.content source.old)
        (S.read_faults source.old) (S.read_faults source.new)) }
{
    let runs = match SparseRuns::open(source, w, m) {
        Ok(runs) => runs,
        Err(fault) => return Err(SparseCommandFault::Run(fault)),
    };
    if let Some(at) = source.shorter() {
        let fault = SparseFault::Truncated { at };
        return Err(SparseCommandFault::Run(RunFault::Sparse(fault)));
    }
    PiecesOf::open(runs, limit)
}
