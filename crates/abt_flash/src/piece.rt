//! One piece, from the source through the spool to the partition.

ghost use Rattle.std.specs.Prelude.{◌≡◌, ◌<◌, ◌≤◌, ◌+◌, ◌-◌, ◌*◌, ◌++◌, [], ◌∷◌, IsTrue, Err, IfErr, OnErr, OnOk};
ghost use Rattle.std.specs.Prelude.{length, if◌then◌else◌};
ghost use Rattle.abt_pieces.specs.Cutter.{ToldCutter, piece_words};
ghost use Rattle.abt_pieces.specs.Gather.{frame};
ghost use Rattle.abt_pieces.specs.Outline.{piece_at};
ghost use Rattle.abt_pieces.specs.Plan.{FirstPiece};
ghost use Rattle.abt_pieces.specs.declared.stage.CutterStage.{CutterStage};
ghost use Rattle.abt_flash.specs.Devices.{counts};
ghost use Rattle.abt_flash.specs.Delivering.{OnFlashed};
ghost use Rattle.abt_flash.specs.Going.{GoesBehind, blocks_at};
ghost use Rattle.abt_flash.specs.Causes.{cutting_cause, flashing_cause};
ghost use Rattle.abt_io.specs.Lent.{OnlyReads};
ghost use Rattle.abt_pieces.specs.Ready.{ReadyCutter};
ghost use Rattle.abt_flash.specs.OnePiece.{GivesPiece, LaysPiece, PieceTakes, PieceWork, PieceFails};
ghost use Rattle.abt_flash.specs.Devices.{spool_state, partition_state};

use crate::flashing::flash;
use crate::way::Way;
use abt_flash_faults::{Cause, FlashFault};
use abt_io::{DeviceFault, Meter, Partition, Source, Spool, Window};
use abt_pieces::{Cutter, PieceFault};
use abt_runs::BlockRuns;

/// Empties the spool for the next piece.
fn clear<L: Spool>(spool: &mut L) -> Result<(), Cause>
    ensures written { L.written spool.new ≡ L.written spool.old }
    ensures cut { OnOk result (L.cuts spool.new ≡ length (L.written spool.old) ∷ L.cuts spool.old) }
    ensures gone { OnOk result (L.gone spool.new ≡ length (L.written spool.old)) }
    ensures kept { OnErr result (L.cuts spool.new ≡ L.cuts spool.old) }
    ensures size { L.size spool.new ≡ L.size spool.old }
    ensures given { L.given spool.new ≡ L.given spool.old }
    ensures reads { L.reads spool.new ≡ L.reads spool.old }
    ensures writes { L.writes spool.new ≡ L.writes spool.old }
    ensures calls { L.clears spool.new ≡ L.clears spool.old + 1 }
    ensures read_faults { L.read_faults spool.new ≡ L.read_faults spool.old }
    ensures write_faults { L.write_faults spool.new ≡ L.write_faults spool.old }
    ensures clear_faults { L.clear_faults spool.old ≤ L.clear_faults spool.new }
    // It goes on only where the spool was cleared.
    ensures clean { OnOk result (L.clear_faults spool.new ≡ L.clear_faults spool.old) }
    ensures cause { OnErr result (L.clear_faults spool.old < L.clear_faults spool.new) }
    ensures names { IfErr result (λ e. e ≡ Cause.SpoolWrite DeviceFault.Failed) }
{
    match spool.clear() {
        Ok(()) => Ok(()),
        Err(fault) => Err(Cause::SpoolWrite(fault)),
    }
}

/// Why a piece is not finished, where it was not written.
fn not_written(fault: PieceFault) -> Cause
    ensures { result ≡ cutting_cause fault }
{
    match fault {
        PieceFault::Read(fault) => Cause::Read(fault),
        PieceFault::Write(fault) => Cause::SpoolWrite(fault),
        PieceFault::SourceChanged
        | PieceFault::TooLarge
        | PieceFault::BadBlock(_)
        | PieceFault::LimitTooSmall { .. } => Cause::SourceChanged,
    }
}

/// What is returned for a piece that was not flashed: it is not finished, and why.
fn not_flashed(fault: FlashFault) -> Result<(), Cause>
    ensures { result ≡ Err (flashing_cause fault) }
{
    match fault {
        FlashFault::Read(fault) => Err(Cause::SpoolRead(fault)),
        FlashFault::Write(fault) => Err(Cause::Write(fault)),
        FlashFault::Sync(fault) => Err(Cause::Sync(fault)),
        FlashFault::Sparse(_)
        | FlashFault::PartitionTooSmall { .. }
        | FlashFault::TooLarge
        | FlashFault::SourceChanged
        | FlashFault::BadBlock(_)
        | FlashFault::LimitTooSmall { .. }
        | FlashFault::Stopped { .. }
        | FlashFault::NoSuchPiece { .. } => Err(Cause::SpoolChanged),
    }
}

/// Clears the spool, writes the next piece to it, flashes that from there to the partition, and syncs the partition.
pub(crate) fn deliver_piece<W: Way<R, L>, R: BlockRuns + Drop, S: Source, L: Spool, P: Partition>(
    way: &W,
    cutter: &mut Cutter<R>,
    source: &mut S,
    spool: &mut L,
    partition: &mut P,
    w: &mut Window,
    m: &mut Meter,
) -> Result<(), Cause>
    requires between { cutter.old.stage ≡ CutterStage.Between }
    requires ready { ReadyCutter R.BlockRuns S.Source cutter.old.runs source.old cutter.old.limit cutter.old.made
        cutter.old.start cutter.old.stage }
    requires capacity { cutter.old.limit ≤ L.size spool.old }
    requires room { R.count cutter.old.runs * R.size cutter.old.runs ≤ P.size partition.old }
    // The cutter moves past the piece.
    ensures same { (cutter.new.runs ≡ cutter.old.runs) × (cutter.new.limit ≡ cutter.old.limit) }
    ensures told { IsTrue S.models → ToldCutter (R.place cutter.old.runs (S.content source.old))
        (R.together cutter.old.runs (S.content source.old)) (R.size cutter.old.runs)
        (R.list cutter.old.runs (S.content source.old)) cutter.new.limit cutter.new.made cutter.new.start
        cutter.new.stage }
    ensures behind { OnOk result (GoesBehind (R.count cutter.old.runs) cutter.old.made cutter.new.made
        cutter.old.start.block cutter.new.start.block cutter.new.stage) }
    ensures greatest_end { IsTrue S.models →
        OnFlashed result (FirstPiece (R.size cutter.old.runs) (R.list cutter.old.runs (S.content source.old))
        cutter.old.limit cutter.old.start.block cutter.new.start.block) }
    ensures source { OnlyReads result S.Source source.old source.new }
    ensures spool { GivesPiece W.is_forward S.models L.models (R.size cutter.old.runs) cutter.old.limit
        (piece_at (R.size cutter.old.runs) cutter.old.limit (R.list cutter.old.runs (S.content source.old))
        cutter.old.start.block) result
        (spool_state L.Input L.Output L.Spool.own spool.old) (spool_state L.Input L.Output L.Spool.own spool.new) }
    ensures partition { LaysPiece S.models L.models P.models (R.size cutter.old.runs)
        (frame (R.list cutter.old.runs (S.content source.old)) cutter.old.start.block cutter.new.start.block)
        (blocks_at cutter.old.limit (R.size cutter.old.runs) (R.list cutter.old.runs (S.content source.old))
        cutter.old.start.block) result
        (partition_state P.Source P.Partition.own partition.old)
        (partition_state P.Source P.Partition.own partition.new) }
    ensures takes { PieceTakes S.models (R.taken cutter.old.runs) (W.before cutter.old.runs) (R.count cutter.old.runs)
        (W.each cutter.old.runs) (W.last cutter.old.runs) cutter.old.start cutter.new.start result
        (counts S.Source L.Input L.Output L.Spool.own P.Partition.own source.old spool.old partition.old)
        (counts S.Source L.Input L.Output L.Spool.own P.Partition.own source.new spool.new partition.new) }
    ensures work { PieceWork (R.one cutter.old.runs)
        (piece_words (R.one cutter.old.runs) (R.count cutter.old.runs) cutter.new.start.block) result
        (counts S.Source L.Input L.Output L.Spool.own P.Partition.own source.old spool.old partition.old)
        (counts S.Source L.Input L.Output L.Spool.own P.Partition.own source.new spool.new partition.new) m.old m.new }
    ensures fails { PieceFails S.models L.models result
        (counts S.Source L.Input L.Output L.Spool.own P.Partition.own source.old spool.old partition.old)
        (counts S.Source L.Input L.Output L.Spool.own P.Partition.own source.new spool.new partition.new) }
{
    let _limit = cutter.limit;
    let _count = cutter.runs.blocks();
    match clear(spool) {
        Ok(()) => {}
        Err(cause) => return Err(cause),
    }
    match way.write_piece(cutter, source, spool, w, m) {
        Ok(_) => {}
        Err(fault) => return Err(not_written(fault)),
    }
    match flash(spool, partition, w, m) {
        Ok(_) => Ok(()),
        Err(fault) => not_flashed(fault),
    }
}
