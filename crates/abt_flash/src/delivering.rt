//! Plans the pieces that are passed over, and delivers all others.

ghost use Rattle.std.specs.Prelude.{◌≡◌, ◌<◌, ◌≤◌, ◌+◌, ◌-◌, ◌*◌, ◌^◌, ◌++◌, [], IsTrue, MatchBool, IfOk, IfErr, OnOk};
ghost use Rattle.std.specs.Prelude.{length, max, Ok, Err};
ghost use Rattle.abt_sparse.specs.Runs.{segments};
ghost use Rattle.abt_pieces.specs.Cutter.{ToldCutter};
ghost use Rattle.abt_pieces.specs.declared.stage.CutterStage.{CutterStage};
ghost use Rattle.abt_flash.specs.Devices.{counts};
ghost use Rattle.abt_flash.specs.Delivering.{CountsTo};
ghost use Rattle.abt_flash.specs.Delivering.{StaysMendable};
ghost use Rattle.abt_flash.specs.Delivering.{begun};
ghost use Rattle.abt_flash.specs.Going.{PlanningCosts, PlanRefused};
ghost use Rattle.abt_flash.specs.Causes.{planning_fault};
ghost use Rattle.abt_io.specs.Lent.{OnlyReads};
ghost use Rattle.abt_pieces.specs.Ready.{ReadyCutter};
ghost use Rattle.abt_flash.specs.OnePiece.{PieceComes, LaysRest, RestWork, RestFails};
ghost use Rattle.abt_flash.specs.Delivering.{GivesPieces};
ghost use Rattle.abt_flash.specs.Devices.{spool_state, partition_state};

use crate::answer::Delivered;
use crate::piece::deliver_piece;
use crate::way::Way;
use abt_flash_faults::FlashFault;
use abt_io::{Meter, Partition, Source, Spool, Window};
use abt_pieces::{Cutter, PieceFault};
use abt_runs::BlockRuns;

/// Why a piece is not planned.
fn not_planned(fault: PieceFault) -> FlashFault
    ensures { result ≡ planning_fault fault }
{
    match fault {
        PieceFault::Read(fault) => FlashFault::Read(fault),
        PieceFault::SourceChanged
        | PieceFault::Write(_)
        | PieceFault::TooLarge
        | PieceFault::BadBlock(_)
        | PieceFault::LimitTooSmall { .. } => FlashFault::SourceChanged,
    }
}

/// Whether so many pieces are planned.
fn are_planned(made: u64, before: u32) -> bool
    ensures { MatchBool result (before ≤ made) (made < before) }
{
    made >= u64::from(before)
}

/// What is returned once all pieces after the first ones are delivered.
fn delivered(before: u64, made: u64) -> Result<Delivered, FlashFault>
    requires order { before ≤ made }
    requires few { made < 2 ^ 32 }
    ensures { result ≡ Ok (record { pieces = made - before }) }
{
    Ok(Delivered {
        pieces: (made - before) as u32,
    })
}

/// The number of the piece that comes next, counted from 1.
fn next_number(made: u64) -> u32
    requires few { made + 1 < 2 ^ 32 }
    ensures { result ≡ made + 1 }
{
    made as u32 + 1
}

/// How many pieces come before this one, counted from 1.
pub(crate) fn pieces_before(piece: u32) -> u32
    requires some { 1 ≤ piece }
    ensures { result ≡ piece - 1 }
{
    piece - 1
}

/// Plans so many pieces from the first on and passes over them. It refuses with `NoSuchPiece` where none is left after
/// them, and as planning does.
pub(crate) fn plan_pieces<R: BlockRuns + Drop, S: Source>(
    cutter: &mut Cutter<R>,
    source: &mut S,
    before: u32,
    w: &mut Window,
    m: &mut Meter,
) -> Result<(), FlashFault>
    requires between { cutter.old.stage ≡ CutterStage.Between }
    requires first { cutter.old.made ≡ 0 }
    requires ready { ReadyCutter R.BlockRuns S.Source cutter.old.runs source.old cutter.old.limit cutter.old.made
        cutter.old.start cutter.old.stage }
    ensures runs { cutter.new.runs ≡ cutter.old.runs }
    ensures limit { cutter.new.limit ≡ cutter.old.limit }
    ensures told { IsTrue S.models → ToldCutter (R.place cutter.old.runs (S.content source.old))
        (R.together cutter.old.runs (S.content source.old)) (R.size cutter.old.runs)
        (R.list cutter.old.runs (S.content source.old)) cutter.new.limit cutter.new.made cutter.new.start
        cutter.new.stage }
    ensures planned { OnOk result ((cutter.new.stage ≡ CutterStage.Between) × (cutter.new.made ≡ before)) }
    ensures inside { OnOk result (0 < cutter.new.made → cutter.new.start.block < R.count cutter.old.runs) }
    ensures few { OnOk result (cutter.new.made ≤ max 1 (R.count cutter.old.runs)) }
    ensures refused { IfErr result (λ e. PlanRefused e before S.models (S.read_faults source.old)
        (S.read_faults source.new)) }
    ensures counted { IsTrue S.models →
        IfErr result (λ e. CountsTo (Err e) before
        (length (segments cutter.old.limit (R.size cutter.old.runs) (R.list cutter.old.runs (S.content source.old))))) }
    ensures source { OnlyReads result S.Source source.old source.new }
    ensures charged { OnOk result (S.given source.new + R.charge cutter.old.runs cutter.old.start
        ≤ S.given source.old + R.charge cutter.old.runs cutter.new.start + before * (48 + R.one cutter.old.runs)) }
    ensures costs { PlanningCosts S.models
        (length (segments cutter.old.limit (R.size cutter.old.runs) (R.list cutter.old.runs (S.content source.old))))
        before (R.one cutter.old.runs) result
        (S.reads source.old) (S.given source.old) (S.reads source.new) (S.given source.new) m.old m.new }
{
    let _count = cutter.runs.blocks();
    'pieces: loop {
        m.tick();
        if !cutter.more() {
            return Err(FlashFault::NoSuchPiece {
                pieces: cutter.made as u32,
            });
        }
        if are_planned(cutter.made, before) {
            return Ok(());
        }
        match cutter.skip_piece(source, w, m) {
            Ok(Some(_)) => {}
            Ok(None) => unreachable!(),
            Err(fault) => return Err(not_planned(fault)),
        }
    }
}

/// Delivers all pieces that are left.
pub(crate) fn deliver_rest<W: Way<R, L>, R: BlockRuns + Drop, S: Source, L: Spool, P: Partition>(
    way: &W,
    cutter: &mut Cutter<R>,
    source: &mut S,
    spool: &mut L,
    partition: &mut P,
    w: &mut Window,
    m: &mut Meter,
) -> Result<Delivered, FlashFault>
    requires comes { PieceComes (R.count cutter.old.runs) cutter.old.made cutter.old.start.block cutter.old.stage }
    requires ready { ReadyCutter R.BlockRuns S.Source cutter.old.runs source.old cutter.old.limit cutter.old.made
        cutter.old.start cutter.old.stage }
    requires capacity { cutter.old.limit ≤ L.size spool.old }
    requires room { R.count cutter.old.runs * R.size cutter.old.runs ≤ P.size partition.old }
    // What is returned.
    ensures fails { RestFails S.models L.models cutter.old.made result
        (counts S.Source L.Input L.Output L.Spool.own P.Partition.own source.old spool.old partition.old)
        (counts S.Source L.Input L.Output L.Spool.own P.Partition.own source.new spool.new partition.new) }
    ensures some { IfOk result (λ d. 0 < d.pieces) }
    ensures few { begun cutter.old.made result ≤ max 1 (R.count cutter.old.runs) }
    ensures counted { IsTrue S.models →
        CountsTo result cutter.old.made
        (length (segments cutter.old.limit (R.size cutter.old.runs) (R.list cutter.old.runs (S.content source.old)))) }
    ensures source { OnlyReads result S.Source source.old source.new }
    ensures spool { GivesPieces W.is_forward S.models L.models
        (record { size = R.size cutter.old.runs; blocks = R.list cutter.old.runs (S.content source.old) })
        cutter.old.limit cutter.old.made result
        (spool_state L.Input L.Output L.Spool.own spool.old) (spool_state L.Input L.Output L.Spool.own spool.new) }
    ensures partition { LaysRest S.models L.models P.models (R.size cutter.old.runs) cutter.old.limit
        (R.list cutter.old.runs (S.content source.old)) cutter.old.start.block cutter.old.made result
        (partition_state P.Source P.Partition.own partition.old)
        (partition_state P.Source P.Partition.own partition.new) }
    ensures stays { IsTrue S.models → IsTrue L.models → IsTrue P.models →
        StaysMendable cutter.old.limit (R.size cutter.old.runs) (R.list cutter.old.runs (S.content source.old))
        cutter.old.made (P.past partition.old) (P.past partition.new) (P.content partition.old)
        (P.content partition.new) }
    ensures long { IfOk result (λ d. length (L.written spool.new)
        ≤ length (L.written spool.old) + R.most_taken cutter.old.runs + 80 * d.pieces) }
    ensures spent { IsTrue S.models →
        IfOk result (λ d. S.given source.new + W.before cutter.old.runs cutter.old.start + W.each cutter.old.runs
        ≤ S.given source.old + W.all cutter.old.runs + W.last cutter.old.runs
        + d.pieces * W.each cutter.old.runs) }
    ensures work { RestWork (R.one cutter.old.runs) cutter.old.made result
        (counts S.Source L.Input L.Output L.Spool.own P.Partition.own source.old spool.old partition.old)
        (counts S.Source L.Input L.Output L.Spool.own P.Partition.own source.new spool.new partition.new) m.old m.new }
{
    let _limit = cutter.limit;
    let _count = cutter.runs.blocks();
    let before = cutter.made;
    'pieces: loop {
        m.tick();
        if !cutter.more() {
            return delivered(before, cutter.made);
        }
        let piece = next_number(cutter.made);
        match deliver_piece(way, cutter, source, spool, partition, w, m) {
            Ok(()) => {}
            Err(cause) => return Err(FlashFault::Stopped { piece, cause }),
        }
    }
}
