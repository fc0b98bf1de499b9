//! The command `flash` of an image in pieces, which are written through a file.

ghost use Rattle.std.specs.Prelude.{◌≡◌, ◌≤◌, ◌-◌, max, [], None, IsTrue, OnOk, IfErr};
ghost use Rattle.sys_refusals.specs.Paths.{path_of};
ghost use Rattle.sys_report.specs.Shows.{ShowsBeside, Unprinted};
ghost use Rattle.cmd_flash.specs.Files.{LeavesOthers, MayFlashPieces};
ghost use Rattle.cmd_flash.specs.InPieces.{FlashesPieces, IsUncuttable, RefusesPieces, SparesBoth};
ghost use Rattle.cmd_flash.specs.Through.{count_delivered};

use crate::through::delivered_through;
use abt_flash::Delivered;
use abt_flash_faults::FlashFault;
use abt_io::{Meter, Source, Window};
use cmd_common_sparse::{Line, SparseCommandFault, SparseRefusal, raw_pieces};
use sys_disk::{Disk, closed};
use sys_refusals::{FileArg, Sides};
use sys_report::{Carried, Report};

/// Flashes an image in pieces of at most this many bytes, from this piece on, to a partition, which must exist, and
/// prints how many pieces these were. The image is read at any position, so standard input must be a file.
///
/// For a raw image the size of its blocks and the limit are checked before SPOOL is created or emptied.
#[inline(never)]
pub fn flash_pieces_file<'a, D: Disk>(
    disk: &mut D,
    report: &mut Report,
    input: FileArg<'a>,
    partition: FileArg<'a>,
    raw: Option<u32>,
    limit: u32,
    spool: FileArg<'a>,
    from: u32,
    w: &mut Window,
    m: &mut Meter,
) -> Result<(), SparseRefusal<'a>>
    requires ready { IsTrue D.models → MayFlashPieces (D.held disk.old) }
    // PARTITION holds what it held, overwritten by the blocks of the pieces, and is synced; SPOOL kept its pages where
    // the image is raw; the line has the number of the pieces
    ensures done { IsTrue D.models → OnOk result (FlashesPieces raw limit (max 1 from - 1) (path_of input.entry)
        (path_of partition.entry) (path_of spool.entry) (D.world disk.old) (D.world disk.new) (D.held disk.old)
        (D.held disk.new) (ShowsBeside (D.on_output (path_of partition.entry)) report.old report.new)) }
    // whatever the outcome, only PARTITION and SPOOL may hold anything else, where they are not in use or that is
    // allowed, and IN holds what it held; after an Ok nothing has failed
    ensures leaves { IsTrue D.models → LeavesOthers result (SparesBoth (path_of partition.entry) (path_of spool.entry)
        (D.held disk.old) (D.world disk.old) (D.world disk.new)) (path_of input.entry) (D.held disk.old)
        (D.held disk.new) (D.world disk.old) (D.world disk.new) }
    // it fails for what IN is, for its limits, or where a file, a device or the report failed
    ensures refused { IsTrue D.models → IfErr result (λ refusal. RefusesPieces refusal.fault raw limit (max 1 from - 1)
        (path_of input.entry) (path_of partition.entry) (path_of spool.entry) (D.world disk.old) (D.world disk.new)
        (D.held disk.old) (D.held disk.new) (Unprinted report.old report.new)) }
{
    let from = from.max(1);
    let source = disk.ahead(input)?;
    let mut onto = disk.partition(partition)?;
    if let Err(fault) = cuttable(&source, raw, limit) {
        return Err(Sides::none().reading(input, None).refuse(fault));
    }
    let through = disk.spool(spool, limit, raw.is_some(), &source)?;
    report.progress.expect(source.length(), 1);
    report.progress.follow();
    let mut carried = Carried {
        device: source,
        progress: &mut report.progress,
    };
    let (answer, why) = delivered_through(
        disk,
        &mut carried,
        raw,
        limit,
        from,
        through,
        spool,
        &mut onto,
        w,
        m,
    );
    let Carried { device: source, .. } = carried;
    disk.let_go_source(source);
    let sides = Sides::none()
        .reading(input, None)
        .writing(partition, disk.why_of_part(&onto))
        .through(spool, why);
    let (count, is_on_output) = match closed(disk, counted(answer), onto, partition, sides) {
        Ok(end) => end,
        Err(refusal) => return Err(refusal),
    };
    report.line_beside(is_on_output, Line::Pieces(count))?;
    Ok(())
}

// Fails where a raw image can't be cut like this. Of a sparse image this is not known before it is read.
fn cuttable<S: Source>(source: &S, raw: Option<u32>, limit: u32) -> Result<(), SparseCommandFault>
    ensures { IsTrue S.models → IfErr result (λ fault. IsUncuttable raw fault limit (S.content source.now)) }
{
    let Some(size) = raw else {
        return Ok(());
    };
    match raw_pieces(source, size, limit) {
        Ok(_) => Ok(()),
        Err(fault) => Err(fault),
    }
}

fn counted(answer: Result<Delivered, FlashFault>) -> Result<u32, SparseCommandFault>
    ensures { result ≡ count_delivered answer }
{
    match answer {
        Ok(delivered) => Ok(delivered.pieces),
        Err(fault) => Err(SparseCommandFault::Flash(fault)),
    }
}
