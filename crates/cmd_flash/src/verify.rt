//! The command `verify`: whether a partition holds an image.

ghost use Rattle.std.specs.Prelude.{◌≡◌, ◌<◌, ◌+◌, [], IsTrue, OnOk, IfErr};
ghost use Rattle.sys_refusals.specs.Paths.{path_in, path_of};
ghost use Rattle.sys_report.specs.Shows.{ShowsHere, Unprinted};
ghost use Rattle.sys_disk.specs.DiskCalls.{FailsOnly, LeavesAll};
ghost use Rattle.sys_disk.specs.Counts.{failure_of};
ghost use Rattle.cmd_flash.specs.Verifying.{Finds, FindsRaw, RefusesVerify, RefusesVerifyRaw, VerifiesFile};
ghost use Rattle.cmd_flash.specs.Verifying.{VerifiesRawFile};

use abt_io::{Input, Meter, Source, Window};
use abt_verify::{verify, verify_raw};
use cmd_common_sparse::{Line, SparseCommandFault, SparseRefusal};
use sys_disk::{Disk, Measured, Reasons};
use sys_refusals::{FileArg, HostRefusal, Sides};
use sys_report::{Carried, Report};

/// Compares a sparse image with what a partition holds, and prints how many blocks of it were compared. The image is
/// read forward, so it may be a pipe.
#[inline(never)]
pub fn verify_file<'a, D: Disk>(
    disk: &mut D,
    report: &mut Report,
    input: FileArg<'a>,
    partition: FileArg<'a>,
    w: &mut Window,
    m: &mut Meter,
) -> Result<(), SparseRefusal<'a>>
    requires first { IsTrue D.models → (D.held disk.old).begun ≡ [] }
    // PARTITION holds the image that IN holds; the printed line has its number of blocks
    ensures done { IsTrue D.models → OnOk result (VerifiesFile (path_in input.entry) (path_of partition.entry)
        (D.world disk.old) (ShowsHere report.old report.new)) }
    // every file stays as it is; after an Ok nothing has failed
    ensures leaves { LeavesAll D.models result (D.held disk.old) (D.held disk.new) (D.world disk.old)
        (D.world disk.new) }
    // it fails for the first byte that differs or the first fault of IN, or where a file or the report failed
    ensures refused { IsTrue D.models → IfErr result (λ refusal. RefusesVerify refusal.fault (path_in input.entry)
        (path_of partition.entry) (D.world disk.old) (D.held disk.old) (D.held disk.new)
        (Unprinted report.old report.new)) }
{
    let from = disk.input(input)?;
    report.progress.expect_if(from.known_length());
    let mut against = disk.source(partition)?;
    let mut carried = Carried {
        device: from,
        progress: &mut report.progress,
    };
    let answer = compared(&mut carried, &mut against, w, m);
    let Carried { device: from, .. } = carried;
    let why = from.why();
    let end = unchanged_behind(disk, &answer);
    disk.let_go(from);
    disk.let_go_source(against);
    let blocks = match answer {
        Ok(blocks) => blocks,
        Err(fault) => {
            let sides = Sides::none().reading(input, why).writing(partition, None);
            return Err(sides.refuse(fault));
        }
    };
    end?;
    report.line(Line::Blocks(blocks))?;
    Ok(())
}

/// The same for a raw image in blocks of this many bytes. It is read at any position: standard input must be a file.
#[inline(never)]
pub fn verify_raw_file<'a, D: Disk>(
    disk: &mut D,
    report: &mut Report,
    input: FileArg<'a>,
    partition: FileArg<'a>,
    size: u32,
    w: &mut Window,
    m: &mut Meter,
) -> Result<(), SparseRefusal<'a>>
    requires first { IsTrue D.models → (D.held disk.old).begun ≡ [] }
    // PARTITION holds each byte of IN; the printed line has its number of blocks
    ensures done { IsTrue D.models → OnOk result (VerifiesRawFile size (path_of input.entry) (path_of partition.entry)
        (D.world disk.old) (ShowsHere report.old report.new)) }
    // every file stays as it is; after an Ok nothing has failed
    ensures leaves { LeavesAll D.models result (D.held disk.old) (D.held disk.new) (D.world disk.old)
        (D.world disk.new) }
    // it fails for the first byte that differs, for the size of blocks, or where a file or the report failed
    ensures refused { IsTrue D.models → IfErr result (λ refusal. RefusesVerifyRaw refusal.fault size
        (path_of input.entry) (path_of partition.entry) (D.world disk.old) (D.held disk.old) (D.held disk.new)
        (Unprinted report.old report.new)) }
{
    let source = disk.source(input)?;
    report.progress.expect(source.length(), 1);
    let mut against = disk.source(partition)?;
    let mut carried = Carried {
        device: source,
        progress: &mut report.progress,
    };
    let answer = compared_raw(&mut carried, size, &mut against, w, m);
    let Carried { device: source, .. } = carried;
    let end = unchanged_behind(disk, &answer);
    disk.let_go_source(source);
    disk.let_go_source(against);
    let blocks = match answer {
        Ok(blocks) => blocks,
        Err(fault) => {
            let sides = Sides::none().reading(input, None).writing(partition, None);
            return Err(sides.refuse(fault));
        }
    };
    end?;
    report.line(Line::Blocks(blocks))?;
    Ok(())
}

// Whether what was compared is as it was, where it was compared to its end.
fn unchanged_behind<'a, D: Disk>(
    disk: &mut D,
    answer: &Result<u64, SparseCommandFault>,
) -> Result<(), HostRefusal<'a>>
    ensures { FailsOnly D.models (failure_of result) (D.held disk.old) (D.held disk.new) (D.world disk.old)
        (D.world disk.new) }
{
    match answer {
        Ok(_) => disk.unchanged(),
        Err(_) => Ok(()),
    }
}

// How many blocks were compared. (What the engine promises of costs is dropped here, so that no exit above is proved
// with it.)
fn compared<I: Input, S: Source>(
    from: &mut Carried<'_, I>,
    against: &mut S,
    w: &mut Window,
    m: &mut Meter,
) -> Result<u64, SparseCommandFault>
    ensures finds { IsTrue I.models → IsTrue S.models → Finds
        (I.read_faults from.old.device + S.read_faults against.old < I.read_faults from.new.device
        + S.read_faults against.new) result (I.remaining from.old.device) (S.content against.old) }
    ensures clean { OnOk result (I.read_faults from.new.device + S.read_faults against.new
        ≡ I.read_faults from.old.device + S.read_faults against.old) }
{
    match verify(from, against, w, m) {
        Ok(verified) => Ok(verified.blocks),
        Err(fault) => Err(SparseCommandFault::Verify(fault)),
    }
}

fn compared_raw<S: Source, A: Source>(
    source: &mut Carried<'_, S>,
    size: u32,
    against: &mut A,
    w: &mut Window,
    m: &mut Meter,
) -> Result<u64, SparseCommandFault>
    ensures finds { IsTrue S.models → IsTrue A.models → FindsRaw
        (S.read_faults source.old.device + A.read_faults against.old < S.read_faults source.new.device
        + A.read_faults against.new) result size (S.content source.old.device) (A.content against.old) }
    ensures clean { OnOk result (S.read_faults source.new.device + A.read_faults against.new
        ≡ S.read_faults source.old.device + A.read_faults against.old) }
{
    match verify_raw(source, size, against, w, m) {
        Ok(verified) => Ok(verified.blocks),
        Err(fault) => Err(SparseCommandFault::Verify(fault)),
    }
}
