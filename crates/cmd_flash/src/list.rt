//! The command `list`: prints the header and the chunks of a sparse image.

ghost use Rattle.std.specs.Prelude.{◌≡◌, ◌<◌, ◌++◌, [], IsTrue, OnOk, IfErr};
ghost use Rattle.sys_refusals.specs.Paths.{path_in};
ghost use Rattle.sys_disk.specs.DiskCalls.{LeavesAll};
ghost use Rattle.cmd_flash.specs.Files.{OfFile};
ghost use Rattle.cmd_flash.specs.Listing.{IsListed, IsUnlisted, RefusesList};

use abt_io::{Input, Meter, Output, Window};
use abt_sparse::SparseFault;
use cmd_common_listing::report_list;
use cmd_common_sparse::{SparseCommandFault, SparseRefusal};
use sys_disk::{Disk, Reasons};
use sys_refusals::{FileArg, Sides};
use sys_report::Report;

/// Prints the header and each chunk of a sparse image. `-` is standard input.
#[inline(never)]
pub fn list_file<'a, D: Disk>(
    disk: &mut D,
    report: &mut Report,
    input: FileArg<'a>,
    w: &mut Window,
    m: &mut Meter,
) -> Result<(), SparseRefusal<'a>>
    requires first { IsTrue D.models → (D.held disk.old).begun ≡ [] }
    // what was printed are the header and the chunks of the image that IN holds
    ensures done { IsTrue D.models → OnOk result (OfFile (path_in input.entry) (D.world disk.old) (λ x.
        IsListed x (λ text. report.new.out.log.state.bytes ≡ report.old.out.log.state.bytes ++ text))) }
    // every file stays as it is; after an Ok nothing has failed
    ensures leaves { LeavesAll D.models result (D.held disk.old) (D.held disk.new) (D.world disk.old)
        (D.world disk.new) }
    // it fails for the first fault of IN, or where its file failed, or the report
    ensures refused { IsTrue D.models → IfErr result (λ refusal. RefusesList refusal.fault (path_in input.entry)
        (D.world disk.old) (D.held disk.old) (D.held disk.new)
        (report.old.out.faults.number < report.new.out.faults.number)) }
{
    let mut from = disk.input(input)?;
    let is_awaited = report.is_awaited();
    let answer = listed(&mut from, &mut report.out, is_awaited, w, m);
    let why = from.why();
    disk.let_go(from);
    match answer {
        Ok(()) => Ok(()),
        Err(fault) => {
            let sides = Sides::none()
                .reading(input, why)
                .printing(report.out.writer.why);
            Err(sides.refuse(SparseCommandFault::Sparse(fault)))
        }
    }
}

// Prints the listing of an image, each line at once where the reader waits for it.
fn listed<I: Input, O: Output>(
    from: &mut I,
    out: &mut O,
    is_awaited: bool,
    w: &mut Window,
    m: &mut Meter,
) -> Result<(), SparseFault>
    ensures listed { IsTrue I.models → OnOk result (IsListed (I.remaining from.old) (λ text.
        O.written out.new ≡ O.written out.old ++ text)) }
    ensures refused { IsTrue I.models → IfErr result (λ fault. IsUnlisted
        (I.read_faults from.old < I.read_faults from.new) (O.write_faults out.old < O.write_faults out.new) fault
        (I.remaining from.old)) }
    ensures clean { OnOk result (I.read_faults from.new ≡ I.read_faults from.old) }
{
    report_list(from, out, is_awaited, w, m)
}
