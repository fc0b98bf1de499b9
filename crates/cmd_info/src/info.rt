//! The command `info`: prints the values of a boot image's header, and the result of checking the image.

ghost use Rattle.std.specs.Prelude.{◌≡◌, Some, IsTrue, IfErr, OnOk};
ghost use Rattle.sys_refusals.specs.Blamed.{TellsRead};
ghost use Rattle.cmd_common_boot.specs.Fault.{boot_side_of};
ghost use Rattle.sys_refusals.specs.Paths.{path_of};
ghost use Rattle.sys_disk.specs.World.{HasFailed, IsReading};
ghost use Rattle.sys_disk.specs.DiskCalls.{LeavesAll};
ghost use Rattle.cmd_info.specs.Informing.{RefusesInfo, TellsFile, notation_of};

use crate::telling::tell_image;
use abt_io::{Meter, Window};
use cmd_common_boot::BootCommandFault;
use sys_disk::Disk;
use sys_refusals::{FileArg, Refusal};
use sys_report::Report;

/// The result of the command: the file that it concerns lives for `'t`, and its arguments for `'a`.
pub type InfoOutcome<'t, 'a> = Result<(), Refusal<'t, BootCommandFault<'a>>>;

/// Prints the values of an image file's header. With the check it also prints the reason of each answer that is no,
/// and fails where there is one.
pub fn info_file<'t, 'a, D: Disk>(
    disk: &mut D,
    report: &mut Report,
    input: FileArg<'t>,
    with_check: bool,
    with_hex: bool,
    w: &mut Window,
    m: &mut Meter,
) -> InfoOutcome<'t, 'a>
    requires first { IsTrue D.models → IsReading (D.held disk.old) }
    // the text of the image that IN holds was printed; with the check, all its answers are yes
    ensures done { IsTrue D.models → OnOk result (TellsFile (path_of input.entry) (notation_of with_hex) with_check
        (D.world disk.old) report.old report.new) }
    // whatever the outcome, no file was changed, and none was opened to be written; after an Ok no call failed
    ensures leaves { LeavesAll D.models result (D.held disk.old) (D.held disk.new) (D.world disk.old)
        (D.world disk.new) }
    ensures begun { IsTrue D.models → (D.held disk.new).begun ≡ (D.held disk.old).begun }
    // it fails for a fault of IN, for an answer that is no, or for what has failed: a read, a call with this fault, or
    // standard output
    ensures refused { IsTrue D.models → IfErr result (λ refusal. RefusesInfo (path_of input.entry)
        (notation_of with_hex)
        with_check (D.world disk.old) (λ cause. HasFailed cause (D.held disk.old) (D.held disk.new)) report.old
        report.new refusal.fault) }
    // a fault of what is read is told of IN
    ensures told_of { IfErr result (λ refusal. TellsRead (boot_side_of refusal.fault) refusal.about.place
        (Some input.entry)) }
{
    let mut source = match disk.source(input) {
        Ok(source) => source,
        Err(refusal) => return Err(refusal.into()),
    };
    match tell_image(&mut source, report, input, with_check, with_hex, w, m) {
        Ok(()) => {
            disk.let_go_source(source);
            Ok(())
        }
        Err(refusal) => {
            disk.let_go_source(source);
            Err(refusal)
        }
    }
}
