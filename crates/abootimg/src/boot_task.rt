//! Doing a command over boot images, and the exit status.

ghost use Rattle.std.specs.Prelude.{◌≡◌, ◌≢◌, ◌≤◌, IsTrue, IfErr};
ghost use Rattle.sys_disk.specs.World.{HasNotFailed, IsReading};
ghost use Rattle.cmd_boot_dispatch.specs.Commands.{SparesKind};
ghost use Rattle.abootimg.specs.BootDone.{BootDone};
ghost use Rattle.abootimg.specs.OrderEnds.{BootTaskRefused, highest};

use crate::outcome::told_at_most;
use abt_io::{Meter, Window};
use cmd_boot_dispatch::{BootCommand, BootCommandFault, BootOutcome, boot_command};
use sys_disk::Disk;
use sys_host::{DONE, REFUSED, Telling, USAGE};
use sys_report::Report;

/// Does a command over boot images, and returns the exit status.
pub fn do_boot<D: Disk>(
    disk: &mut D,
    command: &BootCommand<'_>,
    how: Telling,
    rt: HostRuntime,
    report: &mut Report,
    w: &mut Window,
    m: &mut Meter,
) -> u8
    requires first { IsTrue D.models → IsReading (D.held disk.old) }
    ensures status { result ≤ 2 }
    // the status is 0 only if it is done, and what was printed tells of it
    ensures done { IsTrue D.models → result ≡ 0 → BootDone D.on_output command.now.kind (D.world disk.old)
        (D.held disk.old) report.old (D.world disk.new) (D.held disk.new) report.new }
    // and if nothing failed
    ensures clean { IsTrue D.models → result ≡ 0 → HasNotFailed (D.held disk.old) (D.held disk.new) }
    // else its command refuses it
    ensures refused { IsTrue D.models → result ≢ 0 → BootTaskRefused command.now.kind (D.world disk.old)
        (D.held disk.old) report.old (D.world disk.new) (D.held disk.new) report.new result }
    // it is 2 only if every file is as before
    ensures wrong { IsTrue D.models → result ≡ 2 → D.world disk.new ≡ D.world disk.old }
    // whatever the status, what it reads holds what it held, and nothing has changed but what it is to write
    ensures spares { IsTrue D.models → SparesKind command.now.kind (D.world disk.old) (D.held disk.old)
        (D.world disk.new) (D.held disk.new) }
{
    let outcome = boot_command(disk, report, command, w, m);
    let most = highest_of(&outcome);
    told_at_most(outcome, most, how, rt, report)
}

// The highest status of an outcome. The words of a file are read before, so no fault of files is one of words.
fn highest_of(outcome: &BootOutcome<'_, '_>) -> u8
    ensures { IfErr outcome.now (λ refusal. result ≡ highest refusal.fault) }
{
    match outcome {
        Err(refusal) => highest_for(&refusal.fault),
        Ok(()) => DONE,
    }
}

fn highest_for(fault: &BootCommandFault<'_>) -> u8
    ensures { result ≡ highest fault.now }
{
    match fault {
        BootCommandFault::Host(_) => REFUSED,
        BootCommandFault::Section(_) => USAGE,
        BootCommandFault::OptionNotCarried(_) => USAGE,
        BootCommandFault::BadFragment(_) => USAGE,
        BootCommandFault::BadNumber(_) => USAGE,
        BootCommandFault::BadBoardId(_) => USAGE,
        BootCommandFault::CheckFailed => USAGE,
    }
}
