//! Doing a task of sparse images, and the exit status.

ghost use Rattle.std.specs.Prelude.{◌≡◌, ◌≢◌, ◌≤◌, None, IsTrue};
ghost use Rattle.sys_disk.specs.World.{HasNotFailed, IsReading};
ghost use Rattle.cmd_sparse_dispatch.specs.Commands.{DoesTask, SparesFiles, state};
ghost use Rattle.abootimg.specs.OrderEnds.{SparseTaskRefused};

use crate::outcome::told_at_most;
use abt_io::{Meter, Window};
use cmd_sparse_dispatch::sparse_command;
use sys_disk::Disk;
use sys_host::{REFUSED, Telling};
use sys_report::Report;
use words_orders::SparseTask;

/// Does a task of sparse images, and returns the exit status.
pub fn do_sparse<D: Disk>(
    disk: &mut D,
    task: SparseTask<'_>,
    how: Telling,
    rt: HostRuntime,
    report: &mut Report,
    w: &mut Window,
    m: &mut Meter,
) -> u8
    requires first { IsTrue D.models → IsReading (D.held disk.old) }
    requires one { IsTrue D.models → (D.held disk.old).part ≡ None }
    requires through { IsTrue D.models → (D.held disk.old).spool ≡ None }
    ensures status { result ≤ 1 }
    // the status is 0 only if the task is done, and what was printed tells of it
    ensures done { IsTrue D.models → result ≡ 0 → DoesTask D.on_output task.entry
        (state (D.world disk.old) (D.held disk.old)
        report.old) (state (D.world disk.new) (D.held disk.new) report.new) }
    // and if nothing failed
    ensures clean { IsTrue D.models → result ≡ 0 → HasNotFailed (D.held disk.old) (D.held disk.new) }
    // else its command refuses it
    ensures refused { IsTrue D.models → result ≢ 0 → SparseTaskRefused task.entry (D.world disk.old) (D.held disk.old)
        report.old (D.world disk.new) (D.held disk.new) report.new result }
    // whatever the status, what it reads holds what it held, and nothing has changed but what it is to write
    ensures spares { IsTrue D.models → SparesFiles task.entry (state (D.world disk.old) (D.held disk.old) report.old)
        (state (D.world disk.new) (D.held disk.new) report.new) }
{
    let outcome = sparse_command(disk, report, task, rt.alloc(), w, m);
    told_at_most(outcome, REFUSED, how, rt, report)
}
