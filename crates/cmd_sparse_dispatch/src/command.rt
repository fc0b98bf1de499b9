//! A task with a sparse image, and the command that does it.

ghost use Rattle.std.specs.Prelude.{◌≡◌, None, IsTrue, IfErr, OnOk};
ghost use Rattle.sys_disk.specs.World.{IsReading};
ghost use Rattle.cmd_sparse_dispatch.specs.Commands.{DoesTask, LeavesNoPartOfSparse, LeavesSpared, RefusesTask};
ghost use Rattle.cmd_sparse_dispatch.specs.Commands.{SparesFiles, state};

use crate::commands::{
    cut_image, expand_files, flash_pieces, flash_straight, list_image, sparsify, verify_image,
};
use abt_io::{Meter, Window};
use cmd_common_sparse::{PieceNaming, SparseRefusal};
use std::alloc::Global;
use sys_disk::Disk;
use sys_report::Report;
use words_orders::SparseTask;

/// Does what the arguments ask for.
pub fn sparse_command<'a, D: Disk>(
    disk: &mut D,
    report: &mut Report,
    task: SparseTask<'a>,
    alloc: Global,
    w: &mut Window,
    m: &mut Meter,
) -> Result<(), SparseRefusal<'a>>
    requires first { IsTrue D.models → IsReading (D.held disk.old) }
    requires one { IsTrue D.models → (D.held disk.old).part ≡ None }
    requires through { IsTrue D.models → (D.held disk.old).spool ≡ None }
    // the task is done by its own command, on the files that its arguments name
    ensures done { IsTrue D.models → OnOk result (DoesTask D.on_output task.entry
        (state (D.world disk.old) (D.held disk.old)
        report.old) (state (D.world disk.new) (D.held disk.new) report.new)) }
    // whatever the outcome, what the command reads holds what it held, and only what it is to write has changed; the
    // result is Ok only where nothing failed
    ensures leaves { IsTrue D.models → LeavesSpared result (SparesFiles task.entry)
        (state (D.world disk.old) (D.held disk.old) report.old)
        (state (D.world disk.new) (D.held disk.new) report.new) }
    ensures whole { IsTrue D.models → LeavesNoPartOfSparse D.is_over task.entry
        (state (D.world disk.old) (D.held disk.old) report.old)
        (state (D.world disk.new) (D.held disk.new) report.new) }
    // it fails for a cause for which its command fails
    ensures refused { IsTrue D.models → IfErr result (λ refusal. RefusesTask refusal.fault task.entry
        (state (D.world disk.old) (D.held disk.old) report.old)
        (state (D.world disk.new) (D.held disk.new) report.new)) }
{
    match task {
        SparseTask::Expand { inputs, output } => {
            expand_files(disk, report, inputs.as_slice(), output, alloc, w, m)
        }
        SparseTask::List { input } => list_image(disk, report, input, w, m),
        SparseTask::Sparse {
            input,
            output,
            block,
            as_img2simg,
        } => sparsify(disk, report, input, output, block, as_img2simg, w, m),
        SparseTask::Cut {
            input,
            limit,
            prefix,
            is_from_zero,
            raw,
        } => {
            let names = PieceNaming {
                prefix,
                is_from_zero,
            };
            cut_image(disk, report, input, limit, names, raw, w, m)
        }
        SparseTask::Flash {
            input,
            partition,
            raw,
            pieces,
        } => match pieces {
            Some(pieces) => flash_pieces(disk, report, input, partition, raw, pieces, w, m),
            None => flash_straight(disk, report, input, partition, raw, w, m),
        },
        SparseTask::Verify {
            input,
            partition,
            raw,
        } => verify_image(disk, report, input, partition, raw, w, m),
    }
}
