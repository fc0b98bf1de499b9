//! The command `expand` of one image.

ghost use Rattle.std.specs.Prelude.{◌≡◌, ◌+◌, ◌-◌, ◌++◌, [], ◌∷◌, IsTrue, IfErr, OnOk, OnErr, if◌then◌else◌};
ghost use Rattle.sys_refusals.specs.Paths.{path_in, path_out};
ghost use Rattle.sys_refusals.specs.declared.refusal.HostFault.{HostFault};
ghost use Rattle.sys_disk.specs.World.{IsReading};
ghost use Rattle.sys_report.specs.Shows.{CannotPrint, ShowsBeside, Unprinted};
ghost use Rattle.cmd_common_sparse.specs.Lines.{line_text};
ghost use Rattle.cmd_expand.specs.Expanding.{Blames, ExpandingSays, ExpandsFile, LeavesExpanded, RefusesFile};
ghost use Rattle.cmd_expand.specs.Expanding.{WritesRead};

use abt_chunks::{Expanded, expand};
use abt_io::{Input, Meter, Output, Window};
use cmd_common_sparse::{Line, SparseCommandFault, SparseRefusal};
use sys_disk::{Disk, Measured, Reasons, ended};
use sys_refusals::{FileArg, HostRefusal, Sides};
use sys_report::{Carried, Report};

/// Writes the raw image of a sparse one, and prints what it has. `-` is standard input, and standard output.
#[inline(never)]
pub fn expand_one<'a, D: Disk>(
    disk: &mut D,
    report: &mut Report,
    input: FileArg<'a>,
    output: FileArg<'a>,
    w: &mut Window,
    m: &mut Meter,
) -> Result<(), SparseRefusal<'a>>
    requires first { IsTrue D.models → IsReading (D.held disk.old) }
    // OUT holds the expansion of the image that IN holds, which is another file; the printed line has its numbers
    ensures done { IsTrue D.models → OnOk result (ExpandsFile (path_in input.entry) (path_out output.entry)
        (D.world disk.old) (D.world disk.new) (ShowsBeside (D.on_output (path_out output.entry)) report.old
        report.new)) }
    // it was synced, where that is requested
    ensures synced { IsTrue D.models → OnOk result ((D.held disk.new).syncs
        ≡ (D.held disk.old).syncs + (if (D.held disk.old).is_synced then 1 else 0)) }
    // whatever the outcome, only OUT may hold anything else, IN holds what it held, and no output is left open; the
    // result is Ok only where nothing failed
    ensures leaves { IsTrue D.models → LeavesExpanded result (path_in input.entry) (path_out output.entry)
        (D.held disk.old) (D.held disk.new) (D.world disk.old) (D.world disk.new) }
    // it fails for a fault of IN, and OUT holds what comes before that; or where a device failed, and OUT begins with
    // most of what was read; or where the system failed
    ensures refused { IsTrue D.models → IfErr result (λ refusal. RefusesFile refusal.fault (path_in input.entry)
        (path_out output.entry) (D.world disk.old) (D.world disk.new) (D.held disk.old) (D.held disk.new)
        (Unprinted report.old report.new)) }
{
    let from = disk.input(input)?;
    report.progress.expect_if(from.known_length());
    let mut onto = disk.raw(output)?;
    let mut carried = Carried {
        device: from,
        progress: &mut report.progress,
    };
    let answer = expanded(&mut carried, &mut onto, w, m);
    let Carried { device: from, .. } = carried;
    let sides = Sides::none().reading(input, from.why());
    disk.let_go(from);
    let (expanded, is_on_output) = match ended(disk, answer, onto, output, sides) {
        Ok(end) => end,
        Err(refusal) => return Err(refusal),
    };
    match printed(expanded, is_on_output, report) {
        Ok(()) => Ok(()),
        Err(refusal) => Err(refusal.into()),
    }
}

// Its text takes more of the stack than all else here, and none of it while the image is written.
#[inline(never)]
pub(crate) fn printed<'a>(
    expanded: Expanded,
    is_on_output: bool,
    report: &mut Report,
) -> Result<(), HostRefusal<'a>>
    ensures shown { OnOk result (ShowsBeside is_on_output report.old report.new (line_text (Line.Expanded
        expanded.blocks expanded.bytes) ++ (10 ∷ []))) }
    ensures refused { OnErr result (CannotPrint report.old report.new) }
    ensures fault { IfErr result (λ refusal. refusal.fault ≡ HostFault.Write) }
{
    let Expanded { blocks, bytes } = expanded;
    report.line_beside(is_on_output, Line::Expanded { blocks, bytes })
}

fn expanded<I: Input, O: Output>(
    from: &mut Carried<'_, I>,
    onto: &mut O,
    w: &mut Window,
    m: &mut Meter,
) -> Result<Expanded, SparseCommandFault>
    ensures says { IsTrue I.models → ExpandingSays result (I.remaining from.old.device) (O.written onto.old)
        (O.written onto.new) }
    ensures begun { IsTrue I.models → WritesRead (I.given from.new.device - I.given from.old.device)
        (I.remaining from.old.device) (O.written onto.old) (O.written onto.new) }
    ensures frame { O.write_frame onto.new ≡ O.write_frame onto.old }
    ensures blames { Blames result (I.read_faults from.old.device) (I.read_faults from.new.device)
        (O.write_faults onto.old) (O.write_faults onto.new) }
{
    match expand(from, onto, w, m) {
        Ok(expanded) => Ok(expanded),
        Err(fault) => Err(SparseCommandFault::Sparse(fault)),
    }
}
