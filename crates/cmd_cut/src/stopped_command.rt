//! The fault of a command that stopped, where its file is written late.

ghost use Rattle.std.specs.Prelude.{◌≡◌, ◌≤◌, false, IsTrue, IfErr, IfOk, OnOk};
ghost use Rattle.sys_disk.specs.Counts.{writing};
ghost use Rattle.sys_disk.specs.Images.{Leaves};
ghost use Rattle.sys_disk.specs.World.{HasFailed, number_of};
ghost use Rattle.sys_refusals.specs.Blamed.{TellsOf, input_of};
ghost use Rattle.cmd_common_sparse.specs.Fault.{side_of};
ghost use Rattle.cmd_cut.specs.Sparsing.{GivesUp, TellsFirst};

use abt_io::DeviceFault;
use abt_pieces::PieceFault;
use cmd_common_sparse::{SparseCommandFault, SparseRefusal};
use sys_disk::{Disk, Late, Reasons};
use sys_refusals::{FileArg, Sides};

/// Closes an image, and fails with this fault, or with that of an earlier write that could not be done.
pub(crate) fn stopped<'a, D: Disk>(
    disk: &mut D,
    fault: SparseCommandFault,
    image: D::Image,
    output: FileArg<'a>,
    sides: Sides<'a>,
) -> SparseRefusal<'a>
    requires this { IsTrue D.models → (D.Image.Output.write_frame image).file ≡ number_of (D.held disk.old).output }
    ensures left { IsTrue D.models → Leaves (D.held disk.old).output (D.Image.Output.written image) (D.world disk.new) }
    ensures closed { IsTrue D.models → GivesUp (D.Image.Output.write_faults image) (D.held disk.old) (D.held disk.new)
        (D.world disk.old) (D.world disk.new) }
    // it fails with this fault, unless an earlier write has failed
    ensures told { TellsFirst fault result.fault (IsTrue D.models
        → HasFailed writing (D.held disk.old) (D.held disk.new)) }
    ensures told_of { TellsOf (side_of result.fault) result.about.place (input_of sides.entry) (Some output.entry) }
{
    let mut image = image;
    let fault = first_of(image.settle(), fault);
    let sides = sides.begun(output, image.why());
    disk.give_up_image(image);
    sides.refuse(fault)
}

// Of a write and a later fault, the first.
fn first_of(settled: Result<(), DeviceFault>, fault: SparseCommandFault) -> SparseCommandFault
    ensures settled { OnOk settled (result ≡ fault) }
    ensures refused { IfErr settled (λ device. result ≡ SparseCommandFault.Piece (PieceFault.Write device)) }
{
    match settled {
        Ok(()) => fault,
        Err(device) => SparseCommandFault::Piece(PieceFault::Write(device)),
    }
}
