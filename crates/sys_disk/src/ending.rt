//! The result of a call, once its output is finished.

ghost use Rattle.std.specs.Prelude.{◌≡◌, IsTrue, IsOk, IfOk, IfErr, OnOk, Ok, Some, is_ok, true};
ghost use Rattle.sys_disk.specs.Counts.{call, writes};
ghost use Rattle.sys_disk.specs.World.{Ends, EndsOutput, HasFailed, SparesRest, ended, number_of};
ghost use Rattle.sys_refusals.specs.Blamed.{TellsOf, input_of};
ghost use Rattle.sys_refusals.specs.Paths.{path_out};
ghost use Rattle.sys_refusals.specs.declared.refusal.HostFault.{HostFault};

use crate::{Disk, Reasons};
use sys_refusals::{FileArg, HostFault, Refusal, Sides, Told};

/// Returns the result of a call that wrote an output, and whether the output is where standard output goes. If the call
/// failed, what the output took is sent, and the fault of the call is returned.
#[inline(never)]
pub fn ended<'a, D: Disk, T: Drop, F: Told + From<HostFault> + Drop>(
    disk: &mut D,
    answer: Result<T, F>,
    onto: D::Onto,
    output: FileArg<'a>,
    sides: Sides<'a>,
) -> Result<(T, bool), Refusal<'a, F>>
    requires this { IsTrue D.models → (D.Onto.write_frame onto).file ≡ number_of (D.held disk.old).output }
    ensures done { IfOk result (λ end. answer ≡ Ok end.0) }
    ensures ended { IsTrue D.models → OnOk result (Ends (D.held disk.old).output (D.Onto.written onto)
        (D.world disk.old) (D.world disk.new)) }
    ensures closed { IsTrue D.models → EndsOutput (is_ok result) (D.Onto.written onto)
        (writes (D.Onto.write_faults onto)) (D.held disk.old) (D.held disk.new) (D.world disk.old) (D.world disk.new) }
    ensures clean { IsTrue D.models → OnOk result (D.held disk.new ≡ ended true (writes (D.Onto.write_faults onto))
        (D.held disk.old)) }
    ensures rest { IsTrue D.models → SparesRest (D.held disk.old).output (D.world disk.old) (D.world disk.new) }
    ensures stream { IsTrue D.models → IfOk result (λ end. end.1 ≡ D.on_output (path_out output.entry)) }
    ensures told { IfErr answer (λ fault. IfErr result (λ refusal. refusal.fault ≡ fault)) }
    ensures told_of { IfErr answer (λ fault. IfErr result (λ refusal. TellsOf (F.side_of fault) refusal.about.place
        (input_of sides.entry) (Some output.entry))) }
    ensures host { IsOk answer → IfErr result (λ refusal. (fault : HostFault) × F.from_gives fault refusal.fault
        × (IsTrue D.models → HasFailed (call fault) (D.held disk.old) (D.held disk.new))) }
{
    match answer {
        Ok(done) => match disk.finish(onto, output) {
            Ok(is_on_output) => Ok((done, is_on_output)),
            Err(refusal) => Err(refusal.into()),
        },
        Err(fault) => {
            let sides = sides.begun(output, onto.why());
            disk.give_up(onto);
            Err(sides.refuse(fault))
        }
    }
}
