//! The result of a call that wrote a file in place, once that file is closed.

ghost use Rattle.std.specs.Prelude.{◌≡◌, IsTrue, IsOk, IfOk, IfErr, Ok, is_ok};
ghost use Rattle.sys_disk.specs.InPlace.{ClosesPart};
ghost use Rattle.sys_disk.specs.Counts.{call, writes};
ghost use Rattle.sys_disk.specs.World.{Ends, HasFailed, SparesRest, number_of};
ghost use Rattle.sys_refusals.specs.Paths.{path_of};
ghost use Rattle.sys_refusals.specs.declared.refusal.HostFault.{HostFault};

use crate::Disk;
use sys_refusals::{FileArg, HostFault, Refusal, Sides, Told};

/// Returns the result of a call that wrote a file in place, which is closed now, and whether that file is where
/// standard output goes. If the call failed, its fault is returned.
pub fn closed<'a, D: Disk, T: Drop, F: Told + From<HostFault> + Drop>(
    disk: &mut D,
    answer: Result<T, F>,
    part: D::InPlace,
    place: FileArg<'a>,
    sides: Sides<'a>,
) -> Result<(T, bool), Refusal<'a, F>>
    requires this { IsTrue D.models → (D.InPlace.past part).file ≡ number_of (D.held disk.old).part }
    ensures done { IfOk result (λ end. answer ≡ Ok end.0) }
    ensures told { IfErr answer (λ fault. IfErr result (λ refusal. refusal.fault ≡ fault)) }
    ensures host { IsOk answer → IfErr result (λ refusal. (fault : HostFault) × F.from_gives fault refusal.fault
        × (IsTrue D.models → HasFailed (call fault) (D.held disk.old) (D.held disk.new))) }
    ensures ended { IsTrue D.models → Ends (D.held disk.old).part (D.InPlace.content part) (D.world disk.old)
        (D.world disk.new) }
    ensures paths { IsTrue D.models → (D.world disk.new).at ≡ (D.world disk.old).at }
    ensures closed { IsTrue D.models → ClosesPart (is_ok result) (D.InPlace.past part)
        (writes (D.InPlace.put_faults part)) (D.held disk.old) (D.held disk.new) }
    ensures rest { IsTrue D.models → SparesRest (D.held disk.old).part (D.world disk.old) (D.world disk.new) }
    ensures stream { IsTrue D.models → IfOk result (λ end. end.1 ≡ D.on_output (path_of place.entry)) }
{
    let end = disk.close(part, place);
    match answer {
        Ok(done) => match end {
            Ok(is_on_output) => Ok((done, is_on_output)),
            Err(refusal) => Err(refusal.into()),
        },
        Err(fault) => Err(sides.refuse(fault)),
    }
}
