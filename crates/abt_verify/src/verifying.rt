//! Verifies a sparse image as a whole.

ghost use Rattle.std.specs.Prelude.{◌≤◌, ◌+◌, ◌*◌, IsTrue};
ghost use Rattle.abt_chunks.specs.Costs.{StepsWithin};
ghost use Rattle.abt_chunks.specs.Taking.{ReadsOn, input_state};
ghost use Rattle.abt_verify.specs.Comparing.{ReadsMore};
ghost use Rattle.abt_verify.specs.Fault.{VerifyRises};
ghost use Rattle.abt_verify.specs.Verifying.{Verifies};

use crate::fault::VerifyFault;
use crate::stage::Verified;
use crate::verifier::Verifier;
use abt_chunks::MachineProgress;
use abt_io::{Input, Meter, Source, Window};

/// Compares the raw and fill blocks of the image at the beginning of the input with what is stored at their places on
/// the partition, to which nothing is written. It reads no further than the image, and of the partition each of these
/// bytes once. An error is the first byte that differs (35), as all after the partition's end do, or the first fault of
/// the image (1 to 10), whichever comes first in it, or a device's (11 reading the input, 37 the partition).
pub fn verify<I: Input, P: Source>(
    input: &mut I,
    partition: &mut P,
    w: &mut Window,
    m: &mut Meter,
) -> Result<Verified, VerifyFault>
    // What was read.
    ensures input { ReadsOn I.models (input_state I.Input input.old) (input_state I.Input input.new) }
    // An image that the partition holds is found. All else is refused with its first difference or its own fault.
    ensures verifies { IsTrue I.models → Verifies P.models result (P.content partition.old) (I.remaining input.old)
        (I.remaining input.new) (P.given partition.old) (P.given partition.new) }
    ensures cause { VerifyRises result (I.read_faults input.old) (I.read_faults input.new) (P.read_faults partition.old)
        (P.read_faults partition.new) }
    // The partition stays as it is: its bytes, its length, and all that a write or a sync would change.
    ensures partition { ReadsMore result P.Source partition.old partition.new }
    // What it cost.
    ensures calls { I.reads input.new + P.reads partition.new + 8 * I.given input.old + 8 * P.given partition.old
        ≤ I.reads input.old + P.reads partition.old + 8 * I.given input.new + 8 * P.given partition.new + 64 }
    ensures turns { m.new.turns.number + 8 * I.given input.old + 8 * P.given partition.old
        ≤ m.old.turns.number + 8 * I.given input.new + 8 * P.given partition.new + 64 }
    ensures steps { StepsWithin 65580 (I.given input.old + P.given partition.old)
        (I.given input.new + P.given partition.new) m.old m.new }
{
    let mut machine = Verifier::open();
    'steps: loop {
        m.tick();
        match machine.step(input, partition, w, m) {
            Ok(MachineProgress::More) => {}
            Ok(MachineProgress::Done) => {
                return Ok(Verified {
                    blocks: machine.blocks(),
                });
            }
            Err(fault) => return Err(fault),
        }
    }
}
