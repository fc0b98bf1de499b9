//! Flashes a sparse image as a whole.

ghost use Rattle.std.specs.Prelude.{◌≡◌, ◌-◌, IsTrue, take};
ghost use Rattle.abt_io.specs.Moment.{Keeps, moment_of};
ghost use Rattle.abt_sparse.specs.Pieces.{given};
ghost use Rattle.abt_sparse.specs.Reading.{outcome};
ghost use Rattle.abt_flash.specs.Devices.{FlowGrows, Reads, flow};
ghost use Rattle.abt_flash_faults.specs.Fault.{FlashingRises};
ghost use Rattle.abt_flash.specs.Laying.{writes};
ghost use Rattle.abt_flash.specs.Flashing.{FlashCosts, Flashes, Holds, Syncs, TouchesOnly};
ghost use Rattle.abt_flash.specs.Stepping.{OnShort};
ghost use Rattle.abt_flash.specs.Devices.{LeavesUnread};

use crate::flasher::Flasher;
use crate::stage::Flashed;
use abt_chunks::MachineProgress;
use abt_flash_faults::FlashFault;
use abt_io::{Input, Meter, Partition, Window};

/// Writes the raw and fill blocks of the image at the beginning of the input to their places on the partition, each
/// once, leaves all other bytes as they are, and syncs. It reads no further than the image, and reads nothing of the
/// partition. An error is one of these:
///
/// - the first fault of the image (1 to 10), after what comes before it was written;
/// - a device's fault (11 reading, 12 writing, 18 syncing);
/// - a partition that is too small for the image's blocks (17); then nothing of it was written.
pub fn flash<I: Input, P: Partition>(
    input: &mut I,
    partition: &mut P,
    w: &mut Window,
    m: &mut Meter,
) -> Result<Flashed, FlashFault>
    // What was read.
    ensures read { Reads I.models (I.given input.old) (I.given input.new) (I.remaining input.old)
        (I.remaining input.new) }
    // An image that fits is flashed, and anything else is refused with its own fault.
    ensures flashes { IsTrue I.models → Flashes result (P.size partition.old) (P.taken partition.old)
        (P.taken partition.new) (I.remaining input.old) (I.remaining input.new) }
    // What the partition holds, and that no other byte was touched in any intermediate state.
    ensures holds { IsTrue I.models → IsTrue P.models →
        Holds result (I.given input.new - I.given input.old) (P.content partition.old) (P.content partition.new)
        (I.remaining input.old) }
    ensures touches { IsTrue I.models → IsTrue P.models → TouchesOnly (given (outcome (I.remaining input.old)))
        (P.past partition.old) (P.past partition.new) (P.content partition.old) (P.content partition.new) }
    // Of the bytes that the image writes none but those that the bytes read so far give.
    ensures seen { IsTrue I.models → IsTrue P.models →
        Keeps (writes (given (outcome (take (I.given input.new - I.given input.old) (I.remaining input.old)))))
        (moment_of (P.past partition.old) (P.content partition.old))
        (moment_of (P.past partition.new) (P.content partition.new)) }
    ensures syncs { Syncs P.models result (P.past partition.old) (P.past partition.new)
        (P.syncs partition.old) (P.syncs partition.new) }
    // One that is too small is not called.
    ensures untouched { OnShort result (partition.new ≡ partition.old) }
    ensures unread { LeavesUnread P.Source partition.old partition.new }
    ensures cause { FlashingRises result (I.read_faults input.old) (I.read_faults input.new)
        (P.put_faults partition.old) (P.put_faults partition.new) }
    ensures frame { I.read_frame input.new ≡ I.read_frame input.old }
    ensures grows { FlowGrows (flow I.Input P.Partition.own input.old partition.old)
        (flow I.Input P.Partition.own input.new partition.new) }
    ensures costs { FlashCosts (flow I.Input P.Partition.own input.old partition.old)
        (flow I.Input P.Partition.own input.new partition.new) m.old m.new }
{
    let mut machine = Flasher::open();
    'steps: loop {
        m.tick();
        match machine.step(input, partition, w, m) {
            Ok(MachineProgress::More) => {}
            Ok(MachineProgress::Done) => {
                return Ok(Flashed {
                    blocks: machine.blocks(),
                });
            }
            Err(fault) => return Err(fault),
        }
    }
}
