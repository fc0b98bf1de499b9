//! Expands a sparse image, in steps and as a whole.

ghost use Rattle.std.specs.Prelude.{◌≡◌, ◌<◌, ◌≤◌, ◌+◌, ◌-◌, ◌*◌, ◌++◌, ℕ, List, IsTrue, OnOk, is_err, length, take};
ghost use Rattle.abt_io.specs.Lent.{OneStep, OnlyWrites};
ghost use Rattle.abt_sparse.specs.Block.{laid};
ghost use Rattle.abt_sparse.specs.Cause.{full_answered};
ghost use Rattle.abt_chunks.specs.Ahead.{finish};
ghost use Rattle.abt_chunks.specs.Cause.{Blamed, full_since};
ghost use Rattle.abt_chunks.specs.Costs.{ExpandCosts};
ghost use Rattle.abt_chunks.specs.Expanding.{IsFrontOf, IsGoing, OnMoreExpanding, ExpandingLeaves, UnlessExpanding};
ghost use Rattle.abt_chunks.specs.Expanding.{answer_of};
ghost use Rattle.abt_chunks.specs.Parts.{ahead};
ghost use Rattle.abt_chunks.specs.Places.{owed};
ghost use Rattle.abt_chunks.specs.Stepping.{WalksOn};
ghost use Rattle.abt_chunks.specs.Taking.{ReadStep, input_state};
ghost use Rattle.abt_chunks.specs.Turns.{IsWalkOver, todo};
ghost use Rattle.abt_chunks.specs.Whole.{AllNeeded, AlmostWhole, Begun, Expands};
ghost use Rattle.abt_chunks.specs.declared.progress.MachineProgress.TheVariants.{More};

use crate::expansion::write_part;
use crate::progress::{Expanded, MachineProgress};
use crate::walk::{Part, Phase, Walk};
use abt_io::{Input, Meter, Output, Window};
use abt_sparse::{ChunkKind, SparseFault, data_length};

/// What a step returns once its part has been written.
#[inline(always)]
pub(crate) fn answer(part: Part) -> Result<MachineProgress, SparseFault>
    ensures { result ≡ answer_of part }
{
    match part {
        Part::End => Ok(MachineProgress::Done),
        Part::Fault(fault) => Err(fault),
        _ => Ok(MachineProgress::More),
    }
}

/// Writes the blocks of a sparse image one after the other, with zeros for those that do not matter. It holds no bytes
/// of the image: each step writes what it read.
#[derive(Drop)]
pub struct Expander {
    pub walk: Walk,
}

impl Expander {
    /// An expander that has read nothing.
    pub fn open() -> Expander
        ensures { result.walk.phase ≡ Phase.Header }
    {
        Expander { walk: Walk::new() }
    }

    /// One step: at most a window is read, and what it gives is written, a fill or a gap whole. An error is the first
    /// fault of the image (1 to 10) or a device's (11 reading, 12 writing). After an error or Done every step returns
    /// that again and calls no device.
    #[inline(always)]
    pub fn step<I: Input, O: Output>(
        &mut self,
        input: &mut I,
        output: &mut O,
        w: &mut Window,
        m: &mut Meter,
    ) -> Result<MachineProgress, SparseFault>
        ensures input { ReadStep (I.given input.new - I.given input.old) 65536 self.old.walk I.models
            (input_state I.Input input.old) (input_state I.Input input.new) }
        // What is written, finished by what is still to be read, is the whole.
        ensures told { IsTrue I.models → (t : List ℕ) → (IsTrue (is_err result) → t ≡ I.remaining input.new) →
            UnlessExpanding result (finish (O.written output.old) (ahead self.old.walk
            (take (I.given input.new - I.given input.old) (I.remaining input.old) ++ t)) ≡ finish
            (O.written output.new) (ahead self.new.walk t)) }
        // And it is a beginning of what the bytes read so far give.
        ensures begun { IsTrue I.models → IsFrontOf (O.written output.new)
            (finish (O.written output.old) (ahead self.old.walk
            (take (I.given input.new - I.given input.old) (I.remaining input.old)))).0 }
        // Nothing is held over: what the bytes read so far give is written, but for the words that a fill or a gap
        // still owes.
        ensures held { IsTrue I.models → OnOk result ((finish (O.written output.old)
            (ahead self.old.walk (take (I.given input.new - I.given input.old) (I.remaining input.old)))).0 ≡
            O.written output.new ++ laid (owed self.new.walk)) }
        ensures stands { ExpandingLeaves result self.new.walk.phase }
        ensures blame { IsGoing self.old.walk.phase → Blamed result (I.read_faults input.old)
            (I.read_faults input.new) (O.write_faults output.old) (O.write_faults output.new) }
        ensures writes { OnlyWrites result (full_since self.old.walk.phase result) O.Output output.old output.new }
        ensures again { IsWalkOver self.old.walk.phase → (self.new.walk ≡ self.old.walk) × (input.new ≡ input.old) ×
            (output.new ≡ output.old) }
        ensures fewer { OnMoreExpanding result (todo self.new.walk < todo self.old.walk) }
        ensures costs { ExpandCosts result (I.given input.new - I.given input.old) O.Output output.old output.new m.old
            m.new }
        ensures one_step { OneStep (I.given input.new - I.given input.old) m.old m.new }
    {
        self.walk.is_counted();
        let all = self.walk.words.max(1);
        let taken = self.walk.part(all, all, input, w, m);
        let done = write_part(taken.part, output, w, m);
        m.close_step(taken.received);
        match done {
            Ok(()) => answer(taken.part),
            Err(fault) => {
                let fault = SparseFault::Write(fault);
                let _ = self.walk.fail(fault);
                Err(fault)
            }
        }
    }
}

/// Writes the expansion of the image at the beginning of the input, and reads no further than it needs. An error is
/// the first fault of the image (1 to 10), after all that comes before it was written, or a device's fault (11
/// reading, 12 writing), after a prefix of that was written.
pub fn expand<I: Input, O: Output>(
    input: &mut I,
    output: &mut O,
    w: &mut Window,
    m: &mut Meter,
) -> Result<Expanded, SparseFault>
    ensures walks { WalksOn I.Input 65580 input.old input.new m.old m.new }
    // An image is expanded, and anything else is refused with its own fault, after what came before it.
    ensures expands { IsTrue I.models → Expands result (O.written output.old) (O.written output.new)
        (I.remaining input.old) (I.remaining input.new) }
    // What is written is a beginning of what the bytes read give.
    ensures begun { IsTrue I.models → Begun (O.written output.old) (O.written output.new)
        (take (I.given input.new - I.given input.old) (I.remaining input.old)) }
    // And it lacks less than a window of what all of them but the last give, which may complete a repeated word.
    ensures least { IsTrue I.models → AlmostWhole (O.written output.old) (O.written output.new)
        (take ((I.given input.new - I.given input.old) - 1) (I.remaining input.old)) }
    // No byte is read that is not needed: none after an image, and none once a fault is known.
    ensures needed { IsTrue I.models → AllNeeded (I.remaining input.old) (I.given input.new - I.given input.old) }
    ensures blame { Blamed result (I.read_faults input.old) (I.read_faults input.new) (O.write_faults output.old)
        (O.write_faults output.new) }
    ensures writes { OnlyWrites result (full_answered result) O.Output output.old output.new }
    ensures calls { (I.reads input.new - I.reads input.old) + (O.writes output.new - O.writes output.old) ≤ 8 *
        ((I.given input.new - I.given input.old) + (length (O.written output.new) - length (O.written output.old))) +
        512 }
    ensures turns { m.new.turns.number ≤ m.old.turns.number + 8 *
        ((I.given input.new - I.given input.old) + (length (O.written output.new) - length (O.written output.old))) +
        512 }
{
    let mut machine = Expander::open();
    'steps: loop {
        m.tick();
        match machine.step(input, output, w, m) {
            Ok(MachineProgress::More) => {}
            Ok(MachineProgress::Done) => {
                let header = machine.walk.header;
                return Ok(Expanded {
                    blocks: header.total_blks,
                    bytes: data_length(header.blk_sz, ChunkKind::Raw, header.total_blks),
                });
            }
            Err(fault) => return Err(fault),
        }
    }
}
