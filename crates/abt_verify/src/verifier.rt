//! Verifies a sparse image in steps.

ghost use Rattle.std.specs.Prelude.{◌≡◌, ◌<◌, ◌≤◌, ◌+◌, ◌-◌, ◌*◌, ◌/◌, ◌^◌, IsTrue, OnOk, take, min};
ghost use Rattle.abt_io.specs.Lent.{OneStep};
ghost use Rattle.abt_chunks.specs.Places.{upto_of};
ghost use Rattle.abt_chunks.specs.Taking.{ReadStep, input_state};
ghost use Rattle.abt_chunks.specs.Turns.{todo};
ghost use Rattle.abt_chunks.specs.Expanding.{OnMoreExpanding, answer_by};
ghost use Rattle.abt_chunks.specs.ListingAhead.{idle};
ghost use Rattle.abt_verify.specs.Comparing.{ReadsUpTo};
ghost use Rattle.abt_verify.specs.Fault.{VerifyRises, verify_fault_of};
ghost use Rattle.abt_verify.specs.Stepping.{Compares, HasEnded, IsComparing, LeavesWalk, stage_after};

use crate::comparing::{HALF, HALF_WORDS, compare_part};
use crate::fault::{VerifyFault, sparse_fault};
use crate::stage::VerifyStage;
use abt_chunks::{MachineProgress, Part, Phase, Walk};
use abt_io::{Input, Meter, Source, Window};

/// Compares the raw and fill blocks of a sparse image with what is stored at their places on a partition, and passes
/// over the blocks that do not matter. It holds no bytes: each step compares what it read.
#[derive(Drop)]
pub struct Verifier {
    pub walk: Walk,
    pub stage: VerifyStage,
    /// How many bytes were compared, of which no image has more than fit here.
    pub compared: u64,
}

/// How many blocks so many bytes are, and at most so many.
fn blocks_in(bytes: u64, block_size: u32, most: u32) -> u64
    requires { 0 < block_size }
    ensures { result ≡ min (bytes / block_size) most }
{
    (bytes / u64::from(block_size)).min(u64::from(most))
}

/// The blocks of all chunks so far end below 2^64. Only contracts need this fact.
#[inline(always)]
fn is_in_range(walk: &Walk)
    ensures { upto_of walk.now < 2 ^ 64 }
{
    let _blocks = walk.have;
    let _size = walk.header.blk_sz;
}

/// What a step returns once the partition was found to hold its part.
#[inline(always)]
fn answer(part: Part) -> Result<MachineProgress, VerifyFault>
    ensures { result ≡ answer_by verify_fault_of part }
{
    match part {
        Part::End => Ok(MachineProgress::Done),
        Part::Fault(fault) => Err(sparse_fault(fault)),
        Part::Raw(_) => Ok(MachineProgress::More),
        Part::Words(_, _) => Ok(MachineProgress::More),
        Part::Skip(_) => Ok(MachineProgress::More),
        Part::Nothing => Ok(MachineProgress::More),
    }
}

/// Where that leaves a verifier.
#[inline(always)]
pub(crate) fn stage_behind(answer: Result<MachineProgress, VerifyFault>) -> VerifyStage
    ensures { result ≡ stage_after answer }
{
    match answer {
        Ok(MachineProgress::More) => VerifyStage::Going,
        Ok(MachineProgress::Done) => VerifyStage::Done,
        Err(fault) => VerifyStage::Failed(fault),
    }
}

impl Verifier {
    /// A verifier that has read nothing.
    pub fn open() -> Verifier
        ensures walk { result.walk.phase ≡ Phase.Header }
        ensures stage { result.stage ≡ VerifyStage.Going }
        ensures compared { result.compared ≡ 0 }
    {
        Verifier {
            walk: Walk::new(),
            stage: VerifyStage::Going,
            compared: 0,
        }
    }

    /// How many blocks were compared, once the image has ended.
    pub(crate) fn blocks(&self) -> u64
        ensures { result ≡ min (self.now.compared / self.now.walk.header.blk_sz) self.now.walk.header.total_blks }
    {
        let header = self.walk.header;
        blocks_in(self.compared, header.blk_sz, header.total_blks)
    }

    /// One step: at most half a window is read of the input, and what it gives is compared with as many bytes of the
    /// partition. Of a gap nothing is read. An error is a fault of the image (1 to 10) or of a device (11 reading the
    /// input, 37 the partition), or the first byte that differs (35), as all after the partition's end do. After an
    /// error or Done every step returns that again and calls no device.
    #[inline(always)]
    pub fn step<I: Input, P: Source>(
        &mut self,
        input: &mut I,
        partition: &mut P,
        w: &mut Window,
        m: &mut Meter,
    ) -> Result<MachineProgress, VerifyFault>
        ensures input { ReadStep (I.given input.new - I.given input.old) 32768 self.old.walk I.models
            (input_state I.Input input.old) (input_state I.Input input.new) }
        // What it compares, and whether the partition holds that.
        ensures told { IsTrue I.models → IsComparing self.old.stage self.old.walk.phase →
            Compares P.models result self.old.walk self.new.walk
            (take (I.given input.new - I.given input.old) (I.remaining input.old)) (I.remaining input.new)
            (P.content partition.old) (P.given partition.old) (P.given partition.new) }
        ensures compared { IsComparing self.old.stage self.old.walk.phase →
            OnOk result (self.new.compared ≡ min (self.old.compared + (P.given partition.new - P.given partition.old))
            (2 ^ 64 - 1)) }
        ensures stage { self.new.stage ≡ stage_after result }
        ensures leaves { IsComparing self.old.stage self.old.walk.phase → LeavesWalk result self.new.walk.phase }
        ensures again { HasEnded self.old.stage → (self.new ≡ self.old) × (input.new ≡ input.old) ×
            (partition.new ≡ partition.old) }
        ensures cause { IsComparing self.old.stage self.old.walk.phase →
            VerifyRises result (I.read_faults input.old) (I.read_faults input.new) (P.read_faults partition.old)
            (P.read_faults partition.new) }
        // The partition stays as it is.
        ensures partition { ReadsUpTo result 32768 P.Source partition.old partition.new }
        ensures fewer { OnMoreExpanding result (todo self.new.walk < todo self.old.walk) }
        ensures progress { OnMoreExpanding result (idle self.new.walk + 1
            ≤ idle self.old.walk + 2 * (I.given input.new - I.given input.old)
            + 2 * (P.given partition.new - P.given partition.old)) }
        ensures turns { m.new.turns.number ≤ m.old.turns.number + (I.given input.new - I.given input.old)
            + 2 * (P.given partition.new - P.given partition.old) + 18 }
        ensures few { OnMoreExpanding result
            (m.new.turns.number ≤ m.old.turns.number + (I.given input.new - I.given input.old)
            + 3 * (P.given partition.new - P.given partition.old) + 1) }
        ensures one_step { OneStep ((I.given input.new - I.given input.old)
            + (P.given partition.new - P.given partition.old)) m.old m.new }
    {
        match self.stage {
            VerifyStage::Done => {
                m.close_step(0);
                Ok(MachineProgress::Done)
            }
            VerifyStage::Failed(fault) => {
                m.close_step(0);
                Err(fault)
            }
            VerifyStage::Going => {
                is_in_range(&self.walk);
                let at = self.walk.place();
                let all = self.walk.words.max(1);
                let taken = self.walk.part_within(HALF_WORDS, all, HALF, input, w, m);
                let done = compare_part(taken.part, at, partition, w, m);
                m.close_step(taken.received + done.received);
                self.compared = self.compared.saturating_add(u64::from(done.received));
                let answer = match done.fault {
                    Some(fault) => Err(fault),
                    None => answer(taken.part),
                };
                self.stage = stage_behind(answer);
                answer
            }
        }
    }
}
