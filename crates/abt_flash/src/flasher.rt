//! Flashes a sparse image in steps.

ghost use Rattle.std.specs.Prelude.{◌≡◌, ◌<◌, ◌≤◌, ◌+◌, ◌-◌, ◌*◌, ◌/◌, ◌^◌, [], Err};
ghost use Rattle.std.specs.Prelude.{length, max, min, nat_lt, ◌||◌, if◌then◌else◌};
ghost use Rattle.abt_chunks.specs.ListingAhead.{at_end};
ghost use Rattle.abt_flash.specs.Laying.{put_by};
ghost use Rattle.abt_flash.specs.Stepping.{IsOver};
ghost use Rattle.abt_flash.specs.Stepping.{is_short_of, need_of, passed, stage_of};
ghost use Rattle.abt_flash.specs.Stepping.{FlashStep};
ghost use Rattle.abt_chunks.specs.Expanding.{answer_by};
ghost use Rattle.abt_flash_faults.specs.Fault.{fault_of_sparse};

use crate::stage::FlashStage;
use crate::write_part::lay_part;
use abt_chunks::{MachineProgress, Part, Phase, Walk};
use abt_flash_faults::{FlashFault, sparse_fault};
use abt_io::{Input, Meter, Partition, WINDOW, Window};

/// Writes the raw and fill blocks of a sparse image to their places on a partition, and leaves the blocks that do not
/// matter as they are. It holds no bytes of the image: each step writes what it read.
#[derive(Drop)]
pub struct Flasher {
    pub walk: Walk,
    pub stage: FlashStage,
    /// How many bytes were written, of which no image has more than fit here.
    pub laid: u64,
}

/// How many bytes so many blocks take.
#[inline(always)]
fn bytes_of(blocks: u32, block_size: u32) -> u64
    ensures { result ≡ blocks * block_size }
{
    u64::from(blocks) * u64::from(block_size)
}

/// How many blocks so many bytes are, and at most so many.
fn blocks_in(bytes: u64, block_size: u32, most: u32) -> u32
    requires { 0 < block_size }
    ensures { result ≡ min (bytes / block_size) most }
{
    (bytes / u64::from(block_size)).min(u64::from(most)) as u32
}

/// How many bytes are written of a part.
#[inline(always)]
fn bytes_put(part: Part) -> u64
    requires { put_by part < 2 ^ 64 }
    ensures { result ≡ put_by part }
{
    match part {
        Part::Raw(n) => n as u64,
        Part::Words(_, n) => 4 * n,
        Part::Skip(_) => 0,
        Part::Nothing => 0,
        Part::End => 0,
        Part::Fault(_) => 0,
    }
}

/// How many bytes a step reads at most: what the window holds.
fn most_asked() -> usize
    ensures { result ≡ 65536 }
{
    WINDOW
}

/// What a step returns once its part has been written.
#[inline(always)]
fn answer(part: Part) -> Result<MachineProgress, FlashFault>
    ensures { result ≡ answer_by fault_of_sparse part }
{
    match part {
        Part::End => Ok(MachineProgress::Done),
        Part::Fault(fault) => Err(sparse_fault(fault)),
        Part::Raw(_) => Ok(MachineProgress::More),
        Part::Words(_, _) => Ok(MachineProgress::More),
        Part::Skip(_) => Ok(MachineProgress::More),
        Part::Nothing => Ok(MachineProgress::More),
    }
}

/// Where that leaves the flasher.
#[inline(always)]
fn stage_behind(answer: Result<MachineProgress, FlashFault>) -> FlashStage
    ensures { result ≡ stage_of answer }
{
    match answer {
        Ok(MachineProgress::More) => FlashStage::Going,
        Ok(MachineProgress::Done) => FlashStage::Done,
        Err(fault) => FlashStage::Failed(fault),
    }
}

impl Flasher {
    /// A flasher that has read nothing.
    pub fn open() -> Flasher
        ensures walk { result.walk.phase ≡ Phase.Header }
        ensures stage { result.stage ≡ FlashStage.Going }
        ensures laid { result.laid ≡ 0 }
    {
        Flasher {
            walk: Walk::new(),
            stage: FlashStage::Going,
            laid: 0,
        }
    }

    /// How many bytes all blocks of the image take.
    #[inline(always)]
    fn need(&self) -> u64
        ensures { result ≡ need_of self.now.walk }
    {
        bytes_of(self.walk.header.total_blks, self.walk.header.blk_sz)
    }

    /// Whether the header of the image has been read, with its extra bytes.
    #[inline(always)]
    fn has_passed_header(&self) -> bool
        ensures { result ≡ passed self.now.walk }
    {
        match self.walk.phase {
            Phase::Header => false,
            Phase::Body => self.is_behind_header(),
            Phase::Done => self.is_behind_header(),
            Phase::Failed(_) => self.is_behind_header(),
        }
    }

    /// The same, once its 28 bytes have been read.
    fn is_behind_header(&self) -> bool
        ensures { result ≡ (nat_lt 0 self.now.walk.index || at_end self.now.walk) }
    {
        self.walk.index > 0 || self.walk.is_at_end()
    }

    /// Whether a partition of this size is too small. Each step asks, since it may borrow another one.
    #[inline(always)]
    fn is_short(&self, size: u64) -> bool
        ensures { result ≡ is_short_of self.now.walk size }
    {
        self.has_passed_header() && size < self.need()
    }

    /// How many blocks were written, once the image has ended.
    pub(crate) fn blocks(&self) -> u32
        ensures { result ≡ min (self.now.laid / self.now.walk.header.blk_sz) self.now.walk.header.total_blks }
    {
        let header = self.walk.header;
        blocks_in(self.laid, header.blk_sz, header.total_blks)
    }

    /// A step of a flasher that has neither ended nor failed.
    #[inline(always)]
    fn go_on<I: Input, P: Partition>(
        &mut self,
        input: &mut I,
        partition: &mut P,
        w: &mut Window,
        m: &mut Meter,
    ) -> Result<MachineProgress, FlashFault>
        requires going { self.old.stage ≡ FlashStage.Going }
        ensures stepped { FlashStep I.Input P.Source P.Partition.own result self.old self.new input.old input.new
            partition.old partition.new m.old m.new }
    {
        let need = self.need();
        if self.is_short(partition.length()) {
            m.close_step(0);
            let fault = FlashFault::PartitionTooSmall { need };
            self.stage = FlashStage::Failed(fault);
            return Err(fault);
        }
        let at = self.walk.place();
        let all = self.walk.words.max(1);
        let taken = self.walk.part_within(all, all, most_asked(), input, w, m);
        let done = lay_part(taken.part, at, partition, w, m);
        m.close_step(taken.received);
        match done {
            Ok(()) => {
                let answer = answer(taken.part);
                self.stage = stage_behind(answer);
                self.laid = self.laid.saturating_add(bytes_put(taken.part));
                answer
            }
            Err(fault) => {
                self.stage = FlashStage::Failed(fault);
                Err(fault)
            }
        }
    }

    /// One step: at most a window is read, and what it gives is written, a fill as a whole and of a gap nothing. The
    /// step that finds the end of the image syncs the partition. A partition that is too small is refused as soon as
    /// the header has been read. An error is one of these:
    ///
    /// - a fault of the image (1 to 10);
    /// - a fault of a device (11 reading, 12 writing, 18 syncing);
    /// - a partition that is too small (17).
    ///
    /// After an error or Done every step returns that again and calls no device.
    #[inline(always)]
    pub fn step<I: Input, P: Partition>(
        &mut self,
        input: &mut I,
        partition: &mut P,
        w: &mut Window,
        m: &mut Meter,
    ) -> Result<MachineProgress, FlashFault>
        ensures stepped { FlashStep I.Input P.Source P.Partition.own result self.old self.new input.old input.new
            partition.old partition.new m.old m.new }
        ensures again { IsOver self.old.stage →
            (self.new ≡ self.old) × (input.new ≡ input.old) × (partition.new ≡ partition.old) }
    {
        match self.stage {
            FlashStage::Done => {
                m.close_step(0);
                Ok(MachineProgress::Done)
            }
            FlashStage::Failed(fault) => {
                m.close_step(0);
                Err(fault)
            }
            FlashStage::Going => self.go_on(input, partition, w, m),
        }
    }
}
