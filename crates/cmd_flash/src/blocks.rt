//! Writes each block of a raw image to a partition.

ghost use Rattle.std.specs.Prelude.{◌≡◌, ◌≤◌, ◌-◌, ◌*◌, IsTrue, OnOk, IfOk};
ghost use Rattle.abt_flash.specs.Raw.{IsFilled};
ghost use Rattle.cmd_flash.specs.Files.{DeviceFailed, NeitherFailed};
ghost use Rattle.cmd_flash.specs.Flashing.{SyncsOnce};
ghost use Rattle.cmd_flash.specs.FlashingRaw.{LaysRaw};
ghost use Rattle.cmd_flash.specs.Laying.{MovesOnce, unlaid};

use crate::flash_source::lay_filled;
use abt_flash_faults::FlashFault;
use abt_io::{CopyFault, Meter, Partition, Source, Window};
use abt_runs::{BlockRuns, RawRuns, RunFault};
use cmd_common_sparse::SparseCommandFault;

/// Flashes each block of a raw image once, from the first to the last, and then syncs. Returns the number of blocks.
/// Nothing is written for an image that has no such blocks, or for which the partition has no room.
pub(crate) fn flash_blocks<S: Source, P: Partition>(
    source: &mut S,
    size: u32,
    onto: &mut P,
    w: &mut Window,
    m: &mut Meter,
) -> Result<u32, SparseCommandFault>
    // how many blocks they are, and that the partition has room for them
    ensures filled { IfOk result (λ blocks. IsFilled blocks size (S.size source.old)) }
    ensures room { IfOk result (λ blocks. blocks * size ≤ P.size onto.old) }
    // each byte of the image was read once, and each byte of the blocks written once
    ensures moves { IfOk result (λ blocks. MovesOnce S.Source P.Partition.own (S.size source.old) (blocks * size)
        source.old source.new onto.old onto.new) }
    // what the partition holds, or why not
    ensures lays { IsTrue S.models → IsTrue P.models → LaysRaw
        (DeviceFailed (S.read_faults source.old) (S.read_faults source.new) (P.put_faults onto.old)
        (P.put_faults onto.new))
        (S.given source.new - S.given source.old) result size (S.content source.old) (P.content onto.old)
        (P.content onto.new) }
    ensures clean { OnOk result (NeitherFailed (S.read_faults source.old) (S.read_faults source.new)
        (P.put_faults onto.old) (P.put_faults onto.new)) }
    ensures syncs { SyncsOnce result P.Source P.Partition.own onto.old onto.new }
    ensures same { IsTrue P.models → (P.past onto.new).file ≡ (P.past onto.old).file }
{
    let runs = match RawRuns::open(source, size) {
        Ok(runs) => runs,
        Err(fault) => return Err(SparseCommandFault::Run(fault)),
    };
    let blocks = runs.blocks();
    let need = blocks as u64 * size as u64;
    if onto.length() < need {
        return Err(SparseCommandFault::Flash(FlashFault::PartitionTooSmall { need }));
    }
    if let Err(fault) = lay_filled(source, need, onto, w, m) {
        return Err(not_laid(fault));
    }
    match onto.sync() {
        Ok(()) => Ok(blocks),
        Err(fault) => Err(SparseCommandFault::Flash(FlashFault::Sync(fault))),
    }
}

fn not_laid(fault: CopyFault) -> SparseCommandFault
    ensures { result ≡ unlaid fault }
{
    match fault {
        CopyFault::Read(fault) => SparseCommandFault::Run(RunFault::Read(fault)),
        CopyFault::Write(fault) => SparseCommandFault::Flash(FlashFault::Write(fault)),
        CopyFault::Changed => SparseCommandFault::Run(RunFault::SourceChanged),
    }
}
