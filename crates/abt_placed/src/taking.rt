//! Takes blocks, class by class, as they are in the window.
ghost use Rattle.std.specs.Prelude.{◌≡◌, ℕ, ◌≤◌, ◌+◌, ◌*◌, ◌++◌, OnOk, List, length};
ghost use Rattle.abt_io.specs.Count.{full_of};
ghost use Rattle.abt_sparse.specs.Block.{Block};
ghost use Rattle.abt_runs.specs.Part.{AllOf};
ghost use Rattle.abt_placed.specs.Placer.{CanClose, CanTake, open_len, beginning, kept_for};
ghost use Rattle.abt_placed.specs.Placer.{data_for, with_part, room_of, closing_len, beginning_len, taking_len};
ghost use Rattle.abt_placed.specs.Placed.{Placed, classes, skips};
ghost use Rattle.abt_placed.specs.Calls.{PlacerGoes, Writes, stand};
ghost use Rattle.abt_placed.specs.Unfinished.{KeepsFront};
ghost use Rattle.abt_placed.specs.Segment.{PartBlocks};

use crate::placer::Placer;
use abt_io::{DeviceFault, Meter, Overwrite, write_out};
use abt_runs::RunKind;

impl Placer {
    /// Makes the open chunk whole where blocks of this class don't go on with it, and keeps the place
    /// of a raw chunk's header.
    fn begin_chunk<O: Overwrite>(
        &self,
        kind: RunKind,
        size: u32,
        output: &mut O,
        m: &mut Meter,
    ) -> Result<(), DeviceFault>
        requires can { CanClose size (length (O.written output.old)) self.now }
        ensures kept { KeepsFront (self.now.front + 28) (O.written output.old) (O.written output.new) }
        ensures written { OnOk result (O.written output.new ≡ beginning self.now kind size (O.written output.old)) }
        ensures writes { Writes result 13 13 (stand O.Output output.old m.old) (stand O.Output output.new m.new) }
        ensures within { length (O.written output.new) + open_len self.now.kind self.now.count size
            ≤ length (O.written output.old) + self.now.count * (size + 16) + length (kept_for kind) }
        ensures adds { length (O.written output.new) + full_of result
            ≤ length (O.written output.old) + beginning_len self.now kind }
    {
        if self.goes_on(kind) {
            return Ok(());
        }
        match self.close(size, output, m) {
            Ok(()) => {}
            Err(fault) => return Err(fault),
        }
        match kind {
            RunKind::Raw => write_out(output, &[0; 12], m),
            RunKind::Fill(_) | RunKind::Skip | RunKind::End => Ok(()),
        }
    }

    /// Takes blocks of one class that follow all that were taken: these are their bytes.
    pub(crate) fn take<O: Overwrite>(
        &mut self,
        kind: RunKind,
        blocks: u32,
        bytes: &[u8],
        size: u32,
        output: &mut O,
        m: &mut Meter,
    ) -> Result<(), DeviceFault>
        requires part { PartBlocks kind blocks size bytes.now }
        requires can { CanTake size blocks (length (O.written output.old)) self.old }
        requires cap { blocks ≤ room_of self.old }
        ensures ok { OnOk result (self.new ≡ with_part self.old kind blocks) }
        ensures goes { PlacerGoes size blocks 14 result self.old self.new O.Output output.old output.new m.old m.new }
        ensures laid { (g : List Block) (p : ℕ) → AllOf kind (classes size p blocks bytes.now) →
            Placed size g (O.written output.old) self.old →
            OnOk result (Placed size (g ++ classes size p blocks bytes.now) (O.written output.new) self.new) }
        ensures adds { length (O.written output.new) + full_of result
            ≤ length (O.written output.old) + taking_len self.old kind blocks size }
    {
        match self.begin_chunk(kind, size, output, m) {
            Ok(()) => {}
            Err(fault) => return Err(fault),
        }
        match put_data(kind, bytes, output, m) {
            Ok(()) => {}
            Err(fault) => return Err(fault),
        }
        *self = self.and_blocks(kind, blocks);
        Ok(())
    }

    /// Takes blocks that are skipped, if there are any.
    pub(crate) fn skip<O: Overwrite>(
        &mut self,
        blocks: u32,
        size: u32,
        output: &mut O,
        m: &mut Meter,
    ) -> Result<(), DeviceFault>
        requires can { CanTake size blocks (length (O.written output.old)) self.old }
        ensures goes { PlacerGoes size blocks 13 result self.old self.new O.Output output.old output.new m.old m.new }
        ensures laid { (g : List Block) → Placed size g (O.written output.old) self.old →
            OnOk result (Placed size (g ++ skips blocks) (O.written output.new) self.new) }
        ensures adds { length (O.written output.new) + full_of result
            ≤ length (O.written output.old) + beginning_len self.old RunKind.Skip }
        ensures closes { OnOk result (length (O.written output.new) + closing_len self.new.kind
            ≤ length (O.written output.old) + beginning_len self.old RunKind.Skip + 12) }
    {
        if blocks == 0 {
            return Ok(());
        }
        match self.begin_chunk(RunKind::Skip, size, output, m) {
            Ok(()) => {}
            Err(fault) => return Err(fault),
        }
        *self = self.and_blocks(RunKind::Skip, blocks);
        Ok(())
    }
}

/// Writes the bytes of raw blocks, and nothing of others.
fn put_data<O: Overwrite>(
    kind: RunKind,
    bytes: &[u8],
    output: &mut O,
    m: &mut Meter,
) -> Result<(), DeviceFault>
    requires { length bytes.now ≤ 65536 }
    ensures kept { KeepsFront (length (O.written output.old)) (O.written output.old) (O.written output.new) }
    ensures written { OnOk result (O.written output.new ≡ O.written output.old ++ data_for kind bytes.now) }
    ensures writes { Writes result 1 1 (stand O.Output output.old m.old) (stand O.Output output.new m.new) }
    ensures within { length (O.written output.new) ≤ length (O.written output.old) + length (data_for kind bytes.now) }
    ensures adds { length (O.written output.new) + full_of result
        ≤ length (O.written output.old) + length (data_for kind bytes.now) }
{
    match kind {
        RunKind::Raw => write_out(output, bytes, m),
        RunKind::Fill(_) | RunKind::Skip | RunKind::End => Ok(()),
    }
}
