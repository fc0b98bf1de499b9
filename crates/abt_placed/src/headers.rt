//! Headers that are written when their fields are known.
ghost use Rattle.std.specs.Prelude.{◌≡◌, ◌<◌, ◌≤◌, ◌+◌, ◌*◌, ◌%◌, ◌^◌, OnOk, OnErr, length, drop, take, replicate};
ghost use Rattle.abt_io.specs.Count.{full_of};
ghost use Rattle.abt_io.specs.Moment.{put_at};
ghost use Rattle.abt_sparse.specs.Chunk.{header_record, plain_header};
ghost use Rattle.abt_pieces.specs.Write.{front_bytes};
ghost use Rattle.abt_placed.specs.Placer.{CanClose, SoundPlacer, open_len, closed, closing, closing_len};
ghost use Rattle.abt_placed.specs.Calls.{LaysOver, Writes, stand};
ghost use Rattle.abt_placed.specs.Unfinished.{IsUnfinished, KeepsFront};
ghost use Rattle.abt_placed.specs.Segment.{IsWordSize};

use crate::placer::Placer;
use abt_io::{DeviceFault, Meter, Overwrite, write_over_all};
use abt_pieces::{chunk_front, image_header, write_front};
use abt_runs::RunKind;

/// Writes the header of a raw chunk over the place that was kept for it.
pub fn lay_front<O: Overwrite>(
    output: &mut O,
    at: u64,
    blocks: u32,
    total: u32,
    m: &mut Meter,
) -> Result<(), DeviceFault>
    requires stands { at + 12 ≤ length (O.written output.old) }
    requires below { at + 12 < 2 ^ 64 }
    ensures ok { OnOk result (O.written output.new ≡ put_at (O.written output.old) at
        (front_bytes RunKind.Raw blocks total)) }
    ensures over { LaysOver result at 12 O.Output output.old output.new m.old m.new }
{
    let bytes = chunk_front(RunKind::Raw, blocks, total);
    write_over_all(output, at, &bytes[..12], m)
}

/// Writes the header of an image to the place that was kept for it, its magic number last. Before that the bytes are
/// no image.
pub fn lay_header<O: Overwrite>(
    output: &mut O,
    at: u64,
    size: u32,
    count: u32,
    chunks: u32,
    m: &mut Meter,
) -> Result<(), DeviceFault>
    requires some { 0 < size }
    requires words { size % 4 ≡ 0 }
    requires stands { at + 28 ≤ length (O.written output.old) }
    requires below { at + 28 < 2 ^ 64 }
    requires zeros { take 28 (drop at (O.written output.old)) ≡ replicate 28 0 }
    ensures ok { OnOk result (O.written output.new ≡ put_at (O.written output.old) at
        (header_record (plain_header size count chunks))) }
    ensures unfinished { OnErr result (IsUnfinished (drop at (O.written output.new))) }
    ensures over { LaysOver result at 28 O.Output output.old output.new m.old m.new }
{
    let bytes = image_header(size, count, chunks);
    match write_over_all(output, at + 4, &bytes[4..], m) {
        Ok(()) => {}
        Err(fault) => return Err(fault),
    }
    match write_over_all(output, at, &bytes[..4], m) {
        Ok(()) => Ok(()),
        Err(fault) => Err(fault),
    }
}

impl Placer {
    /// Writes what the open chunk still wants to be whole: a raw chunk's header where its place was
    /// kept, any other chunk after what is written.
    pub(crate) fn close<O: Overwrite>(
        &self,
        size: u32,
        output: &mut O,
        m: &mut Meter,
    ) -> Result<(), DeviceFault>
        requires can { CanClose size (length (O.written output.old)) self.now }
        ensures kept { KeepsFront (self.now.front + 28) (O.written output.old) (O.written output.new) }
        ensures written { OnOk result (O.written output.new ≡ closing self.now size (O.written output.old)) }
        ensures writes { Writes result 12 12 (stand O.Output output.old m.old) (stand O.Output output.new m.new) }
        ensures within { length (O.written output.new) + open_len self.now.kind self.now.count size
            ≤ length (O.written output.old) + self.now.count * (size + 16) }
        ensures adds { length (O.written output.new) + full_of result
            ≤ length (O.written output.old) + closing_len self.now.kind }
    {
        match self.kind {
            RunKind::End => Ok(()),
            RunKind::Raw => {
                let total = 12 + self.count * size;
                let at = output.position() - total as u64;
                lay_front(output, at, self.count, total, m)
            }
            RunKind::Fill(_) => write_front(output, self.kind, self.count, 16, m),
            RunKind::Skip => write_front(output, self.kind, self.count, 12, m),
        }
    }

    /// Makes the last chunk whole, and then the image.
    pub(crate) fn finish<O: Overwrite>(
        &mut self,
        size: u32,
        output: &mut O,
        m: &mut Meter,
    ) -> Result<(), DeviceFault>
        requires size { IsWordSize size }
        requires within { self.old.blocks + self.old.count < 2 ^ 32 }
        requires sound { SoundPlacer size (length (O.written output.old)) self.old }
        requires zeros { take 28 (drop self.old.front (O.written output.old)) ≡ replicate 28 0 }
        ensures ok { OnOk result (self.new ≡ closed self.old) }
        ensures same { (self.new.most ≡ self.old.most) × (self.new.front ≡ self.old.front) }
        ensures before { take self.old.front (O.written output.new) ≡ take self.old.front (O.written output.old) }
        ensures laid { OnOk result (O.written output.new ≡ put_at (closing self.old size (O.written output.old))
            self.old.front (header_record (plain_header size (closed self.old).blocks (closed self.old).chunks))) }
        ensures unfinished { OnErr result (IsUnfinished (drop self.old.front (O.written output.new))) }
        ensures writes { Writes result 40 40 (stand O.Output output.old m.old) (stand O.Output output.new m.new) }
        ensures within { length (O.written output.new)
            ≤ self.old.front + 28 + (self.old.blocks + self.old.count) * (size + 16) }
        ensures adds { length (O.written output.new) + full_of result
            ≤ length (O.written output.old) + closing_len self.old.kind }
    {
        match self.close(size, output, m) {
            Ok(()) => {}
            Err(fault) => return Err(fault),
        }
        let front = self.front;
        *self = self.and_closed();
        let _end = output.position();
        match lay_header(output, front, size, self.blocks, self.chunks, m) {
            Ok(()) => Ok(()),
            Err(fault) => Err(fault),
        }
    }
}
