//! An output that writes its first byte last. An image without its magic is no image, so no reader takes a piece that
//! was broken off for a whole one.

ghost use Rattle.std.specs.Prelude.{◌≡◌, ◌<◌, ◌≤◌, [], OnOk, OnErr, length, take, replicate};
ghost use Rattle.abt_io.specs.Called.{WritesOnce};
ghost use Rattle.abt_io.specs.Lent.{OnlyWrites};
ghost use Rattle.abt_io.specs.Over.{with_front};
ghost use Rattle.sys_disk.specs.Images.{HasNoFront};

use abt_io::{DeviceFault, Meter, Output, Overwrite, write_over_all};

// How many bytes are held back. One is enough: what begins with a zero is no image.
const FRONT: usize = 1;

/// Holds back the first byte that it is given, and writes a zero in its place, until `finish`. All later bytes go
/// straight to the output. So what the output holds has no magic: that is a fact of the type.
#[derive(Drop)]
pub(crate) struct ZeroFirst<O: Overwrite> {
    pub output: O,
    /// The byte that is held back.
    pub front: [u8; FRONT],
    /// How many bytes are held back.
    pub held: usize,
    pub ghost room: { held ≤ 1 },
    pub ghost stand: { held ≤ length (O.written output) },
    pub ghost zeros: { take held (O.written output) ≡ replicate held 0 },
    pub ghost next: { held < 1 → length (O.written output) ≡ held },
}

impl<O: Overwrite> ZeroFirst<O> {
    /// Begins with an output that nothing was written to.
    pub(crate) fn new(output: O) -> ZeroFirst<O>
        requires unwritten { O.written output ≡ [] }
        ensures begins { (result.output ≡ output) × (result.held ≡ 0) }
    {
        ZeroFirst {
            output,
            front: [0; FRONT],
            held: 0,
        }
    }

    /// Overwrites the zero with the byte that was held back. Where it fails, there is still no magic.
    pub(crate) fn finish(self, m: &mut Meter) -> (O, Result<(), DeviceFault>)
        ensures laid { OnOk result.1 (O.written result.0 ≡ with_front self.front self.held (O.written self.output)) }
        ensures broken { OnErr result.1 (HasNoFront (O.written result.0)) }
        ensures writes { OnlyWrites result.1 0 O.Output self.output result.0 }
        ensures fails { OnErr result.1 (O.write_faults self.output < O.write_faults result.0) }
    {
        let ZeroFirst {
            output,
            front,
            held,
        } = self;
        let mut output = output;
        let answer = write_over_all(&mut output, 0, &front[..held], m);
        (output, answer)
    }

    // Holds back the first of these bytes, and writes a zero.
    fn hold_back(&mut self, bytes: &[u8]) -> Result<usize, DeviceFault>
        requires room { self.old.held < 1 }
        ensures wrote { WritesOnce ⟦<ZeroFirst<O> as Output>⟧ result self.old self.new bytes.now }
    {
        let held = self.held;
        let zeros = [0u8; FRONT];
        let n = bytes.len().min(FRONT - held);
        match self.output.write(&zeros[..n]) {
            Ok(taken) => {
                self.front[held..held + taken].copy_from_slice(&bytes[..taken]);
                self.held = held + taken;
                Ok(taken)
            }
            Err(fault) => Err(fault),
        }
    }
}

impl<O: Overwrite> Output for ZeroFirst<O> {
    ghost written = { λ o. with_front o.front o.held (O.written o.output) };

    ghost is_full = { λ o. O.is_full o.output };

    ghost writes = { λ o. O.writes o.output };

    ghost write_faults = { λ o. O.write_faults o.output };

    ghost full_faults = { λ o. O.full_faults o.output };

    ghost write_frame = { λ o. O.write_frame o.output };

    fn write(&mut self, bytes: &[u8]) -> Result<usize, DeviceFault> {
        if self.held < FRONT {
            self.hold_back(bytes)
        } else {
            self.output.write(bytes)
        }
    }
}
