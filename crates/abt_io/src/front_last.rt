//! An output that writes its first bytes last. An image without its magic is no image, so no reader takes an image
//! that was broken off for a whole one.

ghost use Rattle.std.specs.Prelude.{◌≡◌, ◌<◌, ◌≤◌, ◌+◌, [], IsTrue, IfErr, OnOk, OnErr};
ghost use Rattle.std.specs.Prelude.{length, take, replicate};
ghost use Rattle.abt_io.specs.Called.{WritesOnce};
ghost use Rattle.abt_io.specs.Lent.{OnlyWrites, NoStep};
ghost use Rattle.abt_io.specs.Over.{WritesFront, with_front};

use crate::{DeviceFault, Meter, Output, Overwrite, write_over_all};

/// How many bytes are kept back: those of the longest magic.
pub const FRONT: usize = 8;

/// Keeps back the first `FRONT` bytes that it is given, and writes zeros in their place, until `finish` writes them.
/// All later bytes go straight to the output.
///
/// Until `finish`, the place of all bytes that are kept back holds zeros: that is a fact of the type.
#[derive(Drop)]
pub struct FrontLast<O: Overwrite> {
    pub output: O,
    /// The bytes that are kept back, from the beginning of this array on.
    pub front: [u8; FRONT],
    /// How many bytes are kept back.
    pub kept: usize,
    /// Nothing was written yet.
    pub is_open: bool,
    pub ghost room: { kept ≤ 8 },
    pub ghost stand: { kept ≤ length (O.written output) },
    pub ghost zeros: { take kept (O.written output) ≡ replicate kept 0 },
    pub ghost next: { IsTrue is_open → kept < 8 → length (O.written output) ≡ kept },
}

impl<O: Overwrite> FrontLast<O> {
    /// Begins with an output that nothing was written to.
    pub fn new(output: O) -> FrontLast<O>
        requires { O.written output ≡ [] }
        ensures output { result.output ≡ output }
        ensures kept { result.kept ≡ 0 }
        ensures open { IsTrue result.is_open }
    {
        FrontLast {
            output,
            front: [0; FRONT],
            kept: 0,
            is_open: true,
        }
    }

    /// Overwrites the zeros with the bytes that were kept back, after which none is kept back. Where it fails, a
    /// prefix of these bytes is written, and not all of them.
    pub fn finish(&mut self, m: &mut Meter) -> Result<(), DeviceFault>
        ensures laid { OnOk result (O.written self.new.output ≡ with_front self.old.front self.old.kept
            (O.written self.old.output)) }
        ensures front { OnErr result (WritesFront (O.written self.old.output) (O.written self.new.output) 0
            (take self.old.kept self.old.front)) }
        ensures kept { self.new.kept ≡ 0 }
        ensures calls { O.writes self.new.output ≤ O.writes self.old.output + 8 }
        ensures cause { OnErr result (O.write_faults self.old.output < O.write_faults self.new.output) }
        ensures failed { IfErr result (λ e. e ≡ DeviceFault.Failed) }
        ensures turns { m.new.turns.number ≤ m.old.turns.number + 8 }
        ensures writes { OnlyWrites result 0 O.Output self.old.output self.new.output }
        ensures no_step { NoStep m.old m.new }
    {
        let kept = self.kept;
        self.kept = 0;
        self.is_open = false;
        write_over_all(&mut self.output, 0, &self.front[..kept], m)
    }

    // Keeps back some of these bytes, and writes as many zeros.
    fn keep_back(&mut self, bytes: &[u8]) -> Result<usize, DeviceFault>
        requires open { IsTrue self.old.is_open }
        requires room { self.old.kept < 8 }
        ensures wrote { WritesOnce ⟦<FrontLast<O> as Output>⟧ result self.old self.new bytes.now }
    {
        let kept = self.kept;
        let zeros = [0u8; FRONT];
        let n = bytes.len().min(FRONT - kept);
        match self.output.write(&zeros[..n]) {
            Ok(taken) => {
                self.front[kept..kept + taken].copy_from_slice(&bytes[..taken]);
                self.kept = kept + taken;
                Ok(taken)
            }
            Err(fault) => Err(fault),
        }
    }
}

impl<O: Overwrite> Output for FrontLast<O> {
    ghost written = { λ o. with_front o.front o.kept (O.written o.output) };

    ghost is_full = { λ o. O.is_full o.output };

    ghost writes = { λ o. O.writes o.output };

    ghost write_faults = { λ o. O.write_faults o.output };

    ghost full_faults = { λ o. O.full_faults o.output };

    ghost write_frame = { λ o. O.write_frame o.output };

    fn write(&mut self, bytes: &[u8]) -> Result<usize, DeviceFault> {
        if self.is_open && self.kept < FRONT {
            self.keep_back(bytes)
        } else {
            self.output.write(bytes)
        }
    }
}
