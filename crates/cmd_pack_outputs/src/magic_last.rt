//! An output whose first bytes are written last: a partial image has no magic.

ghost use Rattle.std.specs.Prelude.{◌≡◌, ◌<◌, ◌≤◌, [], OnOk, OnErr, length, take, replicate};
ghost use Rattle.abt_io.specs.Called.{WritesOnce};
ghost use Rattle.abt_io.specs.Over.{with_front};
ghost use Rattle.cmd_pack_outputs.specs.Magic.{HoldsNone};

use abt_io::{DeviceFault, FRONT, Meter, Output, Overwrite, write_over_all};

/// Keeps back the first `FRONT` bytes that are written to it, and writes zeros in their place. All later bytes go
/// straight to the output. It ends with `finish`, which writes the kept bytes, or with `give_up`, which does not.
#[derive(Drop)]
pub(crate) struct MagicLast<O: Overwrite> {
    output: O,
    front: [u8; FRONT],
    kept: usize,
    pub ghost room: { kept ≤ 8 },
    pub ghost stand: { kept ≤ length (O.written output) },
    pub ghost zeros: { take kept (O.written output) ≡ replicate kept 0 },
    pub ghost next: { kept < 8 → length (O.written output) ≡ kept },
}

impl<O: Overwrite> MagicLast<O> {
    /// Begins with an output to which nothing was written.
    pub(crate) fn new(output: O) -> MagicLast<O>
        requires { O.written output ≡ [] }
        ensures output { result.output ≡ output }
        ensures kept { result.kept ≡ 0 }
    {
        MagicLast {
            output,
            front: [0; FRONT],
            kept: 0,
        }
    }

    /// Writes the kept bytes, and returns the output.
    pub(crate) fn finish(self, m: &mut Meter) -> (O, Result<(), DeviceFault>)
        ensures laid { OnOk result.1 (O.written result.0 ≡ with_front self.front self.kept (O.written self.output)) }
        ensures broken { OnErr result.1 (HoldsNone (O.written result.0)) }
        ensures cause { OnErr result.1 (O.write_faults self.output < O.write_faults result.0) }
        ensures clean { OnOk result.1 (O.write_faults result.0 ≡ O.write_faults self.output) }
        ensures frame { O.write_frame result.0 ≡ O.write_frame self.output }
    {
        let MagicLast {
            mut output,
            front,
            kept,
        } = self;
        let answer = write_over_all(&mut output, 0, &front[..kept], m);
        (output, answer)
    }

    /// The output, with zeros in place of the kept bytes.
    pub(crate) fn give_up(self) -> O
        ensures output { result ≡ self.output }
        ensures broken { HoldsNone (O.written result) }
    {
        self.output
    }

    // Keeps back some of these bytes, and writes as many zeros.
    fn keep_back(&mut self, bytes: &[u8]) -> Result<usize, DeviceFault>
        requires room { self.old.kept < 8 }
        ensures wrote { WritesOnce ⟦<MagicLast<O> as Output>⟧ result self.old self.new bytes.now }
    {
        let kept = self.kept;
        let zeros = [0u8; FRONT];
        let n = bytes.len().min(FRONT - kept);
        match self.output.write(&zeros[..n]) {
            Ok(taken) => {
                self.front[kept..kept + taken].copy_from_slice(&bytes[..taken]);
                self.kept = kept + taken;
                Ok(taken)
            }
            Err(fault) => Err(fault),
        }
    }
}

impl<O: Overwrite> Output for MagicLast<O> {
    ghost written = { λ o. with_front o.front o.kept (O.written o.output) };

    ghost is_full = { λ o. O.is_full o.output };

    ghost writes = { λ o. O.writes o.output };

    ghost write_faults = { λ o. O.write_faults o.output };

    ghost full_faults = { λ o. O.full_faults o.output };

    ghost write_frame = { λ o. O.write_frame o.output };

    fn write(&mut self, bytes: &[u8]) -> Result<usize, DeviceFault> {
        if self.kept < FRONT {
            self.keep_back(bytes)
        } else {
            self.output.write(bytes)
        }
    }
}
