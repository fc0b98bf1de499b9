//! Reads a source as an input, from byte 0 on.

ghost use Rattle.std.specs.Prelude.{◌≡◌, ◌≤◌, ◌+◌, IsTrue, min, length, take, drop};
ghost use Rattle.abt_io.specs.BytesLaws.{bytes_of_drop};
ghost use Rattle.abt_io.specs.Called.{PassesOnce};
ghost use Rattle.abt_io.specs.Count.{count_of};

use crate::{DeviceFault, Input, Source};

/// An input that gives a source's bytes from byte 0 on, to its end.
#[derive(Drop)]
pub struct Forward<S: Source> {
    pub source: S,
    pub position: u64,
}

impl<S: Source> Forward<S> {
    /// At byte 0.
    pub fn new(source: S) -> Forward<S>
        ensures source { result.source ≡ source }
        ensures position { result.position ≡ 0 }
    {
        Forward {
            source,
            position: 0,
        }
    }

    /// How many bytes were read so far.
    pub fn position(&self) -> u64
        ensures { result ≡ self.now.position }
    {
        self.position
    }
}

impl<S: Source> Input for Forward<S> {
    ghost models = { S.models };

    ghost remaining = { λ f. drop f.position (S.content f.source) };

    ghost reads = { λ f. S.reads f.source };

    ghost given = { λ f. S.given f.source };

    ghost read_faults = { λ f. S.read_faults f.source };

    ghost are_bytes = { λ f t. bytes_of_drop f.position (S.content f.source) (S.are_bytes f.source t) };

    fn read(&mut self, out: &mut [u8]) -> Result<usize, DeviceFault>
        requires { length out.old ≤ 65536 }
        ensures passed { PassesOnce ⟦<Forward<S> as Input>⟧ result self.old self.new (length out.new) }
        ensures bytes { IsTrue S.models → take (count_of result) out.new
            ≡ take (count_of result) (drop self.old.position (S.content self.old.source)) }
        ensures position { self.new.position ≡ min (self.old.position + count_of result) u64.MAX }
    {
        let n = self.source.read_at(self.position, out)?;
        self.position = self.position.saturating_add(n as u64);
        Ok(n)
    }
}
