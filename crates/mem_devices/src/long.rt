//! A source that claims a length.

ghost use Rattle.std.specs.Prelude.{◌≡◌, ◌≤◌, [], false, length};
ghost use Rattle.std.proofs.lemmas.Bool.{false≢true};
ghost use Rattle.abt_io.specs.Called.{ReadsPlaceOnce};

use abt_io::{DeviceFault, Source};

/// Says that it is `length` bytes long, whatever its source says, and models nothing. A read gives what its source
/// gives from that offset.
#[derive(Drop)]
pub struct Long<S> {
    pub source: S,
    pub length: u64,
}

impl<S> Long<S> {
    /// A source that claims this length.
    pub fn new(source: S, length: u64) -> Long<S>
        ensures source { result.source ≡ source }
        ensures length { result.length ≡ length }
    {
        Long { source, length }
    }
}

impl<S: Source> Source for Long<S> {
    ghost models = { false };

    ghost content = { λ _. [] };

    ghost size = { λ s. s.length };

    ghost reads = { λ s. S.reads s.source };

    ghost given = { λ s. S.given s.source };

    ghost read_faults = { λ s. S.read_faults s.source };

    ghost read_frame = { λ s. S.read_frame s.source };

    ghost sized = { λ _ t. absurd (false≢true t) };

    ghost are_bytes = { λ _ t. absurd (false≢true t) };

    fn length(&self) -> u64 {
        self.length
    }

    fn read_at(&mut self, at: u64, out: &mut [u8]) -> Result<usize, DeviceFault>
        requires { length out.old ≤ 65536 }
        ensures has_read { ReadsPlaceOnce S.Source result self.old.source self.new.source at out.new }
        ensures same { self.new.length ≡ self.old.length }
    {
        self.source.read_at(at, out)
    }
}
