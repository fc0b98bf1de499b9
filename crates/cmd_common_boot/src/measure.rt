//! A source that has only a size, for a call that asks whether packing would fail.

ghost use Rattle.std.specs.Prelude.{◌≡◌, [], false};
ghost use Rattle.std.proofs.lemmas.Bool.{false≢true};

use abt_io::{DeviceFault, Source, Tally};

/// The size of a part, as a source that gives none of its bytes.
#[derive(Drop)]
pub struct Measure {
    pub size: u64,
    calls: Tally,
}

impl Measure {
    /// Of a part of this many bytes.
    pub fn new(size: u64) -> Measure
        ensures { result.size ≡ size }
    {
        Measure {
            size,
            calls: Tally::new(),
        }
    }
}

impl Source for Measure {
    ghost models = { false };

    ghost content = { λ _. [] };

    ghost size = { λ s. s.size };

    ghost reads = { λ s. s.calls.number };

    ghost given = { λ _. 0 };

    ghost read_faults = { λ _. 0 };

    ghost sized = { λ _ t. absurd (false≢true t) };

    ghost are_bytes = { λ _ t. absurd (false≢true t) };

    fn length(&self) -> u64 {
        self.size
    }

    fn read_at(&mut self, _at: u64, _out: &mut [u8]) -> Result<usize, DeviceFault> {
        self.calls.add(1);
        Ok(0)
    }
}
