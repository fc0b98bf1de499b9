//! A source that changes.

ghost use Rattle.std.specs.Prelude.{◌≡◌, ◌<◌, ◌≤◌, ◌+◌, ◌-◌, [], false, length, take, drop};
ghost use Rattle.std.proofs.lemmas.Bool.{false≢true};
ghost use Rattle.mem_devices.specs.Crash.{switched};

use abt_io::{DeviceFault, Source, Tally, read_part};

/// Reads `first` in its first `n` calls, and `second` from then on. Its length is that of the list which the next call
/// reads. It models nothing.
#[derive(Drop)]
pub struct SwitchSource<'a> {
    pub first: &'a [u8],
    pub second: &'a [u8],
    pub n: u64,
    pub left: u64,
    pub reads: Tally,
    pub given: Tally,
    pub ghost at_its_call: { left ≡ n - reads.number },
}

impl<'a> SwitchSource<'a> {
    /// `first` for `n` calls of `read_at`, then `second`.
    pub fn new(first: &'a [u8], second: &'a [u8], n: u64) -> SwitchSource<'a>
        ensures first { result.first.now ≡ first.now }
        ensures second { result.second.now ≡ second.now }
        ensures n { result.n ≡ n }
        ensures reads { result.reads.number ≡ 0 }
    {
        SwitchSource {
            first,
            second,
            n,
            left: n,
            reads: Tally::new(),
            given: Tally::new(),
        }
    }

    // Reads the present list. One call less of `first` is left after it.
    fn read_next(&mut self, at: u64, out: &mut [u8]) -> usize
        ensures within { result ≤ length out.new }
        ensures present { result ≤ length (switched self.old.left self.old.first.now self.old.second.now) - at }
        ensures bytes { take result out.new
            ≡ take result (drop at (switched self.old.left self.old.first.now self.old.second.now)) }
        ensures ended { result ≡ 0 → 0 < length out.new →
            length (switched self.old.left self.old.first.now self.old.second.now) ≤ at }
        ensures calls { self.new.reads.number ≡ self.old.reads.number + 1 }
        ensures counted { self.new.given.number ≡ self.old.given.number + result }
        ensures left { self.new.left ≡ self.old.left - 1 }
        ensures same { (self.new.first.now ≡ self.old.first.now) × (self.new.second.now ≡ self.old.second.now) }
    {
        self.reads.add(1);
        let n = if self.left > 0 {
            read_part(self.first, at, out)
        } else {
            read_part(self.second, at, out)
        };
        self.left = self.left.saturating_sub(1);
        self.given.add(n as u64);
        n
    }
}

impl<'a> Source for SwitchSource<'a> {
    ghost models = { false };

    ghost content = { λ _. [] };

    ghost size = { λ s. length (switched s.left s.first.now s.second.now) };

    ghost reads = { λ s. s.reads.number };

    ghost given = { λ s. s.given.number };

    ghost read_faults = { λ _. 0 };

    ghost sized = { λ _ t. absurd (false≢true t) };

    ghost are_bytes = { λ _ t. absurd (false≢true t) };

    fn length(&self) -> u64 {
        if self.left > 0 {
            self.first.len() as u64
        } else {
            self.second.len() as u64
        }
    }

    fn read_at(&mut self, at: u64, out: &mut [u8]) -> Result<usize, DeviceFault> {
        Ok(self.read_next(at, out))
    }
}
