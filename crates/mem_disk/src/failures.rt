//! How often something has failed.

ghost use Rattle.std.specs.Prelude.{◌≡◌, ◌+◌};

use abt_io::Tally;

/// How often something has failed: as contracts count it, and as a plain number for tests.
#[derive(Drop)]
pub struct Failures {
    pub tally: Tally,
    /// The same count, as far as the number goes.
    pub seen: u64,
}

impl Failures {
    /// It never has.
    pub fn none() -> Failures
        ensures { result.tally.number ≡ 0 }
    {
        Failures {
            tally: Tally::new(),
            seen: 0,
        }
    }

    /// Once more.
    pub fn add(&mut self)
        ensures { self.new.tally.number ≡ self.old.tally.number + 1 }
    {
        self.tally.add(1);
        self.seen = self.seen.saturating_add(1);
    }
}
