//! Counts of the work done, as contracts know it.

ghost use Rattle.std.specs.Prelude.{◌≡◌, ◌+◌, max};

use crate::Tally;

/// Counts turns of loops, steps, and the greatest number of bytes that devices handed over within one
/// step. It takes no bytes at run time, and only contracts see its numbers.
///
/// Only the calls below change a count, and none of them lowers it.
#[derive(Drop)]
pub struct Meter {
    turns: Tally,
    steps: Tally,
    greatest: Tally,
}

impl Meter {
    /// Its counts begin anywhere: contracts state by how much they rise. So a call that replaced the borrowed meter
    /// by a new one could promise nothing about its work.
    pub fn new() -> Meter {
        Meter {
            turns: Tally::new(),
            steps: Tally::new(),
            greatest: Tally::new(),
        }
    }

    /// One turn of a loop, or one word compared.
    #[inline(always)]
    pub fn tick(&mut self)
        ensures turns { self.new.turns.number ≡ self.old.turns.number + 1 }
        ensures steps { self.new.steps.number ≡ self.old.steps.number }
        ensures greatest { self.new.greatest.number ≡ self.old.greatest.number }
    {
        self.turns.add(1);
    }

    /// Ends a step in which devices handed over this many bytes.
    #[inline(always)]
    pub fn close_step(&mut self, received: u32)
        ensures turns { self.new.turns.number ≡ self.old.turns.number }
        ensures steps { self.new.steps.number ≡ self.old.steps.number + 1 }
        ensures greatest { self.new.greatest.number ≡ max self.old.greatest.number received }
    {
        self.steps.add(1);
        self.greatest.raise(received as u64);
    }
}
