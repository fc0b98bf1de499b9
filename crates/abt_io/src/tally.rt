//! A number that only contracts see. It takes no bytes at run time.

ghost use Rattle.std.specs.Prelude.{◌≡◌, ℕ, ◌+◌, max};
ghost use Rattle.std.specs.Borrow.{ftrue};

use std::marker::Model;

/// A number that counts for contracts alone.
#[derive(Drop)]
pub struct Tally {
    pub ghost number: { ℕ },
}

impl Model for Tally {
    ghost also_owns = { λ _. ftrue };
}

impl Tally {
    /// Zero.
    pub fn new() -> Tally
        ensures { result.number ≡ 0 }
    {
        Tally {}
    }

    /// Adds a number.
    #[inline(always)]
    pub fn add(&mut self, _n: u64)
        ensures { self.new.number ≡ self.old.number + _n }
    {}

    /// Raises it to at least a number.
    #[inline(always)]
    pub fn raise(&mut self, _n: u64)
        ensures { self.new.number ≡ max self.old.number _n }
    {}
}
