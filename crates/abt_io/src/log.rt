//! All bytes that a device was given, as a ghost value. Only contracts see it; it takes no bytes at run time.

ghost use Rattle.std.specs.Prelude.{◌≡◌, replicate};
ghost use Rattle.std.specs.Borrow.{ftrue};
ghost use Rattle.abt_io.specs.Frame.{Logged, nothing_logged, and_bytes, and_cut};
ghost use Rattle.abt_io.specs.Over.{and_put};

use std::marker::Model;

/// The bytes that a device was given, and how many they were at each clear.
#[derive(Drop)]
pub struct Log {
    pub ghost state: { Logged },
}

impl Model for Log {
    ghost also_owns = { λ _. ftrue };
}

impl Log {
    /// Nothing was given yet.
    pub fn new() -> Log
        ensures { result.state ≡ nothing_logged }
    {
        Log {}
    }

    /// The device took these bytes.
    #[inline(always)]
    pub fn append(&mut self, _bytes: &[u8])
        ensures { self.new.state ≡ and_bytes self.old.state _bytes.now }
    {}

    /// The device took so many zeros.
    #[inline(always)]
    pub fn append_zeros(&mut self, _n: u64)
        ensures { self.new.state ≡ and_bytes self.old.state (replicate _n 0) }
    {}

    /// The device took these bytes, which overwrite what was stored at a place.
    #[inline(always)]
    pub fn put(&mut self, _bytes: &[u8], _at: u64)
        ensures { self.new.state ≡ and_put self.old.state _at _bytes.now }
    {}

    /// The device was cleared.
    #[inline(always)]
    pub fn cut(&mut self)
        ensures { self.new.state ≡ and_cut self.old.state }
    {}
}
