//! The history of a partition, as a ghost value. Only contracts see it; it takes no bytes at run time.

ghost use Rattle.std.specs.Prelude.{◌≡◌};
ghost use Rattle.std.specs.Borrow.{ftrue};
ghost use Rattle.abt_io.specs.Moment.{Past, no_past, past_of_file, wrote, settled};

use std::marker::Model;

/// The ranges that are pending, the syncs that succeeded, and every intermediate state of a partition.
#[derive(Drop)]
pub struct History {
    pub ghost past: { Past },
}

impl Model for History {
    ghost also_owns = { λ _. ftrue };
}

impl History {
    /// Nothing has happened yet.
    pub fn new() -> History
        ensures { result.past ≡ no_past }
    {
        History {}
    }

    /// Nothing has happened yet to the file of this number.
    pub fn begins(&mut self, _file: u64)
        ensures { self.new.past ≡ past_of_file _file }
    {}

    /// `_len` bytes from `_at` on were written, or may have been; `_now` is what a read gives now.
    pub fn wrote(&mut self, _now: &[u8], _at: u64, _len: u64)
        ensures { self.new.past ≡ wrote self.old.past _now.now _at _len }
    {}

    /// A sync succeeded; `_now` is what a read gives now.
    pub fn settled(&mut self, _now: &[u8])
        ensures { self.new.past ≡ settled self.old.past _now.now }
    {}
}
