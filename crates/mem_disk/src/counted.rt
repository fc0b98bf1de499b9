//! What a run counts, as a ghost value. Only contracts see it; it takes no bytes at run time.

ghost use Rattle.std.specs.Prelude.{◌≡◌};
ghost use Rattle.std.specs.Borrow.{ftrue};
ghost use Rattle.mem_disk.specs.Stored.{counts_code};
ghost use Rattle.sys_disk.specs.Counts.{Counts, no_counts, added, call_of, reads, writes};

use abt_io::Tally;
use std::marker::Model;
use sys_refusals::HostFault;

/// How often each call and each device has failed, and how many bytes the inputs gave that were given back.
#[derive(Drop)]
pub struct Counted {
    pub ghost counts: { Counts } by { counts_code },
}

impl Model for Counted {
    ghost also_owns = { λ _. ftrue };
}

impl Counted {
    /// Nothing.
    pub fn new() -> Counted
        ensures { result.counts ≡ no_counts }
    {
        Counted {}
    }

    /// A call failed with this fault.
    pub fn call(&mut self, _fault: &HostFault)
        ensures { self.new.counts ≡ added self.old.counts (call_of _fault.now) }
    {}

    /// A device that was read is given back.
    pub fn read(&mut self, _given: &Tally, _failed: &Tally)
        ensures { self.new.counts ≡ added self.old.counts (reads _given.now.number _failed.now.number) }
    {}

    /// One that was written is given back.
    pub fn written(&mut self, _failed: &Tally)
        ensures { self.new.counts ≡ added self.old.counts (writes _failed.now.number) }
    {}
}
