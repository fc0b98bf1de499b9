//! The settings that an order has for all outputs, before its command begins.

ghost use Rattle.std.specs.Prelude.{◌≡◌, ℕ, List, Bool, IsTrue, false, true};
ghost use Rattle.abootimg.specs.OrderDone.{mounted_if, synced_if};
ghost use Rattle.abootimg.specs.EmptyFiles.{IsEmptyAt};
ghost use Rattle.abootimg.specs.InTurn.{next_held};

use crate::tool::{is_empty_file, is_regular_file};
use sys_disk::Disk;
use sys_host_disk::Host;
use sys_std::OsSystem;

/// A disk with two settings: whether outputs are synced at their end, and which devices may be written.
pub trait Beginning: Disk {
    /// Which paths lead to regular files.
    ghost is_file: { List ℕ → Bool };

    /// Whether a path leads to a regular file.
    fn leads_to_file(&self, rt: HostRuntime, path: &str) -> bool
        ensures { IsTrue Self.models → result ≡ is_file path.now };

    /// Whether a path leads to a regular file that is empty.
    fn leads_to_empty_file(&self, rt: HostRuntime, path: &str) -> bool
        ensures { IsTrue Self.models → IsTrue result → IsEmptyAt (Self.world self.now) path.now };

    /// Each output that is a file or a block device is going to be synced at its end.
    fn sync_outputs(&mut self)
        ensures held { IsTrue Self.models → Self.held self.new ≡ synced_if true (Self.held self.old) }
        ensures world { IsTrue Self.models → Self.world self.new ≡ Self.world self.old };

    /// Block devices that are in use may be written, mounted or as swap, or may not.
    fn allow_mounted(&mut self, is_allowed: bool)
        ensures held { IsTrue Self.models → Self.held self.new ≡ mounted_if is_allowed (Self.held self.old) }
        ensures world { IsTrue Self.models → Self.world self.new ≡ Self.world self.old };

    /// The next order of the same words begins: it writes no file that was read or written, its outputs are not synced,
    /// and it writes no device that is in use.
    fn begin_next(&mut self)
        ensures held { IsTrue Self.models → Self.held self.new ≡ next_held (Self.held self.old) }
        ensures world { IsTrue Self.models → Self.world self.new ≡ Self.world self.old };
}

impl Beginning for Host<OsSystem> {
    ghost is_file = { λ _. false };

    fn leads_to_file(&self, rt: HostRuntime, path: &str) -> bool {
        is_regular_file(rt, path)
    }

    fn leads_to_empty_file(&self, rt: HostRuntime, path: &str) -> bool {
        is_empty_file(rt, path)
    }

    fn sync_outputs(&mut self) {
        self.sync_all();
    }

    // None may be written before.
    fn allow_mounted(&mut self, is_allowed: bool) {
        if is_allowed {
            self.allow_all();
        }
    }

    // All files of the run stay taken. Only the words of tools give several orders, and these sync nothing.
    fn begin_next(&mut self) {}
}

/// Sets them.
#[tactic(auto, using(crate::proofs::Orders::settings_then))]
pub(crate) fn begin<D: Beginning>(disk: &mut D, is_synced: bool, is_mounted_allowed: bool)
    ensures held { IsTrue D.models → D.held disk.new ≡ mounted_if is_mounted_allowed (synced_if is_synced
        (D.held disk.old)) }
    ensures world { IsTrue D.models → D.world disk.new ≡ D.world disk.old }
    ensures mounted { IsTrue D.models → (D.held disk.new).allows_mounted ≡ is_mounted_allowed }
{
    sync_if(disk, is_synced);
    disk.allow_mounted(is_mounted_allowed);
}

// Outputs are synced at their end, if that is asked for.
fn sync_if<D: Beginning>(disk: &mut D, is_synced: bool)
    ensures held { IsTrue D.models → D.held disk.new ≡ synced_if is_synced (D.held disk.old) }
    ensures world { IsTrue D.models → D.world disk.new ≡ D.world disk.old }
{
    if is_synced {
        disk.sync_outputs();
    }
}
