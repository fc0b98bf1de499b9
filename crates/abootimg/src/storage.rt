//! Where the files of a run are, whose disks are opened once the words are read.

ghost use Rattle.std.specs.Prelude.{◌≡◌, [], IsTrue, None, false, is_ok};
ghost use Rattle.sys_disk.specs.Counts.{memory_of, no_counts};
ghost use Rattle.abootimg.specs.OrderDone.{IsReadyForOrder};
ghost use Rattle.abootimg.specs.Stored.{Stored, counting_more, making, stored};

use crate::beginning::Beginning;
use std::alloc::AllocError;
use std::io;
use sys_file::System;
use sys_host::Reading;
use sys_host_disk::Host;
use sys_std::OsSystem;

/// Where the files of a run are. A disk is opened once the words are read, or for one step of a tool, and is given back at
/// the end.
///
/// The files that a model of a disk has are named by paths that are given. Folders and links are none of them: the calls
/// that make these change no file of it. So no contract says that a folder or a link is there, where a link leads, or
/// what it has replaced.
pub trait Storage {
    /// The disk.
    type Disk: Beginning + Drop;

    /// Its files, and what the run counts.
    ghost its: { Self → Stored };

    /// The disk, on which nothing is open, and which may write no device in use. It counts on.
    fn disk(&self) -> Self::Disk
        ensures world { IsTrue Self.Disk.models → Self.Disk.world result ≡ (its self.now).world }
        ensures counts { IsTrue Self.Disk.models → (Self.Disk.held result).counts ≡ (its self.now).counts }
        ensures ready { IsTrue Self.Disk.models → IsReadyForOrder (Self.Disk.held result) }
        ensures in_use { IsTrue Self.Disk.models → (Self.Disk.held result).in_use ≡ (its self.now).in_use }
        ensures unallowed { IsTrue Self.Disk.models → (Self.Disk.held result).allows_mounted ≡ false };

    /// Takes the disk back, with what its files hold.
    fn give_back(&mut self, disk: Self::Disk)
        ensures { IsTrue Self.Disk.models → its self.new ≡ stored (Self.Disk.world disk) (Self.Disk.held disk) };

    /// The path of a file in a folder. A refusal of memory is counted.
    fn path_in(&mut self, folder: &str, name: &str) -> Result<String, AllocError>
        ensures { IsTrue Self.Disk.models → its self.new ≡ counting_more (memory_of result) (its self.old) };

    /// Creates a folder and the folders above it, where they do not exist.
    fn make_folder(&mut self, path: &str) -> io::Result<()>
        ensures { IsTrue Self.Disk.models → its self.new ≡ counting_more (making (is_ok result)) (its self.old) };

    /// Creates a symbolic link to a path. A file or a link of its name is removed before.
    fn replace_link(&mut self, to: &str, path: &str) -> io::Result<()>
        ensures { IsTrue Self.Disk.models → its self.new ≡ counting_more (making (is_ok result)) (its self.old) };
}

/// The files of the system.
#[derive(Clone, Copy, Drop)]
pub(crate) struct SystemStorage {
    pub rt: HostRuntime,
}

impl Storage for SystemStorage {
    type Disk = Host<OsSystem>;

    ghost its = { λ _. record {
      world = record { at = λ _. None; holds = λ _. [] };
      in_use = λ _. false;
      counts = no_counts;
    } };

    fn disk(&self) -> Host<OsSystem> {
        Host::new(Reading::new(OsSystem { rt: self.rt }))
    }

    fn give_back(&mut self, _disk: Host<OsSystem>) {}

    fn path_in(&mut self, folder: &str, name: &str) -> Result<String, AllocError> {
        format!(in self.rt.alloc(); "{folder}/{name}")
    }

    fn make_folder(&mut self, path: &str) -> io::Result<()> {
        (OsSystem { rt: self.rt }).make_folders(path)
    }

    fn replace_link(&mut self, to: &str, path: &str) -> io::Result<()> {
        let mut system = OsSystem { rt: self.rt };
        match system.remove(path) {
            Ok(()) => {}
            Err(error) if error.kind() == io::ErrorKind::NotFound => {}
            Err(error) => return Err(error),
        }
        system.make_link(to, path)
    }
}
