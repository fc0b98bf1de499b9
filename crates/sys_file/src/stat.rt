//! What the system returns for a file: its kind, its identity, its length and its time of modification.

ghost use Rattle.std.specs.Prelude.{◌≡◌};
ghost use Rattle.sys_file.specs.Stats.{kind_of_mode, stamp_of};

use crate::system_file::Stamp;

/// The kind of a file.
#[derive(Clone, Copy, PartialEq, Eq)]
pub enum Kind {
    File,
    Block,
    Folder,
    Pipe,
    Socket,
    Other,
}

impl Kind {
    /// The kind of a file of this mode.
    pub fn of_mode(mode: u32) -> Kind
        ensures { result ≡ kind_of_mode mode }
    {
        match mode / 0o10_000 % 16 {
            0o10 => Kind::File,
            0o6 => Kind::Block,
            0o4 => Kind::Folder,
            0o1 => Kind::Pipe,
            0o14 => Kind::Socket,
            _ => Kind::Other,
        }
    }
}

/// What the system returns for a file, as `stat` does.
#[derive(Clone, Copy, Drop)]
pub struct Stat {
    pub kind: Kind,
    /// The number of the device that the file is on.
    pub on: u64,
    /// The file's number on that device.
    pub number: u64,
    /// The number of the device that the file itself is, if it is a device.
    pub device: u64,
    /// The length of a regular file.
    pub length: u64,
    /// The time of the last write, as the file system reports it.
    pub second: i64,
    pub nanosecond: i64,
}

impl Stat {
    /// The stamp, if this is a regular file.
    pub fn stamp(&self) -> Option<Stamp>
        ensures { result ≡ stamp_of self.now }
    {
        match self.kind {
            Kind::File => Some(Stamp {
                length: self.length,
                second: self.second,
                nanosecond: self.nanosecond,
            }),
            Kind::Block => None,
            Kind::Folder => None,
            Kind::Pipe => None,
            Kind::Socket => None,
            Kind::Other => None,
        }
    }
}
