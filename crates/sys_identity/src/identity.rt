//! The identity of a file, whatever path, link or descriptor led to it, and what else the system reports about it.

ghost use Rattle.std.specs.Prelude.{◌≡◌, ◌↔◌, Some, None, IsTrue, IsOk, IfOk, pos, true};
ghost use Rattle.sys_file.specs.declared.stat.Kind.{Kind};
ghost use Rattle.sys_identity.specs.Identity.{identity_of, FindsAt, IdentifiesAt, IsIdentityOf};

use crate::descriptors::stat_of_open;
use std::io;
use sys_file::{Kind, Stat, System};

/// The identity of a file, which distinguishes it from all others.
#[derive(Clone, Copy, PartialEq, Eq)]
pub struct Identity {
    // The device that it is on. A block device has none: it is its own device.
    device: Option<u64>,
    number: u64,
    /// Whether writing it would lose its content: false for a pipe, a terminal and the null device.
    pub holds_data: bool,
    /// Whether what is written there is mixed with what others write there: false for a terminal and the null device.
    pub mixes: bool,
}

impl Identity {
    // No file is this one.
    fn unknown() -> Identity {
        Identity {
            device: None,
            number: 0,
            holds_data: false,
            mixes: false,
        }
    }

    /// The identity of a file for which the system reports this.
    pub fn of(stat: &Stat) -> Identity
        ensures { result ≡ identity_of stat.now }
    {
        match stat.kind {
            Kind::Block => Identity::of_block(stat.device),
            Kind::File => Identity::on_device(stat, true, true),
            Kind::Pipe => Identity::on_device(stat, false, true),
            Kind::Socket => Identity::on_device(stat, false, true),
            Kind::Folder => Identity::on_device(stat, false, false),
            Kind::Other => Identity::on_device(stat, false, false),
        }
    }

    fn on_device(stat: &Stat, holds_data: bool, mixes: bool) -> Identity
        ensures { result ≡ record {
          device = Some stat.now.on;
          number = stat.now.number;
          holds_data = holds_data;
          mixes = mixes;
        } }
    {
        Identity {
            device: Some(stat.on),
            number: stat.number,
            holds_data,
            mixes,
        }
    }

    /// The block device of this number.
    pub fn of_block(number: u64) -> Identity
        ensures { result ≡ record { device = None; number = number; holds_data = true; mixes = true } }
    {
        Identity {
            device: None,
            number,
            holds_data: true,
            mixes: true,
        }
    }

    /// The number of the block device that it is, if it is one.
    pub fn block(&self) -> Option<u64> {
        match self.device {
            None if self.holds_data => Some(self.number),
            _ => None,
        }
    }
}

/// The time of the last write of a file, as its file system reports it.
#[derive(Clone, Copy, PartialEq, Eq)]
pub struct Modified {
    seconds: i64,
    nanoseconds: i64,
}

/// What the system reports about a file.
#[derive(Clone, Copy, Drop)]
pub struct Found {
    pub identity: Identity,
    pub kind: Kind,
    /// The length of a regular file.
    pub length: u64,
    pub modified: Modified,
}

impl Found {
    pub fn new(stat: &Stat) -> Found
        ensures identity { result.identity ≡ identity_of stat.now }
        ensures kind { result.kind ≡ stat.now.kind }
        ensures length { result.length ≡ stat.now.length }
    {
        Found {
            identity: Identity::of(stat),
            kind: stat.kind,
            length: stat.length,
            modified: Modified {
                seconds: stat.second,
                nanoseconds: stat.nanosecond,
            },
        }
    }

    pub fn is_file(&self) -> bool
        ensures { IsTrue result ↔ (self.now.kind ≡ Kind.File) }
    {
        self.kind == Kind::File
    }

    pub fn is_block(&self) -> bool {
        self.kind == Kind::Block
    }
}

/// What is open under this descriptor.
pub fn found_of<S: System>(system: &S, descriptor: i32) -> io::Result<Found>
    ensures input { IsTrue S.File.models → descriptor ≡ pos 0 → IsOk result × IfOk result (λ found.
        IsIdentityOf S.number S.known S.stdin found.identity) }
    ensures output { IsTrue S.File.models → descriptor ≡ pos 1 → IsOk result × IfOk result (λ found.
        IsIdentityOf S.number S.known S.stdout found.identity) }
{
    match stat_of_open(system, descriptor) {
        Ok(stat) => Ok(Found::new(&stat)),
        Err(error) => Err(error),
    }
}

/// What is at this path, after following links.
#[inline(never)]
pub fn found_at<S: System>(system: &S, path: &str) -> io::Result<Found>
    ensures { IsTrue S.File.models → FindsAt S.number S.known (S.at system.now path.now) result }
{
    match system.look(path) {
        Ok(stat) => Ok(Found::new(&stat)),
        Err(error) => Err(error),
    }
}

/// The identity of standard input, standard output or standard error. If that is closed, or the system does not show
/// it, it is like no file.
pub fn identity_of_stream<S: System>(system: &S, descriptor: i32) -> Identity
    ensures input { IsTrue S.File.models → descriptor ≡ pos 0 → IsIdentityOf S.number S.known S.stdin result }
    ensures output { IsTrue S.File.models → descriptor ≡ pos 1 → IsIdentityOf S.number S.known S.stdout result }
{
    match found_of(system, descriptor) {
        Ok(found) => found.identity,
        Err(_) => Identity::unknown(),
    }
}

/// The identity of the file at this path, if there is one.
pub fn identity_at<S: System>(system: &S, path: &str) -> Option<Identity>
    ensures { IsTrue S.File.models → IdentifiesAt S.number S.known (S.at system.now path.now) result }
{
    match found_at(system, path) {
        Ok(found) => Some(found.identity),
        Err(_) => None,
    }
}

/// The number of a device, from its two numbers, as Linux makes it.
pub fn device_number(major: u32, minor: u32) -> u64 {
    let high = ((major & 0xffff_f000) as u64) << 32;
    let middle = ((minor & 0xffff_ff00) as u64) << 12;
    let low = ((major & 0xfff) << 8) | (minor & 0xff);
    high | middle | (low as u64)
}

/// The two numbers of a device.
pub fn device_parts(number: u64) -> (u64, u64) {
    let major = ((number >> 32) & 0xffff_f000) | ((number >> 8) & 0xfff);
    let minor = ((number >> 12) & 0xffff_ff00) | (number & 0xff);
    (major, minor)
}
