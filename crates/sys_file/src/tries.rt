//! One call of the system, which is repeated when a signal interrupts it. No other code repeats a call.

ghost use Rattle.std.specs.Prelude.{◌≡◌, ◌<◌, ◌≤◌, ◌+◌, ◌^◌, IsTrue, IfOk, length};
ghost use Rattle.abt_io.specs.Count.{count_of};
ghost use Rattle.sys_file.specs.File.{ReadsAt, ReadsAtPlace, WritesAt, WritesAll, WritesFrom};
ghost use Rattle.sys_file.specs.Past.{LaysWithin};

use crate::SystemFile;
use std::io;
use std::io::ErrorKind;

/// One read.
pub fn read_at<F: SystemFile>(file: &F, at: u64, out: &mut [u8]) -> io::Result<usize>
    ensures { ReadsAt F.models (F.stands file.now) result at out.new }
{
    for _ in 0..u64::MAX {
        match file.read_at(at, out) {
            Ok(n) => return Ok(n),
            Err(error) => {
                if error.kind() != ErrorKind::Interrupted {
                    return Err(error);
                }
            }
        }
    }
    Err(io::Error::from(ErrorKind::Interrupted))
}

/// One write. It writes some of the given bytes.
pub fn write_at<F: SystemFile>(file: &mut F, at: u64, bytes: &[u8]) -> io::Result<usize>
    requires { IsTrue F.models → at ≤ length (F.stands file.old) }
    ensures writes { WritesAt F.models (F.stands file.old) (F.stands file.new) result at bytes.now }
    ensures progress { IfOk result (λ n. 0 < length bytes.now → 0 < n) }
    ensures lays { IsTrue F.models → at + length bytes.now ≤ length (F.stands file.old) → LaysWithin (F.stands file.old)
        (F.stands file.new) (F.past file.old) (F.past file.new) result at (length bytes.now) }
    ensures stays { IsTrue F.models → F.place file.new ≡ F.place file.old }
{
    for _ in 0..u64::MAX {
        match file.write_at(at, bytes) {
            Ok(n) if n > 0 || bytes.is_empty() => return Ok(n),
            Ok(_) => return Err(io::Error::from(ErrorKind::WriteZero)),
            Err(error) => {
                if error.kind() != ErrorKind::Interrupted {
                    return Err(error);
                }
            }
        }
    }
    Err(io::Error::from(ErrorKind::Interrupted))
}

/// One read at the file's position.
pub fn read<F: SystemFile>(file: &mut F, out: &mut [u8]) -> io::Result<usize>
    ensures { ReadsAtPlace F.models (F.stands file.old) (F.stands file.new) (F.place file.old) (F.place file.new) result
        out.new }
{
    for _ in 0..u64::MAX {
        match file.read(out) {
            Ok(n) => return Ok(n),
            Err(error) => {
                if error.kind() != ErrorKind::Interrupted {
                    return Err(error);
                }
            }
        }
    }
    Err(io::Error::from(ErrorKind::Interrupted))
}

/// One write at the file's position. It writes some of the given bytes.
pub fn write<F: SystemFile>(file: &mut F, bytes: &[u8]) -> io::Result<usize>
    requires { IsTrue F.models → F.place file.old ≤ length (F.stands file.old) }
    ensures writes { WritesAt F.models (F.stands file.old) (F.stands file.new) result (F.place file.old) bytes.now }
    ensures progress { IfOk result (λ n. 0 < length bytes.now → 0 < n) }
    ensures moves { IsTrue F.models → F.place file.new ≡ F.place file.old + count_of result }
{
    for _ in 0..u64::MAX {
        match file.write(bytes) {
            Ok(n) if n > 0 || bytes.is_empty() => return Ok(n),
            Ok(_) => return Err(io::Error::from(ErrorKind::WriteZero)),
            Err(error) => {
                if error.kind() != ErrorKind::Interrupted {
                    return Err(error);
                }
            }
        }
    }
    Err(io::Error::from(ErrorKind::Interrupted))
}

/// Writes these bytes at an offset. Returns how many were written, and whether all were.
pub fn write_front<F: SystemFile>(file: &mut F, at: u64, bytes: &[u8]) -> (usize, io::Result<()>)
    requires stands { IsTrue F.models → at ≤ length (F.stands file.old) }
    requires fits { at + length bytes.now < 2 ^ 64 }
    ensures { WritesFrom F.models (F.stands file.old) (F.stands file.new) result.0 result.1 at bytes.now }
{
    let mut done = 0;
    while done < bytes.len() {
        match write_at(file, at + done as u64, &bytes[done..]) {
            Ok(n) => done += n,
            Err(error) => return (done, Err(error)),
        }
    }
    (done, Ok(()))
}

/// Writes all of these bytes at an offset.
pub fn write_all<F: SystemFile>(file: &mut F, at: u64, bytes: &[u8]) -> io::Result<()>
    requires stands { IsTrue F.models → at ≤ length (F.stands file.old) }
    requires fits { at + length bytes.now < 2 ^ 64 }
    ensures { WritesAll F.models (F.stands file.old) (F.stands file.new) result at bytes.now }
{
    let (_, result) = write_front(file, at, bytes);
    result
}
