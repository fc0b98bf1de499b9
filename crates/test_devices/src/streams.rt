//! Readers and writers that are interrupted or fail.

use crate::calls::{filled, put};
use abt_io::*;
use std::io;
use std::io::{Read, Write};
use sys_readers::*;

/// Every second call returns an error of this kind, the first one too, and a write takes at most `most` bytes.
#[derive(Drop)]
struct Halting<T> {
    inner: T,
    kind: io::ErrorKind,
    most: usize,
    is_due: bool,
}

impl<T> Halting<T> {
    fn new(inner: T, kind: io::ErrorKind, most: usize) -> Halting<T> {
        Halting {
            inner,
            kind,
            most,
            is_due: true,
        }
    }

    fn turn(&mut self) -> io::Result<()> {
        self.is_due = !self.is_due;
        if self.is_due {
            Ok(())
        } else {
            Err(io::Error::from(self.kind))
        }
    }
}

impl<T: Read> Read for Halting<T> {
    fn read(&mut self, buf: &mut [u8]) -> io::Result<usize> {
        self.turn()?;
        self.inner.read(buf)
    }
}

impl<T: Write> Write for Halting<T> {
    fn write(&mut self, buf: &[u8]) -> io::Result<usize> {
        self.turn()?;
        let n = buf.len().min(self.most);
        self.inner.write(&buf[..n])
    }

    fn flush(&mut self) -> io::Result<()> {
        Ok(())
    }
}

#[test]
fn interrupted_calls_are_made_again(rt: HostRuntime) {
    let mut out = *b"....";
    let mut room = *b"....";
    let kind = io::ErrorKind::Interrupted;
    let mut input = FromRead::new(Halting::new(b"abcd".as_slice(), kind, 4));
    assert!(rt; filled(&mut input, &mut out).count == 4);
    let mut output = ToWrite::new(Halting::new(room.as_mut_slice(), kind, 3));
    assert!(rt; put(&mut output, &out) == Ok(()));
    assert!(rt; room == *b"abcd");
}

#[test]
fn a_failing_reader_is_answered_once(rt: HostRuntime) {
    let mut out = *b"....";
    let mut input = FromRead::new(Halting::new(b"abcd".as_slice(), io::ErrorKind::BrokenPipe, 4));
    let failed = filled(&mut input, &mut out);
    assert!(rt; failed.fault == Some(DeviceFault::Failed));
    assert!(rt; filled(&mut input, &mut out).count == 4);
}

/// One that fails, and one that takes nothing.
#[test]
fn a_failing_writer_is_answered(rt: HostRuntime) {
    for (kind, most) in [
        (io::ErrorKind::BrokenPipe, 4),
        (io::ErrorKind::Interrupted, 0),
    ] {
        let mut room = *b".";
        let mut output = ToWrite::new(Halting::new(room.as_mut_slice(), kind, most));
        assert!(rt; put(&mut output, b"a") == Err(DeviceFault::Failed));
    }
}
