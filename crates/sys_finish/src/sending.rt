//! What is collected, and how it is sent.

ghost use Rattle.std.specs.Prelude.{◌≡◌, ◌≤◌, length, drop};
ghost use Rattle.sys_finish.specs.Given.{SendsAll, TakesFront};

use crate::collecting::{Collecting, PAGE};
use std::io;
use std::io::ErrorKind;
use sys_file::SystemFile;

impl<F: SystemFile + Drop> Collecting<F> {
    /// Takes some of these bytes: few are collected, and many are given to the sink by one write.
    #[inline(always)]
    pub(crate) fn write(&mut self, bytes: &[u8]) -> io::Result<usize>
        ensures { TakesFront result bytes.now self.old self.new }
    {
        if bytes.len() < PAGE - self.held.len() && self.held.extend_from_slice(bytes).is_ok() {
            return Ok(bytes.len());
        }
        self.write_many(bytes)
    }

    // The same where they fill the page.
    #[cold]
    #[inline(never)]
    fn write_many(&mut self, bytes: &[u8]) -> io::Result<usize>
        ensures { TakesFront result bytes.now self.old self.new }
    {
        if bytes.len() >= PAGE {
            self.send()?;
            return self.sink.put(bytes);
        }
        if bytes.len() > PAGE - self.held.len() {
            self.send()?;
        }
        match self.held.extend_from_slice(bytes) {
            Ok(()) => Ok(bytes.len()),
            Err(_) => Err(io::Error::from(ErrorKind::OutOfMemory)),
        }
    }

    /// Sends all that is collected. What could not be sent stays collected.
    pub(crate) fn send(&mut self) -> io::Result<()>
        ensures { SendsAll result self.old self.new }
    {
        let (done, result) = self.sink.put_all(self.held.as_slice());
        remove_front(&mut self.held, done);
        result
    }
}

fn remove_front(bytes: &mut Vec<u8>, n: usize)
    requires { n ≤ length bytes.old.items }
    ensures { bytes.new.items ≡ drop n bytes.old.items }
{
    let len = bytes.len();
    bytes.as_mut_slice().copy_within(n..len, 0);
    bytes.truncate(len - n);
}
