//! Bytes of a file that were read ahead.

ghost use Rattle.std.specs.Prelude.{◌≡◌, ◌<◌, ◌≤◌, ◌+◌, ◌-◌, ℕ, List, IsTrue, IfOk, length, take, drop};
ghost use Rattle.abt_io.specs.Count.{count_of};
ghost use Rattle.sys_devices.specs.Ahead.{HoldsPart};
ghost use Rattle.sys_devices.specs.Places.{FoundAt};

use std::alloc::{AllocError, Global};
use std::io;
use sys_file::{SystemFile, read_at};

/// Bytes of a file, and their offset there. The bytes after the first `count` have no meaning.
#[derive(Drop)]
pub(crate) struct CachedBytes {
    bytes: Vec<u8>,
    at: u64,
    count: usize,
}

impl CachedBytes {
    /// Nothing is buffered, and no memory is allocated.
    pub(crate) fn empty(alloc: Global) -> CachedBytes
        ensures { (c : List ℕ) → HoldsPart c result }
    {
        CachedBytes {
            bytes: Vec::new(alloc),
            at: 0,
            count: 0,
        }
    }

    /// Nothing is buffered, and there is memory for this many bytes.
    pub(crate) fn new(alloc: Global, room: usize) -> Result<CachedBytes, AllocError>
        ensures { IfOk result (λ h. (c : List ℕ) → HoldsPart c h) }
    {
        let mut bytes = Vec::with_capacity(alloc, room)?;
        bytes.resize(room, 0)?;
        Ok(CachedBytes {
            bytes,
            at: 0,
            count: 0,
        })
    }

    /// Whether it has no memory.
    pub(crate) fn is_empty(&self) -> bool {
        self.bytes.is_empty()
    }

    /// Empties the buffer.
    pub(crate) fn forget(&mut self)
        ensures { (c : List ℕ) → HoldsPart c self.new }
    {
        self.count = 0;
    }

    // The buffered bytes from an offset on.
    fn found(&self, at: u64) -> &[u8]
        ensures { (c : List ℕ) → HoldsPart c self.now → FoundAt c at result.now }
    {
        let held = self.count.min(self.bytes.len());
        if at < self.at || at - self.at >= held as u64 {
            return &[];
        }
        let from = (at - self.at) as usize;
        &self.bytes[from..held]
    }

    /// Gives the bytes at an offset, if all that are asked for are buffered.
    pub(crate) fn give(&self, at: u64, out: &mut [u8]) -> bool
        ensures { IsTrue result → (c : List ℕ) → HoldsPart c self.now → FoundAt c at out.new }
    {
        let found = self.found(at);
        let ask = out.len();
        if found.len() < ask {
            return false;
        }
        out.copy_from_slice(&found[..ask]);
        true
    }

    /// Gives the first buffered bytes at an offset, and returns how many.
    pub(crate) fn give_some(&self, at: u64, out: &mut [u8]) -> usize
        ensures within { result ≤ length out.new }
        ensures given { (c : List ℕ) → HoldsPart c self.now → FoundAt c at (take result out.new) }
    {
        let found = self.found(at);
        let n = found.len().min(out.len());
        out[..n].copy_from_slice(&found[..n]);
        n
    }

    /// Gives the first buffered bytes at an offset after the first ones of `out`, and returns how many.
    pub(crate) fn give_behind(&self, at: u64, first: usize, out: &mut [u8]) -> usize
        requires { first ≤ length out.old }
        ensures first { take first out.new ≡ take first out.old }
        ensures within { first + result ≤ length out.new }
        ensures given { (c : List ℕ) → HoldsPart c self.now → FoundAt c at (take result (drop first out.new)) }
    {
        self.give_some(at, &mut out[first..])
    }

    /// Whether an offset is within the buffered bytes, or just after them.
    pub(crate) fn leads_to(&self, at: u64) -> bool {
        self.count > 0 && at >= self.at && at - self.at <= self.count as u64
    }

    /// Reads at most this many bytes at an offset. Nothing is buffered if that fails.
    pub(crate) fn fill<F: SystemFile>(&mut self, file: &F, at: u64, most: usize)
        ensures { IsTrue F.models → HoldsPart (F.stands file.now) self.new }
    {
        let n = read_past(file, at, 0, most, self.bytes.as_mut_slice()).unwrap_or(0);
        self.at = at;
        self.count = n;
    }

    /// Reads at most this many bytes at an offset. They are appended to the buffered bytes if these lead to the offset,
    /// and else replace them. At most this many buffered bytes stay, the last ones.
    pub(crate) fn go_on<F: SystemFile>(&mut self, file: &F, at: u64, most: usize) -> io::Result<()>
        ensures { IsTrue F.models → HoldsPart (F.stands file.now) self.old → HoldsPart (F.stands file.now) self.new }
    {
        self.stay(at, most);
        let last = self.count;
        match read_past(file, at, last, most, self.bytes.as_mut_slice()) {
            Ok(n) => {
                self.count = last + n;
                Ok(())
            }
            Err(error) => Err(error),
        }
    }

    // All buffered bytes, if they lead to an offset, or none.
    fn last(&self, at: u64, held: usize) -> usize
        ensures within { result ≤ held }
        ensures fits { result ≤ at }
        ensures leads { 0 < result → at ≡ self.now.at + held }
    {
        if at >= self.at && at - self.at == held as u64 {
            held
        } else {
            0
        }
    }

    // Moves the last buffered bytes to the beginning, at most this many, if they lead to an offset. No others are
    // buffered any more.
    fn stay(&mut self, at: u64, most: usize)
        ensures holds { (c : List ℕ) → HoldsPart c self.old → HoldsPart c self.new }
        ensures place { self.new.at + self.new.count ≡ at }
        ensures within { self.new.count ≤ length self.new.bytes.items }
    {
        let held = self.count.min(self.bytes.len());
        let last = self.last(at, held).min(most);
        move_front(self.bytes.as_mut_slice(), held - last, last);
        self.at = at - last as u64;
        self.count = last;
    }
}

// Moves this many bytes from an offset to the beginning.
fn move_front(bytes: &mut [u8], from: usize, n: usize)
    requires { from + n ≤ length bytes.old }
    ensures long { length bytes.new ≡ length bytes.old }
    ensures moved { take n bytes.new ≡ take n (drop from bytes.old) }
{
    bytes.copy_within(from..from + n, 0);
}

// Reads at most this many bytes at an offset into `out`, after its first ones. Returns how many.
fn read_past<F: SystemFile>(
    file: &F,
    at: u64,
    first: usize,
    most: usize,
    into: &mut [u8],
) -> io::Result<usize>
    requires { first ≤ length into.old }
    ensures first { take first into.new ≡ take first into.old }
    ensures long { length into.new ≡ length into.old }
    ensures within { first + count_of result ≤ length into.new }
    ensures read { IsTrue F.models → FoundAt (F.stands file.now) at (take (count_of result) (drop first into.new)) }
{
    let end = into.len().min(first.saturating_add(most));
    read_at(file, at, &mut into[first..end])
}
