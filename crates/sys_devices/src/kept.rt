//! The bytes last read of a raw image. A piece ends before the block that has no room in it, and the next piece begins
//! there.

ghost use Rattle.std.specs.Prelude.{◌<◌, ◌≤◌, ◌^◌, ℕ, List, IsTrue, length, take};
ghost use Rattle.abt_io.specs.Count.{count_of};
ghost use Rattle.sys_devices.specs.Ahead.{HoldsPart};
ghost use Rattle.sys_devices.specs.Places.{FoundAt};

use crate::held::CachedBytes;
use std::alloc::Global;
use std::io;
use sys_file::SystemFile;

/// How many bytes are read at once.
const ROOM: usize = 65_536;

/// A read of no more bytes bypasses what is kept.
const FEW: usize = 256;

/// The number of reads of a piece that are kept, because it may end soon. Of a longer piece a little of its end is read
/// again.
const TIMES: u32 = 8;

/// The bytes that are kept of a file from piece to piece, and when. Reads are kept from offset 0 on, and from each
/// offset that was just read and is read again: a piece has ended before that, and another begins.
#[derive(Drop)]
pub(crate) struct Kept {
    // Bytes of the file, with the last given bytes among them: as many as a window has, and as many after them. Where
    // there is no memory for them, each read is made as it is asked for.
    held: CachedBytes,
    // The number of further reads that are kept.
    left: u32,
    // Where the last read began, and where it ended.
    from: u64,
    past: u64,
}

impl Kept {
    /// Nothing is kept, and no memory is allocated.
    pub(crate) fn new(alloc: Global) -> Kept
        ensures { (c : List ℕ) → HoldsPart c result.held }
    {
        Kept {
            held: CachedBytes::empty(alloc),
            left: 0,
            from: 0,
            past: 0,
        }
    }

    /// Gives the first bytes at an offset, if they are kept or read to be kept, and returns how many. The bytes after
    /// them are to be read as they are asked for: only that read reports the end of the file. Returns the reason if the
    /// call failed.
    pub(crate) fn give<F: SystemFile>(
        &mut self,
        alloc: Global,
        file: &F,
        at: u64,
        out: &mut [u8],
    ) -> io::Result<usize>
        requires holds { IsTrue F.models → HoldsPart (F.stands file.now) self.old.held }
        requires told { IsTrue F.models → length (F.stands file.now) < 2 ^ 64 }
        ensures holds { IsTrue F.models → HoldsPart (F.stands file.now) self.new.held }
        ensures within { count_of result ≤ length out.new }
        ensures given { IsTrue F.models → FoundAt (F.stands file.now) at (take (count_of result) out.new) }
    {
        if out.len() <= FEW {
            return Ok(0);
        }
        self.look(alloc, at, out.len());
        let n = self.held.give_some(at, out);
        if n == out.len() || self.left == 0 || self.held.is_empty() {
            return Ok(n);
        }
        self.left -= 1;
        let next = at.saturating_add(n as u64);
        self.held.go_on(file, next, ROOM)?;
        Ok(n + self.held.give_behind(next, n, out))
    }

    // This many bytes are read at an offset. If a piece begins there, its reads are kept.
    fn look(&mut self, alloc: Global, at: u64, bytes: usize)
        ensures { (c : List ℕ) → HoldsPart c self.old.held → HoldsPart c self.new.held }
    {
        if at == 0 || (at >= self.from && at < self.past) {
            self.left = TIMES;
            if self.held.is_empty()
                && let Ok(held) = CachedBytes::new(alloc, 2 * ROOM)
            {
                self.held = held;
            }
        }
        self.from = at;
        self.past = at.saturating_add(bytes as u64);
    }
}
