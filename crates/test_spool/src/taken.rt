//! What a spool should hold, and whether it does.

use abt_io::{Input, Output, Overwrite, Spool, WINDOW};
use std::alloc::Global;
use sys_devices::GatheringSpool;
use sys_file::SystemFile;

/// One call of a spool, of this many bytes.
#[derive(Clone, Copy, Drop)]
pub(crate) enum Call {
    Write(usize),
    /// From this many bytes before the end on.
    Over(usize, usize),
    Read(usize),
    Settle,
    Clear,
}

/// What a spool took since it was last cleared, and how much of it was read. A call need not return Ok, but an Ok
/// must be right.
#[derive(Drop)]
pub(crate) struct Taken {
    pub bytes: Vec<u8>,
    pub seen: usize,
    /// Its last call settled it.
    pub is_settled: bool,
    /// Its last call cleared it.
    pub is_cleared: bool,
}

impl Taken {
    /// Nothing was taken yet.
    pub(crate) fn new(alloc: Global) -> Taken {
        Taken {
            bytes: Vec::new(alloc),
            seen: 0,
            is_settled: false,
            is_cleared: false,
        }
    }

    /// Makes one call, and returns whether its result is right. The bytes that it writes are a prefix of these.
    pub(crate) fn does<F: SystemFile + Drop>(
        &mut self,
        spool: &mut GatheringSpool<F>,
        call: &Call,
        text: &[u8],
    ) -> bool {
        self.is_settled = false;
        self.is_cleared = false;
        match call {
            Call::Write(count) => self.writes(spool, front(text, *count)),
            Call::Over(back, count) => self.writes_over(spool, *back, front(text, *count)),
            Call::Read(count) => self.reads(spool, *count),
            Call::Settle => {
                self.is_settled = spool.settle().is_ok();
                true
            }
            Call::Clear => {
                self.clears(spool);
                true
            }
        }
    }

    // It takes a prefix of these bytes, and not an empty one of some bytes.
    fn writes<F: SystemFile + Drop>(&mut self, spool: &mut GatheringSpool<F>, text: &[u8]) -> bool {
        if text.len() > WINDOW {
            return false;
        }
        match spool.write(text) {
            Ok(n) => {
                let is_some = n > 0 || text.is_empty();
                is_some && self.bytes.extend_from_slice(front(text, n)).is_ok()
            }
            Err(_) => true,
        }
    }

    // It overwrites bytes that it took with a prefix of these.
    fn writes_over<F: SystemFile + Drop>(
        &mut self,
        spool: &mut GatheringSpool<F>,
        back: usize,
        text: &[u8],
    ) -> bool {
        let end = spool.position();
        let len = self.bytes.len();
        if back > len || back as u64 > end || text.len() > back || text.len() > WINDOW {
            return true;
        }
        match spool.write_over(end - back as u64, text) {
            Ok(n) => lay(self.bytes.as_mut_slice(), len - back, front(text, n)),
            Err(_) => true,
        }
    }

    // It returns what comes next of what it took, and nothing only where all was returned.
    fn reads<F: SystemFile + Drop>(&mut self, spool: &mut GatheringSpool<F>, count: usize) -> bool {
        let mut out = [0; 300];
        let count = count.min(300);
        match spool.read(&mut out[..count]) {
            Ok(n) => {
                let rest = behind(self.bytes.as_slice(), self.seen);
                self.seen = self.seen.saturating_add(n);
                n <= rest.len()
                    && (n > 0 || count == 0 || rest.is_empty())
                    && front(&out, n) == front(rest, n)
            }
            Err(_) => true,
        }
    }

    // What it takes now begins a piece.
    fn clears<F: SystemFile + Drop>(&mut self, spool: &mut GatheringSpool<F>) {
        if spool.clear().is_ok() {
            self.bytes.clear();
            self.seen = 0;
            self.is_cleared = true;
        }
    }
}

/// The first bytes, this many or as many as there are.
pub(crate) fn front(bytes: &[u8], count: usize) -> &[u8] {
    &bytes[..count.min(bytes.len())]
}

/// The bytes from a place on.
fn behind(bytes: &[u8], from: usize) -> &[u8] {
    &bytes[from.min(bytes.len())..]
}

/// Overwrites bytes at a position of others, if they have room there.
pub(crate) fn lay(bytes: &mut [u8], at: usize, part: &[u8]) -> bool {
    if at > bytes.len() || part.len() > bytes.len() - at {
        return false;
    }
    bytes[at..at + part.len()].copy_from_slice(part);
    true
}
