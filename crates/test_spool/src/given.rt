//! What was written to an output, and its calls.

use crate::taken::{front, lay};
use std::alloc::Global;
use std::io;
use sys_file::SystemFile;
use sys_outputs::{HeldFile, HoleFile};

/// One call of an output, of this many bytes.
#[derive(Clone, Copy, Drop)]
pub(crate) enum Call {
    /// Bytes of which none is zero.
    Put(usize),
    Zeros(usize),
    /// Zeros that are written at once, where that is possible.
    Hole(u64),
    /// From this many bytes before the end on.
    Over(usize, usize),
    Settle,
}

/// What was written to an output, and what is to be written. A call need not return Ok.
#[derive(Drop)]
pub(crate) struct Given {
    pub bytes: Vec<u8>,
    text: Vec<u8>,
    zeros: Vec<u8>,
}

impl Given {
    /// Nothing was written yet.
    pub(crate) fn new(alloc: Global, text: Vec<u8>) -> Given {
        let mut zeros = Vec::new(alloc);
        let _ = zeros.resize(text.len(), 0);
        Given {
            bytes: Vec::new(alloc),
            text,
            zeros,
        }
    }

    /// Makes one call of a file whose headers are written late, and returns whether its result is right.
    pub(crate) fn held<F: SystemFile + Drop>(
        &mut self,
        held: &mut HeldFile<F>,
        call: &Call,
    ) -> bool {
        match call {
            Call::Put(count) => {
                let answer = held.put(front(self.text.as_slice(), *count));
                self.took(answer, *count, false)
            }
            Call::Zeros(count) => {
                let answer = held.put(front(self.zeros.as_slice(), *count));
                self.took(answer, *count, true)
            }
            Call::Hole(_) => true,
            Call::Over(back, count) => {
                let at = self.bytes.len().saturating_sub(*back);
                let answer = held.put_over(at as u64, front(self.text.as_slice(), *count));
                self.laid(answer, at)
            }
            Call::Settle => {
                let _ = held.settle();
                true
            }
        }
    }

    /// The same of a file that may have holes.
    pub(crate) fn holes<F: SystemFile + Drop>(
        &mut self,
        holes: &mut HoleFile<F>,
        call: &Call,
    ) -> bool {
        match call {
            Call::Put(count) => {
                let answer = holes.put(front(self.text.as_slice(), *count));
                self.took(answer, *count, false)
            }
            Call::Zeros(count) => {
                let answer = holes.put(front(self.zeros.as_slice(), *count));
                self.took(answer, *count, true)
            }
            Call::Hole(count) => {
                let laid = holes.lay_hole(*count);
                let end = (self.bytes.len() as u64).saturating_add(laid);
                laid <= *count && self.bytes.resize(end as usize, 0).is_ok()
            }
            Call::Over(back, count) => {
                let at = self.bytes.len().saturating_sub(*back);
                let answer = holes.put_over(at as u64, front(self.text.as_slice(), *count));
                self.laid(answer, at)
            }
            Call::Settle => true,
        }
    }

    // It took a prefix of this many bytes, and not an empty one of some bytes.
    fn took(&mut self, answer: io::Result<usize>, count: usize, is_zero: bool) -> bool {
        let Ok(n) = answer else {
            return true;
        };
        let is_kept = if is_zero {
            self.bytes
                .extend_from_slice(front(self.zeros.as_slice(), n))
                .is_ok()
        } else {
            self.bytes
                .extend_from_slice(front(self.text.as_slice(), n))
                .is_ok()
        };
        is_kept && n <= count && (n > 0 || count == 0)
    }

    // It wrote a prefix of these bytes at a position.
    fn laid(&mut self, answer: Result<usize, Option<i32>>, at: usize) -> bool {
        match answer {
            Ok(n) => lay(
                self.bytes.as_mut_slice(),
                at,
                front(self.text.as_slice(), n),
            ),
            Err(_) => true,
        }
    }
}
