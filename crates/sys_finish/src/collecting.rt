//! A sink whose small writes are collected, and sent together.
//!
//! It does what std's `BufWriter` does. That says nothing of its writer but what was given to it, nor how much it has
//! buffered. Here both are known: which file it is, and that at most a page was not sent yet.

ghost use Rattle.std.specs.Prelude.{◌≡◌, ◌≤◌, [], IfOk, length};

use crate::sink::Sink;
use std::alloc::{AllocError, Global};
use sys_file::SystemFile;

// The most bytes that are collected: a page, since no hole is smaller.
pub(crate) const PAGE: usize = 4096;

/// A sink, and what was not sent to it yet.
#[derive(Drop)]
pub struct Collecting<F: SystemFile + Drop> {
    pub sink: Sink<F>,
    pub held: Vec<u8>,
    ghost few: { length held.items ≤ 4096 },
}

impl<F: SystemFile + Drop> Collecting<F> {
    pub(crate) fn new(alloc: Global, sink: Sink<F>) -> Result<Collecting<F>, AllocError>
        ensures sink { IfOk result (λ writer. writer.sink ≡ sink) }
        ensures empty { IfOk result (λ writer. writer.held.items ≡ []) }
    {
        match Vec::with_capacity(alloc, PAGE) {
            Ok(held) => Ok(Collecting { sink, held }),
            Err(error) => Err(error),
        }
    }
}
