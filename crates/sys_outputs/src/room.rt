//! The memory in which a file buffers bytes.

ghost use Rattle.std.specs.Prelude.{◌≡◌, []};

use crate::held_file::{Laid, MOST, ROOM};
use std::alloc::Global;

/// Nothing is buffered there yet. Where there was no memory, nothing ever is: then each write goes to the file at once.
#[derive(Drop)]
pub struct Room {
    pub(crate) held: Vec<u8>,
    pub(crate) laid: Vec<Laid>,
    ghost empty: { held.items ≡ [] },
}

impl Room {
    pub fn new(alloc: Global) -> Room {
        let held = match Vec::with_capacity(alloc, ROOM) {
            Ok(held) => held,
            Err(_) => Vec::new(alloc),
        };
        let laid = match Vec::with_capacity(alloc, MOST) {
            Ok(laid) => laid,
            Err(_) => Vec::new(alloc),
        };
        Room { held, laid }
    }
}
