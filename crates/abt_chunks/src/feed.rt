//! The state of a walk that gets its input in pieces, and what a pull of it returns.

ghost use Rattle.std.specs.Prelude.{◌≤◌, ◌-◌};
ghost use Rattle.abt_chunks.specs.Feeding.{whole_next};

use crate::walk::{Part, Walk};

/// What a pull returns.
#[derive(Clone, Copy, Debug, PartialEq, Eq, Drop)]
pub enum Pull {
    /// More input is needed: all that there was is taken.
    Need,
    /// A part of the image.
    Gives(Part),
}

/// What a pull returns, and how many bytes of the input it took.
#[derive(Clone, Copy, Debug, PartialEq, Eq, Drop)]
pub struct Pulled {
    pub pull: Pull,
    pub used: usize,
}

/// A walk between two pulls, with the bytes that it holds: fewer than the header or the word that it takes next.
#[derive(Clone, Copy, Drop)]
pub struct Puller {
    pub walk: Walk,
    pub held: [u8; 28],
    pub count: usize,
    pub ghost few: { count ≤ whole_next walk - 1 },
    pub ghost room: { count ≤ 28 },
}
