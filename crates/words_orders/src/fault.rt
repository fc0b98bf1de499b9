//! Why words are rejected.

ghost use Rattle.std.specs.Prelude.{◌≡◌};
ghost use Rattle.words_orders.specs.declared.fault.WordsFault.TheVariants.{Memory};

use clap::Error;
use clap::error::ErrorKind;
use std::alloc::{AllocError, AllocFailed};

/// Why words are rejected.
#[derive(Drop)]
pub enum WordsFault {
    /// A mistake, or `--help` or `--version`: the text for the user.
    Usage(Error),
    /// Clap refuses words that ask for an order by the table, which no correct parser does.
    Misread(Error),
    /// This word is no number, or one that does not fit its value.
    BadNumber {
        word: String,
        /// Whether it encodes a number of 64 bits, which then is one of 4 GiB or more.
        is_number: bool,
        /// Whether the error is to have its second line.
        is_verbose: bool,
    },
    /// AOSP's tool does what is asked for, and this program doesn't. The text names what does it instead.
    NotTaken(&'static str),
    /// An allocation failed.
    Memory,
}

impl From<AllocError> for WordsFault {
    ghost from_gives = { λ _ fault. fault ≡ Memory };

    fn from(_error: AllocError) -> WordsFault {
        WordsFault::Memory
    }
}

impl From<Error> for WordsFault {
    fn from(error: Error) -> WordsFault {
        match error.kind() {
            ErrorKind::OutOfMemory => WordsFault::Memory,
            _ => WordsFault::Usage(error),
        }
    }
}
