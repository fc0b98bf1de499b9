//! The message about a fault.

ghost use Rattle.std.specs.Prelude.{◌≡◌, Bool, List, OnOk, Option, ℕ};
ghost use Rattle.sys_refusals.specs.Host.{is_not_text};
ghost use Rattle.sys_refusals.specs.Said.{host_said, host_words, names_its_file};
ghost use Rattle.sys_refusals.specs.declared.place.FileArg.{FileArg};
ghost use Rattle.sys_refusals.specs.declared.told.Side.{Side};
ghost use Rattle.sys_text.specs.Printed.{Prints};

use crate::place::FileArg;
use crate::refusal::HostFault;
use abt_io::Output;
use std::fmt;
use sys_text::Text;

/// Which of the files in use a fault is about.
#[derive(Clone, Copy, Drop)]
pub enum Side {
    /// What is read.
    Input,
    /// What is written.
    Output,
    /// The file that the pieces of a flash go through.
    Spool,
    /// The words.
    Words,
    /// The file of the call that failed, which the refusal names by itself.
    Call,
}

/// The kinds of images that begin with a magic.
#[derive(Clone, Copy, Drop)]
pub enum Magic {
    /// Sparse images.
    Sparse,
    /// Boot images and vendor boot images.
    Boot,
}

/// A fault that has a message for the user.
pub trait Told {
    /// The words are wrong, rather than what they name.
    ghost wrong_words: { Self → Bool };

    /// Which of the files in use it is about.
    ghost side_of: { Self → Side };

    /// What the first line may say of it, beside this file.
    ghost says: { Self → Option FileArg → List ℕ → Type 0 };

    /// The piece from which a stopped flash continues.
    ghost mended_from: { Self → Option ℕ };

    /// Whether the words are wrong, rather than what they name.
    fn is_usage(&self) -> bool
        ensures { result ≡ wrong_words self.now };

    /// Which of the files in use it is about.
    fn side(&self) -> Side
        ensures { result ≡ side_of self.now };

    /// Whether a device or the opening of a file failed, so that the system gives the reason.
    fn is_of_a_device(&self) -> bool;

    /// Advice, where the system gives no reason.
    fn advice(&self) -> &'static str;

    /// The kind of image that was expected of a file that lacks its magic.
    fn missing_magic(&self) -> Option<Magic>;

    /// The piece from which a stopped flash continues.
    fn mending_piece(&self) -> Option<u32>
        ensures { result ≡ mended_from self.now };

    /// Adds what the first line says of it, after `abootimg: `. An Err is that of a text that is shown.
    fn put<O: Output>(&self, place: Option<FileArg<'_>>, text: &mut Text<'_, O>) -> fmt::Result
        ensures { (told : List ℕ) × Prints O.written O.write_faults text.old text.new told × OnOk
            result (says self.now place.entry told) };
}

impl HostFault {
    /// Advice, where the system gives no reason.
    pub fn advice(self) -> &'static str {
        match self {
            HostFault::CannotOpen => "it is neither a file nor a block device",
            HostFault::NoFolder => "its folder is missing",
            HostFault::SameFile => "it is read, so it is not written; name another file",
            HostFault::Mounted =>
                "it is in use: unmount it, or end its use as swap; --mounted writes it all the same",
            HostFault::Changed => "it changed while it was read; try again when nothing writes it",
            HostFault::NotText => "a file of words is text in UTF-8, with one word a line",
            HostFault::TooLong => "a file of words has at most 1 MiB",
            HostFault::Read => "it cannot be read",
            HostFault::Write => "it cannot be written",
            HostFault::Memory => "there is too little memory",
        }
    }

    /// Whether a device or the opening of a file failed, so that the system gives the reason.
    pub fn is_of_a_device(self) -> bool {
        match self {
            HostFault::CannotOpen => true,
            HostFault::Read => true,
            HostFault::Write => true,
            HostFault::NoFolder => false,
            HostFault::SameFile => false,
            HostFault::Mounted => false,
            HostFault::Changed => false,
            HostFault::NotText => false,
            HostFault::TooLong => false,
            HostFault::Memory => false,
        }
    }

    /// Whether the words are wrong: a file of them is no text, or too long.
    pub fn is_usage(self) -> bool
        ensures { result ≡ is_not_text self }
    {
        match self {
            HostFault::NotText => true,
            HostFault::TooLong => true,
            HostFault::CannotOpen => false,
            HostFault::NoFolder => false,
            HostFault::SameFile => false,
            HostFault::Mounted => false,
            HostFault::Changed => false,
            HostFault::Read => false,
            HostFault::Write => false,
            HostFault::Memory => false,
        }
    }

    /// Adds what the first line says of it. An Err is that of the file's name.
    pub fn put<O: Output>(self, place: Option<FileArg<'_>>, text: &mut Text<'_, O>) -> fmt::Result
        ensures { (told : List ℕ) × Prints O.written O.write_faults text.old text.new told × OnOk
            result (told ≡ host_said self place.entry) }
    {
        text.word(self.wrong());
        match place {
            Some(place) => {
                if self.names_its_file() {
                    text.short(place)
                } else {
                    Ok(())
                }
            }
            None => Ok(()),
        }
    }

    fn wrong(self) -> &'static str
        ensures { result.now ≡ host_words self }
    {
        match self {
            HostFault::CannotOpen => "cannot open ",
            HostFault::NoFolder => "cannot open ",
            HostFault::SameFile => "same file ",
            HostFault::Mounted => "mounted ",
            HostFault::Changed => "14 SourceChanged",
            HostFault::NotText => "not UTF-8 ",
            HostFault::TooLong => "too long ",
            HostFault::Read => "11 Read",
            HostFault::Write => "12 Write",
            HostFault::Memory => "memory",
        }
    }

    fn names_its_file(self) -> bool
        ensures { result ≡ names_its_file self }
    {
        match self {
            HostFault::CannotOpen => true,
            HostFault::NoFolder => true,
            HostFault::SameFile => true,
            HostFault::Mounted => true,
            HostFault::Changed => false,
            HostFault::NotText => true,
            HostFault::TooLong => true,
            HostFault::Read => false,
            HostFault::Write => false,
            HostFault::Memory => false,
        }
    }
}
