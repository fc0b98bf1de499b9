//! Why a command fails: the fault, the file that it is about, and the system's reason, in one value.

ghost use Rattle.std.specs.Prelude.{◌≡◌, None, Some};
ghost use Rattle.sys_refusals.specs.Blamed.{place_on};

use crate::place::FileArg;
use crate::told::{Side, Told};

/// What an error is about.
#[derive(Clone, Copy, Drop)]
pub struct About<'a> {
    /// The file.
    pub place: Option<FileArg<'a>>,
    /// Why the system call failed, by the number of the error.
    pub why: Option<i32>,
    /// The output that was begun and isn't complete.
    pub unfinished: Option<FileArg<'a>>,
    /// Whether no message is printed, because it would be written into this file.
    pub is_untold: bool,
    /// Advice, where the fault alone does not give it.
    pub advice: Option<&'a str>,
}

impl<'a> About<'a> {
    /// No file.
    pub fn nothing() -> About<'a> {
        About {
            place: None,
            why: None,
            unfinished: None,
            is_untold: false,
            advice: None,
        }
    }
}

/// A fault, and what it is about.
#[derive(Drop)]
pub struct Refusal<'a, F> {
    pub fault: F,
    pub about: About<'a>,
}

impl<'a, F> Refusal<'a, F> {
    /// A fault that is about no file.
    pub fn of(fault: F) -> Refusal<'a, F>
        ensures { result.fault ≡ fault }
    {
        Refusal {
            fault,
            about: About::nothing(),
        }
    }
}

/// Why an operation on a file fails, whatever the file's content.
#[derive(Clone, Copy, Drop)]
pub enum HostFault {
    /// This file can't be opened.
    CannotOpen,
    /// This file can't be created: its folder is missing.
    NoFolder,
    /// The output is a file that is read, or written already.
    SameFile,
    /// The output is a block device that is in use: its file system is mounted, or it is swap.
    Mounted,
    /// A file has changed while it was read.
    Changed,
    /// A file of words is no text.
    NotText,
    /// A file of words is longer than such a file may be.
    TooLong,
    /// A file of words can't be read.
    Read,
    /// The output can't be finished, or the report can't be written.
    Write,
    /// An allocation failed.
    Memory,
}

/// A fault of files, and the file.
#[derive(Clone, Copy, Drop)]
pub struct HostRefusal<'a> {
    pub fault: HostFault,
    pub about: About<'a>,
}

impl<'a> HostRefusal<'a> {
    /// An allocation failed.
    pub fn memory() -> HostRefusal<'a>
        ensures { result.fault ≡ HostFault.Memory }
    {
        HostRefusal::of(HostFault::Memory, None)
    }

    /// An error about no file, with the number of the system's error.
    pub fn of(fault: HostFault, why: Option<i32>) -> HostRefusal<'a>
        ensures { result.fault ≡ fault }
    {
        let about = About {
            why,
            ..About::nothing()
        };
        HostRefusal { fault, about }
    }

    /// An error about a file, with the number of the system's error.
    pub fn at(fault: HostFault, place: FileArg<'a>, why: Option<i32>) -> HostRefusal<'a>
        ensures { result.fault ≡ fault }
    {
        let about = About {
            place: Some(place),
            why,
            ..About::nothing()
        };
        HostRefusal { fault, about }
    }

    /// The same, after this output was begun.
    pub fn begun(self, output: FileArg<'a>) -> HostRefusal<'a>
        ensures { result.fault ≡ self.entry.fault }
    {
        let about = About {
            unfinished: Some(output),
            ..self.about
        };
        HostRefusal {
            fault: self.fault,
            about,
        }
    }

    /// The same, with this advice.
    pub fn advised(self, advice: &'a str) -> HostRefusal<'a>
        ensures { result ≡ record self.entry { about = record self.entry.about { advice = result.about.advice } } }
    {
        let about = About {
            advice: Some(advice),
            ..self.about
        };
        HostRefusal {
            fault: self.fault,
            about,
        }
    }

    /// The same, with no message where the argument says so.
    pub fn untold_if(self, is_untold: bool) -> HostRefusal<'a>
        ensures fault { result.fault ≡ self.entry.fault }
        ensures untold { result.about.is_untold ≡ is_untold }
    {
        let mut refusal = self;
        refusal.about.is_untold = is_untold;
        refusal
    }
}

impl<'a, F: From<HostFault>> From<HostRefusal<'a>> for Refusal<'a, F> {
    ghost from_gives = { λ h r. F.from_gives h.fault r.fault };

    fn from(refusal: HostRefusal<'a>) -> Refusal<'a, F> {
        Refusal {
            fault: F::from(refusal.fault),
            about: refusal.about,
        }
    }
}

/// A file in use, and why its last call failed.
#[derive(Clone, Copy, Drop)]
struct At<'a> {
    place: Option<FileArg<'a>>,
    why: Option<i32>,
}

/// The files in use when a fault occurs. The fault is about one of them.
#[derive(Clone, Copy, Drop)]
pub struct Sides<'a> {
    input: At<'a>,
    output: At<'a>,
    spool: At<'a>,
    // The output that was begun and isn't complete.
    unfinished: Option<FileArg<'a>>,
}

impl<'a> Sides<'a> {
    /// No file is in use.
    pub fn none() -> Sides<'a>
        ensures input { result.input.place ≡ None }
        ensures output { result.output.place ≡ None }
        ensures spool { result.spool.place ≡ None }
    {
        let nothing = At {
            place: None,
            why: None,
        };
        Sides {
            input: nothing,
            output: nothing,
            spool: nothing,
            unfinished: None,
        }
    }

    /// This one is read.
    pub fn reading(self, place: FileArg<'a>, why: Option<i32>) -> Sides<'a>
        ensures place { result.input.place ≡ Some place.entry }
        ensures others { result ≡ record self.entry { input = result.input } }
    {
        let place = Some(place);
        Sides {
            input: At { place, why },
            ..self
        }
    }

    /// This one is written in place.
    pub fn writing(self, place: FileArg<'a>, why: Option<i32>) -> Sides<'a>
        ensures place { result.output.place ≡ Some place.entry }
        ensures others { result ≡ record self.entry { output = result.output } }
    {
        let place = Some(place);
        Sides {
            output: At { place, why },
            ..self
        }
    }

    /// The report is written.
    pub fn printing(self, why: Option<i32>) -> Sides<'a>
        ensures place { result.output.place ≡ None }
        ensures others { result ≡ record self.entry { output = result.output } }
    {
        Sides {
            output: At { place: None, why },
            ..self
        }
    }

    /// Pieces go through this one.
    pub fn through(self, place: FileArg<'a>, why: Option<i32>) -> Sides<'a>
        ensures place { result.spool.place ≡ Some place.entry }
        ensures others { result ≡ record self.entry { spool = result.spool } }
    {
        let place = Some(place);
        Sides {
            spool: At { place, why },
            ..self
        }
    }

    /// This one is written, and isn't complete.
    pub fn begun(self, place: FileArg<'a>, why: Option<i32>) -> Sides<'a>
        ensures place { result.output.place ≡ Some place.entry }
        ensures others { result ≡ record self.entry { output = result.output; unfinished = result.unfinished } }
    {
        let place = Some(place);
        Sides {
            output: At { place, why },
            unfinished: place,
            ..self
        }
    }

    /// The error for this fault. The fault says which of these files it is about.
    #[inline(never)]
    pub fn refuse<F: Told>(self, fault: F) -> Refusal<'a, F>
        ensures fault { result.fault ≡ fault }
        ensures place { result.about.place ≡ place_on self.entry (F.side_of fault) }
    {
        let At { place, why } = match fault.side() {
            Side::Input => self.input,
            Side::Output => self.output,
            Side::Spool => self.spool,
            Side::Words => Sides::none().input,
            Side::Call => Sides::none().input,
        };
        let about = About {
            place,
            why,
            unfinished: self.unfinished,
            is_untold: false,
            advice: None,
        };
        Refusal { fault, about }
    }
}
