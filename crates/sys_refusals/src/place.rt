//! A file, as the words name it.

ghost use Rattle.std.specs.Prelude.{◌≡◌, IfOk, Some, string_bytes};
ghost use Rattle.sys_refusals.specs.Paths.{is_standard, path_in, path_of, path_out, shown_place};

use std::alloc::{AllocError, Global};
use std::fmt;
use sys_text::ShownPath;

/// The word that gave a file, and its path: a word, or one of the files that a command makes names for, such as
/// `PREFIX.1`.
#[derive(Clone, Copy, Drop)]
pub struct FileArg<'a> {
    /// The word of the usage line, such as `IN`.
    pub role: &'a str,
    /// The folder, if that is a word by itself.
    pub folder: Option<&'a str>,
    pub name: &'a str,
    /// The number that follows the name, after a point.
    pub number: Option<u32>,
}

impl<'a> FileArg<'a> {
    /// A path that is a word.
    pub fn new(role: &'a str, path: &'a str) -> FileArg<'a> {
        FileArg {
            role,
            folder: None,
            name: path,
            number: None,
        }
    }

    /// A name in a folder.
    pub fn within(role: &'a str, folder: &'a str, name: &'a str) -> FileArg<'a> {
        FileArg {
            role,
            folder: Some(folder),
            name,
            number: None,
        }
    }

    /// The same with a number after its name.
    pub fn numbered(self, number: u32) -> FileArg<'a>
        ensures { result ≡ record self.entry { number = Some number } }
    {
        FileArg {
            number: Some(number),
            ..self
        }
    }

    /// Whether it is `-`, which means standard input or standard output.
    #[inline(never)]
    pub fn is_standard(&self) -> bool
        ensures { result ≡ is_standard self.now }
    {
        self.name == "-" && self.folder.is_none() && self.number.is_none()
    }

    /// The path, as the system takes it.
    pub fn path(&self, alloc: Global) -> Result<String, AllocError>
        ensures { IfOk result (λ path. string_bytes path ≡ path_of self.now) }
    {
        let name = self.name;
        match (self.folder, self.number) {
            (None, None) => String::from_str(alloc, name),
            (None, Some(number)) => format!(in alloc; "{name}.{number}"),
            (Some(folder), None) => format!(in alloc; "{folder}/{name}"),
            (Some(folder), Some(number)) => format!(in alloc; "{folder}/{name}.{number}"),
        }
    }

    /// The path of what is read: `-` is standard input.
    pub fn path_read(&self, alloc: Global) -> Result<String, AllocError>
        ensures { IfOk result (λ path. string_bytes path ≡ path_in self.now) }
    {
        if self.is_standard() {
            String::from_str(alloc, "/dev/stdin")
        } else {
            self.path(alloc)
        }
    }

    /// The path of what is written: `-` is standard output.
    pub fn path_written(&self, alloc: Global) -> Result<String, AllocError>
        ensures { IfOk result (λ path. string_bytes path ≡ path_out self.now) }
    {
        if self.is_standard() {
            String::from_str(alloc, "/dev/stdout")
        } else {
            self.path(alloc)
        }
    }
}

/// The path, as a terminal can show it.
impl fmt::Display for FileArg<'_> {
    ghost output = { λ place. Some (shown_place place) };

    #[inline(never)]
    fn fmt<W: fmt::Write>(&self, f: &mut fmt::Formatter<W>) -> fmt::Result {
        if let Some(folder) = self.folder {
            let folder = ShownPath(folder);
            write!(f, "{folder}/")?;
        }
        let name = ShownPath(self.name);
        write!(f, "{name}")?;
        match self.number {
            Some(number) => write!(f, ".{number}"),
            None => Ok(()),
        }
    }
}
