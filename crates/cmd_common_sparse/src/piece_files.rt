//! The files that arguments name: an image that is read at any position, and piece files.

ghost use Rattle.std.specs.Prelude.{◌≡◌, ◌<◌, ◌+◌, ℕ, None, Some};
ghost use Rattle.sys_refusals.specs.Paths.{numbered, path_of, shown_place};
ghost use Rattle.sys_text.specs.Shown.{as_shown};
ghost use Rattle.cmd_common_sparse.specs.ImagePath.{image_path};
ghost use Rattle.cmd_common_sparse.specs.PieceNames.{number_in_turn};

use sys_refusals::FileArg;

/// An image that is read at any position: `-` is standard input, which must then be a file.
pub fn image_place<'a>(input: &'a str) -> FileArg<'a>
    ensures { path_of result ≡ image_path input.now }
{
    FileArg {
        role: "IN",
        folder: None,
        name: if input == "-" { "/dev/stdin" } else { input },
        number: None,
    }
}

/// How the files of pieces are named: `PREFIX.1`, `PREFIX.2` and so on, or `PREFIX.0` and so on.
#[derive(Clone, Copy, Drop)]
pub struct PieceNaming<'a> {
    pub prefix: &'a str,
    /// Whether the first has the number 0, in the place of 1.
    pub is_from_zero: bool,
}

/// The files of pieces, in turn.
#[derive(Drop)]
pub struct PieceFiles<'a> {
    pub names: PieceNaming<'a>,
    /// How many there were.
    pub count: u32,
}

impl<'a> PieceFiles<'a> {
    /// There was none yet.
    pub fn new(names: PieceNaming<'a>) -> PieceFiles<'a>
        ensures begins { result.names ≡ names.entry }
        ensures none { result.count ≡ 0 }
    {
        PieceFiles { names, count: 0 }
    }

    /// The number of the piece that was counted last.
    pub fn number(&self) -> u32
        ensures { result ≡ number_in_turn self.now.names.is_from_zero self.now.count }
    {
        if self.names.is_from_zero {
            self.count.saturating_sub(1)
        } else {
            self.count
        }
    }

    /// The prefix that all names have before their numbers.
    pub fn front(&self) -> FileArg<'a>
        ensures path { (n : ℕ) → path_of (record result { number = Some n })
            ≡ numbered self.now.names.prefix.now (Some n) }
        ensures shown { (n : ℕ) → shown_place (record result { number = Some n })
            ≡ numbered (as_shown self.now.names.prefix.now) (Some n) }
    {
        FileArg {
            role: "PIECE",
            folder: None,
            name: self.names.prefix,
            number: None,
        }
    }

    /// The file of the next piece, which is counted.
    pub fn next(&mut self) -> FileArg<'a>
        ensures name { result.name ≡ self.old.names.prefix }
        ensures number { result.number ≡ Some (number_in_turn self.new.names.is_from_zero self.new.count) }
        ensures folder { result.folder ≡ None }
        ensures counted { self.old.count < 4294967295 → self.new.count ≡ self.old.count + 1 }
        ensures begins { self.new.names ≡ self.old.names }
    {
        self.count = self.count.saturating_add(1);
        FileArg {
            role: "PIECE",
            folder: None,
            name: self.names.prefix,
            number: Some(self.number()),
        }
    }
}
