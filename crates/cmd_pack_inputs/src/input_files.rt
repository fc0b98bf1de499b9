//! The files of a command, as its arguments name them.

ghost use Rattle.std.specs.Prelude.{◌≡◌};
ghost use Rattle.sys_refusals.specs.Paths.{output_path, path_of, path_out};

use sys_refusals::FileArg;

/// A file that is read, at this path.
pub(crate) fn file_at<'a>(role: &'a str, path: &'a str) -> FileArg<'a>
    ensures { path_of result ≡ path.now }
{
    FileArg {
        role,
        folder: None,
        name: path,
        number: None,
    }
}

/// The output that this argument names.
pub fn output_at<'a>(word: &'a str) -> FileArg<'a>
    ensures { path_out result ≡ output_path word.now }
{
    FileArg {
        role: "OUT",
        folder: None,
        name: word,
        number: None,
    }
}
