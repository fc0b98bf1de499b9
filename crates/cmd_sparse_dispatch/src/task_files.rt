//! The files that the arguments of a task name.

ghost use Rattle.std.specs.Prelude.{◌≡◌};
ghost use Rattle.sys_refusals.specs.Paths.{output_path, path_in, path_of, path_out};
ghost use Rattle.cmd_common_sparse.specs.ImagePath.{image_path};

use sys_refusals::FileArg;

/// The file that an argument names. `-` is standard input where it is read forward, and standard output where it is an
/// output.
pub(crate) fn place<'a>(role: &'static str, word: &'a str) -> FileArg<'a>
    ensures at { path_of result ≡ word.now }
    ensures read { path_in result ≡ image_path word.now }
    ensures written { path_out result ≡ output_path word.now }
{
    FileArg {
        role,
        folder: None,
        name: word,
        number: None,
    }
}
