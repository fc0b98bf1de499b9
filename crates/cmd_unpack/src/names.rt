//! The file of a part.

ghost use Rattle.std.specs.Prelude.{◌≡◌};
ghost use Rattle.sys_refusals.specs.Paths.{path_of, path_out};
ghost use Rattle.cmd_unpack.specs.Unpacking.{part_name, part_number, path_of_part};

use cmd_common_boot::ImagePart;
use sys_refusals::FileArg;

/// The file of a part in a folder: `kernel`, `fragment.0`, `pack.words`.
pub fn place_of<'a>(part: ImagePart, folder: &'a str) -> FileArg<'a>
    ensures path { path_of result ≡ path_of_part folder.now part }
    ensures written { path_out result ≡ path_of_part folder.now part }
{
    FileArg {
        role: "PART",
        folder: Some(folder),
        name: part_name(part),
        number: part_number(part),
    }
}

fn part_name(part: ImagePart) -> &'static str
    ensures { result.now ≡ part_name part }
{
    match part {
        ImagePart::Section(kind) => kind.name(),
        ImagePart::Fragment(_) => "fragment",
        ImagePart::Words => "pack.words",
    }
}

fn part_number(part: ImagePart) -> Option<u32>
    ensures { result ≡ part_number part }
{
    match part {
        ImagePart::Fragment(index) => Some(index),
        ImagePart::Section(_) | ImagePart::Words => None,
    }
}
