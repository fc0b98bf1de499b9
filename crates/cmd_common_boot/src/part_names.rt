//! The names of the files that `unpack` writes to a folder, and their order.

ghost use Rattle.std.specs.Prelude.{◌≡◌};
ghost use Rattle.abt_sections.specs.Header.{view_of};
ghost use Rattle.cmd_common_boot.specs.Unpacked.{IsPart, part_count};

use abt_headers::Section;
use abt_sections::{Image, fragments, section, sections};
use sys_refusals::FileArg;

/// A file that `unpack` writes.
#[derive(Clone, Copy, Drop)]
pub enum ImagePart {
    /// A section.
    Section(Section),
    /// The ramdisk fragment of this index.
    Fragment(u32),
    /// The arguments that pack the image again.
    Words,
}

impl ImagePart {
    /// The file in a folder: `kernel`, `fragment.0`, `pack.words`.
    pub fn place<'a>(self, folder: &'a str) -> FileArg<'a> {
        FileArg {
            role: "PART",
            folder: Some(folder),
            name: self.name(),
            number: self.number(),
        }
    }

    fn number(self) -> Option<u32> {
        match self {
            ImagePart::Fragment(index) => Some(index),
            ImagePart::Section(_) | ImagePart::Words => None,
        }
    }

    fn name(self) -> &'static str {
        match self {
            ImagePart::Section(kind) => kind.name(),
            ImagePart::Fragment(_) => "fragment",
            ImagePart::Words => "pack.words",
        }
    }
}

/// How many files are written.
pub fn part_count(image: &Image, with_words: bool) -> u64
    ensures { result ≡ part_count (view_of image.now.header) with_words }
{
    let parts = sections(image) as u64 + fragments(image) as u64;
    if with_words { parts + 1 } else { parts }
}

/// The file that is written as file `i`: sections are first, then fragments, then the arguments.
pub fn part_of(image: &Image, i: u64) -> ImagePart
    ensures { IsPart (view_of image.now.header) i result }
{
    let sections = sections(image) as u64;
    if i < sections {
        return ImagePart::Section(section(image, i as usize).kind);
    }
    let index = i - sections;
    if index < fragments(image) as u64 {
        return ImagePart::Fragment(index as u32);
    }
    ImagePart::Words
}
