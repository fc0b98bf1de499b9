//! The line that is printed of a part.

ghost use Rattle.std.specs.Prelude.{Some};
ghost use Rattle.cmd_unpack.specs.Lines.{part_line};

use cmd_common_boot::ImagePart;
use std::fmt;

/// The line of a part that was written.
#[derive(Drop)]
pub struct PartLine {
    pub part: ImagePart,
    /// How many bytes it has.
    pub bytes: u64,
}

impl fmt::Display for PartLine {
    ghost output = { λ line. Some (part_line line.part line.bytes) };

    fn fmt<W: fmt::Write>(&self, f: &mut fmt::Formatter<W>) -> fmt::Result {
        let bytes = self.bytes;
        match self.part {
            ImagePart::Section(kind) => write!(f, "{kind} {bytes}"),
            ImagePart::Fragment(index) => write!(f, "fragment {index} {bytes}"),
            ImagePart::Words => write!(f, "pack.words {bytes}"),
        }
    }
}
